// Pickers by an order of merges.
ghost use Rattle.std.specs.Prelude.{◌≡◌, ◌<◌, ◌*◌, ◌%◌};

use crate::picker::Picker;
use std::marker::Model;

/// An order of merges: at each turn the first choice, the last one, or at call i, from 0, the one at
/// place i·k modulo their number.
#[derive(Clone, Copy, PartialEq, Eq, Debug)]
pub enum Order {
    First,
    Last,
    Stride(u16),
}

/// The picker of an order. Its call number stays at the greatest `u64` once it is there.
#[derive(Drop)]
pub struct Chosen {
    order: Order,
    calls: u64,
}

impl Model for Chosen {
    ghost use Rattle.sk_close_by_order.specs.Orders.{Choosing};

    ghost Value = { Choosing };

    ghost view = { λ c. record { order = c.order; call = c.calls } };
}

impl Chosen {
    /// The picker of the order, before its first call.
    pub fn new(order: Order) -> Self
        ensures { result ≡ record { order = order; call = 0 } }
    {
        Chosen { order, calls: 0 }
    }
}

impl Picker for Chosen {
    ghost use Rattle.sk_close_by_order.specs.Orders.{place_of, next_call, place_below};

    ghost answer = { place_of };

    ghost after = { next_call };

    ghost in_range = { place_below };

    fn pick(&mut self, count: u64) -> u64 {
        let place = match self.order {
            Order::First => 0,
            Order::Last => count - 1,
            Order::Stride(stride) => at_stride(self.calls, stride, count),
        };
        self.calls = self.calls.saturating_add(1);
        place
    }
}

fn at_stride(call: u64, stride: u16, count: u64) -> u64
    requires { 0 < count }
    ensures { result ≡ (call * stride) % count }
{
    (u128::from(call) * u128::from(stride) % u128::from(count)) as u64
}
