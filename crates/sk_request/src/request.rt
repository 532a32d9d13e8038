// What the words of the command line ask for.
ghost use Rattle.std.specs.Prelude.{map, string_bytes, IfSome, IfNone};
ghost use Rattle.sk_request.specs.declared.request.Request.{Request as AnyRequest};
ghost use Rattle.sk_request.specs.Asking.{Asks, IsSized, LacksSize};

use crate::bits::Bits;
use crate::command::{Command, command_of};
use crate::settings::settings_of;
use sk_close_by_order::Order;
use sk_place::{FrameBy, Layout, PlaceBy};

/// The limit of tolerance where no key gives it.
const LIMIT: u64 = 1_000;

/// A command, the order of merges, the grid, the most that a tolerance may be, in nanometres for
/// lengths and heights and in parts per 10^9 for angles, what places are while the plan is placed, and in
/// which frame they are told.
#[derive(Clone, Copy, Debug, PartialEq, Eq)]
pub struct Request {
    pub command: Command,
    pub order: Order,
    pub bits: Bits,
    pub within: u64,
    pub layout: Layout,
}

/// What the words ask for, if they are of the form.
pub fn request_of(words: &[String]) -> Option<Request>
    ensures some { IfSome result (Asks (map string_bytes words.now)) }
    ensures none { IfNone result ((request : AnyRequest) → Asks (map string_bytes words.now) request → ⊥) }
{
    let (first, keys) = words.split_first()?;
    let named = command_of(first.as_str())?;
    let settings = settings_of(named, keys)?;
    let command = sized(named, settings.size)?;
    Some(Request {
        command,
        order: settings.order.unwrap_or(Order::First),
        bits: settings.bits.unwrap_or(Bits::ThirtyEight),
        within: settings.within.unwrap_or(LIMIT),
        layout: Layout {
            by: settings.place.unwrap_or(PlaceBy::Boxes),
            frame: settings.frame.unwrap_or(FrameBy::Base),
        },
    })
}

/// The command with its size, if one is set where one is needed.
fn sized(command: Command, size: Option<u32>) -> Option<Command>
    ensures some { IfSome result (IsSized command size) }
    ensures none { IfNone result (LacksSize command size) }
{
    match command {
        Command::Grow(_) => Some(Command::Grow(size?)),
        _ => Some(command),
    }
}
