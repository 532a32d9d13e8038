ghost use Rattle.std.specs.Prelude.{◌≡◌, ◌<◌, ◌≤◌, [], ◌∷◌, ◌++◌, length, OnOk, OnErr};
ghost use Rattle.sk_base.specs.Spelling.{with_minus, digit_at, fraction_text, six_digits, whole_text, mm_text, fixed_text};

use crate::spelling::Spelling;
use sk_base::{NoMemory, Text, Um};

/// Appends numbers to a text.
pub trait Puts {
    ghost use Rattle.std.specs.Prelude.{List, ℕ};

    /// The bytes of the text.
    ghost text: { Self → List ℕ };

    /// Appends the decimal spelling.
    fn put_whole(&mut self, n: i128) -> Result<(), NoMemory>
        ensures ok { OnOk result (text self.new ≡ text self.old ++ whole_text n) }
        ensures err { OnErr result (text self.new ≡ text self.old) };

    /// Appends the canonical millimetres.
    fn put_mm(&mut self, v: Um) -> Result<(), NoMemory>
        ensures ok { OnOk result (text self.new ≡ text self.old ++ mm_text v.0) }
        ensures err { OnErr result (text self.new ≡ text self.old) };

    /// Appends nanometres as millimetres with six decimals.
    fn put_fixed(&mut self, nm: i128) -> Result<(), NoMemory>
        ensures ok { OnOk result (text self.new ≡ text self.old ++ fixed_text nm) }
        ensures err { OnErr result (text self.new ≡ text self.old) };
}

impl Puts for Text {
    ghost text = { λ text. text };

    fn put_whole(&mut self, n: i128) -> Result<(), NoMemory> {
        let mut spelling = Spelling::new();
        spelling.put_decimal(n.unsigned_abs());
        put_minus(&mut spelling, n);
        self.put(spelling.as_bytes())
    }

    fn put_mm(&mut self, v: Um) -> Result<(), NoMemory> {
        let um = u128::from(v.0.unsigned_abs());
        let mut spelling = Spelling::new();
        put_fraction(&mut spelling, um);
        spelling.put_decimal(um / 1000);
        put_minus(&mut spelling, i128::from(v.0));
        self.put(spelling.as_bytes())
    }

    fn put_fixed(&mut self, nm: i128) -> Result<(), NoMemory> {
        let magnitude = nm.unsigned_abs();
        let mut spelling = Spelling::new();
        put_six_digits(&mut spelling, magnitude);
        spelling.put_byte(b'.');
        spelling.put_decimal(magnitude / 1_000_000);
        put_minus(&mut spelling, nm);
        self.put(spelling.as_bytes())
    }
}

/// Puts a `-` in front where the number is negative.
fn put_minus(spelling: &mut Spelling, n: i128)
    requires { length spelling.old < 48 }
    ensures { spelling.new ≡ with_minus n spelling.old }
{
    if n < 0 {
        spelling.put_byte(b'-');
    }
}

/// Puts the digit at a place in front.
fn put_digit(spelling: &mut Spelling, unit: u128, n: u128)
    requires room { length spelling.old < 48 }
    requires unit { 0 < unit }
    ensures { spelling.new ≡ digit_at unit n ∷ spelling.old }
{
    spelling.put_byte(b'0' + (n / unit % 10) as u8);
}

/// Puts the micrometres below a millimetre in front, with no zero at the end.
fn put_fraction(spelling: &mut Spelling, um: u128)
    requires { spelling.old ≡ [] }
    ensures text { spelling.new ≡ fraction_text um }
    ensures len { length spelling.new ≤ 4 }
{
    if um % 1000 == 0 {
        return;
    }
    if um % 100 != 0 {
        if um % 10 != 0 {
            put_digit(spelling, 1, um);
        }
        put_digit(spelling, 10, um);
    }
    put_digit(spelling, 100, um);
    spelling.put_byte(b'.');
}

/// Puts the last six digits in front.
fn put_six_digits(spelling: &mut Spelling, n: u128)
    requires { spelling.old ≡ [] }
    ensures text { spelling.new ≡ six_digits n }
    ensures len { length spelling.new ≡ 6 }
{
    put_digit(spelling, 1, n);
    put_digit(spelling, 10, n);
    put_digit(spelling, 100, n);
    put_digit(spelling, 1000, n);
    put_digit(spelling, 10_000, n);
    put_digit(spelling, 100_000, n);
}
