// What picks among choices.
ghost use Rattle.std.specs.Prelude.{◌≡◌, ◌<◌, ℕ};

/// Answers which of some choices is taken. Its type gives the answer to a count in a state, and the
/// state after that answer.
pub trait Picker {
    ghost answer: { Self → ℕ → ℕ };

    ghost after: { Self → ℕ → Self };

    /// The place, from 0, of the choice that is taken.
    fn pick(&mut self, count: u64) -> u64
        requires { 0 < count }
        ensures answer { result ≡ answer self.old count }
        ensures in_range { result < count }
        ensures after { self.new ≡ after self.old count };

    /// In every state, the answer to a count is below it.
    ghost in_range: { (p : Self) (count : ℕ) → 0 < count → answer p count < count };
}
