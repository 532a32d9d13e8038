use sk_base::{NoMemory, Text};

/// What answers lines, one after another.
pub trait Replier {
    ghost use Rattle.std.specs.Prelude.{◌<◌, ◌≤◌, ℕ, List, length, IfOk, IfSome, IfNone};

    /// What a line is answered: the state before, the line, the state behind it, and the text.
    ghost replies: { Self → List ℕ → Self → List ℕ → Type 0 };

    /// The line ends it all, in this state.
    ghost ends: { Self → List ℕ → Type 0 };

    /// Lines of more than 200 bytes are all answered alike.
    ghost long_alike: { (old new : Self) (line other text : List ℕ) → 200 < length line → 200 < length other → replies old line new text → replies old other new text };

    /// A line that ends it all has 200 bytes at most.
    ghost long_goes_on: { (state : Self) (line : List ℕ) → ends state line → length line ≤ 200 };

    /// The reply to a line, which comes without its line end, or None where the line ends it all.
    fn reply(&mut self, line: &[u8]) -> Result<Option<Text>, NoMemory>
        ensures said { IfOk result (λ said. IfSome said (replies self.old line.now self.new)) }
        ensures ended { IfOk result (λ said. IfNone said (ends self.old line.now)) };
}
