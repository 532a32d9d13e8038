ghost use Rattle.std.specs.Prelude.{◌≡◌, ◌<◌, ◌⊎◌, ℕ, List, All, None, Some};
ghost use Rattle.sk_base.specs.declared.ConId.{ConId};
ghost use Rattle.sk_base.specs.declared.Constraint.{Constraint as AConstraint};
ghost use Rattle.sk_base.specs.declared.Elem.{Elem};
ghost use Rattle.sk_base.specs.declared.Element.{Element as AnElement};
ghost use Rattle.sk_base.specs.declared.Sketch.{Sketch};
ghost use Rattle.sk_base.specs.SoundSketch.{IsSoundSketch};
ghost use Rattle.sk_lines.specs.declared.Version.{Version};
ghost use Rattle.sk_entry.specs.declared.entry.Entry.{Entry as AnEntry};
ghost use Rattle.sk_entry.specs.Entry.{entry_code, IsEntryOf, IsOther, StandsOn, IsNumbered};
ghost use Rattle.sk_entry.specs.Meaning.{added};

/// A line without a code of its bytes or of an entry says something. Two things that a line says are equal, or
/// both are another line's words, in the order in which they stand there.
pub fn one_entry()
    ensures some { (v : Version) (s : Sketch) (line : List ℕ) (elem : Elem) (con : ConId) → entry_code v s line ≡ None → (x : AnEntry) × IsEntryOf v s line elem con x }
    ensures one { (v : Version) (s : Sketch) (line : List ℕ) (elem : Elem) (con : ConId) (x y : AnEntry) → IsEntryOf v s line elem con x → IsEntryOf v s line elem con y → (x ≡ y) ⊎ (IsOther v line x × IsOther v line y) }
{}

/// What a line says is told by its first word, and has the number that was to be given.
pub fn what_a_line_says()
    ensures stands_on { (v : Version) (s : Sketch) (line : List ℕ) (elem : Elem) (con : ConId) (x : AnEntry) → IsEntryOf v s line elem con x → StandsOn v line x }
    ensures numbered { (v : Version) (s : Sketch) (line : List ℕ) (elem : Elem) (con : ConId) (x : AnEntry) → IsEntryOf v s line elem con x → IsNumbered elem con x }
{}

/// A sound sketch stays sound with what a line without a code says, where the numbers that were to be given
/// are above all of the sketch.
pub fn entries_keep_soundness()
    ensures { (v : Version) (s : Sketch) (line : List ℕ) (elem : Elem) (con : ConId) (x : AnEntry) → IsSoundSketch s
        → All (λ (e : AnElement). e.number.0 < elem.0) s.elements → All (λ (c : AConstraint). c.number.0 < con.0) s.constraints
        → entry_code v s line ≡ None → IsEntryOf v s line elem con x → IsSoundSketch (added s (Some x)) }
{}
