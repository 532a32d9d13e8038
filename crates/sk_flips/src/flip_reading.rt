// The flips that stand behind a sketch.
ghost use Rattle.std.specs.Prelude.{◌≡◌, ◌<◌, ◌≤◌, ◌+◌, ◌⊎◌, ℕ, List as Items, length, IfOk, IfErr};
ghost use Rattle.sk_base.specs.declared.Name.{Name as OfName};
ghost use Rattle.sk_lines.specs.Lines.{lines_in};
ghost use Rattle.sk_lines.specs.declared.Code.{Code as AnyCode};
ghost use Rattle.sk_flips.specs.FlipReading.{ReadsFlips, RefusesFlips, IsFlipRefusal};

use crate::flip_line::{FlipLines, Place, SoFar};
use sk_base::{List, Name};
use sk_lines::{Code, ReadError, read_lines};
use std::alloc::Global;

/// Reads the flips that stand behind the `end` of a sketch, up to their own `end`: the steps that each
/// line names. The lines are numbered from `first` + 1.
pub fn read_flips(alloc: Global, bytes: &[u8], first: u32) -> Result<List<List<Name>>, ReadError>
    requires { first + length (lines_in bytes.now) < 4294967295 }
    ensures reads { IfOk result (ReadsFlips bytes.now) }
    ensures few { IfOk result (λ lists. length lists ≤ 64) }
    ensures refuses { IfErr result (IsFlipRefusal first bytes.now) }
{
    let nothing = SoFar {
        place: Place::Among,
        flips: List::new(alloc),
    };
    let (so_far, number) = read_lines(alloc, &FlipLines, nothing, bytes, first)?;
    match so_far.place {
        Place::Among => Err(ReadError::refused(number + 1, Code::E16)),
        Place::Past => Ok(so_far.flips),
    }
}

/// Every text is read as flips or refused, and not both, with one list of flips or one refusal.
pub fn one_reading_of_flips()
    ensures some { (first : ℕ) (bytes : Items ℕ) → ((lists : Items (Items OfName)) × ReadsFlips bytes lists) ⊎ ((n : ℕ) × ((code : AnyCode) × RefusesFlips first bytes n code)) }
    ensures one_list { (bytes : Items ℕ) (lists others : Items (Items OfName)) → ReadsFlips bytes lists → ReadsFlips bytes others → lists ≡ others }
    ensures one_refusal { (first : ℕ) (bytes : Items ℕ) (n m : ℕ) (c d : AnyCode) → RefusesFlips first bytes n c → RefusesFlips first bytes m d → (n ≡ m) × (c ≡ d) }
    ensures not_both { (first : ℕ) (bytes : Items ℕ) (lists : Items (Items OfName)) (n : ℕ) (code : AnyCode) → ReadsFlips bytes lists → RefusesFlips first bytes n code → ⊥ }
{}
