// The claim that stands behind a sketch.
ghost use Rattle.std.specs.Prelude.{◌≡◌, ◌<◌, ◌+◌, ◌⊎◌, ℕ, List as Items, length, IfOk, IfErr};
ghost use Rattle.sk_base.specs.declared.Sketch.{Sketch as ASketch};
ghost use Rattle.sk_claims.specs.declared.claim.Claim.{Claim as AClaim};
ghost use Rattle.sk_lines.specs.Lines.{lines_in};
ghost use Rattle.sk_lines.specs.declared.Code.{Code as ACode};
ghost use Rattle.sk_base.specs.SoundSketch.{IsSoundSketch};
ghost use Rattle.sk_graph.specs.SketchGraph.{graph_of};
ghost use Rattle.sk_claims.specs.Claims.{IsFitting, TellsCircles};
ghost use Rattle.sk_claims.specs.ClaimReading.{ReadsClaim, RefusesClaim, IsClaimRefusal};

use crate::claim::Claim;
use crate::claim_line::{ClaimReader, nothing_yet};
use sk_base::Sketch;
use sk_lines::{Code, ReadError, read_lines};
use std::alloc::Global;

/// Reads the claim that stands behind the `end` of a sketch, up to its tolerances. The lines are numbered
/// from `first` + 1.
pub fn read_claim(alloc: Global, s: &Sketch, bytes: &[u8], first: u32) -> Result<Claim, ReadError>
    requires { first + length (lines_in bytes.now) < 4294967295 }
    ensures reads { IfOk result (ReadsClaim s.now bytes.now) }
    ensures fits { IfOk result (IsFitting (graph_of s.now)) }
    ensures circles { IsSoundSketch s.now → IfOk result (TellsCircles s.now) }
    ensures refuses { IfErr result (IsClaimRefusal s.now first bytes.now) }
{
    let reader = ClaimReader { sketch: s };
    let (so_far, number) = read_lines(alloc, &reader, nothing_yet(alloc), bytes, first)?;
    match so_far.tolerances {
        None => Err(ReadError::refused(number + 1, Code::E16)),
        Some(tolerances) => Ok(Claim {
            steps: so_far.steps,
            at: so_far.at,
            radii: so_far.radii,
            t: tolerances.t,
            w: tolerances.w,
        }),
    }
}

/// Every text is read as a claim or refused, and not both, as one claim or with one refusal.
pub fn one_reading_of_claims()
    ensures some { (s : ASketch) (first : ℕ) (bytes : Items ℕ) → ((claim : AClaim) × ReadsClaim s bytes claim) ⊎ ((n : ℕ) × ((code : ACode) × RefusesClaim s first bytes n code)) }
    ensures one_claim { (s : ASketch) (bytes : Items ℕ) (claim other : AClaim) → ReadsClaim s bytes claim → ReadsClaim s bytes other → claim ≡ other }
    ensures one_refusal { (s : ASketch) (first : ℕ) (bytes : Items ℕ) (n m : ℕ) (c d : ACode) → RefusesClaim s first bytes n c → RefusesClaim s first bytes m d → (n ≡ m) × (c ≡ d) }
    ensures not_both { (s : ASketch) (first : ℕ) (bytes : Items ℕ) (claim : AClaim) (n : ℕ) (code : ACode) → ReadsClaim s bytes claim → RefusesClaim s first bytes n code → ⊥ }
{}
