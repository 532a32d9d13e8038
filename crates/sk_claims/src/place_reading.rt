// The places that stand behind a sketch.
ghost use Rattle.std.specs.Prelude.{◌≡◌, ◌<◌, ◌+◌, ◌⊎◌, ℕ, List as Items, length, IfOk, IfErr};
ghost use Rattle.sk_base.specs.declared.Sketch.{Sketch as ASketch};
ghost use Rattle.sk_base.specs.SoundSketch.{IsSoundSketch};
ghost use Rattle.sk_lines.specs.Lines.{lines_in};
ghost use Rattle.sk_lines.specs.declared.Code.{Code as ACode};
ghost use Rattle.sk_graph.specs.SketchGraph.{graph_of};
ghost use Rattle.sk_claims.specs.declared.claim.Claim.{Claim as AClaim};
ghost use Rattle.sk_claims.specs.Claims.{IsFitting, TellsCircles};
ghost use Rattle.sk_claims.specs.PlaceReading.{ReadsPlaces, RefusesPlaces, IsPlacesRefusal};

use crate::claim::Claim;
use crate::claim_line::nothing_yet;
use crate::place_line::{PlaceReader, PlacesSoFar, Stage};
use sk_base::{List, Sketch};
use sk_lines::{Code, ReadError, read_lines};
use std::alloc::Global;

/// Reads the places that stand behind the `end` of a sketch, up to their own `end`, as a claim without steps and
/// within no tolerance. The lines are numbered from `first` + 1.
pub fn read_places(alloc: Global, s: &Sketch, bytes: &[u8], first: u32) -> Result<Claim, ReadError>
    requires { first + length (lines_in bytes.now) < 4294967295 }
    ensures reads { IfOk result (ReadsPlaces s.now bytes.now) }
    ensures fits { IfOk result (IsFitting (graph_of s.now)) }
    ensures circles { IsSoundSketch s.now → IfOk result (TellsCircles s.now) }
    ensures refuses { IfErr result (IsPlacesRefusal s.now first bytes.now) }
{
    let reader = PlaceReader { sketch: s };
    let nothing = PlacesSoFar {
        stage: Stage::Among,
        claim: nothing_yet(alloc),
    };
    let (so_far, number) = read_lines(alloc, &reader, nothing, bytes, first)?;
    match so_far.stage {
        Stage::Among => Err(ReadError::refused(number + 1, Code::E16)),
        Stage::Past => Ok(Claim {
            steps: List::new(alloc),
            at: so_far.claim.at,
            radii: so_far.claim.radii,
            t: 0,
            w: 0,
        }),
    }
}

/// Every text is read as places or refused, and not both, as one claim or with one refusal.
pub fn one_reading_of_places()
    ensures some { (s : ASketch) (first : ℕ) (bytes : Items ℕ) → ((claim : AClaim) × ReadsPlaces s bytes claim) ⊎ ((n : ℕ) × ((code : ACode) × RefusesPlaces s first bytes n code)) }
    ensures one_claim { (s : ASketch) (bytes : Items ℕ) (claim other : AClaim) → ReadsPlaces s bytes claim → ReadsPlaces s bytes other → claim ≡ other }
    ensures one_refusal { (s : ASketch) (first : ℕ) (bytes : Items ℕ) (n m : ℕ) (c d : ACode) → RefusesPlaces s first bytes n c → RefusesPlaces s first bytes m d → (n ≡ m) × (c ≡ d) }
    ensures not_both { (s : ASketch) (first : ℕ) (bytes : Items ℕ) (claim : AClaim) (n : ℕ) (code : ACode) → ReadsPlaces s bytes claim → RefusesPlaces s first bytes n code → ⊥ }
{}
