// The offers that stand behind a sketch.
ghost use Rattle.std.specs.Prelude.{◌≡◌, ◌<◌, ◌+◌, ◌⊎◌, ℕ, List as Items, length, IfOk, IfErr};
ghost use Rattle.sk_lines.specs.Lines.{lines_in};
ghost use Rattle.sk_lines.specs.declared.Code.{Code as AnyCode};
ghost use Rattle.sk_offers.specs.OfferReading.{ReadsOffers, RefusesOffers, IsOfferRefusal};
ghost use Rattle.sk_offers.specs.declared.offer_line.OfferLine.{OfferLine as AnyOffer};

use crate::offer_line::{OfferLine, OfferReader, Place, SoFar};
use sk_base::List;
use sk_lines::{Code, ReadError, read_lines};
use std::alloc::Global;

/// Reads the offers that stand behind the `end` of a sketch, up to their own `end`. The lines are numbered
/// from `first` + 1.
pub fn read_offers(alloc: Global, bytes: &[u8], first: u32) -> Result<List<OfferLine>, ReadError>
    requires { first + length (lines_in bytes.now) < 4294967295 }
    ensures reads { IfOk result (ReadsOffers bytes.now) }
    ensures refuses { IfErr result (IsOfferRefusal first bytes.now) }
{
    let nothing = SoFar {
        place: Place::Among,
        offers: List::new(alloc),
    };
    let (so_far, number) = read_lines(alloc, &OfferReader, nothing, bytes, first)?;
    match so_far.place {
        Place::Among => Err(ReadError::refused(number + 1, Code::E16)),
        Place::Past => Ok(so_far.offers),
    }
}

/// Every text is read as offers or refused, and not both, with one list of offers or one refusal.
pub fn one_reading_of_offers()
    ensures some { (first : ℕ) (bytes : Items ℕ) → ((offers : Items AnyOffer) × ReadsOffers bytes offers) ⊎ ((n : ℕ) × ((code : AnyCode) × RefusesOffers first bytes n code)) }
    ensures one_list { (bytes : Items ℕ) (offers others : Items AnyOffer) → ReadsOffers bytes offers → ReadsOffers bytes others → offers ≡ others }
    ensures one_refusal { (first : ℕ) (bytes : Items ℕ) (n m : ℕ) (c d : AnyCode) → RefusesOffers first bytes n c → RefusesOffers first bytes m d → (n ≡ m) × (c ≡ d) }
    ensures not_both { (first : ℕ) (bytes : Items ℕ) (offers : Items AnyOffer) (n : ℕ) (code : AnyCode) → ReadsOffers bytes offers → RefusesOffers first bytes n code → ⊥ }
{}
