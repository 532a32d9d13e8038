// Whether each element of a sketch is told in a claim, a circle with its radius.
ghost use Rattle.std.specs.Prelude.{◌↔◌, IsTrue, IsSome, IsNone, IfSome, Contains};
ghost use Rattle.sk_base.specs.declared.Element.{Element as AnyElement};
ghost use Rattle.sk_base.specs.Places.{place_of};
ghost use Rattle.sk_base.specs.SoundSketch.{IsSoundSketch, IsSoundShape, IsLength};
ghost use Rattle.sk_claims.specs.Claims.{radius_nm};
ghost use Rattle.sk_verify.specs.AsClaimed.{HasItsRadius, IsTold};
ghost use Rattle.sk_verify.specs.Failing.{AllTold, IsFirstUntold};
ghost use Rattle.sk_verify.specs.Stepping.{IsTelling};

use sk_base::{Elem, Element, Shape, Sketch, Um};
use sk_claims::{Claim, Radius};

/// The first element, by number, that has no place in the claim, or is a circle and has another radius there than its own.
pub fn unplaced(s: &Sketch, claim: &Claim) -> Option<Elem>
    requires { IsSoundSketch s.now }
    ensures none { IsNone result ↔ AllTold claim.now s.now.elements }
    ensures some { IfSome result (IsFirstUntold claim.now s.now.elements) }
{
    first_untold(claim, s.elements.as_slice())
}

/// The first element that isn't told.
fn first_untold(claim: &Claim, elements: &[Element]) -> Option<Elem>
    requires { (x : AnyElement) → Contains elements.now x → IsSoundShape x.shape }
    ensures { IsTelling claim.now elements.now result }
{
    for element in elements {
        if !is_told(claim, element) {
            return Some(element.number);
        }
    }
    None
}

fn is_told(claim: &Claim, element: &Element) -> bool
    requires { IsSoundShape element.now.shape }
    ensures { IsTrue result ↔ IsTold claim.now element.now }
{
    is_placed(claim, element.number) && has_its_radius(claim, element)
}

fn is_placed(claim: &Claim, elem: Elem) -> bool
    ensures { IsTrue result ↔ IsSome (place_of claim.now.at elem) }
{
    claim.at.at(elem).is_some()
}

/// Whether a circle's own radius is told.
fn has_its_radius(claim: &Claim, element: &Element) -> bool
    requires { IsSoundShape element.now.shape }
    ensures { IsTrue result ↔ HasItsRadius claim.now.radii element.now.number element.now.shape }
{
    match element.shape {
        Shape::Point { .. } | Shape::Line { .. } => true,
        Shape::Circle { r, .. } => is_radius(claim, element.number, r),
    }
}

fn is_radius(claim: &Claim, elem: Elem, r: Um) -> bool
    requires { IsLength r }
    ensures { IsTrue result ↔ Contains claim.now.radii (record { elem = elem; nm = radius_nm r.0 }) }
{
    let nm = 1000 * r.0;
    claim.radii.as_slice().contains(&Radius { elem, nm })
}
