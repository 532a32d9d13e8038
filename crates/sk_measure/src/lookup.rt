// Where elements are placed, found by halves.
ghost use Rattle.std.specs.Prelude.{◌≡◌};
ghost use Rattle.sk_base.specs.declared.Kind.{Kind as OfKind};
ghost use Rattle.sk_measure.specs.Placing.{lies, IsPlacedAs};

use sk_base::{At, Elem, Placed};

/// Where the element lies. Where the spots don't rise by number, as they may, it is found by a scan.
pub fn place(p: &Placed, e: Elem) -> At
    requires { (kind : OfKind) × IsPlacedAs p.now e kind }
    ensures { result ≡ lies p.now e }
{
    let spots = p.spots.as_slice();
    match spots.binary_search_by_key(&e.0, |spot| spot.elem.0) {
        Ok(i) => spots[i].at,
        Err(_) => scanned(p, e),
    }
}

/// Where the element lies, by a scan.
fn scanned(p: &Placed, e: Elem) -> At
    requires { (kind : OfKind) × IsPlacedAs p.now e kind }
    ensures { result ≡ lies p.now e }
{
    match p.at(e) {
        Some(at) => at,
        None => unreachable!(),
    }
}
