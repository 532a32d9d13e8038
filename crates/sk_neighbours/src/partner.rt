// The least cluster that may merge with one as a pair.
ghost use Rattle.std.specs.Prelude.{◌≡◌, ◌↔◌, IsTrue, Some};
ghost use Rattle.sk_base.specs.Numbering.{elem_number};
ghost use Rattle.sk_base.specs.Rising.{IsRising};
ghost use Rattle.sk_family.specs.Rules.{SharesTwo};
ghost use Rattle.sk_neighbours.specs.Indexed.{IsIndex};
ghost use Rattle.sk_triangles.specs.Growing.{FromSome};
ghost use Rattle.sk_neighbours.specs.Partners.{IsLeast, IsLesser, Partner, PartnerAt, PartnerOf, PartnerUnless};

use crate::index::Index;
use crate::meets::shares_two;
use sk_base::{Elem, Name};
use sk_family::Cluster;

/// The least of the clusters below x that share two elements with it, if there is one. The element that
/// most clusters hold is the hub. Each cluster that is looked for has an element of x other than the hub,
/// so the many that hold the hub aren't walked along.
pub fn least_partner(index: &Index, x: &Cluster) -> Option<Name>
    requires index { IsIndex index.now }
    requires rises { IsRising elem_number x.now.elements }
    ensures { IsLeast (Partner index.now x.now) result }
{
    let elements = x.elements.as_slice();
    least_partner_at(index, x, elements, hub_of(index, elements))
}

/// The one of these that most clusters hold.
fn hub_of(index: &Index, elements: &[Elem]) -> Option<Elem> {
    let mut hub = None;
    let mut most = 0;
    for elem in elements {
        let count = index.holders(*elem).len();
        if count > most {
            hub = Some(*elem);
            most = count;
        }
    }
    hub
}

/// The least of the clusters below x that share two elements with it and hold one of these elements,
/// other than the hub.
pub fn least_partner_at(
    index: &Index,
    x: &Cluster,
    elements: &[Elem],
    hub: Option<Elem>,
) -> Option<Name>
    requires index { IsIndex index.now }
    requires rises { IsRising elem_number x.now.elements }
    ensures { IsLeast (FromSome (PartnerUnless hub index.now x.now) elements.now) result }
{
    let mut least = None;
    for elem in elements {
        least = lesser(least, partner_unless(index, x, *elem, hub));
    }
    least
}

/// The least of those that hold the element, unless it is the hub.
fn partner_unless(index: &Index, x: &Cluster, elem: Elem, hub: Option<Elem>) -> Option<Name>
    requires index { IsIndex index.now }
    requires rises { IsRising elem_number x.now.elements }
    ensures { IsLeast (PartnerUnless hub index.now x.now elem) result }
{
    if is_hub(elem, hub) {
        return None;
    }
    partner_of(index, x, elem)
}

fn is_hub(elem: Elem, hub: Option<Elem>) -> bool
    ensures { IsTrue result ↔ (hub ≡ Some elem) }
{
    match hub {
        Some(other) => other == elem,
        None => false,
    }
}

/// The least of those that hold the element.
fn partner_of(index: &Index, x: &Cluster, elem: Elem) -> Option<Name>
    requires index { IsIndex index.now }
    requires rises { IsRising elem_number x.now.elements }
    ensures { IsLeast (PartnerOf index.now x.now elem) result }
{
    let mut least = None;
    for key in index.below(elem, x.name) {
        least = lesser(least, partner_at(index, x, *key));
    }
    least
}

/// The name of the cluster of that key, where it shares two elements with x.
fn partner_at(index: &Index, x: &Cluster, key: usize) -> Option<Name>
    requires index { IsIndex index.now }
    requires rises { IsRising elem_number x.now.elements }
    ensures { IsLeast (PartnerAt index.now x.now key) result }
{
    match index.held(key) {
        Some(y) => { if is_partner(x, y) { Some(y.name) } else { None } }
        None => None,
    }
}

fn is_partner(x: &Cluster, y: &Cluster) -> bool
    requires x_rises { IsRising elem_number x.now.elements }
    requires y_rises { IsRising elem_number y.now.elements }
    ensures { IsTrue result ↔ SharesTwo x.now.elements y.now.elements }
{
    shares_two(x.elements.as_slice(), y.elements.as_slice())
}

/// The lesser of the names that are there.
fn lesser(one: Option<Name>, two: Option<Name>) -> Option<Name>
    ensures { IsLesser one two result }
{
    match (one, two) {
        (Some(m), Some(n)) => { if n.is_below(m) { Some(n) } else { Some(m) } }
        (Some(m), None) => Some(m),
        (None, other) => other,
    }
}
