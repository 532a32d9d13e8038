// Clusters, and what two of them share.
ghost use Rattle.std.specs.Prelude.{◌≡◌, ◌<◌, ◌^◌, ◌∷◌, ◌++◌, [], IfOk, List as Items, length};
ghost use Rattle.sk_base.specs.declared.Elem.{Elem as Element};
ghost use Rattle.sk_family.specs.Sharing.{shared, overlap_of, counted};

use sk_base::{ConId, Elem, List, Name, NoMemory};
use std::alloc::Global;

/// A rigid set of elements, with the constraints that it owns. Both lists rise, and hold nothing
/// twice.
#[derive(Drop)]
pub struct Cluster {
    pub name: Name,
    pub elements: List<Elem>,
    pub owned: List<ConId>,
}

/// How many elements two clusters share, and the least two of them.
#[derive(Clone, Copy, PartialEq, Eq, Debug)]
pub struct Overlap {
    pub count: u32,
    pub first: Option<Elem>,
    pub second: Option<Elem>,
}

impl Cluster {
    /// The same cluster once more.
    pub fn copy(&self, alloc: Global) -> Result<Cluster, NoMemory>
        ensures { IfOk result (λ copy. copy ≡ self.now) }
    {
        let mut elements = List::new(alloc);
        elements.extend(self.elements.as_slice())?;
        let mut owned = List::new(alloc);
        owned.extend(self.owned.as_slice())?;
        Ok(Cluster {
            name: self.name,
            elements,
            owned,
        })
    }
}

/// The same clusters once more.
pub(crate) fn copy_all(alloc: Global, clusters: &[Cluster]) -> Result<Vec<Cluster>, NoMemory>
    ensures { IfOk result (λ copies. copies.items ≡ clusters.now) }
{
    let mut copies = Vec::new(alloc);
    for cluster in clusters {
        copies.push(cluster.copy(alloc)?)?;
    }
    Ok(copies)
}

/// What the two clusters share. The count stays at the greatest `u32` where more are shared, which no
/// two clusters of a sketch do.
pub fn common(a: &Cluster, b: &Cluster) -> Overlap
    ensures exact { length (shared a.now.elements b.now.elements) < 2 ^ 32 → result ≡ overlap_of (shared a.now.elements b.now.elements) }
    ensures counted { result ≡ counted (shared a.now.elements b.now.elements) }
{
    let mut overlap = Overlap {
        count: 0,
        first: None,
        second: None,
    };
    for elem in a.elements.as_slice() {
        if elem.is_among(b.elements.as_slice()) {
            overlap = overlap.with(*elem);
        }
    }
    overlap
}

impl Overlap {
    /// The overlap with one more element, above those that it has.
    fn with(self, elem: Elem) -> Overlap
        ensures { (both : Items Element) → self ≡ counted both → result ≡ counted (both ++ elem ∷ []) }
    {
        let (first, second) = match (self.first, self.second) {
            (None, _) => (Some(elem), None),
            (Some(first), None) => (Some(first), Some(elem)),
            (Some(first), Some(second)) => (Some(first), Some(second)),
        };
        Overlap {
            count: self.count.saturating_add(1),
            first,
            second,
        }
    }
}
