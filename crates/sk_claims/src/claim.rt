// What is claimed of a sketch.
use sk_base::{Elem, List, Placed};
use sk_tree::PlanStep;

/// The radius of a circle, in nanometres.
#[derive(Clone, Copy, Debug, PartialEq, Eq)]
pub struct Radius {
    pub elem: Elem,
    pub nm: i64,
}

/// The steps of a plan, where the elements lie, the radii of the circles, and the tolerances within which
/// all holds: `t` in nanometres for lengths and heights, `w` in parts per 10^9 for angles and normals.
#[derive(Drop)]
pub struct Claim {
    pub steps: List<PlanStep>,
    pub at: Placed,
    pub radii: List<Radius>,
    pub t: u64,
    pub w: u64,
}
