//! Pairs of boxes, and motions.
use crate::boxes::BoxOf;
use sk_interval::{Grid, Iv};

/// The boxes of two elements in one frame.
#[derive(Clone, Copy)]
pub struct Pair<G: Grid> {
    pub p: BoxOf<G>,
    pub q: BoxOf<G>,
}

/// The turn by `cos` and `sin` that takes the point `(fx, fy)` to `(tx, ty)`, in millimetres.
#[derive(Clone, Copy)]
pub struct Motion<G: Grid> {
    pub cos: Iv<G>,
    pub sin: Iv<G>,
    pub fx: Iv<G>,
    pub fy: Iv<G>,
    pub tx: Iv<G>,
    pub ty: Iv<G>,
}
