// The worst of several items, as it grows item by item.
ghost use Rattle.std.specs.Prelude.{◌≡◌, ◌||◌, ◌++◌, [], ◌∷◌, List, nat_lt, is_none};
ghost use Rattle.sk_base.specs.declared.Placed.{Placed as OfPlaced};
ghost use Rattle.sk_measure.specs.Placing.{IsPlacedAs, IsMeasurable, AreMeasurable};
ghost use Rattle.sk_measure.specs.Items.{Item, block, IsOwnLeast};
ghost use Rattle.sk_tolerance.specs.Tolerances.{spotted_as, AreMerged, normal_of_kind, distance_of_measure, angle_of_measure};
ghost use Rattle.sk_tolerance.specs.Telling.{IsTold, is_worse};

use crate::spotted::Spotted;
use sk_base::{Block, Edge, Kind, Measure, Node, Placed};
use sk_measure::{own_least, own_least_of_block, own_least_of_normal};

/// The least number within which some items hold, and the first of them whose own it is.
#[derive(Clone, Copy)]
pub(crate) struct Worst {
    pub least: u64,
    pub at: Option<Spotted>,
}

impl Worst {
    /// Of no items.
    pub fn none() -> Worst
        ensures { (p : OfPlaced) → IsTold p [] result }
    {
        Worst { least: 0, at: None }
    }

    /// With one more item, whose own least number is known.
    fn with(self, at: Spotted, least: u64) -> Worst
        ensures { (p : OfPlaced) (items : List Item) (item : Item) → IsTold p items self → IsOwnLeast p item least
            → spotted_as item ≡ at → IsTold p (items ++ item ∷ []) result }
    {
        if self.is_below(least) {
            Worst {
                least,
                at: Some(at),
            }
        } else {
            self
        }
    }

    /// Whether an item of that least number is worse than all.
    fn is_below(self, least: u64) -> bool
        ensures { result ≡ (is_none self.at || nat_lt self.least least) }
    {
        self.at.is_none() || self.least < least
    }

    /// Of all items that the one or the other is of, which are in order of number.
    pub fn or(self, other: Worst) -> Worst
        ensures { (p : OfPlaced) (xs ys all : List Item) → AreMerged xs ys all → IsTold p xs self → IsTold p ys other → IsTold p all result }
    {
        if self.is_worse(other) { self } else { other }
    }

    /// Whether it has the greater least number or, where both are the same, the first name.
    fn is_worse(self, other: Worst) -> bool
        ensures { result ≡ is_worse self other }
    {
        match (self.at, other.at) {
            (None, _) => false,
            (_, None) => true,
            (Some(at), Some(beside)) => {
                self.least > other.least
                    || (self.least == other.least && at.number() < beside.number())
            }
        }
    }

    /// With the block.
    pub fn with_block(self, p: &Placed, b: &Block) -> Worst
        requires { AreMeasurable p.now b.now.pins }
        ensures { (items : List Item) → IsTold p.now items self → IsTold p.now (items ++ block b.now ∷ []) result }
    {
        self.with(Spotted::Con(b.id), own_least_of_block(p, b))
    }

    /// With the normal, if the node is a line.
    pub fn with_normal(self, p: &Placed, node: &Node) -> Worst
        requires { IsPlacedAs p.now node.now.elem node.now.kind }
        ensures { (items : List Item) → IsTold p.now items self → IsTold p.now (items ++ normal_of_kind node.now.elem node.now.kind) result }
    {
        match node.kind {
            Kind::Point => self,
            Kind::Line => self.with(Spotted::Line(node.elem), own_least_of_normal(p, node.elem)),
        }
    }

    /// With the constraint, if it is on a distance.
    pub fn with_distance(self, p: &Placed, e: &Edge) -> Worst
        requires { IsMeasurable p.now e.now }
        ensures { (items : List Item) → IsTold p.now items self → IsTold p.now (items ++ distance_of_measure e.now e.now.measure) result }
    {
        match e.measure {
            Measure::PointPoint(_) | Measure::PointLine(_, _) => {
                self.with(Spotted::Con(e.id), own_least(p, e))
            }
            Measure::LineLine(_, _) => self,
        }
    }

    /// With the constraint, if it is on an angle.
    pub fn with_angle(self, p: &Placed, e: &Edge) -> Worst
        requires { IsMeasurable p.now e.now }
        ensures { (items : List Item) → IsTold p.now items self → IsTold p.now (items ++ angle_of_measure e.now e.now.measure) result }
    {
        match e.measure {
            Measure::PointPoint(_) | Measure::PointLine(_, _) => self,
            Measure::LineLine(_, _) => self.with(Spotted::Con(e.id), own_least(p, e)),
        }
    }
}
