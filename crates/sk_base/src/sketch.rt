// A sketch as it is drawn.
ghost use Rattle.std.specs.Prelude.{◌≡◌, option_copied, IfOk};

use crate::label::Label;
use crate::list::List;
use crate::measure::{Ratio, Um};
use crate::memory::NoMemory;
use crate::numbered::{ConId, Elem};
use std::alloc::Global;

/// How an element is drawn. A line runs from its first place towards its second.
#[derive(Clone, Copy, Debug, PartialEq, Eq)]
pub enum Shape {
    Point { x: Um, y: Um },
    Line { x1: Um, y1: Um, x2: Um, y2: Um },
    Circle { x: Um, y: Um, r: Um },
}

impl Shape {
    ghost use Rattle.std.specs.Prelude.{◌↔◌, not, IsTrue};
    ghost use Rattle.sk_base.specs.Bounds.{IsFromTo};
    ghost use Rattle.sk_base.specs.Drawn.{is_line, radius_of, IsLine, HasCentre};
    ghost use Rattle.sk_base.specs.SoundSketch.{IsSoundShape};

    /// Whether it is a line.
    pub fn is_line(&self) -> bool
        ensures computed { result ≡ is_line self.now }
        ensures line { IsTrue result ↔ IsLine self.now }
        ensures centre { IsTrue (not result) ↔ HasCentre self.now }
    {
        matches!(self, Shape::Line { .. })
    }

    /// The radius of a circle, in micrometres. A point and a line have none: 0.
    pub fn radius(&self) -> i64
        ensures radius { result ≡ radius_of self.now }
        ensures bounded { IsSoundShape self.now → IsFromTo 0 1000000000 result }
    {
        match self {
            Shape::Circle { r, .. } => r.0,
            Shape::Point { .. } | Shape::Line { .. } => 0,
        }
    }
}

/// A named element.
#[derive(Clone, Copy, Debug, PartialEq, Eq)]
pub struct Element {
    pub number: Elem,
    pub label: Label,
    pub shape: Shape,
}

/// A place within a block, and the point or centre that lies there. Places are mutual: they are those of
/// the block's own frame.
#[derive(Clone, Copy, Debug, PartialEq, Eq)]
pub struct Pin {
    pub elem: Elem,
    pub x: Um,
    pub y: Um,
}

/// What a constraint asks of its elements.
#[derive(Drop)]
pub enum Rule {
    /// Two points or centres, or one of these and a line, are so far apart.
    Distance { u: Elem, v: Elem, len: Um },
    /// A point or centre lies on a line, or a point on a circle.
    On { u: Elem, v: Elem },
    /// A line touches a circle.
    Tangent { u: Elem, v: Elem },
    /// Two circles touch from outside.
    Outside { u: Elem, v: Elem },
    /// Two circles touch from inside.
    Inside { u: Elem, v: Elem },
    /// The angle from the one line to the other has this tangent.
    Angle { l: Elem, m: Elem, ratio: Ratio },
    /// These points and centres lie towards each other as the places given, not mirrored.
    Block { pins: List<Pin> },
}

/// A numbered constraint.
#[derive(Drop)]
pub struct Constraint {
    pub number: ConId,
    pub rule: Rule,
}

/// The same constraint once more.
pub fn copy_constraint(alloc: Global, constraint: &Constraint) -> Result<Constraint, NoMemory>
    ensures { IfOk result (λ copy. copy ≡ constraint.now) }
{
    Ok(Constraint {
        number: constraint.number,
        rule: copy_rule(alloc, &constraint.rule)?,
    })
}

fn copy_rule(alloc: Global, rule: &Rule) -> Result<Rule, NoMemory>
    ensures { IfOk result (λ copy. copy ≡ rule.now) }
{
    Ok(match rule {
        Rule::Distance { u, v, len } => Rule::Distance {
            u: *u,
            v: *v,
            len: *len,
        },
        Rule::On { u, v } => Rule::On { u: *u, v: *v },
        Rule::Tangent { u, v } => Rule::Tangent { u: *u, v: *v },
        Rule::Outside { u, v } => Rule::Outside { u: *u, v: *v },
        Rule::Inside { u, v } => Rule::Inside { u: *u, v: *v },
        Rule::Angle { l, m, ratio } => Rule::Angle {
            l: *l,
            m: *m,
            ratio: *ratio,
        },
        Rule::Block { pins } => Rule::Block {
            pins: copy_pins(alloc, pins)?,
        },
    })
}

/// The same pins once more.
fn copy_pins(alloc: Global, pins: &List<Pin>) -> Result<List<Pin>, NoMemory>
    ensures { IfOk result (λ copy. copy ≡ pins.now) }
{
    let mut copy = List::new(alloc);
    copy.extend(pins.as_slice())?;
    Ok(copy)
}

/// The elements and the constraints, each in order of number.
#[derive(Drop)]
pub struct Sketch {
    pub elements: List<Element>,
    pub constraints: List<Constraint>,
}

impl Sketch {
    ghost use Rattle.sk_base.specs.Drawn.{element_of};
    ghost use Rattle.sk_base.specs.Rising.{IsRising};

    /// The element of that number, if the sketch has one.
    pub fn element(&self, e: Elem) -> Option<&Element>
        ensures { option_copied result ≡ element_of self.now e }
    {
        self.elements
            .as_slice()
            .iter()
            .find(|element| element.number.0 == e.0)
    }

    /// The same where the elements rise by number, by a search by halves.
    pub fn look_up(&self, e: Elem) -> Option<&Element>
        requires { IsRising (λ (x : Element). x.number.0) self.now.elements }
        ensures { option_copied result ≡ element_of self.now e }
    {
        let elements = self.elements.as_slice();
        match elements.binary_search_by_key(&e.0, |element| element.number.0) {
            Ok(i) => Some(&elements[i]),
            Err(_) => None,
        }
    }
}
