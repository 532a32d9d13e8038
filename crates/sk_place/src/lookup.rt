// Boxes by their elements' numbers.
ghost use Rattle.std.specs.Prelude.{◌≡◌, ◌<◌, OnOk, IfOk};
ghost use Rattle.std.specs.Bool.{MatchBool};
ghost use Rattle.sk_place.specs.Clusters.{Rise, Holds, box_of, with_box, with_boxes, besides, IsPlaceOf, IsAt};

use crate::boxes::BoxAt;
use sk_base::{Elem, List, NoMemory};
use sk_interval::Grid;
use sk_steps::BoxOf;
use std::alloc::Global;

/// Where the element's box stands, or would.
pub(crate) fn place_of<G: Grid>(boxes: &[BoxAt<G>], e: Elem) -> usize
    requires { Rise boxes.now }
    ensures { IsPlaceOf boxes.now e result }
{
    boxes.partition_point(|b| b.elem.0 < e.0)
}

/// The box of the element.
pub(crate) fn box_of<G: Grid>(boxes: &[BoxAt<G>], e: Elem) -> BoxOf<G>
    requires rises { Rise boxes.now }
    requires holds { Holds boxes.now e }
    ensures { result ≡ box_of boxes.now e }
{
    let place = place_of(boxes, e);
    boxes[place].at
}

/// Puts the box at its place, unless its element has one.
pub(crate) fn put<G: Grid>(boxes: &mut List<BoxAt<G>>, b: BoxAt<G>) -> Result<(), NoMemory>
    requires { Rise boxes.old }
    ensures { OnOk result (boxes.new ≡ with_box b boxes.old) }
{
    let place = place_of(boxes.as_slice(), b.elem);
    if is_at(boxes.as_slice(), place, b.elem) {
        Ok(())
    } else {
        boxes.insert(place, b)
    }
}

/// Whether the box at the place is the element's.
fn is_at<G: Grid>(boxes: &[BoxAt<G>], place: usize, e: Elem) -> bool
    ensures { MatchBool result (IsAt boxes.now place e) (¬ IsAt boxes.now place e) }
{
    place < boxes.len() && boxes[place].elem.0 == e.0
}

/// Puts each of the boxes at its place, unless its element has one.
pub(crate) fn put_all<G: Grid>(
    boxes: &mut List<BoxAt<G>>,
    more: &[BoxAt<G>],
) -> Result<(), NoMemory>
    requires { Rise boxes.old }
    ensures { OnOk result (boxes.new ≡ with_boxes more.now boxes.old) }
{
    for i in (0..more.len()).rev() {
        put(boxes, more[i])?;
    }
    Ok(())
}

/// The boxes of all elements but two.
pub(crate) fn besides<G: Grid>(
    alloc: Global,
    boxes: &[BoxAt<G>],
    p: Elem,
    q: Elem,
) -> Result<List<BoxAt<G>>, NoMemory>
    ensures { IfOk result (λ others. others ≡ besides p q boxes.now) }
{
    let mut others = List::new(alloc);
    for b in boxes {
        if b.elem.0 != p.0 && b.elem.0 != q.0 {
            others.push(*b)?;
        }
    }
    Ok(others)
}
