// Classes of tied lines.
ghost use Rattle.std.specs.Prelude.{◌≡◌, ◌≢◌, ◌+◌, ◌<◌, IfOk, OnOk, ℕ, List as Items, Contains, slice_index};
ghost use Rattle.sk_base.specs.declared.Elem.{Elem as Element};
ghost use Rattle.sk_base.specs.declared.Graph.{Graph as AnyGraph};
ghost use Rattle.sk_family.specs.Body.{Body};
ghost use Rattle.sk_family.specs.Clusters.{bodies};
ghost use Rattle.sk_close_by_angles.specs.Ties.{AreTied};
ghost use Rattle.sk_close_by_angles.specs.Classes.{class_of as class_in, IsRenamed, AreRenamed, IsClassOfOne, AreAlone, AddsNode, Coarsens, AreTogether, TellTies, AreClasses, IsClassAmong};

use sk_base::{Elem, Graph, Kind, NoMemory, Node};
use sk_family::Family;
use std::alloc::Global;

/// By number of an element, the number of the class of lines that it is tied to; 0 for a point.
pub(crate) fn classes_of(
    alloc: Global,
    family: &Family,
    graph: &Graph,
) -> Result<Vec<usize>, NoMemory>
    ensures { IfOk result (λ classes. AreClasses graph.now (bodies family.now) classes.items) }
{
    let mut classes = lines_alone(alloc, graph.nodes.as_slice())?;
    for cluster in family.clusters() {
        tie_all(classes.as_mut_slice(), cluster.elements.as_slice());
    }
    Ok(classes)
}

/// Each line in a class of its own.
pub fn lines_alone(alloc: Global, nodes: &[Node]) -> Result<Vec<usize>, NoMemory>
    ensures { IfOk result (λ classes. AreAlone nodes.now classes.items) }
{
    let mut classes = Vec::new(alloc);
    for node in nodes {
        add_if_line(&mut classes, *node)?;
    }
    Ok(classes)
}

fn add_if_line(classes: &mut Vec<usize>, node: Node) -> Result<(), NoMemory>
    ensures { OnOk result (AddsNode node classes.old.items classes.new.items) }
{
    match node.kind {
        Kind::Line => add_line(classes, node.elem),
        Kind::Point => Ok(()),
    }
}

fn add_line(classes: &mut Vec<usize>, line: Elem) -> Result<(), NoMemory>
    ensures here { OnOk result (class_in classes.new.items line ≡ line.0 + 1) }
    ensures elsewhere { OnOk result ((n : ℕ) → n ≢ line.0 → slice_index classes.new.items n ≡ slice_index classes.old.items n) }
{
    let at = line.0 as usize;
    while classes.len() <= at {
        classes.push(0)?;
    }
    classes[at] = at + 1;
    Ok(())
}

/// The number of the element's class.
pub fn class_of(classes: &[usize], elem: Elem) -> usize
    ensures { result ≡ class_in classes.now elem }
{
    match classes.get(elem.0 as usize) {
        Some(class) => *class,
        None => 0,
    }
}

/// The class of the lines among the elements.
pub(crate) fn class_among(classes: &[usize], elements: &[Elem]) -> usize
    ensures { IsClassAmong classes.now elements.now result }
{
    for elem in elements {
        let class = class_of(classes, *elem);
        if class > 0 {
            return class;
        }
    }
    0
}

/// Joins the classes of all lines among the elements.
pub fn tie_all(classes: &mut [usize], elements: &[Elem])
    ensures coarsens { Coarsens classes.old classes.new }
    ensures together { AreTogether classes.new elements.now }
    ensures tell { (g : AnyGraph) (f : Items Body) (x : Body) → Contains f x → x.elements ≡ elements.now → TellTies g f classes.old → TellTies g f classes.new }
{
    let to = class_among(classes, elements);
    if to > 0 {
        tie_to(classes, to, elements);
    }
}

/// Joins the classes of all lines among the elements to that of one of them.
fn tie_to(classes: &mut [usize], to: usize, elements: &[Elem])
    requires to { 0 < to }
    ensures coarsens { Coarsens classes.old classes.new }
    ensures joined { (e : Element) → Contains elements.now e → 0 < class_in classes.new e → class_in classes.new e ≡ to }
    ensures tell { (g : AnyGraph) (f : Items Body) (x : Body) → Contains f x → x.elements ≡ elements.now → IsClassOfOne classes.old elements.now to → TellTies g f classes.old → TellTies g f classes.new }
{
    for elem in elements {
        tie(classes, to, *elem);
    }
}

/// Joins the class of the element, where it has one, to this one.
fn tie(classes: &mut [usize], to: usize, elem: Elem)
    requires { 0 < to }
    ensures coarsens { Coarsens classes.old classes.new }
    ensures joined { 0 < class_in classes.new elem → class_in classes.new elem ≡ to }
    ensures stays { (e : Element) → class_in classes.old e ≡ to → class_in classes.new e ≡ to }
    ensures tell { (g : AnyGraph) (f : Items Body) (first : Element) → class_in classes.old first ≡ to → (0 < class_in classes.old elem → AreTied g f first elem) → TellTies g f classes.old → TellTies g f classes.new }
{
    let from = class_of(classes, elem);
    if from > 0 {
        rename(classes, from, to);
    }
}

/// Renames a class.
fn rename(classes: &mut [usize], from: usize, to: usize)
    requires { 0 < from }
    ensures { AreRenamed from to classes.old classes.new }
{
    if from != to {
        rename_all(classes, from, to);
    }
}

fn rename_all(classes: &mut [usize], from: usize, to: usize)
    requires { 0 < from }
    ensures { AreRenamed from to classes.old classes.new }
{
    for class in classes.iter_mut() {
        *class = new_name(*class, from, to);
    }
}

fn new_name(class: usize, from: usize, to: usize) -> usize
    ensures { IsRenamed from to class result }
{
    if class == from { to } else { class }
}
