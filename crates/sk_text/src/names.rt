// The names of elements in texts.
ghost use Rattle.std.specs.Prelude.{◌≡◌, ◌++◌, ◌∷◌, [], IsTrue, OnOk, option_copied, unwrap_or};
ghost use Rattle.std.specs.Option.{option_map};
ghost use Rattle.sk_base.specs.declared.Element.{Element as AnElement};
ghost use Rattle.sk_base.specs.Drawn.{element_of};
ghost use Rattle.sk_base.specs.ElementNames.{name_of, names_of};
ghost use Rattle.sk_base.specs.Rising.{IsRising};

use sk_base::{Elem, Element, NoMemory, Sketch, Text};

/// For more names than these it pays to see first whether all elements of the sketch rise.
const FEW: usize = 2;

/// Appends the name of the element of that number, and nothing where the sketch has none.
pub fn put_label(text: &mut Text, s: &Sketch, e: Elem) -> Result<(), NoMemory>
    ensures { OnOk result (text.new ≡ text.old ++ name_of s.now e) }
{
    put_label_of(text, s.element(e))
}

/// Appends a space and the element's name.
pub fn put_name(text: &mut Text, s: &Sketch, e: Elem) -> Result<(), NoMemory>
    ensures { OnOk result (text.new ≡ text.old ++ 32 ∷ name_of s.now e) }
{
    put_name_of(text, s.element(e))
}

/// Appends the names, each with a space before it.
pub fn put_names(text: &mut Text, s: &Sketch, elements: &[Elem]) -> Result<(), NoMemory>
    ensures { OnOk result (text.new ≡ text.old ++ names_of s.now elements.now) }
{
    let halved = elements.len() > FEW && do_rise(s.elements.as_slice());
    for e in elements {
        put_name_of(text, element_in(s, *e, halved))?;
    }
    Ok(())
}

/// The element of that number, if the sketch has one: by halves, or along the list.
fn element_in(s: &Sketch, e: Elem, halved: bool) -> Option<&Element>
    requires { IsTrue halved → IsRising (λ (x : AnElement). x.number.0) s.now.elements }
    ensures { option_copied result ≡ element_of s.now e }
{
    if halved { s.look_up(e) } else { s.element(e) }
}

fn put_name_of(text: &mut Text, element: Option<&Element>) -> Result<(), NoMemory>
    ensures { OnOk result (text.new ≡ text.old ++ 32 ∷ unwrap_or (option_map (λ (x : AnElement). x.label) (option_copied element.entry)) []) }
{
    text.put(b" ")?;
    put_label_of(text, element)
}

fn put_label_of(text: &mut Text, element: Option<&Element>) -> Result<(), NoMemory>
    ensures { OnOk result (text.new ≡ text.old ++ unwrap_or (option_map (λ (x : AnElement). x.label) (option_copied element.entry)) []) }
{
    match element {
        Some(found) => text.put(found.label.as_bytes()),
        None => Ok(()),
    }
}

/// Whether the elements rise by number.
fn do_rise(elements: &[Element]) -> bool
    ensures { IsTrue result → IsRising (λ (x : AnElement). x.number.0) elements.now }
{
    let mut last = 0;
    for element in elements {
        if element.number.0 <= last {
            return false;
        }
        last = element.number.0;
    }
    true
}
