// Pairs of a group code and its value, each on a line of its own.
ghost use Rattle.std.specs.Prelude.{◌≡◌, ◌++◌, OnOk};
ghost use Rattle.sk_dxf.specs.Entities.{pair, length_pair, entity_head};

use sk_base::{NoMemory, Text};
use sk_text::Puts;
use std::alloc::Global;

/// Puts a group code and a word.
pub(crate) fn put_pair(alloc: Global, text: &mut Text, code: u8, word: &str) -> Result<(), NoMemory>
    ensures { OnOk result (text.new ≡ text.old ++ pair code word.now) }
{
    let pair = format!(in alloc; "{code}\n{word}\n")?;
    text.put(pair.as_bytes())
}

/// Puts a group code and a length in nanometres, printed as millimetres.
pub(crate) fn put_length(alloc: Global, text: &mut Text, code: u8, nm: i128) -> Result<(), NoMemory>
    ensures { OnOk result (text.new ≡ text.old ++ length_pair code nm) }
{
    let line = format!(in alloc; "{code}\n")?;
    text.put(line.as_bytes())?;
    text.put_fixed(nm)?;
    text.put(b"\n")
}

/// Puts the name of an entity, and its layer.
pub(crate) fn put_head(alloc: Global, text: &mut Text, name: &str) -> Result<(), NoMemory>
    ensures { OnOk result (text.new ≡ text.old ++ entity_head name.now) }
{
    put_pair(alloc, text, 0, name)?;
    put_pair(alloc, text, 8, "0")
}
