// How clusters are named in texts.
ghost use Rattle.std.specs.Prelude.{◌≡◌, IfOk, string_bytes};
ghost use Rattle.sk_text.specs.ClusterName.{cluster_name};

use sk_base::{Name, NoMemory};
use std::alloc::Global;

/// A `c` or an `s`, and the number.
pub fn cluster_name(alloc: Global, name: Name) -> Result<String, NoMemory>
    ensures { IfOk result (λ text. string_bytes text ≡ cluster_name name) }
{
    match name {
        Name::Con(number) => Ok(format!(in alloc; "c{number}")?),
        Name::Step(number) => Ok(format!(in alloc; "s{number}")?),
    }
}
