// The command `grow`.
ghost use Rattle.std.specs.Prelude.{◌≤◌, IfOk};
ghost use Rattle.sk_cli.specs.Outcome.{IsGrowAnswer};

use crate::solving::{Report, solved};
use sk_answers::Answer;
use sk_base::NoMemory;
use sk_gen::datum_sketch;
use sk_request::Request;
use std::alloc::Global;

/// The answer of `grow` for a sketch of `n` elements.
pub fn grow(alloc: Global, n: u32, request: Request) -> Result<Answer, NoMemory>
    requires some { 3 ≤ n }
    requires few { n ≤ 1000 }
    ensures { IfOk result (λ answer. IsGrowAnswer n request answer.status answer.text) }
{
    let sketch = datum_sketch(alloc, n)?;
    solved(alloc, request, Report::Sums, &sketch)
}
