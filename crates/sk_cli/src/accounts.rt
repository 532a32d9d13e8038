// The account that a command gives of a sketch that is read, whatever its verdict.
ghost use Rattle.std.specs.Prelude.{◌<◌, length, IfOk};
ghost use Rattle.sk_base.specs.SoundSketch.{IsSoundSketch};
ghost use Rattle.sk_cli.specs.Accounts.{IsAccount, IsCheckReport, IsSpareReport, IsDerivedText};
ghost use Rattle.sk_cli.specs.Outcome.{IsAccountAnswer};

use crate::excess::excesses;
use crate::parts::shapes;
use sk_answers::{Answer, Status, refused};
use sk_base::{NoMemory, Sketch, Text};
use sk_close_by_angles::{derive_in_any_order, derive_text};
use sk_graph::reduce;
use sk_lang::{read_sketch, write_sketch_2};
use sk_lines::ReadError;
use sk_plan::judgement_of;
use sk_report::check_text;
use sk_request::{Account, Request};
use sk_spare::{spare, spare_text};
use sk_why::why_text;
use std::alloc::Global;

/// The answer that gives this account of the input's sketch. Only `Shapes` and `Excesses` look at the request: how parts
/// are placed.
pub fn account_of(
    alloc: Global,
    account: Account,
    request: Request,
    bytes: &[u8],
) -> Result<Answer, NoMemory>
    ensures { IfOk result (λ answer. IsAccountAnswer account request bytes.now answer.status answer.text) }
{
    match read_sketch(alloc, bytes) {
        Ok(sketch) => Ok(Answer {
            status: Status::Done,
            text: account_text(alloc, account, request, &sketch)?,
        }),
        Err(ReadError::Refused(refusal)) => refused(alloc, &refusal),
        Err(ReadError::NoMemory) => Err(NoMemory),
    }
}

fn account_text(
    alloc: Global,
    account: Account,
    request: Request,
    sketch: &Sketch,
) -> Result<Text, NoMemory>
    requires sound { IsSoundSketch sketch.now }
    requires some { 0 < length sketch.now.elements }
    ensures { IfOk result (IsAccount account request sketch.now) }
{
    match account {
        Account::Judged => judged(alloc, sketch),
        Account::Spares => spares(alloc, sketch),
        Account::Derived => derived(alloc, sketch),
        Account::Migrated => write_sketch_2(alloc, sketch),
        Account::Shapes => shapes(alloc, request, sketch),
        Account::Excesses => excesses(alloc, request, sketch),
        Account::Reasons => why_text(alloc, sketch),
    }
}

/// The check report of the sketch.
fn judged(alloc: Global, sketch: &Sketch) -> Result<Text, NoMemory>
    requires sound { IsSoundSketch sketch.now }
    requires some { 0 < length sketch.now.elements }
    ensures { IfOk result (IsCheckReport sketch.now) }
{
    let graph = reduce(alloc, sketch)?;
    let judgement = judgement_of(alloc, &graph)?;
    check_text(alloc, sketch, &judgement)
}

/// The report of the sketch's spare constraints.
fn spares(alloc: Global, sketch: &Sketch) -> Result<Text, NoMemory>
    requires { IsSoundSketch sketch.now }
    ensures { IfOk result (IsSpareReport sketch.now) }
{
    let graph = reduce(alloc, sketch)?;
    let spares = spare(alloc, &graph)?;
    spare_text(alloc, sketch, &spares)
}

/// The clusters that merges by the three rules, in whatever order, lead to.
fn derived(alloc: Global, sketch: &Sketch) -> Result<Text, NoMemory>
    requires { IsSoundSketch sketch.now }
    ensures { IfOk result (IsDerivedText sketch.now) }
{
    let graph = reduce(alloc, sketch)?;
    let family = derive_in_any_order(alloc, &graph)?;
    derive_text(alloc, sketch, &family)
}
