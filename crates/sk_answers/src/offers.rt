// The command `offers`.
ghost use Rattle.std.specs.Prelude.{◌<◌, All, IfOk, length};
ghost use Rattle.sk_base.specs.SoundSketch.{IsSoundSketch};
ghost use Rattle.sk_offers.specs.OfferLines.{FitsBoard};
ghost use Rattle.sk_answers.specs.OffersReport.{AreAnswered, IsReportOnOffers, IsOffersAnswer};

use crate::answer::{Answer, refused};
use crate::status::Status;
use sk_base::{NoMemory, Sketch, Text};
use sk_close_by_order::{Chosen, Order};
use sk_graph::reduce;
use sk_lang::read_sketch_front;
use sk_lines::ReadError;
use sk_offers::{Board, OfferLine, read_offers};
use sk_report::{answer_text, check_text};
use sk_verdict::judge;
use std::alloc::Global;

/// The answer of `offers` to an input.
pub fn offered(alloc: Global, order: Order, bytes: &[u8]) -> Result<Answer, NoMemory>
    ensures { IfOk result (λ answer. IsOffersAnswer bytes.now answer.status answer.text) }
{
    let front = match read_sketch_front(alloc, bytes) {
        Ok(front) => front,
        Err(ReadError::Refused(refusal)) => return refused(alloc, &refusal),
        Err(ReadError::NoMemory) => return Err(NoMemory),
    };
    match read_offers(alloc, &bytes[front.used as usize..], front.lines) {
        Ok(offers) => Ok(Answer {
            status: Status::Done,
            text: report(alloc, order, &front.sketch, offers.as_slice())?,
        }),
        Err(ReadError::Refused(refusal)) => refused(alloc, &refusal),
        Err(ReadError::NoMemory) => Err(NoMemory),
    }
}

/// A line for each offer, and then the check report of the sketch.
fn report(
    alloc: Global,
    order: Order,
    sketch: &Sketch,
    offers: &[OfferLine],
) -> Result<Text, NoMemory>
    requires sound { IsSoundSketch sketch.now }
    requires some { 0 < length sketch.now.elements }
    requires fit { All (λ o. FitsBoard o) offers.now }
    ensures { IfOk result (IsReportOnOffers sketch.now offers.now) }
{
    let mut board = Board::new(alloc, reduce(alloc, sketch)?)?;
    let mut text = answers(alloc, &mut board, offers)?;
    let finished = board.finish(&mut Chosen::new(order))?;
    let judgement = judge(alloc, &finished.family, &finished.graph)?;
    text.put(check_text(alloc, sketch, &judgement)?.as_bytes())?;
    Ok(text)
}

/// A line for each offer that the board is made, one after another.
fn answers(alloc: Global, board: &mut Board, offers: &[OfferLine]) -> Result<Text, NoMemory>
    requires { All (λ o. FitsBoard o) offers.now }
    ensures { IfOk result (AreAnswered board.old offers.now board.new) }
{
    let mut text = Text::new(alloc);
    for offer in offers {
        let answer = board.offer(offer.worker, offer.merge)?;
        text.put(answer_text(alloc, offer.worker, &answer)?.as_bytes())?;
    }
    Ok(text)
}
