//! Readers of what calls ask for, of rounds and of outcomes from the front of a text.

ghost use Rattle.std.specs.Prelude.{◌≡◌, length, codes};
ghost use Rattle.event_texts.specs.Answers.{Gives};
ghost use Rattle.event_texts.specs.Reading as spec;
ghost use Rattle.event_texts.specs.Reading.{answer_in, behind, guarantee_in, choice, just, made, outcome_in, request_in};

use crate::event_fault::EventFault;
use crate::read_topologies::begins_number;
use crate::read_values::{read_counted, read_datum_word, read_u8, read_u16, read_u64};
use grid_base::limits::LONGEST_LINE;
use grid_base::{Datum, Item, NodeId, SegmentId, UnitId};
use grid_event::{Answer, Ask, Guarantee, Outcome, Pipeline, Request};
use pipeline_parse::reading::{read_datum, read_int, read_literal, read_number};
use pipeline_parse::{ParseFault, parse_pipeline};
use sqlite_items::Items;
use std::alloc::Global;

/// Reads a guarantee behind a blank.
#[tactic(auto, unfolding(crate::specs::Reading::guarantee_in))]
fn read_guarantee(text: &[u8]) -> Result<(Guarantee, &[u8]), EventFault>
    ensures { Gives result (guarantee_in text.now) }
{
    let text = read_literal(" ", text)?;
    if let Ok(rest) = read_literal("exact", text) {
        return Ok((Guarantee::Exact, rest));
    }
    if let Ok(rest) = read_literal("atleast", text) {
        return Ok((Guarantee::AtLeast, rest));
    }
    let rest = read_literal("atmost", text)?;
    Ok((Guarantee::AtMost, rest))
}

/// Reads a whole text of at most 1,024 bytes as a pipeline.
fn read_pipeline<'a>(alloc: Global, text: &'a [u8]) -> Result<(Pipeline, &'a [u8]), EventFault>
    ensures { Gives result (spec.pipeline text.now) }
{
    if text.len() > LONGEST_LINE {
        return Err(EventFault::BadEvent);
    }
    match parse_pipeline(alloc, text) {
        Ok(pipeline) => Ok((pipeline, &[])),
        Err(ParseFault::Syntax { .. }) => Err(EventFault::BadEvent),
        Err(ParseFault::NoMemory) => Err(EventFault::NoMemory),
    }
}

/// Reads what a call asks for, each part behind a blank.
#[tactic(auto, unfolding(crate::specs::Reading::request_in))]
pub(crate) fn read_request<'a>(
    alloc: Global,
    text: &'a [u8],
) -> Result<(Request, &'a [u8]), EventFault>
    ensures { Gives result (request_in text.now) }
{
    let (guarantee, rest) = read_guarantee(text)?;
    let (rounds, rest) = read_u8(rest)?;
    let (batch, rest) = read_u16(rest)?;
    let rest = read_literal(" ", rest)?;
    let (pipeline, rest) = read_pipeline(alloc, rest)?;
    let request = Request {
        guarantee,
        rounds,
        batch,
        pipeline,
    };
    Ok((request, rest))
}

/// Reads a unit, its segment and the asked node.
#[tactic(auto, unfolding(crate::specs::Reading::ask))]
fn read_ask(text: &[u8]) -> Result<(Ask, &[u8]), EventFault>
    ensures { Gives result (spec.ask text.now) }
{
    let (unit, rest) = read_number(4_294_967_295, text)?;
    let rest = read_literal(":", rest)?;
    let (segment, rest) = read_number(65_535, rest)?;
    let rest = read_literal("@", rest)?;
    let (node, rest) = read_number(255, rest)?;
    let ask = Ask {
        unit: UnitId::new(unit as u32),
        segment: SegmentId::new(segment as u16),
        node: NodeId::new(node as u8),
    };
    Ok((ask, rest))
}

/// Reads the asks of a round.
#[tactic(auto, unfolding(crate::specs::Reading::asks))]
pub(crate) fn read_asks<'a>(
    alloc: Global,
    text: &'a [u8],
) -> Result<(Items<Ask>, &'a [u8]), EventFault>
    ensures { Gives result (spec.asks text.now) }
{
    let mut asks = Items::new(alloc);
    if !begins_number(text) {
        return Ok((asks, text));
    }
    let (first, rest) = match read_ask(text) {
        Ok(read) => read,
        Err(fault) => return Err(fault),
    };
    asks.push(first)?;
    let mut rest = rest;
    let mut turns = rest.len();
    while turns > 0 {
        let Ok(behind) = read_literal(",", rest) else {
            return Ok((asks, rest));
        };
        let (ask, more) = match read_ask(behind) {
            Ok(read) => read,
            Err(fault) => return Err(fault),
        };
        asks.push(ask)?;
        rest = more;
        turns -= 1;
    }
    Ok((asks, rest))
}

/// Reads the least or the greatest element behind a blank, or that there is none.
fn read_best<'a>(alloc: Global, text: &'a [u8]) -> Result<(Option<Datum>, &'a [u8]), EventFault>
    ensures { Gives result (behind (codes " ") (choice (codes "none") (just None) (made Some spec.datum)) text.now) }
{
    let text = read_literal(" ", text)?;
    if let Ok(rest) = read_literal("none", text) {
        return Ok((None, rest));
    }
    let (best, rest) = read_datum(alloc, text)?;
    Ok((Some(best), rest))
}

/// Reads the answer of a pipeline behind a blank.
#[tactic(auto, unfolding(crate::specs::Reading::answer_in))]
fn read_answer<'a>(alloc: Global, text: &'a [u8]) -> Result<(Answer, &'a [u8]), EventFault>
    ensures { Gives result (answer_in text.now) }
{
    let text = read_literal(" ", text)?;
    if let Ok(rest) = read_literal("count", text) {
        let (count, rest) = read_u64(rest)?;
        return Ok((Answer::Count(count), rest));
    }
    if let Ok(rest) = read_literal("sum", text) {
        let rest = read_literal(" ", rest)?;
        let (sum, rest) = read_int(rest)?;
        return Ok((Answer::Sum(sum), rest));
    }
    if let Ok(rest) = read_literal("best", text) {
        let (best, rest) = read_best(alloc, rest)?;
        return Ok((Answer::Best(best), rest));
    }
    let rest = read_literal("list", text)?;
    let (items, rest) = read_counted::<Item>(alloc, rest)?;
    Ok((Answer::List(Items::from_vec(items.into_vec())), rest))
}

/// Reads how a call ended behind a blank.
#[tactic(auto, unfolding(crate::specs::Reading::outcome_in))]
pub(crate) fn read_outcome<'a>(
    alloc: Global,
    text: &'a [u8],
) -> Result<(Outcome, &'a [u8]), EventFault>
    ensures { Gives result (outcome_in text.now) }
{
    let text = read_literal(" ", text)?;
    if let Ok(rest) = read_literal("value", text) {
        let (answer, rest) = read_answer(alloc, rest)?;
        return Ok((Outcome::Value(answer), rest));
    }
    if let Ok(rest) = read_literal("ended", text) {
        return Ok((Outcome::Ended, rest));
    }
    if let Ok(rest) = read_literal("again", text) {
        let (rounds, rest) = read_u8(rest)?;
        let (suspect, rest) = read_u16(rest)?;
        let suspect = SegmentId::new(suspect);
        return Ok((Outcome::Again { rounds, suspect }, rest));
    }
    if let Ok(rest) = read_literal("segment_lost", text) {
        let (segment, rest) = read_u16(rest)?;
        return Ok((Outcome::SegmentLost(SegmentId::new(segment)), rest));
    }
    let rest = read_literal("originator_left", text)?;
    Ok((Outcome::OriginatorLeft, rest))
}
