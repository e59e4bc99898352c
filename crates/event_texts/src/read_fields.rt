//! Readers of the fields of each kind of event.

ghost use Rattle.std.specs.Prelude.{◌≡◌};
ghost use Rattle.event_texts.specs.Answers.{Gives};
ghost use Rattle.event_texts.specs.Kinds.{Kind};
ghost use Rattle.event_texts.specs.Reading.{batch_in, fields_in, last_in, runs_in};

use crate::event_fault::EventFault;
use crate::kind::Kind;
use crate::read_calls::{read_asks, read_outcome, read_request};
use crate::read_topologies::read_topology;
use crate::read_values::{
    read_counted, read_datum_word, read_key_word, read_u8, read_u16, read_u32, read_until,
};
use grid_base::{
    Batch, CallId, Chunk, Entry, Item, NodeId, SegmentId, SessionId, StampedEntry, TopologyId,
    UnitId,
};
use grid_event::{
    AnswerEvent, CopyEvent, EraseEvent, Event, FetchEvent, InvokeEvent, RoundEvent, ScanEvent,
    TakeEvent, WriteEvent,
};
use pipeline_parse::reading::read_literal;
use sqlite_items::Boxed;
use std::alloc::Global;

/// Reads the fields of a write.
#[tactic(auto, unfolding(crate::specs::Reading::fields_in, crate::specs::Reading::write_in))]
pub(crate) fn read_write<'a>(alloc: Global, text: &'a [u8]) -> Result<(Event, &'a [u8]), EventFault>
    ensures { Gives result (fields_in Kind.Write text.now) }
{
    let (by, rest) = read_u16(text)?;
    let (node, rest) = read_u8(rest)?;
    let (key, rest) = match read_key_word(rest) {
        Ok(read) => read,
        Err(fault) => return Err(fault),
    };
    let (value, rest) = read_datum_word(alloc, rest)?;
    let (until, rest) = read_until(rest)?;
    let write = WriteEvent {
        by: SessionId::new(by),
        node: NodeId::new(node),
        key,
        value,
        until,
    };
    Ok((Event::Write(Boxed::new(alloc, write)?), rest))
}

/// Reads the fields of an erasing.
#[tactic(auto, unfolding(crate::specs::Reading::fields_in, crate::specs::Reading::erase_in))]
pub(crate) fn read_erase<'a>(alloc: Global, text: &'a [u8]) -> Result<(Event, &'a [u8]), EventFault>
    ensures { Gives result (fields_in Kind.Erase text.now) }
{
    let (by, rest) = read_u16(text)?;
    let (node, rest) = read_u8(rest)?;
    let (key, rest) = match read_key_word(rest) {
        Ok(read) => read,
        Err(fault) => return Err(fault),
    };
    let erase = EraseEvent {
        by: SessionId::new(by),
        node: NodeId::new(node),
        key,
    };
    Ok((Event::Erase(Boxed::new(alloc, erase)?), rest))
}

/// Reads by how many ticks the clock went on.
#[tactic(auto, unfolding(crate::specs::Reading::fields_in))]
pub(crate) fn read_tick(text: &[u8]) -> Result<(Event, &[u8]), EventFault>
    ensures { Gives result (fields_in Kind.Tick text.now) }
{
    let (ticks, rest) = read_u32(text)?;
    Ok((Event::Tick { ticks }, rest))
}

/// Reads which node joined.
#[tactic(auto, unfolding(crate::specs::Reading::fields_in))]
pub(crate) fn read_join(text: &[u8]) -> Result<(Event, &[u8]), EventFault>
    ensures { Gives result (fields_in Kind.Join text.now) }
{
    let (node, rest) = read_u8(text)?;
    let node = NodeId::new(node);
    Ok((Event::Join { node }, rest))
}

/// Reads which node left.
#[tactic(auto, unfolding(crate::specs::Reading::fields_in))]
pub(crate) fn read_depart(text: &[u8]) -> Result<(Event, &[u8]), EventFault>
    ensures { Gives result (fields_in Kind.Depart text.now) }
{
    let (node, rest) = read_u8(text)?;
    let node = NodeId::new(node);
    Ok((Event::Depart { node }, rest))
}

/// Reads which topology was announced.
#[tactic(auto, unfolding(crate::specs::Reading::fields_in))]
pub(crate) fn read_announce<'a>(
    alloc: Global,
    text: &'a [u8],
) -> Result<(Event, &'a [u8]), EventFault>
    ensures { Gives result (fields_in Kind.Announce text.now) }
{
    let (topology, rest) = read_topology(alloc, text)?;
    Ok((Event::Announce(Boxed::new(alloc, topology)?), rest))
}

/// Reads which node installed which topology.
#[tactic(auto, unfolding(crate::specs::Reading::fields_in))]
pub(crate) fn read_install(text: &[u8]) -> Result<(Event, &[u8]), EventFault>
    ensures { Gives result (fields_in Kind.Install text.now) }
{
    let (node, rest) = read_u8(text)?;
    let (id, rest) = read_u32(rest)?;
    let (node, id) = (NodeId::new(node), TopologyId::new(id));
    Ok((Event::Install { node, id }, rest))
}

/// Reads the fields of a chunk.
#[tactic(auto, unfolding(crate::specs::Reading::fields_in, crate::specs::Reading::copy_in))]
pub(crate) fn read_copy<'a>(alloc: Global, text: &'a [u8]) -> Result<(Event, &'a [u8]), EventFault>
    ensures { Gives result (fields_in Kind.Copy text.now) }
{
    let (receiver, rest) = read_u8(text)?;
    let (segment, rest) = read_u16(rest)?;
    let (provider, rest) = read_u8(rest)?;
    let (entries, rest) = read_counted::<StampedEntry>(alloc, rest)?;
    let (last, rest) = read_last(rest)?;
    let copy = CopyEvent {
        receiver: NodeId::new(receiver),
        segment: SegmentId::new(segment),
        provider: NodeId::new(provider),
        batch: Chunk { entries, last },
    };
    Ok((Event::Copy(Boxed::new(alloc, copy)?), rest))
}

/// Reads which segment came to which receiver.
#[tactic(auto, unfolding(crate::specs::Reading::fields_in))]
pub(crate) fn read_land(text: &[u8]) -> Result<(Event, &[u8]), EventFault>
    ensures { Gives result (fields_in Kind.Land text.now) }
{
    let (receiver, rest) = read_u8(text)?;
    let (segment, rest) = read_u16(rest)?;
    let (receiver, segment) = (NodeId::new(receiver), SegmentId::new(segment));
    Ok((Event::Land { receiver, segment }, rest))
}

/// Reads the fields of a call.
#[tactic(auto, unfolding(crate::specs::Reading::fields_in, crate::specs::Reading::invoke_in))]
pub(crate) fn read_invoke<'a>(
    alloc: Global,
    text: &'a [u8],
) -> Result<(Event, &'a [u8]), EventFault>
    ensures { Gives result (fields_in Kind.Invoke text.now) }
{
    let (by, rest) = read_u16(text)?;
    let (call, rest) = read_u32(rest)?;
    let (node, rest) = read_u8(rest)?;
    let (request, rest) = read_request(alloc, rest)?;
    let invoke = InvokeEvent {
        by: SessionId::new(by),
        call: CallId::new(call),
        node: NodeId::new(node),
        request,
    };
    Ok((Event::Invoke(Boxed::new(alloc, invoke)?), rest))
}

/// Reads the fields of a round.
#[tactic(auto, unfolding(crate::specs::Reading::fields_in, crate::specs::Reading::round_in))]
pub(crate) fn read_round<'a>(alloc: Global, text: &'a [u8]) -> Result<(Event, &'a [u8]), EventFault>
    ensures { Gives result (fields_in Kind.Round text.now) }
{
    let (call, rest) = read_u32(text)?;
    let (id, rest) = read_u32(rest)?;
    let rest = read_literal(" ", rest)?;
    let (asks, rest) = read_asks(alloc, rest)?;
    let round = RoundEvent {
        call: CallId::new(call),
        id: TopologyId::new(id),
        asks,
    };
    Ok((Event::Round(Boxed::new(alloc, round)?), rest))
}

/// Reads which unit was looked at, and whether it runs.
#[tactic(auto, unfolding(crate::specs::Reading::fields_in))]
pub(crate) fn read_begin(text: &[u8]) -> Result<(Event, &[u8]), EventFault>
    ensures { Gives result (fields_in Kind.Begin text.now) }
{
    let (unit, rest) = read_u32(text)?;
    let (runs, rest) = read_runs(rest)?;
    let unit = UnitId::new(unit);
    Ok((Event::Begin { unit, runs }, rest))
}

/// Reads the fields of a scan.
#[tactic(auto, unfolding(crate::specs::Reading::fields_in))]
pub(crate) fn read_scan<'a>(alloc: Global, text: &'a [u8]) -> Result<(Event, &'a [u8]), EventFault>
    ensures { Gives result (fields_in Kind.Scan text.now) }
{
    let (unit, batch, rest) = match read_batch(alloc, text) {
        Ok(((unit, batch), rest)) => (unit, batch, rest),
        Err(fault) => return Err(fault),
    };
    let scan = ScanEvent { unit, batch };
    Ok((Event::Scan(Boxed::new(alloc, scan)?), rest))
}

/// Reads the fields of a fetch.
#[tactic(auto, unfolding(crate::specs::Reading::fields_in))]
pub(crate) fn read_fetch<'a>(alloc: Global, text: &'a [u8]) -> Result<(Event, &'a [u8]), EventFault>
    ensures { Gives result (fields_in Kind.Fetch text.now) }
{
    let (unit, batch, rest) = match read_batch(alloc, text) {
        Ok(((unit, batch), rest)) => (unit, batch, rest),
        Err(fault) => return Err(fault),
    };
    let fetch = FetchEvent { unit, batch };
    Ok((Event::Fetch(Boxed::new(alloc, fetch)?), rest))
}

/// Reads the fields of a taking.
#[tactic(auto, unfolding(crate::specs::Reading::fields_in, crate::specs::Reading::take_in))]
pub(crate) fn read_take<'a>(alloc: Global, text: &'a [u8]) -> Result<(Event, &'a [u8]), EventFault>
    ensures { Gives result (fields_in Kind.Take text.now) }
{
    let (unit, rest) = read_u32(text)?;
    let (entries, rest) = read_counted::<Entry>(alloc, rest)?;
    let (given, rest) = read_counted::<Item>(alloc, rest)?;
    let take = TakeEvent {
        unit: UnitId::new(unit),
        entries,
        given,
    };
    Ok((Event::Take(Boxed::new(alloc, take)?), rest))
}

/// Reads which unit ended.
#[tactic(auto, unfolding(crate::specs::Reading::fields_in))]
pub(crate) fn read_done(text: &[u8]) -> Result<(Event, &[u8]), EventFault>
    ensures { Gives result (fields_in Kind.Done text.now) }
{
    let (unit, rest) = read_u32(text)?;
    let unit = UnitId::new(unit);
    Ok((Event::Done { unit }, rest))
}

/// Reads the fields of an answer.
#[tactic(auto, unfolding(crate::specs::Reading::fields_in, crate::specs::Reading::answer_event_in))]
pub(crate) fn read_answer_event<'a>(
    alloc: Global,
    text: &'a [u8],
) -> Result<(Event, &'a [u8]), EventFault>
    ensures { Gives result (fields_in Kind.Answer text.now) }
{
    let (call, rest) = read_u32(text)?;
    let (outcome, rest) = read_outcome(alloc, rest)?;
    let answer = AnswerEvent {
        call: CallId::new(call),
        outcome,
    };
    Ok((Event::Answer(Boxed::new(alloc, answer)?), rest))
}

/// Reads a unit, its entries, and whether they are the last.
#[tactic(auto, unfolding(crate::specs::Reading::batch_in))]
fn read_batch<'a>(alloc: Global, text: &'a [u8]) -> Result<((UnitId, Batch), &'a [u8]), EventFault>
    ensures { Gives result (batch_in text.now) }
{
    let (unit, rest) = read_u32(text)?;
    let (entries, rest) = read_counted::<Entry>(alloc, rest)?;
    let (last, rest) = read_last(rest)?;
    Ok(((UnitId::new(unit), Batch { entries, last }), rest))
}

/// Reads whether a batch is the last one, behind a blank.
fn read_last(text: &[u8]) -> Result<(bool, &[u8]), EventFault>
    ensures { Gives result (last_in text.now) }
{
    let text = read_literal(" ", text)?;
    if let Ok(rest) = read_literal("last", text) {
        return Ok((true, rest));
    }
    let rest = read_literal("more", text)?;
    Ok((false, rest))
}

/// Reads whether a unit runs, behind a blank.
fn read_runs(text: &[u8]) -> Result<(bool, &[u8]), EventFault>
    ensures { Gives result (runs_in text.now) }
{
    let text = read_literal(" ", text)?;
    if let Ok(rest) = read_literal("run", text) {
        return Ok((true, rest));
    }
    let rest = read_literal("refuse", text)?;
    Ok((false, rest))
}
