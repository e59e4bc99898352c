//! The texts of events.

ghost use Rattle.std.specs.Prelude.{◌≡◌, [], ◌∷◌, ◌++◌, true, nat_le, IfOk, OnOk, codes, decimal, length, map};
ghost use Rattle.std.specs.List.{list_all};
ghost use Rattle.grid_base.specs.Portion.{Portion};
ghost use Rattle.grid_event.specs.declared.event.Event.TheVariants as events;
ghost use Rattle.pipeline_parse.specs.Grammar.{fits, text_of};
ghost use Rattle.event_texts.specs.Fits.{all_fit, ask_fits, entry_fits, event_fits, is_short, request_fits, topology_fits};
ghost use Rattle.event_texts.specs.Words.{each_behind, words};
ghost use Rattle.event_texts.specs.Events.{ask_text, asks_text, batch_text, copy_text, erase_text, event_text, guarantee_text, invoke_text};
ghost use Rattle.event_texts.specs.Events.{last_text, outcome_text, request_text, round_text, runs_text, take_text, write_text};
ghost use Rattle.event_texts.specs.Topologies.{topology_text};

use crate::outcomes::add_outcome;
use crate::topologies::add_topology;
use crate::words::{
    add_entries, add_items, add_number, add_number_word, add_stamped_entries, add_until, add_word,
};
use grid_base::{Batch, Bytes, NoMemory};
use grid_event::{
    AnswerEvent, Ask, CopyEvent, EraseEvent, Event, Guarantee, InvokeEvent, Pipeline, Request,
    RoundEvent, TakeEvent, Topology, WriteEvent,
};
use pipeline_parse::print_pipeline;
use pipeline_parse::writing::add_datum;
use std::alloc::Global;

/// The text of an event: the word of its kind and its fields in their order, with one blank between
/// each two words. `read_event` reads it, where the event's pipeline, if it has one, has a text of
/// at most 1,024 bytes. The only failure is that memory runs out.
pub fn print_event(alloc: Global, event: &Event) -> Result<Bytes, NoMemory>
    ensures text { IfOk result (λ out. out.list ≡ event_text event.now) }
    ensures keeps { IfOk result (λ _. is_short event.now ≡ true → event_fits event.now ≡ true) }
{
    let mut out = Bytes::new(alloc);
    add_event(alloc, &mut out, event)?;
    Ok(out)
}

/// Adds the text of an event.
#[tactic(auto, unfolding(crate::specs::Events::event_text, crate::specs::Fits::event_fits))]
pub fn add_event(alloc: Global, out: &mut Bytes, event: &Event) -> Result<(), NoMemory>
    ensures text { OnOk result (out.new.list ≡ out.old.list ++ event_text event.now) }
    ensures keeps { OnOk result (is_short event.now ≡ true → event_fits event.now ≡ true) }
{
    match event {
        Event::Write(write) => add_write(out, write.get()),
        Event::Erase(erase) => add_erase(out, erase.get()),
        Event::Tick { ticks } => add_numbered(out, b"tick", *ticks),
        Event::Join { node } => add_numbered(out, b"join", u32::from(node.number())),
        Event::Depart { node } => add_numbered(out, b"depart", u32::from(node.number())),
        Event::Announce(topology) => add_announce(out, topology.get()),
        Event::Install { node, id } => {
            add_pair(out, b"install", u32::from(node.number()), id.number())
        }
        Event::Copy(copy) => add_copy(out, copy.get()),
        Event::Land { receiver, segment } => add_pair(
            out,
            b"land",
            u32::from(receiver.number()),
            u32::from(segment.number()),
        ),
        Event::Invoke(invoke) => add_invoke(alloc, out, invoke.get()),
        Event::Round(round) => add_round(out, round.get()),
        Event::Begin { unit, runs } => add_begin(out, unit.number(), *runs),
        Event::Scan(scan) => {
            let scan = scan.get();
            add_batch(out, b"scan", scan.unit.number(), &scan.batch)
        }
        Event::Fetch(fetch) => {
            let fetch = fetch.get();
            add_batch(out, b"fetch", fetch.unit.number(), &fetch.batch)
        }
        Event::Take(take) => add_take(out, take.get()),
        Event::Done { unit } => add_numbered(out, b"done", unit.number()),
        Event::Answer(answer) => add_answer_event(out, answer.get()),
    }
}

/// Adds the word of a kind and a number.
fn add_numbered(out: &mut Bytes, kind: &[u8], number: u32) -> Result<(), NoMemory>
    ensures { OnOk result (out.new.list ≡ out.old.list ++ words (kind.now ∷ decimal number ∷ [])) }
{
    out.extend(kind)?;
    add_number_word(out, u64::from(number))
}

/// Adds the word of a kind and two numbers.
fn add_pair(out: &mut Bytes, kind: &[u8], first: u32, second: u32) -> Result<(), NoMemory>
    ensures { OnOk result (out.new.list ≡ out.old.list ++ words (kind.now ∷ decimal first ∷ decimal second ∷ [])) }
{
    out.extend(kind)?;
    add_number_word(out, u64::from(first))?;
    add_number_word(out, u64::from(second))
}

/// Adds the text of a write.
#[tactic(auto, unfolding(crate::specs::Events::write_text, crate::specs::Fits::event_fits))]
fn add_write(out: &mut Bytes, write: &WriteEvent) -> Result<(), NoMemory>
    ensures text { OnOk result (out.new.list ≡ out.old.list ++ write_text write.now) }
    ensures keeps { OnOk result (event_fits (events.Write write.now) ≡ true) }
{
    out.extend(b"write")?;
    add_number_word(out, u64::from(write.by.number()))?;
    add_number_word(out, u64::from(write.node.number()))?;
    add_word(out, write.key.bytes())?;
    out.push(b' ')?;
    add_datum(out, &write.value)?;
    add_until(out, write.until)
}

/// Adds the text of an erasing.
#[tactic(auto, unfolding(crate::specs::Events::erase_text, crate::specs::Fits::event_fits))]
fn add_erase(out: &mut Bytes, erase: &EraseEvent) -> Result<(), NoMemory>
    ensures text { OnOk result (out.new.list ≡ out.old.list ++ erase_text erase.now) }
    ensures keeps { OnOk result (event_fits (events.Erase erase.now) ≡ true) }
{
    out.extend(b"erase")?;
    add_number_word(out, u64::from(erase.by.number()))?;
    add_number_word(out, u64::from(erase.node.number()))?;
    add_word(out, erase.key.bytes())
}

/// Adds the text of a topology that was announced.
fn add_announce(out: &mut Bytes, topology: &Topology) -> Result<(), NoMemory>
    ensures text { OnOk result (out.new.list ≡ out.old.list ++ words (codes "announce" ∷ topology_text topology.now ∷ [])) }
    ensures keeps { OnOk result (topology_fits topology.now ≡ true) }
{
    out.extend(b"announce ")?;
    add_topology(out, topology)
}

/// Adds the text of a chunk that was copied.
#[tactic(auto, unfolding(crate::specs::Events::copy_text, crate::specs::Fits::event_fits))]
fn add_copy(out: &mut Bytes, copy: &CopyEvent) -> Result<(), NoMemory>
    ensures text { OnOk result (out.new.list ≡ out.old.list ++ copy_text copy.now) }
    ensures keeps { OnOk result (event_fits (events.Copy copy.now) ≡ true) }
{
    let chunk = &copy.batch;
    out.extend(b"copy")?;
    add_number_word(out, u64::from(copy.receiver.number()))?;
    add_number_word(out, u64::from(copy.segment.number()))?;
    add_number_word(out, u64::from(copy.provider.number()))?;
    add_stamped_entries(out, chunk.entries.as_slice())?;
    add_last(out, chunk.last)
}

/// Adds the text of a call that was made.
#[tactic(auto, unfolding(crate::specs::Events::invoke_text, crate::specs::Fits::event_fits))]
fn add_invoke(alloc: Global, out: &mut Bytes, invoke: &InvokeEvent) -> Result<(), NoMemory>
    ensures text { OnOk result (out.new.list ≡ out.old.list ++ invoke_text invoke.now) }
    ensures keeps { OnOk result (is_short (events.Invoke invoke.now) ≡ true → event_fits (events.Invoke invoke.now) ≡ true) }
{
    out.extend(b"invoke")?;
    add_number_word(out, u64::from(invoke.by.number()))?;
    add_number_word(out, u64::from(invoke.call.number()))?;
    add_number_word(out, u64::from(invoke.node.number()))?;
    out.push(b' ')?;
    add_request(alloc, out, &invoke.request)
}

/// Adds the text of what a call asks for.
#[tactic(auto, unfolding(crate::specs::Events::request_text))]
fn add_request(alloc: Global, out: &mut Bytes, request: &Request) -> Result<(), NoMemory>
    ensures text { OnOk result (out.new.list ≡ out.old.list ++ request_text request.now) }
    ensures keeps { OnOk result (nat_le (length (text_of request.now.pipeline)) 1024 ≡ true → request_fits request.now ≡ true) }
{
    add_guarantee(out, request.guarantee)?;
    add_number_word(out, u64::from(request.rounds))?;
    add_number_word(out, u64::from(request.batch))?;
    out.push(b' ')?;
    add_pipeline(alloc, out, &request.pipeline)
}

/// Adds the word of a guarantee.
fn add_guarantee(out: &mut Bytes, guarantee: Guarantee) -> Result<(), NoMemory>
    ensures { OnOk result (out.new.list ≡ out.old.list ++ guarantee_text guarantee) }
{
    match guarantee {
        Guarantee::Exact => out.extend(b"exact"),
        Guarantee::AtLeast => out.extend(b"atleast"),
        Guarantee::AtMost => out.extend(b"atmost"),
    }
}

/// Adds the text of a pipeline.
fn add_pipeline(alloc: Global, out: &mut Bytes, pipeline: &Pipeline) -> Result<(), NoMemory>
    ensures text { OnOk result (out.new.list ≡ out.old.list ++ text_of pipeline.now) }
    ensures keeps { OnOk result (fits pipeline.now ≡ true) }
{
    let text = print_pipeline(alloc, pipeline)?;
    out.extend(text.as_slice())
}

/// Adds the text of a round.
#[tactic(auto, unfolding(crate::specs::Events::round_text, crate::specs::Fits::event_fits))]
fn add_round(out: &mut Bytes, round: &RoundEvent) -> Result<(), NoMemory>
    ensures text { OnOk result (out.new.list ≡ out.old.list ++ round_text round.now) }
    ensures keeps { OnOk result (event_fits (events.Round round.now) ≡ true) }
{
    out.extend(b"round")?;
    add_number_word(out, u64::from(round.call.number()))?;
    add_number_word(out, u64::from(round.id.number()))?;
    out.push(b' ')?;
    add_asks(out, round.asks.as_slice())
}

/// Adds the asks of a round, with a comma between each two.
#[tactic(auto, unfolding(crate::specs::Events::asks_text))]
fn add_asks(out: &mut Bytes, asks: &[Ask]) -> Result<(), NoMemory>
    ensures text { OnOk result (out.new.list ≡ out.old.list ++ asks_text asks.now) }
    ensures keeps { OnOk result (list_all ask_fits asks.now ≡ true) }
{
    let Some((first, others)) = asks.split_first() else {
        return Ok(());
    };
    add_ask(out, first)?;
    add_other_asks(out, others)?;
    Ok(())
}

/// Adds each ask behind a comma.
fn add_other_asks(out: &mut Bytes, asks: &[Ask]) -> Result<(), NoMemory>
    ensures text { OnOk result (out.new.list ≡ out.old.list ++ each_behind 44 (map ask_text asks.now)) }
    ensures keeps { OnOk result (list_all ask_fits asks.now ≡ true) }
{
    for ask in asks {
        out.push(b',')?;
        add_ask(out, ask)?;
    }
    Ok(())
}

/// Adds a unit, its segment and the asked node.
fn add_ask(out: &mut Bytes, ask: &Ask) -> Result<(), NoMemory>
    ensures text { OnOk result (out.new.list ≡ out.old.list ++ ask_text ask.now) }
    ensures keeps { OnOk result (ask_fits ask.now ≡ true) }
{
    add_number(out, u64::from(ask.unit.number()))?;
    out.push(b':')?;
    add_number(out, u64::from(ask.segment.number()))?;
    out.push(b'@')?;
    add_number(out, u64::from(ask.node.number()))
}

/// Adds the text of a unit that was looked at.
fn add_begin(out: &mut Bytes, unit: u32, runs: bool) -> Result<(), NoMemory>
    ensures { OnOk result (out.new.list ≡ out.old.list ++ words (codes "begin" ∷ decimal unit ∷ runs_text runs ∷ [])) }
{
    out.extend(b"begin")?;
    add_number_word(out, u64::from(unit))?;
    add_runs(out, runs)
}

/// Adds a blank and whether a unit runs.
fn add_runs(out: &mut Bytes, runs: bool) -> Result<(), NoMemory>
    ensures { OnOk result (out.new.list ≡ out.old.list ++ 32 ∷ runs_text runs) }
{
    if runs {
        add_word(out, b"run")
    } else {
        add_word(out, b"refuse")
    }
}

/// Adds the text of entries that a unit read or handed on.
#[tactic(auto, unfolding(crate::specs::Events::batch_text))]
fn add_batch(out: &mut Bytes, kind: &[u8], unit: u32, batch: &Batch) -> Result<(), NoMemory>
    ensures text { OnOk result (out.new.list ≡ out.old.list ++ batch_text kind.now unit batch.now) }
    ensures keeps { OnOk result (all_fit entry_fits batch.now.entries ≡ true) }
{
    out.extend(kind)?;
    add_number_word(out, u64::from(unit))?;
    add_entries(out, batch.entries.as_slice())?;
    add_last(out, batch.last)
}

/// Adds a blank and whether more entries come.
fn add_last(out: &mut Bytes, last: bool) -> Result<(), NoMemory>
    ensures { OnOk result (out.new.list ≡ out.old.list ++ 32 ∷ last_text last) }
{
    if last {
        add_word(out, b"last")
    } else {
        add_word(out, b"more")
    }
}

/// Adds the text of what a call took.
#[tactic(auto, unfolding(crate::specs::Events::take_text, crate::specs::Fits::event_fits))]
fn add_take(out: &mut Bytes, take: &TakeEvent) -> Result<(), NoMemory>
    ensures text { OnOk result (out.new.list ≡ out.old.list ++ take_text take.now) }
    ensures keeps { OnOk result (event_fits (events.Take take.now) ≡ true) }
{
    out.extend(b"take")?;
    add_number_word(out, u64::from(take.unit.number()))?;
    add_entries(out, take.entries.as_slice())?;
    add_items(out, take.given.as_slice())
}

/// Adds the text of a call that was answered.
#[tactic(auto, unfolding(crate::specs::Fits::event_fits))]
fn add_answer_event(out: &mut Bytes, answer: &AnswerEvent) -> Result<(), NoMemory>
    ensures text { OnOk result (out.new.list ≡ out.old.list ++ words (codes "answer" ∷ decimal answer.now.call ∷ outcome_text answer.now.outcome ∷ [])) }
    ensures keeps { OnOk result (event_fits (events.Answer answer.now) ≡ true) }
{
    out.extend(b"answer")?;
    add_number_word(out, u64::from(answer.call.number()))?;
    out.push(b' ')?;
    add_outcome(out, &answer.outcome)
}
