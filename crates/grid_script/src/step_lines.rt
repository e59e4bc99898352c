//! Reading the lines of a script of a stepped run.

ghost use Rattle.std.specs.Prelude.{◌≡◌, ◌≤◌, ℕ, true, IfOk};
ghost use Rattle.grid_base.specs.declared.limits.TheConstants.{LAST_CLOCK};
ghost use Rattle.grid_event.specs.Configs.{is_config};
ghost use Rattle.grid_script.specs.Judging.{Says};
ghost use Rattle.grid_script.specs.StepLines.{IsNoted, asked_in, bare_in, bare_order, call_in, call_order, call_words, copy_in, copy_order, depart_in, erase_in, fields_in, install_in, join_in, lifespan_in, made_call_in, order_in, put_in, put_words, tick_in, unit_in, unit_order};

use crate::asked::Asked;
use crate::call_words::CallWords;
use crate::known::Known;
use crate::line_fault::LineFault;
use crate::order::Order;
use crate::put_words::PutWords;
use crate::readers::{
    read_end, read_key_field, read_last_key, read_last_number, read_number_field, read_pipeline,
};
use crate::rules::{
    call_within, lifespan_within, needs_kind, needs_made, needs_new, needs_segment, needs_typed,
    node_within, request_within, segment_within, ticks_within,
};
use crate::words::{
    BareWord, CallWord, CopyWord, StepWord, UnitWord, read_guarantee, read_step_word,
};
use grid_base::{CallId, NodeId, SegmentId, SessionId};
use grid_event::Command;
use pipeline_parse::reading::{read_datum, read_literal};
use std::alloc::Global;

/// Reads what stands behind the value of a put: nothing, or a lifespan.
fn read_lifespan(text: &[u8]) -> Result<Option<u32>, LineFault>
    ensures { Says result (lifespan_in text.now) }
{
    if text.is_empty() {
        return Ok(None);
    }
    let rest = read_literal(" for ", text)?;
    let number = read_last_number(rest)?;
    Ok(Some(number))
}

/// Reads the fields of a put.
#[tactic(auto, unfolding(crate::specs::StepLines::put_words))]
fn read_put_words(alloc: Global, text: &[u8]) -> Result<PutWords, LineFault>
    ensures { Says result (put_words text.now) }
{
    let (node, rest) = read_number_field(text)?;
    match read_key_field(rest) {
        Ok((key, rest)) => {
            let (datum, rest) = read_datum(alloc, rest)?;
            let lifespan = read_lifespan(rest)?;
            Ok(PutWords {
                node,
                key,
                datum,
                lifespan,
            })
        }
        Err(unread) => Err(LineFault::from(unread)),
    }
}

/// `put NODE KEY DATUM`, or that with ` for LIFESPAN`.
#[tactic(auto, unfolding(crate::specs::StepLines::put_in))]
fn read_put(alloc: Global, known: &Known, text: &[u8]) -> Result<Order, LineFault>
    requires { is_config known.now.config ≡ true }
    ensures judged { Says result (put_in known.now text.now) }
    ensures noted { IfOk result (λ order. IsNoted known.now.ticks order) }
{
    let words = read_put_words(alloc, text)?;
    let node = node_within(words.node)?;
    let lifespan = lifespan_within(words.lifespan)?;
    known.members.needs_live(node)?;
    needs_segment(&known.config, &words.key)?;
    needs_kind(&known.config, &words.datum)?;
    Ok(Order::One(Command::Put {
        by: SessionId::new(0),
        node,
        key: words.key,
        value: words.datum,
        lifespan,
    }))
}

/// `erase NODE KEY`.
#[tactic(auto, unfolding(crate::specs::StepLines::erase_in))]
fn read_erase(known: &Known, text: &[u8]) -> Result<Order, LineFault>
    requires { is_config known.now.config ≡ true }
    ensures judged { Says result (erase_in known.now text.now) }
    ensures noted { IfOk result (λ order. IsNoted known.now.ticks order) }
{
    let (number, rest) = read_number_field(text)?;
    let key = read_last_key(rest)?;
    let node = node_within(number)?;
    known.members.needs_live(node)?;
    needs_segment(&known.config, &key)?;
    Ok(Order::One(Command::Erase {
        by: SessionId::new(0),
        node,
        key,
    }))
}

/// Reads what a call asks for: its guarantee, rounds, batch and pipeline.
#[tactic(auto, unfolding(crate::specs::StepLines::asked_in))]
pub(crate) fn read_asked(alloc: Global, text: &[u8]) -> Result<Asked, LineFault>
    ensures { Says result (asked_in text.now) }
{
    let (word, rest) = read_guarantee(text)?;
    let (rounds, rest) = read_number_field(rest)?;
    let (batch, rest) = read_number_field(rest)?;
    let pipeline = read_pipeline(alloc, rest)?;
    Ok(Asked {
        guarantee: word.guarantee,
        rounds,
        batch,
        pipeline,
    })
}

/// Reads the fields of a call.
#[tactic(auto, unfolding(crate::specs::StepLines::call_words))]
fn read_call_words(alloc: Global, text: &[u8]) -> Result<CallWords, LineFault>
    ensures { Says result (call_words text.now) }
{
    let (call, rest) = read_number_field(text)?;
    let (node, rest) = read_number_field(rest)?;
    let asked = read_asked(alloc, rest)?;
    Ok(CallWords { call, node, asked })
}

/// `call CALL NODE GUARANTEE ROUNDS BATCH PIPELINE`.
#[tactic(auto, unfolding(crate::specs::StepLines::call_in))]
fn read_call(alloc: Global, known: &Known, text: &[u8]) -> Result<Order, LineFault>
    ensures judged { Says result (call_in known.now text.now) }
    ensures noted { IfOk result (λ order. IsNoted known.now.ticks order) }
{
    let words = read_call_words(alloc, text)?;
    let call = call_within(words.call)?;
    let node = node_within(words.node)?;
    let request = request_within(words.asked)?;
    known.members.needs_live(node)?;
    needs_new(&known.calls, call)?;
    needs_typed(&known.config, &request.pipeline)?;
    Ok(Order::One(Command::Call {
        by: SessionId::new(0),
        call,
        node,
        request,
    }))
}

/// `tick NUMBER`.
#[tactic(auto, unfolding(crate::specs::StepLines::tick_in))]
fn read_tick(known: &Known, text: &[u8]) -> Result<Order, LineFault>
    requires { known.now.ticks ≤ LAST_CLOCK }
    ensures judged { Says result (tick_in known.now text.now) }
    ensures noted { IfOk result (λ order. IsNoted known.now.ticks order) }
{
    let number = read_last_number(text)?;
    let ticks = ticks_within(known.ticks, number)?;
    Ok(Order::One(Command::Tick { ticks }))
}

/// `join NODE`.
#[tactic(auto, unfolding(crate::specs::StepLines::join_in))]
fn read_join(known: &Known, text: &[u8]) -> Result<Order, LineFault>
    ensures judged { Says result (join_in known.now text.now) }
    ensures noted { IfOk result (λ order. IsNoted known.now.ticks order) }
{
    let number = read_last_number(text)?;
    let node = node_within(number)?;
    known.members.may_join(node)?;
    Ok(Order::One(Command::Join { node }))
}

/// `depart NODE`.
#[tactic(auto, unfolding(crate::specs::StepLines::depart_in))]
fn read_depart(known: &Known, text: &[u8]) -> Result<Order, LineFault>
    ensures judged { Says result (depart_in known.now text.now) }
    ensures noted { IfOk result (λ order. IsNoted known.now.ticks order) }
{
    let number = read_last_number(text)?;
    let node = node_within(number)?;
    known.members.may_depart(node)?;
    Ok(Order::One(Command::Depart { node }))
}

/// `install NODE`.
#[tactic(auto, unfolding(crate::specs::StepLines::install_in))]
fn read_install(known: &Known, text: &[u8]) -> Result<Order, LineFault>
    ensures judged { Says result (install_in known.now text.now) }
    ensures noted { IfOk result (λ order. IsNoted known.now.ticks order) }
{
    let number = read_last_number(text)?;
    let node = node_within(number)?;
    known.members.needs_live(node)?;
    Ok(Order::One(Command::Install { node }))
}

/// The order of a transfer's word.
fn copy_order(word: CopyWord, receiver: NodeId, segment: SegmentId) -> Order
    ensures order { result ≡ copy_order word receiver segment }
    ensures noted { (ticks : ℕ) → IsNoted ticks result }
{
    match word {
        CopyWord::Copy => Order::One(Command::Copy { receiver, segment }),
        CopyWord::Land => Order::One(Command::Land { receiver, segment }),
    }
}

/// `copy NODE SEGMENT` and `land NODE SEGMENT`.
#[tactic(auto, unfolding(crate::specs::StepLines::copy_in))]
fn read_copy(known: &Known, word: CopyWord, text: &[u8]) -> Result<Order, LineFault>
    ensures judged { Says result (copy_in known.now word text.now) }
    ensures noted { IfOk result (λ order. IsNoted known.now.ticks order) }
{
    let (first, rest) = read_number_field(text)?;
    let second = read_last_number(rest)?;
    let node = node_within(first)?;
    let segment = segment_within(&known.config, second)?;
    known.members.needs_live(node)?;
    Ok(copy_order(word, node, segment))
}

/// The order of a call's word.
fn call_order(word: CallWord, call: CallId) -> Order
    ensures order { result ≡ call_order word call }
    ensures noted { (ticks : ℕ) → IsNoted ticks result }
{
    match word {
        CallWord::Round => Order::One(Command::Round { call }),
        CallWord::Answer => Order::One(Command::Answer { call }),
        CallWord::Drive => Order::One(Command::Drive { call }),
        CallWord::Finish => Order::Finish(call),
    }
}

/// `round CALL`, `answer CALL`, `drive CALL` and `finish CALL`.
#[tactic(auto, unfolding(crate::specs::StepLines::made_call_in))]
fn read_made_call(known: &Known, word: CallWord, text: &[u8]) -> Result<Order, LineFault>
    ensures judged { Says result (made_call_in known.now word text.now) }
    ensures noted { IfOk result (λ order. IsNoted known.now.ticks order) }
{
    let number = read_last_number(text)?;
    let call = call_within(number)?;
    needs_made(&known.calls, call)?;
    Ok(call_order(word, call))
}

/// The order of a unit's word.
fn unit_order(word: UnitWord, call: CallId, segment: SegmentId) -> Order
    ensures order { result ≡ unit_order word call segment }
    ensures noted { (ticks : ℕ) → IsNoted ticks result }
{
    match word {
        UnitWord::Begin => Order::One(Command::Begin { call, segment }),
        UnitWord::Scan => Order::One(Command::Scan { call, segment }),
        UnitWord::Fetch => Order::One(Command::Fetch { call, segment }),
        UnitWord::Take => Order::One(Command::Take { call, segment }),
        UnitWord::Done => Order::One(Command::Done { call, segment }),
    }
}

/// `begin CALL SEGMENT`, and so `scan`, `fetch`, `take` and `done`.
#[tactic(auto, unfolding(crate::specs::StepLines::unit_in))]
fn read_unit(known: &Known, word: UnitWord, text: &[u8]) -> Result<Order, LineFault>
    ensures judged { Says result (unit_in known.now word text.now) }
    ensures noted { IfOk result (λ order. IsNoted known.now.ticks order) }
{
    let (first, rest) = read_number_field(text)?;
    let second = read_last_number(rest)?;
    let call = call_within(first)?;
    let segment = segment_within(&known.config, second)?;
    needs_made(&known.calls, call)?;
    Ok(unit_order(word, call, segment))
}

/// The order of a word that stands alone.
fn bare_order(word: BareWord) -> Order
    ensures order { result ≡ bare_order word }
    ensures noted { (ticks : ℕ) → IsNoted ticks result }
{
    match word {
        BareWord::Announce => Order::One(Command::Announce),
        BareWord::Advance => Order::One(Command::Advance),
        BareWord::Settle => Order::Settle,
    }
}

/// `announce`, `advance` and `settle`.
#[tactic(auto, unfolding(crate::specs::StepLines::bare_in))]
fn read_bare(word: BareWord, text: &[u8]) -> Result<Order, LineFault>
    ensures judged { Says result (bare_in word text.now) }
    ensures noted { (ticks : ℕ) → IfOk result (λ order. IsNoted ticks order) }
{
    read_end(text)?;
    Ok(bare_order(word))
}

/// Reads the order of a line, behind its first word.
fn read_fields(
    alloc: Global,
    known: &Known,
    word: StepWord,
    text: &[u8],
) -> Result<Order, LineFault>
    requires settings { is_config known.now.config ≡ true }
    requires ticks { known.now.ticks ≤ LAST_CLOCK }
    ensures judged { Says result (fields_in known.now word text.now) }
    ensures noted { IfOk result (λ order. IsNoted known.now.ticks order) }
{
    match word {
        StepWord::Put => read_put(alloc, known, text),
        StepWord::Erase => read_erase(known, text),
        StepWord::Call => read_call(alloc, known, text),
        StepWord::Tick => read_tick(known, text),
        StepWord::Join => read_join(known, text),
        StepWord::Depart => read_depart(known, text),
        StepWord::Install => read_install(known, text),
        StepWord::Copies(word) => read_copy(known, word, text),
        StepWord::Calls(word) => read_made_call(known, word, text),
        StepWord::Units(word) => read_unit(known, word, text),
        StepWord::Bare(word) => read_bare(word, text),
    }
}

/// Reads the order of a line.
#[tactic(auto, unfolding(crate::specs::StepLines::order_in))]
pub(crate) fn read_order(alloc: Global, known: &Known, text: &[u8]) -> Result<Order, LineFault>
    requires settings { is_config known.now.config ≡ true }
    requires ticks { known.now.ticks ≤ LAST_CLOCK }
    ensures judged { Says result (order_in known.now text.now) }
    ensures noted { IfOk result (λ order. IsNoted known.now.ticks order) }
{
    let (word, rest) = read_step_word(text)?;
    read_fields(alloc, known, word, rest)
}
