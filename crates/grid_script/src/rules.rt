//! The rules that a line has to keep.

ghost use Rattle.std.specs.Prelude.{◌≡◌, ◌≤◌, ◌+◌, true, IfOk};
ghost use Rattle.grid_base.specs.declared.limits.TheConstants.{LAST_CALL, LAST_CLOCK, MOST_BATCH, MOST_ROUNDS};
ghost use Rattle.grid_event.specs.Configs.{is_config};
ghost use Rattle.pipeline_expr.specs.Typing.{checked};
ghost use Rattle.grid_script.specs.Judging.{Says, needs};
ghost use Rattle.grid_script.specs.Rules.{call_within, needs_kind, needs_segment, is_kind, needs_made, needs_new, needs_typed, lifespan_within, node_within, request_within, segment_within, ticks_within, typed, within};

use crate::asked::Asked;
use crate::call_set::CallSet;
use crate::line_fault::LineFault;
use crate::reason::Reason;
use grid_base::limits::{LAST_CALL, LAST_CLOCK, MOST_BATCH, MOST_ROUNDS};
use grid_base::{CallId, Datum, Key, NodeId, SegmentId};
use grid_event::{CheckFault, Config, Kind, Pipeline, Request, ValueKind};
use pipeline_expr::check;
use segment_hash::segment_of;

/// Refuses a line by a reason, where what it needs doesn't hold.
pub(crate) fn needs(holds: bool, reason: Reason) -> Result<(), LineFault>
    ensures { Says result (needs holds reason) }
{
    if holds {
        Ok(())
    } else {
        Err(LineFault::Refused(reason))
    }
}

/// The number, where it is from a least one to a greatest one.
pub(crate) fn number_within(least: u32, most: u32, number: u32) -> Result<u32, LineFault>
    ensures judged { Says result (within least most number) }
    ensures least { IfOk result (λ n. least ≤ n) }
    ensures most { IfOk result (λ n. n ≤ most) }
{
    if least <= number && number <= most {
        Ok(number)
    } else {
        Err(LineFault::Refused(Reason::OverLimit))
    }
}

/// The node of a number from 0 to 15.
pub(crate) fn node_within(number: u32) -> Result<NodeId, LineFault>
    ensures judged { Says result (node_within number) }
    ensures most { IfOk result (λ node. node ≤ 15) }
{
    let number = number_within(0, 15, number)?;
    Ok(NodeId::new(number as u8))
}

/// The segment of a number below that of segments.
pub(crate) fn segment_within(config: &Config, number: u32) -> Result<SegmentId, LineFault>
    ensures { Says result (segment_within config.now number) }
{
    if number < u32::from(config.segments) {
        Ok(SegmentId::new(number as u16))
    } else {
        Err(LineFault::Refused(Reason::OverLimit))
    }
}

/// The call of a number from 1 to 4,096.
pub(crate) fn call_within(number: u32) -> Result<CallId, LineFault>
    ensures judged { Says result (call_within number) }
    ensures least { IfOk result (λ call. 1 ≤ call) }
    ensures most { IfOk result (λ call. call ≤ LAST_CALL) }
{
    let number = number_within(1, LAST_CALL, number)?;
    Ok(CallId::new(number))
}

/// The lifespan, where there is none or it is at least 1.
pub(crate) fn lifespan_within(lifespan: Option<u32>) -> Result<Option<u32>, LineFault>
    ensures { Says result (lifespan_within lifespan) }
{
    let Some(number) = lifespan else {
        return Ok(None);
    };
    if 1 <= number {
        Ok(Some(number))
    } else {
        Err(LineFault::Refused(Reason::OverLimit))
    }
}

/// The ticks, where there is one at least and those before and they are at most 1,000,000,000.
pub(crate) fn ticks_within(before: u32, ticks: u32) -> Result<u32, LineFault>
    requires { before ≤ LAST_CLOCK }
    ensures judged { Says result (ticks_within before ticks) }
    ensures most { IfOk result (λ n. before + n ≤ LAST_CLOCK) }
{
    if 1 <= ticks && u64::from(before) + u64::from(ticks) <= u64::from(LAST_CLOCK) {
        Ok(ticks)
    } else {
        Err(LineFault::Refused(Reason::OverLimit))
    }
}

/// The request, where its numbers are in their ranges.
#[tactic(auto, unfolding(crate::specs::Rules::request_within))]
pub(crate) fn request_within(asked: Asked) -> Result<Request, LineFault>
    ensures judged { Says result (request_within asked) }
    ensures rounds { IfOk result (λ request. (1 ≤ request.rounds) × (request.rounds ≤ MOST_ROUNDS)) }
    ensures batch { IfOk result (λ request. (1 ≤ request.batch) × (request.batch ≤ MOST_BATCH)) }
{
    let rounds = number_within(1, u32::from(MOST_ROUNDS), asked.rounds)?;
    let batch = number_within(1, u32::from(MOST_BATCH), asked.batch)?;
    Ok(Request {
        guarantee: asked.guarantee,
        rounds: rounds as u8,
        batch: batch as u16,
        pipeline: asked.pipeline,
    })
}

/// Refuses a call that no line before makes.
pub(crate) fn needs_made(calls: &CallSet, call: CallId) -> Result<(), LineFault>
    requires { call ≤ LAST_CALL }
    ensures { Says result (needs_made calls.now call) }
{
    needs(calls.has(call), Reason::CallUnknown)
}

/// Refuses a call that a line before makes.
pub(crate) fn needs_new(calls: &CallSet, call: CallId) -> Result<(), LineFault>
    requires { call ≤ LAST_CALL }
    ensures { Says result (needs_new calls.now call) }
{
    needs(!calls.has(call), Reason::CallTwice)
}

/// Refuses a key that has no segment.
pub(crate) fn needs_segment(config: &Config, key: &Key) -> Result<(), LineFault>
    requires { is_config config.now ≡ true }
    ensures { Says result (needs_segment config.now key.now) }
{
    needs(
        segment_of(key, config.partition, config.segments).is_some(),
        Reason::KeyUngrouped,
    )
}

/// Whether a value is of a kind.
fn is_kind(kind: ValueKind, datum: &Datum) -> bool
    ensures { result ≡ is_kind kind datum.now }
{
    match (kind, datum) {
        (ValueKind::Int, Datum::Int(_)) => true,
        (ValueKind::Text, Datum::Text(_)) => true,
        (ValueKind::Flag, Datum::Flag(_)) => true,
        _ => false,
    }
}

/// Refuses a value of another kind than the settings name.
pub(crate) fn needs_kind(config: &Config, datum: &Datum) -> Result<(), LineFault>
    ensures { Says result (needs_kind config.now datum.now) }
{
    needs(is_kind(config.values, datum), Reason::Mistyped)
}

/// Refuses a pipeline that is past a limit, or has an operation whose need isn't met.
pub(crate) fn needs_typed(config: &Config, pipeline: &Pipeline) -> Result<(), LineFault>
    ensures { Says result (needs_typed config.now pipeline.now) }
{
    typed(check(pipeline, config.values))
}

/// The refusal of a pipeline.
fn typed(kind: Result<Kind, CheckFault>) -> Result<(), LineFault>
    ensures { Says result (typed kind) }
{
    match kind {
        Ok(_) => Ok(()),
        Err(CheckFault::Over { .. }) => Err(LineFault::Refused(Reason::OverLimit)),
        Err(CheckFault::Mistyped { .. }) => Err(LineFault::Refused(Reason::Mistyped)),
    }
}
