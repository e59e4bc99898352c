//! The generator of scripts.

ghost use Rattle.std.specs.Prelude.{◌≡◌, ℕ, ℤ, ◌≤◌, ◌<◌, ◌+◌, ◌++◌, ◌∷◌, [], decimal, length, negsuc, pos, List, None, IfOk, OnOk};
ghost use Rattle.grid_script.specs.Generating.{call_order, calls_orders, drawn, generated, key_order, key_orders, numbered, pipeline, quarter, settings, spare_order, state_after, step_order, step_orders};

use crate::order::Order;
use crate::step_line::StepLine;
use crate::step_script::StepScript;
use grid_base::{Bytes, CallId, Datum, Key, NoMemory, NodeId, SessionId};
use grid_event::{
    Command, Config, End, Expr, Guarantee, Op, Partition, Pipeline, Request, ValueKind,
};
use itoa::Buffer;
use sqlite_items::{Boxed, Items};
use std::alloc::Global;
use topology_phase::Aim;

/// The most lines, so that each has a number of 32 bits.
const MOST_LINES: usize = 4_294_967_280;

/// The script of a stepped run that a seed gives: puts of `keys` keys at nodes that are drawn, two
/// calls over them, and `steps` steps that are drawn too. Its lines are numbered from 8. The only
/// failure is that memory runs out.
#[tactic(auto, unfolding(crate::specs::Generating::generated))]
pub fn generate(alloc: Global, seed: u32, keys: u32, steps: u32) -> Result<StepScript, NoMemory>
    ensures { IfOk result (λ script. script ≡ generated seed keys steps) }
{
    let mut lines = Items::new(alloc);
    let state = add_keys(alloc, &mut lines, u64::from(seed), keys)?;
    add_calls(alloc, &mut lines)?;
    add_steps(&mut lines, state, steps)?;
    add_end(&mut lines)?;
    Ok(StepScript {
        config: settings(),
        lines,
    })
}

/// The settings of the generator.
fn settings() -> Config
    ensures { result ≡ settings }
{
    Config {
        nodes: 4,
        segments: 64,
        owners: 2,
        partition: Partition::Plain,
        values: ValueKind::Int,
        chunk: 100,
        aim: Aim::Create,
    }
}

/// The state behind a draw.
fn drawn(state: u64) -> u64
    ensures { result ≡ drawn state }
{
    state
        .wrapping_mul(6_364_136_223_846_793_005)
        .wrapping_add(1_442_695_040_888_963_407)
}

/// What the draw gives that left this state, modulo 4.
fn quarter(state: u64) -> u8
    ensures { result ≡ quarter state }
{
    (state / (1 << 33) % 4) as u8
}

/// Puts a line with an order behind the others.
fn add(lines: &mut Items<StepLine>, order: Order) -> Result<(), NoMemory>
    ensures { (before : List Order) → lines.old ≡ numbered 8 before → OnOk result (lines.new ≡ numbered 8 (before ++ order ∷ [])) }
{
    let place = lines.len();
    if place >= MOST_LINES {
        return Err(NoMemory);
    }
    let line = place as u32 + 8;
    lines.push(StepLine { line, order })?;
    Ok(())
}

/// The put of a number at a key.
fn put_of(node: u8, key: Key, number: i64) -> Order
    ensures { result ≡ Order.One (Command.Put 0 node key (Datum.Int number) None) }
{
    Order::One(Command::Put {
        by: SessionId::new(0),
        node: NodeId::new(node),
        key,
        value: Datum::Int(number),
        lifespan: None,
    })
}

/// The key of a number: the letter k and the number in decimal.
fn key_of(alloc: Global, number: u32) -> Result<Key, NoMemory>
    ensures { IfOk result (λ key. key ≡ 107 ∷ decimal number) }
{
    let mut bytes = Bytes::new(alloc);
    bytes.push(b'k')?;
    bytes.extend(Buffer::new().format(number).as_bytes())?;
    match Key::new(bytes.as_slice()) {
        Ok(key) => Ok(key),
        Err(_) => Err(NoMemory),
    }
}

/// Puts so many keys, each at a node that is drawn, and gives the state behind the draws.
fn add_keys(
    alloc: Global,
    lines: &mut Items<StepLine>,
    seed: u64,
    keys: u32,
) -> Result<u64, NoMemory>
    ensures state { IfOk result (λ state. state ≡ state_after seed keys) }
    ensures lines { (before : List Order) → lines.old ≡ numbered 8 before → OnOk result (lines.new ≡ numbered 8 (before ++ key_orders seed keys)) }
{
    let mut state = seed;
    for number in 0..keys {
        state = drawn(state);
        let key = key_of(alloc, number)?;
        add(lines, put_of(quarter(state), key, i64::from(number)))?;
    }
    Ok(state)
}

/// `filter (-1 < value)` and an end.
fn pipeline(alloc: Global, end: End) -> Result<Pipeline, NoMemory>
    ensures { IfOk result (λ made. made ≡ pipeline end) }
{
    let least = Boxed::new(alloc, Expr::Lit(Datum::Int(-1)))?;
    let value = Boxed::new(alloc, Expr::Value)?;
    let mut ops = Items::new(alloc);
    ops.push(Op::Filter(Expr::Less(least, value)))?;
    Ok(Pipeline { ops, end })
}

/// The call of a number at a node, with an end.
fn call_of(alloc: Global, call: u32, node: u8, end: End) -> Result<Order, NoMemory>
    ensures { IfOk result (λ made. made ≡ call_order call node end) }
{
    let pipeline = pipeline(alloc, end)?;
    Ok(Order::One(Command::Call {
        by: SessionId::new(0),
        call: CallId::new(call),
        node: NodeId::new(node),
        request: Request {
            guarantee: Guarantee::Exact,
            rounds: 64,
            batch: 100,
            pipeline,
        },
    }))
}

/// The put of a number at the key x at node 0.
fn spare_of(number: i64) -> Result<Order, NoMemory>
    ensures { IfOk result (λ made. made ≡ spare_order number) }
{
    match Key::new(b"x") {
        Ok(key) => Ok(put_of(0, key, number)),
        Err(_) => Err(NoMemory),
    }
}

/// Puts the lines between the keys and the steps.
fn add_calls(alloc: Global, lines: &mut Items<StepLine>) -> Result<(), NoMemory>
    ensures { (before : List Order) → lines.old ≡ numbered 8 before → OnOk result (lines.new ≡ numbered 8 (before ++ calls_orders)) }
{
    let spare = spare_of(-1)?;
    add(lines, spare)?;
    let count = call_of(alloc, 1, 0, End::Count)?;
    add(lines, count)?;
    let each = call_of(alloc, 2, 1, End::Each)?;
    add(lines, each)?;
    add(
        lines,
        Order::One(Command::Round {
            call: CallId::new(1),
        }),
    )?;
    add(
        lines,
        Order::One(Command::Round {
            call: CallId::new(2),
        }),
    )?;
    add(
        lines,
        Order::One(Command::Join {
            node: NodeId::new(4),
        }),
    )
}

/// The step of a draw, which has so many steps before it.
fn step_of(quarter: u8, before: u32) -> Result<Order, NoMemory>
    ensures { IfOk result (λ made. made ≡ step_order quarter before) }
{
    if quarter == 0 {
        return spare_of(-i64::from(before) - 1);
    }
    if quarter == 1 {
        return Ok(Order::One(Command::Advance));
    }
    if quarter == 2 {
        return Ok(Order::One(Command::Drive {
            call: CallId::new(1),
        }));
    }
    Ok(Order::One(Command::Drive {
        call: CallId::new(2),
    }))
}

/// Puts so many steps, each by a draw.
fn add_steps(lines: &mut Items<StepLine>, start: u64, steps: u32) -> Result<(), NoMemory>
    ensures { (before : List Order) → lines.old ≡ numbered 8 before → OnOk result (lines.new ≡ numbered 8 (before ++ step_orders start steps)) }
{
    let mut state = start;
    for number in 0..steps {
        state = drawn(state);
        let order = step_of(quarter(state), number)?;
        add(lines, order)?;
    }
    Ok(())
}

/// Puts the last lines, by which both calls are finished.
fn add_end(lines: &mut Items<StepLine>) -> Result<(), NoMemory>
    ensures { (before : List Order) → lines.old ≡ numbered 8 before → OnOk result (lines.new ≡ numbered 8 (before ++ Order.Finish 1 ∷ Order.Finish 2 ∷ [])) }
{
    add(lines, Order::Finish(CallId::new(1)))?;
    add(lines, Order::Finish(CallId::new(2)))
}
