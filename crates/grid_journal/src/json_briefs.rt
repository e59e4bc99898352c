//! The brief of a journal as JSON.

ghost use Rattle.std.specs.Prelude.{◌≡◌, ◌++◌, true, map, reverse, IfOk, IsSome, OnOk};
ghost use Rattle.std.specs.FinMap as finite;
ghost use Rattle.std.specs.Option.{unwrap_or};
ghost use Rattle.serde_json.specs.Data.{string};
ghost use Rattle.serde_json.specs.View.{view};
ghost use Rattle.grid_event.specs.Configs.{is_config};
ghost use Rattle.grid_journal.specs.Briefs.{brief_json_text, call_data, calls_data, data_of, json_text, nodes_data, result_text, standing_text, told_data};
ghost use Rattle.grid_journal.specs.Reports.{line};
ghost use Rattle.grid_journal.specs.Standing.{standing_members, standing_topology};

use crate::briefs::add_result;
use crate::standing::Standing;
use grid_base::{Bytes, NoMemory};
use grid_event::{Config, Journal, Outcome};
use serde_json::{Value, json};
use std::alloc::{AllocError, Global};
use std::str;

/// The brief of a journal that was started as one compact JSON object, and a line feed: the calls
/// that were answered with their outcomes, the number of keys, the live nodes, and the newest
/// topology. The only failure is that memory runs out.
pub fn brief_json(alloc: Global, journal: &Journal) -> Result<Bytes, NoMemory>
    requires { IsSome journal.now.history.config }
    ensures { IfOk result (λ out. out.list ≡ brief_json_text journal.now.history) }
{
    let mut out = Bytes::new(alloc);
    if let Some(config) = journal.config() {
        add_json(alloc, &mut out, config, journal)?;
    }
    Ok(out)
}

/// Adds the brief of a journal with these settings as JSON, as a line.
fn add_json(
    alloc: Global,
    out: &mut Bytes,
    config: &Config,
    journal: &Journal,
) -> Result<(), NoMemory>
    requires { is_config config.now ≡ true }
    ensures { OnOk result (out.new.list ≡ out.old.list ++ line (json_text (data_of config.now (reverse journal.now.history.events)))) }
{
    let standing = Standing::after(alloc, config, journal)?;
    let told = told(alloc, &standing)?;
    let text = told.to_string(alloc)?;
    out.extend(text.as_bytes())?;
    out.push(b'\n')?;
    Ok(())
}

/// What stands at the end of a journal as JSON.
fn told(alloc: Global, standing: &Standing) -> Result<Value, NoMemory>
    ensures { IfOk result (λ v. view v ≡ told_data (calls_data (λ call. unwrap_or (finite.get standing.now.given call) 0) (finite.entries standing.now.outcomes)) (finite.len standing.now.keys) (nodes_data (standing_members standing.now.membership)) (string (standing_text (standing_topology standing.now.membership)))) }
{
    let calls = calls(alloc, standing)?;
    let keys = standing.keys.len() as u64;
    let live = standing.membership.live(alloc)?;
    let nodes = nodes(alloc, live.as_slice())?;
    let topology = topology(alloc, standing)?;
    let told = whole(alloc, calls, keys, nodes, topology)?;
    Ok(told)
}

/// The parts of a brief as one object.
fn whole(
    alloc: Global,
    calls: Value,
    keys: u64,
    nodes: Value,
    topology: Value,
) -> Result<Value, AllocError>
    ensures { IfOk result (λ v. view v ≡ told_data (view calls) keys (view nodes) (view topology)) }
{
    json!(in alloc; {"calls": calls, "keys": keys, "nodes": nodes, "topology": topology})
}

/// The calls that were answered, as JSON.
fn calls(alloc: Global, standing: &Standing) -> Result<Value, NoMemory>
    ensures { IfOk result (λ v. view v ≡ calls_data (λ call. unwrap_or (finite.get standing.now.given call) 0) (finite.entries standing.now.outcomes)) }
{
    let mut calls = Vec::new(alloc);
    let mut left = standing.outcomes.all();
    while let Some((call, outcome)) = left.next() {
        calls.push(call_value(alloc, *call, outcome, standing.given(*call))?)?;
    }
    Ok(Value::Array(calls))
}

/// A call as JSON: its number, and how it ended.
fn call_value(alloc: Global, call: u32, outcome: &Outcome, given: u64) -> Result<Value, NoMemory>
    ensures { IfOk result (λ v. view v ≡ call_data call (result_text outcome.now given)) }
{
    let mut text = Bytes::new(alloc);
    add_result(&mut text, outcome, given)?;
    let outcome = string(alloc, &text)?;
    let value = json!(in alloc; {"call": call, "outcome": outcome})?;
    Ok(value)
}

/// Nodes, as JSON.
fn nodes(alloc: Global, nodes: &[u8]) -> Result<Value, NoMemory>
    ensures { IfOk result (λ v. view v ≡ nodes_data nodes.now) }
{
    let mut values = Vec::new(alloc);
    for node in nodes {
        values.push(Value::from(*node))?;
    }
    Ok(Value::Array(values))
}

/// The newest topology, as JSON.
fn topology(alloc: Global, standing: &Standing) -> Result<Value, NoMemory>
    ensures { IfOk result (λ v. view v ≡ string (standing_text (standing_topology standing.now.membership))) }
{
    let mut text = Bytes::new(alloc);
    standing.membership.add_topology(&mut text)?;
    string(alloc, &text)
}

/// A text as JSON.
fn string(alloc: Global, text: &Bytes) -> Result<Value, NoMemory>
    ensures { IfOk result (λ v. view v ≡ string text.now.list) }
{
    let Ok(text) = str::from_utf8(text.as_slice()) else {
        // Texts of journals are ASCII.
        return Err(NoMemory);
    };
    let value = Value::try_from_str(alloc, text)?;
    Ok(value)
}
