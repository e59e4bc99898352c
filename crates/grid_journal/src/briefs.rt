//! The brief of a journal.

ghost use Rattle.std.specs.Prelude.{◌≡◌, ◌++◌, true, IfOk, IsSome, OnOk, decimal, map, reverse};
ghost use Rattle.std.specs.FinMap as finite;
ghost use Rattle.std.specs.Option.{unwrap_or};
ghost use Rattle.grid_event.specs.Configs.{is_config};
ghost use Rattle.grid_journal.specs.Briefs.{brief_of, brief_text, call_text, calls_text, ends_text, result_text};
ghost use Rattle.grid_journal.specs.Reports.{line};
ghost use Rattle.grid_journal.specs.Standing.{standing_members, standing_topology};
ghost use Rattle.event_texts.specs.Topologies.{owners_text};
ghost use Rattle.event_texts.specs.Words.{each_behind};

use crate::rebalances::add_rebalances;
use crate::reports::add_config;
use crate::standing::Standing;
use event_texts::{add_number, add_number_word, add_outcome};
use grid_base::{Bytes, NoMemory};
use grid_event::{Config, Journal, Outcome};
use std::alloc::Global;

/// The brief of a journal that was started: its settings, the calls that were answered with their
/// outcomes, and what stands at its end: the live nodes, the newest topology, and the number of
/// keys. Each line ends with a line feed. The only failure is that memory runs out.
pub fn brief(alloc: Global, journal: &Journal) -> Result<Bytes, NoMemory>
    requires { IsSome journal.now.history.config }
    ensures { IfOk result (λ out. out.list ≡ brief_text journal.now.history) }
{
    let mut out = Bytes::new(alloc);
    if let Some(config) = journal.config() {
        add_brief(alloc, &mut out, config, journal)?;
    }
    Ok(out)
}

/// Adds the brief of a journal with these settings.
fn add_brief(
    alloc: Global,
    out: &mut Bytes,
    config: &Config,
    journal: &Journal,
) -> Result<(), NoMemory>
    requires { is_config config.now ≡ true }
    ensures { OnOk result (out.new.list ≡ out.old.list ++ brief_of config.now (reverse journal.now.history.events)) }
{
    let standing = Standing::after(alloc, config, journal)?;
    add_config(out, config)?;
    out.push(b'\n')?;
    add_calls(out, &standing)?;
    add_rebalances(alloc, out, config, journal)?;
    add_ends(alloc, out, &standing)?;
    Ok(())
}

/// Adds the calls that were answered, a line each.
fn add_calls(out: &mut Bytes, standing: &Standing) -> Result<(), NoMemory>
    ensures { OnOk result (out.new.list ≡ out.old.list ++ calls_text (λ call. unwrap_or (finite.get standing.now.given call) 0) (finite.entries standing.now.outcomes)) }
{
    let mut left = standing.outcomes.all();
    while let Some((call, outcome)) = left.next() {
        add_call(out, *call, outcome, standing.given(*call))?;
    }
    Ok(())
}

/// Adds a call, as a line.
fn add_call(out: &mut Bytes, call: u32, outcome: &Outcome, given: u64) -> Result<(), NoMemory>
    ensures { OnOk result (out.new.list ≡ out.old.list ++ line (call_text call (result_text outcome.now given))) }
{
    out.extend(b"call")?;
    add_number_word(out, u64::from(call))?;
    out.push(b' ')?;
    add_result(out, outcome, given)?;
    out.push(b'\n')
}

/// Adds how a call ended, and behind the end of a walk how many items its user was given.
#[tactic(auto, unfolding(crate::specs::Briefs::result_text))]
pub(crate) fn add_result(out: &mut Bytes, outcome: &Outcome, given: u64) -> Result<(), NoMemory>
    ensures { OnOk result (out.new.list ≡ out.old.list ++ result_text outcome.now given) }
{
    add_outcome(out, outcome)?;
    match outcome {
        Outcome::Ended => add_number_word(out, given),
        _ => Ok(()),
    }
}

/// Adds what stands at the end.
fn add_ends(alloc: Global, out: &mut Bytes, standing: &Standing) -> Result<(), NoMemory>
    ensures { OnOk result (out.new.list ≡ out.old.list ++ ends_text (standing_members standing.now.membership) (standing_topology standing.now.membership) (finite.len standing.now.keys)) }
{
    let nodes = standing.membership.live(alloc)?;
    out.extend(b"nodes ")?;
    add_nodes(out, nodes.as_slice())?;
    out.extend(b"\ntopology ")?;
    standing.membership.add_topology(out)?;
    out.extend(b"\nkeys")?;
    add_number_word(out, standing.keys.len() as u64)?;
    out.extend(b"\nend\n")
}

/// Adds nodes, with a comma between each two.
fn add_nodes(out: &mut Bytes, nodes: &[u8]) -> Result<(), NoMemory>
    ensures { OnOk result (out.new.list ≡ out.old.list ++ owners_text nodes.now) }
{
    let Some((first, others)) = nodes.split_first() else {
        return Ok(());
    };
    add_number(out, u64::from(*first))?;
    add_other_nodes(out, others)?;
    Ok(())
}

/// Adds nodes, each behind a comma.
fn add_other_nodes(out: &mut Bytes, nodes: &[u8]) -> Result<(), NoMemory>
    ensures { OnOk result (out.new.list ≡ out.old.list ++ each_behind 44 (map decimal nodes.now)) }
{
    for node in nodes {
        out.push(b',')?;
        add_number(out, u64::from(*node))?;
    }
    Ok(())
}
