//! Reading scripts.

ghost use Rattle.std.specs.Prelude.{◌≡◌, ℕ, ◌+◌, ◌<◌, ◌≤◌, ◌^◌, true, length, IfOk};
ghost use Rattle.grid_base.specs.declared.limits.TheConstants.{LAST_CLOCK, LONGEST_SCRIPT};
ghost use Rattle.grid_event.specs.Configs.{is_config};
ghost use Rattle.grid_script.specs.Judging.{Answers, Says};
ghost use Rattle.text_lines.specs.Lines.{Line, lines_of};
ghost use Rattle.grid_script.specs.LiveLines.{IsNotedDeed, IsSoFar, MayTell, all_sessions, section_with, with_members, with_told};
ghost use Rattle.grid_script.specs.LiveRules.{calls_with, members_with, node_of};
ghost use Rattle.grid_script.specs.Reading.{after_all, body_of, live_after, live_start, script_of, step_after, step_start};
ghost use Rattle.grid_script.specs.StepLines.{IsNoted, noted, with_order};

use crate::call_set::CallSet;
use crate::deed::Deed;
use crate::known::Known;
use crate::line_fault::LineFault;
use crate::lines::{needs_whole, on_line, says_nothing};
use crate::live_known::LiveKnown;
use crate::live_lines::read_told;
use crate::live_script::LiveScript;
use crate::live_told::LiveTold;
use crate::load::Load;
use crate::member::Member;
use crate::members::Members;
use crate::order::Order;
use crate::reason::Reason;
use crate::script::Script;
use crate::script_fault::ScriptFault;
use crate::script_kind::ScriptKind;
use crate::section::Section;
use crate::session::Session;
use crate::settings::read_head;
use crate::step_line::StepLine;
use crate::step_lines::read_order;
use crate::step_script::StepScript;
use grid_base::limits::LONGEST_SCRIPT;
use grid_base::{Entry, NoMemory};
use grid_event::{Command, Config};
use sqlite_items::Items;
use std::alloc::Global;
use text_lines::first_line;

/// Reads the script of this kind for which the bytes stand. They stand for at most one. Where they
/// stand for none, the refusal names the first line at fault, counted from 1, with the first reason
/// that applies to it; a missing setting is a fault of syntax at the line after the last one, and
/// more than 4,194,304 bytes are `TooLong` at line 0. It fails otherwise only where memory runs out.
#[tactic(auto, unfolding(crate::specs::Reading::script_of, crate::specs::Reading::body_of))]
pub fn read_script(alloc: Global, bytes: &[u8], kind: ScriptKind) -> Result<Script, ScriptFault>
    ensures { Answers result (script_of kind bytes.now) }
{
    if bytes.len() > LONGEST_SCRIPT {
        return Err(ScriptFault::Refused {
            line: 0,
            reason: Reason::TooLong,
        });
    }
    let head = read_head(kind, bytes)?;
    match kind {
        ScriptKind::Step => read_step_script(alloc, head.config, head.number, head.rest),
        ScriptKind::Live => read_live_script(alloc, head.config, head.number, head.rest),
    }
}

/// Notes what an order changes.
#[tactic(auto, unfolding(crate::specs::StepLines::noted))]
fn note_order(known: &mut Known, order: &Order)
    requires { IsNoted known.old.ticks order.now }
    ensures { known.new ≡ noted known.old order.now }
{
    match order {
        Order::One(Command::Join { node }) => known.members.note_join(*node),
        Order::One(Command::Depart { node }) => known.members.note_depart(*node),
        Order::One(Command::Call { call, .. }) => known.calls.add(*call),
        Order::One(Command::Tick { ticks }) => known.ticks += *ticks,
        _ => {}
    }
}

/// What is known behind the line of this number with this order.
#[tactic(auto, unfolding(crate::specs::StepLines::with_order, crate::specs::StepLines::noted))]
fn with_order(known: Known, number: u32, order: Order) -> Result<Known, NoMemory>
    requires noted { IsNoted known.ticks order }
    ensures made { IfOk result (λ made. made ≡ with_order known number order) }
{
    let mut known = known;
    note_order(&mut known, &order);
    known.lines.push(StepLine {
        line: number,
        order,
    })?;
    Ok(known)
}

/// What is known behind a line of a stepped run.
#[tactic(auto, unfolding(crate::specs::Reading::step_after, crate::specs::StepLines::with_order))]
fn step_after(
    alloc: Global,
    known: Known,
    number: u32,
    line: &[u8],
    ended: bool,
) -> Result<Known, LineFault>
    requires settings { is_config known.config ≡ true }
    requires ticks { known.ticks ≤ LAST_CLOCK }
    ensures judged { Says result (step_after known number (record { bytes = line.now; ended = ended })) }
    ensures settings { IfOk result (λ next. is_config next.config ≡ true) }
    ensures ticks { IfOk result (λ next. next.ticks ≤ LAST_CLOCK) }
{
    needs_whole(line, ended)?;
    if says_nothing(line) {
        return Ok(known);
    }
    let order = read_order(alloc, &known, line)?;
    let known = with_order(known, number, order)?;
    Ok(known)
}

/// What is known of a stepped run before its first line.
fn step_start(alloc: Global, config: Config) -> Result<Known, NoMemory>
    requires { is_config config ≡ true }
    ensures { IfOk result (λ known. known ≡ step_start config) }
{
    let calls = CallSet::new(alloc)?;
    Ok(Known {
        config,
        members: Members::first(config.nodes),
        calls,
        ticks: 0,
        lines: Items::new(alloc),
    })
}

/// What is known behind some lines of a stepped run.
fn steps_after(alloc: Global, known: Known, number: u32, text: &[u8]) -> Result<Known, ScriptFault>
    requires settings { is_config known.config ≡ true }
    requires ticks { known.ticks ≤ LAST_CLOCK }
    requires lines { number + length text.now < 2 ^ 32 }
    ensures told { Answers result (after_all step_after known number (lines_of text.now)) }
    ensures settings { IfOk result (λ next. is_config next.config ≡ true) }
{
    let mut known = known;
    let mut number = number;
    let mut rest = text;
    'lines: while !rest.is_empty() {
        let cut = first_line(rest);
        match step_after(alloc, known, number, cut.line, cut.ended) {
            Ok(next) => known = next,
            Err(fault) => return Err(on_line(number, fault)),
        }
        number += 1;
        rest = cut.rest;
    }
    Ok(known)
}

/// Reads the script of a stepped run behind its head.
#[tactic(auto, unfolding(crate::specs::Reading::body_of))]
fn read_step_script(
    alloc: Global,
    config: Config,
    number: u32,
    text: &[u8],
) -> Result<Script, ScriptFault>
    requires settings { is_config config ≡ true }
    requires lines { number + length text.now < 2 ^ 32 }
    ensures { Answers result (body_of ScriptKind.Step (record { it = config; next = number; lines = lines_of text.now })) }
{
    let start = step_start(alloc, config)?;
    let known = steps_after(alloc, start, number, text)?;
    Ok(Script::Step(StepScript {
        config: known.config,
        lines: known.lines,
    }))
}

/// Notes the change of the membership.
#[tactic(auto, unfolding(crate::specs::LiveLines::with_members))]
fn note_change(known: &mut LiveKnown, member: &Member)
    requires { node_of member.now ≤ 15 }
    ensures { known.new ≡ with_members known.old (members_with known.old.members member.now) }
{
    match member {
        Member::Join(node) => known.members.note_join(*node),
        Member::Depart(node) => known.members.note_depart(*node),
    }
}

/// Notes the call that a deed makes, if it makes one.
fn note_call(calls: &mut CallSet, deed: &Deed)
    requires { IsNotedDeed deed.now }
    ensures { calls.new ≡ calls_with calls.old deed.now }
{
    if let Deed::Call(call, _) = deed {
        calls.add(*call);
    }
}

/// The section with one more deed.
fn section_with(section: Section, deed: Deed) -> Result<Section, NoMemory>
    ensures { IfOk result (λ made. made ≡ section_with section deed) }
{
    match section {
        Section::Session(
            Session {
                number,
                home,
                orders,
            },
        ) => {
            let mut orders = orders;
            orders.push(deed)?;
            Ok(Section::Session(Session {
                number,
                home,
                orders,
            }))
        }
        other => Ok(other),
    }
}

/// The sessions with that which was read last, if there is one.
fn all_sessions(complete: Items<Session>, section: Section) -> Result<Items<Session>, NoMemory>
    ensures { IfOk result (λ made. made ≡ all_sessions complete section) }
{
    match section {
        Section::Session(session) => {
            let mut sessions = complete;
            sessions.push(session)?;
            Ok(sessions)
        }
        _ => Ok(complete),
    }
}

/// What is known behind a line that begins a section.
#[tactic(auto, unfolding(crate::specs::LiveLines::with_told))]
fn with_section(known: LiveKnown, section: Section) -> Result<LiveKnown, NoMemory>
    ensures { IfOk result (λ made. made ≡ with_told known (LiveTold.Opens section)) }
{
    let LiveKnown {
        config,
        members,
        calls,
        section: before,
        load,
        changes,
        sessions,
    } = known;
    let sessions = all_sessions(sessions, before)?;
    Ok(LiveKnown {
        config,
        members,
        calls,
        section,
        load,
        changes,
        sessions,
    })
}

/// What is known behind a line that changes the membership.
#[tactic(auto, unfolding(crate::specs::LiveLines::with_told, crate::specs::LiveLines::with_members))]
fn with_change(known: LiveKnown, member: Member) -> Result<LiveKnown, NoMemory>
    requires { node_of member ≤ 15 }
    ensures { IfOk result (λ made. made ≡ with_told known (LiveTold.Changes member)) }
{
    let mut known = known;
    note_change(&mut known, &member);
    known.changes.push(member)?;
    Ok(known)
}

/// What is known behind a line that loads an entry.
#[tactic(auto, unfolding(crate::specs::LiveLines::with_told))]
fn with_entry(known: LiveKnown, entry: Entry) -> Result<LiveKnown, NoMemory>
    ensures { IfOk result (λ made. made ≡ with_told known (LiveTold.Loads entry)) }
{
    let mut known = known;
    known.load.push(entry)?;
    Ok(known)
}

/// What is known behind a line that says a deed of the session.
#[tactic(auto, unfolding(crate::specs::LiveLines::with_told))]
fn with_deed(known: LiveKnown, deed: Deed) -> Result<LiveKnown, NoMemory>
    requires { IsNotedDeed deed }
    ensures { IfOk result (λ made. made ≡ with_told known (LiveTold.Does deed)) }
{
    let LiveKnown {
        config,
        members,
        calls,
        section,
        load,
        changes,
        sessions,
    } = known;
    let mut calls = calls;
    note_call(&mut calls, &deed);
    let section = section_with(section, deed)?;
    Ok(LiveKnown {
        config,
        members,
        calls,
        section,
        load,
        changes,
        sessions,
    })
}

/// What is known behind a line that tells this.
fn with_told(known: LiveKnown, told: LiveTold) -> Result<LiveKnown, NoMemory>
    requires { MayTell known told }
    ensures { IfOk result (λ made. made ≡ with_told known told) }
{
    match told {
        LiveTold::Opens(section) => with_section(known, section),
        LiveTold::Changes(member) => with_change(known, member),
        LiveTold::Loads(entry) => with_entry(known, entry),
        LiveTold::Does(deed) => with_deed(known, deed),
    }
}

/// What is known behind a line of a live run.
#[tactic(auto, unfolding(crate::specs::Reading::live_after))]
fn live_after(
    alloc: Global,
    known: LiveKnown,
    line: &[u8],
    ended: bool,
) -> Result<LiveKnown, LineFault>
    requires rules { IsSoFar known }
    ensures judged { (number : ℕ) → Says result (live_after known number (record { bytes = line.now; ended = ended })) }
    ensures rules { IfOk result IsSoFar }
{
    needs_whole(line, ended)?;
    if says_nothing(line) {
        return Ok(known);
    }
    let told = read_told(alloc, &known, line)?;
    let known = with_told(known, told)?;
    Ok(known)
}

/// What is known of a live run before its first line.
fn live_start(alloc: Global, config: Config) -> Result<LiveKnown, NoMemory>
    requires { is_config config ≡ true }
    ensures { IfOk result (λ known. known ≡ live_start config) }
{
    let calls = CallSet::new(alloc)?;
    Ok(LiveKnown {
        config,
        members: Members::first(config.nodes),
        calls,
        section: Section::Start,
        load: Load::new(alloc),
        changes: Items::new(alloc),
        sessions: Items::new(alloc),
    })
}

/// What is known behind some lines of a live run.
fn lives_after(
    alloc: Global,
    known: LiveKnown,
    number: u32,
    text: &[u8],
) -> Result<LiveKnown, ScriptFault>
    requires rules { IsSoFar known }
    requires lines { number + length text.now < 2 ^ 32 }
    ensures told { Answers result (after_all live_after known number (lines_of text.now)) }
    ensures rules { IfOk result IsSoFar }
{
    let mut known = known;
    let mut number = number;
    let mut rest = text;
    'lines: while !rest.is_empty() {
        let cut = first_line(rest);
        match live_after(alloc, known, cut.line, cut.ended) {
            Ok(next) => known = next,
            Err(fault) => return Err(on_line(number, fault)),
        }
        number += 1;
        rest = cut.rest;
    }
    Ok(known)
}

/// Reads the script of a live run behind its head.
#[tactic(auto, unfolding(crate::specs::Reading::body_of))]
fn read_live_script(
    alloc: Global,
    config: Config,
    number: u32,
    text: &[u8],
) -> Result<Script, ScriptFault>
    requires settings { is_config config ≡ true }
    requires lines { number + length text.now < 2 ^ 32 }
    ensures { Answers result (body_of ScriptKind.Live (record { it = config; next = number; lines = lines_of text.now })) }
{
    let start = live_start(alloc, config)?;
    let known = lives_after(alloc, start, number, text)?;
    let sessions = all_sessions(known.sessions, known.section)?;
    Ok(Script::Live(LiveScript {
        config: known.config,
        load: known.load.entries,
        changes: known.changes,
        sessions,
    }))
}
