//! Reading the lines of a script of a live run.

ghost use Rattle.std.specs.Prelude.{◌≡◌, ◌≤◌, ◌<◌, ◌+◌, ◌==◌, ◌&&◌, nat_le, true, length, IfOk};
ghost use Rattle.grid_event.specs.Configs.{is_config};
ghost use Rattle.grid_script.specs.declared.live_known.LiveKnown.{LiveKnown};
ghost use Rattle.grid_script.specs.Judging.{Says};
ghost use Rattle.grid_script.specs.LiveRules.{IsEntryOf};
ghost use Rattle.grid_script.specs.LiveLines.{MayTell, all_sessions, changes_in, entry_in, home_within, is_changes, is_session, is_start, live_call_in, live_erase_in, live_fields_in, live_put_in, load_in, may_change, may_put, member_depart_in, member_join_in, put_told, session_in, session_within, sessions_begun, told_in};

use crate::deed::Deed;
use crate::line_fault::LineFault;
use crate::live_known::LiveKnown;
use crate::live_told::LiveTold;
use crate::member::Member;
use crate::readers::{
    read_end, read_key_field, read_last_key, read_last_number, read_number_field,
};
use crate::reason::Reason;
use crate::rules::{
    call_within, needs, needs_kind, needs_new, needs_segment, needs_typed, node_within,
    request_within,
};
use crate::section::Section;
use crate::session::Session;
use crate::step_lines::read_asked;
use crate::words::{LiveWord, read_live_word};
use grid_base::{Entry, NodeId, SessionId};
use pipeline_parse::reading::read_datum;
use sqlite_items::Items;
use std::alloc::Global;

/// The most sessions of a script.
const MOST_SESSIONS: u32 = 16;

/// Whether no section was begun yet.
fn is_start(section: &Section) -> bool
    ensures { result ≡ is_start section.now }
{
    matches!(section, Section::Start)
}

/// Whether it is the section of the changes.
fn is_changes(section: &Section) -> bool
    ensures { result ≡ is_changes section.now }
{
    matches!(section, Section::Changes)
}

/// Whether it is a session.
fn is_session(section: &Section) -> bool
    ensures { result ≡ is_session section.now }
{
    matches!(section, Section::Session(_))
}

/// Whether the changes may stand behind this section.
fn may_change(section: &Section) -> bool
    ensures { result ≡ may_change section.now }
{
    match section {
        Section::Start => true,
        Section::Load => true,
        _ => false,
    }
}

/// Whether entries are put in the section.
fn may_put(section: &Section) -> bool
    ensures { result ≡ may_put section.now }
{
    match section {
        Section::Load => true,
        Section::Session(_) => true,
        _ => false,
    }
}

/// `load`.
#[tactic(auto, unfolding(crate::specs::LiveLines::load_in))]
fn read_load(known: &LiveKnown, text: &[u8]) -> Result<LiveTold, LineFault>
    ensures judged { Says result (load_in known.now text.now) }
    ensures kept { IfOk result (MayTell known.now) }
{
    read_end(text)?;
    needs(is_start(&known.section), Reason::Syntax)?;
    Ok(LiveTold::Opens(Section::Load))
}

/// `changes`.
#[tactic(auto, unfolding(crate::specs::LiveLines::changes_in))]
fn read_changes(known: &LiveKnown, text: &[u8]) -> Result<LiveTold, LineFault>
    ensures judged { Says result (changes_in known.now text.now) }
    ensures kept { IfOk result (MayTell known.now) }
{
    read_end(text)?;
    needs(may_change(&known.section), Reason::Syntax)?;
    Ok(LiveTold::Opens(Section::Changes))
}

/// Whether a number is that of the next session, of which there are at most 16.
fn is_next_session(known: &LiveKnown, number: u32) -> bool
    ensures { result ≡ ((number == sessions_begun known.now.sessions known.now.section + 1) && nat_le number 16) }
{
    if number > MOST_SESSIONS {
        return false;
    }
    let complete = known.sessions.len();
    if complete > MOST_SESSIONS as usize {
        return false;
    }
    match known.section {
        Section::Session(_) => number as usize == complete + 2,
        _ => number as usize == complete + 1,
    }
}

/// The session of the next number.
#[tactic(auto, using(crate::proofs::Sessions::is_next, crate::proofs::Sessions::is_one_of_few))]
fn session_within(known: &LiveKnown, number: u32) -> Result<SessionId, LineFault>
    ensures judged { Says result (session_within (sessions_begun known.now.sessions known.now.section) number) }
    ensures next { IfOk result (λ n. n ≡ sessions_begun known.now.sessions known.now.section + 1) }
    ensures few { IfOk result (λ n. n ≤ 16) }
{
    if is_next_session(known, number) {
        Ok(SessionId::new(number as u16))
    } else {
        Err(LineFault::Refused(Reason::OverLimit))
    }
}

/// The home of a session, which is one of the first nodes.
#[tactic(auto, unfolding(crate::specs::LiveLines::home_within))]
fn home_within(nodes: u8, number: u32) -> Result<NodeId, LineFault>
    ensures judged { Says result (home_within nodes number) }
    ensures first { IfOk result (λ home. home < nodes) }
{
    let home = node_within(number)?;
    if home.number() < nodes {
        Ok(home)
    } else {
        Err(LineFault::Refused(Reason::NodeUnknown))
    }
}

/// `session NUMBER NODE`.
#[tactic(auto, unfolding(crate::specs::LiveLines::session_in))]
fn read_session(alloc: Global, known: &LiveKnown, text: &[u8]) -> Result<LiveTold, LineFault>
    ensures judged { Says result (session_in known.now text.now) }
    ensures kept { IfOk result (MayTell known.now) }
{
    let (first, rest) = read_number_field(text)?;
    let second = read_last_number(rest)?;
    let number = session_within(known, first)?;
    let home = home_within(known.config.nodes, second)?;
    Ok(LiveTold::Opens(Section::Session(Session {
        number,
        home,
        orders: Items::new(alloc),
    })))
}

/// `join NODE`.
#[tactic(auto, unfolding(crate::specs::LiveLines::member_join_in))]
fn read_member_join(known: &LiveKnown, text: &[u8]) -> Result<LiveTold, LineFault>
    ensures judged { Says result (member_join_in known.now text.now) }
    ensures kept { IfOk result (MayTell known.now) }
{
    needs(is_changes(&known.section), Reason::Syntax)?;
    let number = read_last_number(text)?;
    let node = node_within(number)?;
    known.members.may_join(node)?;
    Ok(LiveTold::Changes(Member::Join(node)))
}

/// `depart NODE`.
#[tactic(auto, unfolding(crate::specs::LiveLines::member_depart_in))]
fn read_member_depart(known: &LiveKnown, text: &[u8]) -> Result<LiveTold, LineFault>
    ensures judged { Says result (member_depart_in known.now text.now) }
    ensures kept { IfOk result (MayTell known.now) }
{
    needs(is_changes(&known.section), Reason::Syntax)?;
    let number = read_last_number(text)?;
    let node = node_within(number)?;
    known.members.may_depart(node)?;
    Ok(LiveTold::Changes(Member::Depart(node)))
}

/// Reads the entry of a put.
#[tactic(auto, unfolding(crate::specs::LiveLines::entry_in))]
fn read_entry(alloc: Global, text: &[u8]) -> Result<Entry, LineFault>
    ensures { Says result (entry_in text.now) }
{
    match read_key_field(text) {
        Ok((key, rest)) => {
            let (value, rest) = read_datum(alloc, rest)?;
            read_end(rest)?;
            Ok(Entry { key, value })
        }
        Err(unread) => Err(LineFault::from(unread)),
    }
}

/// What a put tells: an entry of the load, or a deed of the session.
fn put_told(section: &Section, entry: Entry) -> LiveTold
    requires { may_put section.now ≡ true }
    ensures told { result ≡ put_told section.now entry }
    ensures kept { (known : LiveKnown) → known.section ≡ section.now → IsEntryOf known.config entry → MayTell known result }
{
    match section {
        Section::Load => LiveTold::Loads(entry),
        _ => LiveTold::Does(Deed::Put(entry)),
    }
}

/// `put KEY DATUM`.
#[tactic(auto, unfolding(crate::specs::LiveLines::live_put_in))]
fn read_live_put(alloc: Global, known: &LiveKnown, text: &[u8]) -> Result<LiveTold, LineFault>
    requires { is_config known.now.config ≡ true }
    ensures judged { Says result (live_put_in known.now text.now) }
    ensures kept { IfOk result (MayTell known.now) }
{
    needs(may_put(&known.section), Reason::Syntax)?;
    let entry = read_entry(alloc, text)?;
    needs_segment(&known.config, &entry.key)?;
    needs_kind(&known.config, &entry.value)?;
    Ok(put_told(&known.section, entry))
}

/// `erase KEY`.
#[tactic(auto, unfolding(crate::specs::LiveLines::live_erase_in))]
fn read_live_erase(known: &LiveKnown, text: &[u8]) -> Result<LiveTold, LineFault>
    requires { is_config known.now.config ≡ true }
    ensures judged { Says result (live_erase_in known.now text.now) }
    ensures kept { IfOk result (MayTell known.now) }
{
    needs(is_session(&known.section), Reason::Syntax)?;
    let key = read_last_key(text)?;
    needs_segment(&known.config, &key)?;
    Ok(LiveTold::Does(Deed::Erase(key)))
}

/// `call CALL GUARANTEE ROUNDS BATCH PIPELINE`.
#[tactic(auto, unfolding(crate::specs::LiveLines::live_call_in))]
fn read_live_call(alloc: Global, known: &LiveKnown, text: &[u8]) -> Result<LiveTold, LineFault>
    ensures judged { Says result (live_call_in known.now text.now) }
    ensures kept { IfOk result (MayTell known.now) }
{
    needs(is_session(&known.section), Reason::Syntax)?;
    let (number, rest) = read_number_field(text)?;
    let asked = read_asked(alloc, rest)?;
    let call = call_within(number)?;
    let request = request_within(asked)?;
    needs_new(&known.calls, call)?;
    needs_typed(&known.config, &request.pipeline)?;
    Ok(LiveTold::Does(Deed::Call(call, request)))
}

/// Reads what a line tells, behind its first word.
fn read_live_fields(
    alloc: Global,
    known: &LiveKnown,
    word: LiveWord,
    text: &[u8],
) -> Result<LiveTold, LineFault>
    requires { is_config known.now.config ≡ true }
    ensures judged { Says result (live_fields_in known.now word text.now) }
    ensures kept { IfOk result (MayTell known.now) }
{
    match word {
        LiveWord::Load => read_load(known, text),
        LiveWord::Changes => read_changes(known, text),
        LiveWord::Session => read_session(alloc, known, text),
        LiveWord::Join => read_member_join(known, text),
        LiveWord::Depart => read_member_depart(known, text),
        LiveWord::Put => read_live_put(alloc, known, text),
        LiveWord::Erase => read_live_erase(known, text),
        LiveWord::Call => read_live_call(alloc, known, text),
    }
}

/// Reads what a line tells.
#[tactic(auto, unfolding(crate::specs::LiveLines::told_in))]
pub(crate) fn read_told(
    alloc: Global,
    known: &LiveKnown,
    text: &[u8],
) -> Result<LiveTold, LineFault>
    requires { is_config known.now.config ≡ true }
    ensures judged { Says result (told_in known.now text.now) }
    ensures kept { IfOk result (MayTell known.now) }
{
    let (word, rest) = read_live_word(text)?;
    read_live_fields(alloc, known, word, rest)
}
