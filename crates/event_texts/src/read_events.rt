//! Events read of their texts.

ghost use Rattle.std.specs.Prelude.{◌≡◌, true, IfOk};
ghost use Rattle.grid_event.specs.declared.event.Event as event;
ghost use Rattle.pipeline_parse.specs.Reading.{word_at};
ghost use Rattle.event_texts.specs.Answers.{Gives, GivesOnly, GivesWhole};
ghost use Rattle.event_texts.specs.Events.{event_text};
ghost use Rattle.event_texts.specs.Fits.{event_fits};
ghost use Rattle.event_texts.specs.Kinds.{kind_word, kinds};
ghost use Rattle.event_texts.specs.Reading.{event_of, fields_in, found};

use crate::event_fault::EventFault;
use crate::kind::Kind;
use crate::read_fields::{
    read_announce, read_answer_event, read_begin, read_copy, read_depart, read_done, read_erase,
    read_fetch, read_install, read_invoke, read_join, read_land, read_round, read_scan, read_take,
    read_tick, read_write,
};
use grid_event::Event;
use pipeline_parse::reading::read_word;
use std::alloc::Global;

/// The one event whose text this is. It is `BadEvent` exactly where the text is that of no event
/// whose pipeline, where it has one, has a text of at most 1,024 bytes; otherwise it fails only
/// where memory runs out.
pub fn read_event(alloc: Global, text: &[u8]) -> Result<Event, EventFault>
    ensures found { IfOk result (λ e. (event_text e ≡ text.now) × (event_fits e ≡ true)) }
    ensures only { (e : event.Event) → event_fits e ≡ true → event_text e ≡ text.now → GivesOnly e result }
{
    read_whole(alloc, text)
}

/// Reads a whole text.
fn read_whole(alloc: Global, text: &[u8]) -> Result<Event, EventFault>
    ensures { GivesWhole result (event_of text.now) }
{
    let (kind, rest) = read_kind(text)?;
    let (event, rest) = read_fields(alloc, kind, rest)?;
    if !rest.is_empty() {
        return Err(EventFault::BadEvent);
    }
    Ok(event)
}

/// Reads the word of a kind.
fn read_kind(text: &[u8]) -> Result<(Kind, &[u8]), EventFault>
    ensures { Gives result (found (word_at kind_word kinds text.now)) }
{
    let choices = [
        Kind::Write,
        Kind::Erase,
        Kind::Tick,
        Kind::Join,
        Kind::Depart,
        Kind::Announce,
        Kind::Install,
        Kind::Copy,
        Kind::Land,
        Kind::Invoke,
        Kind::Round,
        Kind::Begin,
        Kind::Scan,
        Kind::Fetch,
        Kind::Take,
        Kind::Done,
        Kind::Answer,
    ];
    let (kind, rest) = read_word(&choices, text)?;
    Ok((kind, rest))
}

/// Reads the fields of an event of a kind.
#[tactic(auto, unfolding(crate::specs::Reading::fields_in))]
fn read_fields<'a>(
    alloc: Global,
    kind: Kind,
    text: &'a [u8],
) -> Result<(Event, &'a [u8]), EventFault>
    ensures { Gives result (fields_in kind text.now) }
{
    match kind {
        Kind::Write => read_write(alloc, text),
        Kind::Erase => read_erase(alloc, text),
        Kind::Tick => read_tick(text),
        Kind::Join => read_join(text),
        Kind::Depart => read_depart(text),
        Kind::Announce => read_announce(alloc, text),
        Kind::Install => read_install(text),
        Kind::Copy => read_copy(alloc, text),
        Kind::Land => read_land(text),
        Kind::Invoke => read_invoke(alloc, text),
        Kind::Round => read_round(alloc, text),
        Kind::Begin => read_begin(text),
        Kind::Scan => read_scan(alloc, text),
        Kind::Fetch => read_fetch(alloc, text),
        Kind::Take => read_take(alloc, text),
        Kind::Done => read_done(text),
        Kind::Answer => read_answer_event(alloc, text),
    }
}
