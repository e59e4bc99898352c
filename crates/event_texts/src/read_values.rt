//! Readers of numbers, values, entries and items from the front of a text.

ghost use Rattle.std.specs.Prelude.{◌≡◌, ◌≤◌, List, ℕ, IfOk, codes};
ghost use Rattle.event_texts.specs.Answers.{Gives, GivesList};
ghost use Rattle.event_texts.specs.Reading as spec;
ghost use Rattle.event_texts.specs.Reading.{Reading, behind, counted_in, key_in, number, number_in, until};

use crate::event_fault::EventFault;
use grid_base::{Datum, Entry, Item, Key, Sequence, Stamped, StampedEntry};
use pipeline_parse::reading::{read_datum, read_key, read_literal, read_number};
use std::alloc::Global;

/// Reads a number up to a limit behind a blank.
fn read_number_word(limit: u64, text: &[u8]) -> Result<(u64, &[u8]), EventFault>
    requires { 9 ≤ limit }
    ensures read { Gives result (number_in limit text.now) }
    ensures within { IfOk result (λ p. p.0 ≤ limit) }
{
    let rest = read_literal(" ", text)?;
    let (number, rest) = read_number(limit, rest)?;
    Ok((number, rest))
}

/// Reads a number of 8 bits behind a blank.
pub(crate) fn read_u8(text: &[u8]) -> Result<(u8, &[u8]), EventFault>
    ensures { Gives result (number_in 255 text.now) }
{
    let (number, rest) = read_number_word(255, text)?;
    Ok((number as u8, rest))
}

/// Reads a number of 16 bits behind a blank.
pub(crate) fn read_u16(text: &[u8]) -> Result<(u16, &[u8]), EventFault>
    ensures { Gives result (number_in 65535 text.now) }
{
    let (number, rest) = read_number_word(65_535, text)?;
    Ok((number as u16, rest))
}

/// Reads a number of 32 bits behind a blank.
pub(crate) fn read_u32(text: &[u8]) -> Result<(u32, &[u8]), EventFault>
    ensures { Gives result (number_in 4294967295 text.now) }
{
    let (number, rest) = read_number_word(4_294_967_295, text)?;
    Ok((number as u32, rest))
}

/// Reads a number of 64 bits behind a blank.
pub(crate) fn read_u64(text: &[u8]) -> Result<(u64, &[u8]), EventFault>
    ensures { Gives result (number_in 18446744073709551615 text.now) }
{
    read_number_word(u64::MAX, text)
}

/// Reads a key behind a blank.
pub(crate) fn read_key_word(text: &[u8]) -> Result<(Key, &[u8]), EventFault>
    ensures { Gives result (key_in text.now) }
{
    let rest = read_literal(" ", text)?;
    match read_key(rest) {
        Ok((key, rest)) => Ok((key, rest)),
        Err(_) => Err(EventFault::BadEvent),
    }
}

/// Reads a value behind a blank.
pub(crate) fn read_datum_word<'a>(
    alloc: Global,
    text: &'a [u8],
) -> Result<(Datum, &'a [u8]), EventFault>
    ensures { Gives result (behind (codes " ") spec.datum text.now) }
{
    let rest = read_literal(" ", text)?;
    let (datum, rest) = read_datum(alloc, rest)?;
    Ok((datum, rest))
}

/// Reads a deadline behind a tilde, where there is one.
pub(crate) fn read_until(text: &[u8]) -> Result<(Option<u32>, &[u8]), EventFault>
    ensures { Gives result (until text.now) }
{
    match read_literal("~", text) {
        Ok(rest) => {
            let (deadline, rest) = read_number(4_294_967_295, rest)?;
            Ok((Some(deadline as u32), rest))
        }
        Err(_) => Ok((None, text)),
    }
}

/// What is read of a text's front.
pub(crate) trait Field: Drop {
    ghost reads: { List ℕ → Reading Self };

    /// Reads one from the front of a text, and gives what is left behind it.
    fn read<'a>(alloc: Global, text: &'a [u8]) -> Result<(Self, &'a [u8]), EventFault>
        ensures { Gives result (reads text.now) };
}

impl Field for Entry {
    ghost use Rattle.event_texts.specs.Reading.{plain_entry};

    ghost reads = { plain_entry };

    #[tactic(auto, unfolding(crate::specs::Reading::plain_entry))]
    fn read<'a>(alloc: Global, text: &'a [u8]) -> Result<(Entry, &'a [u8]), EventFault> {
        let Ok((key, rest)) = read_key(text) else {
            return Err(EventFault::BadEvent);
        };
        let (value, rest) = read_datum_word(alloc, rest)?;
        Ok((Entry { key, value }, rest))
    }
}

impl Field for StampedEntry {
    ghost use Rattle.event_texts.specs.Reading.{stamped_entry};

    ghost reads = { stamped_entry };

    #[tactic(auto, unfolding(crate::specs::Reading::stamped_entry))]
    fn read<'a>(alloc: Global, text: &'a [u8]) -> Result<(StampedEntry, &'a [u8]), EventFault> {
        let Ok((key, rest)) = read_key(text) else {
            return Err(EventFault::BadEvent);
        };
        let (value, rest) = read_datum_word(alloc, rest)?;
        let (until, rest) = read_until(rest)?;
        let stamped = Stamped { value, until };
        Ok((StampedEntry { key, stamped }, rest))
    }
}

impl Field for Item {
    ghost use Rattle.event_texts.specs.Reading.{item};

    ghost reads = { item };

    #[tactic(auto, unfolding(crate::specs::Reading::item))]
    fn read<'a>(alloc: Global, text: &'a [u8]) -> Result<(Item, &'a [u8]), EventFault> {
        match read_literal("@", text) {
            Ok(rest) => {
                let (entry, rest) = <Entry as Field>::read(alloc, rest)?;
                Ok((Item::Entry(entry), rest))
            }
            Err(_) => {
                let (datum, rest) = read_datum(alloc, text)?;
                Ok((Item::Datum(datum), rest))
            }
        }
    }
}

/// Reads one behind a blank.
fn read_behind<'a, T: Field>(alloc: Global, text: &'a [u8]) -> Result<(T, &'a [u8]), EventFault>
    ensures { Gives result (behind (codes " ") T.reads text.now) }
{
    let rest = read_literal(" ", text)?;
    T::read(alloc, rest)
}

/// Reads how many there are, and so many, each behind a blank.
#[tactic(auto, unfolding(crate::specs::Reading::counted_in))]
pub(crate) fn read_counted<'a, T: Field>(
    alloc: Global,
    text: &'a [u8],
) -> Result<(Sequence<T>, &'a [u8]), EventFault>
    ensures { GivesList result (counted_in T.reads text.now) }
{
    let (count, rest) = read_u64(text)?;
    let mut list = Sequence::new(alloc);
    let mut left = count;
    let mut rest = rest;
    while left > 0 {
        let (one, more) = read_behind(alloc, rest)?;
        list.push(one)?;
        rest = more;
        left -= 1;
    }
    Ok((list, rest))
}
