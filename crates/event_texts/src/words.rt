//! Writing words: numbers, values and lists of entries and of items, at the end of a text. Each
//! call fails only where memory runs out.

ghost use Rattle.std.specs.Prelude.{◌≡◌, ◌∷◌, ◌++◌, [], true, OnOk, decimal, map};
ghost use Rattle.std.specs.List.{list_all};
ghost use Rattle.std.specs.Fmt.{signed_decimal};
ghost use Rattle.event_texts.specs.Fits.{all_fit, entry_fits, item_fits, stamped_entry_fits, stamped_fits, until_fits};
ghost use Rattle.event_texts.specs.Words.{counted_text, each_behind, entry_text, item_text, stamped_entry_text, stamped_text, until_text};

use grid_base::{Bytes, Entry, Item, NoMemory, Stamped, StampedEntry};
use itoa::Buffer;
use pipeline_parse::writing::add_datum;

/// Adds a number in decimal.
pub fn add_number(out: &mut Bytes, number: u64) -> Result<(), NoMemory>
    ensures { OnOk result (out.new.list ≡ out.old.list ++ decimal number) }
{
    out.extend(Buffer::new().format(number).as_bytes())
}

/// Adds a blank and a number in decimal.
pub fn add_number_word(out: &mut Bytes, number: u64) -> Result<(), NoMemory>
    ensures { OnOk result (out.new.list ≡ out.old.list ++ 32 ∷ decimal number) }
{
    out.push(b' ')?;
    add_number(out, number)
}

/// Adds a blank and a word.
pub(crate) fn add_word(out: &mut Bytes, word: &[u8]) -> Result<(), NoMemory>
    ensures { OnOk result (out.new.list ≡ out.old.list ++ 32 ∷ word.now) }
{
    out.push(b' ')?;
    out.extend(word)
}

/// Adds an int in decimal.
pub(crate) fn add_int(out: &mut Bytes, number: i64) -> Result<(), NoMemory>
    ensures { OnOk result (out.new.list ≡ out.old.list ++ signed_decimal number) }
{
    out.extend(Buffer::new().format(number).as_bytes())
}

/// Adds the deadline of a value, where it has one.
pub(crate) fn add_until(out: &mut Bytes, until: Option<u32>) -> Result<(), NoMemory>
    ensures text { OnOk result (out.new.list ≡ out.old.list ++ until_text until) }
    ensures keeps { OnOk result (until_fits until ≡ true) }
{
    let Some(deadline) = until else {
        return Ok(());
    };
    out.push(b'~')?;
    add_number(out, u64::from(deadline))
}

/// Adds a value and its deadline.
fn add_stamped(out: &mut Bytes, stamped: &Stamped) -> Result<(), NoMemory>
    ensures text { OnOk result (out.new.list ≡ out.old.list ++ stamped_text stamped.now) }
    ensures keeps { OnOk result (stamped_fits stamped.now ≡ true) }
{
    add_datum(out, &stamped.value)?;
    add_until(out, stamped.until)
}

/// Adds an entry.
fn add_entry(out: &mut Bytes, entry: &Entry) -> Result<(), NoMemory>
    ensures text { OnOk result (out.new.list ≡ out.old.list ++ entry_text entry.now) }
    ensures keeps { OnOk result (entry_fits entry.now ≡ true) }
{
    out.extend(entry.key.bytes())?;
    out.push(b' ')?;
    add_datum(out, &entry.value)
}

/// Adds an entry with its deadline.
fn add_stamped_entry(out: &mut Bytes, entry: &StampedEntry) -> Result<(), NoMemory>
    ensures text { OnOk result (out.new.list ≡ out.old.list ++ stamped_entry_text entry.now) }
    ensures keeps { OnOk result (stamped_entry_fits entry.now ≡ true) }
{
    out.extend(entry.key.bytes())?;
    out.push(b' ')?;
    add_stamped(out, &entry.stamped)
}

/// Adds an item.
fn add_item(out: &mut Bytes, item: &Item) -> Result<(), NoMemory>
    ensures text { OnOk result (out.new.list ≡ out.old.list ++ item_text item.now) }
    ensures keeps { OnOk result (item_fits item.now ≡ true) }
{
    match item {
        Item::Entry(entry) => {
            out.push(b'@')?;
            add_entry(out, entry)
        }
        Item::Datum(datum) => add_datum(out, datum),
    }
}

/// Adds a blank, the number of entries, and each of them behind a blank.
pub(crate) fn add_entries(out: &mut Bytes, entries: &[Entry]) -> Result<(), NoMemory>
    ensures text { OnOk result (out.new.list ≡ out.old.list ++ 32 ∷ counted_text entry_text entries.now) }
    ensures keeps { OnOk result (all_fit entry_fits entries.now ≡ true) }
{
    add_number_word(out, entries.len() as u64)?;
    add_each_entry(out, entries)
}

/// Adds each entry behind a blank.
fn add_each_entry(out: &mut Bytes, entries: &[Entry]) -> Result<(), NoMemory>
    ensures text { OnOk result (out.new.list ≡ out.old.list ++ each_behind 32 (map entry_text entries.now)) }
    ensures keeps { OnOk result (list_all entry_fits entries.now ≡ true) }
{
    for entry in entries {
        out.push(b' ')?;
        add_entry(out, entry)?;
    }
    Ok(())
}

/// Adds a blank, the number of entries, and each of them with its deadline behind a blank.
pub(crate) fn add_stamped_entries(out: &mut Bytes, entries: &[StampedEntry]) -> Result<(), NoMemory>
    ensures text { OnOk result (out.new.list ≡ out.old.list ++ 32 ∷ counted_text stamped_entry_text entries.now) }
    ensures keeps { OnOk result (all_fit stamped_entry_fits entries.now ≡ true) }
{
    add_number_word(out, entries.len() as u64)?;
    add_each_stamped_entry(out, entries)
}

/// Adds each entry with its deadline behind a blank.
fn add_each_stamped_entry(out: &mut Bytes, entries: &[StampedEntry]) -> Result<(), NoMemory>
    ensures text { OnOk result (out.new.list ≡ out.old.list ++ each_behind 32 (map stamped_entry_text entries.now)) }
    ensures keeps { OnOk result (list_all stamped_entry_fits entries.now ≡ true) }
{
    for entry in entries {
        out.push(b' ')?;
        add_stamped_entry(out, entry)?;
    }
    Ok(())
}

/// Adds a blank, the number of items, and each of them behind a blank.
pub(crate) fn add_items(out: &mut Bytes, items: &[Item]) -> Result<(), NoMemory>
    ensures text { OnOk result (out.new.list ≡ out.old.list ++ 32 ∷ counted_text item_text items.now) }
    ensures keeps { OnOk result (all_fit item_fits items.now ≡ true) }
{
    add_number_word(out, items.len() as u64)?;
    add_each_item(out, items)
}

/// Adds each item behind a blank.
fn add_each_item(out: &mut Bytes, items: &[Item]) -> Result<(), NoMemory>
    ensures text { OnOk result (out.new.list ≡ out.old.list ++ each_behind 32 (map item_text items.now)) }
    ensures keeps { OnOk result (list_all item_fits items.now ≡ true) }
{
    for item in items {
        out.push(b' ')?;
        add_item(out, item)?;
    }
    Ok(())
}
