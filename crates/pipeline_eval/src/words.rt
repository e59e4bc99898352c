//! The words of a text.

ghost use Rattle.std.specs.Prelude.{◌≡◌, true, IfOk, OnOk, ◌++◌, map};
ghost use Rattle.grid_base.specs.Text.{is_text};
ghost use Rattle.pipeline_eval.specs.Lists.{is_filled, words};
ghost use Rattle.std.specs.Prelude.{[], ◌∷◌};
ghost use Rattle.std.specs.List.{filter};

use crate::values::text;
use grid_base::{Datum, Item, NoMemory};
use std::alloc::Global;

/// Puts the longest runs of bytes other than the blank behind the elements, in order.
pub(crate) fn push_words(alloc: Global, out: &mut Vec<Item>, bytes: &[u8]) -> Result<(), NoMemory>
    requires { is_text bytes.now ≡ true }
    ensures { OnOk result (out.new.items ≡ out.old.items ++ map (λ word. Item.Datum (Datum.Text word)) (words bytes.now)) }
{
    let mut start = 0;
    for (place, byte) in bytes.iter().enumerate() {
        if *byte == b' ' {
            push_word(alloc, out, &bytes[start..place])?;
            start = place + 1;
        }
    }
    push_word(alloc, out, &bytes[start..])
}

/// Puts a run of bytes behind the elements, where it isn't empty.
fn push_word(alloc: Global, out: &mut Vec<Item>, run: &[u8]) -> Result<(), NoMemory>
    requires { is_text run.now ≡ true }
    ensures { OnOk result (out.new.items ≡ out.old.items ++ map (λ word. Item.Datum (Datum.Text word)) (filter is_filled (run.now ∷ []))) }
{
    if run.is_empty() {
        return Ok(());
    }
    out.push(Item::Datum(Datum::Text(text(alloc, run)?)))?;
    Ok(())
}
