//! Readers of the fields of a line: numbers, keys and pipelines, with a blank behind or as the
//! line's last.

ghost use Rattle.std.specs.Prelude.{◌≡◌, ◌≤◌, length, IfOk};
ghost use Rattle.pipeline_parse.specs.Gives.{Passes, Reads};
ghost use Rattle.grid_script.specs.Fields.{blank_at, end_at, key_field, last_key, last_number, number_field, pipeline_of};
ghost use Rattle.grid_script.specs.Judging.{Says, Tells, spelt};

use crate::line_fault::LineFault;
use crate::reason::Reason;
use grid_base::Key;
use grid_base::limits::LONGEST_LINE;
use grid_event::Pipeline;
use pipeline_parse::reading::{read_key, read_literal, read_number};
use pipeline_parse::{ParseFault, Unread, parse_pipeline};
use std::alloc::Global;

/// The greatest number that a script can spell, which has nine digits.
pub const LARGEST_NUMBER: u64 = 999_999_999;

/// Reads the blank between two fields.
fn read_blank(text: &[u8]) -> Result<&[u8], Unread>
    ensures { Passes result (blank_at text.now) }
{
    read_literal(" ", text)
}

/// Sees that nothing is left of a line. It takes no memory.
pub fn read_end(text: &[u8]) -> Result<(), Unread>
    ensures { Tells result (end_at text.now) }
{
    if text.is_empty() {
        Ok(())
    } else {
        Err(Unread { left: text.len() })
    }
}

/// Reads a number of one to nine digits and the blank behind it. It takes no memory.
#[tactic(auto, unfolding(crate::specs::Fields::number_field))]
pub fn read_number_field(text: &[u8]) -> Result<(u32, &[u8]), Unread>
    ensures { Reads result (number_field text.now) }
{
    let (number, rest) = read_number(LARGEST_NUMBER, text)?;
    let rest = read_blank(rest)?;
    Ok((number as u32, rest))
}

/// Reads a number of one to nine digits that ends the line. It takes no memory.
#[tactic(auto, unfolding(crate::specs::Fields::last_number))]
pub fn read_last_number(text: &[u8]) -> Result<u32, Unread>
    ensures { Tells result (last_number text.now) }
{
    let (number, rest) = read_number(LARGEST_NUMBER, text)?;
    read_end(rest)?;
    Ok(number as u32)
}

/// Reads a key and the blank behind it. It takes no memory.
#[tactic(auto, unfolding(crate::specs::Fields::key_field))]
pub fn read_key_field(text: &[u8]) -> Result<(Key, &[u8]), Unread>
    ensures { Reads result (key_field text.now) }
{
    match read_key(text) {
        Ok((key, rest)) => {
            let rest = read_blank(rest)?;
            Ok((key, rest))
        }
        Err(unread) => Err(unread),
    }
}

/// Reads a key that ends the line. It takes no memory.
#[tactic(auto, unfolding(crate::specs::Fields::last_key))]
pub fn read_last_key(text: &[u8]) -> Result<Key, Unread>
    ensures { Tells result (last_key text.now) }
{
    match read_key(text) {
        Ok((key, rest)) => {
            read_end(rest)?;
            Ok(key)
        }
        Err(unread) => Err(unread),
    }
}

/// Reads the pipeline whose text this is. A text of more than 1,024 bytes stands in no line.
#[tactic(auto, using(crate::proofs::Pipelines::pipeline_found, crate::proofs::Pipelines::pipeline_none, crate::proofs::Pipelines::pipeline_long))]
pub(crate) fn read_pipeline(alloc: Global, text: &[u8]) -> Result<Pipeline, LineFault>
    ensures { Says result (spelt (pipeline_of text.now)) }
{
    if text.len() > LONGEST_LINE {
        return Err(LineFault::Refused(Reason::Syntax));
    }
    match parse_pipeline(alloc, text) {
        Ok(pipeline) => Ok(pipeline),
        Err(ParseFault::Syntax { .. }) => Err(LineFault::Refused(Reason::Syntax)),
        Err(ParseFault::NoMemory) => Err(LineFault::NoMemory),
    }
}
