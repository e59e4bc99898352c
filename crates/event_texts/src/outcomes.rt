//! Writing outcomes at the end of a text. Each call fails only where memory runs out.

ghost use Rattle.std.specs.Prelude.{◌≡◌, ◌++◌, true, OnOk};
ghost use Rattle.event_texts.specs.Events.{answer_text, best_text, outcome_text};
ghost use Rattle.event_texts.specs.Fits.{answer_fits, best_fits, outcome_fits};

use crate::words::{add_int, add_items, add_number_word};
use grid_base::{Bytes, Datum, NoMemory};
use grid_event::{Answer, Outcome};
use pipeline_parse::writing::add_datum;

/// Adds how a call ended.
#[tactic(auto, unfolding(crate::specs::Events::outcome_text))]
pub fn add_outcome(out: &mut Bytes, outcome: &Outcome) -> Result<(), NoMemory>
    ensures text { OnOk result (out.new.list ≡ out.old.list ++ outcome_text outcome.now) }
    ensures keeps { OnOk result (outcome_fits outcome.now ≡ true) }
{
    match outcome {
        Outcome::Value(answer) => {
            out.extend(b"value ")?;
            add_answer(out, answer)
        }
        Outcome::Ended => out.extend(b"ended"),
        Outcome::Again { rounds, suspect } => {
            out.extend(b"again")?;
            add_number_word(out, u64::from(*rounds))?;
            add_number_word(out, u64::from(suspect.number()))
        }
        Outcome::SegmentLost(segment) => {
            out.extend(b"segment_lost")?;
            add_number_word(out, u64::from(segment.number()))
        }
        Outcome::OriginatorLeft => out.extend(b"originator_left"),
    }
}

/// Adds the answer of a pipeline.
#[tactic(auto, unfolding(crate::specs::Events::answer_text))]
fn add_answer(out: &mut Bytes, answer: &Answer) -> Result<(), NoMemory>
    ensures text { OnOk result (out.new.list ≡ out.old.list ++ answer_text answer.now) }
    ensures keeps { OnOk result (answer_fits answer.now ≡ true) }
{
    match answer {
        Answer::Count(number) => {
            out.extend(b"count")?;
            add_number_word(out, *number)
        }
        Answer::Sum(number) => {
            out.extend(b"sum ")?;
            add_int(out, *number)
        }
        Answer::Best(best) => {
            out.extend(b"best ")?;
            add_best(out, best)
        }
        Answer::List(items) => {
            out.extend(b"list")?;
            add_items(out, items.as_slice())
        }
    }
}

/// Adds the least or the greatest element, or that there is none.
fn add_best(out: &mut Bytes, best: &Option<Datum>) -> Result<(), NoMemory>
    ensures text { OnOk result (out.new.list ≡ out.old.list ++ best_text best.now) }
    ensures keeps { OnOk result (best_fits best.now ≡ true) }
{
    match best {
        None => out.extend(b"none"),
        Some(datum) => add_datum(out, datum),
    }
}
