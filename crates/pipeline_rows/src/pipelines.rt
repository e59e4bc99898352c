//! Pipelines over entries. A row has the text of a pipeline, the entries with their number in front,
//! and the value, as reports write them, with ` => ` between each two.

use anyhow::{Context, Result, bail};
use event_texts::{print_event, read_event};
use grid_base::{Bytes, CallId};
use grid_event::{Answer, AnswerEvent, Event, Outcome};
use pipeline_eval::run_plain_pipeline;
use pipeline_parse::parse_pipeline;
use sqlite_items::Boxed;
use std::alloc::Global;

/// How many bytes a pipeline's text may have.
const LONGEST: usize = 1024;

/// Tells how a row went.
pub fn told_pipeline(alloc: Global, row: &str) -> Result<String> {
    let (pipeline, rest) = row.split_once(" => ").context("a row without entries")?;
    let (entries, value) = rest.split_once(" => ").context("a row without a value")?;
    let answer = answer_of(alloc, pipeline, entries)?;
    let written = written(alloc, answer)?;
    let wanted = format!(in alloc; "answer 1 value {value}")?;
    Ok(if written.as_slice() == wanted.as_bytes() {
        format!(in alloc; "same {row}")?
    } else {
        format!(in alloc; "differs {row}")?
    })
}

/// The answer of a pipeline over entries, which are read as those of a scan.
fn answer_of(alloc: Global, pipeline: &str, entries: &str) -> Result<Answer> {
    let pipeline = pipeline.as_bytes();
    if pipeline.len() > LONGEST {
        bail!("a pipeline of more than 1,024 bytes");
    }
    let pipeline = parse_pipeline(alloc, pipeline)?;
    let text = format!(in alloc; "scan 1 {entries} last")?;
    let Event::Scan(scan) = read_event(alloc, text.as_bytes())? else {
        bail!("entries that are none");
    };
    let answer = run_plain_pipeline(alloc, &pipeline, &scan.get().batch.entries)?;
    Ok(answer)
}

/// The event that answers the call 1 by an answer, as it is written.
fn written(alloc: Global, answer: Answer) -> Result<Bytes> {
    let event = AnswerEvent {
        call: CallId::new(1),
        outcome: Outcome::Value(answer),
    };
    let event = Event::Answer(Boxed::new(alloc, event)?);
    let written = print_event(alloc, &event)?;
    Ok(written)
}
