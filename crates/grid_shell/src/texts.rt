//! What is written: the run in the form that was asked for, or a line that says why it isn't.

ghost use Rattle.std.specs.Prelude.{◌≡◌, IfOk, IsSome};
ghost use Rattle.grid_shell.specs.Lines.{full_line, reason_text, refused_line, text_of, usage_line};

use crate::asks::Form;
use grid_base::{Bytes, NoMemory};
use grid_event::Journal;
use grid_journal::{brief, brief_json, report};
use grid_script::Reason;
use itoa::Buffer;
use std::alloc::Global;

/// The run of a journal in a form. The only failure is that memory runs out.
pub(crate) fn text(alloc: Global, form: Form, journal: &Journal) -> Result<Bytes, NoMemory>
    requires { IsSome journal.now.history.config }
    ensures { IfOk result (λ out. out.list ≡ text_of form journal.now.history) }
{
    match form {
        Form::Full => report(alloc, journal),
        Form::Brief => brief(alloc, journal),
        Form::Json => brief_json(alloc, journal),
    }
}

/// What is written where the words are none that are served.
pub(crate) fn usage() -> &'static [u8]
    ensures { result.now ≡ usage_line }
{
    b"usage: grid step | grid live [--workers N] | grid gen SEED [--keys N] [--steps N]; each with [--form full|brief|json]\n"
}

/// The word of a reason.
fn reason_word(reason: Reason) -> &'static [u8]
    ensures { result.now ≡ reason_text reason }
{
    match reason {
        Reason::OverLimit => b"OverLimit",
        Reason::Syntax => b"Syntax",
        Reason::OtherKind => b"OtherKind",
        Reason::NodeUnknown => b"NodeUnknown",
        Reason::NodeGone => b"NodeGone",
        Reason::NodeTwice => b"NodeTwice",
        Reason::LastNode => b"LastNode",
        Reason::CallUnknown => b"CallUnknown",
        Reason::CallTwice => b"CallTwice",
        Reason::KeyUngrouped => b"KeyUngrouped",
        Reason::Mistyped => b"Mistyped",
        Reason::TooLong => b"TooLong",
    }
}

/// What is written where the script was refused at a line; 0 stands for the whole script. The only
/// failure is that memory runs out.
pub(crate) fn refused(alloc: Global, line: u32, reason: Reason) -> Result<Bytes, NoMemory>
    ensures { IfOk result (λ out. out.list ≡ refused_line line reason) }
{
    let mut out = Bytes::new(alloc);
    out.extend(b"refused ")?;
    out.extend(Buffer::new().format(line).as_bytes())?;
    out.push(b' ')?;
    out.extend(reason_word(reason))?;
    out.push(b'\n')?;
    Ok(out)
}

/// What is written where the journal was full at a line. The only failure is that memory runs out.
pub(crate) fn full(alloc: Global, line: u32) -> Result<Bytes, NoMemory>
    ensures { IfOk result (λ out. out.list ≡ full_line line) }
{
    let mut out = Bytes::new(alloc);
    out.extend(b"full ")?;
    out.extend(Buffer::new().format(line).as_bytes())?;
    out.push(b'\n')?;
    Ok(out)
}
