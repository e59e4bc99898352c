//! The program: its arguments, standard input and standard output are handed to the top call, whose
//! status it exits with. Nothing is written to standard error.
#![tactic(auto)]

mod words;

ghost use Rattle.std.specs.Prelude.{◌≡◌};
ghost use Rattle.std.specs.Process.{exit_status};
ghost use Rattle.grid_shell.specs.Statuses.{number_of};

use crate::words::words;
use grid_event::Journal;
use grid_io::{StdSink, StdSource};
use grid_shell::{Status, run};
use node_workers::NoGate;
use std::io;
use std::process::ExitCode;

fn main(rt: HostRuntime) -> ExitCode {
    let Ok(words) = words(&rt, rt.alloc()) else {
        return exit_code(Status::NoMemory);
    };
    let mut source = StdSource::new(rt.reader());
    let mut sink = StdSink::new(io::writer(&rt));
    let mut journal = Journal::new(rt.alloc());
    let status = run(
        &rt,
        rt.alloc(),
        words.as_slice(),
        &mut source,
        &mut sink,
        &NoGate,
        &mut journal,
    );
    exit_code(status)
}

/// What the program exits with at a status.
fn exit_code(status: Status) -> ExitCode
    ensures { exit_status result ≡ number_of status }
{
    ExitCode::from(status.number())
}
