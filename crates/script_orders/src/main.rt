//! Reads the script of a stepped run from standard input, and prints how many orders it has and how
//! many bytes there are for each, or the line at fault. The measure of reading scripts runs it.
#![tactic(auto)]

use anyhow::Result;
use grid_base::limits::LONGEST_SCRIPT;
use grid_io::{StdSource, read_all};
use grid_script::{Script, ScriptFault, ScriptKind, read_script};
use std::alloc::Global;

fn main(rt: HostRuntime) -> Result<()> {
    let mut source = StdSource::new(rt.reader());
    let bytes = read_all(rt.alloc(), &mut source, LONGEST_SCRIPT)?;
    let told = tell(rt.alloc(), bytes.as_slice())?;
    println!(rt; "{told}")?;
    Ok(())
}

/// What is told of a script.
fn tell(alloc: Global, text: &[u8]) -> Result<String> {
    match read_script(alloc, text, ScriptKind::Step) {
        Ok(Script::Step(script)) => {
            let orders = script.lines.len();
            if orders == 0 {
                return Ok(format!(in alloc; "no orders")?);
            }
            let bytes = text.len() / orders;
            Ok(format!(in alloc; "{orders} orders, {bytes} bytes for each")?)
        }
        Ok(Script::Live(_)) => Ok(format!(in alloc; "a live run")?),
        Err(ScriptFault::Refused { line, .. }) => Ok(format!(in alloc; "line {line} is at fault")?),
        Err(ScriptFault::NoMemory) => Err(ScriptFault::NoMemory.into()),
    }
}
