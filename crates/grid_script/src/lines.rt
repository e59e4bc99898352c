//! What is asked of a line of a script, and what its number is.

ghost use Rattle.std.specs.Prelude.{◌≡◌};
ghost use Rattle.grid_script.specs.Faults.{script_fault_of};
ghost use Rattle.grid_script.specs.Judging.{Says};
ghost use Rattle.grid_script.specs.Lines.{needs_whole, says_nothing};
ghost use Rattle.text_lines.specs.Lines.{Line};

use crate::line_fault::LineFault;
use crate::reason::Reason;
use crate::rules::needs;
use crate::script_fault::ScriptFault;
use grid_base::limits::LONGEST_LINE;

/// Refuses a line of more than 1,024 bytes, and one without a line feed at its end.
#[tactic(auto, unfolding(crate::specs::Lines::needs_whole))]
pub(crate) fn needs_whole(line: &[u8], ended: bool) -> Result<(), LineFault>
    ensures { Says result (needs_whole (record { bytes = line.now; ended = ended })) }
{
    needs(line.len() <= LONGEST_LINE, Reason::OverLimit)?;
    needs(ended, Reason::Syntax)
}

/// Whether a line is empty or begins with a semicolon, and so says nothing.
pub(crate) fn says_nothing(line: &[u8]) -> bool
    ensures { result ≡ says_nothing line.now }
{
    match line.split_first() {
        None => true,
        Some((byte, _)) => *byte == b';',
    }
}

/// A fault of a line, with the line's number.
pub(crate) fn on_line(line: u32, fault: LineFault) -> ScriptFault
    ensures { result ≡ script_fault_of line fault }
{
    match fault {
        LineFault::Refused(reason) => ScriptFault::Refused { line, reason },
        LineFault::NoMemory => ScriptFault::NoMemory,
    }
}
