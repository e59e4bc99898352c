//! The pipeline of a text.

ghost use Rattle.std.specs.Prelude.{◌≡◌, ◌≤◌, ◌+◌, true, length, IfOk, IfErr};
ghost use Rattle.pipeline_expr.specs.declared.pipeline.Pipeline.{Pipeline};
ghost use Rattle.pipeline_parse.specs.Answers.{Explains, GivesOnly, GivesWhole};
ghost use Rattle.pipeline_parse.specs.Grammar.{fits, text_of};
ghost use Rattle.pipeline_parse.specs.Parsing.{pipeline_at};

use crate::halt::Halt;
use crate::parse_fault::ParseFault;
use crate::pipelines::read_steps;
use pipeline_expr::Pipeline;
use sqlite_items::Items;
use std::alloc::Global;

/// The one pipeline whose text this is. The text has at most 1,024 bytes. It is `Syntax` exactly
/// where the text is no pipeline's, with the length of the longest front of the text with which
/// some pipeline's text begins; otherwise it fails only where memory runs out.
pub fn parse_pipeline(alloc: Global, text: &[u8]) -> Result<Pipeline, ParseFault>
    requires { length text.now ≤ 1024 }
    ensures found { IfOk result (λ p. (text_of p ≡ text.now) × (fits p ≡ true)) }
    ensures only { (p : Pipeline) → fits p ≡ true → text_of p ≡ text.now → GivesOnly p result }
    ensures stops { IfErr result (λ fault. Explains fault text.now) }
{
    match read_pipeline(alloc, text) {
        Ok(pipeline) => Ok(pipeline),
        Err(Halt::Left(left)) => Err(ParseFault::Syntax {
            at: (text.len() - left) as u32,
        }),
        Err(Halt::NoMemory) => Err(ParseFault::NoMemory),
    }
}

/// Reads a whole text. Each level of an expression, each of its lists' turns and each operation
/// takes some of the text, so that there are fewer than one more than its bytes.
#[tactic(auto, unfolding(crate::specs::Parsing::pipeline_at))]
fn read_pipeline(alloc: Global, text: &[u8]) -> Result<Pipeline, Halt>
    requires { length text.now ≤ 1024 }
    ensures { GivesWhole result (pipeline_at (length text.now + 1) text.now) }
{
    let most = text.len() + 1;
    let (pipeline, rest) = read_steps(alloc, Items::new(alloc), text, most, most)?;
    if !rest.is_empty() {
        return Err(Halt::Left(rest.len()));
    }
    Ok(pipeline)
}
