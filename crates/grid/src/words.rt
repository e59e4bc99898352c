//! The arguments of the program as words.

ghost use Rattle.std.specs.Prelude.{◌≡◌, [], ◌∷◌, map, string_bytes, IfOk};
ghost use Rattle.grid.specs.Arguments.{words_of};

use grid_base::{NoMemory, Text, TextFault};
use std::alloc::{Allocator, Global};
use std::rt::Env;
use std::{env, io};

/// The words that the arguments behind the program's name are. Where one of them isn't UTF-8, there is
/// one empty word in place of them all, which stands for no command. The only failure is that memory
/// runs out.
pub(crate) fn words<R: Env + Alloc>(rt: &R, alloc: Global) -> Result<Vec<Text>, NoMemory> {
    let args = match env::args(rt) {
        Ok(args) => args,
        Err(error) if error.kind() == io::ErrorKind::OutOfMemory => return Err(NoMemory),
        Err(_) => return no_command(alloc),
    };
    let mut behind = Vec::new(alloc);
    for arg in args.skip(1) {
        behind.push(arg)?;
    }
    words_of(alloc, behind.as_slice())
}

/// The words that these arguments are: their bytes. Where one of them isn't a text, there is one empty
/// word in place of them all, which stands for no command. The only failure is that memory runs out.
fn words_of<A: Allocator>(alloc: Global, args: &[String<A>]) -> Result<Vec<Text>, NoMemory>
    ensures { IfOk result (λ words. words.items ≡ words_of (map string_bytes args.now)) }
{
    let mut words = Vec::new(alloc);
    for arg in args {
        match Text::new(alloc, arg.as_bytes()) {
            Ok(word) => words.push(word)?,
            Err(TextFault::Bad) => return no_command(alloc),
            Err(TextFault::NoMemory) => return Err(NoMemory),
        }
    }
    Ok(words)
}

/// One empty word.
fn no_command(alloc: Global) -> Result<Vec<Text>, NoMemory>
    ensures { IfOk result (λ words. words.items ≡ [] ∷ []) }
{
    let mut words = Vec::new(alloc);
    words.push(Text::new(alloc, b"").map_err(|_| NoMemory)?)?;
    Ok(words)
}
