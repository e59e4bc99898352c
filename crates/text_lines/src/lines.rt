//! The first line of a text.

ghost use Rattle.std.specs.Prelude.{◌≡◌, ◌<◌, ◌∷◌, length};
ghost use Rattle.text_lines.specs.Lines.{Line, lines_of};

use memchr::memchr;

/// The first line of a text: its bytes, whether a line feed ends it, and the text behind.
#[derive(Clone, Copy, Debug)]
pub struct Cut<'a> {
    pub line: &'a [u8],
    pub ended: bool,
    pub rest: &'a [u8],
}

/// Cuts off the first line of a text that isn't empty. The line feed that ends it is in neither
/// part.
#[tactic(auto, using(crate::proofs::Cutting::first_of, crate::proofs::Cutting::last_of))]
pub fn first_line(text: &[u8]) -> Cut<'_>
    requires { 0 < length text.now }
    ensures cut { lines_of text.now ≡ record { bytes = result.line.now; ended = result.ended } ∷ lines_of result.rest.now }
    ensures shorter { length result.rest.now < length text.now }
{
    match memchr(b'\n', text) {
        Some(at) => Cut {
            line: &text[..at],
            ended: true,
            rest: &text[at + 1..],
        },
        None => Cut {
            line: text,
            ended: false,
            rest: b"",
        },
    }
}
