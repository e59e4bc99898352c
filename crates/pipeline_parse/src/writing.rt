//! Writers of values, which other texts share.

ghost use Rattle.std.specs.Prelude.{◌≡◌, ◌++◌, ◌∷◌, [], true, IfOk, OnOk, OnErr};
ghost use Rattle.pipeline_parse.specs.Grammar.{datum_fits, datum_text};

use grid_base::{Bytes, Datum, NoMemory};
use itoa::Buffer;

/// Writes a value behind some bytes. The only failure is that memory runs out; a part of the text
/// may then be written.
pub fn add_datum(out: &mut Bytes, datum: &Datum) -> Result<(), NoMemory>
    ensures text { OnOk result (out.new.list ≡ out.old.list ++ datum_text datum.now) }
    ensures keeps { OnOk result (datum_fits datum.now ≡ true) }
{
    match datum {
        Datum::Int(number) => out.extend(Buffer::new().format(*number).as_bytes()),
        Datum::Text(text) => {
            out.push(b'"')?;
            out.extend(text.bytes())?;
            out.push(b'"')
        }
        Datum::Flag(true) => out.extend(b"true"),
        Datum::Flag(false) => out.extend(b"false"),
    }
}
