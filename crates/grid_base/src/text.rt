//! Texts as values of the grid's entries.

ghost use Rattle.std.specs.Prelude.{◌≡◌, ℕ, true, false, ◌↔◌, IfOk, IsErrOf};
ghost use Rattle.std.specs.List.{list_all};
ghost use Rattle.grid_base.specs.Text.{is_text, is_text_byte};

use crate::duplicate::Duplicate;
use crate::inline_text::InlineText;
use crate::limits::LONGEST_TEXT;
use crate::no_memory::NoMemory;
use crate::text_fault::TextFault;
use std::alloc::Global;
use std::cmp::Ordering;
use std::marker::Model;

/// A text as a value: 0 to 64 bytes of printable ASCII, without double quote, in memory of its
/// own. Contracts see its bytes, and texts are ordered by them.
#[derive(Debug, Drop)]
pub struct Text {
    inline: Box<InlineText>,
}

impl Model for Text {
    ghost use Rattle.std.specs.Prelude.{List, ℕ};

    ghost Value = { List ℕ };

    ghost view = { λ text. text.inline.value };
}

impl Text {
    /// The text of these bytes. It is `Bad` exactly where they break the limits of a text, and
    /// otherwise fails only where memory runs out.
    pub fn new(alloc: Global, bytes: &[u8]) -> Result<Text, TextFault>
        ensures ok { IfOk result (λ text. text ≡ bytes.now) }
        ensures valid { IfOk result (λ _. is_text bytes.now ≡ true) }
        ensures bad { IsErrOf result TextFault.Bad ↔ (is_text bytes.now ≡ false) }
    {
        if !is_text(bytes) {
            return Err(TextFault::Bad);
        }
        let text = Text::boxed(alloc, InlineText::new(bytes))?;
        Ok(text)
    }

    /// The bytes of the text.
    pub fn bytes(&self) -> &[u8]
        ensures bytes { result.now ≡ self.now }
        ensures valid { is_text self.now ≡ true }
    {
        self.inline.bytes()
    }

    /// An equal text. The only failure is that memory runs out.
    pub fn copy(&self, alloc: Global) -> Result<Text, NoMemory>
        ensures { IfOk result (λ copy. copy ≡ self.now) }
    {
        Text::boxed(alloc, *self.inline)
    }

    /// The text in memory of its own.
    fn boxed(alloc: Global, inline: InlineText) -> Result<Text, NoMemory>
        ensures { IfOk result (λ text. text ≡ inline) }
    {
        let inline = Box::new(alloc, inline)?;
        Ok(Text { inline })
    }
}

impl Duplicate for Text {
    fn copy(&self, alloc: Global) -> Result<Text, NoMemory> {
        Text::copy(self, alloc)
    }
}

impl PartialEq for Text {
    ghost use Rattle.std.specs.Prelude.{nat_eq};
    ghost use Rattle.std.specs.Cmp.{partial_equiv_from_equiv};
    ghost use Rattle.std.specs.Cmp.Lexicographic.{pointwise, nat_list_eq_equiv};

    ghost eq = { pointwise nat_eq };

    fn eq(&self, other: &Text) -> bool {
        self.inline == other.inline
    }

    ghost laws = { partial_equiv_from_equiv nat_list_eq_equiv };
}

impl Eq for Text {
    ghost use Rattle.std.specs.Cmp.Lexicographic.{nat_list_eq_equiv};

    ghost laws = { nat_list_eq_equiv };
}

impl PartialOrd for Text {
    ghost use Rattle.std.specs.Prelude.{Some};
    ghost use Rattle.std.specs.Cmp.Lexicographic.{slice_cmp, texts_po};
    ghost use Rattle.std.specs.Ordering.{nat_cmp};

    ghost partial_cmp = { λ x y. Some (slice_cmp nat_cmp x y) };

    fn partial_cmp(&self, other: &Text) -> Option<Ordering> {
        Some(self.cmp(other))
    }

    ghost laws = { texts_po };
}

impl Ord for Text {
    ghost use Rattle.std.specs.Prelude.{refl};
    ghost use Rattle.std.specs.Cmp.Lexicographic.{slice_cmp, nat_list_cmp_total, texts_ties};
    ghost use Rattle.std.specs.Ordering.{nat_cmp};

    ghost cmp = { slice_cmp nat_cmp };

    fn cmp(&self, other: &Text) -> Ordering {
        self.inline.cmp(&other.inline)
    }

    ghost total = { nat_list_cmp_total };

    ghost matches_partial_cmp = { λ x y. refl };

    ghost matches_eq = { texts_ties };
}

/// Whether the bytes keep the limits of a text.
fn is_text(bytes: &[u8]) -> bool
    ensures { result ≡ is_text bytes.now }
{
    if bytes.len() > LONGEST_TEXT {
        return false;
    }
    are_text_bytes(bytes)
}

/// Whether each byte may stand in a text.
fn are_text_bytes(bytes: &[u8]) -> bool
    ensures { result ≡ list_all is_text_byte bytes.now }
{
    bytes.iter().all(|byte| is_text_byte(*byte))
}

/// Whether the byte may stand in a text.
fn is_text_byte(byte: u8) -> bool
    ensures { result ≡ is_text_byte byte }
{
    byte >= 0x20 && byte <= 0x7E && byte != b'"'
}
