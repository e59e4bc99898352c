//! Text in place: what a key and a text are made of.

ghost use Rattle.std.specs.Prelude.{◌≡◌, ℕ, ◌+◌, ◌≤◌, true, [], ◌∷◌, length, take, drop};
ghost use Rattle.std.specs.Ordering.{nat_cmp};
ghost use Rattle.std.specs.Cmp.Lexicographic.{slice_cmp};
ghost use Rattle.grid_base.specs.Text.{is_text};
ghost use Rattle.grid_base.specs.Padded.{pad, number};

use std::cmp::Ordering;
use std::hash::{Hash, Hasher};
use std::marker::Model;

/// A text of at most 64 bytes with zeros behind it, so that eight words decide a comparison.
/// Contracts see its bytes.
#[derive(Clone, Copy, Debug)]
pub(crate) struct InlineText {
    bytes: [u8; 64],
    len: u8,
}

impl Model for InlineText {
    ghost use Rattle.std.specs.Prelude.{List, ℕ, take};

    ghost Value = { List ℕ };

    ghost use Rattle.grid_base.specs.InlineText.{IsInlineText, inside_of, inside_of-view};

    ghost view = { λ a. take a.len a.bytes };

    ghost invariant = { IsInlineText };

    ghost inverse = { inside_of };

    ghost inverse_ok = { inside_of-view };
}

impl InlineText {
    /// The text of these bytes.
    pub(crate) fn new(bytes: &[u8]) -> InlineText
        requires { is_text bytes.now ≡ true }
        ensures { result ≡ bytes.now }
    {
        InlineText {
            bytes: padded(bytes),
            len: bytes.len() as u8,
        }
    }

    /// The bytes of the text.
    pub(crate) fn bytes(&self) -> &[u8]
        ensures bytes { result.now ≡ self.now }
        ensures valid { is_text self.now ≡ true }
    {
        &self.bytes[..self.len as usize]
    }
}

impl PartialEq for InlineText {
    ghost use Rattle.std.specs.Prelude.{nat_eq};
    ghost use Rattle.std.specs.Cmp.{partial_equiv_from_equiv};
    ghost use Rattle.std.specs.Cmp.Lexicographic.{pointwise, nat_list_eq_equiv};

    ghost eq = { pointwise nat_eq };

    fn eq(&self, other: &InlineText) -> bool {
        self.cmp(other).is_eq()
    }

    ghost laws = { partial_equiv_from_equiv nat_list_eq_equiv };
}

impl Eq for InlineText {
    ghost use Rattle.std.specs.Cmp.Lexicographic.{nat_list_eq_equiv};

    ghost laws = { nat_list_eq_equiv };
}

impl PartialOrd for InlineText {
    ghost use Rattle.std.specs.Prelude.{Some};
    ghost use Rattle.std.specs.Cmp.Lexicographic.{slice_cmp, texts_po};
    ghost use Rattle.std.specs.Ordering.{nat_cmp};

    ghost partial_cmp = { λ x y. Some (slice_cmp nat_cmp x y) };

    fn partial_cmp(&self, other: &InlineText) -> Option<Ordering> {
        Some(self.cmp(other))
    }

    ghost laws = { texts_po };
}

impl Ord for InlineText {
    ghost use Rattle.std.specs.Prelude.{refl};
    ghost use Rattle.std.specs.Cmp.Lexicographic.{slice_cmp, nat_list_cmp_total, texts_ties};
    ghost use Rattle.std.specs.Ordering.{nat_cmp};

    ghost cmp = { slice_cmp nat_cmp };

    fn cmp(&self, other: &InlineText) -> Ordering {
        cmp_words(&self.bytes, &other.bytes)
    }

    ghost total = { nat_list_cmp_total };

    ghost matches_partial_cmp = { λ x y. refl };

    ghost matches_eq = { texts_ties };
}

impl Hash for InlineText {
    ghost use Rattle.std.specs.Prelude.{[], ◌∷◌};
    ghost use Rattle.std.proofs.Common.{rules};
    ghost use Rattle.std.specs.Cmp.Rules.{hashing};

    ghost hash_input = { λ text. text ∷ [] };

    fn hash<H: Hasher>(&self, state: &mut H) {
        state.write(self.bytes());
    }

    ghost respects_eq = { Prim.search (hashing, rules) };
}

/// The bytes with zeros behind them.
fn padded(bytes: &[u8]) -> [u8; 64]
    requires { length bytes.now ≤ 64 }
    ensures { result ≡ pad 64 bytes.now }
{
    let mut held = [0; 64];
    for i in 0..bytes.len() {
        held[i] = bytes[i];
    }
    held
}

/// The number that the eight bytes from `at` on spell, the highest byte first.
fn word(bytes: &[u8; 64], at: usize) -> u64
    requires { at + 8 ≤ 64 }
    ensures { result ≡ number (take 8 (drop at bytes.now)) }
{
    u64::from_be_bytes([
        bytes[at],
        bytes[at + 1],
        bytes[at + 2],
        bytes[at + 3],
        bytes[at + 4],
        bytes[at + 5],
        bytes[at + 6],
        bytes[at + 7],
    ])
}

/// How the bytes compare, by eight words.
fn cmp_words(a: &[u8; 64], b: &[u8; 64]) -> Ordering
    ensures { result ≡ slice_cmp nat_cmp a.now b.now }
{
    for i in 0..8usize {
        let left = word(a, 8 * i);
        let right = word(b, 8 * i);
        if left != right {
            return left.cmp(&right);
        }
    }
    Ordering::Equal
}
