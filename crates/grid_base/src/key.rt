//! Keys of the grid's entries.

ghost use Rattle.std.specs.Prelude.{◌≡◌, ℕ, true, false, ◌↔◌, IfOk, IsErrOf};
ghost use Rattle.std.specs.List.{list_all};
ghost use Rattle.grid_base.specs.Key.{is_key, is_key_byte};
ghost use Rattle.grid_base.specs.Text.{is_text};

use crate::duplicate::Duplicate;
use crate::inline_text::InlineText;
use crate::key_fault::KeyFault;
use crate::limits::LONGEST_KEY;
use crate::no_memory::NoMemory;
use std::alloc::Global;
use std::marker::Model;

/// The key of an entry: 1 to 64 bytes of printable ASCII, without blank and double quote.
/// Contracts see its bytes, and keys are ordered by them.
#[derive(Clone, Copy, Debug, PartialEq, Eq, PartialOrd, Ord, Hash)]
pub struct Key {
    text: InlineText,
}

impl Model for Key {
    ghost use Rattle.std.specs.Prelude.{◌≡◌, List, ℕ, true};
    ghost use Rattle.grid_base.specs.Key.{is_key};

    ghost Value = { List ℕ };

    ghost view = { λ key. key.text };

    ghost invariant = { λ key. is_key key.text ≡ true };

    ghost inverse = { λ bytes. record { text = bytes } };
}

impl Key {
    /// The key of these bytes. It is `Bad` exactly where they break the limits of a key; no memory
    /// is taken.
    #[tactic(auto, using(crate::proofs::Order::key_is_text))]
    pub fn new(bytes: &[u8]) -> Result<Key, KeyFault>
        ensures ok { IfOk result (λ key. key ≡ bytes.now) }
        ensures valid { IfOk result (λ _. is_key bytes.now ≡ true) }
        ensures bad { IsErrOf result KeyFault.Bad ↔ (is_key bytes.now ≡ false) }
        ensures spared { IsErrOf result KeyFault.NoMemory → false ≡ true }
    {
        if !is_key(bytes) {
            return Err(KeyFault::Bad);
        }
        Ok(Key {
            text: InlineText::new(bytes),
        })
    }

    /// The bytes of the key.
    pub fn bytes(&self) -> &[u8]
        ensures bytes { result.now ≡ self.now }
        ensures valid { is_key self.now ≡ true }
    {
        self.text.bytes()
    }
}

impl Duplicate for Key {
    fn copy(&self, _alloc: Global) -> Result<Key, NoMemory> {
        Ok(*self)
    }
}

/// Whether the bytes keep the limits of a key.
fn is_key(bytes: &[u8]) -> bool
    ensures { result ≡ is_key bytes.now }
{
    if bytes.is_empty() || bytes.len() > LONGEST_KEY {
        return false;
    }
    are_key_bytes(bytes)
}

/// Whether each byte may stand in a key.
fn are_key_bytes(bytes: &[u8]) -> bool
    ensures { result ≡ list_all is_key_byte bytes.now }
{
    bytes.iter().all(|byte| is_key_byte(*byte))
}

/// Whether the byte may stand in a key.
fn is_key_byte(byte: u8) -> bool
    ensures { result ≡ is_key_byte byte }
{
    byte >= 0x21 && byte <= 0x7E && byte != b'"'
}
