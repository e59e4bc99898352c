//! The hash of bytes.

ghost use Rattle.std.specs.Prelude.{◌≡◌};
ghost use Rattle.segment_hash.specs.Hash.{fnv1a_of};

/// The hash begins here, where there is no byte yet.
const OFFSET_BASIS: u32 = 0x811C_9DC5;

/// What the hash is multiplied by after each byte.
const PRIME: u32 = 0x0100_0193;

/// The hash FNV-1a of 32 bits, by Glenn Fowler, Landon Curt Noll and Kiem-Phong Vo, with the
/// constants that they published.
#[tactic(auto, unfolding(crate::specs::Hash::fnv1a_of))]
pub fn fnv1a(bytes: &[u8]) -> u32
    ensures { result ≡ fnv1a_of bytes.now }
{
    bytes.iter().fold(OFFSET_BASIS, |hash, byte| {
        (hash ^ u32::from(*byte)).wrapping_mul(PRIME)
    })
}
