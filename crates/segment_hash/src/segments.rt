//! The segment that a key belongs to.

ghost use Rattle.std.specs.Prelude.{◌≡◌, ℕ, ◌+◌, ◌*◌, ◌<◌, ◌≤◌, ◌^◌, true, not, length, take, slice_index, EachIndex, IfSome};
ghost use Rattle.std.specs.List.{position};
ghost use Rattle.segment_hash.specs.Segments.{segment_number, plain_segment, group_of, decimal, is_digit};

use crate::hash::fnv1a;
use crate::partition::Partition;
use grid_base::{Key, SegmentId};

/// The longest number of a group, in digits.
const MOST_DIGITS: usize = 9;

/// The segment of `key` among `segments` segments, which are 1 to 256. None comes exactly where
/// keys are grouped and this one names no group.
#[tactic(auto, using(crate::proofs::SegmentLaws::plain_below), unfolding(crate::specs::Segments::segment_number))]
pub fn segment_of(key: &Key, partition: Partition, segments: u16) -> Option<SegmentId>
    requires some { 0 < segments }
    requires within { segments ≤ 256 }
    ensures segment { result ≡ segment_number partition segments key.now }
    ensures below { IfSome result (λ s. s < segments) }
{
    match partition {
        Partition::Plain => Some(SegmentId::new(range_of(fnv1a(key.bytes()), segments))),
        Partition::Grouped => match group(key.bytes()) {
            Some(number) => Some(SegmentId::new((number % u32::from(segments)) as u16)),
            None => None,
        },
    }
}

/// The segment in whose range `hash` falls.
#[tactic(auto, using(crate::proofs::SegmentLaws::plain_below))]
fn range_of(hash: u32, segments: u16) -> u16
    requires some { 0 < segments }
    requires within { segments ≤ 256 }
    ensures range { result ≡ plain_segment segments hash }
    ensures below { result < segments }
{
    let segments = u32::from(segments);
    let length = (0x8000_0000 + (segments - 1)) / segments;
    ((hash & 0x7FFF_FFFF) / length) as u16
}

/// The group that `key` names, where it names one.
fn group(key: &[u8]) -> Option<u32>
    ensures { result ≡ group_of key.now }
{
    let digits = digits_in_front(key)?;
    if digits < 1 {
        return None;
    }
    if MOST_DIGITS < digits {
        return None;
    }
    if key[digits] != b'#' {
        return None;
    }
    Some(number(&key[..digits]))
}

/// How many digits stand before the first byte that is none, where there is such a byte.
fn digits_in_front(key: &[u8]) -> Option<usize>
    ensures { result ≡ position (λ byte. not (is_digit byte)) key.now }
{
    key.iter().position(|byte| !is_digit(*byte))
}

/// Whether the byte is one of 0 to 9.
fn is_digit(byte: u8) -> bool
    ensures { result ≡ is_digit byte }
{
    byte >= b'0' && byte <= b'9'
}

/// The number that `digits` write.
fn number(digits: &[u8]) -> u32
    requires few { length digits.now ≤ 9 }
    requires digits { EachIndex digits.now (λ k. is_digit (slice_index digits.now k) ≡ true) }
    ensures { result ≡ decimal digits.now }
{
    let mut number: u32 = 0;
    for digit in digits {
        number = number * 10 + u32::from(*digit - b'0');
    }
    number
}
