//! Sets of segments.

ghost use Rattle.std.specs.Prelude.{◌≡◌, ℕ, ◌<◌, ◌≤◌, ◌↔◌, false, true, IsNone, IfSome, IfNone, if◌then◌else◌};
ghost use Rattle.std.specs.FinSet as set;
ghost use Rattle.std.specs.Int.{bit_at};

use grid_base::SegmentId;
use std::marker::Model;

/// A set of segments, whose numbers are 0 to 255. It lies in a fixed place and takes no memory.
#[derive(Debug, Drop)]
pub struct SegmentSet {
    // Bit `n % 64` of `words[n / 64]` says whether segment `n` is in the set.
    words: [u64; 4],
}

impl Model for SegmentSet {
    ghost use Rattle.std.specs.Prelude.{◌≡◌, length};
    ghost use Rattle.std.specs.Ordering.{nat_cmp};
    ghost use Rattle.std.specs.FinSet as set;
    ghost use Rattle.std.specs.Coded.{coded_ℕ};
    ghost use Rattle.segment_hash.specs.Members.{members};

    ghost Value = { set.FinSet nat_cmp };

    ghost coded = { set.code coded_ℕ };

    ghost view = { λ a. members a.words };

    ghost invariant = { λ a. length a.words ≡ 4 };
}

impl SegmentSet {
    /// The empty set.
    pub fn new() -> SegmentSet
        ensures { result ≡ set.empty }
    {
        SegmentSet { words: [0; 4] }
    }

    /// Puts `segment`, which is below 256, into the set, where it isn't there yet.
    pub fn add(&mut self, segment: SegmentId)
        requires { segment < 256 }
        ensures { self.new ≡ set.insert self.old segment }
    {
        let number = usize::from(segment.number());
        self.words[number / 64] |= 1 << (number % 64);
    }

    /// Takes `segment`, which is below 256, out of the set, where it is there.
    pub fn remove(&mut self, segment: SegmentId)
        requires { segment < 256 }
        ensures { self.new ≡ set.remove self.old segment }
    {
        let number = usize::from(segment.number());
        self.words[number / 64] &= !(1 << (number % 64));
    }

    /// Whether `segment`, which is below 256, is in the set.
    pub fn has(&self, segment: SegmentId) -> bool
        requires { segment < 256 }
        ensures { result ≡ set.contains self.now segment }
    {
        let number = usize::from(segment.number());
        self.words[number / 64] >> (number % 64) & 1 == 1
    }

    /// The least segment of the set that isn't below `segment`, which is below 256 itself. None
    /// comes exactly where there is no such segment.
    pub fn next_from(&self, segment: SegmentId) -> Option<SegmentId>
        requires { segment < 256 }
        ensures member { IfSome result (λ s. set.contains self.now s ≡ true) }
        ensures from { IfSome result (λ s. segment ≤ s) }
        ensures within { IfSome result (λ s. s < 256) }
        ensures least { IfSome result (λ s. (k : ℕ) → segment ≤ k → k < s → set.contains self.now k ≡ false) }
        ensures none { IsNone result ↔ ((k : ℕ) → segment ≤ k → set.contains self.now k ≡ false) }
        ensures bounded { (k : ℕ) → 256 ≤ k → set.contains self.now k ≡ false }
    {
        let mut first = segment.number() % 64;
        for place in segment.number() / 64..4 {
            if let Some(bit) = next_bit(self.words[usize::from(place)], first) {
                return Some(SegmentId::new(place * 64 + bit));
            }
            first = 0;
        }
        None
    }
}

/// The least bit of `word` that is set and isn't below `first`.
fn next_bit(word: u64, first: u16) -> Option<u16>
    requires { first < 64 }
    ensures within { IfSome result (λ bit. bit < 64) }
    ensures from { IfSome result (λ bit. first ≤ bit) }
    ensures set { IfSome result (λ bit. bit_at word bit ≡ 1) }
    ensures least { IfSome result (λ bit. (i : ℕ) → first ≤ i → i < bit → bit_at word i ≡ 0) }
    ensures none { IfNone result ((i : ℕ) → first ≤ i → i < 64 → bit_at word i ≡ 0) }
{
    let rest = word & (u64::MAX << first);
    if rest == 0 {
        return None;
    }
    Some(rest.trailing_zeros() as u16)
}
