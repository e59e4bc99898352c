//! Partial results that join to one.

ghost use Rattle.std.specs.Prelude.{◌≡◌, true, IfOk, OnOk, OnErr};

use crate::no_memory::NoMemory;
use std::alloc::Global;

/// A partial result. Parts that fit each other join to one part: in whichever groups they are
/// joined the outcome is the same, as long as their order is kept, and the empty part changes
/// nothing.
///
/// Clauses speak of `plain` parts: what a part is where the spare places of its lists don't count.
pub trait Part: Drop + Sized {
    ghost use Rattle.std.specs.Prelude.{Bool};

    ghost plain: { Self → Self };

    ghost fitting: { Self → Self → Bool };

    ghost joined: { Self → Self → Self };

    ghost nothing: { Self };

    /// The part of nothing. It takes no memory.
    fn empty() -> Self
        ensures { plain result ≡ nothing };

    /// Whether the two parts may be joined.
    fn fits(&self, other: &Self) -> bool
        ensures { result ≡ fitting (plain self.now) (plain other.now) };

    /// Puts `other` behind this part. The only failure is that memory runs out; then `other` is
    /// gone.
    fn join(&mut self, other: Self) -> Result<(), NoMemory>
        requires { fitting (plain self.old) (plain other) ≡ true }
        ensures ok { OnOk result (plain self.new ≡ joined (plain self.old) (plain other)) }
        ensures err { OnErr result (plain self.new ≡ plain self.old) };

    /// An equal part. The only failure is that memory runs out.
    fn copy(&self, alloc: Global) -> Result<Self, NoMemory>
        ensures { IfOk result (λ copy. plain copy ≡ plain self.now) };

    // The empty part fits each part on both sides, and changes none.
    ghost left_fits: { (a : Self) → fitting nothing (plain a) ≡ true };

    ghost right_fits: { (a : Self) → fitting (plain a) nothing ≡ true };

    ghost left_unit: { (a : Self) → joined nothing (plain a) ≡ plain a };

    ghost right_unit: { (a : Self) → joined (plain a) nothing ≡ plain a };

    // Where a part fits a second and their join fits a third, the second fits the third and the
    // first fits the join of those two; and the same from behind.
    ghost fits_front: { (a b c : Self) → fitting a b ≡ true → fitting (joined a b) c ≡ true → (fitting b c ≡ true) × (fitting a (joined b c) ≡ true) };

    ghost fits_behind: { (a b c : Self) → fitting b c ≡ true → fitting a (joined b c) ≡ true → (fitting a b ≡ true) × (fitting (joined a b) c ≡ true) };

    // It doesn't matter which two are joined first.
    ghost associates: { (a b c : Self) → fitting a b ≡ true → fitting (joined a b) c ≡ true → joined (joined a b) c ≡ joined a (joined b c) };
}
