//! Equality of values that hold expressions, and of their lists.

ghost use Rattle.std.specs.Prelude.{◌≡◌, IsTrue, ◌↔◌};

/// A type with a test of equality.
pub(crate) trait Alike {
    /// Whether the values are equal.
    fn same(&self, other: &Self) -> bool
        ensures { IsTrue result ↔ (self.now ≡ other.now) };
}

/// Whether two lists are equal.
pub(crate) fn same_list<T: Alike>(a: &[T], b: &[T]) -> bool
    ensures { IsTrue result ↔ (a.now ≡ b.now) }
{
    if a.len() != b.len() {
        return false;
    }
    for place in 0..a.len() {
        if !a[place].same(&b[place]) {
            return false;
        }
    }
    true
}
