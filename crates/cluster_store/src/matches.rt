//! Whether what an event says is what the store would say.

ghost use Rattle.std.specs.Prelude.{◌≡◌, ◌==◌};
ghost use Rattle.std.specs.Cmp.Lexicographic.{pointwise};
ghost use Rattle.grid_base.specs.Datum.{same_datum};
ghost use Rattle.cluster_model.specs.Same.{same_chunk, same_option, same_stamped};
ghost use Rattle.cluster_model.specs.Writes.{is_deadline, is_of_kind};

use grid_base::limits::LONGEST_LIFESPAN;
use grid_base::{Chunk, Datum, StampedEntry};
use grid_event::ValueKind;

/// Whether the value has the kind.
pub(crate) fn is_of_kind(kind: ValueKind, value: &Datum) -> bool
    ensures { result ≡ is_of_kind kind value.now }
{
    match value {
        Datum::Int(_) => matches!(kind, ValueKind::Int),
        Datum::Text(_) => matches!(kind, ValueKind::Text),
        Datum::Flag(_) => matches!(kind, ValueKind::Flag),
    }
}

/// Whether the deadline is none, or above the clock and not too far above it.
pub(crate) fn is_deadline(clock: u32, until: Option<u32>) -> bool
    ensures { result ≡ is_deadline clock until }
{
    match until {
        None => true,
        Some(until) => clock < until && until - clock <= LONGEST_LIFESPAN,
    }
}

/// Whether two chunks have the same entries in the same order, and both or neither are the last.
pub(crate) fn same_chunk(a: &Chunk, b: &Chunk) -> bool
    ensures { result ≡ same_chunk a.now b.now }
{
    if !same_entries(a.entries.as_slice(), b.entries.as_slice()) {
        return false;
    }
    a.last == b.last
}

/// Whether two lists have the same entries in the same order.
fn same_entries(a: &[StampedEntry], b: &[StampedEntry]) -> bool
    ensures { result ≡ pointwise same_stamped a.now b.now }
{
    match a {
        [] => b.is_empty(),
        [first, rest @ ..] => match b {
            [] => false,
            [other, others @ ..] => {
                if !same_stamped(first, other) {
                    return false;
                }
                same_entries(rest, others)
            }
        },
    }
}

/// Whether two entries have the same key, value and deadline.
fn same_stamped(a: &StampedEntry, b: &StampedEntry) -> bool
    ensures { result ≡ same_stamped a.now b.now }
{
    if a.key != b.key {
        return false;
    }
    if !same_datum(&a.stamped.value, &b.stamped.value) {
        return false;
    }
    same_deadline(a.stamped.until, b.stamped.until)
}

/// Whether two values are of one kind and equal.
fn same_datum(a: &Datum, b: &Datum) -> bool
    ensures { result ≡ same_datum a.now b.now }
{
    match (a, b) {
        (Datum::Int(a), Datum::Int(b)) => *a == *b,
        (Datum::Text(a), Datum::Text(b)) => *a == *b,
        (Datum::Flag(a), Datum::Flag(b)) => *a == *b,
        _ => false,
    }
}

/// Whether two deadlines are the same.
fn same_deadline(a: Option<u32>, b: Option<u32>) -> bool
    ensures { result ≡ same_option (λ m n. m == n) a b }
{
    match (a, b) {
        (None, None) => true,
        (Some(a), Some(b)) => a == b,
        _ => false,
    }
}
