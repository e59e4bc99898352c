//! Whether what an event says is what the core would say.

ghost use Rattle.std.specs.Prelude.{◌≡◌};
ghost use Rattle.grid_base.specs.Datum.{same_datum, same_entry, same_item};
ghost use Rattle.cluster_model.specs.Same.{same_answer, same_ask, same_asks, same_batch, same_entries, same_items, same_option, same_outcome};

use grid_base::{Batch, Datum, Entry, Item};
use grid_event::{Answer, Ask, Outcome};

/// Whether two values are of one kind and equal.
fn same_datum(a: &Datum, b: &Datum) -> bool
    ensures { result ≡ same_datum a.now b.now }
{
    match (a, b) {
        (Datum::Int(a), Datum::Int(b)) => *a == *b,
        (Datum::Text(a), Datum::Text(b)) => *a == *b,
        (Datum::Flag(a), Datum::Flag(b)) => *a == *b,
        _ => false,
    }
}

/// Whether two entries have one key and one value.
fn same_entry(a: &Entry, b: &Entry) -> bool
    ensures { result ≡ same_entry a.now b.now }
{
    if a.key != b.key {
        return false;
    }
    same_datum(&a.value, &b.value)
}

/// Whether two items are entries that are the same, or values that are.
fn same_item(a: &Item, b: &Item) -> bool
    ensures { result ≡ same_item a.now b.now }
{
    match (a, b) {
        (Item::Entry(a), Item::Entry(b)) => same_entry(a, b),
        (Item::Datum(a), Item::Datum(b)) => same_datum(a, b),
        _ => false,
    }
}

/// Whether two lists have the same entries in the same order.
pub(crate) fn same_entries(a: &[Entry], b: &[Entry]) -> bool
    ensures { result ≡ same_entries a.now b.now }
{
    match a {
        [] => b.is_empty(),
        [first, rest @ ..] => match b {
            [] => false,
            [other, others @ ..] => {
                if !same_entry(first, other) {
                    return false;
                }
                same_entries(rest, others)
            }
        },
    }
}

/// Whether two lists have the same items in the same order.
pub(crate) fn same_items(a: &[Item], b: &[Item]) -> bool
    ensures { result ≡ same_items a.now b.now }
{
    match a {
        [] => b.is_empty(),
        [first, rest @ ..] => match b {
            [] => false,
            [other, others @ ..] => {
                if !same_item(first, other) {
                    return false;
                }
                same_items(rest, others)
            }
        },
    }
}

/// Whether two batches have the same entries in the same order, and both or neither are the last.
pub(crate) fn same_batch(a: &Batch, b: &Batch) -> bool
    ensures { result ≡ same_batch a.now b.now }
{
    if !same_entries(a.entries.as_slice(), b.entries.as_slice()) {
        return false;
    }
    a.last == b.last
}

/// Whether two asks have one unit, one segment and one node.
fn same_ask(a: &Ask, b: &Ask) -> bool
    ensures { result ≡ same_ask a.now b.now }
{
    if a.unit != b.unit {
        return false;
    }
    if a.segment != b.segment {
        return false;
    }
    a.node == b.node
}

/// Whether two lists have the same asks in the same order.
pub(crate) fn same_asks(a: &[Ask], b: &[Ask]) -> bool
    ensures { result ≡ same_asks a.now b.now }
{
    match a {
        [] => b.is_empty(),
        [first, rest @ ..] => match b {
            [] => false,
            [other, others @ ..] => {
                if !same_ask(first, other) {
                    return false;
                }
                same_asks(rest, others)
            }
        },
    }
}

/// Whether two outcomes are the same.
#[tactic(auto, unfolding(cluster_model::specs::Same::same_outcome))]
pub(crate) fn same_outcome(a: &Outcome, b: &Outcome) -> bool
    ensures { result ≡ same_outcome a.now b.now }
{
    match (a, b) {
        (Outcome::Value(a), Outcome::Value(b)) => same_answer(a, b),
        (Outcome::Ended, Outcome::Ended) => true,
        (
            Outcome::Again { rounds, suspect },
            Outcome::Again {
                rounds: others,
                suspect: other,
            },
        ) => {
            if *rounds != *others {
                return false;
            }
            *suspect == *other
        }
        (Outcome::SegmentLost(a), Outcome::SegmentLost(b)) => *a == *b,
        (Outcome::OriginatorLeft, Outcome::OriginatorLeft) => true,
        _ => false,
    }
}

/// Whether two answers are the same.
fn same_answer(a: &Answer, b: &Answer) -> bool
    ensures { result ≡ same_answer a.now b.now }
{
    match (a, b) {
        (Answer::Count(a), Answer::Count(b)) => *a == *b,
        (Answer::Sum(a), Answer::Sum(b)) => *a == *b,
        (Answer::Best(a), Answer::Best(b)) => same_best(a, b),
        (Answer::List(a), Answer::List(b)) => same_items(a.as_slice(), b.as_slice()),
        _ => false,
    }
}

/// Whether both are none, or both are the same value.
fn same_best(a: &Option<Datum>, b: &Option<Datum>) -> bool
    ensures { result ≡ same_option same_datum a.now b.now }
{
    match (a, b) {
        (None, None) => true,
        (Some(a), Some(b)) => same_datum(a, b),
        _ => false,
    }
}
