//! What the ends of pipelines answer.

ghost use Rattle.std.specs.Prelude.{◌≡◌, IfOk, Some};
ghost use Rattle.std.specs.Option.{option_copied};
ghost use Rattle.pipeline_eval.specs.Lists.{greater, greatest, least, lesser, total};
ghost use Rattle.pipeline_eval.specs.Pipes.{end_answer};
ghost use Rattle.pipeline_eval.specs.Values.{wrapped};

use crate::values::{added, compared, datum};
use grid_base::{Datum, Item, NoMemory};
use pipeline_expr::{Answer, End};
use sqlite_items::Items;
use std::alloc::Global;

/// What an end answers of a list. The only failure is that memory runs out; the list is gone then.
pub fn answer_of(alloc: Global, end: End, items: Vec<Item>) -> Result<Answer, NoMemory>
    ensures { IfOk result (λ answer. answer ≡ end_answer end items.items) }
{
    match end {
        End::Count => Ok(Answer::Count(items.len() as u64)),
        End::Sum => Ok(Answer::Sum(sum(&items))),
        End::Min => Ok(Answer::Best(copied(alloc, least(&items))?)),
        End::Max => Ok(Answer::Best(copied(alloc, greatest(&items))?)),
        End::Collect | End::Each => Ok(Answer::List(Items::from_vec(items))),
    }
}

/// The sum of all numbers of a list, modulo 2^64; 0 where there is none. It takes no memory.
pub fn sum(items: &[Item]) -> i64
    ensures { result ≡ wrapped (total items.now) }
{
    let mut sum = 0i64;
    for item in items {
        sum = added(sum, datum(item));
    }
    sum
}

/// The least value of a list, where there is one. It takes no memory.
pub fn least(items: &[Item]) -> Option<&Datum>
    ensures { option_copied result ≡ least items.now }
{
    let mut best = None;
    for item in items {
        best = Some(lesser(best, datum(item)));
    }
    best
}

/// The greatest value of a list, where there is one. It takes no memory.
pub fn greatest(items: &[Item]) -> Option<&Datum>
    ensures { option_copied result ≡ greatest items.now }
{
    let mut best = None;
    for item in items {
        best = Some(greater(best, datum(item)));
    }
    best
}

/// The lesser of the best so far, if there is one, and a further value.
fn lesser<'a>(best: Option<&'a Datum>, more: &'a Datum) -> &'a Datum
    ensures { Some result.now ≡ lesser (option_copied best.entry) (Some more.now) }
{
    match best {
        Some(best) if !compared(more, best).is_lt() => best,
        _ => more,
    }
}

/// The greater of the best so far, if there is one, and a further value.
fn greater<'a>(best: Option<&'a Datum>, more: &'a Datum) -> &'a Datum
    ensures { Some result.now ≡ greater (option_copied best.entry) (Some more.now) }
{
    match best {
        Some(best) if compared(more, best).is_lt() => best,
        _ => more,
    }
}

/// A copy of a value, where there is one.
fn copied(alloc: Global, best: Option<&Datum>) -> Result<Option<Datum>, NoMemory>
    ensures { IfOk result (λ copy. copy ≡ option_copied best.entry) }
{
    match best {
        Some(best) => Ok(Some(best.copy(alloc)?)),
        None => Ok(None),
    }
}
