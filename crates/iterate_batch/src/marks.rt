//! Marks of segments that are complete.

ghost use Rattle.std.specs.Prelude.{◌≡◌, ◌<◌, ◌^◌, false, not, length, replicate, IfOk, IfSome};
ghost use Rattle.std.specs.List.{position};

use grid_base::{NoMemory, SegmentId};
use std::alloc::Global;

/// So many marks that aren't set.
pub fn unmarked(alloc: Global, segments: usize) -> Result<Vec<bool>, NoMemory>
    ensures { IfOk result (λ marks. marks.items ≡ replicate segments false) }
{
    let marks = Vec::from_elem(alloc, false, segments)?;
    Ok(marks)
}

/// The least segment whose mark isn't set.
pub fn least_unmarked(marks: &[bool]) -> Option<SegmentId>
    requires { length marks.now < 2 ^ 16 }
    ensures { result ≡ position not marks.now }
{
    let Some(place) = first_unmarked(marks) else {
        return None;
    };
    Some(SegmentId::new(place as u16))
}

/// The first place whose mark isn't set.
fn first_unmarked(marks: &[bool]) -> Option<usize>
    ensures place { result ≡ position not marks.now }
    ensures within { IfSome result (λ place. place < length marks.now) }
{
    marks.iter().position(|mark| !*mark)
}
