mod ends;

use super::*;
use ends::Ends;
use grid_base::{NoMemory, SegmentId};
use std::alloc::Global;
use std::test::Fail;

/// The outcome. All these parts fit.
fn outcome(alloc: Global, reduction: &Reduction<Ends>) -> Result<Ends, NoMemory> {
    reduction.outcome(alloc)
}

/// For the second of two segments the steps 3 and then 4 are booked, and then 2 for the first.
fn booked(alloc: Global) -> Result<Reduction<Ends>, NoMemory> {
    let mut reduction = Reduction::new(alloc, 2)?;
    let (first, second) = (SegmentId::new(0), SegmentId::new(1));
    reduction.book(second, Ends::of(3))?;
    reduction.book(second, Ends::of(4))?;
    reduction.book(first, Ends::of(2))?;
    Ok(reduction)
}

#[test]
fn parts_join_in_the_order_of_booking_and_segments_ascending(rt: HostRuntime) -> Result<(), Fail> {
    let reduction = booked(rt.alloc())?;
    assert_eq!(rt; outcome(rt.alloc(), &reduction)?, Ends::between(2, 4));
    Ok(())
}

#[test]
fn a_part_is_booked_joined_and_placed(rt: HostRuntime) -> Result<(), Fail> {
    let mut reduction = Reduction::new(rt.alloc(), 1)?;
    let segment = SegmentId::new(0);
    assert!(rt; reduction.booked(segment).is_none());
    reduction.book(segment, Ends::of(1))?;
    assert_eq!(rt; outcome(rt.alloc(), &reduction)?, Ends::of(1));
    let joined = reduction.joined(rt.alloc(), segment, Ends::of(5))?;
    assert_eq!(rt; joined, Ends::between(1, 5));
    assert_eq!(rt; outcome(rt.alloc(), &reduction)?, Ends::of(1));
    reduction.place(segment, joined);
    assert_eq!(rt; outcome(rt.alloc(), &reduction)?, Ends::between(1, 5));
    Ok(())
}

#[test]
fn the_least_incomplete_segment_is_missing(rt: HostRuntime) -> Result<(), Fail> {
    let mut reduction: Reduction<Ends> = Reduction::new(rt.alloc(), 2)?;
    let (first, second) = (SegmentId::new(0), SegmentId::new(1));
    assert_eq!(rt; reduction.missing(), Some(first));
    reduction.complete(first);
    let copied = reduction.copy(rt.alloc())?;
    reduction.complete(second);
    assert_eq!(rt; reduction.missing(), None);
    assert_eq!(rt; copied.missing(), Some(second));
    Ok(())
}
