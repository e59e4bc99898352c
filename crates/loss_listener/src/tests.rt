use super::*;
use grid_base::{NodeId, SegmentId, UnitId};
use segment_hash::SegmentSet;
use std::test::Fail;

#[test]
fn the_units_of_lost_segments_are_listed(rt: HostRuntime) -> Result<(), Fail> {
    let mut listeners = Listeners::new(rt.alloc())?;
    let (node, other) = (NodeId::new(0), NodeId::new(1));
    let (first, second) = (SegmentId::new(0), SegmentId::new(255));
    listeners.register(rt.alloc(), UnitId::new(2), node, second)?;
    assert!(rt; listeners.at(node, second).is_some());
    assert!(rt; listeners.at(node, first).is_none());
    let mut segments = SegmentSet::new();
    segments.add(second);
    let lost = listeners.lost(rt.alloc(), node, &segments)?;
    assert_eq!(rt; lost.as_slice(), [UnitId::new(2)].as_slice());
    let elsewhere = listeners.lost(rt.alloc(), other, &segments)?;
    assert!(rt; elsewhere.is_empty());
    let copied = listeners.copy(rt.alloc())?;
    listeners.end(UnitId::new(2));
    assert!(rt; copied.at(node, second).is_some());
    assert!(rt; listeners.at(node, second).is_none());
    Ok(())
}
