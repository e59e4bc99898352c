use super::*;
use grid_base::{Batch, CallId, Datum, Entries, Entry, Key, NodeId, SegmentId, TopologyId, UnitId};
use std::test::Fail;

#[test]
fn a_unit_goes_through_its_stages(rt: HostRuntime) -> Result<(), Fail> {
    let mut entries = Entries::new(rt.alloc());
    entries.push(Entry {
        key: Key::new(b"1#a")?,
        value: Datum::Int(1),
    })?;
    let mut unit = Unit::asked(
        rt.alloc(),
        UnitId::new(2),
        CallId::new(1),
        SegmentId::new(1),
        NodeId::new(0),
        TopologyId::new(1),
    );
    unit.begin(true, TopologyId::new(1));
    unit.scan(Batch {
        entries,
        last: true,
    })?;
    assert_eq!(rt; unit.entries.len(), 1);
    assert!(rt; unit.last);
    let copied = unit.copy(rt.alloc())?;
    assert_eq!(rt; copied.state, UnitState::Running);
    assert!(rt; copied.state.is_open());
    let mut lost = copied;
    lost.mark_lost(Some(TopologyId::new(4)));
    assert_eq!(rt; lost.state, UnitState::Lost(Some(TopologyId::new(4))));
    assert!(rt; !lost.state.is_open());
    unit.done();
    assert_eq!(rt; unit.state, UnitState::Ended);
    Ok(())
}
