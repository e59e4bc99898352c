use super::*;
use grid_base::{Key, SegmentId};
use std::test::Fail;

#[test]
fn hashes_and_segments_are_the_published_ones(rt: HostRuntime) -> Result<(), Fail> {
    let hashes: [(&[u8], u32); 4] = [
        (b"", 0x811C_9DC5),
        (b"a", 0xE40C_292C),
        (b"b", 0xE70C_2DE5),
        (b"foobar", 0xBF9C_F968),
    ];
    for (bytes, hash) in hashes {
        assert_eq!(rt; fnv1a(bytes), hash);
    }
    let rows: [(&[u8], Partition, Option<u16>); 9] = [
        (b"a", Partition::Plain, Some(3)),
        (b"b", Partition::Plain, Some(3)),
        (b"foobar", Partition::Plain, Some(1)),
        (b"6#x", Partition::Grouped, Some(2)),
        (b"7#", Partition::Grouped, Some(3)),
        (b"x", Partition::Grouped, None),
        (b"#x", Partition::Grouped, None),
        (b"1234567890#x", Partition::Grouped, None),
        (b"123456789", Partition::Grouped, None),
    ];
    for (bytes, partition, segment) in rows {
        let key = Key::new(bytes)?;
        let found = segment_of(&key, partition, 4);
        assert_eq!(rt; found, segment.map(SegmentId::new));
    }
    Ok(())
}

#[test]
fn sets_find_their_next_segment(rt: HostRuntime) {
    let mut set = SegmentSet::new();
    set.add(SegmentId::new(3));
    set.add(SegmentId::new(255));
    set.add(SegmentId::new(9));
    set.remove(SegmentId::new(9));
    let rows = [(0, Some(3)), (3, Some(3)), (4, Some(255)), (255, Some(255))];
    for (from, next) in rows {
        let found = set.next_from(SegmentId::new(from));
        assert_eq!(rt; found, next.map(SegmentId::new));
    }
    assert!(rt; set.has(SegmentId::new(255)));
    assert!(rt; !set.has(SegmentId::new(9)));
}
