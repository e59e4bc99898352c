use super::*;
use grid_base::{Datum, Entries, Entry, Key, SegmentId};
use std::test::Fail;

#[test]
fn a_key_passes_once_until_its_segment_is_complete(rt: HostRuntime) -> Result<(), Fail> {
    let mut seen = Seen::new(rt.alloc())?;
    let (first, second) = (SegmentId::new(0), SegmentId::new(1));
    let key = Key::new(b"1#a")?;
    assert!(rt; seen.pass(rt.alloc(), second, &key)?);
    assert!(rt; !seen.pass(rt.alloc(), second, &key)?);
    assert!(rt; seen.passed(second, &key));
    assert!(rt; !seen.passed(first, &key));
    let mut batch = Entries::new(rt.alloc());
    batch.push(Entry {
        key,
        value: Datum::Int(1),
    })?;
    let left = seen.passing(rt.alloc(), first, &batch)?;
    assert_eq!(rt; left.len(), 1);
    let passed = seen.pass_all(rt.alloc(), first, &batch)?;
    assert_eq!(rt; passed.len(), 1);
    let again = seen.pass_all(rt.alloc(), first, &batch)?;
    assert!(rt; again.is_empty());
    let copied = seen.copy(rt.alloc())?;
    seen.completed(second);
    assert!(rt; copied.passed(second, &key));
    assert!(rt; seen.passed(first, &key));
    assert!(rt; !seen.passed(second, &key));
    Ok(())
}
