//! What is booked for the segments, as one place a segment.

ghost use Rattle.std.specs.Prelude.{◌≡◌, ◌<◌, ◌^◌, true, false, not, length, replicate, IfOk, IfSome, OnOk, OnErr, None, Some, unwrap_or};
ghost use Rattle.std.specs.List.{filter_map, fold, position};
ghost use Rattle.std.specs.Option.{option_map};
ghost use Rattle.reduce_cluster.specs.Reduced.{all_fit};
ghost use Rattle.reduce_cluster.specs.Shares.{plain_shares};

use grid_base::{NoMemory, Part, SegmentId};
use std::alloc::Global;

/// So many places without a part.
pub fn vacant<P: Part>(alloc: Global, segments: usize) -> Result<Vec<Option<P>>, NoMemory>
    ensures { IfOk result (λ shares. shares.items ≡ replicate segments None) }
{
    let mut shares = Vec::with_capacity(alloc, segments)?;
    for _ in 0..segments {
        shares.push(None)?;
    }
    Ok(shares)
}

/// So many marks that aren't set.
pub fn unmarked(alloc: Global, segments: usize) -> Result<Vec<bool>, NoMemory>
    ensures { IfOk result (λ marks. marks.items ≡ replicate segments false) }
{
    let marks = Vec::from_elem(alloc, false, segments)?;
    Ok(marks)
}

/// The least segment whose mark isn't set.
pub fn least_unmarked(marks: &[bool]) -> Option<SegmentId>
    requires { length marks.now < 2 ^ 16 }
    ensures { result ≡ position not marks.now }
{
    let Some(place) = first_unmarked(marks) else {
        return None;
    };
    Some(SegmentId::new(place as u16))
}

/// The first place whose mark isn't set.
fn first_unmarked(marks: &[bool]) -> Option<usize>
    ensures place { result ≡ position not marks.now }
    ensures within { IfSome result (λ place. place < length marks.now) }
{
    marks.iter().position(|mark| !*mark)
}

/// Puts a part that fits behind a share, where there is one. The only failure is that memory runs
/// out, and then the share is as it was.
pub fn put_behind<P: Part>(share: &mut Option<P>, part: P) -> Result<(), NoMemory>
    requires { P.fitting (unwrap_or (option_map P.plain share.old) P.nothing) (P.plain part) ≡ true }
    ensures ok { OnOk result (option_map P.plain share.new ≡ Some (P.joined (unwrap_or (option_map P.plain share.old) P.nothing) (P.plain part))) }
    ensures err { OnErr result (option_map P.plain share.new ≡ option_map P.plain share.old) }
{
    match share {
        Some(before) => before.join(part),
        none => {
            *none = Some(part);
            Ok(())
        }
    }
}

/// The join of all shares in their order. The only failure is that memory runs out.
pub fn joined_all<P: Part>(alloc: Global, shares: &[Option<P>]) -> Result<P, NoMemory>
    requires { all_fit P.fitting P.joined P.nothing (filter_map (λ share. share) (plain_shares P.plain shares.now)) ≡ true }
    ensures { IfOk result (λ all. P.plain all ≡ fold P.joined P.nothing (filter_map (λ share. share) (plain_shares P.plain shares.now))) }
{
    let mut all = P::empty();
    for share in shares {
        if let Some(part) = share {
            all.join(part.copy(alloc)?)?;
        }
    }
    Ok(all)
}

/// Equal shares in memory of their own. The only failure is that memory runs out.
pub fn copied<P: Part>(alloc: Global, shares: &[Option<P>]) -> Result<Vec<Option<P>>, NoMemory>
    ensures { IfOk result (λ copied. plain_shares P.plain copied.items ≡ plain_shares P.plain shares.now) }
{
    let mut copied = Vec::with_capacity(alloc, shares.len())?;
    for share in shares {
        copied.push(copied_share(alloc, share)?)?;
    }
    Ok(copied)
}

/// An equal share in memory of its own.
fn copied_share<P: Part>(alloc: Global, share: &Option<P>) -> Result<Option<P>, NoMemory>
    ensures { IfOk result (λ copy. option_map P.plain copy ≡ option_map P.plain share.now) }
{
    match share {
        Some(part) => Ok(Some(part.copy(alloc)?)),
        None => Ok(None),
    }
}
