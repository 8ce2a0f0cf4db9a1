use std::alloc::{AllocError, Global};
use std::test::Fail;
use zq_base::Seq;
use zq_outer::{CallKind, Cut, Plan, PlannedCall};

/// The list of these.
fn listed<T: Copy>(alloc: Global, items: &[T]) -> Result<Seq<T>, AllocError> {
    Ok(Seq::of_vec(Vec::from_slice(alloc, items)?))
}

/// A plan of no fault and no stall, by which the first link ends behind so many octets of its
/// connecting end.
pub fn cut_behind(alloc: Global, octets: u64) -> Result<Plan, Fail> {
    let cuts = listed(alloc, &[Cut { link: 1, octets }])?;
    Ok(Plan {
        fails: Seq::new(alloc),
        stalls: Seq::new(alloc),
        cuts,
        peers: Seq::new(alloc),
    })
}

/// A plan by which one call stalls.
pub fn stall_of(alloc: Global, kind: CallKind, number: u64) -> Result<Plan, Fail> {
    let stalls = listed(alloc, &[PlannedCall { kind, number }])?;
    Ok(Plan {
        fails: Seq::new(alloc),
        stalls,
        cuts: Seq::new(alloc),
        peers: Seq::new(alloc),
    })
}

/// A plan by which one call fails.
pub fn fault_of(alloc: Global, kind: CallKind, number: u64) -> Result<Plan, Fail> {
    let fails = listed(alloc, &[PlannedCall { kind, number }])?;
    Ok(Plan {
        fails,
        stalls: Seq::new(alloc),
        cuts: Seq::new(alloc),
        peers: Seq::new(alloc),
    })
}
