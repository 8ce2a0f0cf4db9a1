use crate::lane::Caller;
use crate::options::Security;
use crate::plans::{cut_behind, fault_of};
use crate::session_checks::check_result;
use std::alloc::Global;
use std::test::Fail;
use zq_outer::{CallKind, Plan};

/// Whether the session has a link behind turns at these moments, as the rows say.
fn is_linked_at(alloc: Global, caller: &mut Caller, rows: &[(u64, bool)]) -> Result<bool, Fail> {
    for (now, linked) in rows {
        caller.near.turn_at(alloc, &mut caller.host, *now)?;
        if caller.near.has_link() != *linked {
            return Ok(false);
        }
    }
    Ok(true)
}

/// The same of a connecting session under this plan.
fn dials(alloc: Global, plan: Plan, rows: &[(u64, bool)]) -> Result<bool, Fail> {
    let mut caller = Caller::new(alloc, Security::Null, plan, 8192)?;
    let linked = is_linked_at(alloc, &mut caller, rows);
    drop(caller);
    linked
}

#[test]
fn a_dial_that_failed_is_made_again_after_the_interval(rt: HostRuntime) -> Result<(), Fail> {
    let plan = fault_of(rt.alloc(), CallKind::Connect, 1)?;
    check_result(dials(
        rt.alloc(),
        plan,
        &[(0, false), (0, false), (9, false), (10, true)],
    ))
}

// The greeting's tenth octet is written at moment 5; the read behind it answers that the link has
// ended.
#[test]
fn a_link_that_is_over_is_dialled_again_after_the_interval(rt: HostRuntime) -> Result<(), Fail> {
    let plan = cut_behind(rt.alloc(), 10)?;
    check_result(dials(
        rt.alloc(),
        plan,
        &[(0, true), (5, false), (14, false), (15, true)],
    ))
}
