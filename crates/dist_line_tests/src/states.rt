//! Claims, one after another.
use dist_cert::CertRecord;
use dist_check_group::Layout;
use dist_check_state::State;
use std::alloc::{AllocError, Global};

/// How many claims the end of a certificate of no packages leaves, if it has no fault.
fn claims_at_the_end(alloc: Global) -> Result<Option<usize>, AllocError> {
    let mut state = State::new(alloc, 0, 0, Layout::present(alloc));
    let fault = state.judge(alloc, &CertRecord::End)?;
    if fault.is_some() {
        drop(state);
        return Ok(None);
    }
    state.take(CertRecord::End)?;
    let claims = state.into_claims();
    let left = claims.len();
    drop(claims);
    Ok(Some(left))
}

#[test]
fn no_packages_are_claimed_by_an_end_alone(rt: HostRuntime) {
    assert!(rt; claims_at_the_end(rt.alloc()) == Ok(Some(0)));
}
