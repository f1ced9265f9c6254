//! The lists of lines and claims.
use dist_cert::{Claim, Claims, Items, ReadCertError};
use dist_outside::WorkError;
use std::alloc::{AllocError, Global};

/// Whether a list has 5 and the number that is put behind it, in order.
fn keeps_both(numbers: &mut Items<u32>) -> bool {
    numbers.push(6).is_ok()
        && numbers.len() == 2
        && numbers.get(1) == 6
        && numbers.as_slice() == [5, 6].as_slice()
}

/// Whether a list has the items that it was made of and one more, in order.
fn keeps_items(alloc: Global) -> bool {
    match [5].to_vec(alloc) {
        Ok(made) => {
            let mut numbers = Items::from_vec(made);
            let kept = keeps_both(&mut numbers);
            let list = numbers.into_vec();
            let length = list.len();
            drop(list);
            kept && length == 2
        }
        Err(_) => false,
    }
}

/// Whether claims have the two that are added, in order.
fn keep_both(claims: &mut Claims) -> bool {
    claims.push(Claim::Outdated).is_ok()
        && claims.push(Claim::Alive).is_ok()
        && claims.len() == 2
        && matches!(claims.get(1), Claim::Alive)
}

/// Whether claims have the two that were added, in order.
fn keeps_claims(alloc: Global) -> bool {
    let mut claims = Claims::new(alloc);
    let kept = keep_both(&mut claims);
    drop(claims);
    kept
}

#[test]
fn lists_keep_their_order(rt: HostRuntime) {
    assert!(rt; keeps_items(rt.alloc()));
    assert!(rt; keeps_claims(rt.alloc()));
}

#[test]
fn want_of_memory_is_no_fault(rt: HostRuntime) {
    assert!(rt; ReadCertError::from(AllocError) == ReadCertError::Work(WorkError::NoMemory));
}
