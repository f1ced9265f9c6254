//! Claims against constant lists.
use dist_cert::{Claim, Claims};
use dist_samples::Said;

/// Whether a claim is the expected one.
fn is_said(claim: &Claim, said: &Said) -> bool {
    match (claim, said) {
        (Claim::Uninstallable, Said::Uninstallable) => true,
        (Claim::Unknown, Said::Unknown) => true,
        (Claim::Strong(on, undecided), Said::Strong(more, left)) => {
            on.as_slice() == *more && undecided.as_slice() == *left
        }
        (Claim::Outdated, Said::Outdated) => true,
        (Claim::Alive, Said::Alive) => true,
        (Claim::Challenged(by, undecided), Said::Challenged(more, left)) => {
            by.as_slice() == *more && undecided.as_slice() == *left
        }
        _ => false,
    }
}

/// Whether the claims are the expected ones, in order.
pub fn are_said(claims: &Claims, said: &[Said]) -> bool {
    if claims.len() != said.len() {
        return false;
    }
    for place in 0..said.len() {
        if !is_said(claims.get(place), &said[place]) {
            return false;
        }
    }
    true
}
