//! Marks: what claims leave undecided.
ghost use Rattle.std.specs.Prelude.{◌≡◌};
ghost use Rattle.std.specs.List.{list_any};
ghost use Rattle.dist_report.specs.Marks.{has_mark};

use dist_cert::{Claim, Claims};

/// Whether a claim leaves something undecided.
fn has_mark(claim: &Claim) -> bool
    ensures { result ≡ has_mark claim.now }
{
    match claim {
        Claim::Unknown => true,
        Claim::Strong(_, undecided) => !undecided.as_slice().is_empty(),
        Claim::Challenged(_, undecided) => !undecided.as_slice().is_empty(),
        Claim::Uninstallable | Claim::Outdated | Claim::Alive => false,
    }
}

/// Whether some claim leaves something undecided.
#[tactic(auto, using(crate::proofs::MarkLemmas::marked, crate::proofs::MarkLemmas::none_more, crate::proofs::MarkLemmas::unmarked))]
pub fn some_has_mark(claims: &Claims) -> bool
    ensures { result ≡ list_any has_mark claims.now }
{
    for place in 0..claims.len() {
        if has_mark(claims.get(place)) {
            return true;
        }
    }
    false
}
