//! The rules of a claim on challenges.
ghost use Rattle.std.specs.Prelude.{◌≡◌, ◌&&◌, ◌||◌, ◌↔◌, AllPairs, IfOk, IsTrue, not};
ghost use Rattle.std.specs.List.{list_all, list_any};
ghost use Rattle.dist_cert.specs.ClaimRules.{IsPairBelow};
ghost use Rattle.dist_cert.specs.Rising.{is_among};
ghost use Rattle.dist_check_group.specs.Group.{in_each};
ghost use Rattle.dist_check_group.specs.Layout.{at_class, classes_of};
ghost use Rattle.dist_check_group.specs.Challenge.{ArePairsRight, TellsChallenge, is_pair_for};
ghost use Rattle.dist_check_group.specs.MarksPrivate.{is_marked};
ghost use Rattle.dist_check_group.specs.FoundPrivate.{IsFoundFor, is_open, leaves_out};

use crate::found::Found;
use crate::group::Group;
use crate::layout::Layout;
use crate::number_set::NumberSet;
use crate::rules::is_in_each;
use crate::window::Window;
use dist_cert::CertCause;
use std::alloc::{AllocError, Global};

/// A claim that pairs of a cluster and a class challenge a package, and perhaps others, by the installations that it names.
#[derive(Clone, Copy)]
pub struct ChallengeClaim<'a> {
    /// The variable of the package as it is.
    pub variable: u32,
    pub named: &'a [u32],
    pub by: &'a [(u32, u32)],
    pub undecided: &'a [(u32, u32)],
}

/// Whether a pair is below another one, by the cluster and then by the class.
fn is_pair_below(pair: (u32, u32), later: (u32, u32)) -> bool
    ensures { IsTrue result ↔ IsPairBelow pair later }
{
    pair.0 < later.0 || (pair.0 == later.0 && pair.1 < later.1)
}

/// Whether each pair is below the next one.
fn are_rising_pairs(pairs: &[(u32, u32)]) -> bool
    ensures { IsTrue result ↔ AllPairs IsPairBelow pairs.now }
{
    for place in 1..pairs.len() {
        if !is_pair_below(pairs[place - 1], pairs[place]) {
            return false;
        }
    }
    true
}

/// Whether a pair is a cluster that is not that of the variable, and a class of it.
fn is_pair_for(layout: &Layout, variable: u32, pair: (u32, u32)) -> bool
    ensures { result ≡ is_pair_for layout.now variable pair }
{
    1 <= pair.0
        && pair.0 as usize <= layout.len()
        && 1 <= pair.1
        && pair.1 as usize <= layout.classes_of(pair.0).len()
        && pair.0 != layout.cluster_of(variable)
}

/// Whether all pairs are such ones.
fn are_pairs_for(layout: &Layout, variable: u32, pairs: &[(u32, u32)]) -> bool
    ensures { result ≡ list_all (is_pair_for layout.now variable) pairs.now }
{
    pairs
        .iter()
        .all(|pair| is_pair_for(layout, variable, *pair))
}

/// Whether the variables of all pairs are in a set.
fn are_closed(layout: &Layout, closed: &NumberSet, pairs: &[(u32, u32)]) -> bool
    ensures { result ≡ list_all (λ pair. is_among closed.now (at_class layout.now pair)) pairs.now }
{
    pairs.iter().all(|pair| closed.has(layout.at_class(*pair)))
}

/// Whether the variable of a pair is that of an undecided one too.
fn is_any_undecided(layout: &Layout, found: &Found, pairs: &[(u32, u32)]) -> bool
    ensures { result ≡ list_any (λ pair. is_among found.now.undecided (at_class layout.now pair)) pairs.now }
{
    pairs
        .iter()
        .any(|pair| found.is_undecided(layout.at_class(*pair)))
}

/// Whether the installations of a claim have its package, and one of them is of today.
fn has_installations(window: &Window, found: &Found, claim: &ChallengeClaim<'_>) -> bool
    ensures { result ≡ (in_each window.now claim.now.named.now claim.now.variable && is_marked found.now.held 1) }
{
    is_in_each(window, claim.named, claim.variable) && found.holds(1)
}

/// Whether the rules of a claim's lists hold.
fn are_pairs_right(
    window: &Window,
    group: &Group,
    claim: &ChallengeClaim<'_>,
    found: &Found,
) -> bool
    requires { IsFoundFor window.now.layout window.now group.now.cover claim.now.variable claim.now.named.now claim.now.by.now claim.now.undecided.now found.now }
    ensures { IsTrue result
        ↔ ArePairsRight window.now.layout window.now group.now claim.now.variable claim.now.named.now claim.now.by.now claim.now.undecided.now }
{
    let ChallengeClaim {
        variable,
        named: _,
        by,
        undecided,
    } = *claim;
    if !has_installations(window, found, claim) {
        return false;
    }
    if !are_rising_pairs(by) || !are_rising_pairs(undecided) {
        return false;
    }
    let layout = window.layout();
    if is_any_undecided(layout, found, by) {
        return false;
    }
    if !are_pairs_for(layout, variable, by) || !are_pairs_for(layout, variable, undecided) {
        return false;
    }
    are_closed(layout, group.refuted.together(), by)
        && are_closed(layout, group.undecided.together(), undecided)
}

/// Whether a pair is covered by one of the claim's installations.
fn is_covered(layout: &Layout, found: &Found, pair: (u32, u32)) -> bool
    ensures { result ≡ (not (is_among found.now.used pair.0) || is_marked found.now.held (at_class layout.now pair)) }
{
    !found.uses(pair.0) || found.holds(layout.at_class(pair))
}

/// Whether one of some pairs is.
fn is_any_covered(layout: &Layout, found: &Found, pairs: &[(u32, u32)]) -> bool
    ensures { result ≡ list_any (λ pair. not (is_among found.now.used pair.0) || is_marked found.now.held (at_class layout.now pair)) pairs.now }
{
    pairs.iter().any(|pair| is_covered(layout, found, *pair))
}

/// Whether the variable of a class is neither listed nor held.
fn is_open(found: &Found, variable: u32) -> bool
    ensures { result ≡ is_open found.now variable }
{
    !found.challenges(variable) && !found.is_undecided(variable) && !found.holds(variable)
}

/// Whether a cluster has such a class.
fn has_open_class(layout: &Layout, found: &Found, cluster: u32) -> bool
    ensures { result ≡ list_any (is_open found.now) (classes_of layout.now cluster) }
{
    layout
        .classes_of(cluster)
        .iter()
        .any(|class| is_open(found, *class))
}

/// Whether a cluster other than the variable's has one.
pub(crate) fn leaves_out(layout: &Layout, found: &Found, variable: u32, cluster: u32) -> bool
    ensures { result ≡ leaves_out layout.now found.now variable cluster }
{
    1 <= cluster && cluster != layout.cluster_of(variable) && has_open_class(layout, found, cluster)
}

/// Whether a pair is neither listed nor covered. Only clusters that all installations use are looked at, since the pairs of
/// all others are covered.
fn omits_pair(layout: &Layout, found: &Found, variable: u32) -> bool
    ensures { result ≡ list_any (leaves_out layout.now found.now variable) found.now.used }
{
    found
        .used()
        .iter()
        .any(|cluster| leaves_out(layout, found, variable, *cluster))
}

/// Of a claim on the next package the first fault by the rules of challenges, if there is one, by what is looked up for it.
fn fault_of(
    window: &Window,
    group: &Group,
    claim: &ChallengeClaim<'_>,
    found: &Found,
) -> Option<CertCause>
    requires { IsFoundFor window.now.layout window.now group.now.cover claim.now.variable claim.now.named.now claim.now.by.now claim.now.undecided.now found.now }
    ensures { TellsChallenge window.now.layout window.now group.now claim.now.variable claim.now.named.now claim.now.by.now claim.now.undecided.now result }
{
    if !are_pairs_right(window, group, claim, found) {
        return Some(CertCause::WrongClaim);
    }
    let layout = window.layout();
    if is_any_covered(layout, found, claim.undecided) {
        return Some(CertCause::WrongClaim);
    }
    if omits_pair(layout, found, claim.variable) {
        return Some(CertCause::Incomplete);
    }
    None
}

/// Of a claim on the next package the first fault by the rules of challenges, if there is one.
pub fn judge_challenge(
    alloc: Global,
    window: &Window,
    group: &Group,
    claim: &ChallengeClaim<'_>,
) -> Result<Option<CertCause>, AllocError>
    ensures { IfOk result
        (TellsChallenge window.now.layout window.now group.now claim.now.variable claim.now.named.now claim.now.by.now claim.now.undecided.now) }
{
    let found = Found::new(alloc, window, group, claim)?;
    let told = fault_of(window, group, claim, &found);
    drop(found);
    Ok(told)
}
