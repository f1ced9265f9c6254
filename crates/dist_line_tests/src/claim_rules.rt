//! A claim on strong dependencies, and what is kept for it.
ghost use Rattle.std.specs.Prelude.{◌+◌, ◌<◌, ◌≤◌, OnOk};

use dist_base::Flat;
use dist_cert::CertCause::{Incomplete, WrongClaim};
use dist_cert::{CertCause, CertKind, Items};
use dist_check_group::{
    ChallengeClaim, Group, Layout, StrongClaim, Window, is_rising, judge_challenge, judge_rules,
};
use std::alloc::{AllocError, Global};

/// Adds an installation to a group of the package of a variable, and to the latest ones.
fn install(
    alloc: Global,
    window: &mut Window,
    group: &mut Group,
    variable: u32,
    members: &[u32],
) -> Result<(), AllocError>
    requires { window.old.count < 100 }
    ensures { OnOk result (window.new.count ≤ window.old.count + 1) }
{
    if !is_rising(members) {
        return Ok(());
    }
    group.add_installation(alloc, window.layout(), variable, members)?;
    window.add(alloc, Items::from_vec(members.to_vec(alloc)?))
}

/// Of two installations of the first of three packages the second one has no third package. The second package is refuted,
/// and the third one left undecided.
fn fill(alloc: Global, window: &mut Window, group: &mut Group) -> Result<(), AllocError>
    requires { window.old.count < 90 }
{
    install(alloc, window, group, 1, &[1, 2, 3])?;
    group.clear();
    install(alloc, window, group, 1, &[1, 2])?;
    group.add_refuted(CertKind::Strong, 1, &[(1, true), (2, false)])?;
    group.add_undecided(CertKind::Strong, 1, &[(1, true), (3, false)])
}

/// What is said of a claim of the first package then.
fn judge_filled(
    alloc: Global,
    window: &mut Window,
    group: &mut Group,
    claim: &StrongClaim<'_>,
) -> Result<Option<CertCause>, AllocError>
    requires { window.old.count < 90 }
{
    fill(alloc, window, group)?;
    judge_rules(alloc, window, group, 3, claim)
}

/// The same of a new window of variables up to a last one, and a new group.
fn judged(
    alloc: Global,
    last: u32,
    named: &[u32],
    on: &[u32],
    undecided: &[u32],
) -> Result<Option<CertCause>, AllocError> {
    let mut window = Window::new(alloc, last, Layout::present(alloc));
    let mut group = Group::new(alloc);
    let claim = StrongClaim {
        package: 1,
        named,
        on,
        undecided,
    };
    let verdict = judge_filled(alloc, &mut window, &mut group, &claim);
    drop(window);
    drop(group);
    verdict
}

/// The installations that a claim names, its packages, those that it leaves undecided, and what is said of it.
type Claimed = (
    &'static [u32],
    &'static [u32],
    &'static [u32],
    Option<CertCause>,
);

const CLAIMED: &[Claimed] = &[
    (&[1, 2, 1, 1], &[2], &[], None),
    (&[1], &[2], &[3], Some(WrongClaim)),
    (&[1], &[], &[], Some(Incomplete)),
    (&[3], &[2], &[], Some(WrongClaim)),
];

/// The place of the first claim of which something else is said.
fn wrong_claim(alloc: Global, last: u32, rows: &[Claimed]) -> Option<usize> {
    for place in 0..rows.len() {
        let (named, on, undecided, said) = rows[place];
        if judged(alloc, last, named, on, undecided) != Ok(said) {
            return Some(place);
        }
    }
    None
}

#[test]
fn claims_are_judged(rt: HostRuntime) {
    // As rows and as lists.
    assert_eq!(rt; wrong_claim(rt.alloc(), 3, CLAIMED), None);
    assert_eq!(rt; wrong_claim(rt.alloc(), 3_000, CLAIMED), None);
}

#[test]
fn questions_of_the_package_are_kept(rt: HostRuntime) {
    let mut group = Group::new(rt.alloc());
    let added = group.add_refuted(CertKind::Strong, 1, &[(1, true)]);
    let kept = added.is_ok() && group.is_refuted() && !group.is_undecided();
    drop(group);
    assert!(rt; kept);
}

/// The class of each of two clusters.
fn two_classes(alloc: Global) -> Result<Flat<u32>, AllocError> {
    let mut classes = Flat::new(alloc);
    if classes.push(&[4]).is_ok() && classes.push(&[5]).is_ok() {
        Ok(classes)
    } else {
        drop(classes);
        Err(AllocError)
    }
}

/// Of two packages, each a cluster of its own with one class: variables 2 and 3 are the packages as they are, 4 and 5 put the
/// clusters at their classes, and 6 and 7 are the new packages.
fn two_clusters(alloc: Global) -> Result<Layout, AllocError> {
    let classes = two_classes(alloc)?;
    match vec![in alloc; 0u32, 0, 1, 2, 0, 0, 1, 2] {
        Ok(clusters) => Ok(Layout::new(CertKind::Challenged, clusters, classes)),
        Err(error) => {
            drop(classes);
            Err(error.into())
        }
    }
}

/// What is said of a claim on challenges of the first package, once the second cluster's class was refuted.
fn judge_refuted(
    alloc: Global,
    window: &mut Window,
    group: &mut Group,
    claim: &ChallengeClaim<'_>,
) -> Result<Option<CertCause>, AllocError>
    requires { window.old.count < 90 }
{
    install(alloc, window, group, 2, &[2, 5])?;
    group.clear();
    install(alloc, window, group, 2, &[1, 2, 3])?;
    group.add_refuted(CertKind::Challenged, 2, &[(2, true), (5, true)])?;
    judge_challenge(alloc, window, group, claim)
}

/// The same of a new window of variables up to a last one, and a new group.
fn challenged(
    alloc: Global,
    last: u32,
    named: &[u32],
    by: &[(u32, u32)],
) -> Result<Option<CertCause>, AllocError> {
    let mut window = Window::new(alloc, last, two_clusters(alloc)?);
    let mut group = Group::new(alloc);
    let claim = ChallengeClaim {
        variable: 2,
        named,
        by,
        undecided: &[],
    };
    let verdict = judge_refuted(alloc, &mut window, &mut group, &claim);
    drop(window);
    drop(group);
    verdict
}

/// The installations that a claim names, its challenges, and what is said of it.
type Challenged = (&'static [u32], &'static [(u32, u32)], Option<CertCause>);

const CHALLENGED: &[Challenged] = &[
    (&[2, 2], &[(2, 1)], None),
    (&[2], &[], Some(Incomplete)),
    (&[1], &[], None),
    (&[2], &[(1, 1)], Some(WrongClaim)),
    (&[3], &[(2, 1)], Some(WrongClaim)),
];

/// The place of the first claim on challenges of which something else is said.
fn wrong_challenge(alloc: Global, last: u32, rows: &[Challenged]) -> Option<usize> {
    for place in 0..rows.len() {
        let (named, by, said) = rows[place];
        if challenged(alloc, last, named, by) != Ok(said) {
            return Some(place);
        }
    }
    None
}

#[test]
fn claims_on_challenges_are_judged(rt: HostRuntime) {
    // As rows and as lists.
    assert_eq!(rt; wrong_challenge(rt.alloc(), 5, CHALLENGED), None);
    assert_eq!(rt; wrong_challenge(rt.alloc(), 5_000, CHALLENGED), None);
}
