//! The rules of a claim on strong dependencies.
ghost use Rattle.std.specs.Prelude.{◌≡◌, ◌==◌, ◌&&◌, ◌↔◌, ℕ, Contains, IsTrue, IfOk, OnOk, filter, not};
ghost use Rattle.std.specs.List.{list_any};
ghost use Rattle.dist_check_group.specs.Group.{AreListsRight, TellsRules, candidates, in_each};
ghost use Rattle.dist_cert.specs.Rising.{AreRising, is_among};
ghost use Rattle.dist_check_group.specs.Window.{has_member, kept_at, members_at};

use crate::group::Group;
use crate::kept::Kept;
use crate::numbers::{are_others, has, has_all, has_any, is_rising};
use crate::window::Window;
use dist_cert::CertCause;
use std::alloc::{AllocError, Global};

/// A claim that a package depends strongly on some packages, and perhaps on others, by the installations that it names.
#[derive(Clone, Copy)]
pub struct StrongClaim<'a> {
    pub package: u32,
    pub named: &'a [u32],
    pub on: &'a [u32],
    pub undecided: &'a [u32],
}

/// Whether a variable is in all installations that are named.
pub(crate) fn is_in_each(window: &Window, named: &[u32], variable: u32) -> bool
    ensures { result ≡ in_each window.now named.now variable }
{
    named.iter().all(|number| window.has(*number, variable))
}

/// The members of the installation of a number, and none where it is not kept.
fn copy_of(alloc: Global, window: &Window, number: u32) -> Result<Kept, AllocError>
    ensures { IfOk result (λ found. found ≡ members_at window.now number) }
{
    match window.get(number) {
        Some(members) => members.copied(alloc),
        None => Ok(Kept::none(alloc)),
    }
}

/// The members of one of the claim's installations, narrowed by those of the group.
fn candidates(
    alloc: Global,
    window: &Window,
    group: &Group,
    named: &[u32],
) -> Result<Kept, AllocError>
    ensures { IfOk result (λ found. found ≡ candidates window.now group.now.common named.now) }
{
    if let Some(common) = group.common() {
        return window.keep(alloc, common.to_vec(alloc)?);
    }
    match named.first() {
        Some(number) => copy_of(alloc, window, *number),
        None => Ok(Kept::none(alloc)),
    }
}

/// Numbers in their order, each once.
fn each_once(alloc: Global, numbers: &[u32]) -> Result<Vec<u32>, AllocError>
    ensures { IfOk result (λ sorted. (q : ℕ) → Contains sorted.items q ↔ Contains numbers.now q) }
{
    let mut sorted = numbers.to_vec(alloc)?;
    sorted.sort_unstable();
    sorted.dedup();
    Ok(sorted)
}

/// The installations that a claim names, each once, those of fewer members before those of more.
pub(crate) fn small_first(
    alloc: Global,
    window: &Window,
    named: &[u32],
) -> Result<Vec<u32>, AllocError>
    ensures { IfOk result (λ sorted. (q : ℕ) → Contains sorted.items q ↔ Contains named.now q) }
{
    let mut sorted = each_once(alloc, named)?;
    sorted.sort_unstable_by_key(|number| window.size(*number));
    Ok(sorted)
}

/// Keeps the packages that the installation of a number has.
fn keep_members(
    alloc: Global,
    window: &Window,
    number: u32,
    kept: &mut Kept,
) -> Result<(), AllocError>
    ensures { OnOk result (kept.new ≡ filter (has_member (kept_at window.now number)) kept.old) }
{
    match window.get(number) {
        Some(members) => kept.narrow(alloc, members),
        None => {
            *kept = Kept::none(alloc);
            Ok(())
        }
    }
}

/// Keeps the packages that are in all installations that are named.
fn keep_in_each(
    alloc: Global,
    window: &Window,
    named: &[u32],
    kept: &mut Kept,
) -> Result<(), AllocError>
    ensures { OnOk result (kept.new ≡ filter (in_each window.now named.now) kept.old) }
{
    for number in named {
        keep_members(alloc, window, *number, kept)?;
    }
    Ok(())
}

/// Of the packages that are in all of the claim's installations those that are neither its own nor named by it as
/// dependencies. Since it names nearly all of them, few are left to be looked for, and few installations have one. However
/// often an installation is named, it is looked at once.
fn left_over(
    alloc: Global,
    window: &Window,
    group: &Group,
    claim: &StrongClaim<'_>,
) -> Result<Vec<u32>, AllocError>
    requires { AreRising claim.now.on.now }
    ensures value { IfOk result (λ found. found.items
        ≡ filter (λ q. not (q == claim.now.package) && not (is_among claim.now.on.now q) && in_each window.now claim.now.named.now q)
        (candidates window.now group.now.common claim.now.named.now)) }
    ensures rising { IfOk result (λ found. AreRising found.items) }
{
    let mut found = candidates(alloc, window, group, claim.named)?;
    found.leave_out(claim.package, claim.on);
    let named = small_first(alloc, window, claim.named)?;
    keep_in_each(alloc, window, &named, &mut found)?;
    Ok(found.listed(alloc)?)
}

/// Whether the rules of a claim's lists hold.
fn are_lists_right(window: &Window, group: &Group, packages: u32, claim: &StrongClaim<'_>) -> bool
    ensures { IsTrue result
        ↔ AreListsRight window.now group.now packages claim.now.package claim.now.named.now claim.now.on.now claim.now.undecided.now }
{
    let StrongClaim {
        package,
        named,
        on,
        undecided,
    } = *claim;
    if !is_in_each(window, named, package) {
        return false;
    }
    if !is_rising(on) || !is_rising(undecided) || has_any(undecided, on) {
        return false;
    }
    if !are_others(on, package, packages) || !are_others(undecided, package, packages) {
        return false;
    }
    group.refuted.without().has_all(on) && group.undecided.without().has_all(undecided)
}

/// Whether one of some packages is not listed.
fn omits(found: &[u32], undecided: &[u32]) -> bool
    requires { AreRising undecided.now }
    ensures { result ≡ list_any (λ q. not (is_among undecided.now q)) found.now }
{
    found.iter().any(|other| !has(undecided, *other))
}

/// Of a claim on the next package the first fault by the rules of strong dependencies, if there is one.
pub fn judge_rules(
    alloc: Global,
    window: &Window,
    group: &Group,
    packages: u32,
    claim: &StrongClaim<'_>,
) -> Result<Option<CertCause>, AllocError>
    ensures { IfOk result
        (TellsRules window.now group.now packages claim.now.package claim.now.named.now claim.now.on.now claim.now.undecided.now) }
{
    if !are_lists_right(window, group, packages, claim) {
        return Ok(Some(CertCause::WrongClaim));
    }
    let found = left_over(alloc, window, group, claim)?;
    if !has_all(&found, claim.undecided) {
        return Ok(Some(CertCause::WrongClaim));
    }
    if omits(&found, claim.undecided) {
        return Ok(Some(CertCause::Incomplete));
    }
    Ok(None)
}
