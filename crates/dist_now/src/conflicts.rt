//! The least two members in conflict, found by what conflict atoms match.
ghost use Rattle.std.specs.Prelude.{◌≡◌, ◌⊎◌, ◌↔◌, ◌<◌, ◌≤◌, ℕ, IsTrue, None, Some, true, length, slice_get};
ghost use Rattle.dist_base.specs.Least.{IsLeastIfAny, IsLeastPairIfAny, IsLesserPair};
ghost use Rattle.dist_repo.specs.Match.{IsUsable};
ghost use Rattle.dist_repo.specs.Offers.{AreMatched};
ghost use Rattle.dist_repo.specs.Providers.{AreProviders};
ghost use Rattle.dist_now.specs.Fit.{IsOneEach};
ghost use Rattle.dist_now.specs.Health.{AreConflicting};
ghost use Rattle.dist_now.specs.RejectedPrivate.{IsOtherMember, IsRejectedBy, IsRejected};

use crate::members::is_member;
use dist_clause::Assignment;
use dist_relation::Atom;
use dist_repo::{Offer, Package, Repository};

/// The lesser of two numbers, of which one may be missing.
fn lesser(least: Option<u32>, other: u32) -> u32
    ensures one { (least ≡ Some result) ⊎ (result ≡ other) }
    ensures at_most_other { result ≤ other }
    ensures at_most_least { (n : ℕ) → least ≡ Some n → result ≤ n }
{
    match least {
        Some(number) => if number < other { number } else { other },
        None => other,
    }
}

/// Whether the package of a number is a member, and another one than a package.
fn is_other_member(repo: &Repository, members: &Assignment, number: u32, other: u32) -> bool
    requires one_each { IsOneEach repo.now members.now }
    requires other { other < length repo.now.packages }
    ensures { IsTrue result ↔ IsOtherMember members.now number other }
{
    other != number && is_member(repo, members, other)
}

/// The least other member that an atom matches, by the offers that it matches.
fn rejected_offer(
    repo: &Repository,
    members: &Assignment,
    number: u32,
    atom: &Atom,
    offers: &[Offer],
) -> Option<u32>
    requires one_each { IsOneEach repo.now members.now }
    requires matched { AreMatched repo.now atom.now offers.now }
    ensures { IsLeastIfAny (IsRejectedBy repo.now members.now number atom.now) result }
{
    let mut least = None;
    for offer in offers {
        if is_other_member(repo, members, number, offer.number) {
            least = Some(lesser(least, offer.number));
        }
    }
    least
}

/// The least other member that a usable atom without a bound matches: the providers of its name rise, and each stands once.
fn rejected_provider(
    repo: &Repository,
    members: &Assignment,
    number: u32,
    atom: &Atom,
    providers: &[u32],
) -> Option<u32>
    requires one_each { IsOneEach repo.now members.now }
    requires usable { IsUsable repo.now.architecture atom.now.qualifier }
    requires unbounded { atom.now.bound ≡ None }
    requires providers { AreProviders repo.now atom.now.name providers.now }
    ensures { IsLeastIfAny (IsRejectedBy repo.now members.now number atom.now) result }
{
    for other in providers {
        if is_other_member(repo, members, number, *other) {
            return Some(*other);
        }
    }
    None
}

/// The least other member that an atom matches.
fn rejected_by(repo: &Repository, members: &Assignment, number: u32, atom: &Atom) -> Option<u32>
    requires { IsOneEach repo.now members.now }
    ensures { IsLeastIfAny (IsRejectedBy repo.now members.now number atom.now) result }
{
    if atom.bound.is_some() {
        return rejected_offer(repo, members, number, atom, repo.matched(atom));
    }
    if !repo.usable(&atom.qualifier) {
        return None;
    }
    let providers = repo.providers(atom.name.bytes());
    rejected_provider(repo, members, number, atom, providers)
}

/// The least other member that a conflict atom of a member matches, by the atoms that are asked.
fn rejected(repo: &Repository, members: &Assignment, number: u32, package: &Package) -> Option<u32>
    requires one_each { IsOneEach repo.now members.now }
    requires number { slice_get repo.now.packages number ≡ Some «package».now }
    requires member { slice_get members.now number ≡ Some true }
    ensures { IsLeastIfAny (IsRejected repo.now members.now number) result }
{
    let asked = repo.asked_conflicts(number);
    let mut least = None;
    for place in 0..package.conflicts.len() {
        let atom = package.conflicts.get(place);
        if asked.has(place) {
            if let Some(other) = rejected_by(repo, members, number, atom) {
                least = Some(lesser(least, other));
            }
        }
    }
    least
}

/// The least other member that a conflict atom of the package of a number matches, where that is a member.
fn rejected_row(repo: &Repository, members: &Assignment, number: u32) -> Option<u32>
    requires one_each { IsOneEach repo.now members.now }
    requires number { number < length repo.now.packages }
    ensures { IsLeastIfAny (IsRejected repo.now members.now number) result }
{
    if !is_member(repo, members, number) {
        return None;
    }
    rejected(repo, members, number, repo.package(number))
}

/// The lesser of two pairs, of which one may be missing.
fn lesser_pair(least: Option<(u32, u32)>, first: u32, second: u32) -> (u32, u32)
    ensures { IsLesserPair least first second result }
{
    match least {
        Some((number, place)) => {
            if number < first || number == first && place < second {
                (number, place)
            } else {
                (first, second)
            }
        }
        None => (first, second),
    }
}

/// The least two members in conflict.
pub(crate) fn conflict(repo: &Repository, members: &Assignment) -> Option<(u32, u32)>
    requires { IsOneEach repo.now members.now }
    ensures { IsLeastPairIfAny (AreConflicting repo.now members.now) result }
{
    let mut least = None;
    let end = repo.len();
    for number in 0..end {
        if let Some(other) = rejected_row(repo, members, number) {
            if number < other {
                least = Some(lesser_pair(least, number, other));
            } else {
                least = Some(lesser_pair(least, other, number));
            }
        }
    }
    least
}
