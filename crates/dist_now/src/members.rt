//! The members of an installation, by the numbers of their packages, and what they meet.
ghost use Rattle.std.specs.Prelude.{◌≡◌, ◌<◌, ◌↔◌, true, Any, None, Some, IsTrue, length, slice_get};
ghost use Rattle.dist_asked.specs.AskedPlaces.{AreEnough};
ghost use Rattle.dist_repo.specs.Healthy.{IsMet};
ghost use Rattle.dist_repo.specs.Match.{IsUsable, Matches};
ghost use Rattle.dist_repo.specs.Providers.{AreProviders};
ghost use Rattle.dist_now.specs.Fit.{IsOneEach};
ghost use Rattle.dist_now.specs.Members.{members_of};

use dist_asked::AskedPlaces;
use dist_clause::Assignment;
use dist_relation::{Alternatives, Atom, Name};
use dist_repo::Repository;

/// Whether the package of a number is a member.
pub(crate) fn is_member(repo: &Repository, members: &Assignment, number: u32) -> bool
    requires one_each { IsOneEach repo.now members.now }
    requires number { number < length repo.now.packages }
    ensures { IsTrue result ↔ (slice_get members.now number ≡ Some true) }
{
    number < repo.len() && members.value(number + 1)
}

/// Whether a member matches a usable atom without a bound: the providers of the name do, of which each stands once.
fn is_provider_met(repo: &Repository, members: &Assignment, atom: &Atom, providers: &[u32]) -> bool
    requires one_each { IsOneEach repo.now members.now }
    requires usable { IsUsable repo.now.architecture atom.now.qualifier }
    requires unbounded { atom.now.bound ≡ None }
    requires providers { AreProviders repo.now atom.now.name providers.now }
    ensures { IsTrue result ↔ Any (Matches repo.now.architecture atom.now) (members_of repo.now.packages members.now) }
{
    for number in providers {
        if is_member(repo, members, *number) {
            return true;
        }
    }
    false
}

/// Whether a member matches an atom: it is looked for among the offers that meet the bound.
fn is_offer_met(repo: &Repository, members: &Assignment, atom: &Atom) -> bool
    requires { IsOneEach repo.now members.now }
    ensures { IsTrue result ↔ Any (Matches repo.now.architecture atom.now) (members_of repo.now.packages members.now) }
{
    let offers = repo.matched(atom);
    for offer in offers {
        if is_member(repo, members, offer.number) {
            return true;
        }
    }
    false
}

/// Whether a member matches an atom.
fn is_alternative_met(repo: &Repository, members: &Assignment, atom: &Atom) -> bool
    requires { IsOneEach repo.now members.now }
    ensures { IsTrue result ↔ Any (Matches repo.now.architecture atom.now) (members_of repo.now.packages members.now) }
{
    if atom.bound.is_some() {
        return is_offer_met(repo, members, atom);
    }
    if !repo.usable(&atom.qualifier) {
        return false;
    }
    let providers = repo.providers(atom.name.bytes());
    is_provider_met(repo, members, atom, providers)
}

/// Whether a member matches an alternative of an item, by the places that are asked.
pub(crate) fn is_met(
    repo: &Repository,
    members: &Assignment,
    alternatives: &Alternatives,
    asked: &AskedPlaces,
) -> bool
    requires one_each { IsOneEach repo.now members.now }
    requires enough { AreEnough alternatives.now asked.now }
    ensures some { 0 < length alternatives.now }
    ensures met { IsTrue result ↔ IsMet repo.now.architecture (members_of repo.now.packages members.now) alternatives.now }
{
    for place in 0..alternatives.len() {
        let atom = alternatives.get(place);
        if asked.has(place) && is_alternative_met(repo, members, atom) {
            return true;
        }
    }
    false
}

/// Whether a member has a name.
pub(crate) fn is_named(repo: &Repository, members: &Assignment, name: &Name) -> bool
    requires one_each { IsOneEach repo.now members.now }
    ensures { IsTrue result ↔ Any (λ q. q.name ≡ name.now) (members_of repo.now.packages members.now) }
{
    let providers = repo.providers(name.bytes());
    for number in providers {
        if is_member(repo, members, *number) && repo.package(*number).name == *name {
            return true;
        }
    }
    false
}
