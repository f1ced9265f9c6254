//! The least variable that holds under an assignment and that an atom matches, by the index of names.
ghost use Rattle.std.specs.Prelude.{◌≡◌, ◌<◌, ◌↔◌, ℕ, Contains, IsTrue, Some, length};
ghost use Rattle.dist_base.specs.Least.{IsLeastIfAny};
ghost use Rattle.dist_repo.specs.Match.{IsUsable};
ghost use Rattle.dist_repo.specs.Offers.{AreMatched};
ghost use Rattle.dist_repo.specs.Providers.{AreProviders};
ghost use Rattle.dist_future.specs.FutureHealth.{IsOneEach};
ghost use Rattle.dist_space_clauses.specs.GatheringPrivate.{IsFresh, IsLaterOf, IsOfVersion};
ghost use Rattle.dist_future.specs.MatchingPrivate.{IsFound, IsLesserOf, IsMovedBut, IsOther, IsPresentBut};
ghost use Rattle.dist_space.specs.EntryOrder.{IsEntryNamed};
ghost use Rattle.dist_space.specs.Space.{IsMatchedBy, IsMeaning};
ghost use Rattle.dist_space.specs.declared.meaning.Meaning.TheVariants as meaning;

use dist_clause::Assignment;
use dist_relation::Atom;
use dist_repo::Offer;
use dist_space::{Meaning, Space};

/// The lesser of two numbers, each of which may be missing.
pub(crate) fn lesser(first: Option<u32>, second: Option<u32>) -> Option<u32>
    ensures { IsLesserOf first second result }
{
    match (first, second) {
        (None, other) => other,
        (Some(one), None) => Some(one),
        (Some(one), Some(other)) => Some(if one < other { one } else { other }),
    }
}

/// Whether a package is the one that is left out.
fn is_left_out(but: Option<u32>, number: u32) -> bool
    ensures { IsTrue result ↔ (but ≡ Some number) }
{
    match but {
        Some(other) => other == number,
        None => false,
    }
}

/// The variable of a meaning, if it holds and the atom matches it.
fn candidate(space: &Space, members: &Assignment, atom: &Atom, meaning: Meaning) -> Option<u32>
    requires one_each { IsOneEach space.now members.now }
    requires is_meaning { IsMeaning space.now meaning }
    ensures { IsLeastIfAny (IsFound space.now members.now atom.now (λ m. m ≡ meaning)) result }
{
    let variable = space.variable(&meaning);
    if members.value(variable) && space.matches(atom, &meaning) {
        Some(variable)
    } else {
        None
    }
}

/// The variable of an entry of a new version, if it holds and the atom matches it.
fn entry_found(
    space: &Space,
    members: &Assignment,
    atom: &Atom,
    member: u32,
    class: u32,
    place: u32,
) -> Option<u32>
    requires one_each { IsOneEach space.now members.now }
    requires class { IsMeaning space.now (meaning.New member class) }
    ensures { IsLeastIfAny (IsFound space.now members.now atom.now (λ m. m ≡ meaning.Kept member class place)) result }
{
    let provides = &space.package(member).provides;
    if place as usize >= provides.len() {
        return None;
    }
    let entry = provides.get(place as usize);
    if entry.name != atom.name || !space.repo().usable(&entry.qualifier) {
        return None;
    }
    candidate(space, members, atom, Meaning::Kept(member, class, place))
}

/// The least variable of a new version of a class. `places` are those of the entries of the atom's name.
fn version_found(
    space: &Space,
    members: &Assignment,
    atom: &Atom,
    member: u32,
    class: u32,
    places: &[u32],
) -> Option<u32>
    requires one_each { IsOneEach space.now members.now }
    requires class { IsMeaning space.now (meaning.New member class) }
    requires places { (j : ℕ) → Contains places.now j ↔ IsEntryNamed space.now.repository.packages member atom.now.name j }
    ensures { IsLeastIfAny (IsFound space.now members.now atom.now (IsOfVersion member class)) result }
{
    let mut least = None;
    for place in places {
        least = lesser(
            least,
            entry_found(space, members, atom, member, class, *place),
        );
    }
    lesser(
        candidate(space, members, atom, Meaning::New(member, class)),
        least,
    )
}

/// The least variable of the new versions of a member.
fn member_found(space: &Space, members: &Assignment, atom: &Atom, member: u32) -> Option<u32>
    requires one_each { IsOneEach space.now members.now }
    requires member { member < length space.now.repository.packages }
    ensures { IsLeastIfAny (IsFound space.now members.now atom.now (IsLaterOf member)) result }
{
    let places = space.entries_named(member, &atom.name);
    let mut least = None;
    for class in 0..space.class_count(space.cluster_of(member)) {
        least = lesser(
            least,
            version_found(space, members, atom, member, class, places),
        );
    }
    least
}

/// The variable of a package as it is today, if it holds, where the atom matches the package.
fn present_one(space: &Space, members: &Assignment, atom: &Atom, number: u32) -> Option<u32>
    requires one_each { IsOneEach space.now members.now }
    requires matched { IsMatchedBy space.now atom.now (meaning.Present number) }
    ensures { IsLeastIfAny (IsFound space.now members.now atom.now (λ m. m ≡ meaning.Present number)) result }
{
    let variable = space.variable(&Meaning::Present(number));
    if members.value(variable) {
        Some(variable)
    } else {
        None
    }
}

/// The least variable of the packages as they are today, but for one: by the offers that the atom matches.
fn present_found(
    space: &Space,
    members: &Assignment,
    atom: &Atom,
    offers: &[Offer],
    but: Option<u32>,
) -> Option<u32>
    requires one_each { IsOneEach space.now members.now }
    requires matched { AreMatched space.now.repository atom.now offers.now }
    ensures { IsLeastIfAny (IsFound space.now members.now atom.now (IsPresentBut but)) result }
{
    let mut least = None;
    for offer in offers {
        if !is_left_out(but, offer.number) {
            least = lesser(least, present_one(space, members, atom, offer.number));
        }
    }
    least
}

/// The least variable of the new versions of members, but for one.
fn moved_found(
    space: &Space,
    members: &Assignment,
    atom: &Atom,
    providers: &[u32],
    but: Option<u32>,
) -> Option<u32>
    requires one_each { IsOneEach space.now members.now }
    requires providers { AreProviders space.now.repository atom.now.name providers.now }
    ensures { IsLeastIfAny (IsFound space.now members.now atom.now (IsMovedBut but)) result }
{
    let mut least = None;
    for number in providers {
        if !is_left_out(but, *number) {
            least = lesser(least, member_found(space, members, atom, *number));
        }
    }
    least
}

/// The least variable of packages of new names.
fn fresh_found(space: &Space, members: &Assignment, atom: &Atom) -> Option<u32>
    requires one_each { IsOneEach space.now members.now }
    ensures { IsLeastIfAny (IsFound space.now members.now atom.now IsFresh) result }
{
    let name = space.find_name(&atom.name)?;
    let mut least = None;
    for class in 0..space.name_class_count(name) {
        least = lesser(
            least,
            candidate(space, members, atom, Meaning::Fresh(name, class)),
        );
    }
    least
}

/// The least variable that holds and that the atom matches, where those of one package may be left out.
pub(crate) fn found(
    space: &Space,
    members: &Assignment,
    atom: &Atom,
    but: Option<u32>,
) -> Option<u32>
    requires { IsOneEach space.now members.now }
    ensures { IsLeastIfAny (λ v. IsUsable space.now.repository.architecture atom.now.qualifier × IsFound space.now members.now atom.now (IsOther but) v) result }
{
    let repo = space.repo();
    if !repo.usable(&atom.qualifier) {
        return None;
    }
    space.keeps_invariant();
    // Packages as they are today come before all others, and mostly one of them is found.
    if let Some(variable) = present_found(space, members, atom, repo.matched(atom), but) {
        return Some(variable);
    }
    let providers = repo.providers(atom.name.bytes());
    let moved = moved_found(space, members, atom, providers, but);
    lesser(moved, fresh_found(space, members, atom))
}
