//! Which packages an atom matches, and which are in conflict, for an architecture of a file.
ghost use Rattle.std.specs.Prelude.{◌≡◌, ◌⊎◌, ◌↔◌, IsTrue, Any, Some, IfSome, IsSomeAnd, codes};
ghost use Rattle.dist_relation.specs.Satisfies.{Satisfies};
ghost use Rattle.dist_repo.specs.Conflict.{AreInConflict};
ghost use Rattle.dist_repo.specs.Match.{IsUsable, Matches, MatchesByEntry, MatchesByName};
ghost use Rattle.dist_repo.specs.Order.{IsSamePackage};

use crate::package::Package;
use dist_relation::{Atom, Bound, Name, Provide, Provides, Qualifier, satisfies};
use dist_version::Version;

/// Whether an atom or an entry of Provides with this qualifier is usable.
pub(crate) fn is_usable(architecture: &Option<Name>, qualifier: &Qualifier) -> bool
    ensures { IsTrue result ↔ IsUsable architecture.now qualifier.now }
{
    match qualifier {
        Qualifier::Plain => true,
        Qualifier::Named(name) => names_architecture(architecture, name.bytes()),
    }
}

/// Whether a qualifier stands for any architecture, the package's own, or that of the file.
fn names_architecture(architecture: &Option<Name>, qualifier: &[u8]) -> bool
    ensures { IsTrue result
        ↔ ((qualifier.now ≡ codes "any") ⊎ (qualifier.now ≡ codes "native") ⊎ (architecture.now ≡ Some qualifier.now)) }
{
    if matches!(qualifier, b"any" | b"native") {
        return true;
    }
    match architecture {
        Some(name) => name.bytes() == qualifier,
        None => false,
    }
}

/// Whether a version meets a bound. Where there is no bound, each does.
fn meets(version: &Version, bound: &Option<Bound>) -> bool
    ensures { IsTrue result ↔ IfSome bound.now (λ bound. Satisfies version.now bound) }
{
    match bound {
        Some(bound) => satisfies(version, bound),
        None => true,
    }
}

/// Whether a provided version meets a bound. Where there is no bound, an entry without version meets it too.
fn provides_bound(version: &Option<Version>, bound: &Option<Bound>) -> bool
    ensures { IsTrue result
        ↔ IfSome bound.now (λ bound. IsSomeAnd version.now (λ version. Satisfies version bound)) }
{
    match (version, bound) {
        (_, None) => true,
        (None, Some(_)) => false,
        (Some(version), Some(bound)) => satisfies(version, bound),
    }
}

fn matches_by_name(atom: &Atom, package: &Package) -> bool
    ensures { IsTrue result ↔ MatchesByName atom.now «package».now }
{
    package.name.bytes() == atom.name.bytes() && meets(&package.version, &atom.bound)
}

fn matches_by_entry(architecture: &Option<Name>, atom: &Atom, entry: &Provide) -> bool
    ensures { IsTrue result ↔ MatchesByEntry architecture.now atom.now entry.now }
{
    is_usable(architecture, &entry.qualifier)
        && entry.name.bytes() == atom.name.bytes()
        && provides_bound(&entry.version, &atom.bound)
}

fn some_entry_matches(architecture: &Option<Name>, atom: &Atom, provides: &Provides) -> bool
    ensures { IsTrue result ↔ Any (MatchesByEntry architecture.now atom.now) provides.now }
{
    for place in 0..provides.len() {
        if matches_by_entry(architecture, atom, provides.get(place)) {
            return true;
        }
    }
    false
}

/// Whether an atom matches a package.
pub(crate) fn matches(architecture: &Option<Name>, atom: &Atom, package: &Package) -> bool
    ensures { IsTrue result ↔ Matches architecture.now atom.now «package».now }
{
    is_usable(architecture, &atom.qualifier)
        && (matches_by_name(atom, package)
            || some_entry_matches(architecture, atom, &package.provides))
}

/// Whether some conflict atom of the first package matches the second.
fn rejects(architecture: &Option<Name>, first: &Package, second: &Package) -> bool
    ensures { IsTrue result ↔ Any (λ atom. Matches architecture.now atom second.now) first.now.conflicts }
{
    for place in 0..first.conflicts.len() {
        if matches(architecture, first.conflicts.get(place), second) {
            return true;
        }
    }
    false
}

/// Whether two packages have one name and equal versions.
pub(crate) fn are_same(first: &Package, second: &Package) -> bool
    ensures { IsTrue result ↔ IsSamePackage first.now second.now }
{
    first.name.bytes() == second.name.bytes() && first.version.compare(&second.version).is_eq()
}

/// Whether two packages are in conflict.
pub(crate) fn are_in_conflict(
    architecture: &Option<Name>,
    first: &Package,
    second: &Package,
) -> bool
    ensures { IsTrue result ↔ AreInConflict architecture.now first.now second.now }
{
    !are_same(first, second)
        && (rejects(architecture, first, second) || rejects(architecture, second, first))
}
