//! Whether versions meet the bound of an atom, also the version of an entry that goes with its package.
ghost use Rattle.std.specs.Prelude.{◌↔◌, IfSome, IsSomeAnd, IsTrue};
ghost use Rattle.dist_relation.specs.Satisfies.{Satisfies};
ghost use Rattle.dist_repo.specs.Match.{MatchesByEntry};
ghost use Rattle.dist_space.specs.Space.{MeetsBound, moved_entry, moved_version};

use dist_classes::ClassExample;
use dist_relation::{Atom, Provide, satisfies};
use dist_repo::Repository;
use dist_version::Version;

/// Whether an example meets the bound of an atom, if it has one.
pub fn meets_bound(atom: &Atom, example: &ClassExample) -> bool
    ensures { IsTrue result ↔ MeetsBound atom.now example.now }
{
    match &atom.bound {
        Some(bound) => example.satisfies(bound),
        None => true,
    }
}

/// Whether an entry, as a new version of its package has it, meets the bound of an atom.
fn meets_moved(atom: &Atom, entry: &Provide, old: &Version, new: &ClassExample) -> bool
    ensures { IsTrue result ↔ IfSome atom.now.bound (λ bound. IsSomeAnd (moved_version old.now new.now entry.now.version) (λ version. Satisfies version bound)) }
{
    let Some(bound) = &atom.bound else {
        return true;
    };
    let Some(version) = &entry.version else {
        return false;
    };
    if version.compare(old).is_eq() {
        new.satisfies(bound)
    } else {
        satisfies(version, bound)
    }
}

/// Whether an atom matches an entry, as a new version of its package has it.
pub fn matches_moved(
    repo: &Repository,
    atom: &Atom,
    entry: &Provide,
    old: &Version,
    new: &ClassExample,
) -> bool
    ensures { IsTrue result ↔ MatchesByEntry repo.now.architecture atom.now (moved_entry old.now new.now entry.now) }
{
    entry.name == atom.name && repo.usable(&entry.qualifier) && meets_moved(atom, entry, old, new)
}
