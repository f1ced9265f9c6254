//! Small spaces for tests.
ghost use Rattle.std.specs.Prelude.{◌≤◌};

use dist_future::{Space, SpaceError, space_of};
use dist_samples::repository;
use std::alloc::Global;

/// Two packages of one source, and one that needs them at versions that they never have together.
pub(crate) const ONE_SOURCE: &str =
    "Package: a\nVersion: 1\nSource: s\n\nPackage: b\nVersion: 1\nSource: s\n\nPackage: p\nVersion: 1\nDepends: a (= 1), b (>= 2)\n";

/// What a package needs provides a name that the package is in conflict with.
pub(crate) const VIRTUAL: &str =
    "Package: p\nVersion: 1\nDepends: q\nConflicts: m\n\nPackage: q\nVersion: 1\nProvides: m\n";

/// An entry at the version of its package, and a package that is in conflict with later ones.
pub(crate) const MOVING: &str =
    "Package: libx\nVersion: 1\nProvides: abi (= 1)\n\nPackage: p\nVersion: 1\nDepends: libx\nConflicts: abi (>= 2)\n";

/// An essential package, and one that is in conflict with its later versions.
pub(crate) const ESSENTIAL: &str =
    "Package: base\nVersion: 1\nEssential: yes\n\nPackage: p\nVersion: 1\nConflicts: base (>= 2)\n";

/// A package that needs one of a new name.
pub(crate) const NEW_NAME: &str = "Package: p\nVersion: 1\nDepends: foo (<< 1)\n";

/// The space of some stanzas, of a number of variables at most, or why there is none.
pub(crate) fn space_within(
    alloc: Global,
    stanzas: &str,
    essential: bool,
    variables: u32,
) -> Option<Result<Space, SpaceError>>
    requires { variables ≤ 1000 }
{
    let repo = repository(alloc, stanzas)?;
    if repo.is_flat() && repo.is_within_size() {
        Some(space_of(alloc, repo, essential, variables))
    } else {
        drop(repo);
        None
    }
}

/// The space of some stanzas, which is not large.
pub(crate) fn small_space(alloc: Global, stanzas: &str, essential: bool) -> Option<Space> {
    match space_within(alloc, stanzas, essential, 1000) {
        Some(Ok(space)) => Some(space),
        _ => None,
    }
}
