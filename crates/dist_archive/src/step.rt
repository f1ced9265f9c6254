//! Steps of an archive, and why one is refused.
ghost use Rattle.std.specs.Prelude.{◌≡◌};

use dist_relation::Name;
use dist_repo::Repository;
use dist_version::Version;
use std::alloc::AllocError;

/// One step of an archive. A block is what a Packages text brings.
#[derive(Drop)]
pub enum Step {
    /// A cluster, by its number, at a version, with the packages that come of it.
    Upload(u32, Version, Repository),
    /// The name of the package that goes.
    Removal(Name),
    /// The one package that comes.
    NewName(Repository),
}

/// Why a step is refused. Numbers are those of packages of its block.
#[derive(Clone, Copy, Debug, PartialEq, Eq)]
pub enum StepError {
    /// The block has an architecture, and it is not the repository's.
    OtherArchitecture,
    /// The version is not above the cluster's top and every version that is held of the cluster's names.
    NotAbove,
    /// The package has no name of the cluster.
    NotMember(u32),
    /// Its version is not equal to the step's.
    NotAtVersion(u32),
    /// Its Provides are not those of a new version.
    WrongProvides(u32),
    /// No package of that name is held.
    NotHeld,
    /// The block has not exactly one package.
    NotOne,
    /// A package of the repository has the name, or one that is held.
    NameTaken,
    /// An entry of Provides of the repository has the name.
    NameVirtual,
    /// The package provides something.
    HasProvides,
    NoMemory,
}

impl From<AllocError> for StepError {
    ghost use Rattle.dist_archive.specs.declared.step.StepError.TheVariants.{NoMemory};

    ghost from_gives = { λ _ e. e ≡ NoMemory };

    fn from(_: AllocError) -> StepError {
        StepError::NoMemory
    }
}
