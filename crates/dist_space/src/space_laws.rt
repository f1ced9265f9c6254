//! Laws of spaces, apart from the work. The functions do nothing.
ghost use Rattle.std.specs.Prelude.{◌≡◌, ◌+◌, ◌<◌, ℕ, All, Bool, length};
ghost use Rattle.dist_version.specs.Spelling.{IsVersion};
ghost use Rattle.dist_repo.specs.Order.{IsFlat};
ghost use Rattle.dist_repo.specs.PackageList.{PackageList};
ghost use Rattle.dist_classes.specs.Atoms.{AreBoundsVersions};
ghost use Rattle.dist_space.specs.Space.{IsSpace, SpaceView, variable_of};
ghost use Rattle.dist_space.specs.SpaceOf.{IsSpaceOf};
ghost use Rattle.dist_space.specs.declared.meaning.Meaning.TheVariants.{Now, Present};

use dist_classes::{classes_are_there, cuts_are_one, new_names_are_one, no_class_is_empty};
use dist_cluster::{partitions_are_one, tops_are_one};

/// A flat repository has a space at each mode, at least where its versions and those of its bounds are versions, as they are in
/// a repository that was read.
pub fn spaces_are_there()
    ensures { (r : PackageList) (essential : Bool) → IsFlat r.packages → AreBoundsVersions r → All (λ p. IsVersion p.version) r.packages
        → (s : SpaceView) × IsSpaceOf r essential s }
{
    partitions_are_one();
    tops_are_one();
    classes_are_there();
    no_class_is_empty();
    new_names_are_one();
}

/// A repository has one space at a mode.
pub fn spaces_are_one()
    ensures { (r : PackageList) (essential : Bool) (s other : SpaceView) → IsSpaceOf r essential s → IsSpaceOf r essential other → other ≡ s }
{
    partitions_are_one();
    tops_are_one();
    cuts_are_one();
    new_names_are_one();
}

/// The first variable says that the archive is today's, and the packages as they are follow in their order.
pub fn packages_come_first()
    ensures now { (s : SpaceView) → IsSpace s → variable_of s Now ≡ 1 }
    ensures packages { (s : SpaceView) (number : ℕ) → IsSpace s → number < length s.repository.packages → variable_of s (Present number) ≡ number + 2 }
{}
