//! Laws of classes, apart from the work: what holds of all versions and packages. The functions do nothing.
ghost use Rattle.std.specs.Prelude.{◌≡◌, ◌↔◌, ℕ, All, Bool, List, Some, Contains, slice_get};
ghost use Rattle.dist_relation.specs.declared.atom.Atom.{Atom};
ghost use Rattle.dist_repo.specs.Match.{Matches};
ghost use Rattle.dist_repo.specs.PackageList.{PackageList};
ghost use Rattle.dist_repo.specs.declared.package.Package.{Package};
ghost use Rattle.dist_version.specs.Order.{IsBelow};
ghost use Rattle.dist_version.specs.Spelling.{IsVersion};
ghost use Rattle.dist_classes.specs.Answers.{AreClassesOf, AreClassesOfName};
ghost use Rattle.dist_classes.specs.Atoms.{AreBoundsVersions, IsAtomOf};
ghost use Rattle.dist_classes.specs.ClassList.{classes_above, classes_of_all, HasExample, IsOfClassAt, IsInOneClass, AreInOneClass};
ghost use Rattle.dist_classes.specs.Cuts.{AreCuts, IsClusterCut, IsNameCut, Rises, RisesFrom};
ghost use Rattle.dist_classes.specs.NewNames.{AreNewNames};
ghost use Rattle.dist_classes.specs.NewVersion.{IsNewVersionOf, IsOfNewName};
ghost use Rattle.dist_classes.specs.declared.class_value.Class.{Class};

use dist_version::versions_are_dense;

/// Each version above a top is in one class of those above it, and no other version is. Each version is in one of all classes.
pub fn versions_are_in_one_class()
    ensures above { (top : List ℕ) (cuts : List (List ℕ)) → RisesFrom top cuts → (v : List ℕ) → IsBelow top v → IsInOneClass (classes_above top cuts) v }
    ensures below { (top : List ℕ) (cuts : List (List ℕ)) → RisesFrom top cuts → (v : List ℕ) (number : ℕ) → IsOfClassAt (classes_above top cuts) number v → IsBelow top v }
    ensures all { (cuts : List (List ℕ)) → Rises cuts → (v : List ℕ) → IsInOneClass (classes_of_all cuts) v }
{}

/// A cluster has one list of cuts, and so has a new name.
pub fn cuts_are_one()
    ensures cluster { (r : PackageList) (members top : List ℕ) (a b : List (List ℕ)) → AreCuts (IsClusterCut r members top) a → AreCuts (IsClusterCut r members top) b → a ≡ b }
    ensures name { (r : PackageList) (name : List ℕ) (a b : List (List ℕ)) → AreCuts (IsNameCut r name) a → AreCuts (IsNameCut r name) b → a ≡ b }
{}

/// A cluster has its classes, and so has a new name.
pub fn classes_are_there()
    ensures cluster { (r : PackageList) (members top : List ℕ) → (classes : List Class) × AreClassesOf r members top classes }
    ensures name { (r : PackageList) (name : List ℕ) → (classes : List Class) × AreClassesOfName r name classes }
{}

/// No class of a cluster or of a new name is empty: its example is a version of it, whatever memory there is.
pub fn no_class_is_empty()
    ensures cluster { (r : PackageList) (members top : List ℕ) (classes : List Class) → AreBoundsVersions r → IsVersion top → AreClassesOf r members top classes → All HasExample classes }
    ensures name { (r : PackageList) (name : List ℕ) (classes : List Class) → AreBoundsVersions r → AreClassesOfName r name classes → All HasExample classes }
{
    versions_are_dense();
}

/// A repository has one list of new names.
pub fn new_names_are_one()
    ensures there { (r : PackageList) → (names : List (List ℕ)) × AreNewNames r names }
    ensures one { (r : PackageList) (names others : List (List ℕ)) → AreNewNames r names → AreNewNames r others → names ≡ others }
{}

/// New versions of one member at versions of one class, with the same entries of Provides left out, match the same atoms.
pub fn new_versions_match_alike()
    ensures { (r : PackageList) (members top : List ℕ) (cuts : List (List ℕ)) → AreCuts (IsClusterCut r members top) cuts →
        (number : ℕ) (p : Package) → Contains members number → slice_get r.packages number ≡ Some p →
        (kept : List Bool) (first second : Package) → IsNewVersionOf p kept first → IsNewVersionOf p kept second →
        AreInOneClass (classes_above top cuts) first.version second.version →
        (atom : Atom) → IsAtomOf r atom → Matches r.architecture atom first ↔ Matches r.architecture atom second }
{}

/// Packages of one new name at versions of one class match the same atoms.
pub fn new_names_match_alike()
    ensures { (r : PackageList) (name : List ℕ) (cuts : List (List ℕ)) → AreCuts (IsNameCut r name) cuts →
        (first second : Package) → IsOfNewName name first → IsOfNewName name second →
        AreInOneClass (classes_of_all cuts) first.version second.version →
        (atom : Atom) → IsAtomOf r atom → Matches r.architecture atom first ↔ Matches r.architecture atom second }
{}
