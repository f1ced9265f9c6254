//! Laws of packages that stay broken, apart from any run. The functions do nothing.
ghost use Rattle.std.specs.Prelude.{Bool, ℕ, ◌<◌, List, length};
ghost use Rattle.dist_repo.specs.Order.{IsFlat};
ghost use Rattle.dist_repo.specs.PackageList.{PackageList};
ghost use Rattle.dist_repo.specs.declared.package.Package.{Package};
ghost use Rattle.dist_space.specs.Space.{IsSpace, SpaceView, cluster_classes};
ghost use Rattle.dist_future.specs.Future.{IsFuture};
ghost use Rattle.dist_future.specs.Outdated.{Challenges, HoldsCluster, IsInstallableIn};
ghost use Rattle.dist_future.specs.Pairs.{IsOfPair};
ghost use Rattle.dist_archive.specs.Steps.{IsOfCluster, Lead};
ghost use Rattle.dist_archive.specs.declared.step.Step.{Step};
ghost use Rattle.dist_history.specs.Left.{HoldsNoOther, HoldsNothing};

use dist_archive::steps_reach_futures;

/// A version that challenges a package breaks it for as long as no package of the cluster's names is held at another version: no
/// such future, and no such archive that further steps lead to, has a healthy installation with the package itself. Packages of
/// the cluster may be missing, one or all. A future that holds the cluster at the version is such a one.
pub fn missing_packages_mend_nothing()
    ensures future { (essential : Bool) (r : PackageList) (c p : Package) (version : List ℕ) (future : List Package) → IsFlat r.packages
        → Challenges essential r c version p → IsFuture r future → HoldsNoOther r future c version → ¬ IsInstallableIn essential r future p }
    ensures steps { (essential : Bool) (s : SpaceView) (c p : Package) (version : List ℕ) (steps : List Step) (old new : List Package) → IsSpace s
        → Challenges essential s.repository c version p → IsFuture s.repository old → Lead s steps old new
        → HoldsNoOther s.repository new c version → ¬ IsInstallableIn essential s.repository new p }
    ensures whole { (r : PackageList) (future : List Package) (c : Package) (version : List ℕ) → IsFuture r future
        → HoldsCluster r future c version → HoldsNoOther r future c version }
{
    steps_reach_futures();
}

/// A package that some version of a cluster challenges needs the cluster: no future that has nothing of the cluster's names has a
/// healthy installation with the package itself. So it is of a package that each version of some class of the cluster challenges.
pub fn challenged_packages_need_the_cluster()
    ensures version { (essential : Bool) (r : PackageList) (c p : Package) (version : List ℕ) (future : List Package) → IsFlat r.packages
        → Challenges essential r c version p → IsFuture r future → HoldsNothing r future c → ¬ IsInstallableIn essential r future p }
    ensures class { (s : SpaceView) (cluster class : ℕ) (c p : Package) (future : List Package) → IsSpace s → IsOfCluster s cluster c
        → class < length (cluster_classes s cluster)
        → ((version : List ℕ) → IsOfPair s cluster class c version → Challenges s.essential s.repository c version p)
        → IsFuture s.repository future → HoldsNothing s.repository future c → ¬ IsInstallableIn s.essential s.repository future p }
{}
