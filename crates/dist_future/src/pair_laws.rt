//! What the models of a space's clauses say of pairs of a cluster and a class, apart from the work. These functions do nothing.
ghost use Rattle.std.specs.Prelude.{◌≡◌, ◌↔◌, ◌∷◌, [], ℕ, Bool, List, Some, slice_get};
ghost use Rattle.dist_clause.specs.Formula.{IsModel, Literal, value_of};
ghost use Rattle.dist_cluster.specs.Partition.{IsIn};
ghost use Rattle.dist_cluster.specs.Relation.{AreClustered};
ghost use Rattle.dist_repo.specs.declared.package.Package.{Package};
ghost use Rattle.dist_classes.specs.Answers.{member_of};
ghost use Rattle.dist_classes.specs.ClassList.{IsInOneClass};
ghost use Rattle.dist_space.specs.Space.{IsMeaning, IsSpace, SpaceView, cluster_classes};
ghost use Rattle.dist_space.specs.declared.meaning.Meaning.TheVariants.{At, Present};
ghost use Rattle.dist_space_clauses.specs.SpaceClauses.{AreSpaceClauses};
ghost use Rattle.dist_future.specs.Future.{IsAboveCluster};
ghost use Rattle.dist_future.specs.FutureHealth.{Holds};
ghost use Rattle.dist_future.specs.Pairs.{Covers, IsOfPair, TellOfPackage};
ghost use Rattle.dist_future.specs.SpaceLaws.{HasModelWith};

use dist_classes::{new_names_match_alike, new_versions_match_alike, versions_are_in_one_class};

/// Where a model covers a pair, some model with the same package has the pair's cluster at its class: a cluster of which an
/// installation uses no package can be at each of its classes.
pub fn covered_pairs_have_models()
    ensures { (s : SpaceView) (clauses : List (List Literal)) (values : List Bool) (n cluster class : ℕ) → IsSpace s → AreSpaceClauses s clauses
        → IsModel (value_of values) clauses → Holds s values (Present n) → IsMeaning s (At cluster class) → Covers s values cluster class
        → HasModelWith s clauses (Present n ∷ At cluster class ∷ []) }
{}

/// What the models say of a package: where it is outdated, which versions challenge it, and which don't.
pub fn models_tell_of_packages()
    ensures { (s : SpaceView) (clauses : List (List Literal)) (n : ℕ) (p : Package) → IsSpace s → AreSpaceClauses s clauses
        → slice_get s.repository.packages n ≡ Some p → TellOfPackage s clauses n p }
{
    versions_are_in_one_class();
    new_versions_match_alike();
    new_names_match_alike();
}

/// Packages are in the cluster of one number exactly where they are clustered. A version is above the top of a cluster exactly
/// where some class of that cluster has it, and then no other class does.
pub fn clusters_and_classes_are_numbered()
    ensures clusters { (s : SpaceView) (cluster m n : ℕ) (p q : Package) → IsSpace s → IsIn s.clusters.members cluster m
        → slice_get s.repository.packages m ≡ Some p → slice_get s.repository.packages n ≡ Some q
        → IsIn s.clusters.members cluster n ↔ AreClustered (member_of p) (member_of q) }
    ensures above { (s : SpaceView) (cluster class : ℕ) (q : Package) (version : List ℕ) → IsSpace s → IsOfPair s cluster class q version
        → IsAboveCluster s.repository q version }
    ensures one_class { (s : SpaceView) (cluster m : ℕ) (q : Package) (version : List ℕ) → IsSpace s → IsIn s.clusters.members cluster m
        → slice_get s.repository.packages m ≡ Some q → IsAboveCluster s.repository q version → IsInOneClass (cluster_classes s cluster) version }
{
    versions_are_in_one_class();
    new_versions_match_alike();
    new_names_match_alike();
}
