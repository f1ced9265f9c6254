//! Laws of clusters, apart from the work: what holds of all packages. The functions do nothing.
ghost use Rattle.std.specs.Prelude.{◌≡◌, ℕ, List};
ghost use Rattle.dist_cluster.specs.Partition.{IsIn, IsPartition};
ghost use Rattle.dist_cluster.specs.Relation.{Member, AreClustered};
ghost use Rattle.dist_cluster.specs.Top.{AreTops, IsTop};

/// To be clustered is an equivalence.
pub fn clustered_is_an_equivalence()
    ensures itself { (a : Member) → AreClustered a a }
    ensures turned { (a b : Member) → AreClustered a b → AreClustered b a }
    ensures joined { (a b c : Member) → AreClustered a b → AreClustered b c → AreClustered a c }
{}

/// All packages have a partition, they have no other, and in it each member is in one cluster.
pub fn partitions_are_one()
    ensures there { (members : List Member) → (clusters : List (List ℕ)) × IsPartition members clusters }
    ensures one { (members : List Member) (a b : List (List ℕ)) → IsPartition members a → IsPartition members b → a ≡ b }
    ensures one_cluster { (members : List Member) (clusters : List (List ℕ)) → IsPartition members clusters → (c d m : ℕ) → IsIn clusters c m → IsIn clusters d m → c ≡ d }
{}

/// A cluster has one top, and the clusters of a partition have theirs.
pub fn tops_are_one()
    ensures there { (members : List Member) (clusters : List (List ℕ)) → IsPartition members clusters → (tops : List (List ℕ)) × AreTops members (record { members = clusters; tops = tops }) }
    ensures one { (members : List Member) (cluster a b : List ℕ) → IsTop members cluster a → IsTop members cluster b → a ≡ b }
{}
