//! What a certificate says of pairs of a cluster and a class, in the words of the space. The function does nothing.
ghost use Rattle.std.specs.Prelude.{◌+◌, ◌↔◌, ℕ, List, length};
ghost use Rattle.dist_cert.specs.ClaimRules as rules;
ghost use Rattle.dist_clause.specs.Formula.{Literal};
ghost use Rattle.dist_cluster.specs.Partition.{IsIn};
ghost use Rattle.dist_future.specs.Pairs as pairs;
ghost use Rattle.dist_space.specs.Space.{IsMeaning, IsSpace, SpaceView};
ghost use Rattle.dist_space.specs.declared.meaning.Meaning.TheVariants.{At};
ghost use Rattle.dist_subject.specs.Later.{later_matter};
ghost use Rattle.dist_subject.specs.Present.{truth_of};

/// A pair that a claim on a package may name is a class of a cluster without the package, and an installation covers it where
/// the set of its variables does so in the space. Certificates number packages, clusters and classes from 1.
pub fn pairs_are_of_the_space()
    ensures pairs { (s : SpaceView) (inputs : List (List Literal)) (number cluster class : ℕ) → IsSpace s
        → rules.IsPairFor (later_matter s inputs) (number + 1) (cluster + 1, class + 1)
        ↔ (IsMeaning s (At cluster class) × (¬ IsIn s.clusters.members cluster number)) }
    ensures covered { (s : SpaceView) (inputs : List (List Literal)) (members : List ℕ) (cluster class : ℕ) → IsSpace s
        → IsMeaning s (At cluster class) → rules.Covers (later_matter s inputs) (cluster + 1, class + 1) members
        ↔ pairs.Covers s (truth_of (length s.meanings) members) cluster class }
{}
