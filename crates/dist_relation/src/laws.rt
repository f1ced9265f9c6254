//! Laws of relations, apart from the work: what holds of all values. The functions do nothing.
ghost use Rattle.std.specs.Prelude.{ℕ, ◌≤◌, ◌<◌, List, length, sum_by, All};
ghost use Rattle.dist_base.specs.Answers.{IsExact};
ghost use Rattle.dist_relation.specs.declared.atom.Atom.{Atom};
ghost use Rattle.dist_relation.specs.declared.atom.Kind.TheVariants.{Depends, Conflicts, Provides};
ghost use Rattle.dist_relation.specs.declared.atom.Provide.{Provide};
ghost use Rattle.dist_relation.specs.declared.error.RelationError.{RelationError};
ghost use Rattle.dist_relation.specs.Grammar.{ReadsDepends, ReadsAtoms, ReadsProvides};
ghost use Rattle.dist_relation.specs.Faults.{FirstDependsFault, FirstAtomsFault, FirstProvidesFault, Comes};

/// Each value has one reading or one first fault, and not both.
pub fn values_are_exact()
    ensures depends { (value : List ℕ) → IsExact (ReadsDepends value) (FirstDependsFault value) }
    ensures atoms { (value : List ℕ) → IsExact (ReadsAtoms value) (FirstAtomsFault value) }
    ensures provides { (value : List ℕ) → IsExact (ReadsProvides value) (FirstProvidesFault value) }
{}

/// Which faults the kinds of values have.
pub fn faults_come()
    ensures depends { (value : List ℕ) (error : RelationError) → FirstDependsFault value error → Comes Depends error }
    ensures atoms { (value : List ℕ) (error : RelationError) → FirstAtomsFault value error → Comes Conflicts error }
    ensures provides { (value : List ℕ) (error : RelationError) → FirstProvidesFault value error → Comes Provides error }
{}

/// Each atom and each entry takes a byte of its value at least, and each item has an atom.
pub fn items_take_bytes()
    ensures depends { (value : List ℕ) (items : List (List Atom)) → ReadsDepends value items → sum_by (λ item. length item) items ≤ length value }
    ensures atoms { (value : List ℕ) (atoms : List Atom) → ReadsAtoms value atoms → length atoms ≤ length value }
    ensures provides { (value : List ℕ) (entries : List Provide) → ReadsProvides value entries → length entries ≤ length value }
    ensures some { (value : List ℕ) (items : List (List Atom)) → ReadsDepends value items → All (λ item. 0 < length item) items }
{}
