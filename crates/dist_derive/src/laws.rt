//! Laws over the definitions, on which a search and a reader of certificates stand: what settles a clause, what makes
//! one new, what hints are, and what the cone is. The functions do nothing; their clauses are the laws.

ghost use Rattle.std.specs.Prelude.{◌≡◌, ◌≢◌, ◌+◌, ◌^◌, ◌≤◌, ◌↔◌, ℕ, Bool, false, List, [], ◌∷◌, ◌++◌, length, map, take, All, AllPairs, Any, Contains};
ghost use Rattle.dist_clause.specs.Formula.{Literal, IsClauseOver, MakesTrue, IsModel};
ghost use Rattle.dist_clause.specs.ClauseList.{clause_at};
ghost use Rattle.dist_derive.specs.ContainmentPrivate.{ContainsAll};
ghost use Rattle.dist_derive.specs.Propagation.{IsFalse, IsUnset, AllFalse, IsUnit, IsPropagated, IsConsistent, IsSettled};
ghost use Rattle.dist_derive.specs.Follows.{IsNumberOf, EndsFalse, Follows, Step, AreUnitSteps, EachLineFollows};
ghost use Rattle.dist_derive.specs.Cone.{InCone, IsWithinCone};
ghost use Rattle.dist_derive.specs.Safe.{AreSafe, IsResolvent, AreSettledWithin};
ghost use Rattle.dist_derive.specs.New.{IsNew, EachIsNew};

/// Where each derived line follows from the clauses before it, every model of the input clauses is one of all clauses, and
/// makes true whatever follows from them.
pub fn lines_keep_models()
    ensures all { (inputs : ℕ) (clauses : List (List Literal)) (value : ℕ → Bool) → EachLineFollows inputs clauses
        → IsModel value (take inputs clauses) → IsModel value clauses }
    ensures what_follows { (inputs : ℕ) (clauses : List (List Literal)) (clause : List Literal) (hints : List ℕ)
        (value : ℕ → Bool) → EachLineFollows inputs clauses → Follows clauses clause hints
        → IsModel value (take inputs clauses) → MakesTrue value clause }
{}

/// What follows still does when clauses are added behind, and a log in which every line follows keeps that with a line
/// that follows.
pub fn more_clauses_keep_what_follows()
    ensures follows { (clauses more : List (List Literal)) (clause : List Literal) (hints : List ℕ)
        → Follows clauses clause hints → Follows (clauses ++ more) clause hints }
    ensures lines { (inputs : ℕ) (clauses : List (List Literal)) (clause : List Literal) (hints : List ℕ)
        → EachLineFollows inputs clauses → Follows clauses clause hints
        → EachLineFollows inputs (clauses ++ clause ∷ []) }
{}

/// Unit steps, and after them a clause that is false: the numbers of their clauses in that order are hints. The order of
/// the literals that are true at the start is free. There are at most as many steps as variables that were unset, so
/// that the hints are at most the variables and one.
pub fn unit_steps_are_hints()
    ensures hints { (clauses : List (List Literal)) (trues : List Literal) (steps : List Step) (last : ℕ)
        → AreUnitSteps clauses trues steps → IsNumberOf clauses last
        → AllFalse (trues ++ map (λ s. s.made_true) steps) (clause_at clauses last)
        → EndsFalse clauses trues (map (λ s. s.number) steps ++ last ∷ []) }
    ensures any_order { (clauses : List (List Literal)) (trues other : List Literal) (hints : List ℕ)
        → ContainsAll trues other → ContainsAll other trues → EndsFalse clauses trues hints
        → EndsFalse clauses other hints }
    ensures few { (n : ℕ) (clauses : List (List Literal)) (trues : List Literal) (steps : List Step)
        → All (IsClauseOver n) clauses → IsClauseOver n trues → AreUnitSteps clauses trues steps
        → length trues + length steps ≤ n }
{}

/// A clause is settled, that is, not false, and what it gives is true: by a true literal, or by two literals of different
/// variables that are not false; and wherever it is neither false nor unit. A unit clause stays unit under more true
/// literals while its literal is unset.
pub fn what_settles_a_clause()
    ensures true_literal { (trues clause : List Literal) (l : Literal) → IsConsistent trues → Contains clause l
        → Contains trues l → (¬ AllFalse trues clause) × IsPropagated trues clause }
    ensures two_literals { (trues clause : List Literal) (l m : Literal) → Contains clause l → Contains clause m
        → l.variable ≢ m.variable → (¬ IsFalse trues l) → (¬ IsFalse trues m)
        → (¬ AllFalse trues clause) × IsPropagated trues clause }
    ensures neither { (trues clause : List Literal) → (¬ AllFalse trues clause)
        → ((l : Literal) → ¬ IsUnit trues clause l) → IsPropagated trues clause }
    ensures unit_stays { (trues more clause : List Literal) (l : Literal) → ContainsAll more trues → IsUnset more l
        → IsUnit trues clause l → IsUnit more clause l }
{}

/// Settled literals that have the assumptions, make the rest of a clause false and leave its first literal unset show
/// that clause new.
pub fn settled_literals_make_new()
    ensures { (clauses : List (List Literal)) (inputs : ℕ) (assumptions : List Literal) (first : Literal)
        (rest trues : List Literal) → AllPairs (λ l m. l.variable ≢ m.variable) (first ∷ rest)
        → IsWithinCone (take inputs clauses) assumptions (first ∷ rest) → IsSettled clauses trues
        → ContainsAll trues assumptions → AllFalse trues rest → IsUnset trues first
        → IsNew clauses inputs assumptions (first ∷ rest) }
{}

/// No clause has only literals of a new one: a new clause is no copy of one that stands, nor a lengthened copy.
pub fn new_is_no_copy()
    ensures { (clauses : List (List Literal)) (inputs : ℕ) (assumptions clause copy : List Literal)
        → IsNew clauses inputs assumptions clause → Contains clauses copy → ¬ ContainsAll clause copy }
{}

/// Lines that are new one after another under the same assumptions are at most 3 to the power of the number of the
/// cone's variables. The cone is given by its list, as `mark_cone` gives it.
pub fn new_lines_are_few()
    ensures { (clauses : List (List Literal)) (inputs : ℕ) (assumptions : List Literal)
        (lines : List (List Literal)) (cone : List ℕ) → inputs ≤ length clauses
        → ((v : ℕ) → Contains cone v ↔ InCone (take inputs clauses) assumptions v)
        → EachIsNew clauses inputs assumptions lines → length lines ≤ 3 ^ length cone }
{}

/// The cone has the variables of the assumptions and is closed under the input clauses, so that it is the least such set.
pub fn cone_is_closed()
    ensures assumed { (inputs : List (List Literal)) (assumptions : List Literal)
        → IsWithinCone inputs assumptions assumptions }
    ensures closed { (inputs : List (List Literal)) (assumptions clause : List Literal) → Contains inputs clause
        → All (λ l. l.positive ≡ false → InCone inputs assumptions l.variable) clause
        → IsWithinCone inputs assumptions clause }
{}

/// The cone depends on the input clauses alone and grows with the assumptions, and an input clause that reaches outside
/// it has a negative literal there.
pub fn what_the_cone_depends_on()
    ensures inputs { (clauses more : List (List Literal)) (inputs : ℕ) (assumptions : List Literal) (v : ℕ)
        → inputs ≤ length clauses
        → InCone (take inputs (clauses ++ more)) assumptions v ↔ InCone (take inputs clauses) assumptions v }
    ensures assumptions { (inputs : List (List Literal)) (assumptions more : List Literal) (v : ℕ)
        → ContainsAll more assumptions → InCone inputs assumptions v → InCone inputs more v }
    ensures outside { (inputs : List (List Literal)) (assumptions : List Literal) (cone : List ℕ)
        (clause : List Literal) → ((v : ℕ) → Contains cone v ↔ InCone inputs assumptions v)
        → Contains inputs clause → (¬ IsWithinCone inputs assumptions clause)
        → Any (λ l. (l.positive ≡ false) × (¬ Contains cone l.variable)) clause }
{}

/// An assignment of the variables from 1 to n that makes the input clauses within the cone true and every variable
/// outside it false is a model of all input clauses. The cone is given by its list, as `mark_cone` gives it.
pub fn cone_models_extend()
    ensures { (n : ℕ) (inputs : List (List Literal)) (assumptions : List Literal) (cone : List ℕ)
        (value : ℕ → Bool) → All (IsClauseOver n) inputs
        → ((v : ℕ) → Contains cone v ↔ InCone inputs assumptions v)
        → All (λ clause. IsWithinCone inputs assumptions clause → MakesTrue value clause) inputs
        → ((v : ℕ) → 1 ≤ v → v ≤ n → (¬ Contains cone v) → value v ≡ false) → IsModel value inputs }
{}

/// Input clauses are safe, and a resolvent of safe clauses is. A clause that follows by resolution alone, with no literal
/// more, may so be added: all clauses of the log stay safe, for each question's cone. The order of literals is free.
pub fn what_is_safe()
    ensures inputs { (inputs : List (List Literal)) → AreSafe inputs inputs }
    ensures resolvent { (inputs : List (List Literal)) (one other resolvent : List Literal) (l : Literal)
        → AreSafe inputs (one ∷ []) → AreSafe inputs (other ∷ []) → IsResolvent one other l resolvent
        → AreSafe inputs (resolvent ∷ []) }
    ensures any_order { (inputs : List (List Literal)) (clause other : List Literal) → ContainsAll clause other
        → ContainsAll other clause → AreSafe inputs (clause ∷ []) → AreSafe inputs (other ∷ []) }
    ensures each { (inputs clauses : List (List Literal)) (clause : List Literal) → AreSafe inputs clauses
        → Contains clauses clause → AreSafe inputs (clause ∷ []) }
    ensures line { (clauses : List (List Literal)) (inputs : ℕ) (line : List Literal) → inputs ≤ length clauses
        → AreSafe (take inputs clauses) clauses → AreSafe (take inputs clauses) (line ∷ [])
        → AreSafe (take inputs (clauses ++ line ∷ [])) (clauses ++ line ∷ []) }
{}

/// Where the clauses are safe, true literals within the cone that settle the clauses within it settle all, once every
/// variable outside is false. Nothing else of the cone is true then.
pub fn what_settles_all()
    ensures { (n : ℕ) (inputs clauses : List (List Literal)) (assumptions : List Literal) (cone : List ℕ)
        (trues : List Literal) → ((v : ℕ) → Contains cone v ↔ InCone inputs assumptions v)
        → All (IsClauseOver n) clauses → AreSafe inputs clauses → IsConsistent trues
        → All (λ l. Contains cone l.variable) trues → AreSettledWithin cone clauses trues
        → (more : List Literal) × IsSettled clauses more × ContainsAll more trues
        × ((l : Literal) → Contains cone l.variable → Contains more l → Contains trues l) }
{}

/// So a clause within the cone is new where such literals hold the assumptions, make its rest false and leave its first literal
/// unset, as what is true before a decision does with the clause of the first implication point behind it. Of one that follows
/// the first literal can't be false then, since settled literals don't deny what follows.
pub fn first_points_are_new()
    ensures unset { (n : ℕ) (clauses : List (List Literal)) (inputs : ℕ) (assumptions : List Literal) (cone : List ℕ)
        (first : Literal) (rest trues : List Literal)
        → ((v : ℕ) → Contains cone v ↔ InCone (take inputs clauses) assumptions v)
        → All (IsClauseOver n) clauses → AreSafe (take inputs clauses) clauses
        → AllPairs (λ l m. l.variable ≢ m.variable) (first ∷ rest)
        → All (λ l. Contains cone l.variable) (first ∷ rest) → IsConsistent trues
        → All (λ l. Contains cone l.variable) trues → AreSettledWithin cone clauses trues
        → ContainsAll trues assumptions → AllFalse trues rest → IsUnset trues first
        → IsNew clauses inputs assumptions (first ∷ rest) }
    ensures follows { (n : ℕ) (clauses : List (List Literal)) (inputs : ℕ) (assumptions : List Literal) (cone : List ℕ)
        (first : Literal) (rest trues : List Literal) (hints : List ℕ)
        → ((v : ℕ) → Contains cone v ↔ InCone (take inputs clauses) assumptions v)
        → All (IsClauseOver n) clauses → AreSafe (take inputs clauses) clauses
        → AllPairs (λ l m. l.variable ≢ m.variable) (first ∷ rest)
        → All (λ l. Contains cone l.variable) (first ∷ rest) → IsConsistent trues
        → All (λ l. Contains cone l.variable) trues → AreSettledWithin cone clauses trues
        → ContainsAll trues assumptions → AllFalse trues rest → (¬ Contains trues first)
        → Follows clauses (first ∷ rest) hints → IsNew clauses inputs assumptions (first ∷ rest) }
    ensures not_denied { (clauses : List (List Literal)) (clause : List Literal) (hints : List ℕ) (trues : List Literal)
        → Follows clauses clause hints → IsSettled clauses trues → ¬ AllFalse trues clause }
{}
