//! How the clauses of a space stand behind each other, apart from the work. These functions do nothing.
ghost use Rattle.std.specs.Prelude.{◌≡◌, ℕ, List};
ghost use Rattle.dist_clause.specs.Formula.{Literal};
ghost use Rattle.dist_space_clauses.specs.ClauseLaws.{GoesOn};
ghost use Rattle.dist_space.specs.Space.{IsSpace, SpaceView};
ghost use Rattle.dist_space_clauses.specs.SpaceClauses.{AreClausesBefore, AreSpaceClauses, Demand, IsClauseFor, IsDemand};
ghost use Rattle.dist_space_clauses.specs.SpaceSet.{PassesClauses, PassesLiterals};

/// Each space has a list of clauses.
pub fn space_clauses_are_there()
    ensures { (s : SpaceView) → IsSpace s → (clauses : List (List Literal)) × AreSpaceClauses s clauses }
{}

/// A space has one list of clauses.
pub fn space_clauses_are_one()
    ensures { (s : SpaceView) (clauses other : List (List Literal)) → AreSpaceClauses s clauses → AreSpaceClauses s other → other ≡ clauses }
{}

/// The clauses before a demand's are a front of the list, and the demand's clause stands behind them.
pub fn space_clauses_go_on()
    ensures { (s : SpaceView) (d : Demand) (whole front : List (List Literal)) (clause : List Literal) → AreSpaceClauses s whole
        → AreClausesBefore s d front → IsDemand s d → IsClauseFor s d clause → GoesOn whole front clause }
{}

/// Only one of the two limits is passed first.
pub fn one_limit_is_passed()
    ensures { (s : SpaceView) (clause_limit literal_limit : ℕ) → IsSpace s → PassesClauses s clause_limit literal_limit
        → ¬ PassesLiterals s clause_limit literal_limit }
{}
