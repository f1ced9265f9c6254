//! What the clauses of a space mean, apart from the work. These functions do nothing.
ghost use Rattle.std.specs.Prelude.{Bool, List};
ghost use Rattle.dist_clause.specs.Formula.{IsModel, Literal, value_of};
ghost use Rattle.dist_space.specs.Space.{IsSpace, SpaceView};
ghost use Rattle.dist_space_clauses.specs.SpaceClauses.{AreSpaceClauses};
ghost use Rattle.dist_future.specs.Moved.{TellOfMoves};
ghost use Rattle.dist_future.specs.SpaceLaws.{StandForFutures, StandsForFuture};

use dist_classes::{new_names_match_alike, new_versions_match_alike, versions_are_in_one_class};

/// The models of the clauses of a space stand for the futures of its repository, for the futures in which a cluster is at a
/// version, whichever version of a class that is, and for the archive of today.
pub fn models_stand_for_futures()
    ensures { (s : SpaceView) (clauses : List (List Literal)) → IsSpace s → AreSpaceClauses s clauses → StandForFutures s clauses }
{
    versions_are_in_one_class();
    new_versions_match_alike();
    new_names_match_alike();
}

/// Each model stands for a future and a healthy installation in it: what its true meanings say, with examples of the classes.
pub fn each_model_is_a_future()
    ensures { (s : SpaceView) (clauses : List (List Literal)) (values : List Bool) → IsSpace s → AreSpaceClauses s clauses
        → IsModel (value_of values) clauses → StandsForFuture s values }
{
    versions_are_in_one_class();
    new_versions_match_alike();
    new_names_match_alike();
}

/// Each healthy installation of a future has a model in which no cluster is at a class but those that have moved there, and in the
/// future that a model stands for exactly the clusters at a class have moved, each to the example of its class.
pub fn models_tell_of_moves()
    ensures { (s : SpaceView) (clauses : List (List Literal)) → IsSpace s → AreSpaceClauses s clauses → TellOfMoves s clauses }
{
    versions_are_in_one_class();
    new_versions_match_alike();
    new_names_match_alike();
}
