//! What health means, apart from the work. These functions do nothing.
ghost use Rattle.std.specs.Prelude.{◌≡◌, ◌↔◌, Bool, List};
ghost use Rattle.dist_clause.specs.Formula.{IsModel, Literal, value_of};
ghost use Rattle.dist_base.specs.Least.{IsNoPair};
ghost use Rattle.dist_future.specs.Future.{IsFuture};
ghost use Rattle.dist_future.specs.FutureClauses.{AreTrueAround, MeetsFuture};
ghost use Rattle.dist_future.specs.FutureHealth.{AreNoFuture, IsFutureHealth};
ghost use Rattle.dist_future.specs.HealthLaws.{IsHealthyIn, StandsForHealthy};
ghost use Rattle.dist_space.specs.Space.{IsSpace, SpaceView};
ghost use Rattle.dist_space_clauses.specs.Ends.{AreEndsOf};
ghost use Rattle.dist_space_clauses.specs.SpaceClauses.{AreSpaceClauses};
ghost use Rattle.dist_space_clauses.specs.declared.ends.FutureEnds.{FutureEnds};
ghost use Rattle.dist_future.specs.SpaceLaws.{StandsForFuture, future_under};
ghost use Rattle.dist_future.specs.declared.health_kind.FutureHealth.{FutureHealth};

use dist_classes::{new_names_match_alike, new_versions_match_alike, versions_are_in_one_class};

/// An assignment has one health.
pub fn one_future_health()
    ensures { (s : SpaceView) (values : List Bool) (health other : FutureHealth) → IsFutureHealth s values health → IsFutureHealth s values other
        → other ≡ health }
{}

/// The healthy assignments are exactly the models of the clauses of the space.
pub fn healthy_are_models()
    ensures { (s : SpaceView) (clauses : List (List Literal)) (values : List Bool) → IsSpace s → AreSpaceClauses s clauses
        → IsHealthyIn s values ↔ IsModel (value_of values) clauses }
{}

/// An assignment is healthy exactly where it stands for a future and the installation that it stands for is a healthy one of
/// that: what its true meanings say, with examples of the classes.
pub fn healthy_stand_for_futures()
    ensures future { (s : SpaceView) (values : List Bool) → IsSpace s → IsHealthyIn s values → StandsForFuture s values }
    ensures exactly { (s : SpaceView) (values : List Bool) → IsSpace s → IsHealthyIn s values ↔ StandsForHealthy s values }
{
    versions_are_in_one_class();
    new_versions_match_alike();
    new_names_match_alike();
}

/// An assignment stands for a future exactly where it makes each clause of the demands of futures true: those of the groups 1,
/// 2, 3 and 6. The packages that it then stands for are a future.
pub fn futures_meet_their_clauses()
    ensures exactly { (s : SpaceView) (values : List Bool) → IsNoPair (AreNoFuture s values) ↔ MeetsFuture s values }
    ensures future { (s : SpaceView) (values : List Bool) → IsSpace s → MeetsFuture s values → IsFuture s.repository (future_under s values) }
{
    versions_are_in_one_class();
    new_versions_match_alike();
    new_names_match_alike();
}

/// In the list of a space's clauses those that say what a future is stand in two parts: the front, up to the end of group 3, and
/// the clauses of the archive of today, from the end of group 5 to that of group 6.
pub fn future_clauses_are_two_parts()
    ensures { (s : SpaceView) (clauses : List (List Literal)) (ends : FutureEnds) (values : List Bool) → AreSpaceClauses s clauses
        → AreEndsOf s clauses ends → MeetsFuture s values ↔ AreTrueAround (value_of values) ends clauses }
{}
