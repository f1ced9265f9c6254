//! The steps of a search: propagation, decisions, what a conflict teaches, and going back.

ghost use Rattle.std.specs.Prelude.{◌≡◌, ◌≢◌, ◌≤◌, ◌<◌, ◌↔◌, ◌+◌, ◌-◌, ℕ, List, [], length, take, All, Contains, OnOk, IfOk, IfSome, IfNone, IsTrue};
ghost use Rattle.dist_clause.specs.Formula.{Literal, IsClauseOver};
ghost use Rattle.dist_clause.specs.ClauseList.{clause_at};
ghost use Rattle.dist_derive.specs.ClauseLog.{inputs_of};
ghost use Rattle.dist_derive.specs.Cone.{InCone};
ghost use Rattle.dist_derive.specs.Propagation.{IsUnset};
ghost use Rattle.dist_derive.specs.Safe.{AreSafe};
ghost use Rattle.dist_search.specs.Learned.{IsTaught, IsPoint};
ghost use Rattle.dist_search.specs.Search.{IsWatching, IsSearching, IsGoing, Gives, IsEnd};
ghost use Rattle.dist_search.specs.StepsPrivate.{IsAtConflict, IsAtRest, IsSet, IsLevel, Decides, IsPointAtLast, gone_back};

use crate::propagation::propagate;
use crate::search::{End, Search};
use crate::trail::Trail;
use dist_clause::Lit;
use dist_derive::{Log, VariableSet, first_points_are_new, what_settles_a_clause};
use dist_order::Order;
use std::alloc::AllocError;

impl Search {
    /// The last lesson became the log's clause of this number: it is watched, or noted by its single literal, and its first literal
    /// becomes true. After want of memory the search is of no use any more.
    pub fn learned(
        &mut self,
        log: &Log,
        cone: &VariableSet,
        assumptions: &[Lit],
    ) -> Result<(), AllocError>
        requires same_variables { self.old.trail.variables ≡ log.now.variables }
        requires assumptions { IsClauseOver log.now.variables assumptions.now }
        requires searching { IsSearching (take (length log.now.clauses - 1) log.now.clauses) assumptions.now cone.now.members self.old }
        requires going { IsGoing (take (length log.now.clauses - 1) log.now.clauses) cone.now.members self.old }
        requires gives { Gives cone.now.members self.old }
        requires some { 1 ≤ length log.now.clauses }
        requires line { clause_at log.now.clauses (length log.now.clauses) ≡ self.old.learned.clause }
        ensures searching { OnOk result (IsSearching log.now.clauses assumptions.now cone.now.members self.new) }
        ensures same_variables { self.new.trail.variables ≡ self.old.trail.variables }
    {
        let number = log.len();
        let clause = log.clause(number);
        self.add(clause, number)?;
        if let Some(first) = clause.first() {
            self.trail.keeps_invariant();
            self.trail.push(*first, number);
        }
        Ok(())
    }

    /// Propagates, and answers the number of a clause that is false.
    pub(crate) fn find_conflict(
        &mut self,
        log: &Log,
        cone: &VariableSet,
        assumptions: &[Lit],
    ) -> Result<Option<u32>, AllocError>
        requires same_variables { self.old.trail.variables ≡ log.now.variables }
        requires cone_variables { cone.now.variables ≡ log.now.variables }
        requires searching { IsSearching log.now.clauses assumptions.now cone.now.members self.old }
        ensures conflict { IfOk result (λ found. IfSome found (IsAtConflict log.now.clauses assumptions.now cone.now.members self.new)) }
        ensures rest { IfOk result (λ found. IfNone found (IsAtRest log.now.clauses assumptions.now cone.now.members self.new)) }
        ensures longer { OnOk result (length self.old.trail.literals ≤ length self.new.trail.literals) }
        ensures same_variables { OnOk result (self.new.trail.variables ≡ self.old.trail.variables) }
    {
        self.trail.keeps_invariant();
        if self.conflict != 0 {
            return Ok(Some(self.conflict));
        }
        let Some(number) = propagate(log, cone, &mut self.watches, &mut self.trail)? else {
            return Ok(None);
        };
        Ok(Some(number))
    }

    /// What a false clause teaches. After a lesson the search stands where it gives its first literal.
    pub(crate) fn conclude(
        &mut self,
        log: &Log,
        cone: &VariableSet,
        assumptions: &[Lit],
        number: u32,
    ) -> Result<End, AllocError>
        requires same_variables { self.old.trail.variables ≡ log.now.variables }
        requires assumptions { IsClauseOver log.now.variables assumptions.now }
        requires cone { (v : ℕ) → Contains cone.now.members v ↔ InCone (inputs_of log.now) assumptions.now v }
        requires safe { AreSafe (inputs_of log.now) log.now.clauses }
        requires conflict { IsAtConflict log.now.clauses assumptions.now cone.now.members self.old number }
        ensures ends { IfOk result (IsEnd log.now assumptions.now cone.now.members self.new) }
        ensures watching { OnOk result (IsWatching log.now.clauses self.new) }
        ensures same_variables { OnOk result (self.new.trail.variables ≡ self.old.trail.variables) }
    {
        first_points_are_new();
        what_settles_a_clause();
        log.keeps_invariant();
        self.trail.keeps_invariant();
        self.analysis
            .learn(log, &self.trail, &mut self.order, assumptions, number)?;
        if self.trail.levels() == 0 {
            return Ok(End::Refutation);
        }
        self.order.grow(cone.members());
        self.restarts.count();
        let level = level_of(&self.trail, self.analysis.clause());
        self.go_back(level);
        Ok(End::Lesson)
    }

    /// Takes back what came with a decision and behind it. The order of decisions gets the variables back.
    pub(crate) fn go_back(&mut self, level: u32)
        requires { level < length self.old.trail.starts }
        ensures { self.new ≡ gone_back self.old level }
    {
        give_back(&mut self.order, &self.trail, self.trail.start(level));
        self.trail.back_to(level);
    }

    /// Goes back to the assumptions where it is time for that.
    pub(crate) fn restart(&mut self, cone: &VariableSet)
        ensures searching { (clauses : List (List Literal)) (assumptions : List Literal) (members : List ℕ)
            → IsSearching clauses assumptions members self.old → IsSearching clauses assumptions members self.new }
        ensures same_variables { self.new.trail.variables ≡ self.old.trail.variables }
    {
        let due = self.restarts.take();
        self.begin_again(due.again);
        self.turn(cone, due.turns);
    }

    /// Goes back to the assumptions, where that is due.
    fn begin_again(&mut self, due: bool)
        ensures searching { (clauses : List (List Literal)) (assumptions : List Literal) (members : List ℕ)
            → IsSearching clauses assumptions members self.old → IsSearching clauses assumptions members self.new }
        ensures same_variables { self.new.trail.variables ≡ self.old.trail.variables }
    {
        self.trail.keeps_invariant();
        if due && self.trail.levels() > 0 {
            self.go_back(0);
        }
    }

    /// Goes on with the other order of decisions, where it is its turn.
    fn turn(&mut self, cone: &VariableSet, turns: bool)
        ensures { self.new ≡ self.old }
    {
        if turns {
            self.order.turn(cone.members());
        }
    }

    /// Decides a variable of the cone that has no value; answers whether there is one.
    pub(crate) fn decide(&mut self, cone: &VariableSet) -> bool
        requires same_variables { self.old.trail.variables ≡ cone.now.variables }
        requires taken { self.old.trail.head ≡ length self.old.trail.literals }
        ensures { Decides cone.now.members self.old self.new result }
    {
        match next_decision(&mut self.order, &self.trail, cone) {
            Some(decision) => {
                self.trail.decide(decision);
                true
            }
            None => false,
        }
    }
}

/// How many decisions stand where the clause of a conflict gives its first literal: those up to its second one.
fn level_of(trail: &Trail, clause: &[Lit]) -> u32
    requires { IsPointAtLast trail.now clause.now }
    ensures { IsLevel trail.now clause.now result }
{
    trail.keeps_invariant();
    match clause {
        [_, second, ..] => trail.levels_to(trail.place(second.variable())),
        _ => 0,
    }
}

/// The next decision: the next one in order, and behind the last of these any variable of the cone that has no value.
fn next_decision(order: &mut Order, trail: &Trail, cone: &VariableSet) -> Option<Lit>
    requires same_variables { trail.now.variables ≡ cone.now.variables }
    ensures some { IfSome result (λ l. Contains cone.now.members l.variable × IsUnset trail.now.literals l) }
    ensures in_range { IfSome result (λ l. l.variable ≤ trail.now.variables) }
    ensures none { IfNone result (All (IsSet trail.now.literals) cone.now.members) }
{
    for _ in cone.members() {
        let Some(decision) = order.pop() else {
            break;
        };
        if trail.is_open(cone, decision) {
            return Some(decision);
        }
    }
    trail.first_unset(cone)
}

/// Gives an order the variables of a trail back from a place on.
fn give_back(order: &mut Order, trail: &Trail, start: u32) {
    for place in start..trail.len() {
        order.give_back(trail.get(place));
    }
}
