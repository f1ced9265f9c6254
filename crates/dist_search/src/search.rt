//! The search: propagation, decisions and lessons until an end comes.

ghost use Rattle.std.specs.Prelude.{◌≡◌, ◌≢◌, ◌≤◌, ◌<◌, ◌↔◌, ◌+◌, ◌-◌, ℕ, List, [], ◌∷◌, length, take, All, Contains, IfOk, IfSome, IfNone, OnOk, IsTrue, false};
ghost use Rattle.dist_clause.specs.Formula.{Literal, IsClauseOver, literal};
ghost use Rattle.dist_clause.specs.ClauseList.{clause_at};
ghost use Rattle.dist_derive.specs.ClauseLog.{inputs_of};
ghost use Rattle.dist_derive.specs.Cone.{InCone};
ghost use Rattle.dist_derive.specs.Safe.{AreSafe};
ghost use Rattle.dist_search.specs.Search.{IsWatching, IsSearching, IsGoing, Gives, IsEnd};

use crate::analysis::Analysis;
use crate::trail::Trail;
use dist_base::MAX_VARIABLES;
use dist_clause::{Assignment, Lit};
use dist_derive::{Log, VariableSet, Watches, cone_models_extend, what_settles_a_clause};
use dist_order::{Order, Restarts};
use std::alloc::{AllocError, Global};
use std::marker::Model;

/// How a search ends.
#[derive(Drop)]
pub enum End {
    /// A model in which the assumptions are true.
    Model(Assignment),
    /// By the hints the assumptions are refuted.
    Refutation,
    /// By the hints the clause follows, and it is new.
    Lesson,
}

/// A search over a log, kept over its questions.
#[derive(Drop)]
pub struct Search {
    pub(crate) trail: Trail,
    pub(crate) watches: Watches,
    /// For each literal's code the number of a clause of this literal alone, 0 for none.
    pub(crate) singles: Vec<u32>,
    /// The clauses with numbers up to this are watched, or known by their single literal.
    pub(crate) watched: u32,
    /// A clause that is false without a decision, 0 for none.
    pub(crate) conflict: u32,
    pub(crate) analysis: Analysis,
    pub(crate) order: Order,
    pub(crate) restarts: Restarts,
}

impl Model for Search {
    ghost use Rattle.dist_search.specs.Search.{SearchState};
    ghost use Rattle.dist_search.specs.SearchPrivate.{IsSearchKept};

    ghost Value = { SearchState };

    ghost view = { λ a. record {
      trail = a.trail;
      watches = a.watches;
      singles = a.singles.items;
      watched = a.watched;
      conflict = a.conflict;
      learned = a.analysis;
    } };

    ghost invariant = { λ a. IsSearchKept a.trail a.singles.items a.analysis };
}

impl Search {
    /// A search over logs of so many variables, which has seen no clause.
    pub fn new(alloc: Global, variables: u32) -> Result<Search, AllocError>
        requires { variables ≤ MAX_VARIABLES }
        ensures variables { IfOk result (λ s. s.trail.variables ≡ variables) }
        ensures watching { IfOk result (λ s. (clauses : List (List Literal)) → IsWatching clauses s) }
    {
        let trail = Trail::new(alloc, variables)?;
        let watches = Watches::make(alloc, variables)?;
        let analysis = Analysis::new(alloc, variables)?;
        let mut order = Order::new(alloc);
        order.make_room(variables)?;
        let mut singles = Vec::new(alloc);
        singles.resize(2 * variables as usize + 2, 0)?;
        Ok(Search {
            trail,
            watches,
            singles,
            watched: 0,
            conflict: 0,
            analysis,
            order,
            restarts: Restarts::new(),
        })
    }

    /// The clause of the last lesson.
    pub fn clause(&self) -> &[Lit]
        ensures { result.now ≡ self.now.learned.clause }
    {
        self.analysis.clause()
    }

    /// The hints of the last lesson or refutation.
    pub fn hints(&self) -> &[u32]
        ensures { result.now ≡ self.now.learned.hints }
    {
        self.analysis.hints()
    }

    /// Goes on until an end comes. After want of memory the search is of no use any more.
    pub fn next(
        &mut self,
        alloc: Global,
        log: &Log,
        cone: &VariableSet,
        assumptions: &[Lit],
    ) -> Result<End, AllocError>
        requires same_variables { self.old.trail.variables ≡ log.now.variables }
        requires cone_variables { cone.now.variables ≡ log.now.variables }
        requires assumptions { IsClauseOver log.now.variables assumptions.now }
        requires cone { (v : ℕ) → Contains cone.now.members v ↔ InCone (inputs_of log.now) assumptions.now v }
        requires safe { AreSafe (inputs_of log.now) log.now.clauses }
        requires searching { IsSearching log.now.clauses assumptions.now cone.now.members self.old }
        ensures ends { IfOk result (IsEnd log.now assumptions.now cone.now.members self.new) }
        ensures watching { OnOk result (IsWatching log.now.clauses self.new) }
        ensures same_variables { OnOk result (self.new.trail.variables ≡ self.old.trail.variables) }
    {
        self.restart(cone);
        loop {
            if let Some(end) = self.step(alloc, log, cone, assumptions)? {
                return Ok(end);
            }
        }
    }

    /// Propagates, and then ends or decides.
    fn step(
        &mut self,
        alloc: Global,
        log: &Log,
        cone: &VariableSet,
        assumptions: &[Lit],
    ) -> Result<Option<End>, AllocError>
        requires same_variables { self.old.trail.variables ≡ log.now.variables }
        requires cone_variables { cone.now.variables ≡ log.now.variables }
        requires assumptions { IsClauseOver log.now.variables assumptions.now }
        requires cone { (v : ℕ) → Contains cone.now.members v ↔ InCone (inputs_of log.now) assumptions.now v }
        requires safe { AreSafe (inputs_of log.now) log.now.clauses }
        requires searching { IsSearching log.now.clauses assumptions.now cone.now.members self.old }
        ensures ends { IfOk result (λ r. IfSome r (IsEnd log.now assumptions.now cone.now.members self.new)) }
        ensures watching { IfOk result (λ r. IfSome r (λ _. IsWatching log.now.clauses self.new)) }
        ensures searching { IfOk result (λ r. IfNone r (IsSearching log.now.clauses assumptions.now cone.now.members self.new)) }
        ensures longer { IfOk result (λ r. IfNone r (length self.old.trail.literals < length self.new.trail.literals)) }
        ensures few { IfOk result (λ r. IfNone r (length self.new.trail.literals ≤ self.new.trail.variables)) }
        ensures same_variables { OnOk result (self.new.trail.variables ≡ self.old.trail.variables) }
    {
        cone_models_extend();
        what_settles_a_clause();
        log.keeps_invariant();
        if let Some(number) = self.find_conflict(log, cone, assumptions)? {
            return Ok(Some(self.conclude(log, cone, assumptions, number)?));
        }
        self.trail.keeps_invariant();
        if self.decide(cone) {
            self.trail.keeps_invariant();
            return Ok(None);
        }
        let values = self.trail.values(alloc)?;
        Ok(Some(End::Model(values)))
    }
}
