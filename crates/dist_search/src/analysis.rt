//! What a false clause teaches: the clause of the first implication point, and the hints by which it follows.
//!
//! One walk down the trail. The literals of the false clause are marked. A marked literal is resolved with the clause that gave it,
//! whose other literals are marked then, or its negation is kept: at the current level the first one below which none of the level
//! is marked is kept, the point. Of the levels between, those are resolved of whose clause all other literals are marked, and of the
//! literals without a decision all but the assumptions. The clauses that were resolved, the earliest first, and behind them the false
//! one, are the hints. The walk ends below the last marked literal.

ghost use Rattle.std.specs.Prelude.{◌≡◌, ◌≤◌, ◌<◌, ◌+◌, ◌++◌, ◌⊎◌, ℕ, false, [], ◌∷◌, length, take, reverse, All, IfOk, OnOk, IsTrue, slice_index};
ghost use Rattle.dist_clause.specs.Formula.{negation, IsClauseOver};
ghost use Rattle.dist_clause.specs.ClauseList.{clause_at};
ghost use Rattle.dist_derive.specs.Propagation.{AllFalse};
ghost use Rattle.dist_derive.specs.Follows.{IsNumberOf};
ghost use Rattle.dist_search.specs.Trail.{IsTrail};
ghost use Rattle.dist_search.specs.Learned.{IsPoint, IsTaught};
ghost use Rattle.dist_search.specs.AnalysisPrivate.{HasValue, AreBounds, Meets, MayKeep, MayResolve, LeadsToPoint, IsWalked};

use crate::trail::Trail;
use dist_clause::Lit;
use dist_derive::{Log, VariableSet, what_is_safe};
use dist_order::Order;
use std::alloc::{AllocError, Global};
use std::marker::Model;

/// What the last conflict taught, and the room in which it is found.
#[derive(Drop)]
pub(crate) struct Analysis {
    walk: Walk,
}

impl Model for Analysis {
    ghost use Rattle.dist_search.specs.Learned.{LearnedClause};

    ghost Value = { LearnedClause };

    ghost view = { λ a. record { variables = a.walk.variables; clause = a.walk.clause; hints = a.walk.hints } };
}

/// What was met on the way down the trail, and what was found.
#[derive(Drop)]
struct Walk {
    /// The variables that were met.
    marked: VariableSet,
    /// The place of the earliest literal that was met, and of the earliest one of the current level.
    earliest: u32,
    lowest: u32,
    /// What was kept.
    clause: Vec<Lit>,
    /// The false clause, and those that were resolved.
    hints: Vec<u32>,
}

impl Model for Walk {
    ghost use Rattle.dist_search.specs.AnalysisPrivate.{WalkState};

    ghost Value = { WalkState };

    ghost view = { λ a. record {
      variables = a.marked.variables;
      members = a.marked.members;
      earliest = a.earliest;
      lowest = a.lowest;
      clause = a.clause.items;
      hints = a.hints.items;
    } };
}

/// Where the parts of a trail begin.
#[derive(Clone, Copy)]
struct Bounds {
    /// How many assumptions there are.
    assumed: usize,
    /// Where the first decision stands, and where the last one does; without one, the end of the trail.
    first: u32,
    current: u32,
}

impl Analysis {
    /// Nothing taught, with room for so many variables.
    pub(crate) fn new(alloc: Global, variables: u32) -> Result<Analysis, AllocError>
        ensures { IfOk result (λ a. a ≡ record { variables = variables; clause = []; hints = [] }) }
    {
        let walk = Walk::new(alloc, variables)?;
        Ok(Analysis { walk })
    }

    /// The clause: at first the literal of the point, the others from the latest to the earliest.
    pub(crate) fn clause(&self) -> &[Lit]
        ensures { result.now ≡ self.now.clause }
    {
        self.walk.clause()
    }

    /// The hints by which it follows.
    pub(crate) fn hints(&self) -> &[u32]
        ensures { result.now ≡ self.now.hints }
    {
        self.walk.hints()
    }

    /// Finds out what a false clause teaches. Where decisions stand, one of its literals must have become false behind the last one.
    pub(crate) fn learn(
        &mut self,
        log: &Log,
        trail: &Trail,
        order: &mut Order,
        assumptions: &[Lit],
        conflict: u32,
    ) -> Result<(), AllocError>
        requires same_variables { self.old.variables ≡ log.now.variables }
        requires trail_variables { trail.now.variables ≡ log.now.variables }
        requires trail { IsTrail log.now.clauses assumptions.now trail.now }
        requires number { IsNumberOf log.now.clauses conflict }
        requires is_false { AllFalse trail.now.literals (clause_at log.now.clauses conflict) }
        ensures taught { OnOk result (IsTaught log.now assumptions.now trail.now self.new) }
        ensures point { OnOk result ((level : ℕ) → length trail.now.starts ≡ level + 1
            → (¬ AllFalse (take (slice_index trail.now.starts level) trail.now.literals) (clause_at log.now.clauses conflict))
            → IsPoint trail.now (slice_index trail.now.starts level) self.new.clause) }
        ensures same_variables { self.new.variables ≡ self.old.variables }
    {
        trail.keeps_invariant();
        what_is_safe();
        let bounds = bounds_of(trail, assumptions);
        self.walk.begin(log, trail, order, bounds, conflict)?;
        let mut place = trail.len();
        while place > self.walk.earliest() {
            place -= 1;
            self.walk.take(log, trail, order, bounds, place)?;
        }
        self.walk.finish();
        Ok(())
    }
}

impl Walk {
    /// Nothing met, with room for so many variables.
    fn new(alloc: Global, variables: u32) -> Result<Walk, AllocError>
        ensures { IfOk result (λ w. (w.variables ≡ variables) × (w.clause ≡ []) × (w.hints ≡ [])) }
    {
        let marked = VariableSet::new(alloc, variables)?;
        Ok(Walk {
            marked,
            earliest: 0,
            lowest: 0,
            clause: Vec::new(alloc),
            hints: Vec::new(alloc),
        })
    }

    fn clause(&self) -> &[Lit]
        ensures { result.now ≡ self.now.clause }
    {
        &self.clause
    }

    fn hints(&self) -> &[u32]
        ensures { result.now ≡ self.now.hints }
    {
        &self.hints
    }

    /// The place of the earliest literal that was met.
    fn earliest(&self) -> u32
        ensures { result ≡ self.now.earliest }
    {
        self.earliest
    }

    /// Meets a false clause, and nothing else.
    fn begin(
        &mut self,
        log: &Log,
        trail: &Trail,
        order: &mut Order,
        bounds: Bounds,
        conflict: u32,
    ) -> Result<(), AllocError>
        requires same_variables { self.old.variables ≡ log.now.variables }
        requires trail_variables { trail.now.variables ≡ log.now.variables }
        requires number { IsNumberOf log.now.clauses conflict }
        requires is_false { AllFalse trail.now.literals (clause_at log.now.clauses conflict) }
        ensures walked { OnOk result (IsWalked log.now (take bounds.assumed trail.now.literals) trail.now bounds.current
            (length trail.now.literals) self.new) }
        ensures point { OnOk result ((¬ AllFalse (take bounds.current trail.now.literals) (clause_at log.now.clauses conflict))
            → LeadsToPoint trail.now.literals bounds.current (length trail.now.literals) self.new) }
        ensures same_variables { self.new.variables ≡ self.old.variables }
    {
        trail.keeps_invariant();
        what_is_safe();
        self.clear(trail);
        self.resolve(log, trail, order, bounds, conflict)
    }

    /// Nothing is met.
    fn clear(&mut self, trail: &Trail)
        ensures { self.new ≡ record {
          variables = self.old.variables;
          members = [];
          earliest = length trail.now.literals;
          lowest = length trail.now.literals;
          clause = [];
          hints = [];
        } }
    {
        self.marked.clear();
        self.clause.clear();
        self.hints.clear();
        self.earliest = trail.len();
        self.lowest = trail.len();
    }

    /// Turns the hints round.
    fn finish(&mut self)
        ensures { self.new ≡ record self.old { hints = reverse self.old.hints } }
    {
        self.hints.reverse();
    }

    /// Takes the literal at a place, if it was met: keeps its negation, or resolves it.
    fn take(
        &mut self,
        log: &Log,
        trail: &Trail,
        order: &mut Order,
        bounds: Bounds,
        place: u32,
    ) -> Result<(), AllocError>
        requires trail_variables { trail.now.variables ≡ log.now.variables }
        requires trail { IsTrail log.now.clauses (take bounds.assumed trail.now.literals) trail.now }
        requires bounds { AreBounds trail.now bounds.first bounds.current }
        requires within { place < length trail.now.literals }
        requires walked { IsWalked log.now (take bounds.assumed trail.now.literals) trail.now bounds.current (place + 1) self.old }
        ensures walked { OnOk result (IsWalked log.now (take bounds.assumed trail.now.literals) trail.now bounds.current place
            self.new) }
        ensures point { OnOk result (LeadsToPoint trail.now.literals bounds.current (place + 1) self.old
            → LeadsToPoint trail.now.literals bounds.current place self.new) }
        ensures same_variables { self.new.variables ≡ self.old.variables }
    {
        trail.keeps_invariant();
        what_is_safe();
        let literal = trail.get(place);
        if !self.marked.contains(literal.variable()) {
            return Ok(());
        }
        if self.is_kept(log, trail, bounds, place) {
            return self.keep(literal);
        }
        self.resolve(log, trail, order, bounds, trail.reason(place))
    }

    /// Keeps the negation of a literal.
    fn keep(&mut self, literal: Lit) -> Result<(), AllocError>
        ensures kept { OnOk result (self.new ≡ record self.old { clause = self.old.clause ++ negation literal ∷ [] }) }
        ensures same_variables { self.new.variables ≡ self.old.variables }
    {
        self.clause.push(literal.negated())?;
        Ok(())
    }

    /// Takes a clause as a hint, and meets its literals.
    fn resolve(
        &mut self,
        log: &Log,
        trail: &Trail,
        order: &mut Order,
        bounds: Bounds,
        number: u32,
    ) -> Result<(), AllocError>
        requires same_variables { self.old.variables ≡ log.now.variables }
        requires trail_variables { trail.now.variables ≡ log.now.variables }
        requires number { IsNumberOf log.now.clauses number }
        requires valued { All (HasValue trail.now.literals) (clause_at log.now.clauses number) }
        ensures met { OnOk result (Meets trail.now.literals bounds.current (clause_at log.now.clauses number)
            (record self.old { hints = self.old.hints ++ number ∷ [] }) self.new) }
        ensures same_variables { self.new.variables ≡ self.old.variables }
    {
        self.hints.push(number)?;
        self.meet_all(trail, order, bounds, log.clause(number));
        Ok(())
    }

    /// Meets the literals of a clause, which have values, as far as they were not met.
    fn meet_all(&mut self, trail: &Trail, order: &mut Order, bounds: Bounds, clause: &[Lit])
        requires same_variables { self.old.variables ≡ trail.now.variables }
        requires over { IsClauseOver trail.now.variables clause.now }
        requires valued { All (HasValue trail.now.literals) clause.now }
        ensures { Meets trail.now.literals bounds.current clause.now self.old self.new }
    {
        for literal in clause {
            self.meet(trail, order, bounds, *literal);
        }
    }

    /// Meets a literal that has a value, if it was not met.
    fn meet(&mut self, trail: &Trail, order: &mut Order, bounds: Bounds, literal: Lit)
        requires same_variables { self.old.variables ≡ trail.now.variables }
        requires from_one { 1 ≤ literal.variable }
        requires in_range { literal.variable ≤ trail.now.variables }
        requires valued { HasValue trail.now.literals literal }
        ensures { Meets trail.now.literals bounds.current (literal ∷ []) self.old self.new }
    {
        let variable = literal.variable();
        if !self.marked.include(variable) {
            return;
        }
        trail.keeps_invariant();
        let place = trail.place(variable);
        if place >= bounds.first {
            order.bump(variable);
        }
        self.earliest = self.earliest.min(place);
        if place >= bounds.current {
            self.lowest = self.lowest.min(place);
        }
    }

    /// Whether the negation of the literal at a place is kept.
    fn is_kept(&self, log: &Log, trail: &Trail, bounds: Bounds, place: u32) -> bool
        requires same_variables { self.now.variables ≡ log.now.variables }
        requires trail_variables { trail.now.variables ≡ log.now.variables }
        requires trail { IsTrail log.now.clauses (take bounds.assumed trail.now.literals) trail.now }
        requires bounds { AreBounds trail.now bounds.first bounds.current }
        requires within { place < length trail.now.literals }
        ensures kept { IsTrue result → MayKeep trail.now bounds.assumed bounds.current place self.now.lowest }
        ensures resolved { result ≡ false
            → MayResolve log.now.clauses trail.now bounds.assumed bounds.current place self.now.lowest }
    {
        trail.keeps_invariant();
        let reason = trail.reason(place);
        if reason == 0 {
            return true;
        }
        self.is_chosen(log, trail, bounds, place, reason)
    }

    /// Whether the negation of a literal that a clause gave is kept.
    fn is_chosen(&self, log: &Log, trail: &Trail, bounds: Bounds, place: u32, reason: u32) -> bool
        requires same_variables { self.now.variables ≡ log.now.variables }
        requires trail_variables { trail.now.variables ≡ log.now.variables }
        requires in_order { bounds.first ≤ bounds.current }
        requires number { IsNumberOf log.now.clauses reason }
        requires valued { All (HasValue trail.now.literals) (clause_at log.now.clauses reason) }
        ensures kept { IsTrue result → (place < bounds.assumed)
            ⊎ ((bounds.first ≤ place) × (bounds.current ≤ place → place ≤ self.now.lowest)) }
        ensures resolved { result ≡ false → (bounds.assumed ≤ place) × (bounds.current ≤ place → self.now.lowest < place) }
    {
        if (place as usize) < bounds.assumed {
            return true;
        }
        if place < bounds.first {
            return false;
        }
        if place >= bounds.current {
            return self.lowest >= place;
        }
        !self.is_implied(trail, bounds, log.clause(reason))
    }

    /// Whether all literals of a clause were met, or have their values without a decision.
    fn is_implied(&self, trail: &Trail, bounds: Bounds, clause: &[Lit]) -> bool
        requires same_variables { self.now.variables ≡ trail.now.variables }
        requires over { IsClauseOver trail.now.variables clause.now }
        requires valued { All (HasValue trail.now.literals) clause.now }
    {
        for literal in clause {
            if !self.is_settled(trail, bounds, *literal) {
                return false;
            }
        }
        true
    }

    /// Whether a literal was met, or has its value without a decision.
    fn is_settled(&self, trail: &Trail, bounds: Bounds, literal: Lit) -> bool
        requires same_variables { self.now.variables ≡ trail.now.variables }
        requires from_one { 1 ≤ literal.variable }
        requires in_range { literal.variable ≤ trail.now.variables }
        requires valued { HasValue trail.now.literals literal }
    {
        self.marked.contains(literal.variable()) || trail.place(literal.variable()) < bounds.first
    }
}

/// Where the parts of a trail begin.
fn bounds_of(trail: &Trail, assumptions: &[Lit]) -> Bounds
    ensures assumed { result.assumed ≡ length assumptions.now }
    ensures bounds { AreBounds trail.now result.first result.current }
{
    trail.keeps_invariant();
    let assumed = assumptions.len();
    let levels = trail.levels();
    if levels == 0 {
        return Bounds {
            assumed,
            first: trail.len(),
            current: trail.len(),
        };
    }
    Bounds {
        assumed,
        first: trail.start(0),
        current: trail.start(levels - 1),
    }
}
