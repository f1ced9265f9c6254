//! How a question begins: the clauses that came since the last one, its assumptions, and what single literals give.

ghost use Rattle.std.specs.Prelude.{◌≡◌, ◌≢◌, ◌≤◌, ◌↔◌, ◌+◌, ℕ, true, false, List, [], ◌∷◌, length, replicate, All, Contains, OnOk};
ghost use Rattle.dist_clause.specs.Formula.{Literal, literal, IsClauseOver};
ghost use Rattle.dist_clause.specs.ClauseList.{clause_at};
ghost use Rattle.dist_derive.specs.ClauseLog.{inputs_of};
ghost use Rattle.dist_derive.specs.Cone.{InCone};
ghost use Rattle.dist_derive.specs.OccurrencesPrivate.{code_of};
ghost use Rattle.dist_derive.specs.Watches.{pair_of, IsPairKept};
ghost use Rattle.dist_search.specs.Search.{IsWatching, IsSearching};
ghost use Rattle.dist_search.specs.QuestionPrivate.{IsAllOrEmpty, IsBegun, IsTaken, Goes};

use crate::search::Search;
use dist_clause::Lit;
use dist_derive::{Log, Truth, VariableSet};
use dist_order::Restarts;
use std::alloc::AllocError;

impl Search {
    /// Begins a question. It costs the cone and the clauses that came since the last question. The log is that of the questions
    /// before, which may have grown. After want of memory the search is of no use any more.
    pub fn start(
        &mut self,
        log: &Log,
        cone: &VariableSet,
        assumptions: &[Lit],
    ) -> Result<(), AllocError>
        requires same_variables { self.old.trail.variables ≡ log.now.variables }
        requires cone_variables { cone.now.variables ≡ log.now.variables }
        requires assumptions { IsClauseOver log.now.variables assumptions.now }
        requires cone { (v : ℕ) → Contains cone.now.members v ↔ InCone (inputs_of log.now) assumptions.now v }
        requires watching { IsWatching log.now.clauses self.old }
        ensures searching { OnOk result (IsSearching log.now.clauses assumptions.now cone.now.members self.new) }
        ensures same_variables { self.new.trail.variables ≡ self.old.trail.variables }
    {
        self.trail.clear();
        self.conflict = 0;
        self.restarts = Restarts::new();
        self.order.begin_all(cone.members());
        self.assume(assumptions);
        self.cover(log)?;
        if self.conflict == 0 {
            self.take_singles(cone);
        }
        Ok(())
    }

    /// Watches the clauses that came since the last question. An empty one is a conflict, and no later one is watched.
    fn cover(&mut self, log: &Log) -> Result<(), AllocError>
        requires same_variables { self.old.trail.variables ≡ log.now.variables }
        requires no_conflict { self.old.conflict ≡ 0 }
        requires watching { IsWatching log.now.clauses self.old }
        ensures watching { OnOk result (IsWatching log.now.clauses self.new) }
        ensures all { OnOk result (IsAllOrEmpty log.now.clauses self.new) }
        ensures same_trail { self.new.trail ≡ self.old.trail }
    {
        while self.watched < log.len() {
            let number = self.watched + 1;
            let clause = log.clause(number);
            if clause.is_empty() {
                self.conflict = number;
                return Ok(());
            }
            self.add(clause, number)?;
        }
        Ok(())
    }

    /// Watches the next clause, or notes it by its single literal.
    pub(crate) fn add(&mut self, clause: &[Lit], number: u32) -> Result<(), AllocError>
        requires over_variables { IsClauseOver self.old.trail.variables clause.now }
        requires some { clause.now ≢ [] }
        requires next { number ≡ self.old.watched + 1 }
        ensures watching { OnOk result ((clauses : List (List Literal)) → number ≤ length clauses
            → clause_at clauses number ≡ clause.now → IsWatching clauses self.old → IsWatching clauses self.new) }
        ensures watched { OnOk result (self.new.watched ≡ number) }
        ensures pair { OnOk result ((one other : Literal) (more : List Literal) → clause.now ≡ one ∷ other ∷ more
            → pair_of self.new.watches number ≡ (one, other)) }
        ensures other_pairs { OnOk result ((n : ℕ) → 1 ≤ n → n ≢ number
            → IsPairKept self.old.watches.pairs self.new.watches.pairs n) }
        ensures same_trail { self.new.trail ≡ self.old.trail }
        ensures same_conflict { self.new.conflict ≡ self.old.conflict }
    {
        match clause {
            [one, other, ..] => self.watches.watch(number, *one, *other)?,
            [single] => self.singles[code_of(*single)] = number,
            [] => {}
        }
        self.watched = number;
        Ok(())
    }

    /// Makes the assumptions true.
    fn assume(&mut self, assumptions: &[Lit])
        requires assumptions { IsClauseOver self.old.trail.variables assumptions.now }
        requires none { self.old.trail.literals ≡ [] }
        requires no_reason { self.old.trail.reasons ≡ [] }
        ensures { self.new ≡ record self.old {
          trail = record self.old.trail {
            literals = assumptions.now;
            reasons = replicate (length assumptions.now) 0;
          };
        } }
    {
        for literal in assumptions {
            self.trail.push(*literal, 0);
        }
    }

    /// Makes the single literals of the cone true, up to one that is false: its clause is a conflict then.
    fn take_singles(&mut self, cone: &VariableSet)
        requires same_variables { cone.now.variables ≡ self.old.trail.variables }
        ensures goes { Goes self.old self.new }
        ensures begun { (clauses : List (List Literal)) (assumptions : List Literal)
            → IsBegun clauses assumptions cone.now.members self.old → IsBegun clauses assumptions cone.now.members self.new }
        ensures taken { self.new.conflict ≡ 0
            → All (λ v. IsTaken self.new (literal v true) × IsTaken self.new (literal v false)) cone.now.members }
    {
        self.trail.keeps_invariant();
        for variable in cone.members() {
            self.take_single(Lit::new(*variable, true));
            self.take_single(Lit::new(*variable, false));
            if self.conflict != 0 {
                return;
            }
        }
    }

    /// Makes a literal true, if a clause of it alone is known.
    fn take_single(&mut self, literal: Lit)
        requires in_range { literal.variable ≤ self.old.trail.variables }
        ensures goes { Goes self.old self.new }
        ensures begun { (clauses : List (List Literal)) (assumptions : List Literal) (cone : List ℕ)
            → Contains cone literal.variable → IsBegun clauses assumptions cone self.old
            → IsBegun clauses assumptions cone self.new }
        ensures taken { self.new.conflict ≡ 0 → IsTaken self.new literal }
    {
        self.trail.keeps_invariant();
        let number = self.singles[code_of(literal)];
        if number == 0 || self.conflict != 0 {
            return;
        }
        match self.trail.trues().status(literal) {
            Truth::True => {}
            Truth::False => self.conflict = number,
            Truth::Unset => self.trail.push(literal, number),
        }
    }
}

/// The place of a literal in a table of literals.
pub(crate) fn code_of(literal: Lit) -> usize
    ensures { result ≡ code_of literal }
{
    2 * literal.variable() as usize + usize::from(literal.positive())
}
