//! Room for the tests of a log, taken once.
ghost use Rattle.std.specs.Prelude.{◌≡◌, ◌↔◌, ◌≤◌, [], ◌∷◌, ◌++◌, All, IfErr, IfOk, IsTrue, OnErr, OnOk, length, map};
ghost use Rattle.dist_clause.specs.Formula.{IsModel, negation};
ghost use Rattle.dist_derive.specs.ClauseLog.{inputs_of};
ghost use Rattle.dist_derive.specs.Follows.{Follows};
ghost use Rattle.dist_derive.specs.New.{AreNewFrom};
ghost use Rattle.dist_cert.specs.Groups.{clause_of};
ghost use Rattle.dist_cert.specs.Rising.{is_among};
ghost use Rattle.dist_line_check.specs.Future.{StandsForFuture};
ghost use Rattle.dist_line_check.specs.Since.{AreLiteralsOver, IsAppendCause};

use crate::future::FutureClauses;
use crate::literals::{write_clause, write_negated};
use crate::members::fill;
use dist_clause::Lit;
use dist_derive::{AppendError, Log, Scratch, VariableSet};
use dist_outside::{What, WorkError};
use std::alloc::{AllocError, Global};
use std::marker::Model;

/// Room for the work of one test at a time.
#[derive(Drop)]
pub(crate) struct Tools {
    scratch: Scratch,
    clause: Vec<Lit>,
    /// The variables of an installation while it is tested, and none in between.
    trues: VariableSet,
    alloc: Global,
}

impl Model for Tools {
    ghost use Rattle.std.specs.Prelude.{◌≡◌, ℕ, []};

    ghost Value = { ℕ };

    ghost view = { λ t. t.scratch };

    ghost invariant = { λ t. t.trues ≡ record { variables = t.scratch; members = [] } };
}

impl Tools {
    /// Room for logs of so many variables.
    pub(crate) fn new(alloc: Global, variables: u32) -> Result<Tools, AllocError>
        ensures { IfOk result (λ tools. tools ≡ variables) }
    {
        let scratch = Scratch::new(alloc, variables)?;
        match VariableSet::new(alloc, variables) {
            Ok(trues) => Ok(Tools {
                scratch,
                clause: Vec::new(alloc),
                trues,
                alloc,
            }),
            Err(error) => {
                drop(scratch);
                Err(error)
            }
        }
    }

    /// Whether the clause of some literals follows by hints.
    pub(crate) fn follows(
        &mut self,
        log: &Log,
        literals: &[(u32, bool)],
        hints: &[u32],
    ) -> Result<bool, AllocError>
        requires literals { AreLiteralsOver log.now.variables literals.now }
        requires ready { self.old ≡ log.now.variables }
        ensures answer { IfOk result (λ yes. IsTrue yes ↔ Follows log.now.clauses (clause_of literals.now) hints.now) }
        ensures ready { self.new ≡ self.old }
    {
        log.keeps_invariant();
        write_clause(&mut self.clause, literals)?;
        self.scratch.make_room(self.alloc, log.len())?;
        Ok(log.follows(&mut self.scratch, &self.clause, hints))
    }

    /// Whether the clause of negated assumptions follows by hints.
    pub(crate) fn refutes(
        &mut self,
        log: &Log,
        assumptions: &[(u32, bool)],
        hints: &[u32],
    ) -> Result<bool, AllocError>
        requires assumptions { AreLiteralsOver log.now.variables assumptions.now }
        requires ready { self.old ≡ log.now.variables }
        ensures answer { IfOk result (λ yes. IsTrue yes ↔ Follows log.now.clauses (map negation (clause_of assumptions.now)) hints.now) }
        ensures ready { self.new ≡ self.old }
    {
        log.keeps_invariant();
        write_negated(&mut self.clause, assumptions)?;
        self.scratch.make_room(self.alloc, log.len())?;
        Ok(log.follows(&mut self.scratch, &self.clause, hints))
    }

    /// Whether each clause behind the one of a number was new under the assumptions when it came.
    pub(crate) fn are_new(
        &mut self,
        log: &mut Log,
        assumptions: &[(u32, bool)],
        last: u32,
    ) -> Result<bool, AllocError>
        requires assumptions { AreLiteralsOver log.old.variables assumptions.now }
        requires last { last ≤ length log.old.clauses }
        requires ready { self.old ≡ log.old.variables }
        ensures answer { IfOk result (λ yes. IsTrue yes ↔ AreNewFrom log.old.clauses log.old.inputs (clause_of assumptions.now) last) }
        ensures same { log.new ≡ log.old }
        ensures ready { self.new ≡ self.old }
    {
        log.keeps_invariant();
        write_clause(&mut self.clause, assumptions)?;
        Ok(log.are_new(&mut self.scratch, &self.clause, last))
    }

    /// Whether the input clauses are true where exactly the listed variables are. It costs these variables and the clauses
    /// that `Log::holds` looks at.
    pub(crate) fn is_model(&mut self, log: &Log, variables: &[u32]) -> bool
        requires in_range { All (λ v. (1 ≤ v) × (v ≤ log.now.variables)) variables.now }
        requires ready { self.old ≡ log.now.variables }
        ensures answer { IsTrue result ↔ IsModel (is_among variables.now) (inputs_of log.now) }
        ensures ready { self.new ≡ self.old }
    {
        fill(&mut self.trues, variables);
        let answer = log.holds(&self.trues);
        self.trues.clear();
        answer
    }

    /// Whether those of them that say what a future is are true where exactly the listed variables are.
    pub(crate) fn is_future(&mut self, log: &Log, future: FutureClauses, variables: &[u32]) -> bool
        requires in_range { All (λ v. (1 ≤ v) × (v ≤ log.now.variables)) variables.now }
        requires ready { self.old ≡ log.now.variables }
        ensures answer { IsTrue result ↔ StandsForFuture future (is_among variables.now) (inputs_of log.now) }
        ensures ready { self.new ≡ self.old }
    {
        fill(&mut self.trues, variables);
        let answer = future.are_true(log, &self.trues);
        self.trues.clear();
        answer
    }

    /// Adds the clause of some literals to the log.
    pub(crate) fn append(
        &mut self,
        log: &mut Log,
        literals: &[(u32, bool)],
    ) -> Result<(), WorkError>
        requires { AreLiteralsOver log.old.variables literals.now }
        ensures ok { OnOk result (log.new ≡ record log.old { clauses = log.old.clauses ++ clause_of literals.now ∷ [] }) }
        ensures err { IfErr result (IsAppendCause log.old (clause_of literals.now)) }
        ensures stays { OnErr result (log.new ≡ log.old) }
        ensures ready { self.new ≡ self.old }
    {
        log.keeps_invariant();
        write_clause(&mut self.clause, literals)?;
        match log.append(&self.clause) {
            Ok(_) => Ok(()),
            Err(AppendError::TooManyLines) => Err(WorkError::TooLarge(What::Lines)),
            Err(AppendError::TooManyLiterals) => Err(WorkError::TooLarge(What::LineLiterals)),
            Err(AppendError::NoMemory) => Err(WorkError::NoMemory),
        }
    }
}
