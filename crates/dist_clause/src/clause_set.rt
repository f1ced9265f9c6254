//! Lists of clauses, kept flat: 64 million literals and 16 million clauses take 320 MB.

ghost use Rattle.std.specs.Prelude.{◌≡◌, ◌+◌, ◌<◌, ◌≤◌, ◌↔◌, [], ◌∷◌, ◌++◌, length, IfErr, OnOk, OnErr, Err};
ghost use Rattle.dist_clause.specs.Formula.{IsClauseOver};
ghost use Rattle.dist_clause.specs.ClauseList.{clause_at, literal_count, IsWithinLimits};
ghost use Rattle.dist_clause.specs.Demands.{IsRefused};

use crate::Lit;
use dist_base::{Flat, MAX_CLAUSES, MAX_LITERALS, MAX_VARIABLES};
use std::alloc::{AllocError, Global};
use std::marker::Model;

/// Why a clause was not added.
#[derive(Clone, Copy, Debug, PartialEq, Eq)]
pub enum PushError {
    /// The set has as many clauses as it may have.
    TooManyClauses,
    /// With the clause the set would have more literals than it may have.
    TooManyLiterals,
    NoMemory,
}

/// A list of clauses in which the variables are numbered from 1, with a limit on the number of clauses and one on the
/// number of their literals.
#[derive(Debug, Drop)]
pub struct ClauseSet {
    clauses: Flat<Lit>,
    variables: u32,
    clause_limit: u32,
    literal_limit: u32,
}

impl Model for ClauseSet {
    ghost use Rattle.dist_clause.specs.ClauseList.{ClauseList};

    ghost Value = { ClauseList };

    ghost use Rattle.dist_clause.specs.Stored.{stored_clauses, IsStored};

    ghost view = { stored_clauses };

    ghost invariant = { IsStored };
}

impl ClauseSet {
    /// An empty set. The limits stay for good.
    pub fn new(alloc: Global, variables: u32, clauses: u32, literals: u32) -> ClauseSet
        requires variables { variables ≤ MAX_VARIABLES }
        requires clauses { clauses ≤ MAX_CLAUSES }
        requires literals { literals ≤ MAX_LITERALS }
        ensures { result
            ≡ record { clauses = []; variables = variables; clause_limit = clauses; literal_limit = literals } }
    {
        ClauseSet {
            clauses: Flat::new(alloc),
            variables,
            clause_limit: clauses,
            literal_limit: literals,
        }
    }

    /// The number of variables.
    pub fn variables(&self) -> u32
        ensures value { result ≡ self.now.variables }
        ensures stated { result ≤ MAX_VARIABLES }
    {
        self.variables
    }

    /// The number of clauses.
    pub fn len(&self) -> u32
        ensures value { result ≡ length self.now.clauses }
        ensures stated { result ≤ MAX_CLAUSES }
        ensures within { IsWithinLimits self.now }
    {
        self.clauses.len() as u32
    }

    /// The set has at most as many variables and clauses as may be, and is within its limits. Does nothing.
    pub fn keeps_invariant(&self)
        ensures variables { self.now.variables ≤ MAX_VARIABLES }
        ensures clauses { length self.now.clauses ≤ MAX_CLAUSES }
        ensures within { IsWithinLimits self.now }
    {
        self.variables();
        self.len();
    }

    /// The clause of a number; the first one has the number 1.
    pub fn clause(&self, number: u32) -> &[Lit]
        requires from_one { 1 ≤ number }
        requires to_len { number ≤ length self.now.clauses }
        ensures value { result.now ≡ clause_at self.now.clauses number }
        ensures over_variables { IsClauseOver self.now.variables result.now }
    {
        self.clauses.get(number as usize - 1)
    }

    /// Adds a clause as the last one.
    pub fn push(&mut self, clause: &[Lit]) -> Result<(), PushError>
        requires { IsClauseOver self.old.variables clause.now }
        ensures ok { OnOk result (self.new ≡ record self.old { clauses = self.old.clauses ++ clause.now ∷ [] }) }
        ensures err { OnErr result (self.new ≡ self.old) }
        ensures too_many_clauses { (result ≡ Err PushError.TooManyClauses)
            ↔ (length self.old.clauses ≡ self.old.clause_limit) }
        ensures too_many_literals { (result ≡ Err PushError.TooManyLiterals)
            ↔ (length self.old.clauses < self.old.clause_limit)
            × (self.old.literal_limit < literal_count self.old.clauses + length clause.now) }
        ensures cause { IfErr result (IsRefused self.old clause.now) }
    {
        if self.clauses.len() >= self.clause_limit as usize {
            return Err(PushError::TooManyClauses);
        }
        if self.clauses.total() + clause.len() > self.literal_limit as usize {
            return Err(PushError::TooManyLiterals);
        }
        if let Err(AllocError) = self.clauses.push(clause) {
            return Err(PushError::NoMemory);
        }
        Ok(())
    }
}
