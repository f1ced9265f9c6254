//! The input clauses of a log, with what finds those that an assignment may make false.

ghost use Rattle.std.specs.Prelude.{◌≡◌, ◌≤◌, ◌↔◌, ℕ, Bool, IfOk, IsTrue, length};
ghost use Rattle.dist_base.specs.declared.TheConstants.{MAX_CLAUSES, MAX_VARIABLES};
ghost use Rattle.dist_clause.specs.ClauseList.{IsWithinLimits};
ghost use Rattle.dist_clause.specs.Formula.{IsModel};
ghost use Rattle.dist_derive.specs.DenialsPrivate.{AreDenialsOf};
ghost use Rattle.dist_derive.specs.RowsPrivate.{AreAlike};
ghost use Rattle.dist_derive.specs.VariableSet.{GivesTrue};

use crate::denials::Denials;
use crate::rows::{Rows, positive_counts, rows_of};
use crate::variable_set::VariableSet;
use dist_clause::ClauseSet;
use std::alloc::{AllocError, Global};
use std::marker::Model;

/// Input clauses.
#[derive(Drop)]
pub(crate) struct Inputs {
    clauses: ClauseSet,
    /// Those of the clauses, once these are indexed.
    denials: Denials,
    /// In the order of the denials.
    rows: Rows,
    is_indexed: bool,
}

impl Model for Inputs {
    ghost use Rattle.std.specs.Prelude.{IsTrue};
    ghost use Rattle.dist_clause.specs.ClauseList.{ClauseList};
    ghost use Rattle.dist_derive.specs.DenialsPrivate.{AreDenialsOf};
    ghost use Rattle.dist_derive.specs.RowsPrivate.{AreAlike};

    ghost Value = { ClauseList };

    ghost view = { λ a. a.clauses };

    ghost invariant = { λ a. IsTrue a.is_indexed → AreDenialsOf a.clauses.clauses a.denials
        × AreAlike a.clauses.clauses a.denials a.rows };
}

impl Inputs {
    /// Clauses that are not indexed.
    pub(crate) fn of(alloc: Global, clauses: ClauseSet) -> Inputs
        ensures { result ≡ clauses }
    {
        Inputs {
            clauses,
            denials: Denials::empty(alloc),
            rows: Rows::empty(alloc),
            is_indexed: false,
        }
    }

    /// Finds the clauses by their rarest negative literals from now on.
    pub(crate) fn index(&mut self, alloc: Global) -> Result<(), AllocError>
        ensures { self.new ≡ self.old }
    {
        if !self.is_indexed {
            let (denials, rows) = indexes_of(alloc, &self.clauses)?;
            self.denials = denials;
            self.rows = rows;
            self.is_indexed = true;
        }
        Ok(())
    }

    pub(crate) fn len(&self) -> u32
        ensures value { result ≡ length self.now.clauses }
        ensures stated { result ≤ MAX_CLAUSES }
        ensures within { IsWithinLimits self.now }
    {
        self.clauses.len()
    }

    pub(crate) fn variables(&self) -> u32
        ensures value { result ≡ self.now.variables }
        ensures stated { result ≤ MAX_VARIABLES }
    {
        self.clauses.variables()
    }

    /// The clauses as a set.
    pub(crate) fn set(&self) -> &ClauseSet
        ensures { result.now ≡ self.now }
    {
        &self.clauses
    }

    /// Whether the clauses are true where exactly the members of a set are. Where they are indexed it costs those of which
    /// the rarest negative literal is false, and of these one for all that begin alike.
    pub(crate) fn hold(&self, trues: &VariableSet) -> bool
        requires { trues.now.variables ≡ self.now.variables }
        ensures { (value : ℕ → Bool) → GivesTrue value trues.now.members
            → IsTrue result ↔ IsModel value self.now.clauses }
    {
        if self.is_indexed {
            self.denials.hold(&self.clauses, &self.rows, trues)
        } else {
            hold(&self.clauses, trues)
        }
    }
}

/// The denials of clauses, and their rows.
fn indexes_of(alloc: Global, clauses: &ClauseSet) -> Result<(Denials, Rows), AllocError>
    ensures { IfOk result (λ made. AreDenialsOf clauses.now.clauses made.0
        × AreAlike clauses.now.clauses made.0 made.1) }
{
    let counts = positive_counts(alloc, clauses)?;
    let rows = rows_of(alloc, clauses, &counts)?;
    let denials = Denials::new(alloc, clauses, &rows, &counts)?;
    let rows = Rows::new(alloc, rows, counts, denials.pairs())?;
    Ok((denials, rows))
}

/// The same by a walk over all clauses.
fn hold(clauses: &ClauseSet, trues: &VariableSet) -> bool
    requires { trues.now.variables ≡ clauses.now.variables }
    ensures { (value : ℕ → Bool) → GivesTrue value trues.now.members
        → IsTrue result ↔ IsModel value clauses.now.clauses }
{
    for place in 0..clauses.len() {
        if !trues.makes_clause_true(clauses.clause(place + 1)) {
            return false;
        }
    }
    true
}
