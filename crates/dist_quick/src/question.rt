//! A question, and the guess at its answer.

ghost use Rattle.std.specs.Prelude.{◌≡◌, IfSome, length};

use crate::clauses::is_root;
use crate::descent::Descent;
use crate::kept::Kept;
use crate::shunned::{Shunned, Shunning};
use dist_clause::{Assignment, Lit};
use dist_derive::Log;
use std::alloc::{AllocError, Global};

/// What is guessed.
#[derive(Clone, Copy, Debug, PartialEq, Eq)]
pub enum Guess {
    /// The variables of `trues` are true in a model, and no others.
    Model,
    /// By `hints` the clause of the negated assumptions follows.
    Refutation,
    /// No guess.
    Nothing,
}

/// The room for guesses, and what followed from the first assumptions of two questions.
///
/// Sweeps over futures ask in turn of the archive as it is, which settles every cluster, and of packages, which settle little.
/// So of two first assumptions the one with more consequences stays when a third one comes.
#[derive(Debug, Drop)]
pub struct Quick {
    one: Kept,
    other: Kept,
    /// Whether the last question was asked where the other one is kept.
    at_other: bool,
    descent: Descent,
    /// The clauses that are looked at before any assumption.
    roots: Vec<u32>,
    /// The clauses with numbers up to this have been sorted into the roots.
    sorted: u32,
    shunning: Shunning,
}

impl Quick {
    /// Room for logs of so many variables.
    pub fn new(alloc: Global, variables: u32) -> Result<Quick, AllocError> {
        Ok(Quick {
            one: Kept::new(alloc, variables)?,
            other: Kept::new(alloc, variables)?,
            at_other: false,
            descent: Descent::new(alloc, variables)?,
            roots: Vec::new(alloc),
            sorted: 0,
            shunning: Shunning::none(alloc),
        })
    }

    /// From now on these variables are shunned, by questions that name none of their own.
    pub fn shun(&mut self, shunning: Shunning) {
        self.shunning = shunning;
    }

    /// The true variables of a guessed model.
    pub fn trues(&self) -> &[u32] {
        if self.at_other {
            self.other.state.trail.trues()
        } else {
            self.one.state.trail.trues()
        }
    }

    /// The hints of a guessed refutation.
    pub fn hints(&self) -> &[u32] {
        self.descent.hints()
    }

    /// Guesses whether some model of the log makes the assumptions true. The log is that of the call before, or has more
    /// lines.
    pub fn ask(&mut self, log: &Log, assumptions: &[Lit]) -> Result<Guess, AllocError> {
        self.ask_shunning(log, assumptions, None)
    }

    /// The same, where of the alternatives of a clause those that are true in an assignment are decided last. Where there is none,
    /// it is those that all questions shun.
    pub fn ask_shunning(
        &mut self,
        log: &Log,
        assumptions: &[Lit],
        shunned: Option<&Assignment>,
    ) -> Result<Guess, AllocError>
        requires { IfSome shunned (λ values. length values.now ≡ log.now.variables) }
    {
        self.sort(log)?;
        self.at_other = self.is_at_other(log, assumptions)?;
        let shunned = Shunned::of(shunned, log.variables(), &self.shunning);
        if self.at_other {
            self.descent
                .guess(log, &mut self.other, &self.roots, assumptions, &shunned)
        } else {
            self.descent
                .guess(log, &mut self.one, &self.roots, assumptions, &shunned)
        }
    }

    /// Sorts the clauses that came since the call before. Derived lines come when literals are true already, so all of them
    /// are looked at.
    fn sort(&mut self, log: &Log) -> Result<(), AllocError> {
        for place in self.sorted..log.len() {
            if place >= log.inputs() || is_root(log.clause(place + 1)) {
                self.roots.push(place + 1)?;
            }
        }
        self.sorted = log.len();
        Ok(())
    }

    /// Where a question is asked: where its first assumption is kept, or a hub that this needs, or else in place of the one with
    /// fewer consequences.
    fn is_at_other(&mut self, log: &Log, assumptions: &[Lit]) -> Result<bool, AllocError> {
        if self.one.is_of(assumptions) {
            return Ok(false);
        }
        if self.other.is_of(assumptions) {
            return Ok(true);
        }
        if self.one.find_hub_of(log, assumptions)? {
            return Ok(false);
        }
        Ok(self.other.find_hub_of(log, assumptions)? || self.other.len() < self.one.len())
    }
}
