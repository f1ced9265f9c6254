//! What is guessed before a search, and how guesses become answers.

ghost use Rattle.std.specs.Prelude.{◌≡◌, ◌+◌, IfNone, IfOk, IfSome, length, min};
ghost use Rattle.dist_clause.specs.Formula.{IsClauseOver};
ghost use Rattle.dist_derive.specs.Follows.{EachLineFollows};
ghost use Rattle.dist_solver.specs.ShownPrivate.{IsShown};

use crate::answers::Answer;
use crate::tested::Tests;
use dist_clause::{Assignment, Lit};
use dist_derive::Log;
use dist_quick::{Guess, Quick, Shunning};
use std::alloc::{AllocError, Global};
use std::marker::Model;

/// What guesses at answers, and tests the guesses.
#[derive(Drop)]
pub(crate) struct Guesses {
    quick: Quick,
    tests: Tests,
    /// How many guesses of the quick phase failed their tests.
    failed: u64,
}

impl Model for Guesses {
    ghost use Rattle.std.specs.Prelude.{ℕ};

    ghost Value = { ℕ };

    ghost view = { λ a. a.tests };
}

impl Guesses {
    /// Room for logs of so many variables.
    pub(crate) fn new(alloc: Global, variables: u32) -> Result<Guesses, AllocError>
        ensures { IfOk result (λ guesses. guesses ≡ variables) }
    {
        let quick = Quick::new(alloc, variables)?;
        match Tests::new(alloc, variables) {
            Ok(tests) => Ok(Guesses {
                quick,
                tests,
                failed: 0,
            }),
            Err(error) => {
                drop(quick);
                Err(error)
            }
        }
    }

    /// From now on these variables are shunned, by questions that name none of their own.
    pub(crate) fn shun(&mut self, shunning: Shunning)
        ensures { self.new ≡ self.old }
    {
        self.quick.shun(shunning);
    }

    /// The answer that the quick phase guesses, where it passes its test. Of alternatives it decides those last that are true in an
    /// assignment.
    pub(crate) fn first(
        &mut self,
        alloc: Global,
        log: &Log,
        assumptions: &[Lit],
        shunned: Option<&Assignment>,
    ) -> Result<Option<Answer>, AllocError>
        requires same_variables { self.old ≡ log.now.variables }
        requires assumptions { IsClauseOver log.now.variables assumptions.now }
        requires shunned { IfSome shunned (λ values. length values.now ≡ log.now.variables) }
        requires lines_follow { EachLineFollows log.now.inputs log.now.clauses }
        ensures shown { IfOk result (λ r. IfSome r (IsShown log.now assumptions.now)) }
        ensures same_variables { self.new ≡ self.old }
    {
        match self.quick.ask_shunning(log, assumptions, shunned)? {
            Guess::Model => {
                let model = self
                    .tests
                    .model(alloc, log, assumptions, self.quick.trues())?;
                let model = counted(&mut self.failed, model);
                Ok(model.map(Answer::Found))
            }
            Guess::Refutation => {
                let hints = self
                    .tests
                    .refutation(alloc, log, assumptions, self.quick.hints())?;
                let hints = counted(&mut self.failed, hints);
                Ok(hints.map(Answer::Refuted))
            }
            Guess::Nothing => Ok(None),
        }
    }

    /// The answer that was given as a guess, by its true variables, where it passes its test. Where none are listed
    /// nothing was given.
    pub(crate) fn given(
        &mut self,
        alloc: Global,
        log: &Log,
        assumptions: &[Lit],
        trues: &[u32],
    ) -> Result<Option<Answer>, AllocError>
        requires same_variables { self.old ≡ log.now.variables }
        requires assumptions { IsClauseOver log.now.variables assumptions.now }
        requires lines_follow { EachLineFollows log.now.inputs log.now.clauses }
        ensures shown { IfOk result (λ r. IfSome r (IsShown log.now assumptions.now)) }
        ensures same_variables { self.new ≡ self.old }
    {
        if trues.is_empty() {
            return Ok(None);
        }
        let model = self.tests.model(alloc, log, assumptions, trues)?;
        Ok(model.map(Answer::Found))
    }

    /// How many guesses of the quick phase failed their tests.
    pub(crate) fn failed(&self) -> u64 {
        self.failed
    }
}

/// What a guess comes to by its test. One that comes to nothing has failed, and is counted.
fn counted<T>(failed: &mut u64, tested: Option<T>) -> Option<T>
    ensures same { result ≡ tested }
    ensures passes { IfSome tested (λ _. failed.new ≡ failed.old) }
    ensures fails { IfNone tested (failed.new ≡ min (failed.old + 1) u64.MAX) }
{
    if tested.is_none() {
        *failed = failed.saturating_add(1);
    }
    tested
}
