//! The way down from the assumptions: alternatives are decided one after another.

use crate::backward::Way;
use crate::clauses::{Look, clause_of};
use crate::forward::{Mark, State};
use crate::kept::Kept;
use crate::needs::Need;
use crate::question::Guess;
use crate::shunned::Shunned;
use dist_clause::Lit;
use dist_derive::Log;
use std::alloc::{AllocError, Global};

/// How many decisions of a question may fail before it is given up, beside those on long clauses.
const TRIES: usize = 100;

/// How many decisions may still fail.
#[derive(Clone, Copy, Debug)]
struct Tries {
    short: usize,
    /// Those on long clauses: each has as many as it has alternatives.
    long: usize,
    /// The open clauses before this place have given theirs.
    given: usize,
}

impl Tries {
    /// With those of a long clause of so many literals at a place.
    fn with(self, place: usize, length: usize) -> Tries {
        if place < self.given {
            return self;
        }
        Tries {
            long: self.long.saturating_add(length),
            given: place.saturating_add(1),
            ..self
        }
    }

    /// Without the one that failed; none where no more may fail.
    fn without(self, is_long: bool) -> Option<Tries> {
        if is_long {
            return Some(Tries {
                long: self.long.checked_sub(1)?,
                ..self
            });
        }
        Some(Tries {
            short: self.short.checked_sub(1)?,
            ..self
        })
    }
}

/// A decision, and what was there before it.
#[derive(Clone, Copy, Debug)]
struct Level {
    start: Mark,
    /// The place of the open clause whose alternative it is.
    open: usize,
    is_long: bool,
    decision: Lit,
}

/// A decision that failed, if it was on a long clause.
fn failed_on(is_long: bool, decision: Lit) -> Option<Lit> {
    if is_long { Some(decision) } else { None }
}

/// Room for decisions, and for the way back from a conflict.
#[derive(Debug, Drop)]
pub(crate) struct Descent {
    way: Way,
    levels: Vec<Level>,
}

impl Descent {
    pub(crate) fn new(alloc: Global, variables: u32) -> Result<Descent, AllocError> {
        Ok(Descent {
            way: Way::new(alloc, variables)?,
            levels: Vec::new(alloc),
        })
    }

    /// The hints of a guessed refutation.
    pub(crate) fn hints(&self) -> &[u32] {
        &self.way.hints
    }

    /// Guesses whether some model makes the assumptions true.
    pub(crate) fn guess(
        &mut self,
        log: &Log,
        kept: &mut Kept,
        roots: &[u32],
        assumptions: &[Lit],
        shunned: &Shunned<'_>,
    ) -> Result<Guess, AllocError> {
        let conflict = kept.assume(log, roots, assumptions)?;
        self.way.give(kept.needs.path(), assumptions);
        let guess = self.go(log, kept, assumptions, shunned, conflict);
        self.way.take_back(kept.needs.path(), assumptions);
        self.levels.clear();
        guess
    }

    /// Goes on where the assumptions are true, or the clause of a number is false then.
    fn go(
        &mut self,
        log: &Log,
        kept: &mut Kept,
        assumptions: &[Lit],
        shunned: &Shunned<'_>,
        conflict: Option<u32>,
    ) -> Result<Guess, AllocError> {
        let path = kept.needs.path();
        if let Some(number) = conflict {
            let denial = self.way.denial(&kept.state.trail, path, assumptions);
            return self.refute(log, &kept.state, path, denial.unwrap_or(number));
        }
        self.descend(log, &mut kept.state, path, shunned)
    }

    /// The hints that lead to a false clause, where they rest on the assumptions alone.
    fn refute(
        &mut self,
        log: &Log,
        state: &State,
        path: &[Need],
        conflict: u32,
    ) -> Result<Guess, AllocError> {
        if conflict != 0 && self.way.trace(log, &state.trail, path, conflict)? {
            return Ok(Guess::Refutation);
        }
        Ok(Guess::Nothing)
    }

    /// Takes alternatives of the open clauses, one after another. Each step sees to a clause or takes a decision back.
    fn descend(
        &mut self,
        log: &Log,
        state: &mut State,
        path: &[Need],
        shunned: &Shunned<'_>,
    ) -> Result<Guess, AllocError> {
        let mut tries = Tries {
            short: TRIES,
            long: 0,
            given: 0,
        };
        let mut place = 0;
        let mut failed = None;
        let mut conflict = None;
        for _ in 0..u32::MAX {
            if let Some(number) = conflict {
                let Some(level) = self.levels.pop() else {
                    return self.refute(log, state, path, number);
                };
                let Some(left) = tries.without(level.is_long) else {
                    return Ok(Guess::Nothing);
                };
                tries = left;
                place = level.open;
                failed = failed_on(level.is_long, level.decision);
                conflict = self.take_back(log, state, level, number)?;
            } else if let Some(number) = state.open_clause(place) {
                if state.is_long(place) {
                    tries = tries.with(place, clause_of(log, number).len());
                }
                conflict = self.see_to(log, state, place, number, failed, shunned)?;
                place = place.saturating_add(1);
                failed = None;
            } else {
                return Ok(Guess::Model);
            }
        }
        Ok(Guess::Nothing)
    }

    /// Takes a decision back that led to a false clause; answers the number of a clause that is false even so.
    fn take_back(
        &mut self,
        log: &Log,
        state: &mut State,
        level: Level,
        conflict: u32,
    ) -> Result<Option<u32>, AllocError> {
        let still = self
            .way
            .retract(log, state, level.start, level.decision, conflict)?;
        if still.is_some() {
            return Ok(still);
        }
        state.propagate(log)
    }

    /// Sees to an open clause: where it is long and an alternative of it failed, the next one is decided.
    fn see_to(
        &mut self,
        log: &Log,
        state: &mut State,
        open: usize,
        number: u32,
        failed: Option<Lit>,
        shunned: &Shunned<'_>,
    ) -> Result<Option<u32>, AllocError> {
        if let Some(literal) = failed
            && let Some(decision) = state.next_choice(log, number, literal, shunned)
        {
            self.decide(state, open, decision)?;
            return state.propagate(log);
        }
        self.choose(log, state, open, number, shunned)
    }

    fn decide(&mut self, state: &mut State, open: usize, decision: Lit) -> Result<(), AllocError> {
        self.levels.push(Level {
            start: state.mark(),
            open,
            is_long: state.is_long(open),
            decision,
        })?;
        state.trail.set(decision, 0)
    }

    /// Sees to an open clause: where it is not true yet, its only alternative becomes true, or else the first one is decided.
    fn choose(
        &mut self,
        log: &Log,
        state: &mut State,
        open: usize,
        number: u32,
        shunned: &Shunned<'_>,
    ) -> Result<Option<u32>, AllocError> {
        match state.ask(log, open, number) {
            Look::Rests => return Ok(None),
            Look::Conflict => return Ok(Some(number)),
            Look::Unit(literal) => state.trail.set(literal, number)?,
            Look::Open => {
                if let Some(decision) = state.choice(log, open, number, shunned) {
                    self.decide(state, open, decision)?;
                }
            }
        }
        state.propagate(log)
    }
}
