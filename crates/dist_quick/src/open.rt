//! Clauses with open alternatives, and which of them a variable that becomes false concerns.

use crate::clauses::{Look, clause_of};
use crate::long::{has_alternative, is_long};
use crate::trail::{Trail, Truth};
use dist_clause::Lit;
use dist_derive::Log;
use std::alloc::{AllocError, Global};

/// An open clause, and the places of two of its literals. While neither of them is false, nothing follows from it.
#[derive(Clone, Copy, Debug)]
struct OpenClause {
    number: u32,
    first: usize,
    second: usize,
    /// How many variables were true when the clause came.
    trues: usize,
    is_long: bool,
}

/// That a variable is an alternative of an open clause.
#[derive(Clone, Copy, Debug)]
pub(crate) struct Use {
    /// The place of the clause among the open ones.
    pub(crate) place: usize,
    variable: u32,
    /// The place of the use before it of the same variable, from 1; 0: there is none.
    pub(crate) next: u32,
}

/// So many uses of a variable are counted.
const COUNTED: u32 = 16;

/// Open clauses, in the order in which they came. Those up to a place are entered: their variables lead to them. A use is taken
/// back with its clause, so what a clause costs is its length. The two literals of a clause that are looked at go round in it, so
/// that all looks at it on one way down cost its length too.
#[derive(Debug, Drop)]
pub(crate) struct Open {
    clauses: Vec<OpenClause>,
    entered: usize,
    uses: Vec<Use>,
    /// For each variable the place of its latest use, from 1; 0: there is none.
    latest: Vec<u32>,
}

impl Open {
    pub(crate) fn new(alloc: Global, variables: u32) -> Result<Open, AllocError> {
        let latest = vec![in alloc; 0u32; variables as usize + 1]?;
        Ok(Open {
            clauses: Vec::new(alloc),
            entered: 0,
            uses: Vec::new(alloc),
            latest,
        })
    }

    /// How many open clauses there are.
    pub(crate) fn len(&self) -> usize {
        self.clauses.len()
    }

    /// The number of an open clause, by its place.
    pub(crate) fn number(&self, place: usize) -> Option<u32> {
        self.clauses.get(place).map(|clause| clause.number)
    }

    /// Adds a clause as the last one, where none of its literals is true, unless the last one is equal.
    pub(crate) fn push(&mut self, log: &Log, trail: &Trail, number: u32) -> Result<(), AllocError> {
        let clause = clause_of(log, number);
        if self.is_last(log, clause) {
            return Ok(());
        }
        self.clauses.push(OpenClause {
            number,
            first: 0,
            second: 1,
            trues: trail.trues().len(),
            is_long: is_long(clause),
        })?;
        Ok(())
    }

    /// Whether the last clause is equal to one.
    fn is_last(&self, log: &Log, clause: &[Lit]) -> bool {
        match self.clauses.last() {
            Some(last) => clause_of(log, last.number) == clause,
            None => false,
        }
    }

    /// Whether the clause at a place is long, with its alternatives in order.
    pub(crate) fn is_long(&self, place: usize) -> bool {
        self.clauses.get(place).is_some_and(|clause| clause.is_long)
    }

    /// What the clause at a place asks for, if it is long and the variables that became true since it came tell.
    pub(crate) fn ask_long(&self, log: &Log, trail: &Trail, place: usize) -> Option<Look> {
        let kept = self.clauses.get(place).copied()?;
        let clause = clause_of(log, kept.number);
        let later = trail.trues().get(kept.trues..)?;
        if !kept.is_long || later.len() > clause.len() / 8 {
            return None;
        }
        for variable in later {
            if has_alternative(clause, *variable) {
                return Some(Look::Rests);
            }
        }
        if is_false(clause, trail, kept.first) || is_false(clause, trail, kept.second) {
            return None;
        }
        Some(Look::Open)
    }

    /// The place of the first clause that is not entered.
    pub(crate) fn waiting(&self) -> Option<usize> {
        if self.entered < self.clauses.len() {
            Some(self.entered)
        } else {
            None
        }
    }

    /// What the clause at a place asks for. That it is still open is told as that it rests.
    pub(crate) fn look(&mut self, log: &Log, trail: &Trail, place: usize) -> Look {
        let Some(kept) = self.clauses.get(place).copied() else {
            return Look::Rests;
        };
        let clause = clause_of(log, kept.number);
        if is_true(clause, trail, kept.first) || is_true(clause, trail, kept.second) {
            return Look::Rests;
        }
        let first = standing(clause, trail, kept.first, kept.second);
        let second = standing(clause, trail, kept.second, first);
        if let Some(open) = self.clauses.get_mut(place) {
            open.first = first;
            open.second = second;
        }
        asked_by(clause, trail, first, second)
    }

    /// Enters the first clause that is not entered.
    pub(crate) fn enter(&mut self, log: &Log) -> Result<(), AllocError> {
        let number = self.number(self.entered).unwrap_or(0);
        for literal in clause_of(log, number) {
            if literal.positive() {
                self.add_use(literal.variable())?;
            }
        }
        self.entered = self.entered.saturating_add(1);
        Ok(())
    }

    fn add_use(&mut self, variable: u32) -> Result<(), AllocError> {
        let next = self.latest(variable);
        self.uses.push(Use {
            place: self.entered,
            variable,
            next,
        })?;
        let last = u32::try_from(self.uses.len()).unwrap_or(0);
        self.set_latest(variable, last);
        Ok(())
    }

    /// The place of the latest use of a variable; 0: there is none.
    pub(crate) fn latest(&self, variable: u32) -> u32 {
        self.latest.get(variable as usize).copied().unwrap_or(0)
    }

    fn set_latest(&mut self, variable: u32, place: u32) {
        if let Some(latest) = self.latest.get_mut(variable as usize) {
            *latest = place;
        }
    }

    /// The use at a place, from 1. The one behind it has a lower place.
    pub(crate) fn use_at(&self, place: u32) -> Option<Use> {
        if place == 0 {
            return None;
        }
        self.uses.get(place as usize - 1).copied()
    }

    /// Of how many open clauses a variable is an alternative, as far as these are entered and counted.
    pub(crate) fn count_uses(&self, variable: u32) -> u32 {
        let mut place = self.latest(variable);
        let mut count = 0u32;
        for _ in 0..COUNTED {
            let Some(entry) = self.use_at(place) else {
                break;
            };
            place = entry.next;
            count = count.saturating_add(1);
        }
        count
    }

    /// Leaves so many clauses.
    pub(crate) fn truncate(&mut self, len: usize) {
        self.clauses.truncate(len);
        for _ in 0..self.uses.len() {
            match self.uses.last().copied() {
                Some(last) if last.place >= len => {
                    self.set_latest(last.variable, last.next);
                    let _ = self.uses.pop();
                }
                _ => break,
            }
        }
        self.entered = self.entered.min(len);
    }
}

/// Whether the literal at a place is false.
fn is_false(clause: &[Lit], trail: &Trail, place: usize) -> bool {
    clause
        .get(place)
        .is_none_or(|literal| trail.truth(*literal) == Truth::False)
}

/// Whether the literal at a place is true.
fn is_true(clause: &[Lit], trail: &Trail, place: usize) -> bool {
    clause
        .get(place)
        .is_some_and(|literal| trail.truth(*literal) == Truth::True)
}

/// A place of a literal that is not false and is not the other one: this place, or the next such one, round in the clause; this one
/// where there is none.
fn standing(clause: &[Lit], trail: &Trail, place: usize, other: usize) -> usize {
    if !is_false(clause, trail, place) {
        return place;
    }
    for next in place..clause.len() {
        if next != other && !is_false(clause, trail, next) {
            return next;
        }
    }
    for next in 0..place {
        if next != other && !is_false(clause, trail, next) {
            return next;
        }
    }
    place
}

/// What a clause asks for of which no literal but perhaps those at two places is true or unset, or both of these are.
fn asked_by(clause: &[Lit], trail: &Trail, first: usize, second: usize) -> Look {
    match (
        is_false(clause, trail, first),
        is_false(clause, trail, second),
    ) {
        (true, true) => Look::Conflict,
        (false, true) => unit_at(clause, trail, first),
        (true, false) => unit_at(clause, trail, second),
        (false, false) => Look::Rests,
    }
}

/// The literal at a place is the last one that is not false.
fn unit_at(clause: &[Lit], trail: &Trail, place: usize) -> Look {
    match clause.get(place) {
        Some(literal) if trail.truth(*literal) == Truth::Unset => Look::Unit(*literal),
        _ => Look::Rests,
    }
}
