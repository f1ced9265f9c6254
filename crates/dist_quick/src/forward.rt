//! What follows from the true literals, and which alternatives are open.

use crate::choice::{first_unset, last_unset};
use crate::clauses::{Look, clause_of, look_at};
use crate::hub::{Heaviest, NONE};
use crate::long::place_of;
use crate::open::Open;
use crate::shunned::Shunned;
use crate::trail::Trail;
use dist_clause::Lit;
use dist_derive::Log;
use std::alloc::{AllocError, Global};

/// How far a state had come.
#[derive(Clone, Copy, Debug)]
pub(crate) struct Mark {
    pub(crate) literals: usize,
    pub(crate) open: usize,
}

/// True literals, and the clauses of which no literal was true when they were looked at.
#[derive(Debug, Drop)]
pub(crate) struct State {
    pub(crate) trail: Trail,
    open: Open,
    /// How many literals of the trail have had their clauses looked at.
    looked: usize,
    /// Of how many of them the open clauses that they concern have been looked at again.
    settled: usize,
    pub(crate) heaviest: Heaviest,
}

/// How many clauses may still be looked at, and which one was looked at last.
#[derive(Clone, Copy, Debug)]
struct Looks {
    left: usize,
    last: u32,
}

impl Looks {
    /// Counts a look at a clause of so many literals.
    fn with(self, number: u32, length: usize) -> Looks {
        let cost = (length / LITERALS).max(1);
        Looks {
            left: self.left.saturating_sub(cost),
            last: number,
        }
    }
}

/// So many literals of a clause are looked at for the price of one clause.
const LITERALS: usize = 8;

impl State {
    pub(crate) fn new(alloc: Global, variables: u32) -> Result<State, AllocError> {
        Ok(State {
            trail: Trail::new(alloc, variables)?,
            open: Open::new(alloc, variables)?,
            looked: 0,
            settled: 0,
            heaviest: NONE,
        })
    }

    pub(crate) fn mark(&self) -> Mark {
        Mark {
            literals: self.trail.len(),
            open: self.open.len(),
        }
    }

    /// Takes all back that came after a mark. Before the mark all clauses had been looked at.
    pub(crate) fn undo_to(&mut self, mark: Mark) {
        self.trail.undo_to(mark.literals);
        self.open.truncate(mark.open);
        self.looked = mark.literals;
        self.settled = self.settled.min(mark.literals);
    }

    /// The number of an open clause, by its place.
    pub(crate) fn open_clause(&self, place: usize) -> Option<u32> {
        self.open.number(place)
    }

    /// Looks at a clause, and answers whether it is false.
    pub(crate) fn take(&mut self, log: &Log, number: u32) -> Result<bool, AllocError> {
        match look_at(log, &self.trail, number) {
            Look::Conflict => return Ok(true),
            Look::Unit(literal) => self.trail.set(literal, number)?,
            Look::Open => self.open.push(log, &self.trail, number)?,
            Look::Rests => {}
        }
        Ok(false)
    }

    /// Looks at the clauses that negate variables that became true; answers the number of one that is false.
    pub(crate) fn propagate(&mut self, log: &Log) -> Result<Option<u32>, AllocError> {
        for _ in 0..=log.variables() {
            let Some(literal) = self.trail.literal(self.looked) else {
                return Ok(None);
            };
            self.looked = self.looked.saturating_add(1);
            let conflict = self.visit(log, literal)?;
            if conflict.is_some() {
                return Ok(conflict);
            }
        }
        Ok(None)
    }

    /// Looks at the clauses in which a true literal's variable is negated.
    fn visit(&mut self, log: &Log, literal: Lit) -> Result<Option<u32>, AllocError> {
        if !literal.positive() {
            return Ok(None);
        }
        let mut cost = 0usize;
        let mut place = log.latest_with(literal.negated());
        while let Some(link) = log.link(place) {
            place = link.next;
            cost = cost.saturating_add(clause_of(log, link.number).len());
            if self.take(log, link.number)? {
                return Ok(Some(link.number));
            }
        }
        self.heaviest = self.heaviest.or(literal, cost);
        Ok(None)
    }

    /// What the open clause of a number, at a place, asks for.
    pub(crate) fn ask(&self, log: &Log, place: usize, number: u32) -> Look {
        match self.open.ask_long(log, &self.trail, place) {
            Some(look) => look,
            None => look_at(log, &self.trail, number),
        }
    }

    /// The alternative of the open clause of a number, at a place, that is tried first.
    pub(crate) fn choice(
        &self,
        log: &Log,
        place: usize,
        number: u32,
        shunned: &Shunned<'_>,
    ) -> Option<Lit> {
        if self.open.is_long(place) {
            last_unset(clause_of(log, number), &self.trail, shunned)
        } else {
            first_unset(log, &self.trail, &self.open, number, shunned)
        }
    }

    /// Whether the open clause at a place is long, with its alternatives in order.
    pub(crate) fn is_long(&self, place: usize) -> bool {
        self.open.is_long(place)
    }

    /// The alternative of a long open clause that is tried where another one failed, of those before it. So all of them cost no
    /// more than the clause's length.
    pub(crate) fn next_choice(
        &self,
        log: &Log,
        number: u32,
        failed: Lit,
        shunned: &Shunned<'_>,
    ) -> Option<Lit> {
        let clause = clause_of(log, number);
        let before = clause.get(..place_of(clause, failed.variable()))?;
        last_unset(before, &self.trail, shunned)
    }

    /// Looks at the open clauses that came, and again at those of which an alternative became false, until nothing follows;
    /// answers the number of one that is false. No decision stands meanwhile.
    pub(crate) fn settle(&mut self, log: &Log) -> Result<Option<u32>, AllocError> {
        for _ in 0..u32::MAX {
            let mut conflict = self.propagate(log)?;
            if conflict.is_none() {
                conflict = self.look_at_new(log)?;
            }
            if conflict.is_none() {
                conflict = self.look_again(log)?;
            }
            if conflict.is_some() || self.is_settled() {
                return Ok(conflict);
            }
        }
        Ok(None)
    }

    fn is_settled(&self) -> bool {
        let all = self.trail.len();
        self.looked >= all && self.settled >= all && self.open.waiting().is_none()
    }

    /// Enters the open clauses that came; answers the number of one that is false.
    fn look_at_new(&mut self, log: &Log) -> Result<Option<u32>, AllocError> {
        for _ in 0..self.open.len() {
            let Some(place) = self.open.waiting() else {
                break;
            };
            self.open.enter(log)?;
            let conflict = self.look_at_open(log, place)?;
            if conflict.is_some() {
                return Ok(conflict);
            }
        }
        Ok(None)
    }

    /// Looks again at the open clauses that the literals concern that became true; answers the number of one that is false.
    fn look_again(&mut self, log: &Log) -> Result<Option<u32>, AllocError> {
        for _ in 0..=log.variables() {
            let Some(literal) = self.trail.literal(self.settled) else {
                break;
            };
            self.settled = self.settled.saturating_add(1);
            let conflict = self.look_at_uses(log, literal)?;
            if conflict.is_some() {
                return Ok(conflict);
            }
        }
        Ok(None)
    }

    /// Looks at the open clauses of which a true literal's variable is an alternative.
    fn look_at_uses(&mut self, log: &Log, literal: Lit) -> Result<Option<u32>, AllocError> {
        if literal.positive() {
            return Ok(None);
        }
        let mut place = self.open.latest(literal.variable());
        for _ in 0..place {
            let Some(entry) = self.open.use_at(place) else {
                break;
            };
            place = entry.next;
            let conflict = self.look_at_open(log, entry.place)?;
            if conflict.is_some() {
                return Ok(conflict);
            }
        }
        Ok(None)
    }

    /// Looks at the open clause at a place; answers its number if it is false.
    fn look_at_open(&mut self, log: &Log, place: usize) -> Result<Option<u32>, AllocError> {
        let number = self.open.number(place).unwrap_or(0);
        match self.open.look(log, &self.trail, place) {
            Look::Conflict => return Ok(Some(number)),
            Look::Unit(literal) => self.trail.set(literal, number)?,
            Look::Open | Look::Rests => {}
        }
        Ok(None)
    }

    /// Looks also at the clauses in which variables stand that became false behind a place of the trail, at so many at most;
    /// answers the number of one that is false.
    pub(crate) fn look_back(
        &mut self,
        log: &Log,
        start: usize,
        most: usize,
    ) -> Result<Option<u32>, AllocError> {
        let mut place = start;
        let mut looks = Looks {
            left: most,
            last: 0,
        };
        for _ in 0..=log.variables() {
            let conflict = self.settle(log)?;
            if conflict.is_some() || looks.left == 0 {
                return Ok(conflict);
            }
            let Some(literal) = self.trail.literal(place) else {
                break;
            };
            place = place.saturating_add(1);
            let conflict = self.visit_denied(log, literal, &mut looks)?;
            if conflict.is_some() {
                return Ok(conflict);
            }
        }
        Ok(None)
    }

    /// Looks at clauses in which a variable stands that is false, but not at the one that was looked at last.
    fn visit_denied(
        &mut self,
        log: &Log,
        literal: Lit,
        looks: &mut Looks,
    ) -> Result<Option<u32>, AllocError> {
        if literal.positive() {
            return Ok(None);
        }
        let mut place = log.latest_with(literal.negated());
        for _ in 0..looks.left {
            let Some(link) = log.link(place) else {
                break;
            };
            place = link.next;
            if looks.left == 0 {
                break;
            }
            if link.number == looks.last {
                continue;
            }
            *looks = looks.with(link.number, clause_of(log, link.number).len());
            if self.look_once_more(log, link.number)? {
                return Ok(Some(link.number));
            }
        }
        Ok(None)
    }

    /// Looks at a clause that is not to be open; answers whether it is false.
    fn look_once_more(&mut self, log: &Log, number: u32) -> Result<bool, AllocError> {
        match look_at(log, &self.trail, number) {
            Look::Conflict => return Ok(true),
            Look::Unit(literal) => self.trail.set(literal, number)?,
            Look::Open | Look::Rests => {}
        }
        Ok(false)
    }
}
