//! Back from a false clause to what it rests on.

use crate::clauses::{Look, clause_of, look_at};
use crate::forward::{Mark, State};
use crate::needs::Need;
use crate::trail::{Trail, Truth};
use dist_clause::Lit;
use dist_derive::Log;
use std::alloc::{AllocError, Global};
use std::collections::BinaryHeap;

/// Room for the way back: the variables that are still to be explained, and the hints so far.
#[derive(Debug, Drop)]
pub(crate) struct Way {
    asked: Vec<bool>,
    /// The places of the variables that are asked for, the highest first.
    waiting: BinaryHeap<u32>,
    /// Literals that need no explanation, for each variable the negative one and then the other: `ASSUMED`, or for a need on the way to
    /// the hub its place from 2 on; 0: it isn't given.
    given: Vec<u32>,
    /// How many needs on the way to the hub are asked for, from the assumption on.
    needs: usize,
    pub(crate) hints: Vec<u32>,
    /// The clauses that led from a decision to a conflict, the latest first.
    chain: Vec<u32>,
}

/// How an assumption is given.
const ASSUMED: u32 = 1;

/// How often the clauses that led to a conflict are looked at for what they give without the decision.
const PASSES: u32 = 4;

impl Way {
    pub(crate) fn new(alloc: Global, variables: u32) -> Result<Way, AllocError> {
        let asked = vec![in alloc; false; variables as usize + 1]?;
        let given = vec![in alloc; 0u32; 2 * variables as usize + 2]?;
        Ok(Way {
            asked,
            waiting: BinaryHeap::new(alloc),
            given,
            needs: 0,
            hints: Vec::new(alloc),
            chain: Vec::new(alloc),
        })
    }

    /// Takes the needs on the way to the hub and the assumptions for given.
    pub(crate) fn give(&mut self, path: &[Need], assumptions: &[Lit]) {
        let mut how = ASSUMED;
        for need in path {
            how = how.saturating_add(1);
            self.set_given(need.literal, how);
        }
        for literal in assumptions {
            self.set_given(*literal, ASSUMED);
        }
    }

    /// Takes that back.
    pub(crate) fn take_back(&mut self, path: &[Need], assumptions: &[Lit]) {
        for need in path {
            self.set_given(need.literal, 0);
        }
        for literal in assumptions {
            self.set_given(*literal, 0);
        }
    }

    fn set_given(&mut self, literal: Lit, how: u32) {
        if let Some(given) = self.given.get_mut(slot(literal)) {
            *given = how;
        }
    }

    /// How a literal is given.
    fn given(&self, literal: Lit) -> u32 {
        self.given.get(slot(literal)).copied().unwrap_or(0)
    }

    /// The clause that makes something false that is given: that of the first need whose negation is assumed, or else of what became
    /// false first, so that nothing else is false on the way back.
    pub(crate) fn denial(&self, trail: &Trail, path: &[Need], assumptions: &[Lit]) -> Option<u32> {
        let mut denial = Denial::NONE;
        for need in path {
            if self.given(need.literal.negated()) == ASSUMED {
                return Some(need.clause);
            }
            denial = denial.or(trail, need.literal);
        }
        for literal in assumptions {
            denial = denial.or(trail, *literal);
        }
        denial.clause
    }

    /// The hints by which a false clause shows that the assumptions can't all be true: those of the way to the hub, as far as it is
    /// asked for, and behind them the others in the order of the trail. Answers false where the clause rests on a decision. It
    /// costs the clauses that it explains, however long the trail is.
    pub(crate) fn trace(
        &mut self,
        log: &Log,
        trail: &Trail,
        path: &[Need],
        conflict: u32,
    ) -> Result<bool, AllocError> {
        self.hints.clear();
        self.waiting.clear();
        self.needs = 0;
        let mut rests = true;
        self.ask(log, trail, conflict, trail.len())?;
        for _ in 0..trail.len() {
            let Some(place) = self.waiting.pop() else {
                break;
            };
            if let Some(variable) = self.take_asked(trail, place as usize) {
                let reason = trail.reason(variable);
                rests = rests && reason != 0;
                self.hints.push(reason)?;
                self.ask(log, trail, reason, place as usize)?;
            }
        }
        self.push_needs(path)?;
        self.hints.reverse();
        self.hints.push(conflict)?;
        Ok(rests)
    }

    /// Puts the clauses of the needs that are asked for, the last one first.
    fn push_needs(&mut self, path: &[Need]) -> Result<(), AllocError> {
        for place in (0..self.needs).rev() {
            if let Some(need) = path.get(place)
                && self.given(need.literal) > ASSUMED
            {
                self.hints.push(need.clause)?;
            }
        }
        Ok(())
    }

    /// Asks for the literals of a clause that have places below this one and negate nothing that is given, and for the needs that
    /// others negate.
    fn ask(
        &mut self,
        log: &Log,
        trail: &Trail,
        number: u32,
        below: usize,
    ) -> Result<(), AllocError> {
        for literal in clause_of(log, number) {
            let variable = literal.variable();
            let given = self.given(literal.negated());
            self.needs = self.needs.max(given.saturating_sub(ASSUMED) as usize);
            let place = trail.place(variable);
            if given == 0
                && trail.truth(*literal) == Truth::False
                && (place as usize) < below
                && let Some(asked) = self.asked.get_mut(variable as usize)
                && !*asked
            {
                *asked = true;
                self.waiting.push(place)?;
            }
        }
        Ok(())
    }

    /// The variable at a place of the trail, where it is asked for; from then on it isn't.
    fn take_asked(&mut self, trail: &Trail, place: usize) -> Option<u32> {
        let variable = trail.literal(place)?.variable();
        let asked = self.asked.get_mut(variable as usize)?;
        if !*asked {
            return None;
        }
        *asked = false;
        Some(variable)
    }

    /// Takes a decision back that led to a false clause; answers the number of a clause that is false even so. What the clauses
    /// that led there give without the decision stays, with reasons. Where the decision isn't false by that, it is set false
    /// without a reason.
    pub(crate) fn retract(
        &mut self,
        log: &Log,
        state: &mut State,
        start: Mark,
        decision: Lit,
        conflict: u32,
    ) -> Result<Option<u32>, AllocError> {
        self.note_chain(&state.trail, start.literals, conflict)?;
        state.undo_to(start);
        for _ in 0..PASSES {
            let before = state.trail.len();
            for number in &self.chain {
                match look_at(log, &state.trail, *number) {
                    Look::Conflict => return Ok(Some(*number)),
                    Look::Unit(literal) => state.trail.set(literal, *number)?,
                    Look::Open | Look::Rests => {}
                }
            }
            if state.trail.len() == before || state.trail.truth(decision) != Truth::Unset {
                break;
            }
        }
        if state.trail.truth(decision) == Truth::Unset {
            state.trail.set(decision.negated(), 0)?;
        }
        Ok(None)
    }

    /// Notes a false clause and the reasons behind a place of the trail, from its end.
    fn note_chain(&mut self, trail: &Trail, start: usize, conflict: u32) -> Result<(), AllocError> {
        self.chain.clear();
        self.note(conflict)?;
        for place in (start..trail.len()).rev() {
            if let Some(literal) = trail.literal(place) {
                self.note(trail.reason(literal.variable()))?;
            }
        }
        Ok(())
    }

    /// Notes a clause; 0 is none.
    fn note(&mut self, number: u32) -> Result<(), AllocError> {
        if number != 0 {
            self.chain.push(number)?;
        }
        Ok(())
    }
}

/// The clause that made something false that is given, and the place on the trail at which it did.
#[derive(Clone, Copy, Debug)]
struct Denial {
    clause: Option<u32>,
    place: u32,
}

impl Denial {
    const NONE: Denial = Denial {
        clause: None,
        place: u32::MAX,
    };

    /// That of a literal, if it is false and became so before.
    fn or(self, trail: &Trail, literal: Lit) -> Denial {
        let place = trail.place(literal.variable());
        if trail.truth(literal) == Truth::False && place < self.place {
            Denial {
                clause: Some(trail.reason(literal.variable())),
                place,
            }
        } else {
            self
        }
    }
}

/// The place of a literal among those of all variables.
fn slot(literal: Lit) -> usize {
    2 * literal.variable() as usize + usize::from(literal.positive())
}
