//! Literals that are true for now in the order in which they became true, and why.

use dist_clause::Lit;
use std::alloc::{AllocError, Global};

/// What a literal is.
#[derive(Clone, Copy, Debug, PartialEq, Eq)]
pub(crate) enum Truth {
    True,
    False,
    Unset,
}

/// What is known of a variable.
#[derive(Clone, Copy, Debug)]
struct Known {
    truth: Truth,
    /// The number of the clause that gave it, or 0.
    reason: u32,
    /// Its place on the trail, from 0.
    place: u32,
}

const NOTHING: Known = Known {
    truth: Truth::Unset,
    reason: 0,
    place: 0,
};

/// The true literals. Variables beyond its room are unset for good.
#[derive(Debug, Drop)]
pub(crate) struct Trail {
    known: Vec<Known>,
    literals: Vec<Lit>,
    /// The variables that are true, in the order in which they became so.
    trues: Vec<u32>,
}

impl Trail {
    pub(crate) fn new(alloc: Global, variables: u32) -> Result<Trail, AllocError> {
        let known = vec![in alloc; NOTHING; variables as usize + 1]?;
        Ok(Trail {
            known,
            literals: Vec::new(alloc),
            trues: Vec::new(alloc),
        })
    }

    /// How many literals are true.
    pub(crate) fn len(&self) -> usize {
        self.literals.len()
    }

    /// The variables that are true, in the order in which they became so.
    pub(crate) fn trues(&self) -> &[u32] {
        &self.trues
    }

    /// The literal at a place, from 0.
    pub(crate) fn literal(&self, place: usize) -> Option<Lit> {
        self.literals.get(place).copied()
    }

    /// What a literal is.
    pub(crate) fn truth(&self, literal: Lit) -> Truth {
        match self.known(literal.variable()).truth {
            Truth::Unset => Truth::Unset,
            Truth::True => if literal.positive() {
                Truth::True
            } else {
                Truth::False
            },
            Truth::False => if literal.positive() {
                Truth::False
            } else {
                Truth::True
            },
        }
    }

    /// The number of the clause that gave a variable its value; 0 where none did.
    pub(crate) fn reason(&self, variable: u32) -> u32 {
        self.known(variable).reason
    }

    /// The place of a variable that has a value.
    pub(crate) fn place(&self, variable: u32) -> u32 {
        self.known(variable).place
    }

    fn known(&self, variable: u32) -> Known {
        match self.known.get(variable as usize) {
            Some(known) => *known,
            None => NOTHING,
        }
    }

    /// Makes an unset literal true.
    pub(crate) fn set(&mut self, literal: Lit, reason: u32) -> Result<(), AllocError> {
        let place = u32::try_from(self.literals.len()).unwrap_or(u32::MAX);
        self.push(literal)?;
        let truth = if literal.positive() {
            Truth::True
        } else {
            Truth::False
        };
        if let Some(known) = self.known.get_mut(literal.variable() as usize) {
            *known = Known {
                truth,
                reason,
                place,
            };
        }
        Ok(())
    }

    /// Puts a literal behind the others.
    fn push(&mut self, literal: Lit) -> Result<(), AllocError> {
        self.trues.reserve(1)?;
        self.literals.push(literal)?;
        if literal.positive() {
            self.trues.push(literal.variable())?;
        }
        Ok(())
    }

    /// Leaves so many literals.
    pub(crate) fn undo_to(&mut self, len: usize) {
        for _ in len..self.literals.len() {
            if let Some(literal) = self.literals.pop() {
                self.forget(literal);
            }
        }
    }

    /// Takes the value of the last literal's variable back.
    fn forget(&mut self, literal: Lit) {
        if literal.positive() {
            let _ = self.trues.pop();
        }
        if let Some(known) = self.known.get_mut(literal.variable() as usize) {
            *known = NOTHING;
        }
    }
}
