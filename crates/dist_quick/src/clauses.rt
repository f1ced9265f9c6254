//! What clauses are under the literals of a trail.

use crate::trail::{Trail, Truth};
use dist_clause::Lit;
use dist_derive::Log;

/// What a clause asks for.
#[derive(Clone, Copy, Debug)]
pub(crate) enum Look {
    /// All its literals are false.
    Conflict,
    /// All its literals but this one are false, and this one is unset.
    Unit(Lit),
    /// Its unset literals are two or more alternatives, all of them positive.
    Open,
    /// A literal is true, or a negative one is unset: nothing for now.
    Rests,
}

impl Look {
    /// What a clause asks for with one more literal that is unset.
    fn with_unset(self, literal: Lit) -> Look {
        match self {
            Look::Conflict => Look::Unit(literal),
            Look::Unit(other) => if other.positive() && literal.positive() {
                Look::Open
            } else {
                Look::Rests
            },
            Look::Open => if literal.positive() {
                Look::Open
            } else {
                Look::Rests
            },
            Look::Rests => Look::Rests,
        }
    }
}

/// The clause of a number; a number that the log hasn't got has the clause of no literals.
pub(crate) fn clause_of(log: &Log, number: u32) -> &[Lit] {
    if number == 0 || number > log.len() {
        return &[];
    }
    log.clause(number)
}

/// What the clause of a number asks for.
pub(crate) fn look_at(log: &Log, trail: &Trail, number: u32) -> Look {
    let mut look = Look::Conflict;
    for literal in clause_of(log, number) {
        match trail.truth(*literal) {
            Truth::True => return Look::Rests,
            Truth::False => {}
            Truth::Unset => look = look.with_unset(*literal),
        }
        if let Look::Rests = look {
            return look;
        }
    }
    look
}

/// Whether a clause is looked at before any assumption: it has fewer than two literals, or none that is negative.
pub(crate) fn is_root(clause: &[Lit]) -> bool {
    clause.len() < 2 || clause.iter().all(|l| l.positive())
}
