//! Long clauses, of which is asked what they ask for without a walk over them.

use dist_clause::Lit;

/// Clauses of more literals are long.
const LONG: usize = 32;

/// A number above the steps of a search by halves.
const HALVES: u32 = 64;

/// Whether a clause is long and its variables rise behind the first literal, which is negative or below them.
pub(crate) fn is_long(clause: &[Lit]) -> bool {
    if clause.len() <= LONG {
        return false;
    }
    let mut last = 0;
    for (place, literal) in clause.iter().enumerate() {
        if !rises(place, *literal, last) {
            return false;
        }
        if literal.positive() {
            last = literal.variable();
        }
    }
    true
}

/// Whether a literal may stand at a place of such a clause, behind a variable.
fn rises(place: usize, literal: Lit, last: u32) -> bool {
    if literal.positive() {
        literal.variable() > last
    } else {
        place == 0
    }
}

/// Whether a variable is an alternative of a long clause.
pub(crate) fn has_alternative(clause: &[Lit], variable: u32) -> bool {
    clause
        .get(place_of(clause, variable))
        .is_some_and(|l| l.positive() && l.variable() == variable)
}

/// How many literals of a long clause stand before a variable's place in it.
pub(crate) fn place_of(clause: &[Lit], variable: u32) -> usize {
    let mut low = 0;
    let mut high = clause.len();
    for _ in 0..HALVES {
        if low >= high {
            break;
        }
        let middle = low + (high - low) / 2;
        match clause.get(middle) {
            Some(literal) if !literal.positive() || literal.variable() < variable => {
                low = middle + 1;
            }
            _ => high = middle,
        }
    }
    low
}
