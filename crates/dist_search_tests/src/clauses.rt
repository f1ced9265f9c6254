//! Each public call once, at values from the DIMACS format and the stated limits.
ghost use Rattle.std.specs.Prelude.{◌≡◌, length};

use dist_clause::{Assignment, ClauseSet, Lit, PushError};
use dist_samples::{clause, push};
use std::alloc::Global;

/// Whether a literal has this variable and this sign.
fn is_literal(literal: Lit, variable: u32, positive: bool) -> bool {
    literal.variable() == variable && literal.positive() == positive
}

#[test]
fn a_literal_has_a_variable_and_a_sign(rt: HostRuntime) {
    let literal = Lit::new(7, true);
    assert!(rt; is_literal(literal, 7, true));
    assert!(rt; is_literal(literal.negated(), 7, false));
    assert!(rt; literal.negated().negated() == literal);
    assert!(rt; is_literal(Lit::new(16_000_000, false), 16_000_000, false));
}

/// A clause that comes to a set, and the answer.
type Pushed = (&'static [i32], Result<(), PushError>);

/// A set of two clauses and four literals at most refuses at these limits.
const PUSHED: &[Pushed] = &[
    (&[1, -2, 3], Ok(())),
    (&[-4, 5], Err(PushError::TooManyLiterals)),
    (&[2], Ok(())),
    (&[-4, 5], Err(PushError::TooManyClauses)),
];

/// Whether each clause is answered as its row says.
fn are_pushed(alloc: Global, set: &mut ClauseSet, rows: &[Pushed]) -> bool
    requires { set.old.variables ≡ 5 }
    ensures { set.new.variables ≡ 5 }
{
    for row in rows {
        if push(alloc, set, row.0) != Some(row.1) {
            return false;
        }
    }
    true
}

/// Whether the clause of a number is the one of some numbers.
fn has_clause(alloc: Global, set: &ClauseSet, number: u32, numbers: &[i32]) -> bool {
    match clause(alloc, 5, numbers) {
        Some(clause) => {
            let so = is_clause(set, number, &clause);
            drop(clause);
            so
        }
        None => false,
    }
}

fn is_clause(set: &ClauseSet, number: u32, clause: &[Lit]) -> bool {
    number >= 1 && number <= set.len() && set.clause(number) == clause
}

/// Whether a set has the two clauses that it took.
fn has_both(alloc: Global, set: &ClauseSet) -> bool {
    set.variables() == 5
        && set.len() == 2
        && has_clause(alloc, set, 1, &[1, -2, 3])
        && has_clause(alloc, set, 2, &[2])
}

/// Whether a set answers as the rows say, and has the two clauses that it took.
fn are_held(alloc: Global, rows: &[Pushed]) -> bool {
    let mut set = ClauseSet::new(alloc, 5, 2, 4);
    let held = are_pushed(alloc, &mut set, rows) && has_both(alloc, &set);
    drop(set);
    held
}

#[test]
fn a_set_refuses_at_its_two_limits(rt: HostRuntime) {
    assert!(rt; are_held(rt.alloc(), PUSHED));
}

/// The values of the first two variables, and whether they make every clause true.
const VALUES: &[(bool, bool, bool)] = &[
    (false, false, true),
    (false, true, true),
    (true, false, false),
    (true, true, false),
];

/// Whether the values of a row are kept, and make every clause true or not, as it says.
fn is_model(set: &ClauseSet, values: &mut Assignment, row: &(bool, bool, bool)) -> bool
    requires set { set.now.variables ≡ 5 }
    requires values { length values.old ≡ 5 }
    ensures { length values.new ≡ 5 }
{
    let (first, second, holds) = *row;
    values.set(1, first);
    values.set(2, second);
    values.value(1) == first && values.value(2) == second && values.holds(set) == holds
}

/// Whether the values of each row make every clause true or not, as it says.
fn are_models(set: &ClauseSet, values: &mut Assignment, rows: &[(bool, bool, bool)]) -> bool
    requires set { set.now.variables ≡ 5 }
    requires values { length values.old ≡ 5 }
{
    for row in rows {
        if !is_model(set, values, row) {
            return false;
        }
    }
    true
}

/// Whether the first variable is false at first, and then the values of each row hold in a set as it says.
fn are_told(alloc: Global, set: &ClauseSet, rows: &[(bool, bool, bool)]) -> bool
    requires { set.now.variables ≡ 5 }
{
    match Assignment::new(alloc, 5) {
        Ok(mut values) => {
            let told = !values.value(1) && are_models(set, &mut values, rows);
            drop(values);
            told
        }
        Err(_) => false,
    }
}

/// A conflict with the first variable.
const CONFLICT: &[Pushed] = &[(&[-1, 2], Ok(())), (&[-1, -2], Ok(()))];

/// Whether the two clauses of a conflict hold as the rows say.
fn hold_as_told(alloc: Global, rows: &[(bool, bool, bool)]) -> bool {
    let mut set = ClauseSet::new(alloc, 5, 2, 4);
    let told = are_pushed(alloc, &mut set, CONFLICT) && are_told(alloc, &set, rows);
    drop(set);
    told
}

#[test]
fn a_model_makes_every_clause_true(rt: HostRuntime) {
    assert!(rt; hold_as_told(rt.alloc(), VALUES));
}
