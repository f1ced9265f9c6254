//! Questions that one solver is asked one after another, at worked rows: single literals, an empty clause, assumptions that a
//! clause denies, and clauses that reach outside the cone.
ghost use Rattle.std.specs.Prelude.{◌≡◌};

use crate::quick::{numbered, numbered_set};
use crate::tested::{End, ask};
use dist_clause::ClauseSet;
use dist_solver::Solver;
use std::alloc::Global;

/// Assumptions, and what the question comes to.
type Question = (&'static [i32], End);

/// Clauses, and the questions in their order.
type Row = (&'static [&'static [i32]], &'static [Question]);

/// Where 5 is true, none of the values of 1, 2 and 3 is possible. It takes lines to show that.
const EIGHT: &[&[i32]] = &[
    &[1, 2, 3, -5],
    &[1, 2, -3, -5],
    &[1, -2, 3, -5],
    &[1, -2, -3, -5],
    &[-1, 2, 3, -5],
    &[-1, 2, -3, -5],
    &[-1, -2, 3, -5],
    &[-1, -2, -3, -5],
];

/// The same, where 5 is asked for.
const EIGHT_AND_FIVE: &[&[i32]] = &[
    &[1, 2, 3, -5],
    &[1, 2, -3, -5],
    &[1, -2, 3, -5],
    &[1, -2, -3, -5],
    &[-1, 2, 3, -5],
    &[-1, 2, -3, -5],
    &[-1, -2, 3, -5],
    &[-1, -2, -3, -5],
    &[5],
];

/// The same, where 4 or 5 is.
const EIGHT_OR_FOUR: &[&[i32]] = &[
    &[1, 2, 3, -5],
    &[1, 2, -3, -5],
    &[1, -2, 3, -5],
    &[1, -2, -3, -5],
    &[-1, 2, 3, -5],
    &[-1, 2, -3, -5],
    &[-1, -2, 3, -5],
    &[-1, -2, -3, -5],
    &[4, 5],
];

const ROWS: &[Row] = &[
    (
        EIGHT,
        &[
            (&[4], End::Found),
            (&[5], End::Refuted),
            (&[-5], End::Found),
            (&[4, 5], End::Refuted),
            (&[1, -5], End::Found),
            (&[], End::Found),
            (&[1, 2, 5], End::Refuted),
        ],
    ),
    (
        EIGHT_AND_FIVE,
        &[
            (&[4], End::Refuted),
            (&[-5], End::Refuted),
            (&[], End::Refuted),
            (&[5, 4], End::Refuted),
        ],
    ),
    (
        EIGHT_OR_FOUR,
        &[
            (&[1], End::Found),
            (&[-4], End::Refuted),
            (&[4], End::Found),
            (&[], End::Found),
            (&[4, 5], End::Refuted),
            (&[-4, 1], End::Refuted),
        ],
    ),
    // Single literals, and assumptions that they deny.
    (
        &[&[1], &[-1, 2], &[-2, 3]],
        &[
            (&[], End::Found),
            (&[-3], End::Refuted),
            (&[-1], End::Refuted),
            (&[3, 4], End::Found),
            (&[4, -2], End::Refuted),
        ],
    ),
    (
        &[&[1], &[-1], &[2, 3]],
        &[
            (&[4], End::Refuted),
            (&[], End::Refuted),
            (&[2], End::Refuted),
        ],
    ),
    (
        &[&[-4], &[4, 1], &[-1, -2], &[2, 3]],
        &[
            (&[4], End::Refuted),
            (&[-3], End::Refuted),
            (&[5], End::Found),
            (&[2], End::Refuted),
            (&[3], End::Found),
        ],
    ),
    // An empty clause, which leaves no question open.
    (
        &[&[-1, 2], &[], &[3]],
        &[
            (&[], End::Refuted),
            (&[1], End::Refuted),
            (&[-1, 4], End::Refuted),
        ],
    ),
    // Clauses that reach outside the cone of 1 and of 2.
    (
        &[&[-4, 1], &[-4, -1], &[1, 2]],
        &[
            (&[1], End::Found),
            (&[2], End::Found),
            (&[4], End::Refuted),
            (&[-1], End::Found),
            (&[-1, 4], End::Refuted),
            (&[-1, -2], End::Refuted),
        ],
    ),
];

/// Whether a question, asked twice, comes to what it says.
fn comes_to(alloc: Global, clauses: &ClauseSet, solver: &mut Solver, question: &Question) -> bool
    requires clauses { clauses.now.variables ≡ 5 }
    requires solver { solver.old.log.variables ≡ 5 }
    ensures { solver.new.log.variables ≡ 5 }
{
    match numbered(alloc, question.0) {
        Some(assumptions) => {
            let end = ask(alloc, clauses, solver, &assumptions, 1000);
            let again = ask(alloc, clauses, solver, &assumptions, 1);
            drop(assumptions);
            end == question.1 && again == end
        }
        None => false,
    }
}

/// The same of all questions, one after another.
fn all_come_to(
    alloc: Global,
    clauses: &ClauseSet,
    solver: &mut Solver,
    questions: &[Question],
) -> bool
    requires clauses { clauses.now.variables ≡ 5 }
    requires solver { solver.old.log.variables ≡ 5 }
{
    for question in questions {
        if !comes_to(alloc, clauses, solver, question) {
            return false;
        }
    }
    true
}

/// The same with a new solver of the clauses of a row, which are given.
fn solver_is_right(alloc: Global, clauses: &ClauseSet, row: &Row) -> bool
    requires { clauses.now.variables ≡ 5 }
{
    let Some(set) = numbered_set(alloc, row.0) else {
        return false;
    };
    match Solver::new(alloc, set, 1000, 10000) {
        Ok(mut solver) => {
            let so = all_come_to(alloc, clauses, &mut solver, row.1);
            drop(solver);
            so
        }
        Err(_) => false,
    }
}

/// The same of a row.
fn is_right(alloc: Global, row: &Row) -> bool {
    match numbered_set(alloc, row.0) {
        Some(clauses) => {
            let so = solver_is_right(alloc, &clauses, row);
            drop(clauses);
            so
        }
        None => false,
    }
}

/// The place of the first row of which a question comes to something else.
fn wrong_row(alloc: Global, rows: &[Row]) -> Option<usize> {
    for place in 0..rows.len() {
        if !is_right(alloc, &rows[place]) {
            return Some(place);
        }
    }
    None
}

#[test]
fn questions_at_rows_come_to_their_ends(rt: HostRuntime) {
    assert_eq!(rt; wrong_row(rt.alloc(), ROWS), None);
}
