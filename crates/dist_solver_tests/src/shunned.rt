//! A question for a model that leaves variables out where it has a choice.
ghost use Rattle.std.specs.Prelude.{◌≡◌, length, IfSome};

use crate::quick::numbered_set;
use dist_clause::Assignment;
use dist_lanes::Row;
use dist_quick::Shunning;
use dist_solver::{Answer, Solver};
use std::alloc::Global;

/// Variables to shun, if any are told, and those that are true in the model that is found.
type OfOne = (Option<&'static [u32]>, &'static [u32]);

/// Of alternatives the last one is tried first, and where all are shunned the first one; a clause that is true already leaves no
/// choice.
const CLAUSES: &[&[i32]] = &[&[1, 2], &[3, 4], &[-4, 5]];

const ROWS: &[OfOne] = &[
    (None, &[2, 4, 5]),
    (Some(&[]), &[2, 4, 5]),
    (Some(&[2]), &[1, 4, 5]),
    (Some(&[4]), &[2, 3]),
    (Some(&[2, 4]), &[1, 3]),
    (Some(&[1, 3]), &[2, 4, 5]),
    (Some(&[1, 2, 3, 4, 5]), &[1, 3]),
];

/// Makes a variable true, where there is such a one.
fn add(values: &mut Assignment, variable: u32)
    requires { length values.old ≡ 5 }
    ensures { length values.new ≡ 5 }
{
    if variable >= 1 && variable <= 5 {
        values.set(variable, true);
    }
}

/// Makes these variables true.
fn add_all(values: &mut Assignment, trues: &[u32])
    requires { length values.old ≡ 5 }
    ensures { length values.new ≡ 5 }
{
    for variable in trues {
        add(values, *variable);
    }
}

/// The assignment in which these variables are true.
fn values_of(alloc: Global, trues: &[u32]) -> Option<Assignment>
    ensures { IfSome result (λ values. length values ≡ 5) }
{
    let mut values = Assignment::new(alloc, 5).ok()?;
    add_all(&mut values, trues);
    Some(values)
}

/// Whether exactly these variables are true.
fn are_trues(values: &Assignment, trues: &[u32]) -> bool
    requires { length values.now ≡ 5 }
{
    for variable in 1..6u32 {
        if values.value(variable) != trues.contains(&variable) {
            return false;
        }
    }
    true
}

/// Whether a solver finds the model in which exactly these variables are true.
fn finds(solver: &mut Solver, shunned: Option<&Assignment>, trues: &[u32]) -> bool
    requires solver { solver.old.log.variables ≡ 5 }
    requires shunned { IfSome shunned (λ values. length values.now ≡ 5) }
{
    let answer = solver.ask_with(&[], 1, &[], shunned);
    let so = match &answer {
        Ok(Answer::Found(values)) => are_trues(values, trues),
        _ => false,
    };
    drop(answer);
    so
}

/// The same, where these variables are shunned.
fn finds_without(alloc: Global, solver: &mut Solver, shunned: &[u32], trues: &[u32]) -> bool
    requires { solver.old.log.variables ≡ 5 }
{
    match values_of(alloc, shunned) {
        Some(values) => {
            let so = finds(solver, Some(&values), trues);
            drop(values);
            so
        }
        None => false,
    }
}

/// Whether a new solver finds the model of a row.
fn is_right(alloc: Global, row: &OfOne) -> bool {
    let (shunned, trues) = *row;
    let Some(clauses) = numbered_set(alloc, CLAUSES) else {
        return false;
    };
    match Solver::new(alloc, clauses, 10, 100) {
        Ok(mut solver) => {
            let so = match shunned {
                Some(shunned) => finds_without(alloc, &mut solver, shunned, trues),
                None => finds(&mut solver, None, trues),
            };
            drop(solver);
            so
        }
        Err(_) => false,
    }
}

/// Variables that all questions shun, those of them that are to be the last, and those that are true in the model that is found.
type OfAll = (&'static [u32], &'static [u32], &'static [u32]);

const ALWAYS: &[OfAll] = &[
    (&[], &[], &[2, 4, 5]),
    (&[2, 4], &[2, 4], &[1, 3]),
    (&[1, 2, 3, 4, 5], &[], &[1, 3]),
    (&[1, 2, 3, 4, 5], &[1], &[2, 3]),
    (&[1, 2, 3, 4, 5], &[1, 2], &[1, 3]),
    (&[1, 2, 3, 4, 5], &[1, 3], &[2, 4, 5]),
    (&[1], &[1, 2, 4], &[2, 4, 5]),
];

/// Sets the bit of a variable, where there is such a one.
fn put(row: &mut Row, variable: u32)
    requires { length row.old ≡ 5 }
    ensures { length row.new ≡ 5 }
{
    if variable >= 1 && variable <= 5 {
        row.set(variable as usize - 1, true);
    }
}

/// Sets the bits of these variables.
fn put_all(row: &mut Row, variables: &[u32])
    requires { length row.old ≡ 5 }
    ensures { length row.new ≡ 5 }
{
    for variable in variables {
        put(row, *variable);
    }
}

/// A row of five bits with those of these variables set.
fn row_of(alloc: Global, variables: &[u32]) -> Option<Row> {
    let mut row = Row::new(alloc, 5).ok()?;
    put_all(&mut row, variables);
    Some(row)
}

/// What a row has all questions shun.
fn shunning_of(alloc: Global, left_out: &[u32], last: &[u32]) -> Option<Shunning> {
    let left_out = row_of(alloc, left_out)?;
    let last = row_of(alloc, last)?;
    Some(Shunning { left_out, last })
}

/// A new solver that shuns the variables of a row.
fn shunning_solver(alloc: Global, row: &OfAll) -> Option<Solver>
    ensures { IfSome result (λ solver. solver.log.variables ≡ 5) }
{
    let shunning = shunning_of(alloc, row.0, row.1)?;
    let Some(clauses) = numbered_set(alloc, CLAUSES) else {
        drop(shunning);
        return None;
    };
    match Solver::new(alloc, clauses, 10, 100) {
        Ok(mut solver) => {
            solver.shun(shunning);
            Some(solver)
        }
        Err(_) => {
            drop(shunning);
            None
        }
    }
}

/// Whether a question that names variables of its own shuns these alone.
fn shuns_its_own(alloc: Global, row: &OfAll) -> bool {
    match shunning_solver(alloc, row) {
        Some(mut solver) => {
            let so = finds_without(alloc, &mut solver, &[4], &[2, 3]);
            drop(solver);
            so
        }
        None => false,
    }
}

/// Whether a solver that shuns the variables of a row finds its model.
fn is_always_right(alloc: Global, row: &OfAll) -> bool {
    match shunning_solver(alloc, row) {
        Some(mut solver) => {
            let so = finds(&mut solver, None, row.2);
            drop(solver);
            so && shuns_its_own(alloc, row)
        }
        None => false,
    }
}

/// The place of the first such row of which another model is found.
fn wrong_always(alloc: Global, rows: &[OfAll]) -> Option<usize> {
    for place in 0..rows.len() {
        if !is_always_right(alloc, &rows[place]) {
            return Some(place);
        }
    }
    None
}

/// The place of the first row of which another model is found.
fn wrong_row(alloc: Global, rows: &[OfOne]) -> Option<usize> {
    for place in 0..rows.len() {
        if !is_right(alloc, &rows[place]) {
            return Some(place);
        }
    }
    None
}

#[test]
fn variables_are_left_out_where_there_is_a_choice(rt: HostRuntime) {
    assert_eq!(rt; wrong_row(rt.alloc(), ROWS), None);
}

#[test]
fn variables_are_left_out_by_all_questions(rt: HostRuntime) {
    assert_eq!(rt; wrong_always(rt.alloc(), ALWAYS), None);
}
