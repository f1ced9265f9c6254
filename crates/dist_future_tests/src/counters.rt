//! Worked rows: the clauses of a small space with those of a counter behind them.
ghost use Rattle.std.specs.Prelude.{◌≡◌, ◌≤◌, length};
ghost use Rattle.dist_base.specs.declared.TheConstants.{MAX_CLAUSES, MAX_LITERALS, MAX_VARIABLES};

use crate::spaces::small_space;
use dist_base::{MAX_CLAUSES, MAX_LITERALS, MAX_MOST};
use dist_clause::ClauseSet;
use dist_future::{Space, clauses_of, models_tell_of_moves};
use dist_outside::{Limits, What, WorkError};
use dist_repair::{counters_count_moves, with_counter};
use dist_samples::{has, limited};
use std::alloc::Global;

/// A package that needs a later version of another one.
const LATER: &str = "Package: libx\nVersion: 1\n\nPackage: p\nVersion: 1\nDepends: libx (= 2)\n";

/// What a counter to none adds to these: that a cluster at a class has moved, and that one that has moved counts.
const TO_NONE: &[&[i32]] = &[
    &[-4, -6],
    &[-4, -8],
    &[-6, -8],
    &[-2, -4],
    &[-5, 4],
    &[-2, -6],
    &[-7, 6],
    &[-2, -8],
    &[-9, 8],
    &[-3, -10],
    &[-11, 10],
    &[-3, 7],
    &[-1, -4],
    &[-1, -6],
    &[-1, -8],
    &[-1, -10],
    &[-4, 12],
    &[-6, 12],
    &[-8, 12],
    &[-10, 13],
    &[-12, 14],
    &[-14, 15],
    &[-13, 15],
];

/// The same with a counter to one.
const TO_ONE: &[&[i32]] = &[
    &[-4, -6],
    &[-4, -8],
    &[-6, -8],
    &[-2, -4],
    &[-5, 4],
    &[-2, -6],
    &[-7, 6],
    &[-2, -8],
    &[-9, 8],
    &[-3, -10],
    &[-11, 10],
    &[-3, 7],
    &[-1, -4],
    &[-1, -6],
    &[-1, -8],
    &[-1, -10],
    &[-4, 12],
    &[-6, 12],
    &[-8, 12],
    &[-10, 13],
    &[-12, 14],
    &[-14, 16],
    &[-13, 16],
    &[-15, 17],
    &[-13, -14, 17],
];

/// How far the counter counts, one limit, and how many variables and which clauses there are, or the number that is passed.
type Row = (
    u32,
    (What, u32),
    Result<(u32, &'static [&'static [i32]]), What>,
);

const ROWS: &[Row] = &[
    (0, (What::Variables, 15), Ok((15, TO_NONE))),
    (0, (What::Clauses, 23), Ok((15, TO_NONE))),
    (0, (What::Literals, 46), Ok((15, TO_NONE))),
    (1, (What::Variables, 17), Ok((17, TO_ONE))),
    (0, (What::Variables, 14), Err(What::Variables)),
    (0, (What::Clauses, 22), Err(What::Clauses)),
    (0, (What::Clauses, 3), Err(What::Clauses)),
    (0, (What::Literals, 45), Err(What::Literals)),
    (0, (What::Literals, 5), Err(What::Literals)),
    (MAX_MOST, (What::Variables, 142), Err(What::Variables)),
];

/// Whether a set has as many variables as a row says, and its clauses.
fn is_set(set: &ClauseSet, row: &Row) -> bool {
    match row.2 {
        Ok((variables, counted)) => set.variables() == variables && has(set, counted),
        Err(_) => false,
    }
}

/// Whether a number that is passed is that of a row.
fn is_passed(passed: What, row: &Row) -> bool {
    match row.2 {
        Ok(_) => false,
        Err(what) => passed == what,
    }
}

/// Whether clauses with a counter are a row's, or pass its number.
fn is_counted(alloc: Global, space: &Space, clauses: &ClauseSet, row: &Row, limits: &Limits) -> bool
    requires clauses { clauses.now.variables ≡ length space.now.meanings }
    requires variables { limits.now.variables ≤ MAX_VARIABLES }
    requires clause_limit { limits.now.clauses ≤ MAX_CLAUSES }
    requires literals { limits.now.literals ≤ MAX_LITERALS }
{
    if row.0 > MAX_MOST {
        return false;
    }
    match with_counter(alloc, space, clauses, row.0, limits) {
        Ok(set) => {
            let holds = is_set(&set, row);
            drop(set);
            holds
        }
        Err(WorkError::TooLarge(passed)) => is_passed(passed, row),
        Err(_) => false,
    }
}

/// Whether a space has a row's clauses, or passes its number.
fn is_counted_of(alloc: Global, space: &Space, row: &Row) -> bool {
    match clauses_of(alloc, space, MAX_CLAUSES, MAX_LITERALS) {
        Ok(clauses) => {
            let holds = is_counted(alloc, space, &clauses, row, &limited(row.1.0, row.1.1));
            drop(clauses);
            holds
        }
        Err(_) => false,
    }
}

/// The place of the first row that a space answers otherwise.
fn wrong_row(alloc: Global, space: &Space, rows: &[Row]) -> Option<usize> {
    for place in 0..rows.len() {
        if !is_counted_of(alloc, space, &rows[place]) {
            return Some(place);
        }
    }
    None
}

/// The same of the space of some stanzas, or the number of rows if there is none.
fn wrong_row_of(alloc: Global, stanzas: &str, rows: &[Row]) -> Option<usize> {
    match small_space(alloc, stanzas, false) {
        Some(space) => {
            let wrong = wrong_row(alloc, &space, rows);
            drop(space);
            wrong
        }
        None => Some(rows.len()),
    }
}

#[test]
fn clusters_that_move_are_counted(rt: HostRuntime) {
    assert_eq!(rt; wrong_row_of(rt.alloc(), LATER, ROWS), None);
}

#[test]
fn the_laws_hold() {
    models_tell_of_moves();
    counters_count_moves();
}
