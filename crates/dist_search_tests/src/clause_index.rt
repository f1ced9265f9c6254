//! The index of a log's clauses: the places of literals, and the same answers with the index and without it.
ghost use Rattle.std.specs.Prelude.{◌≡◌, IfSome};
ghost use Rattle.dist_clause.specs.Formula.{IsClauseOver};

use crate::derived_lines::number_of;
use dist_clause::{ClauseSet, Lit};
use dist_derive::{Log, Scratch, VariableSet};
use dist_samples::{clause, push_all};
use std::alloc::Global;

const CLAUSES: &[&[i32]] = &[&[-1, 2, 3], &[-2, 3], &[-4, 5]];

/// A log of the clauses, with room for two lines. They are in the index, or none is.
fn log_of(alloc: Global, is_covered: bool) -> Option<Log>
    ensures { IfSome result (λ log. log.variables ≡ 5) }
{
    let mut inputs = ClauseSet::new(alloc, 5, 3, 10);
    if !push_all(alloc, &mut inputs, CLAUSES) {
        drop(inputs);
        None
    } else if is_covered {
        Log::covered(alloc, inputs, 2, 8).ok()
    } else {
        Some(Log::new(alloc, inputs, 2, 8))
    }
}

/// Whether the clauses in which a literal stands have these numbers, the latest first.
fn stands_in(log: &Log, literal: Lit, numbers: &[u32]) -> bool {
    let mut place = log.latest_with(literal);
    for number in numbers {
        match log.link(place) {
            Some(link) if link.number == *number => place = link.next,
            _ => return false,
        }
    }
    log.link(place).is_none()
}

/// Whether literals are found where they stand in a log.
fn are_found(log: &Log) -> bool {
    stands_in(log, Lit::new(3, true), &[2, 1])
        && stands_in(log, Lit::new(1, false), &[1])
        && stands_in(log, Lit::new(4, true), &[])
}

/// Whether they are found in a line of this number too.
fn are_found_in(log: &Log, number: u32) -> bool {
    stands_in(log, Lit::new(3, true), &[number, 2, 1])
        && stands_in(log, Lit::new(1, false), &[number, 1])
}

/// The same of a line that comes later.
fn are_found_later(alloc: Global, log: &mut Log) -> bool
    requires { log.old.variables ≡ 5 }
{
    match number_of(alloc, log, &[3, -1]) {
        Some(number) => are_found_in(log, number),
        None => false,
    }
}

fn literals_are_found(alloc: Global) -> bool {
    match log_of(alloc, true) {
        Some(mut log) => {
            let found = are_found(&log) && are_found_later(alloc, &mut log);
            drop(log);
            found
        }
        None => false,
    }
}

#[test]
fn literals_have_places(rt: HostRuntime) {
    assert!(rt; literals_are_found(rt.alloc()));
}

/// Whether a clause is new under an assumption or not, as it is said, and the assumption's cone has the first three variables.
fn is_new_by_cone(
    log: &mut Log,
    scratch: &mut Scratch,
    cone: &mut VariableSet,
    assumption: &[Lit],
    line: &[Lit],
    is_new: bool,
) -> bool
    requires log { log.old.variables ≡ 5 }
    requires scratch { scratch.old ≡ 5 }
    requires cone { cone.old.variables ≡ 5 }
    requires assumption { IsClauseOver 5 assumption.now }
    requires line { IsClauseOver 5 line.now }
{
    log.mark_cone(cone, assumption);
    log.is_new(scratch, assumption, line, 4) == is_new && cone.members() == [1, 2, 3].as_slice()
}

/// The same with a new cone.
fn is_new_with_cone(
    alloc: Global,
    log: &mut Log,
    scratch: &mut Scratch,
    assumption: &[Lit],
    line: &[Lit],
    is_new: bool,
) -> bool
    requires log { log.old.variables ≡ 5 }
    requires scratch { scratch.old ≡ 5 }
    requires assumption { IsClauseOver 5 assumption.now }
    requires line { IsClauseOver 5 line.now }
{
    match VariableSet::new(alloc, 5) {
        Ok(mut cone) => {
            let told = is_new_by_cone(log, scratch, &mut cone, assumption, line, is_new);
            drop(cone);
            told
        }
        Err(_) => false,
    }
}

/// The same with a new scratch table.
fn is_new_in(alloc: Global, log: &mut Log, assumption: &[Lit], line: &[Lit], is_new: bool) -> bool
    requires log { log.old.variables ≡ 5 }
    requires assumption { IsClauseOver 5 assumption.now }
    requires line { IsClauseOver 5 line.now }
{
    match Scratch::new(alloc, 5) {
        Ok(mut scratch) => {
            let told = is_new_with_cone(alloc, log, &mut scratch, assumption, line, is_new);
            drop(scratch);
            told
        }
        Err(_) => false,
    }
}

/// A clause, and whether it is new.
type New = (&'static [i32], bool);

const NEW: &[New] = &[
    (&[3, -1], true),
    (&[3, 2, -1], false),
    (&[3, -2, -1], false),
    (&[-4, -1], false),
];

/// Whether a row is told of a log under an assumption as it says.
fn is_told_under(alloc: Global, log: &mut Log, assumption: &[Lit], row: &New) -> bool
    requires log { log.old.variables ≡ 5 }
    requires assumption { IsClauseOver 5 assumption.now }
{
    match clause(alloc, 5, row.0) {
        Some(line) => {
            let told = is_new_in(alloc, log, assumption, &line, row.1);
            drop(line);
            told
        }
        None => false,
    }
}

/// The same under the assumption of the first variable.
fn is_told_of(alloc: Global, log: &mut Log, row: &New) -> bool
    requires { log.old.variables ≡ 5 }
{
    match clause(alloc, 5, &[1]) {
        Some(assumption) => {
            let told = is_told_under(alloc, log, &assumption, row);
            drop(assumption);
            told
        }
        None => false,
    }
}

/// The same of a log with its index or without.
fn is_told(alloc: Global, row: &New, is_covered: bool) -> bool {
    match log_of(alloc, is_covered) {
        Some(mut log) => {
            let told = is_told_of(alloc, &mut log, row);
            drop(log);
            told
        }
        None => false,
    }
}

/// The place of the first row that is told otherwise, with the index or without.
fn wrong_new(alloc: Global, rows: &[New]) -> Option<usize> {
    for place in 0..rows.len() {
        if !is_told(alloc, &rows[place], true) || !is_told(alloc, &rows[place], false) {
            return Some(place);
        }
    }
    None
}

#[test]
fn an_index_answers_as_a_walk_does(rt: HostRuntime) {
    assert_eq!(rt; wrong_new(rt.alloc(), NEW), None);
}

/// Lines, and whether all of them are new, each when it came.
type Lines = (&'static [&'static [i32]], bool);

const LINES: &[Lines] = &[
    (&[&[3, -1]], true),
    (&[&[3, -1], &[3, -1]], false),
    (&[&[3, -1], &[-4, -1]], false),
];

/// Adds lines to a log; answers whether it took them all.
fn append_all(alloc: Global, log: &mut Log, lines: &[&[i32]]) -> bool
    requires { log.old.variables ≡ 5 }
    ensures { log.new.variables ≡ 5 }
{
    for line in lines {
        if number_of(alloc, log, line).is_none() {
            return false;
        }
    }
    true
}

/// Whether all lines of a log are new under an assumption or not, as it is said.
fn are_new(alloc: Global, log: &mut Log, assumption: &[Lit], are_all_new: bool) -> bool
    requires log { log.old.variables ≡ 5 }
    requires assumption { IsClauseOver 5 assumption.now }
{
    match Scratch::new(alloc, 5) {
        Ok(mut scratch) => {
            let told = log.len() >= 3 && log.are_new(&mut scratch, assumption, 3) == are_all_new;
            drop(scratch);
            told
        }
        Err(_) => false,
    }
}

/// The same under the assumption of the first variable.
fn are_new_in(alloc: Global, log: &mut Log, are_all_new: bool) -> bool
    requires { log.old.variables ≡ 5 }
{
    match clause(alloc, 5, &[1]) {
        Some(assumption) => {
            let told = are_new(alloc, log, &assumption, are_all_new);
            drop(assumption);
            told
        }
        None => false,
    }
}

/// Whether the lines of a row are new as it says.
fn are_told(alloc: Global, row: &Lines) -> bool {
    match log_of(alloc, true) {
        Some(mut log) => {
            let told = append_all(alloc, &mut log, row.0) && are_new_in(alloc, &mut log, row.1);
            drop(log);
            told
        }
        None => false,
    }
}

/// The place of the first row whose lines are told otherwise.
fn wrong_lines(alloc: Global, rows: &[Lines]) -> Option<usize> {
    for place in 0..rows.len() {
        if !are_told(alloc, &rows[place]) {
            return Some(place);
        }
    }
    None
}

#[test]
fn lines_are_new_when_they_come(rt: HostRuntime) {
    assert_eq!(rt; wrong_lines(rt.alloc(), LINES), None);
}

/// True variables, and whether they are a model.
type Trues = (&'static [u32], bool);

const TRUES: &[Trues] = &[
    (&[], true),
    (&[1, 3], true),
    (&[1], false),
    (&[1, 2], false),
    (&[4, 3], false),
];

/// Puts variables into a set; answers whether all are in range.
fn include(trues: &mut VariableSet, variables: &[u32]) -> bool
    requires { trues.old.variables ≡ 5 }
    ensures { trues.new.variables ≡ 5 }
{
    for variable in variables {
        if *variable < 1 || *variable > 5 {
            return false;
        }
        trues.include(*variable);
    }
    true
}

/// Whether a row holds of a log as it says.
fn is_held_by(alloc: Global, log: &Log, row: &Trues) -> bool
    requires { log.now.variables ≡ 5 }
{
    match VariableSet::new(alloc, 5) {
        Ok(mut trues) => {
            let held = include(&mut trues, row.0) && log.holds(&trues) == row.1;
            drop(trues);
            held
        }
        Err(_) => false,
    }
}

/// Whether a row holds as it says.
fn is_held(alloc: Global, row: &Trues, is_covered: bool) -> bool {
    match log_of(alloc, is_covered) {
        Some(log) => {
            let held = is_held_by(alloc, &log, row);
            drop(log);
            held
        }
        None => false,
    }
}

/// The place of the first row that holds otherwise, with the index or without.
fn wrong_trues(alloc: Global, rows: &[Trues]) -> Option<usize> {
    for place in 0..rows.len() {
        if !is_held(alloc, &rows[place], true) || !is_held(alloc, &rows[place], false) {
            return Some(place);
        }
    }
    None
}

#[test]
fn models_are_told_apart(rt: HostRuntime) {
    assert_eq!(rt; wrong_trues(rt.alloc(), TRUES), None);
}
