//! Each public call once; the rows are those of the worked examples beside the definitions.
ghost use Rattle.std.specs.Prelude.{◌≡◌, [], IfSome};
ghost use Rattle.dist_clause.specs.Formula.{IsClauseOver};

use dist_clause::{ClauseSet, Lit};
use dist_derive::{
    AppendError, Log, Outcome, Scratch, TrueLiterals, Truth, VariableSet, cone_is_closed,
    cone_models_extend, lines_keep_models, more_clauses_keep_what_follows, new_is_no_copy,
    new_lines_are_few, settled_literals_make_new, unit_steps_are_hints, what_settles_a_clause,
    what_the_cone_depends_on,
};
use dist_samples::{clause, push_all};
use std::alloc::Global;

/// Input clauses over five variables.
type Inputs = &'static [&'static [i32]];

const CONFLICT: Inputs = &[&[-1, 2], &[-1, -2]];

const CHAIN: Inputs = &[&[-1, 2], &[-2, 3]];

const CHOICE: Inputs = &[&[-1, 2, 3], &[-2, 3], &[-4, 5]];

/// A log of input clauses, with room for two lines of four literals together.
fn log_of(alloc: Global, clauses: &[&[i32]]) -> Option<Log>
    ensures { IfSome result (λ log. log.variables ≡ 5) }
{
    let mut inputs = ClauseSet::new(alloc, 5, 3, 10);
    if push_all(alloc, &mut inputs, clauses) {
        Some(Log::new(alloc, inputs, 2, 4))
    } else {
        drop(inputs);
        None
    }
}

/// A line that comes to a log, and the answer.
type Appended = (&'static [i32], Result<u32, AppendError>);

const APPENDED: &[Appended] = &[
    (&[-1], Ok(3)),
    (&[1, 2, 3, 4], Err(AppendError::TooManyLiterals)),
    (&[1, 2, 3], Ok(4)),
    (&[-1], Err(AppendError::TooManyLines)),
];

/// What a log of five variables answers to a line.
fn append(alloc: Global, log: &mut Log, numbers: &[i32]) -> Option<Result<u32, AppendError>>
    requires { log.old.variables ≡ 5 }
    ensures { log.new.variables ≡ 5 }
{
    match clause(alloc, 5, numbers) {
        Some(line) => {
            let answer = log.append(&line);
            drop(line);
            Some(answer)
        }
        None => None,
    }
}

/// The number of a line that a log of five variables takes.
pub(crate) fn number_of(alloc: Global, log: &mut Log, numbers: &[i32]) -> Option<u32>
    requires { log.old.variables ≡ 5 }
    ensures { log.new.variables ≡ 5 }
{
    match append(alloc, log, numbers) {
        Some(answer) => answer.ok(),
        None => None,
    }
}

/// Whether each line is answered as its row says.
fn are_appended(alloc: Global, log: &mut Log, rows: &[Appended]) -> bool
    requires { log.old.variables ≡ 5 }
{
    for row in rows {
        if append(alloc, log, row.0) != Some(row.1) {
            return false;
        }
    }
    true
}

/// Whether the clause or line of a number is the one of some numbers.
fn has_clause(alloc: Global, log: &Log, number: u32, numbers: &[i32]) -> bool {
    match clause(alloc, 5, numbers) {
        Some(clause) => {
            let so = is_clause(log, number, &clause);
            drop(clause);
            so
        }
        None => false,
    }
}

fn is_clause(log: &Log, number: u32, clause: &[Lit]) -> bool {
    number >= 1 && number <= log.len() && log.clause(number) == clause
}

/// Whether a log of two clauses has the two lines that it took.
fn has_both(alloc: Global, log: &Log) -> bool {
    log.inputs() == 2
        && log.len() == 4
        && has_clause(alloc, log, 2, &[-1, -2])
        && has_clause(alloc, log, 3, &[-1])
}

/// Whether a log of two clauses answers as the rows say, and has the two lines that it took.
fn are_numbered_on(alloc: Global, rows: &[Appended]) -> bool {
    match log_of(alloc, CONFLICT) {
        Some(mut log) => {
            let numbered = log.variables() == 5
                && are_appended(alloc, &mut log, rows)
                && has_both(alloc, &log);
            drop(log);
            numbered
        }
        None => false,
    }
}

#[test]
fn a_log_numbers_its_lines_on(rt: HostRuntime) {
    assert!(rt; are_numbered_on(rt.alloc(), APPENDED));
}

/// Hints, and whether the negated first variable follows by them.
type Following = (&'static [u32], bool);

const FOLLOWING: &[Following] = &[
    (&[1, 2], true),
    (&[2, 1], true),
    (&[2], false),
    (&[], false),
    (&[0], false),
    (&[3], false),
    (&[1, 2, 3], false),
    (&[1, 2, 2], true),
];

/// Whether a line follows by hints or not, as each row says.
fn follow(log: &Log, scratch: &mut Scratch, line: &[Lit], rows: &[Following]) -> bool
    requires variables { log.now.variables ≡ 5 }
    requires scratch { scratch.old ≡ 5 }
    requires line { IsClauseOver 5 line.now }
{
    for row in rows {
        if log.follows(scratch, line, row.0) != row.1 {
            return false;
        }
    }
    true
}

/// The same with a new scratch table.
fn follow_in(alloc: Global, log: &Log, line: &[Lit], rows: &[Following]) -> bool
    requires variables { log.now.variables ≡ 5 }
    requires line { IsClauseOver 5 line.now }
{
    match Scratch::new(alloc, 5) {
        Ok(mut scratch) => {
            let told = follow(log, &mut scratch, line, rows);
            drop(scratch);
            told
        }
        Err(_) => false,
    }
}

/// Whether the negated first variable follows in a log as each row says.
fn denial_follows(alloc: Global, log: &Log, rows: &[Following]) -> bool
    requires { log.now.variables ≡ 5 }
{
    match clause(alloc, 5, &[-1]) {
        Some(line) => {
            let told = follow_in(alloc, log, &line, rows);
            drop(line);
            told
        }
        None => false,
    }
}

/// The same of a conflict.
fn follow_as_told(alloc: Global, rows: &[Following]) -> bool {
    match log_of(alloc, CONFLICT) {
        Some(log) => {
            let told = denial_follows(alloc, &log, rows);
            drop(log);
            told
        }
        None => false,
    }
}

#[test]
fn a_clause_follows_by_hints_that_end_false(rt: HostRuntime) {
    assert!(rt; follow_as_told(rt.alloc(), FOLLOWING));
}

/// Input clauses and perhaps a line, a clause, the number before which clauses count, and whether the clause is new under the
/// assumption of the first variable.
type New = (Inputs, &'static [i32], &'static [i32], u32, bool);

const NEW: &[New] = &[
    // What propagation gives is not new.
    (CONFLICT, &[], &[-1], 3, false),
    (CONFLICT, &[], &[-1, 2], 3, false),
    (CHAIN, &[], &[3, -1], 3, false),
    (CHOICE, &[], &[3, -1], 4, true),
    (CHOICE, &[], &[3, 2, -1], 4, false),
    // A lengthened copy.
    (CHOICE, &[], &[3, -2, -1], 4, false),
    // Outside the cone.
    (CHOICE, &[], &[-4, -1], 4, false),
    (CHOICE, &[], &[], 4, false),
    // The lines before count alone.
    (CHOICE, &[3, -1], &[3, -1], 4, true),
    (CHOICE, &[3, -1], &[3, -1], 5, false),
];

/// Whether a clause is new under an assumption, each of two times that it is asked.
fn is_new(log: &Log, scratch: &mut Scratch, assumption: &[Lit], line: &[Lit], row: &New) -> bool
    requires variables { log.now.variables ≡ 5 }
    requires scratch { scratch.old ≡ 5 }
    requires assumption { IsClauseOver 5 assumption.now }
    requires line { IsClauseOver 5 line.now }
{
    log.is_new(scratch, assumption, line, row.3) == row.4
        && log.is_new(scratch, assumption, line, row.3) == row.4
}

/// The same with a new scratch table.
fn is_new_in(alloc: Global, log: &Log, assumption: &[Lit], line: &[Lit], row: &New) -> bool
    requires variables { log.now.variables ≡ 5 }
    requires assumption { IsClauseOver 5 assumption.now }
    requires line { IsClauseOver 5 line.now }
{
    match Scratch::new(alloc, 5) {
        Ok(mut scratch) => {
            let told = is_new(log, &mut scratch, assumption, line, row);
            drop(scratch);
            told
        }
        Err(_) => false,
    }
}

/// Whether the clause of a row is new in a log under an assumption or not, as the row says.
fn is_judged_under(alloc: Global, log: &Log, assumption: &[Lit], row: &New) -> bool
    requires variables { log.now.variables ≡ 5 }
    requires assumption { IsClauseOver 5 assumption.now }
{
    match clause(alloc, 5, row.2) {
        Some(line) => {
            let told = is_new_in(alloc, log, assumption, &line, row);
            drop(line);
            told
        }
        None => false,
    }
}

/// The same under the assumption of the first variable.
fn is_judged(alloc: Global, log: &Log, row: &New) -> bool
    requires { log.now.variables ≡ 5 }
{
    match clause(alloc, 5, &[1]) {
        Some(assumption) => {
            let told = is_judged_under(alloc, log, &assumption, row);
            drop(assumption);
            told
        }
        None => false,
    }
}

/// Whether a log takes the line of a row, if it has one.
fn takes_line(alloc: Global, log: &mut Log, row: &New) -> bool
    requires { log.old.variables ≡ 5 }
    ensures { log.new.variables ≡ 5 }
{
    row.1.is_empty() || number_of(alloc, log, row.1).is_some()
}

/// Whether the clause of a row is new or not, as the row says.
fn is_told(alloc: Global, row: &New) -> bool {
    match log_of(alloc, row.0) {
        Some(mut log) => {
            let told = takes_line(alloc, &mut log, row) && is_judged(alloc, &log, row);
            drop(log);
            told
        }
        None => false,
    }
}

/// The place of the first row that is told otherwise.
fn wrong_new(alloc: Global, rows: &[New]) -> Option<usize> {
    for place in 0..rows.len() {
        if !is_told(alloc, &rows[place]) {
            return Some(place);
        }
    }
    None
}

#[test]
fn new_clauses_are_told_apart(rt: HostRuntime) {
    assert_eq!(rt; wrong_new(rt.alloc(), NEW), None);
}

/// Whether the cone of assumptions has the listed variables in that order.
fn reach(alloc: Global, log: &Log, assumptions: &[Lit], expected: &[u32]) -> bool
    requires variables { log.now.variables ≡ 5 }
    requires assumptions { IsClauseOver 5 assumptions.now }
{
    match VariableSet::new(alloc, 5) {
        Ok(mut cone) => {
            log.mark_cone(&mut cone, assumptions);
            let reached = cone.members() == expected;
            drop(cone);
            reached
        }
        Err(_) => false,
    }
}

/// The same of the assumptions of some numbers.
fn reaches(alloc: Global, log: &Log, numbers: &[i32], expected: &[u32]) -> bool
    requires { log.now.variables ≡ 5 }
{
    match clause(alloc, 5, numbers) {
        Some(assumptions) => {
            let reached = reach(alloc, log, &assumptions, expected);
            drop(assumptions);
            reached
        }
        None => false,
    }
}

/// Whether two cones of a choice have the variables that their assumptions reach.
fn cones_are_marked(alloc: Global) -> bool {
    match log_of(alloc, CHOICE) {
        Some(log) => {
            let marked = reaches(alloc, &log, &[1], &[1, 2, 3])
                && reaches(alloc, &log, &[-4], &[4, 5]);
            drop(log);
            marked
        }
        None => false,
    }
}

/// Whether a set of no variables is empty, and stays so.
fn is_empty(alloc: Global) -> bool {
    match VariableSet::new(alloc, 5) {
        Ok(mut none) => {
            let missing = !none.contains(3);
            none.clear();
            let empty = missing && none.members().is_empty();
            drop(none);
            empty
        }
        Err(_) => false,
    }
}

#[test]
fn a_cone_has_what_the_assumptions_reach(rt: HostRuntime) {
    assert!(rt; cones_are_marked(rt.alloc()));
    assert!(rt; is_empty(rt.alloc()));
}

/// Whether a clause of the negated first and the second variable is settled as the first comes true.
fn is_settled(trues: &mut TrueLiterals, line: &[Lit]) -> bool
    requires trues { trues.old.variables ≡ 5 }
    requires none { trues.old.literals ≡ [] }
    requires line { IsClauseOver 5 line.now }
{
    let open = matches!(trues.outcome(line), Outcome::Open);
    trues.make_true(Lit::new(1, true));
    let settled = matches!(trues.status(Lit::new(1, false)), Truth::False)
        && trues.is_unset(Lit::new(2, true))
        && matches!(trues.outcome(line), Outcome::Unit(_));
    trues.clear();
    open && settled && trues.is_unset(Lit::new(1, true))
}

/// The same with a new set of true literals.
fn is_settled_in(alloc: Global, line: &[Lit]) -> bool
    requires { IsClauseOver 5 line.now }
{
    match TrueLiterals::new(alloc, 5) {
        Ok(mut trues) => {
            let settled = is_settled(&mut trues, line);
            drop(trues);
            settled
        }
        Err(_) => false,
    }
}

/// Whether true literals settle a clause.
fn literals_settle(alloc: Global) -> bool {
    match clause(alloc, 5, &[-1, 2]) {
        Some(line) => {
            let settled = is_settled_in(alloc, &line);
            drop(line);
            settled
        }
        None => false,
    }
}

#[test]
fn true_literals_settle_a_clause(rt: HostRuntime) {
    assert!(rt; literals_settle(rt.alloc()));
}

#[test]
fn the_laws_hold() {
    lines_keep_models();
    more_clauses_keep_what_follows();
    unit_steps_are_hints();
    what_settles_a_clause();
    settled_literals_make_new();
    new_is_no_copy();
    new_lines_are_few();
    cone_is_closed();
    what_the_cone_depends_on();
    cone_models_extend();
}
