//! A question to a solver, of which each answer is tested, and each line that it adds.
ghost use Rattle.std.specs.Prelude.{◌≡◌, ◌≤◌, length};
ghost use Rattle.dist_clause.specs.Formula.{IsClauseOver};

use crate::literals::clause_of;
use dist_clause::{Assignment, ClauseSet, Lit};
use dist_derive::{Log, Scratch};
use dist_solver::{Answer, Solver};
use std::alloc::Global;

/// What a question came to.
#[derive(Clone, Copy, PartialEq, Eq)]
pub(crate) enum End {
    Found,
    Refuted,
    /// As many lines were added as allowed.
    Undecided,
    /// A model that is none, hints that show nothing, a line that is not new, or no answer.
    Wrong,
}

/// What a question is to come to, where there is a model or not.
pub(crate) fn expected(possible: bool) -> End {
    if possible { End::Found } else { End::Refuted }
}

/// Asks for a model of the clauses, which are those of the solver, in which the assumptions are true.
pub(crate) fn ask(
    alloc: Global,
    clauses: &ClauseSet,
    solver: &mut Solver,
    assumptions: &[Lit],
    limit: u32,
) -> End
    requires few { solver.old.log.variables ≤ 1000 }
    requires clauses { clauses.now.variables ≡ solver.old.log.variables }
    requires limit { 1 ≤ limit }
    requires assumptions { IsClauseOver solver.old.log.variables assumptions.now }
    ensures { solver.new.log.variables ≡ solver.old.log.variables }
{
    let before = solver.log().len();
    let answer = solver.ask(assumptions, limit);
    let end = match &answer {
        Ok(Answer::Found(values)) => {
            if values.holds(clauses) && are_true(values, assumptions) {
                End::Found
            } else {
                End::Wrong
            }
        }
        Ok(Answer::Refuted(hints)) => shown(alloc, solver.log(), assumptions, hints.as_slice()),
        Ok(Answer::Undecided) => End::Undecided,
        Err(_) => End::Wrong,
    };
    drop(answer);
    if are_lines(alloc, solver, assumptions, before) {
        end
    } else {
        End::Wrong
    }
}

/// Whether all literals are true.
pub(crate) fn are_true(values: &Assignment, literals: &[Lit]) -> bool
    requires { IsClauseOver (length values.now) literals.now }
{
    literals
        .iter()
        .all(|l| values.value(l.variable()) == l.positive())
}

/// What hints come to by which the negated assumptions are to follow.
fn refuted(
    alloc: Global,
    log: &Log,
    scratch: &mut Scratch,
    assumptions: &[Lit],
    hints: &[u32],
) -> End
    requires few { log.now.variables ≤ 1000 }
    requires scratch { scratch.old ≡ log.now.variables }
{
    match clause_of(alloc, log.variables(), assumptions, true) {
        Some(clause) => {
            let follows = log.follows(scratch, &clause, hints);
            drop(clause);
            if follows { End::Refuted } else { End::Wrong }
        }
        None => End::Wrong,
    }
}

/// The same with a new scratch table.
pub(crate) fn shown(alloc: Global, log: &Log, assumptions: &[Lit], hints: &[u32]) -> End
    requires { log.now.variables ≤ 1000 }
{
    match Scratch::new(alloc, log.variables()) {
        Ok(mut scratch) => {
            let end = refuted(alloc, log, &mut scratch, assumptions, hints);
            drop(scratch);
            end
        }
        Err(_) => End::Wrong,
    }
}

/// Whether a line stands in the log, follows by its hints, of which each is a number below its own, and was new.
fn is_line(
    log: &Log,
    scratch: &mut Scratch,
    assumptions: &[Lit],
    number: u32,
    hints: &[u32],
) -> bool
    requires assumptions { IsClauseOver log.now.variables assumptions.now }
    requires scratch { scratch.old ≡ log.now.variables }
    ensures { scratch.new ≡ scratch.old }
{
    if number == 0 || number > log.len() {
        return false;
    }
    log.keeps_invariant();
    let clause = log.clause(number);
    hints.iter().all(|h| *h < number)
        && log.follows(scratch, clause, hints)
        && log.is_new(scratch, assumptions, clause, number)
}

/// Whether the last question's lines stand one after another behind so many clauses, and each is one.
fn are_lines_behind(
    solver: &Solver,
    scratch: &mut Scratch,
    assumptions: &[Lit],
    before: u32,
) -> bool
    requires assumptions { IsClauseOver solver.now.log.variables assumptions.now }
    requires scratch { scratch.old ≡ solver.now.log.variables }
{
    let derived = solver.derived();
    let mut last = before;
    for place in 0..derived.len() {
        let number = derived.line(place);
        if number != last.saturating_add(1)
            || !is_line(
                solver.log(),
                scratch,
                assumptions,
                number,
                derived.hints(place),
            )
        {
            return false;
        }
        last = number;
    }
    last == solver.log().len()
}

/// The same with a new scratch table.
fn are_lines(alloc: Global, solver: &Solver, assumptions: &[Lit], before: u32) -> bool
    requires { IsClauseOver solver.now.log.variables assumptions.now }
{
    match Scratch::new(alloc, solver.log().variables()) {
        Ok(mut scratch) => {
            let so = are_lines_behind(solver, &mut scratch, assumptions, before);
            drop(scratch);
            so
        }
        Err(_) => false,
    }
}
