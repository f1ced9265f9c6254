//! The quick phase, of which each guess is tested: at worked rows, and at small clause sets, compared with trying all assignments.
ghost use Rattle.std.specs.Prelude.{◌≡◌, ◌≤◌, length, IfSome};
ghost use Rattle.dist_clause.specs.Formula.{IsClauseOver};

use crate::literals::add;
use crate::small_sets::{Draws, agrees, draw_set, drawn_solver, is_possible};
use crate::tested::{End, are_true, shown};
use dist_clause::{Assignment, ClauseSet, Lit};
use dist_derive::Log;
use dist_quick::{Guess, Quick};
use dist_solver::Solver;
use std::alloc::Global;

/// Makes variables true, up to one that is none; answers whether all are.
fn set_all(values: &mut Assignment, variables: u32, trues: &[u32]) -> bool
    requires { variables ≡ length values.old }
    ensures { length values.new ≡ length values.old }
{
    for variable in trues {
        if *variable == 0 || *variable > variables {
            return false;
        }
        values.set(*variable, true);
    }
    true
}

/// What a model comes to of which the true variables are given.
fn found(alloc: Global, clauses: &ClauseSet, assumptions: &[Lit], trues: &[u32]) -> End
    requires { IsClauseOver clauses.now.variables assumptions.now }
{
    match Assignment::new(alloc, clauses.variables()) {
        Ok(mut values) => {
            let is_model = set_all(&mut values, clauses.variables(), trues)
                && values.holds(clauses)
                && are_true(&values, assumptions);
            drop(values);
            if is_model { End::Found } else { End::Wrong }
        }
        Err(_) => End::Wrong,
    }
}

/// What the quick phase guesses, once tested; no guess is undecided.
fn guess(
    alloc: Global,
    clauses: &ClauseSet,
    log: &Log,
    quick: &mut Quick,
    assumptions: &[Lit],
) -> End
    requires few { log.now.variables ≤ 1000 }
    requires clauses { clauses.now.variables ≡ log.now.variables }
    requires assumptions { IsClauseOver log.now.variables assumptions.now }
{
    match quick.ask(log, assumptions) {
        Ok(Guess::Model) => found(alloc, clauses, assumptions, quick.trues()),
        Ok(Guess::Refutation) => shown(alloc, log, assumptions, quick.hints()),
        Ok(Guess::Nothing) => End::Undecided,
        Err(_) => End::Wrong,
    }
}

/// Whether a model is guessed where there is one, and a refutation or nothing where there is none.
fn is_right(
    alloc: Global,
    clauses: &ClauseSet,
    log: &Log,
    quick: &mut Quick,
    assumptions: &[Lit],
) -> bool
    requires clauses { clauses.now.variables ≡ 5 }
    requires log { log.now.variables ≡ 5 }
    requires assumptions { IsClauseOver 5 assumptions.now }
{
    match guess(alloc, clauses, log, quick, assumptions) {
        End::Found => true,
        End::Refuted | End::Undecided => is_possible(alloc, clauses, assumptions) == Some(false),
        End::Wrong => false,
    }
}

/// Whether guesses are right under more and more assumptions behind those that are given.
fn are_right_behind(
    alloc: Global,
    draws: &mut Draws,
    clauses: &ClauseSet,
    log: &Log,
    quick: &mut Quick,
    assumptions: &mut Vec<Lit>,
) -> bool
    requires clauses { clauses.now.variables ≡ 5 }
    requires log { log.now.variables ≡ 5 }
    requires assumptions { IsClauseOver 5 assumptions.old.items }
{
    'assumptions: for _ in 0..4 {
        let variable = draws.draw(5).saturating_add(1);
        if add(assumptions, 5, variable, draws.draw(2) == 0)
            && !is_right(alloc, clauses, log, quick, assumptions)
        {
            return false;
        }
    }
    true
}

/// Whether guesses are right under one assumption, and under more and more behind it.
fn are_right(
    alloc: Global,
    draws: &mut Draws,
    clauses: &ClauseSet,
    log: &Log,
    quick: &mut Quick,
) -> bool
    requires clauses { clauses.now.variables ≡ 5 }
    requires log { log.now.variables ≡ 5 }
{
    let mut assumptions = Vec::new(alloc);
    let right = are_right_behind(alloc, draws, clauses, log, quick, &mut assumptions);
    drop(assumptions);
    right
}

/// Clauses, assumptions, and what the quick phase is to find.
type Asked = (&'static [&'static [i32]], &'static [i32], End);

const CHAIN: &[&[i32]] = &[&[-1, 2], &[-2, 3]];

const CHOICE: &[&[i32]] = &[&[-1, 2, 3], &[-2, 4], &[-3, 4]];

const EITHER: &[&[i32]] = &[&[1, 2], &[-1, 3], &[-2, 3]];

/// What follows from assumptions alone, and what each of two alternatives leads to.
const ASKED: &[Asked] = &[
    (&[&[-1, 2], &[-1, -2]], &[1], End::Refuted),
    (&[&[-1, 2], &[-1, -2]], &[2], End::Found),
    (CHAIN, &[1], End::Found),
    (CHAIN, &[1, -3], End::Refuted),
    (CHAIN, &[-3, 1], End::Refuted),
    (CHOICE, &[1], End::Found),
    (CHOICE, &[1, -4], End::Refuted),
    (CHOICE, &[1, -2, -3], End::Refuted),
    (EITHER, &[-3], End::Refuted),
    (&[&[1], &[-1]], &[], End::Refuted),
];

/// Puts the literals of some numbers behind the others, a negative one for a negated variable.
fn add_numbers(clause: &mut Vec<Lit>, numbers: &[i32]) -> bool
    requires { IsClauseOver 5 clause.old.items }
    ensures { IsClauseOver 5 clause.new.items }
{
    for number in numbers {
        if !add(clause, 5, number.unsigned_abs(), *number > 0) {
            return false;
        }
    }
    true
}

/// The clause of some numbers over five variables.
pub(crate) fn numbered(alloc: Global, numbers: &[i32]) -> Option<Vec<Lit>>
    ensures { IfSome result (λ c. IsClauseOver 5 c.items) }
{
    let mut clause = Vec::new(alloc);
    if add_numbers(&mut clause, numbers) {
        Some(clause)
    } else {
        drop(clause);
        None
    }
}

/// Adds the clause of some numbers.
fn push_numbers(alloc: Global, set: &mut ClauseSet, numbers: &[i32]) -> bool
    requires { set.old.variables ≡ 5 }
    ensures { set.new.variables ≡ 5 }
{
    match numbered(alloc, numbers) {
        Some(clause) => {
            let pushed = set.push(&clause).is_ok();
            drop(clause);
            pushed
        }
        None => false,
    }
}

/// Adds the clauses of some numbers.
fn push_all_numbers(alloc: Global, set: &mut ClauseSet, clauses: &[&[i32]]) -> bool
    requires { set.old.variables ≡ 5 }
    ensures { set.new.variables ≡ 5 }
{
    for numbers in clauses {
        if !push_numbers(alloc, set, numbers) {
            return false;
        }
    }
    true
}

/// The clauses of some numbers.
pub(crate) fn numbered_set(alloc: Global, clauses: &[&[i32]]) -> Option<ClauseSet>
    ensures { IfSome result (λ s. s.variables ≡ 5) }
{
    let mut set = ClauseSet::new(alloc, 5, 10, 100);
    if push_all_numbers(alloc, &mut set, clauses) {
        Some(set)
    } else {
        drop(set);
        None
    }
}

/// A log of the clauses of some numbers.
fn numbered_log(alloc: Global, clauses: &[&[i32]]) -> Option<Log>
    ensures { IfSome result (λ log. log.variables ≡ 5) }
{
    match numbered_set(alloc, clauses) {
        Some(set) => Log::covered(alloc, set, 1000, 10000).ok(),
        None => None,
    }
}

/// What the quick phase finds, asked once.
fn seen_in(alloc: Global, clauses: &ClauseSet, log: &Log, assumptions: &[Lit]) -> End
    requires clauses { clauses.now.variables ≡ 5 }
    requires log { log.now.variables ≡ 5 }
    requires assumptions { IsClauseOver 5 assumptions.now }
{
    match Quick::new(alloc, 5) {
        Ok(mut quick) => {
            let end = guess(alloc, clauses, log, &mut quick, assumptions);
            drop(quick);
            end
        }
        Err(_) => End::Wrong,
    }
}

/// The same under the assumptions of some numbers.
fn seen_under(alloc: Global, clauses: &ClauseSet, log: &Log, numbers: &[i32]) -> End
    requires clauses { clauses.now.variables ≡ 5 }
    requires log { log.now.variables ≡ 5 }
{
    match numbered(alloc, numbers) {
        Some(assumptions) => {
            let end = seen_in(alloc, clauses, log, &assumptions);
            drop(assumptions);
            end
        }
        None => End::Wrong,
    }
}

/// What the quick phase finds of a row, whose clauses are given.
fn seen_over(alloc: Global, clauses: &ClauseSet, row: &Asked) -> End
    requires { clauses.now.variables ≡ 5 }
{
    match numbered_log(alloc, row.0) {
        Some(log) => {
            let end = seen_under(alloc, clauses, &log, row.1);
            drop(log);
            end
        }
        None => End::Wrong,
    }
}

/// What the quick phase finds of a row.
fn seen_of(alloc: Global, row: &Asked) -> End {
    match numbered_set(alloc, row.0) {
        Some(clauses) => {
            let end = seen_over(alloc, &clauses, row);
            drop(clauses);
            end
        }
        None => End::Wrong,
    }
}

/// The place of the first row of which something else is found.
fn wrong_row(alloc: Global, rows: &[Asked]) -> Option<usize> {
    for place in 0..rows.len() {
        if seen_of(alloc, &rows[place]) != rows[place].2 {
            return Some(place);
        }
    }
    None
}

#[test]
fn guesses_at_rows_are_right(rt: HostRuntime) {
    assert_eq!(rt; wrong_row(rt.alloc(), ASKED), None);
}

/// Whether guesses are right, and then a question to the solver, which adds its lines.
fn round_is_right(
    alloc: Global,
    draws: &mut Draws,
    clauses: &ClauseSet,
    solver: &mut Solver,
    quick: &mut Quick,
) -> bool
    requires clauses { clauses.now.variables ≡ 5 }
    requires solver { solver.old.log.variables ≡ 5 }
    ensures { solver.new.log.variables ≡ 5 }
{
    let log = solver.log();
    are_right(alloc, draws, clauses, log, quick)
        && is_right(alloc, clauses, log, quick, &[])
        && are_right(alloc, draws, clauses, log, quick)
        && are_right(alloc, draws, clauses, log, quick)
        && agrees(alloc, draws, clauses, solver)
}

/// The same six times.
fn rounds_are_right(
    alloc: Global,
    draws: &mut Draws,
    clauses: &ClauseSet,
    solver: &mut Solver,
    quick: &mut Quick,
) -> bool
    requires clauses { clauses.now.variables ≡ 5 }
    requires solver { solver.old.log.variables ≡ 5 }
{
    'rounds: for _ in 0..6 {
        if !round_is_right(alloc, draws, clauses, solver, quick) {
            return false;
        }
    }
    true
}

/// The same with a new quick phase, by numbers that a seed draws.
fn solver_is_right(alloc: Global, seed: u64, clauses: &ClauseSet, solver: &mut Solver) -> bool
    requires clauses { clauses.now.variables ≡ 5 }
    requires solver { solver.old.log.variables ≡ 5 }
{
    match Quick::new(alloc, 5) {
        Ok(mut quick) => {
            let mut draws = Draws::new(seed);
            let right = rounds_are_right(alloc, &mut draws, clauses, solver, &mut quick);
            drop(quick);
            right
        }
        Err(_) => false,
    }
}

/// The same over so many clauses of a seed, which are given.
fn clauses_are_right(alloc: Global, seed: u64, number: u32, clauses: &ClauseSet) -> bool
    requires { clauses.now.variables ≡ 5 }
{
    match drawn_solver(alloc, seed, number) {
        Some(mut solver) => {
            let right = solver_is_right(alloc, seed.wrapping_add(1000), clauses, &mut solver);
            drop(solver);
            right
        }
        None => false,
    }
}

/// The same over the clauses of a seed.
fn stays_right(alloc: Global, seed: u64) -> bool {
    let number = Draws::new(seed).draw(21);
    match draw_set(alloc, seed, number) {
        Some(clauses) => {
            let right = clauses_are_right(alloc, seed, number, &clauses);
            drop(clauses);
            right
        }
        None => false,
    }
}

/// The first seed at whose clauses a guess is wrong.
fn wrong_seed(alloc: Global, seeds: u64) -> Option<u64> {
    for seed in 0..seeds {
        if !stays_right(alloc, seed) {
            return Some(seed);
        }
    }
    None
}

#[test]
fn guesses_at_small_sets_are_right(rt: HostRuntime) {
    assert_eq!(rt; wrong_seed(rt.alloc(), 300), None);
}
