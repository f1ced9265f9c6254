//! The solver over small clause sets: each of its answers is compared with trying all assignments, and no guess fails its test.
ghost use Rattle.std.specs.Prelude.{◌≡◌};
ghost use Rattle.dist_clause.specs.Formula.{IsClauseOver};

use crate::literals::add;
use crate::small_sets::{Draws, draw_set, is_possible};
use crate::tested::{ask, expected};
use dist_clause::{ClauseSet, Lit};
use dist_solver::Solver;
use std::alloc::Global;

/// Whether a question is answered as by trying all assignments.
fn is_right(alloc: Global, clauses: &ClauseSet, solver: &mut Solver, assumptions: &[Lit]) -> bool
    requires clauses { clauses.now.variables ≡ 5 }
    requires solver { solver.old.log.variables ≡ 5 }
    requires assumptions { IsClauseOver 5 assumptions.now }
    ensures { solver.new.log.variables ≡ 5 }
{
    let end = ask(alloc, clauses, solver, assumptions, 1000);
    match is_possible(alloc, clauses, assumptions) {
        Some(possible) => end == expected(possible),
        None => false,
    }
}

/// Whether questions are answered as by trying all assignments, with more and more assumptions behind those that are given.
fn are_right_behind(
    alloc: Global,
    draws: &mut Draws,
    clauses: &ClauseSet,
    solver: &mut Solver,
    assumptions: &mut Vec<Lit>,
) -> bool
    requires clauses { clauses.now.variables ≡ 5 }
    requires solver { solver.old.log.variables ≡ 5 }
    requires assumptions { IsClauseOver 5 assumptions.old.items }
    ensures { solver.new.log.variables ≡ 5 }
{
    'questions: for _ in 0..5 {
        if !is_right(alloc, clauses, solver, assumptions) {
            return false;
        }
        let variable = draws.draw(5).saturating_add(1);
        let _ = add(assumptions, 5, variable, draws.draw(2) == 0);
    }
    true
}

/// The same, the first question without assumptions.
fn are_right(alloc: Global, draws: &mut Draws, clauses: &ClauseSet, solver: &mut Solver) -> bool
    requires clauses { clauses.now.variables ≡ 5 }
    requires solver { solver.old.log.variables ≡ 5 }
    ensures { solver.new.log.variables ≡ 5 }
{
    let mut assumptions = Vec::new(alloc);
    let right = are_right_behind(alloc, draws, clauses, solver, &mut assumptions);
    drop(assumptions);
    right
}

/// The same four times.
fn all_are_right(alloc: Global, draws: &mut Draws, clauses: &ClauseSet, solver: &mut Solver) -> bool
    requires clauses { clauses.now.variables ≡ 5 }
    requires solver { solver.old.log.variables ≡ 5 }
{
    'rounds: for _ in 0..4 {
        if !are_right(alloc, draws, clauses, solver) {
            return false;
        }
    }
    true
}

/// The same with a solver of the clauses of a seed.
fn seed_is_right(alloc: Global, seed: u64, clauses: &ClauseSet, same: ClauseSet) -> bool
    requires clauses { clauses.now.variables ≡ 5 }
    requires same { same.variables ≡ 5 }
{
    match Solver::new(alloc, same, 1000, 10000) {
        Ok(mut solver) => {
            let mut draws = Draws::new(seed.wrapping_add(1000));
            let right = all_are_right(alloc, &mut draws, clauses, &mut solver)
                && solver.failed_guesses() == 0;
            drop(solver);
            right
        }
        Err(_) => false,
    }
}

/// The same of so many clauses of a seed, which are given.
fn clauses_are_right(alloc: Global, seed: u64, number: u32, clauses: &ClauseSet) -> bool
    requires { clauses.now.variables ≡ 5 }
{
    match draw_set(alloc, seed, number) {
        Some(same) => seed_is_right(alloc, seed, clauses, same),
        None => false,
    }
}

/// Whether a solver of the clauses of a seed, of which there are at most so many, answers as trying all assignments does.
fn stays_right(alloc: Global, seed: u64, most: u32) -> bool {
    let number = Draws::new(seed).draw(most.saturating_add(1));
    match draw_set(alloc, seed, number) {
        Some(clauses) => {
            let right = clauses_are_right(alloc, seed, number, &clauses);
            drop(clauses);
            right
        }
        None => false,
    }
}

/// The first seed whose clauses are answered otherwise.
fn wrong_seed(alloc: Global, seeds: u64, most: u32) -> Option<u64> {
    for seed in 0..seeds {
        if !stays_right(alloc, seed, most) {
            return Some(seed);
        }
    }
    None
}

#[test]
fn small_sets_have_their_answers(rt: HostRuntime) {
    assert_eq!(rt; wrong_seed(rt.alloc(), 200, 6), None);
    assert_eq!(rt; wrong_seed(rt.alloc(), 200, 20), None);
    assert_eq!(rt; wrong_seed(rt.alloc(), 200, 80), None);
}
