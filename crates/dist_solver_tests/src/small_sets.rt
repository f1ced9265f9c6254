//! Clause sets of up to five variables, drawn by a plain generator of numbers, compared with trying all assignments.
ghost use Rattle.std.specs.Prelude.{◌≡◌, ◌≤◌, length, IfSome};
ghost use Rattle.dist_clause.specs.Formula.{IsClauseOver};

use crate::literals::add;
use crate::tested::{are_true, ask, expected};
use dist_clause::{Assignment, ClauseSet, Lit};
use dist_solver::Solver;
use std::alloc::Global;

/// Numbers that are drawn one after another, the same ones for each seed.
#[derive(Drop)]
pub(crate) struct Draws {
    state: u64,
}

impl Draws {
    pub(crate) fn new(seed: u64) -> Draws {
        Draws {
            state: seed.wrapping_mul(2).wrapping_add(1),
        }
    }

    /// A number below a bound, or 0.
    pub(crate) fn draw(&mut self, bound: u32) -> u32 {
        self.state = self
            .state
            .wrapping_mul(6364136223846793005)
            .wrapping_add(1442695040888963407);
        if bound == 0 {
            return 0;
        }
        (self.state >> 33) as u32 % bound
    }
}

/// A clause of at most so many literals.
pub(crate) fn draw_clause(alloc: Global, draws: &mut Draws, variables: u32, width: u32) -> Vec<Lit>
    requires { variables ≤ 1000 }
    ensures { IsClauseOver variables result.items }
{
    let mut clause = Vec::new(alloc);
    'literals: for _ in 0..width {
        let variable = draws.draw(variables).saturating_add(1);
        let _ = add(&mut clause, variables, variable, draws.draw(2) == 0);
    }
    clause
}

/// Above so many clauses all of them are wide, so that it takes lines to refute what they ask for.
const FEW: u32 = 20;

/// Adds a clause of at most three literals, or a wide one.
fn push_drawn(alloc: Global, draws: &mut Draws, set: &mut ClauseSet, wide: bool) -> bool
    requires { set.old.variables ≤ 1000 }
    ensures { set.new.variables ≡ set.old.variables }
{
    let width = if wide {
        5
    } else {
        draws.draw(3).saturating_add(1)
    };
    let clause = draw_clause(alloc, draws, set.variables(), width);
    let pushed = set.push(&clause).is_ok();
    drop(clause);
    pushed
}

/// Adds so many clauses.
fn push_all_drawn(alloc: Global, draws: &mut Draws, set: &mut ClauseSet, clauses: u32) -> bool
    requires { set.old.variables ≤ 1000 }
    ensures { set.new.variables ≡ set.old.variables }
{
    'clauses: for _ in 0..clauses {
        if !push_drawn(alloc, draws, set, clauses > FEW) {
            return false;
        }
    }
    true
}

/// So many clauses over five variables, as a seed draws them.
pub(crate) fn draw_set(alloc: Global, seed: u64, clauses: u32) -> Option<ClauseSet>
    ensures { IfSome result (λ s. s.variables ≡ 5) }
{
    let mut draws = Draws::new(seed);
    let mut set = ClauseSet::new(alloc, 5, 10000, 100000);
    if push_all_drawn(alloc, &mut draws, &mut set, clauses) {
        Some(set)
    } else {
        drop(set);
        None
    }
}

/// Whether one of the assignments of five variables is a model in which the literals are true.
fn finds_model(values: &mut Assignment, clauses: &ClauseSet, literals: &[Lit]) -> bool
    requires values { length values.old ≡ 5 }
    requires clauses { clauses.now.variables ≡ 5 }
    requires literals { IsClauseOver 5 literals.now }
{
    for bits in 0..32u32 {
        values.set(1, bits & 1 != 0);
        values.set(2, bits & 2 != 0);
        values.set(3, bits & 4 != 0);
        values.set(4, bits & 8 != 0);
        values.set(5, bits & 16 != 0);
        if values.holds(clauses) && are_true(values, literals) {
            return true;
        }
    }
    false
}

/// The same, where there is memory for an assignment.
pub(crate) fn is_possible(alloc: Global, clauses: &ClauseSet, literals: &[Lit]) -> Option<bool>
    requires clauses { clauses.now.variables ≡ 5 }
    requires literals { IsClauseOver 5 literals.now }
{
    match Assignment::new(alloc, 5) {
        Ok(mut values) => {
            let possible = finds_model(&mut values, clauses, literals);
            drop(values);
            Some(possible)
        }
        Err(_) => None,
    }
}

/// Whether a question, asked twice, is answered as by trying all assignments.
fn agrees_under(
    alloc: Global,
    clauses: &ClauseSet,
    solver: &mut Solver,
    assumptions: &[Lit],
) -> bool
    requires clauses { clauses.now.variables ≡ 5 }
    requires solver { solver.old.log.variables ≡ 5 }
    requires assumptions { IsClauseOver 5 assumptions.now }
    ensures { solver.new.log.variables ≡ 5 }
{
    let end = ask(alloc, clauses, solver, assumptions, 100);
    let again = ask(alloc, clauses, solver, assumptions, 1);
    match is_possible(alloc, clauses, assumptions) {
        Some(possible) => end == expected(possible) && again == end,
        None => false,
    }
}

/// The same of assumptions that are drawn.
pub(crate) fn agrees(
    alloc: Global,
    draws: &mut Draws,
    clauses: &ClauseSet,
    solver: &mut Solver,
) -> bool
    requires clauses { clauses.now.variables ≡ 5 }
    requires solver { solver.old.log.variables ≡ 5 }
    ensures { solver.new.log.variables ≡ 5 }
{
    let width = draws.draw(4);
    let assumptions = draw_clause(alloc, draws, 5, width);
    let agreed = agrees_under(alloc, clauses, solver, &assumptions);
    drop(assumptions);
    agreed
}

/// A solver of so many clauses of a seed.
pub(crate) fn drawn_solver(alloc: Global, seed: u64, clauses: u32) -> Option<Solver>
    ensures { IfSome result (λ solver. solver.log.variables ≡ 5) }
{
    match draw_set(alloc, seed, clauses) {
        Some(set) => Solver::new(alloc, set, 1000, 10000).ok(),
        None => None,
    }
}

/// Whether six questions to one solver are answered as by trying all assignments.
fn all_agree(alloc: Global, draws: &mut Draws, clauses: &ClauseSet, solver: &mut Solver) -> bool
    requires clauses { clauses.now.variables ≡ 5 }
    requires solver { solver.old.log.variables ≡ 5 }
{
    'questions: for _ in 0..6 {
        if !agrees(alloc, draws, clauses, solver) {
            return false;
        }
    }
    true
}

/// The same with a new solver of so many clauses of a seed, which are given.
fn solver_agrees(alloc: Global, seed: u64, number: u32, clauses: &ClauseSet) -> bool
    requires { clauses.now.variables ≡ 5 }
{
    match drawn_solver(alloc, seed, number) {
        Some(mut solver) => {
            let mut draws = Draws::new(seed.wrapping_add(1000));
            let agreed = all_agree(alloc, &mut draws, clauses, &mut solver)
                && solver.failed_guesses() == 0;
            drop(solver);
            agreed
        }
        None => false,
    }
}

/// The same over the clauses of a seed.
fn is_agreed(alloc: Global, seed: u64) -> bool {
    let number = Draws::new(seed).draw(21);
    match draw_set(alloc, seed, number) {
        Some(clauses) => {
            let agreed = solver_agrees(alloc, seed, number, &clauses);
            drop(clauses);
            agreed
        }
        None => false,
    }
}

/// The first seed over whose clauses a question is answered otherwise.
fn wrong_seed(alloc: Global, seeds: u64) -> Option<u64> {
    for seed in 0..seeds {
        if !is_agreed(alloc, seed) {
            return Some(seed);
        }
    }
    None
}

#[test]
fn small_sets_are_answered_as_by_trying_all(rt: HostRuntime) {
    assert_eq!(rt; wrong_seed(rt.alloc(), 500), None);
}
