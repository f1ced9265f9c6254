//! Questions that one solver is asked again: each at once for every line, and all in another order. They are hard enough for
//! many lines, and each line, answer and guess is tested. In each eighth set one variable is a hub of the quick phase.
ghost use Rattle.std.specs.Prelude.{◌≡◌, IfSome};
ghost use Rattle.dist_clause.specs.Formula.{IsClauseOver};

use crate::literals::add;
use crate::small_sets::{Draws, draw_clause};
use crate::tested::{End, ask};
use dist_clause::{ClauseSet, Lit};
use dist_solver::Solver;
use std::alloc::Global;

/// How many variables the clauses have, and how many of them there are: about half of such sets have a model.
const VARIABLES: u32 = 20;

const CLAUSES: u32 = 90;

/// The first variable is dear to look at, where it stands negated in so many clauses of up to so many literals. All from one on
/// need it, most of them through one or two of these.
const WIDE_CLAUSES: u32 = 100;

const WIDTH: u32 = 20;

const FIRST_NEEDING: u32 = 12;

/// How many questions a solver is asked, and the steps from one to the next in each round.
const QUESTIONS: u32 = 7;

const STEPS: &[u32] = &[1, 3];

/// Adds a clause of at most three literals.
fn push_drawn(alloc: Global, draws: &mut Draws, set: &mut ClauseSet) -> bool
    requires { set.old.variables ≡ VARIABLES }
    ensures { set.new.variables ≡ set.old.variables }
{
    let clause = draw_clause(alloc, draws, VARIABLES, 3);
    let pushed = set.push(&clause).is_ok();
    drop(clause);
    pushed
}

/// Adds a clause of many literals, the first one of which is negated.
fn push_wide(alloc: Global, draws: &mut Draws, set: &mut ClauseSet) -> bool
    requires { set.old.variables ≡ VARIABLES }
    ensures { set.new.variables ≡ set.old.variables }
{
    let mut clause = Vec::new(alloc);
    let _ = add(&mut clause, VARIABLES, 1, false);
    'literals: for _ in 0..WIDTH {
        let variable = draws.draw(VARIABLES).saturating_add(1);
        let _ = add(&mut clause, VARIABLES, variable, draws.draw(2) == 0);
    }
    let pushed = set.push(&clause).is_ok();
    drop(clause);
    pushed
}

/// Adds that a variable needs another one.
fn push_need(alloc: Global, variable: u32, other: u32, set: &mut ClauseSet) -> bool
    requires { set.old.variables ≡ VARIABLES }
    ensures { set.new.variables ≡ set.old.variables }
{
    let mut clause = Vec::new(alloc);
    let _ = add(&mut clause, VARIABLES, variable, false);
    let _ = add(&mut clause, VARIABLES, other, true);
    let pushed = set.push(&clause).is_ok();
    drop(clause);
    pushed
}

/// Makes the first variable a hub.
fn push_hub(alloc: Global, draws: &mut Draws, set: &mut ClauseSet) -> bool
    requires { set.old.variables ≡ VARIABLES }
    ensures { set.new.variables ≡ set.old.variables }
{
    let mut pushed = true;
    'clauses: for _ in 0..WIDE_CLAUSES {
        pushed &= push_wide(alloc, draws, set);
    }
    'needs: for variable in FIRST_NEEDING..VARIABLES {
        let other = if variable % 3 == 0 { 1 } else { variable };
        pushed &= push_need(alloc, variable + 1, other, set);
    }
    pushed
}

/// Adds the clauses of a seed.
fn push_all(alloc: Global, seed: u64, set: &mut ClauseSet) -> bool
    requires { set.old.variables ≡ VARIABLES }
    ensures { set.new.variables ≡ set.old.variables }
{
    let mut draws = Draws::new(seed);
    let mut pushed = true;
    'clauses: for _ in 0..CLAUSES {
        pushed &= push_drawn(alloc, &mut draws, set);
    }
    pushed && (seed % 8 != 0 || push_hub(alloc, &mut draws, set))
}

/// The clauses of a seed.
fn draw_set(alloc: Global, seed: u64) -> Option<ClauseSet>
    ensures { IfSome result (λ s. s.variables ≡ VARIABLES) }
{
    let mut set = ClauseSet::new(alloc, VARIABLES, 10000, 100000);
    if push_all(alloc, seed, &mut set) {
        Some(set)
    } else {
        drop(set);
        None
    }
}

/// Asks a question again and again for one line more; answers whether it comes to a right answer. No line comes twice, nor more
/// of them than 3 to the power of the cone's size, since each is new.
fn is_right(alloc: Global, clauses: &ClauseSet, solver: &mut Solver, assumptions: &[Lit]) -> bool
    requires clauses { clauses.now.variables ≡ VARIABLES }
    requires solver { solver.old.log.variables ≡ VARIABLES }
    requires assumptions { IsClauseOver VARIABLES assumptions.now }
    ensures { solver.new.log.variables ≡ VARIABLES }
{
    'lines: for _ in 0..10000 {
        match ask(alloc, clauses, solver, assumptions, 1) {
            End::Undecided => {}
            End::Wrong => return false,
            End::Found | End::Refuted => return true,
        }
    }
    false
}

/// The same of the question of a number.
fn number_is_right(
    alloc: Global,
    seed: u64,
    number: u32,
    clauses: &ClauseSet,
    solver: &mut Solver,
) -> bool
    requires clauses { clauses.now.variables ≡ VARIABLES }
    requires solver { solver.old.log.variables ≡ VARIABLES }
    ensures { solver.new.log.variables ≡ VARIABLES }
{
    let mut draws = Draws::new(seed.wrapping_mul(100).wrapping_add(u64::from(number)));
    let width = draws.draw(3);
    let assumptions = draw_clause(alloc, &mut draws, VARIABLES, width);
    let right = is_right(alloc, clauses, solver, &assumptions);
    drop(assumptions);
    right
}

/// The same of all questions, in steps.
fn steps_are_right(
    alloc: Global,
    seed: u64,
    step: u32,
    clauses: &ClauseSet,
    solver: &mut Solver,
) -> bool
    requires clauses { clauses.now.variables ≡ VARIABLES }
    requires solver { solver.old.log.variables ≡ VARIABLES }
    ensures { solver.new.log.variables ≡ VARIABLES }
{
    let mut right = true;
    'questions: for place in 0..QUESTIONS {
        let number = place.wrapping_mul(step) % QUESTIONS;
        right &= number_is_right(alloc, seed, number, clauses, solver);
    }
    right
}

/// The same of all questions in each order.
fn all_are_right(alloc: Global, seed: u64, clauses: &ClauseSet, solver: &mut Solver) -> bool
    requires clauses { clauses.now.variables ≡ VARIABLES }
    requires solver { solver.old.log.variables ≡ VARIABLES }
{
    let mut right = true;
    'rounds: for step in STEPS {
        right &= steps_are_right(alloc, seed, *step, clauses, solver);
    }
    right
}

/// The same with a new solver; no guess fails its test.
fn solver_is_right(alloc: Global, seed: u64, clauses: &ClauseSet, set: ClauseSet) -> bool
    requires clauses { clauses.now.variables ≡ VARIABLES }
    requires set { set.variables ≡ VARIABLES }
{
    match Solver::new(alloc, set, 10000, 100000) {
        Ok(mut solver) => {
            let right = all_are_right(alloc, seed, clauses, &mut solver)
                && solver.failed_guesses() == 0;
            drop(solver);
            right
        }
        Err(_) => false,
    }
}

/// The same of the clauses of a seed, which are given.
fn clauses_are_right(alloc: Global, seed: u64, clauses: &ClauseSet) -> bool
    requires { clauses.now.variables ≡ VARIABLES }
{
    match draw_set(alloc, seed) {
        Some(set) => solver_is_right(alloc, seed, clauses, set),
        None => false,
    }
}

/// The same of the clauses of a seed.
fn seed_is_right(alloc: Global, seed: u64) -> bool {
    match draw_set(alloc, seed) {
        Some(clauses) => {
            let right = clauses_are_right(alloc, seed, &clauses);
            drop(clauses);
            right
        }
        None => false,
    }
}

/// The first seed at which an answer, a line or a guess is wrong.
fn wrong_seed(alloc: Global, seeds: u64) -> Option<u64> {
    for seed in 0..seeds {
        if !seed_is_right(alloc, seed) {
            return Some(seed);
        }
    }
    None
}

#[test]
fn questions_that_come_again_are_answered(rt: HostRuntime) {
    assert_eq!(rt; wrong_seed(rt.alloc(), 150), None);
}
