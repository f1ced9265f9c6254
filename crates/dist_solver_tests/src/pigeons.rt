//! Pigeons in holes: one pigeon more than there are holes cannot each have a hole of its own.
ghost use Rattle.std.specs.Prelude.{◌≡◌, ◌≤◌, IfSome};
ghost use Rattle.dist_clause.specs.Formula.{IsClauseOver};

use crate::literals::add;
use crate::tested::{End, ask};
use dist_clause::{ClauseSet, Lit};
use dist_solver::Solver;
use std::alloc::Global;

/// The variable of a pigeon in a hole, of so many holes.
fn place(holes: u32, pigeon: u32, hole: u32) -> u32 {
    pigeon
        .saturating_mul(holes)
        .saturating_add(hole)
        .saturating_add(1)
}

/// Puts the places of a pigeon behind the others, one for each hole.
fn add_places(clause: &mut Vec<Lit>, variables: u32, holes: u32, pigeon: u32) -> bool
    requires few { variables ≤ 1000 }
    requires clause { IsClauseOver variables clause.old.items }
    ensures { IsClauseOver variables clause.new.items }
{
    for hole in 0..holes {
        if !add(clause, variables, place(holes, pigeon, hole), true) {
            return false;
        }
    }
    true
}

/// Adds that a pigeon is in a hole.
fn has_a_hole(alloc: Global, set: &mut ClauseSet, holes: u32, pigeon: u32) -> bool
    requires { set.old.variables ≤ 1000 }
    ensures { set.new.variables ≡ set.old.variables }
{
    let mut clause: Vec<Lit> = Vec::new(alloc);
    let added = add_places(&mut clause, set.variables(), holes, pigeon)
        && set.push(&clause).is_ok();
    drop(clause);
    added
}

/// Adds that two places are not both taken.
fn are_apart(alloc: Global, set: &mut ClauseSet, one: u32, other: u32) -> bool
    requires { set.old.variables ≤ 1000 }
    ensures { set.new.variables ≡ set.old.variables }
{
    let mut clause: Vec<Lit> = Vec::new(alloc);
    let variables = set.variables();
    let added = add(&mut clause, variables, one, false)
        && add(&mut clause, variables, other, false)
        && set.push(&clause).is_ok();
    drop(clause);
    added
}

/// Adds that a pigeon has no hole together with one of those before it.
fn is_apart(alloc: Global, set: &mut ClauseSet, holes: u32, pigeon: u32) -> bool
    requires { set.old.variables ≤ 1000 }
    ensures { set.new.variables ≡ set.old.variables }
{
    for pair in 0..pigeon.saturating_mul(holes) {
        if holes == 0 {
            return false;
        }
        let hole = pair % holes;
        let one = place(holes, pair / holes, hole);
        if !are_apart(alloc, set, one, place(holes, pigeon, hole)) {
            return false;
        }
    }
    true
}

/// Adds the clauses of so many pigeons and holes.
fn add_crowd(alloc: Global, set: &mut ClauseSet, pigeons: u32, holes: u32) -> bool
    requires { set.old.variables ≤ 1000 }
    ensures { set.new.variables ≡ set.old.variables }
{
    for pigeon in 0..pigeons {
        if !has_a_hole(alloc, set, holes, pigeon) || !is_apart(alloc, set, holes, pigeon) {
            return false;
        }
    }
    true
}

/// The clauses over so many variables of so many pigeons, with one hole less.
fn crowd(alloc: Global, variables: u32, pigeons: u32) -> Option<ClauseSet>
    requires { variables ≤ 1000 }
    ensures { IfSome result (λ s. s.variables ≡ variables) }
{
    let mut set = ClauseSet::new(alloc, variables, 10000, 100000);
    if add_crowd(alloc, &mut set, pigeons, pigeons.saturating_sub(1)) {
        Some(set)
    } else {
        drop(set);
        None
    }
}

/// What the question comes to of a solver, whose clauses are given.
fn clauses_end(alloc: Global, clauses: &ClauseSet, set: ClauseSet) -> End
    requires clauses { clauses.now.variables ≡ 100 }
    requires set { set.variables ≡ 100 }
{
    match Solver::new(alloc, set, 10000, 1000000) {
        Ok(mut solver) => {
            let end = ask(alloc, clauses, &mut solver, &[], 10000);
            drop(solver);
            end
        }
        Err(_) => End::Wrong,
    }
}

/// The same of the clauses of so many pigeons, which are given.
fn pigeons_end(alloc: Global, clauses: &ClauseSet, pigeons: u32) -> End
    requires { clauses.now.variables ≡ 100 }
{
    match crowd(alloc, 100, pigeons) {
        Some(set) => clauses_end(alloc, clauses, set),
        None => End::Wrong,
    }
}

/// What the question comes to whether so many pigeons have each a hole of its own.
fn crowd_ends(alloc: Global, pigeons: u32) -> End {
    match crowd(alloc, 100, pigeons) {
        Some(clauses) => {
            let end = pigeons_end(alloc, &clauses, pigeons);
            drop(clauses);
            end
        }
        None => End::Wrong,
    }
}

/// How many pigeons of one to six are not refuted.
fn wrong_crowd(alloc: Global) -> Option<u32> {
    for pigeons in 1..7u32 {
        if crowd_ends(alloc, pigeons) != End::Refuted {
            return Some(pigeons);
        }
    }
    None
}

#[test]
fn pigeons_have_no_hole_each(rt: HostRuntime) {
    assert_eq!(rt; wrong_crowd(rt.alloc()), None);
}
