//! Clauses of a few numbers, alone and in a set.
ghost use Rattle.std.specs.Prelude.{◌≡◌, ◌≢◌, ◌≤◌, All, IfSome, IsTrue};
ghost use Rattle.dist_clause.specs.Formula.{IsClauseOver};

use dist_clause::{ClauseSet, Lit, PushError};
use std::alloc::Global;

/// The clause of some numbers over so many variables, a negative number for a negated variable, as in the DIMACS format. A 0 is
/// passed over.
pub fn clause(alloc: Global, variables: u32, numbers: &[i32]) -> Option<Vec<Lit>>
    requires { variables ≤ 100 }
    ensures { IfSome result (λ c. IsClauseOver variables c.items) }
{
    let mut literals = Vec::new(alloc);
    for number in numbers {
        if *number != 0 && !add(&mut literals, variables, number.unsigned_abs(), *number > 0) {
            return None;
        }
    }
    Some(literals)
}

/// Puts a literal of a variable that is not there yet behind the others, and says whether it did.
pub fn add(clause: &mut Vec<Lit>, variables: u32, variable: u32, positive: bool) -> bool
    requires few { variables ≤ 100 }
    requires clause { IsClauseOver variables clause.old.items }
    ensures { IsClauseOver variables clause.new.items }
{
    variable >= 1
        && variable <= variables
        && is_fresh(clause, variable)
        && clause.push(Lit::new(variable, positive)).is_ok()
}

/// Whether no literal of the clause has the variable.
fn is_fresh(clause: &[Lit], variable: u32) -> bool
    ensures { IsTrue result → All (λ l. l.variable ≢ variable) clause.now }
{
    for literal in clause {
        if literal.variable() == variable {
            return false;
        }
    }
    true
}

/// Pushes the clause of some numbers, and says what is answered.
pub fn push(alloc: Global, set: &mut ClauseSet, numbers: &[i32]) -> Option<Result<(), PushError>>
    requires { set.old.variables ≤ 100 }
    ensures { set.new.variables ≡ set.old.variables }
{
    let clause = clause(alloc, set.variables(), numbers)?;
    Some(set.push(&clause))
}

/// Pushes the clauses of some numbers, and says whether all are taken.
pub fn push_all(alloc: Global, set: &mut ClauseSet, clauses: &[&[i32]]) -> bool
    requires { set.old.variables ≤ 100 }
    ensures { set.new.variables ≡ set.old.variables }
{
    for numbers in clauses {
        if push(alloc, set, numbers) != Some(Ok(())) {
            return false;
        }
    }
    true
}

/// Whether a literal has this number.
fn is_literal(literal: Lit, number: i32) -> bool {
    literal.variable() == number.unsigned_abs() && literal.positive() == (number > 0)
}

/// Whether a clause has exactly these literals.
fn is_clause(clause: &[Lit], numbers: &[i32]) -> bool {
    if clause.len() != numbers.len() {
        return false;
    }
    for place in 0..clause.len() {
        if !is_literal(clause[place], numbers[place]) {
            return false;
        }
    }
    true
}

/// Whether the set has exactly these clauses.
pub fn has(set: &ClauseSet, clauses: &[&[i32]]) -> bool {
    if set.len() as usize != clauses.len() {
        return false;
    }
    for number in 1..=set.len() {
        if !is_clause(set.clause(number), clauses[number as usize - 1]) {
            return false;
        }
    }
    true
}

/// The most clauses and literals, and why they are too few, if they are.
pub type ClauseLimits = (u32, u32, Option<PushError>);
