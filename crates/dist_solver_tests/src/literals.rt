//! Clauses of literals that are not known to be of variables in range, each once.
ghost use Rattle.std.specs.Prelude.{◌≢◌, ◌≤◌, All, IfSome, IsTrue};
ghost use Rattle.dist_clause.specs.Formula.{IsClauseOver};

use dist_clause::Lit;
use std::alloc::Global;

/// Puts literals behind the others, as they are or each negated; answers whether all are of variables in range, each once.
fn add_all(clause: &mut Vec<Lit>, variables: u32, literals: &[Lit], negated: bool) -> bool
    requires few { variables ≤ 1000 }
    requires clause { IsClauseOver variables clause.old.items }
    ensures { IsClauseOver variables clause.new.items }
{
    for literal in literals {
        let positive = literal.positive() != negated;
        if !add(clause, variables, literal.variable(), positive) {
            return false;
        }
    }
    true
}

/// The clause of some literals over so many variables, as they are or each negated; nothing, if they are none.
pub(crate) fn clause_of(
    alloc: Global,
    variables: u32,
    literals: &[Lit],
    negated: bool,
) -> Option<Vec<Lit>>
    requires { variables ≤ 1000 }
    ensures { IfSome result (λ c. IsClauseOver variables c.items) }
{
    let mut clause = Vec::new(alloc);
    if add_all(&mut clause, variables, literals, negated) {
        Some(clause)
    } else {
        drop(clause);
        None
    }
}

/// Puts a literal of a variable that is not there yet behind the others, and says whether it did.
pub(crate) fn add(clause: &mut Vec<Lit>, variables: u32, variable: u32, positive: bool) -> bool
    requires few { variables ≤ 1000 }
    requires clause { IsClauseOver variables clause.old.items }
    ensures { IsClauseOver variables clause.new.items }
{
    variable >= 1
        && variable <= variables
        && is_fresh(clause, variable)
        && clause.push(Lit::new(variable, positive)).is_ok()
}

/// Whether no literal of the clause has the variable.
fn is_fresh(clause: &[Lit], variable: u32) -> bool
    ensures { IsTrue result → All (λ l. l.variable ≢ variable) clause.now }
{
    for literal in clause {
        if literal.variable() == variable {
            return false;
        }
    }
    true
}
