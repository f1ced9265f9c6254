//! Clauses and models as the words of lines, and back.
ghost use Rattle.std.specs.Prelude.{◌≡◌, ◌≤◌, All, IfOk, length};
ghost use Rattle.dist_base.specs.declared.TheConstants.{MAX_VARIABLES};
ghost use Rattle.dist_cert.specs.Groups.{clause_of};
ghost use Rattle.dist_line_write.specs.Words.{true_variables, words_of};

use dist_base::MAX_VARIABLES;
use dist_clause::{Assignment, Lit};
use std::alloc::{AllocError, Global};

/// The clause of some words.
pub(crate) fn clause_of(alloc: Global, words: &[(u32, bool)]) -> Result<Vec<Lit>, AllocError>
    requires { All (λ l. (1 ≤ l.0) × (l.0 ≤ MAX_VARIABLES)) words.now }
    ensures { IfOk result (λ clause. clause.items ≡ clause_of words.now) }
{
    let mut clause = Vec::new(alloc);
    for word in words {
        clause.push(Lit::new(word.0, word.1))?;
    }
    Ok(clause)
}

/// The words of a clause.
pub(crate) fn words_of(alloc: Global, clause: &[Lit]) -> Result<Vec<(u32, bool)>, AllocError>
    ensures { IfOk result (λ words. words.items ≡ words_of clause.now) }
{
    let mut words = Vec::new(alloc);
    for literal in clause {
        words.push((literal.variable(), literal.positive()))?;
    }
    Ok(words)
}

/// The true variables of a model of so many variables.
pub fn true_variables(
    alloc: Global,
    values: &Assignment,
    variables: u32,
) -> Result<Vec<u32>, AllocError>
    requires { length values.now ≡ variables }
    ensures { IfOk result (λ members. members.items ≡ true_variables values.now) }
{
    let mut members = Vec::new(alloc);
    let mut last = 0;
    'members: while last < variables {
        match values.next_true(last + 1) {
            Some(variable) => {
                members.push(variable)?;
                last = variable;
            }
            None => last = variables,
        }
    }
    Ok(members)
}
