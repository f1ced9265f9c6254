//! Which relations hints rest on.
ghost use Rattle.std.specs.Prelude.{◌≡◌, IfOk, List, filter, ℕ};
ghost use Rattle.dist_cert.specs.Rising.{AreRising, is_among};

use dist_check_group::has;
use dist_explain::put_in_order;
use dist_line_write::Asker;
use std::alloc::{AllocError, Global};

/// Adds the relations whose selectors, behind the packages, stand in the clause of a number.
fn add_named(
    inquirer: &Asker,
    packages: u32,
    number: u32,
    named: &mut Vec<u32>,
) -> Result<(), AllocError> {
    if let Some(clause) = inquirer.clause(number) {
        for literal in clause {
            if literal.variable() > packages {
                named.push(literal.variable() - packages)?;
            }
        }
    }
    Ok(())
}

/// The relations that hinted clauses name. A derived clause has the selectors of all that it rests on. That is a guess: what is
/// written is tested first.
fn named_by(
    alloc: Global,
    inquirer: &Asker,
    packages: u32,
    hints: &[u32],
) -> Result<Vec<u32>, AllocError>
    ensures { IfOk result (λ named. AreRising named.items) }
{
    let mut named = Vec::new(alloc);
    for hint in hints {
        add_named(inquirer, packages, *hint, &mut named)?;
    }
    put_in_order(&mut named);
    Ok(named)
}

/// Those of some numbers that are among others.
fn among(alloc: Global, numbers: &[u32], others: &[u32]) -> Result<Vec<u32>, AllocError>
    requires { AreRising others.now }
    ensures { IfOk result (λ both. both.items ≡ filter (is_among others.now) numbers.now) }
{
    let mut both = Vec::new(alloc);
    for number in numbers {
        if has(others, *number) {
            both.push(*number)?;
        }
    }
    Ok(both)
}

/// Those of some relations that hinted clauses name.
pub(crate) fn core_of(
    alloc: Global,
    inquirer: &Asker,
    packages: u32,
    numbers: &[u32],
    hints: &[u32],
) -> Result<Vec<u32>, AllocError>
    ensures { IfOk result (λ core. (named : List ℕ) × (core.items ≡ filter (is_among named) numbers.now)) }
{
    let named = named_by(alloc, inquirer, packages, hints)?;
    among(alloc, numbers, &named)
}
