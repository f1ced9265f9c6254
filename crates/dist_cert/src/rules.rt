//! The rules of a line on its own.
ghost use Rattle.std.specs.Prelude.{◌≡◌, ◌<◌, ◌↔◌, map, AllPairs, IsTrue, IfOk, OnOk};
ghost use Rattle.dist_cert.specs.Form.{AreFromOne, AreLiterals, ArePairs, KeepsRules};

use crate::records::CertRecord;
use std::alloc::AllocError;

/// Whether all numbers are from 1.
fn are_from_one(numbers: &[u32]) -> bool
    ensures { IsTrue result ↔ AreFromOne numbers.now }
{
    numbers.iter().all(|number| *number >= 1)
}

/// Whether the numbers of all pairs are from 1.
fn are_pairs(pairs: &[(u32, u32)]) -> bool
    ensures { IsTrue result ↔ ArePairs pairs.now }
{
    pairs.iter().all(|pair| pair.0 >= 1 && pair.1 >= 1)
}

/// Whether each number is below all later ones.
fn rise(numbers: &[u32]) -> bool
    ensures { IsTrue result ↔ AllPairs (λ v w. v < w) numbers.now }
{
    for i in 1..numbers.len() {
        if numbers[i - 1] >= numbers[i] {
            return false;
        }
    }
    true
}

/// Puts the variables of literals in place of other numbers.
fn put_variables(variables: &mut Vec<u32>, literals: &[(u32, bool)]) -> Result<(), AllocError>
    ensures { OnOk result (variables.new.items ≡ map (λ l. l.0) literals.now) }
{
    variables.clear();
    for literal in literals {
        variables.push(literal.0)?;
    }
    Ok(())
}

/// Whether the variables are from 1, and none stands twice.
fn are_literals(literals: &[(u32, bool)], variables: &mut Vec<u32>) -> Result<bool, AllocError>
    ensures { IfOk result (λ are. IsTrue are ↔ AreLiterals literals.now) }
{
    put_variables(variables, literals)?;
    let from_one = are_from_one(variables);
    variables.sort_unstable();
    let distinct = rise(variables);
    Ok(from_one && distinct)
}

/// Whether a record keeps the rules. The numbers are for its variables in order.
pub(crate) fn keeps_rules(step: &CertRecord, variables: &mut Vec<u32>) -> Result<bool, AllocError>
    ensures { IfOk result (λ kept. IsTrue kept ↔ KeepsRules step.now) }
{
    match step {
        CertRecord::Question(literals) => {
            let are = are_literals(literals.as_slice(), variables)?;
            Ok(are && literals.len() > 0)
        }
        CertRecord::Derived(literals, hints) => {
            let are = are_literals(literals.as_slice(), variables)?;
            Ok(are && are_from_one(hints.as_slice()))
        }
        CertRecord::Refuted(hints) => Ok(are_from_one(hints.as_slice())),
        CertRecord::Installation(variables) => {
            Ok(are_from_one(variables.as_slice()) && rise(variables.as_slice()))
        }
        CertRecord::NotInstallable(package)
        | CertRecord::Unknown(package)
        | CertRecord::Outdated(package) => Ok(*package >= 1),
        CertRecord::Strong(package, installations, on, undecided) => Ok(
            *package >= 1
                && installations.len() > 0
                && are_from_one(installations.as_slice())
                && are_from_one(on.as_slice())
                && are_from_one(undecided.as_slice()),
        ),
        CertRecord::Alive(package, installation) => Ok(*package >= 1 && *installation >= 1),
        CertRecord::Challenged(package, installations, by, undecided) => Ok(
            *package >= 1
                && installations.len() > 0
                && are_from_one(installations.as_slice())
                && are_pairs(by.as_slice())
                && are_pairs(undecided.as_slice()),
        ),
        CertRecord::Undecided | CertRecord::End => Ok(true),
    }
}
