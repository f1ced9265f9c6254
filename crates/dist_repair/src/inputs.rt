//! What files are judged by, and whether the numbers of a first line are right.
ghost use Rattle.std.specs.Prelude.{◌≡◌, ◌↔◌, ◌≤◌, IfErr, IfOk, IsTrue};
ghost use Rattle.dist_base.specs.Answers.{IsExactly};
ghost use Rattle.dist_judge.specs.Causes.{IsLarge};
ghost use Rattle.dist_outside.specs.declared.trouble.What.{What};
ghost use Rattle.dist_outside.specs.declared.trouble.WorkError.TheVariants.{NoMemory, TooLarge};
ghost use Rattle.dist_subject.specs.Limited.{AreStated};
ghost use Rattle.dist_repair.specs.InputsPrivate.{AreInputsWithin, inputs_of};
ghost use Rattle.dist_repair.specs.RepairFiles.{Fits, PassesWith, most_of};
ghost use Rattle.dist_base.specs.declared.TheConstants.{MAX_MOST};

use crate::counted::with_counter;
use crate::counter::Counter;
use dist_base::MAX_MOST;
use dist_clause::ClauseSet;
use dist_findings::number_at;
use dist_outside::{Limits, What, WorkError};
use dist_space::Space;
use dist_space_clauses::{
    clauses_of, space_clauses_are_one, space_clauses_are_there, space_clauses_go_on,
};
use dist_subject::too_large;
use std::alloc::Global;

/// The clauses of a space with a counter up to a most behind them, within the limits.
pub(crate) fn counted_inputs(
    alloc: Global,
    space: &Space,
    most: u32,
    limits: &Limits,
) -> Result<ClauseSet, WorkError>
    requires most { most ≤ MAX_MOST }
    requires limits { AreStated limits.now }
    ensures ok { IfOk result (AreInputsWithin limits.now space.now most) }
    ensures err { IfErr result (IsLarge (PassesWith space.now most limits.now)) }
{
    space.keeps_invariant();
    space_clauses_are_there();
    space_clauses_go_on();
    if Counter::of(space, most).variables() > u64::from(limits.variables) {
        return Err(WorkError::TooLarge(What::Variables));
    }
    match clauses_of(alloc, space, limits.clauses, limits.literals) {
        Ok(clauses) => with_counter(alloc, space, &clauses, most, limits),
        Err(error) => Err(too_large(error)),
    }
}

/// The same, where a number is told exactly if it is the one that is passed first, but for want of memory.
pub fn repair_inputs(
    alloc: Global,
    space: &Space,
    most: u32,
    limits: &Limits,
) -> Result<ClauseSet, WorkError>
    requires most { most ≤ MAX_MOST }
    requires limits { AreStated limits.now }
    ensures ok { IfOk result (AreInputsWithin limits.now space.now most) }
    ensures err { IfErr result (IsLarge (PassesWith space.now most limits.now)) }
    ensures exact { (what : What) → IsExactly NoMemory result (TooLarge what) (PassesWith space.now most limits.now what) }
{
    // What this call tells is that a space has one list of clauses.
    space_clauses_are_one();
    counted_inputs(alloc, space, most, limits)
}

/// Whether the numbers of a first line are right, where files with them are judged by these clauses.
pub(crate) fn fits(space: &Space, inputs: &ClauseSet, numbers: &[u32]) -> bool
    requires { most_of numbers.now ≤ MAX_MOST }
    ensures { IsTrue result ↔ Fits space.now (inputs_of inputs.now) numbers.now }
{
    let package = number_at(numbers, 4);
    number_at(numbers, 1) == space.package_count()
        && number_at(numbers, 2) == inputs.variables()
        && number_at(numbers, 3) == inputs.len()
        && 1 <= package
        && package <= space.package_count()
}
