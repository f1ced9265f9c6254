//! The clauses of the present, each with its selector.
ghost use Rattle.std.specs.Prelude.{◌≡◌, ◌+◌, ◌++◌, ◌<◌, ◌≤◌, ◌∷◌, [], IfErr, IfOk, OnOk, false, length};
ghost use Rattle.dist_base.specs.Answers.{IsExactly};
ghost use Rattle.dist_base.specs.declared.TheConstants.{MAX_LITERALS, MAX_VARIABLES};
ghost use Rattle.dist_clause.specs.Formula.{literal};
ghost use Rattle.dist_judge.specs.Causes.{IsLarge};
ghost use Rattle.dist_outside.specs.declared.trouble.What.{What};
ghost use Rattle.dist_outside.specs.declared.trouble.WorkError.TheVariants.{NoMemory, TooLarge};
ghost use Rattle.dist_explain.specs.SelectedPrivate.{IsFront, IsFullAt};
ghost use Rattle.dist_explain.specs.Selectors.{IsSelectedSet, PassesSelected};

use dist_clause::{ClauseSet, Lit, PushError};
use dist_outside::{Limits, What, WorkError};
use dist_subject::too_large;
use std::alloc::{AllocError, Global};

/// Writes a clause with the negation of its selector at its end.
fn write_selected(clause: &mut Vec<Lit>, literals: &[Lit], selector: u32) -> Result<(), AllocError>
    requires from_one { 1 ≤ selector }
    requires in_range { selector ≤ MAX_VARIABLES }
    ensures { OnOk result (clause.new.items ≡ literals.now ++ literal selector false ∷ []) }
{
    clause.clear();
    clause.extend_from_slice(literals)?;
    clause.push(Lit::new(selector, false))?;
    Ok(())
}

/// Adds the clause at a place, from 0, with its selector.
fn push_selected(
    clauses: &ClauseSet,
    place: u32,
    clause: &mut Vec<Lit>,
    set: &mut ClauseSet,
) -> Result<(), PushError>
    requires place { place < length clauses.now.clauses }
    requires front { IsFront clauses.now place set.old }
    ensures ok { OnOk result (IsFront clauses.now (place + 1) set.new) }
    ensures limit { OnOk result (set.new.literal_limit ≡ set.old.literal_limit) }
    ensures err { IfErr result (IsFullAt clauses.now set.old.literal_limit) }
{
    set.keeps_invariant();
    let selector = clauses.variables() + place + 1;
    if let Err(AllocError) = write_selected(clause, clauses.clause(place + 1), selector) {
        return Err(PushError::NoMemory);
    }
    set.push(clause)
}

/// Adds all clauses with their selectors.
fn push_all_selected(
    alloc: Global,
    clauses: &ClauseSet,
    set: &mut ClauseSet,
) -> Result<(), PushError>
    requires front { IsFront clauses.now 0 set.old }
    ensures ok { OnOk result (IsFront clauses.now (length clauses.now.clauses) set.new) }
    ensures limit { OnOk result (set.new.literal_limit ≡ set.old.literal_limit) }
    ensures err { IfErr result (IsFullAt clauses.now set.old.literal_limit) }
{
    let mut clause = Vec::new(alloc);
    for place in 0..clauses.len() {
        push_selected(clauses, place, &mut clause, set)?;
    }
    Ok(())
}

/// Clauses, each with its negated selector at its end. The selectors are the variables behind those of the clauses, in the same
/// order.
pub fn with_selectors(
    alloc: Global,
    clauses: &ClauseSet,
    limits: &Limits,
) -> Result<ClauseSet, WorkError>
    requires variables { limits.now.variables ≤ MAX_VARIABLES }
    requires literals { limits.now.literals ≤ MAX_LITERALS }
    ensures ok { IfOk result (IsSelectedSet limits.now clauses.now) }
    ensures exact { (what : What) → IsExactly NoMemory result (TooLarge what) (PassesSelected limits.now clauses.now what) }
    ensures cause { IfErr result (IsLarge (PassesSelected limits.now clauses.now)) }
{
    let count = clauses.len();
    let variables = clauses.variables() + count;
    if variables > limits.variables {
        return Err(WorkError::TooLarge(What::Variables));
    }
    let mut set = ClauseSet::new(alloc, variables, count, limits.literals);
    match push_all_selected(alloc, clauses, &mut set) {
        Ok(()) => {
            set.keeps_invariant();
            Ok(set)
        }
        Err(error) => {
            drop(set);
            Err(too_large(error))
        }
    }
}
