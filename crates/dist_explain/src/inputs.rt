//! What the files of explanations are judged by.
ghost use Rattle.std.specs.Prelude.{IfErr, IfOk};
ghost use Rattle.dist_base.specs.Answers.{IsExactly};
ghost use Rattle.dist_judge.specs.Causes.{IsLarge};
ghost use Rattle.dist_outside.specs.declared.trouble.What.{What};
ghost use Rattle.dist_outside.specs.declared.trouble.WorkError.TheVariants.{NoMemory, TooLarge};
ghost use Rattle.dist_repo.specs.Size.{IsWithinSize};
ghost use Rattle.dist_subject.specs.Limited.{AreStated};
ghost use Rattle.dist_explain.specs.ExplanationFiles.{AreSelectedInputs, PassesFirst};

use crate::selected::with_selectors;
use dist_clause::ClauseSet;
use dist_now::present_clauses_are_one;
use dist_outside::{Limits, WorkError};
use dist_repo::Repository;
use dist_subject::{first_numbers_are_one, present_inputs};
use std::alloc::Global;

/// The clauses of the present at mode plain, each with its selector.
pub fn selected_inputs(
    alloc: Global,
    repo: &Repository,
    limits: &Limits,
) -> Result<ClauseSet, WorkError>
    requires size { IsWithinSize repo.now }
    requires limits { AreStated limits.now }
    ensures ok { IfOk result (AreSelectedInputs repo.now limits.now) }
    ensures exact { (what : What) → IsExactly NoMemory result (TooLarge what) (PassesFirst repo.now limits.now what) }
    ensures cause { IfErr result (IsLarge (PassesFirst repo.now limits.now)) }
{
    present_clauses_are_one();
    first_numbers_are_one();
    let plain = present_inputs(alloc, repo, false, limits)?;
    with_selectors(alloc, &plain, limits)
}
