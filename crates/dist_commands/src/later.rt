//! What `steps` tells of a later archive: the plan that leads to it, or the package that keeps it from being a future.
ghost use Rattle.std.specs.Prelude.{◌≡◌, IfOk};
ghost use Rattle.dist_repo.specs.Order.{IsFlat};
ghost use Rattle.dist_archive.specs.Refusals.{IsOfOtherArchitecture};
ghost use Rattle.dist_history.specs.PlanText.{misfit_text, plan_text};
ghost use Rattle.dist_commands.specs.LaterPrivate.{HasSome, IsLaterTold};

use crate::answer::Answer;
use crate::status::Status;
use dist_archive::{Plan, ReachError, futures_are_reached, has_other_architecture, reach};
use dist_history::{misfit_text, plan_text};
use dist_repo::{Package, Repository};
use dist_space::Space;
use std::alloc::{AllocError, Global};

/// Tells a plan.
fn tell_plan(alloc: Global, space: &Space, plan: &Plan) -> Result<Answer, AllocError>
    ensures status { IfOk result (λ answer. answer.status ≡ Status.Done) }
    ensures text { IfOk result (λ answer. answer.text.items ≡ plan_text space.now plan.now) }
{
    Ok(Answer {
        status: Status::Done,
        text: plan_text(alloc, space, plan)?,
    })
}

/// Tells a package that keeps a later archive from being a future.
fn tell_misfit(alloc: Global, misfit: &Package) -> Result<Answer, AllocError>
    ensures status { IfOk result (λ answer. answer.status ≡ Status.NotAFuture) }
    ensures text { IfOk result (λ answer. answer.text.items ≡ misfit_text misfit.now) }
{
    Ok(Answer {
        status: Status::NotAFuture,
        text: misfit_text(alloc, misfit)?,
    })
}

/// Tells the plan that leads to a later archive, or the first package that does not fit.
fn tell_reached(alloc: Global, space: &Space, later: &Repository) -> Result<Answer, AllocError>
    requires flat { IsFlat later.now.packages }
    requires same { ¬ IsOfOtherArchitecture space.now.repository later.now }
    ensures { IfOk result (λ answer. IsLaterTold space.now later.now answer.status answer.text.items) }
{
    space.keeps_invariant();
    futures_are_reached();
    match reach(alloc, space, later) {
        Ok(plan) => {
            let answer = tell_plan(alloc, space, &plan);
            drop(plan);
            answer
        }
        Err(ReachError::NotAFuture(number)) => tell_misfit(alloc, later.package(number)),
        Err(ReachError::NoMemory) => Err(AllocError),
    }
}

/// What is told of a later archive.
pub(crate) fn tell_later(
    alloc: Global,
    space: &Space,
    later: &Repository,
) -> Result<Answer, AllocError>
    requires flat { IsFlat later.now.packages }
    requires some { HasSome later.now }
    ensures { IfOk result (λ answer. IsLaterTold space.now later.now answer.status answer.text.items) }
{
    if has_other_architecture(space.repo(), later) {
        tell_misfit(alloc, later.package(0))
    } else {
        tell_reached(alloc, space, later)
    }
}
