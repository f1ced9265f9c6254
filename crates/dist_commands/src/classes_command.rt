//! `classes PACKAGES`, stage by stage.
ghost use Rattle.std.specs.Prelude.{IfOk, IfErr, Option};
ghost use Rattle.dist_outside.specs.Files.{Files, IsNotWriting};
ghost use Rattle.dist_outside.specs.DeskView.{OnlyReads};
ghost use Rattle.dist_repo.specs.Size.{IsWithinSize};
ghost use Rattle.dist_commands.specs.Classes.{ClassesStages, TellsClasses};
ghost use Rattle.dist_commands.specs.DuePrivate.{IsDue};
ghost use Rattle.dist_commands.specs.StatedLimits.{IsWithinStated};
ghost use Rattle.dist_commands.specs.Stages.{answered};

use crate::answer::Answer;
use crate::files::read_repository;
use crate::refusal::Refusal;
use crate::status::Status;
use dist_outside::{Desk, Limits};
use dist_repo::{Repository, latest_is_one};
use dist_report::classes_text;
use std::alloc::{AllocError, Global};

/// What the command answers, or why it was given up.
pub(crate) fn run_classes<D: Desk>(
    alloc: Global,
    desk: &mut D,
    packages: &str,
    limits: &Limits,
) -> Result<Answer, Refusal>
    requires not_writing { IsNotWriting (D.view desk.old).mode }
    requires within { IsWithinStated limits.now }
    ensures answers { IfOk result (λ answer. ClassesStages (D.view desk.old).files limits.now packages.now
        (TellsClasses (D.view desk.old).files) (answered (D.view desk.old).files answer.status answer.text.items)) }
    ensures due { IfErr result (IsDue (ClassesStages (D.view desk.old).files limits.now packages.now (TellsClasses (D.view desk.old).files)) (D.view desk.old) (D.view desk.new)) }
    ensures only_reads { OnlyReads (D.view desk.old) (D.view desk.new) }
{
    match read_repository(alloc, desk, packages, limits) {
        Ok(repository) => {
            let told = tell_classes(alloc, &repository);
            drop(repository);
            match told {
                Ok(answer) => Ok(answer),
                Err(_) => Err(Refusal::NoMemory),
            }
        }
        Err(refusal) => Err(refusal),
    }
}

/// The report of the newest versions.
fn tell_classes(alloc: Global, repository: &Repository) -> Result<Answer, AllocError>
    requires { IsWithinSize repository.now }
    ensures { IfOk result (λ answer. (files : Option Files) → TellsClasses files repository.now (answered files answer.status answer.text.items)) }
{
    latest_is_one();
    let newest = repository.latest()?;
    let text = classes_text(alloc, &newest)?;
    Ok(Answer {
        status: Status::Done,
        text,
    })
}
