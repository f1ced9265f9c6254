//! `steps PACKAGES LATER`, stage by stage.
ghost use Rattle.std.specs.Prelude.{IfErr, IfOk};
ghost use Rattle.dist_outside.specs.DeskView.{OnlyReads};
ghost use Rattle.dist_outside.specs.Files.{IsNotWriting};
ghost use Rattle.dist_commands.specs.DuePrivate.{IsDue};
ghost use Rattle.dist_commands.specs.PackagesStage.{PackagesStage};
ghost use Rattle.dist_commands.specs.StatedLimits.{IsWithinStated};
ghost use Rattle.dist_commands.specs.Stages.{Then, answered};
ghost use Rattle.dist_commands.specs.Steps.{StepsStages, TellsLater};

use crate::answer::Answer;
use crate::later::tell_later;
use crate::refusal::Refusal;
use crate::spaces::{read_newest, read_space};
use dist_outside::{Desk, Limits};
use dist_space::Space;
use dist_words::StepsFiles;
use std::alloc::Global;

/// What the command answers, or why it was given up.
pub(crate) fn run_steps<D: Desk>(
    alloc: Global,
    desk: &mut D,
    files: &StepsFiles<'_>,
    limits: &Limits,
) -> Result<Answer, Refusal>
    requires not_writing { IsNotWriting (D.view desk.old).mode }
    requires within { IsWithinStated limits.now }
    ensures answers { IfOk result (λ answer. StepsStages (D.view desk.old).files limits.now files.now.packages.now files.now.later.now
        (TellsLater (D.view desk.old).files) (answered (D.view desk.old).files answer.status answer.text.items)) }
    ensures due { IfErr result (IsDue (StepsStages (D.view desk.old).files limits.now files.now.packages.now files.now.later.now
        (TellsLater (D.view desk.old).files)) (D.view desk.old) (D.view desk.new)) }
    ensures only_reads { OnlyReads (D.view desk.old) (D.view desk.new) }
{
    match read_space(alloc, desk, files.packages, limits) {
        Ok(space) => {
            let answer = compare_later(alloc, desk, &space, files.later, limits);
            drop(space);
            answer
        }
        Err(refusal) => Err(refusal),
    }
}

/// What the command answers once the space is made.
fn compare_later<D: Desk>(
    alloc: Global,
    desk: &mut D,
    space: &Space,
    later: &str,
    limits: &Limits,
) -> Result<Answer, Refusal>
    requires not_writing { IsNotWriting (D.view desk.old).mode }
    requires within { IsWithinStated limits.now }
    ensures answers { IfOk result (λ answer. Then (PackagesStage (D.view desk.old).files limits.now later.now)
        (TellsLater (D.view desk.old).files space.now) (answered (D.view desk.old).files answer.status answer.text.items)) }
    ensures due { IfErr result (IsDue (Then (PackagesStage (D.view desk.old).files limits.now later.now) (TellsLater (D.view desk.old).files space.now))
        (D.view desk.old) (D.view desk.new)) }
    ensures only_reads { OnlyReads (D.view desk.old) (D.view desk.new) }
{
    match read_newest(alloc, desk, later, limits) {
        Ok(newest) => {
            let told = tell_later(alloc, space, &newest);
            drop(newest);
            match told {
                Ok(answer) => Ok(answer),
                Err(_) => Err(Refusal::NoMemory),
            }
        }
        Err(refusal) => Err(refusal),
    }
}
