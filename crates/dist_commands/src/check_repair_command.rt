//! `check-repair PACKAGES CERT`, stage by stage.
ghost use Rattle.std.specs.Prelude.{IfOk, IfErr};
ghost use Rattle.dist_outside.specs.DeskView.{OnlyReads};
ghost use Rattle.dist_outside.specs.Files.{IsNotWriting};
ghost use Rattle.dist_commands.specs.CheckRepair.{CheckRepairStages, RepairStage, TellsRepair};
ghost use Rattle.dist_commands.specs.DuePrivate.{IsDue};
ghost use Rattle.dist_commands.specs.StatedLimits.{IsWithinStated};
ghost use Rattle.dist_commands.specs.Stages.{Then, answered};

use crate::accepting::accept_repair;
use crate::answer::Answer;
use crate::refusal::Refusal;
use crate::repairing::tell_repair;
use crate::spaces::read_space;
use dist_outside::{Desk, Limits};
use dist_space::Space;
use dist_words::CertFiles;
use std::alloc::Global;

/// What the command answers, or why it was given up.
pub(crate) fn run_check_repair<D: Desk>(
    alloc: Global,
    desk: &mut D,
    files: &CertFiles<'_>,
    limits: &Limits,
) -> Result<Answer, Refusal>
    requires not_writing { IsNotWriting (D.view desk.old).mode }
    requires within { IsWithinStated limits.now }
    ensures answers { IfOk result (λ answer. CheckRepairStages (D.view desk.old).files limits.now files.now.packages.now files.now.cert.now
        (TellsRepair (D.view desk.old).files) (answered (D.view desk.old).files answer.status answer.text.items)) }
    ensures due { IfErr result (IsDue (CheckRepairStages (D.view desk.old).files limits.now files.now.packages.now files.now.cert.now
        (TellsRepair (D.view desk.old).files)) (D.view desk.old) (D.view desk.new)) }
    ensures only_reads { OnlyReads (D.view desk.old) (D.view desk.new) }
{
    match read_space(alloc, desk, files.packages, limits) {
        Ok(space) => {
            let answer = judge_repair(alloc, desk, &space, files.cert, limits);
            drop(space);
            answer
        }
        Err(refusal) => Err(refusal),
    }
}

/// What the command answers once its space is made.
fn judge_repair<D: Desk>(
    alloc: Global,
    desk: &mut D,
    space: &Space,
    cert: &str,
    limits: &Limits,
) -> Result<Answer, Refusal>
    requires not_writing { IsNotWriting (D.view desk.old).mode }
    requires within { IsWithinStated limits.now }
    ensures answers { IfOk result (λ answer. Then (RepairStage (D.view desk.old).files limits.now cert.now space.now)
        (TellsRepair (D.view desk.old).files space.now) (answered (D.view desk.old).files answer.status answer.text.items)) }
    ensures due { IfErr result (IsDue (Then (RepairStage (D.view desk.old).files limits.now cert.now space.now)
        (TellsRepair (D.view desk.old).files space.now)) (D.view desk.old) (D.view desk.new)) }
    ensures only_reads { OnlyReads (D.view desk.old) (D.view desk.new) }
{
    match accept_repair(alloc, desk, space, cert, limits) {
        Ok(accepted) => {
            let told = tell_repair(alloc, space, accepted.header.package, &accepted.repair);
            drop(accepted);
            match told {
                Ok(answer) => Ok(answer),
                Err(_) => Err(Refusal::NoMemory),
            }
        }
        Err(refusal) => Err(refusal),
    }
}
