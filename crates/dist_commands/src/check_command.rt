//! `check PACKAGES CERT`, stage by stage.
ghost use Rattle.std.specs.Prelude.{IfOk, IfErr};
ghost use Rattle.dist_outside.specs.DeskView.{OnlyReads};
ghost use Rattle.dist_outside.specs.Files.{IsNotWriting};
ghost use Rattle.dist_repo.specs.Size.{IsWithinSize};
ghost use Rattle.dist_commands.specs.Check.{CertificateStage, CheckStages, Reports};
ghost use Rattle.dist_commands.specs.DuePrivate.{IsDue};
ghost use Rattle.dist_commands.specs.StatedLimits.{IsWithinStated};
ghost use Rattle.dist_commands.specs.Stages.{Then, answered};

use crate::accepting::accept;
use crate::answer::Answer;
use crate::claims::report;
use crate::files::read_repository;
use crate::refusal::Refusal;
use dist_outside::{Desk, Limits};
use dist_repo::Repository;
use dist_words::CertFiles;
use std::alloc::Global;

/// What the command answers, or why it was given up.
pub(crate) fn run_check<D: Desk>(
    alloc: Global,
    desk: &mut D,
    files: &CertFiles<'_>,
    limits: &Limits,
) -> Result<Answer, Refusal>
    requires not_writing { IsNotWriting (D.view desk.old).mode }
    requires within { IsWithinStated limits.now }
    ensures answers { IfOk result (λ answer. CheckStages (D.view desk.old).files limits.now files.now.packages.now files.now.cert.now
        (Reports (D.view desk.old).files) (answered (D.view desk.old).files answer.status answer.text.items)) }
    ensures due { IfErr result (IsDue (CheckStages (D.view desk.old).files limits.now files.now.packages.now files.now.cert.now
        (Reports (D.view desk.old).files)) (D.view desk.old) (D.view desk.new)) }
    ensures only_reads { OnlyReads (D.view desk.old) (D.view desk.new) }
{
    match read_repository(alloc, desk, files.packages, limits) {
        Ok(repository) => {
            let answer = judge_certificate(alloc, desk, &repository, files.cert, limits);
            drop(repository);
            answer
        }
        Err(refusal) => Err(refusal),
    }
}

/// What the command answers once its repository is read.
fn judge_certificate<D: Desk>(
    alloc: Global,
    desk: &mut D,
    repository: &Repository,
    cert: &str,
    limits: &Limits,
) -> Result<Answer, Refusal>
    requires not_writing { IsNotWriting (D.view desk.old).mode }
    requires within { IsWithinStated limits.now }
    requires within_size { IsWithinSize repository.now }
    ensures answers { IfOk result (λ answer. Then (CertificateStage (D.view desk.old).files limits.now cert.now repository.now)
        (Reports (D.view desk.old).files repository.now) (answered (D.view desk.old).files answer.status answer.text.items)) }
    ensures due { IfErr result (IsDue (Then (CertificateStage (D.view desk.old).files limits.now cert.now repository.now)
        (Reports (D.view desk.old).files repository.now)) (D.view desk.old) (D.view desk.new)) }
    ensures only_reads { OnlyReads (D.view desk.old) (D.view desk.new) }
{
    match accept(alloc, desk, repository, cert, false, limits) {
        Ok((accepted, _)) => {
            let told = report(alloc, repository, &accepted.header, &accepted.claims);
            drop(accepted);
            match told {
                Ok(answer) => Ok(answer),
                Err(_) => Err(Refusal::NoMemory),
            }
        }
        Err(refusal) => Err(refusal),
    }
}
