//! `health PACKAGES LIST`, stage by stage.
ghost use Rattle.std.specs.Prelude.{◌≡◌, ℕ, List, Option, IfOk, IfErr, length};
ghost use Rattle.dist_outside.specs.Files.{Files, IsNotWriting};
ghost use Rattle.dist_outside.specs.DeskView.{OnlyReads};
ghost use Rattle.dist_repo.specs.Size.{IsWithinSize};
ghost use Rattle.dist_commands.specs.Stages.{Goes, Ends, Then, answered};
ghost use Rattle.dist_commands.specs.TextStage.{TextStage};
ghost use Rattle.dist_commands.specs.Health.{HealthStages, Judges, ListStage, ListStages};
ghost use Rattle.dist_commands.specs.DuePrivate.{IsDue, IsPartGivenUp};
ghost use Rattle.dist_commands.specs.StatedLimits.{IsWithinStated};

use crate::answer::Answer;
use crate::files::{read_repository, text_of};
use crate::health::judge;
use crate::refusal::Refusal;
use dist_clause::Assignment;
use dist_list::{ListError, read_list};
use dist_outside::{Desk, Limits};
use dist_repo::Repository;
use dist_words::HealthFiles;
use std::alloc::Global;

/// What the command answers, or why it was given up.
pub(crate) fn run_health<D: Desk>(
    alloc: Global,
    desk: &mut D,
    files: &HealthFiles<'_>,
    limits: &Limits,
) -> Result<Answer, Refusal>
    requires not_writing { IsNotWriting (D.view desk.old).mode }
    requires within { IsWithinStated limits.now }
    ensures answers { IfOk result (λ answer. HealthStages (D.view desk.old).files limits.now files.now.packages.now files.now.list.now
        (Judges (D.view desk.old).files) (answered (D.view desk.old).files answer.status answer.text.items)) }
    ensures due { IfErr result (IsDue (HealthStages (D.view desk.old).files limits.now files.now.packages.now files.now.list.now (Judges (D.view desk.old).files))
        (D.view desk.old) (D.view desk.new)) }
    ensures only_reads { OnlyReads (D.view desk.old) (D.view desk.new) }
{
    match read_repository(alloc, desk, files.packages, limits) {
        Ok(repository) => {
            let answer = judge_list(alloc, desk, &repository, files.list, limits);
            drop(repository);
            answer
        }
        Err(refusal) => Err(refusal),
    }
}

/// What the command answers once its repository is read.
fn judge_list<D: Desk>(
    alloc: Global,
    desk: &mut D,
    repository: &Repository,
    list: &str,
    limits: &Limits,
) -> Result<Answer, Refusal>
    requires not_writing { IsNotWriting (D.view desk.old).mode }
    requires within_size { IsWithinSize repository.now }
    ensures answers { IfOk result (λ answer. ListStages (D.view desk.old).files limits.now repository.now list.now
        (Judges (D.view desk.old).files repository.now) (answered (D.view desk.old).files answer.status answer.text.items)) }
    ensures due { IfErr result (IsDue (ListStages (D.view desk.old).files limits.now repository.now list.now (Judges (D.view desk.old).files repository.now)) (D.view desk.old) (D.view desk.new)) }
    ensures only_reads { OnlyReads (D.view desk.old) (D.view desk.new) }
{
    match read_members(alloc, desk, list, repository, limits) {
        Ok(members) => {
            let told = judge(alloc, repository, &members);
            drop(members);
            match told {
                Ok(answer) => Ok(answer),
                Err(_) => Err(Refusal::NoMemory),
            }
        }
        Err(refusal) => Err(refusal),
    }
}

/// The set that the text of LIST names.
fn members_of(alloc: Global, repository: &Repository, text: &[u8]) -> Result<Assignment, Refusal>
    ensures goes { IfOk result (λ members. (files : Option Files) → ListStage files repository.now.packages text.now (Goes members)) }
    ensures given_up { IfErr result (λ refusal. (files : Option Files) → IsPartGivenUp (λ ending. ListStage files repository.now.packages text.now (Ends ending)) files refusal) }
{
    match read_list(alloc, repository, text) {
        Ok(members) => Ok(members),
        Err(ListError::Bad(line)) => Err(Refusal::BadList(line)),
        Err(ListError::NoMemory) => Err(Refusal::NoMemory),
    }
}

/// The set that LIST names.
fn read_members<D: Desk>(
    alloc: Global,
    desk: &mut D,
    name: &str,
    repository: &Repository,
    limits: &Limits,
) -> Result<Assignment, Refusal>
    requires { IsNotWriting (D.view desk.old).mode }
    ensures goes { IfOk result (λ members. (text : List ℕ) × TextStage (D.view desk.old).files name.now limits.now.bytes (Goes text)
        × ListStage (D.view desk.old).files repository.now.packages text (Goes members)) }
    ensures due { IfErr result (IsDue (Then (TextStage (D.view desk.old).files name.now limits.now.bytes)
        (λ text ending. ListStage (D.view desk.old).files repository.now.packages text (Ends ending))) (D.view desk.old) (D.view desk.new)) }
    ensures one_each { IfOk result (λ members. length members ≡ length repository.now.packages) }
    ensures only_reads { OnlyReads (D.view desk.old) (D.view desk.new) }
{
    match text_of(alloc, desk, name, limits.bytes) {
        Ok(text) => {
            let members = members_of(alloc, repository, &text);
            drop(text);
            members
        }
        Err(refusal) => Err(refusal),
    }
}
