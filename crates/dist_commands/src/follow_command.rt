//! `follow PACKAGES CERT JOURNAL`, stage by stage.
ghost use Rattle.std.specs.Prelude.{IfErr, IfOk, Option, true};
ghost use Rattle.dist_outside.specs.DeskView.{OnlyReads};
ghost use Rattle.dist_outside.specs.Files.{Files, IsNotWriting};
ghost use Rattle.dist_repo.specs.Size.{IsWithinSize};
ghost use Rattle.dist_check.specs.Answers.{AcceptedMeans};
ghost use Rattle.dist_check.specs.JudgedSpace.{IsSpaceGiven};
ghost use Rattle.dist_commands.specs.Check.{CertificateStage};
ghost use Rattle.dist_commands.specs.DuePrivate.{IsDue, IsPartGivenUp};
ghost use Rattle.dist_commands.specs.Follow.{FollowStages, JournalStages, TellsFollowed};
ghost use Rattle.dist_commands.specs.FollowPrivate.{IsBacked, pair_of};
ghost use Rattle.dist_commands.specs.StatedLimits.{IsWithinStated};
ghost use Rattle.dist_commands.specs.SpaceStage.{SpaceStage};
ghost use Rattle.dist_commands.specs.Stages.{Ends, Goes, Then, answered};

use crate::accepting::{Accepted, accept};
use crate::answer::Answer;
use crate::files::{read_repository, text_of};
use crate::followed::make_steps;
use crate::refusal::Refusal;
use crate::spaces::space_of_file;
use dist_outside::{Desk, Limits};
use dist_repo::{Repository, latest_is_one};
use dist_space::{Space, spaces_are_one};
use dist_words::FollowFiles;
use std::alloc::Global;

/// What the command answers, or why it was given up.
pub(crate) fn run_follow<D: Desk>(
    alloc: Global,
    desk: &mut D,
    files: &FollowFiles<'_>,
    limits: &Limits,
) -> Result<Answer, Refusal>
    requires not_writing { IsNotWriting (D.view desk.old).mode }
    requires within { IsWithinStated limits.now }
    ensures answers { IfOk result (λ answer. FollowStages (D.view desk.old).files limits.now files.now.packages.now files.now.cert.now files.now.journal.now
        (TellsFollowed (D.view desk.old).files limits.now.stanzas) (answered (D.view desk.old).files answer.status answer.text.items)) }
    ensures due { IfErr result (IsDue (FollowStages (D.view desk.old).files limits.now files.now.packages.now files.now.cert.now files.now.journal.now
        (TellsFollowed (D.view desk.old).files limits.now.stanzas)) (D.view desk.old) (D.view desk.new)) }
    ensures only_reads { OnlyReads (D.view desk.old) (D.view desk.new) }
{
    match read_repository(alloc, desk, files.packages, limits) {
        Ok(repository) => follow_repository(alloc, desk, repository, files, limits),
        Err(refusal) => Err(refusal),
    }
}

/// What the command answers once its repository is read.
fn follow_repository<D: Desk>(
    alloc: Global,
    desk: &mut D,
    repository: Repository,
    files: &FollowFiles<'_>,
    limits: &Limits,
) -> Result<Answer, Refusal>
    requires not_writing { IsNotWriting (D.view desk.old).mode }
    requires within { IsWithinStated limits.now }
    requires within_size { IsWithinSize repository }
    ensures answers { IfOk result (λ answer. Then (CertificateStage (D.view desk.old).files limits.now files.now.cert.now repository) (λ accepted.
        Then (SpaceStage (D.view desk.old).files limits.now accepted.0.essential repository) (λ space.
        JournalStages (D.view desk.old).files limits.now files.now.journal.now space (TellsFollowed (D.view desk.old).files limits.now.stanzas space accepted)))
        (answered (D.view desk.old).files answer.status answer.text.items)) }
    ensures due { IfErr result (IsDue (Then (CertificateStage (D.view desk.old).files limits.now files.now.cert.now repository) (λ accepted.
        Then (SpaceStage (D.view desk.old).files limits.now accepted.0.essential repository) (λ space.
        JournalStages (D.view desk.old).files limits.now files.now.journal.now space (TellsFollowed (D.view desk.old).files limits.now.stanzas space accepted))))
        (D.view desk.old) (D.view desk.new)) }
    ensures only_reads { OnlyReads (D.view desk.old) (D.view desk.new) }
{
    match accept(alloc, desk, &repository, files.cert, true, limits) {
        Ok((accepted, space)) => {
            let answer = follow_accepted(
                alloc,
                desk,
                repository,
                &accepted,
                space,
                files.journal,
                limits,
            );
            drop(accepted);
            answer
        }
        Err(refusal) => {
            drop(repository);
            Err(refusal)
        }
    }
}

/// The space of the newest versions at the mode of an accepted certificate: the one that it is judged by, if it is on futures.
/// The other versions are given up.
fn space_of_accepted(
    alloc: Global,
    repository: Repository,
    accepted: &Accepted,
    space: Option<Space>,
    limits: &Limits,
) -> Result<Space, Refusal>
    requires within { IsWithinStated limits.now }
    requires within_size { IsWithinSize repository }
    requires space { IsSpaceGiven repository limits.now true accepted.now.header.kind accepted.now.header.essential space }
    ensures goes { IfOk result (λ made. (files : Option Files) → SpaceStage files limits.now accepted.now.header.essential repository (Goes made)) }
    ensures given_up { IfErr result (λ refusal. (files : Option Files)
        → IsPartGivenUp (λ ending. SpaceStage files limits.now accepted.now.header.essential repository (Ends ending)) files refusal) }
    ensures within_size { IfOk result (λ made. IsWithinSize made.repository) }
{
    // What this call tells is that the newest versions are no more than the repository has.
    latest_is_one();
    match space {
        Some(space) => {
            drop(repository);
            Ok(space)
        }
        None => space_of_file(alloc, repository, accepted.header.essential, limits),
    }
}

/// What the command answers once its certificate is accepted.
fn follow_accepted<D: Desk>(
    alloc: Global,
    desk: &mut D,
    repository: Repository,
    accepted: &Accepted,
    space: Option<Space>,
    journal: &str,
    limits: &Limits,
) -> Result<Answer, Refusal>
    requires not_writing { IsNotWriting (D.view desk.old).mode }
    requires within { IsWithinStated limits.now }
    requires within_size { IsWithinSize repository }
    requires space { IsSpaceGiven repository limits.now true accepted.now.header.kind accepted.now.header.essential space }
    requires means { AcceptedMeans repository accepted.now.header accepted.now.claims }
    ensures answers { IfOk result (λ answer. Then (SpaceStage (D.view desk.old).files limits.now accepted.now.header.essential repository) (λ space.
        JournalStages (D.view desk.old).files limits.now journal.now space (TellsFollowed (D.view desk.old).files limits.now.stanzas space (pair_of accepted.now)))
        (answered (D.view desk.old).files answer.status answer.text.items)) }
    ensures due { IfErr result (IsDue (Then (SpaceStage (D.view desk.old).files limits.now accepted.now.header.essential repository) (λ space.
        JournalStages (D.view desk.old).files limits.now journal.now space (TellsFollowed (D.view desk.old).files limits.now.stanzas space (pair_of accepted.now))))
        (D.view desk.old) (D.view desk.new)) }
    ensures only_reads { OnlyReads (D.view desk.old) (D.view desk.new) }
{
    // What these calls tell is that the claims are of this very space.
    latest_is_one();
    spaces_are_one();
    match space_of_accepted(alloc, repository, accepted, space, limits) {
        Ok(space) => follow_journal(alloc, desk, space, accepted, journal, limits),
        Err(refusal) => Err(refusal),
    }
}

/// What the command answers once its space is made.
fn follow_journal<D: Desk>(
    alloc: Global,
    desk: &mut D,
    space: Space,
    accepted: &Accepted,
    journal: &str,
    limits: &Limits,
) -> Result<Answer, Refusal>
    requires not_writing { IsNotWriting (D.view desk.old).mode }
    requires within { IsWithinStated limits.now }
    requires within_size { IsWithinSize space.repository }
    requires backed { IsBacked space accepted.now }
    ensures answers { IfOk result (λ answer. JournalStages (D.view desk.old).files limits.now journal.now space
        (TellsFollowed (D.view desk.old).files limits.now.stanzas space (pair_of accepted.now)) (answered (D.view desk.old).files answer.status answer.text.items)) }
    ensures due { IfErr result (IsDue (JournalStages (D.view desk.old).files limits.now journal.now space
        (TellsFollowed (D.view desk.old).files limits.now.stanzas space (pair_of accepted.now))) (D.view desk.old) (D.view desk.new)) }
    ensures only_reads { OnlyReads (D.view desk.old) (D.view desk.new) }
{
    match text_of(alloc, desk, journal, limits.bytes) {
        Ok(text) => {
            let answer = make_steps(alloc, space, accepted, &text, limits.stanzas);
            drop(text);
            answer
        }
        Err(refusal) => {
            drop(space);
            Err(refusal)
        }
    }
}
