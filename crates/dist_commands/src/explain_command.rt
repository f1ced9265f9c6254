//! `explain PACKAGES CERT`, stage by stage.
ghost use Rattle.std.specs.Prelude.{◌<◌, IfErr, IfOk, length};
ghost use Rattle.dist_outside.specs.Files.{IsNotWriting};
ghost use Rattle.dist_repo.specs.Size.{IsWithinSize};
ghost use Rattle.dist_explain.specs.ExplanationFiles.{PassesFirst};
ghost use Rattle.dist_words.specs.CommandLine.{Explain};
ghost use Rattle.dist_words.specs.Lines.{IsLimit};
ghost use Rattle.dist_commands.specs.Command.{CommandDecides};
ghost use Rattle.dist_commands.specs.DuePrivate.{WritingStops};
ghost use Rattle.dist_commands.specs.Stops.{LeavesDesk, Stops};
ghost use Rattle.dist_commands.specs.Explain.{explain_writing};
ghost use Rattle.dist_commands.specs.ExplainPrivate.{ExplainStops, IsFoundAndWritten};
ghost use Rattle.dist_commands.specs.StatedLimits.{IsWithinStated};
ghost use Rattle.dist_commands.specs.Stages.{Goes, answered};
ghost use Rattle.dist_commands.specs.WrittenFile.{IsWritten, NumbersStage};

use crate::answer::Answer;
use crate::explaining::tell_explained;
use crate::files::read_repository;
use crate::naming::find_named;
use crate::refusal::{Refusal, refusal_of};
use dist_explain_search::explain;
use dist_outside::{Desk, Limits};
use dist_repo::Repository;
use dist_words::ExplainWords;
use std::alloc::Global;

/// What the command answers, or why it was given up.
pub(crate) fn run_explain<D: Desk>(
    alloc: Global,
    desk: &mut D,
    words: &ExplainWords<'_>,
    limits: &Limits,
) -> Result<Answer, Refusal>
    requires not_writing { IsNotWriting (D.view desk.old).mode }
    requires within { IsWithinStated limits.now }
    requires limit { IsLimit words.now.limit }
    ensures answers { IfOk result (λ answer. CommandDecides (Explain words.now.packages.now words.now.cert.now words.now.named.now words.now.limit)
        (D.view desk.old).files limits.now (answered (D.view desk.new).files answer.status answer.text.items)) }
    ensures stops { IfErr result (Stops (Explain words.now.packages.now words.now.cert.now words.now.named.now words.now.limit) limits.now
        (D.view desk.old) (D.view desk.new)) }
    ensures leaves { LeavesDesk (D.view desk.old) (D.view desk.new) }
{
    match read_repository(alloc, desk, words.packages, limits) {
        Ok(repository) => {
            let answer = explain_named(alloc, desk, &repository, words, limits);
            drop(repository);
            answer
        }
        Err(refusal) => Err(refusal),
    }
}

/// Finds the package, and explains it.
fn explain_named<D: Desk>(
    alloc: Global,
    desk: &mut D,
    repository: &Repository,
    words: &ExplainWords<'_>,
    limits: &Limits,
) -> Result<Answer, Refusal>
    requires not_writing { IsNotWriting (D.view desk.old).mode }
    requires within { IsWithinStated limits.now }
    requires within_size { IsWithinSize repository.now }
    requires limit { IsLimit words.now.limit }
    ensures answers { IfOk result (λ answer. IsFoundAndWritten (D.view desk.old).files limits.now words.now.cert.now words.now.named.now words.now.limit
        repository.now (answered (D.view desk.new).files answer.status answer.text.items)) }
    ensures stops { IfErr result (ExplainStops limits.now words.now.cert.now words.now.named.now words.now.limit repository.now
        (D.view desk.old) (D.view desk.new)) }
    ensures leaves { LeavesDesk (D.view desk.old) (D.view desk.new) }
{
    match find_named(alloc, repository, words.named) {
        Ok(number) => write_explanation(alloc, desk, repository, number, words, limits),
        Err(refusal) => Err(refusal),
    }
}

/// Writes CERT, and tells what it answers of the package of a number.
fn write_explanation<D: Desk>(
    alloc: Global,
    desk: &mut D,
    repository: &Repository,
    number: u32,
    words: &ExplainWords<'_>,
    limits: &Limits,
) -> Result<Answer, Refusal>
    requires not_writing { IsNotWriting (D.view desk.old).mode }
    requires within { IsWithinStated limits.now }
    requires within_size { IsWithinSize repository.now }
    requires number { number < length repository.now.packages }
    requires limit { IsLimit words.now.limit }
    ensures kept { IfOk result (λ _. NumbersStage (PassesFirst repository.now limits.now) (D.view desk.old).files (Goes tt)) }
    ensures written { IfOk result (λ answer. IsWritten (explain_writing limits.now words.now.limit repository.now number) (D.view desk.old).files
        words.now.cert.now (answered (D.view desk.new).files answer.status answer.text.items)) }
    ensures stops { IfErr result (WritingStops (explain_writing limits.now words.now.limit repository.now number) words.now.cert.now
        (D.view desk.old) (D.view desk.new)) }
    ensures leaves { LeavesDesk (D.view desk.old) (D.view desk.new) }
{
    match explain(
        alloc,
        repository,
        number,
        desk,
        words.cert,
        words.limit,
        limits,
    ) {
        Ok(explained) => {
            let told = tell_explained(alloc, repository, number, &explained);
            drop(explained);
            match told {
                Ok(answer) => Ok(answer),
                Err(_) => Err(Refusal::NoMemory),
            }
        }
        Err(error) => Err(refusal_of(error)),
    }
}
