//! `strong`, `outdated` and `challenged PACKAGES CERT`, stage by stage. The kind is told by the words.
ghost use Rattle.std.specs.Prelude.{◌≡◌, IfOk, IfErr};
ghost use Rattle.dist_outside.specs.Files.{IsNotWriting};
ghost use Rattle.dist_repo.specs.Size.{IsWithinSize};
ghost use Rattle.dist_subject.specs.Limited.{AreStated};
ghost use Rattle.dist_sweep.specs.Sweep.{SweepAnswers, TellsFirst};
ghost use Rattle.dist_words.specs.CommandLine.{Sweep};
ghost use Rattle.dist_words.specs.Lines.{IsLimit};
ghost use Rattle.dist_commands.specs.Command.{CommandDecides};
ghost use Rattle.dist_commands.specs.DuePrivate.{WritingStops};
ghost use Rattle.dist_commands.specs.Stops.{LeavesDesk, Stops};
ghost use Rattle.dist_commands.specs.StatedLimits.{IsWithinStated};
ghost use Rattle.dist_commands.specs.Stages.{Goes, answered};
ghost use Rattle.dist_commands.specs.Sweeps.{InputsStage, sweep_writing};
ghost use Rattle.dist_commands.specs.WrittenFile.{IsWritten};

use crate::answer::Answer;
use crate::claims::report;
use crate::files::read_repository;
use crate::refusal::{Refusal, refusal_of};
use dist_cert::{CertKind, Claims, Header};
use dist_challenge::challenged;
use dist_outdated::outdated;
use dist_outside::{Desk, Limits, WorkError};
use dist_repo::Repository;
use dist_strong::strong;
use dist_words::SweepWords;
use std::alloc::Global;

/// What the command answers, or why it was given up.
pub(crate) fn run_sweep<D: Desk>(
    alloc: Global,
    desk: &mut D,
    words: &SweepWords<'_>,
    limits: &Limits,
) -> Result<Answer, Refusal>
    requires not_writing { IsNotWriting (D.view desk.old).mode }
    requires within { IsWithinStated limits.now }
    requires limit { IsLimit words.now.limit }
    ensures answers { IfOk result (λ answer. CommandDecides (Sweep words.now.kind words.now.packages.now words.now.cert.now words.now.essential words.now.limit)
        (D.view desk.old).files limits.now (answered (D.view desk.new).files answer.status answer.text.items)) }
    ensures stops { IfErr result (Stops (Sweep words.now.kind words.now.packages.now words.now.cert.now words.now.essential words.now.limit) limits.now
        (D.view desk.old) (D.view desk.new)) }
    ensures leaves { LeavesDesk (D.view desk.old) (D.view desk.new) }
{
    match read_repository(alloc, desk, words.packages, limits) {
        Ok(repository) => {
            let answer = sweep(alloc, desk, &repository, words, limits);
            drop(repository);
            answer
        }
        Err(refusal) => Err(refusal),
    }
}

/// Writes CERT, and reports what it claims.
fn sweep<D: Desk>(
    alloc: Global,
    desk: &mut D,
    repository: &Repository,
    words: &SweepWords<'_>,
    limits: &Limits,
) -> Result<Answer, Refusal>
    requires not_writing { IsNotWriting (D.view desk.old).mode }
    requires within { IsWithinStated limits.now }
    requires within_size { IsWithinSize repository.now }
    requires limit { IsLimit words.now.limit }
    ensures kept { IfOk result (λ _. InputsStage (D.view desk.old).files limits.now words.now.kind words.now.essential repository.now (Goes tt)) }
    ensures swept { IfOk result (λ answer. IsWritten (sweep_writing limits.now words.now.kind words.now.essential words.now.limit repository.now)
        (D.view desk.old).files words.now.cert.now (answered (D.view desk.new).files answer.status answer.text.items)) }
    ensures stops { IfErr result (WritingStops (sweep_writing limits.now words.now.kind words.now.essential words.now.limit repository.now)
        words.now.cert.now (D.view desk.old) (D.view desk.new)) }
    ensures leaves { LeavesDesk (D.view desk.old) (D.view desk.new) }
{
    match write_certificate(alloc, desk, repository, words, limits) {
        Ok(claims) => {
            let told = report(alloc, repository, &told_line(words), &claims);
            drop(claims);
            match told {
                Ok(answer) => Ok(answer),
                Err(_) => Err(Refusal::NoMemory),
            }
        }
        Err(error) => Err(refusal_of(error)),
    }
}

/// Writes CERT by the sweep of the kind, and tells what it claims.
fn write_certificate<D: Desk>(
    alloc: Global,
    desk: &mut D,
    repository: &Repository,
    words: &SweepWords<'_>,
    limits: &Limits,
) -> Result<Claims, WorkError>
    requires not_writing { IsNotWriting (D.view desk.old).mode }
    requires within_size { IsWithinSize repository.now }
    requires limit { IsLimit words.now.limit }
    requires limits { AreStated limits.now }
    ensures answers { SweepAnswers repository.now words.now.kind words.now.essential words.now.limit limits.now words.now.cert.now
        (D.view desk.old) (D.view desk.new) result }
    ensures first { TellsFirst repository.now words.now.kind words.now.essential limits.now result }
{
    let SweepWords {
        kind,
        cert,
        essential,
        limit,
        ..
    } = *words;
    match kind {
        CertKind::Strong => strong(alloc, repository, essential, desk, cert, limit, limits),
        CertKind::Outdated => outdated(alloc, repository, essential, desk, cert, limit, limits),
        CertKind::Challenged => {
            challenged(alloc, repository, essential, desk, cert, limit, limits)
        }
    }
}

/// What a report takes of a first line: the kind and the limit.
fn told_line(words: &SweepWords<'_>) -> Header
    ensures kind { result.kind ≡ words.now.kind }
    ensures limit { result.limit ≡ words.now.limit }
{
    Header {
        kind: words.kind,
        limit: words.limit,
        packages: 0,
        variables: 0,
        clauses: 0,
        essential: words.essential,
    }
}
