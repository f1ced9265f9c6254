//! `repair PACKAGES CERT`, stage by stage.
ghost use Rattle.std.specs.Prelude.{◌<◌, ◌≤◌, IfErr, IfOk, length};
ghost use Rattle.dist_outside.specs.Files.{IsNotWriting};
ghost use Rattle.dist_repo.specs.Order.{IsFlat};
ghost use Rattle.dist_repo.specs.Size.{IsWithinSize};
ghost use Rattle.dist_repair.specs.RepairFiles.{PassesWith};
ghost use Rattle.dist_words.specs.CommandLine.{Repair};
ghost use Rattle.dist_words.specs.Lines.{IsLimit};
ghost use Rattle.dist_base.specs.declared.TheConstants.{MAX_MOST};
ghost use Rattle.dist_commands.specs.Command.{CommandDecides};
ghost use Rattle.dist_commands.specs.DuePrivate.{WritingStops};
ghost use Rattle.dist_commands.specs.Stops.{LeavesDesk, Stops};
ghost use Rattle.dist_commands.specs.Repair.{repair_writing};
ghost use Rattle.dist_commands.specs.RepairPrivate.{IsNamedAndWritten, IsSpacedAndWritten, NamedStops, SpacedStops};
ghost use Rattle.dist_commands.specs.StatedLimits.{IsWithinStated};
ghost use Rattle.dist_commands.specs.Stages.{Goes, answered};
ghost use Rattle.dist_commands.specs.WrittenFile.{IsWritten, NumbersStage};

use crate::answer::Answer;
use crate::naming::find_named;
use crate::refusal::{Refusal, refusal_of};
use crate::repairing::tell_repair;
use crate::spaces::{read_newest, space_within};
use dist_outside::{Desk, Limits};
use dist_repair_search::repair;
use dist_repo::Repository;
use dist_space::Space;
use dist_words::RepairWords;
use std::alloc::Global;

/// What the command answers, or why it was given up.
pub(crate) fn run_repair<D: Desk>(
    alloc: Global,
    desk: &mut D,
    words: &RepairWords<'_>,
    limits: &Limits,
) -> Result<Answer, Refusal>
    requires not_writing { IsNotWriting (D.view desk.old).mode }
    requires within { IsWithinStated limits.now }
    requires limit { IsLimit words.now.limit }
    requires most { words.now.most ≤ MAX_MOST }
    ensures answers { IfOk result (λ answer. CommandDecides (Repair words.now.packages.now words.now.cert.now words.now.named.now words.now.most words.now.limit)
        (D.view desk.old).files limits.now (answered (D.view desk.new).files answer.status answer.text.items)) }
    ensures stops { IfErr result (Stops (Repair words.now.packages.now words.now.cert.now words.now.named.now words.now.most words.now.limit) limits.now
        (D.view desk.old) (D.view desk.new)) }
    ensures leaves { LeavesDesk (D.view desk.old) (D.view desk.new) }
{
    match read_newest(alloc, desk, words.packages, limits) {
        Ok(newest) => repair_named(alloc, desk, newest, words, limits),
        Err(refusal) => Err(refusal),
    }
}

/// Finds the package, and repairs it.
fn repair_named<D: Desk>(
    alloc: Global,
    desk: &mut D,
    newest: Repository,
    words: &RepairWords<'_>,
    limits: &Limits,
) -> Result<Answer, Refusal>
    requires not_writing { IsNotWriting (D.view desk.old).mode }
    requires within { IsWithinStated limits.now }
    requires within_size { IsWithinSize newest }
    requires flat { IsFlat newest.packages }
    requires limit { IsLimit words.now.limit }
    requires most { words.now.most ≤ MAX_MOST }
    ensures answers { IfOk result (λ answer. IsNamedAndWritten (D.view desk.old).files limits.now words.now.cert.now words.now.named.now words.now.most
        words.now.limit newest (answered (D.view desk.new).files answer.status answer.text.items)) }
    ensures stops { IfErr result (NamedStops limits.now words.now.cert.now words.now.named.now words.now.most words.now.limit newest
        (D.view desk.old) (D.view desk.new)) }
    ensures leaves { LeavesDesk (D.view desk.old) (D.view desk.new) }
{
    match find_named(alloc, &newest, words.named) {
        Ok(number) => repair_in_space(alloc, desk, newest, number, words, limits),
        Err(refusal) => Err(refusal),
    }
}

/// Makes the space, and repairs the package of a number.
fn repair_in_space<D: Desk>(
    alloc: Global,
    desk: &mut D,
    newest: Repository,
    number: u32,
    words: &RepairWords<'_>,
    limits: &Limits,
) -> Result<Answer, Refusal>
    requires not_writing { IsNotWriting (D.view desk.old).mode }
    requires within { IsWithinStated limits.now }
    requires within_size { IsWithinSize newest }
    requires flat { IsFlat newest.packages }
    requires number { number < length newest.packages }
    requires limit { IsLimit words.now.limit }
    requires most { words.now.most ≤ MAX_MOST }
    ensures answers { IfOk result (λ answer. IsSpacedAndWritten (D.view desk.old).files limits.now words.now.cert.now words.now.most words.now.limit
        newest number (answered (D.view desk.new).files answer.status answer.text.items)) }
    ensures stops { IfErr result (SpacedStops limits.now words.now.cert.now words.now.most words.now.limit newest number
        (D.view desk.old) (D.view desk.new)) }
    ensures leaves { LeavesDesk (D.view desk.old) (D.view desk.new) }
{
    match space_within(alloc, newest, false, limits.variables) {
        Ok(space) => {
            let answer = write_repair(alloc, desk, &space, number, words, limits);
            drop(space);
            answer
        }
        Err(refusal) => Err(refusal),
    }
}

/// Writes CERT, and tells what it answers of the package of a number.
fn write_repair<D: Desk>(
    alloc: Global,
    desk: &mut D,
    space: &Space,
    number: u32,
    words: &RepairWords<'_>,
    limits: &Limits,
) -> Result<Answer, Refusal>
    requires not_writing { IsNotWriting (D.view desk.old).mode }
    requires within { IsWithinStated limits.now }
    requires number { number < length space.now.repository.packages }
    requires limit { IsLimit words.now.limit }
    requires most { words.now.most ≤ MAX_MOST }
    ensures kept { IfOk result (λ _. NumbersStage (PassesWith space.now words.now.most limits.now) (D.view desk.old).files (Goes tt)) }
    ensures written { IfOk result (λ answer. IsWritten (repair_writing limits.now words.now.most words.now.limit space.now number) (D.view desk.old).files
        words.now.cert.now (answered (D.view desk.new).files answer.status answer.text.items)) }
    ensures stops { IfErr result (WritingStops (repair_writing limits.now words.now.most words.now.limit space.now number) words.now.cert.now
        (D.view desk.old) (D.view desk.new)) }
    ensures leaves { LeavesDesk (D.view desk.old) (D.view desk.new) }
{
    let RepairWords {
        cert,
        most,
        limit,
        ..
    } = *words;
    match repair(alloc, space, number, most, desk, cert, limit, limits) {
        Ok(made) => {
            let told = tell_repair(alloc, space, number, &made);
            drop(made);
            match told {
                Ok(answer) => Ok(answer),
                Err(_) => Err(Refusal::NoMemory),
            }
        }
        Err(error) => Err(refusal_of(error)),
    }
}
