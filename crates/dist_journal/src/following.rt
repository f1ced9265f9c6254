//! A journal's steps, one after another.
ghost use Rattle.std.specs.Bool.{OnTrue};
ghost use Rattle.std.specs.Prelude.{◌≡◌, ◌≢◌, ◌+◌, ◌<◌, ◌^◌, ℕ, Err, IfErr, IfOk, OnErr, length};
ghost use Rattle.dist_base.specs.Answers.{Answers};
ghost use Rattle.dist_archive.specs.Archive.{IsInRange, brought};
ghost use Rattle.dist_archive.specs.declared.step.StepError.{StepError};
ghost use Rattle.dist_journal.specs.Faults.{IsEntryError};
ghost use Rattle.dist_journal.specs.Follow.{IsFollowed, IsLeft, IsStopped};
ghost use Rattle.dist_journal.specs.FollowPrivate.{IsRefusalAt, IsTaken, IsTold, TakesStep, entry_of};

use crate::cutting::{first_stray, split_block};
use crate::fault::{FollowError, JournalFault};
use crate::reading::{Section, read_step};
use dist_archive::{Archive, Step, StepError, lists_of_steps_grow};
use dist_control::split_line;
use std::alloc::Global;

/// Whether an archive counts what a step brings by 32-bit numbers.
fn has_room(archive: &Archive, step: &Step) -> bool
    ensures { OnTrue result (length archive.now.packages + brought step.now < 4294967295) }
{
    match step {
        Step::Upload(_, _, block) => u64::from(archive.len()) + u64::from(block.len())
            < 4_294_967_295,
        Step::Removal(_) => archive.len() < 4_294_967_295,
        Step::NewName(block) => u64::from(archive.len()) + u64::from(block.len()) < 4_294_967_295,
    }
}

/// What an archive said of a step, whose step line has a number.
fn told(said: Result<(), StepError>, number: u64) -> Result<(), FollowError>
    ensures { IsTold said number result }
{
    match said {
        Ok(()) => Ok(()),
        Err(StepError::NoMemory) => Err(FollowError::NoMemory),
        Err(error) => Err(FollowError::Bad(number, JournalFault::Refused(error))),
    }
}

/// Takes a step whose step line has a number.
fn take(archive: &mut Archive, step: Step, number: u64) -> Result<(), FollowError>
    requires { IsInRange archive.old.space step }
    ensures space { archive.new.space ≡ archive.old.space }
    ensures answers { Answers (λ _. IsTaken archive.old.space step archive.old.packages archive.new.packages)
        (IsRefusalAt archive.old.space archive.old.packages step number) FollowError.NoMemory result }
    ensures err { OnErr result (archive.new ≡ archive.old) }
{
    if !has_room(archive, &step) {
        return Err(FollowError::NoMemory);
    }
    let said = archive.apply(step);
    told(said, number)
}

/// Takes the step that a section tells.
fn follow_section(
    alloc: Global,
    archive: &mut Archive,
    section: &Section,
    stanzas: u32,
) -> Result<(), FollowError>
    requires { section.now.number + 1 + length section.now.block.now < 2 ^ 64 }
    ensures space { archive.new.space ≡ archive.old.space }
    ensures answers { Answers
        (λ _. TakesStep archive.old.space stanzas (entry_of section.now) archive.old.packages archive.new.packages)
        (IsEntryError archive.old.space stanzas archive.old.packages (entry_of section.now)) FollowError.NoMemory result }
    ensures err { OnErr result (archive.new ≡ archive.old) }
{
    let step = read_step(alloc, archive, section, stanzas)?;
    take(archive, step, section.number)
}

/// Follows a journal: makes its steps in their order, and answers their number. A block may have so many stanzas. After a refusal
/// the steps before it stand made.
pub fn follow(
    alloc: Global,
    archive: &mut Archive,
    journal: &[u8],
    stanzas: u32,
) -> Result<u32, FollowError>
    requires { length archive.old.packages + length journal.now < 4294967295 }
    ensures space { archive.new.space ≡ archive.old.space }
    ensures ok { IfOk result (IsFollowed archive.old.space stanzas journal.now archive.old.packages archive.new.packages) }
    ensures err { IfErr result (λ error. error ≢ FollowError.NoMemory
        → IsStopped archive.old.space stanzas journal.now archive.old.packages archive.new.packages error) }
    ensures left { OnErr result (IsLeft archive.old.space stanzas journal.now archive.old.packages archive.new.packages) }

    // Want of memory is told as such, and by no refusal of a step.
    ensures refused { (line : ℕ) → result ≢ Err (FollowError.Bad line (JournalFault.Refused StepError.NoMemory)) }
{
    lists_of_steps_grow();
    archive.space().keeps_invariant();
    archive.keeps_invariant();
    let (head, mut rest, lines) = split_block(journal);
    if let Some(line) = first_stray(head, 1) {
        return Err(FollowError::Bad(line, JournalFault::Stray));
    }
    let mut number = lines + 1;
    let mut count = 0;
    while !rest.is_empty() {
        let (line, after) = split_line(rest);
        let (block, next, lines) = split_block(after);
        let section = Section {
            number,
            line,
            block,
        };
        match follow_section(alloc, archive, &section, stanzas) {
            Ok(()) => {}
            Err(error) => return Err(error),
        }
        rest = next;
        number += lines + 1;
        count += 1;
    }
    Ok(count)
}
