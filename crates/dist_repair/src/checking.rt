//! The check of a repair's file.
ghost use Rattle.std.specs.Prelude.{IfErr, IfOk, List, ℕ};
ghost use Rattle.dist_outside.specs.DeskView.{OnlyReads};
ghost use Rattle.dist_outside.specs.Files.{IsNotWriting, IsPresent, file_bytes};
ghost use Rattle.dist_cert.specs.declared.faults.ReadCertError.{ReadCertError};
ghost use Rattle.dist_judge.specs.Causes.{OnceRead, TextCause};
ghost use Rattle.dist_judge.specs.Judging.{OfText};
ghost use Rattle.dist_subject.specs.Limited.{AreStated};
ghost use Rattle.dist_repair.specs.NotesPrivate.{IsVerdictOf};
ghost use Rattle.dist_repair.specs.Verdicts.{IsHeaderOf, RepairAnswers, VerdictSays};

use crate::laws::accepted_repairs_hold;
use crate::notes::Notes;
use crate::repairing::Repairing;
use crate::verdict::{RepairHeader, RepairVerdict};
use dist_cert::forms_are_clear;
use dist_findings::{Answered, check_answers, number_at};
use dist_outside::{Desk, Limits, WorkError};
use dist_space::Space;
use std::alloc::Global;

/// What a first line of these numbers asks of.
fn header_of(numbers: &[u32]) -> RepairHeader
    ensures { IsHeaderOf numbers.now result }
{
    RepairHeader {
        limit: number_at(numbers, 0),
        package: number_at(numbers, 4).saturating_sub(1),
        most: number_at(numbers, 5),
    }
}

/// What is answered of an accepted file, or its first fault.
fn verdict_of(answered: Answered<Notes>) -> RepairVerdict
    ensures { IsVerdictOf answered result }
{
    match answered {
        Answered::Accepted(numbers, notes) => {
            RepairVerdict::Accepted(header_of(&numbers), notes.answer())
        }
        Answered::Refused(fault) => RepairVerdict::Refused(fault),
    }
}

/// Whether the file of that name is one of a repair over the space, read once, and what it answers. Whatever the desk tells of its
/// files, the answer is that of some text, and what an accepted file answers is true. A file that isn't there is a fault of reading.
pub fn check_repair<D: Desk>(
    alloc: Global,
    space: &Space,
    desk: &mut D,
    name: &str,
    limits: &Limits,
) -> Result<RepairVerdict, WorkError>
    requires idle { IsNotWriting (D.view desk.old).mode }
    requires limits { AreStated limits.now }
    ensures text { OfText (file_bytes (D.view desk.old).files name.now) (λ text. RepairAnswers space.now limits.now text result) }
    ensures some { (text : List ℕ) × RepairAnswers space.now limits.now text result }
    ensures says { IfOk result (VerdictSays space.now) }
    ensures present { OnceRead result (IsPresent (D.view desk.old).files name.now) }
    ensures cause { IfErr result (λ error. TextCause (D.view desk.old) (D.view desk.new) (ReadCertError.Work error)) }
    ensures only_reads { OnlyReads (D.view desk.old) (D.view desk.new) }
{
    accepted_repairs_hold();
    forms_are_clear();
    space.keeps_invariant();
    match check_answers(alloc, desk, &Repairing { alloc, space }, name, limits) {
        Ok(answered) => Ok(verdict_of(answered)),
        Err(error) => Err(error),
    }
}
