//! The check of a file.
ghost use Rattle.std.specs.Prelude.{◌≤◌, IfErr, List, ℕ};
ghost use Rattle.dist_outside.specs.DeskView.{OnlyReads};
ghost use Rattle.dist_outside.specs.Files.{IsNotWriting, IsPresent, file_bytes};
ghost use Rattle.dist_cert.specs.declared.faults.ReadCertError.{ReadCertError};
ghost use Rattle.dist_judge.specs.Causes.{OnceRead, TextCause};
ghost use Rattle.dist_judge.specs.Judging.{OfText};
ghost use Rattle.dist_base.specs.declared.TheConstants.{MAX_LINES, MAX_LINE_LITERALS};
ghost use Rattle.dist_findings.specs.FileAnswers.{FileAnswers};

use crate::answering::Answering;
use crate::checking::check_text;
use dist_cert::{CertFault, ReadCertError};
use dist_outside::{Desk, Limits, Trouble, WorkError};
use std::alloc::Global;

/// Whether a file is accepted.
#[derive(Drop)]
pub enum Answered<N> {
    /// With the numbers of the first line, and what was noted of its findings.
    Accepted(Vec<u32>, N),
    /// With the first fault.
    Refused(CertFault),
}

/// Whether the file of that name is one of the kind, read once. Whatever the desk tells of its files, the answer is that of some
/// text. A file that isn't there is a fault of reading.
pub fn check_answers<D: Desk, A: Answering>(
    alloc: Global,
    desk: &mut D,
    answering: &A,
    name: &str,
    limits: &Limits,
) -> Result<Answered<A::Notes>, WorkError>
    requires idle { IsNotWriting (D.view desk.old).mode }
    requires ready { A.ready answering.now limits.now }
    requires lines { limits.now.lines ≤ MAX_LINES }
    requires line_literals { limits.now.line_literals ≤ MAX_LINE_LITERALS }
    ensures text { OfText (file_bytes (D.view desk.old).files name.now) (λ text. FileAnswers (A.file answering.now) limits.now (A.noted answering.now) text result) }
    ensures some { (text : List ℕ) × FileAnswers (A.file answering.now) limits.now (A.noted answering.now) text result }
    ensures present { OnceRead result (IsPresent (D.view desk.old).files name.now) }
    ensures cause { IfErr result (λ error. TextCause (D.view desk.old) (D.view desk.new) (ReadCertError.Work error)) }
    ensures only_reads { OnlyReads (D.view desk.old) (D.view desk.new) }
{
    match desk.start_read(name) {
        Ok(()) => {}
        Err(Trouble::Failed) => return Err(WorkError::ReadFault),
        Err(Trouble::NoMemory) => return Err(WorkError::NoMemory),
    }
    match check_text(alloc, desk, answering, limits) {
        Ok(checked) => Ok(Answered::Accepted(checked.numbers, checked.notes)),
        Err(ReadCertError::Bad(fault)) => Ok(Answered::Refused(fault)),
        Err(ReadCertError::Work(error)) => Err(error),
    }
}
