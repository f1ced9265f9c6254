//! The check of a certificate's file.
ghost use Rattle.std.specs.Prelude.{IfErr, IfOk, List, ℕ};
ghost use Rattle.dist_outside.specs.DeskView.{OnlyReads};
ghost use Rattle.dist_outside.specs.Files.{IsNotWriting, IsPresent, file_bytes};
ghost use Rattle.dist_repo.specs.Size.{IsWithinSize};
ghost use Rattle.dist_check.specs.Answers.{Answers, VerdictMeans};
ghost use Rattle.dist_check.specs.Checking.{LargeCause};
ghost use Rattle.dist_check.specs.JudgedSpace.{ComesWithSpace, verdict_of};
ghost use Rattle.dist_judge.specs.Causes.{OnceRead, TextCause};
ghost use Rattle.dist_judge.specs.Judging.{OfText};
ghost use Rattle.dist_subject.specs.Limited.{AreStated};

use crate::checking::check_text;
use crate::verdict::{Judged, Verdict};
use dist_cert::ReadCertError;
use dist_outside::{Desk, Limits, Trouble, WorkError};
use dist_repo::Repository;
use std::alloc::Global;

/// Whether the file of that name is a certificate of the repository, read once. Whatever the desk tells of its files, the
/// answer is that of some text, what an accepted certificate claims is true, and its first line is one of the repository. A file that isn't there is
/// a fault of reading.
pub fn check<D: Desk>(
    alloc: Global,
    repo: &Repository,
    desk: &mut D,
    name: &str,
    limits: &Limits,
) -> Result<Verdict, WorkError>
    requires idle { IsNotWriting (D.view desk.old).mode }
    requires size { IsWithinSize repo.now }
    requires limits { AreStated limits.now }
    ensures text { OfText (file_bytes (D.view desk.old).files name.now) (λ text. Answers repo.now limits.now text result) }
    ensures some { (text : List ℕ) × Answers repo.now limits.now text result }
    ensures means { IfOk result (VerdictMeans repo.now) }
    ensures present { OnceRead result (IsPresent (D.view desk.old).files name.now) }
    ensures cause { IfErr result (λ error. TextCause (D.view desk.old) (D.view desk.new) (ReadCertError.Work error)) }
    ensures large { IfErr result (λ error. LargeCause repo.now limits.now (ReadCertError.Work error)) }
    ensures only_reads { OnlyReads (D.view desk.old) (D.view desk.new) }
{
    match check_with_space(alloc, repo, desk, name, false, limits) {
        Ok(judged) => Ok(judged.verdict),
        Err(error) => Err(error),
    }
}

/// The same verdict on the file of that name. Where the space is wanted, an accepted certificate on futures comes with the one
/// that it is judged by; it is then held while the lines are read.
pub fn check_with_space<D: Desk>(
    alloc: Global,
    repo: &Repository,
    desk: &mut D,
    name: &str,
    wants_space: bool,
    limits: &Limits,
) -> Result<Judged, WorkError>
    requires idle { IsNotWriting (D.view desk.old).mode }
    requires size { IsWithinSize repo.now }
    requires limits { AreStated limits.now }
    ensures text { OfText (file_bytes (D.view desk.old).files name.now) (λ text. Answers repo.now limits.now text (verdict_of result)) }
    ensures some { (text : List ℕ) × Answers repo.now limits.now text (verdict_of result) }
    ensures means { IfOk result (λ judged. VerdictMeans repo.now judged.verdict) }
    ensures space { IfOk result (λ judged. ComesWithSpace repo.now limits.now wants_space judged.verdict judged.space) }
    ensures present { OnceRead result (IsPresent (D.view desk.old).files name.now) }
    ensures cause { IfErr result (λ error. TextCause (D.view desk.old) (D.view desk.new) (ReadCertError.Work error)) }
    ensures large { IfErr result (λ error. LargeCause repo.now limits.now (ReadCertError.Work error)) }
    ensures only_reads { OnlyReads (D.view desk.old) (D.view desk.new) }
{
    match desk.start_read(name) {
        Ok(()) => {}
        Err(Trouble::Failed) => return Err(WorkError::ReadFault),
        Err(Trouble::NoMemory) => return Err(WorkError::NoMemory),
    }
    match check_text(alloc, repo, desk, wants_space, limits) {
        Ok(checked) => Ok(Judged {
            verdict: Verdict::Accepted(checked.header, checked.claims),
            space: checked.space,
        }),
        Err(ReadCertError::Bad(fault)) => Ok(Judged {
            verdict: Verdict::Refused(fault),
            space: None,
        }),
        Err(ReadCertError::Work(error)) => Err(error),
    }
}
