//! The check of an explanation's file.
ghost use Rattle.std.specs.Prelude.{◌≡◌, IfErr, IfOk, List, ℕ};
ghost use Rattle.dist_outside.specs.DeskView.{OnlyReads};
ghost use Rattle.dist_outside.specs.Files.{IsNotWriting, IsPresent, file_bytes};
ghost use Rattle.dist_cert.specs.declared.faults.ReadCertError.{ReadCertError};
ghost use Rattle.dist_judge.specs.Causes.{OnceRead, TextCause};
ghost use Rattle.dist_judge.specs.Judging.{OfText};
ghost use Rattle.dist_repo.specs.Size.{IsWithinSize};
ghost use Rattle.dist_subject.specs.Limited.{AreStated};
ghost use Rattle.dist_explain.specs.Verdicts.{ExplanationAnswers, LargeCause, VerdictMeans, header_by};

use crate::explaining::Explaining;
use crate::laws::accepted_explanations_hold;
use crate::verdict::{ExplainHeader, ExplainVerdict};
use dist_cert::forms_are_clear;
use dist_findings::{Answered, check_answers, number_at};
use dist_outside::{Desk, Limits, WorkError};
use dist_repo::Repository;
use std::alloc::Global;

/// The header of a first line.
fn header_by(numbers: &[u32]) -> ExplainHeader
    ensures { result ≡ header_by numbers.now }
{
    ExplainHeader {
        limit: number_at(numbers, 0),
        package: number_at(numbers, 3).saturating_sub(1),
    }
}

/// Whether the file of that name explains a package of the repository, read once. Whatever the desk tells of its files, the answer
/// is that of some text, and what an accepted file says of the package is true. A file that isn't there is a fault of reading.
pub fn check_explained<D: Desk>(
    alloc: Global,
    repo: &Repository,
    desk: &mut D,
    name: &str,
    limits: &Limits,
) -> Result<ExplainVerdict, WorkError>
    requires idle { IsNotWriting (D.view desk.old).mode }
    requires size { IsWithinSize repo.now }
    requires limits { AreStated limits.now }
    ensures text { OfText (file_bytes (D.view desk.old).files name.now) (λ text. ExplanationAnswers repo.now limits.now text result) }
    ensures some { (text : List ℕ) × ExplanationAnswers repo.now limits.now text result }
    ensures means { IfOk result (VerdictMeans repo.now) }
    ensures present { OnceRead result (IsPresent (D.view desk.old).files name.now) }
    ensures cause { IfErr result (λ error. TextCause (D.view desk.old) (D.view desk.new) (ReadCertError.Work error)) }
    ensures large { IfErr result (LargeCause repo.now limits.now) }
    ensures only_reads { OnlyReads (D.view desk.old) (D.view desk.new) }
{
    forms_are_clear();
    accepted_explanations_hold();
    repo.keeps_invariant();
    let explaining = Explaining { repo };
    match check_answers(alloc, desk, &explaining, name, limits) {
        Ok(Answered::Accepted(numbers, notes)) => {
            let header = header_by(&numbers);
            drop(numbers);
            Ok(ExplainVerdict::Accepted(header, notes.answer()))
        }
        Ok(Answered::Refused(fault)) => Ok(ExplainVerdict::Refused(fault)),
        Err(error) => Err(error),
    }
}
