//! Files whose lines answer one question, as a kind of file that is checked line by line.
ghost use Rattle.std.specs.Prelude.{◌≡◌, ◌↔◌, IsTrue};
ghost use Rattle.dist_findings.specs.AnswerLines.{TellsDecided, answer_lines, any_future};

use crate::answering::Answering;
use crate::finding::Finding;
use dist_cert::{CertCause, CertRecord, Literals, Numbers, forms_are_clear};
use dist_line_check::{FutureClauses, Kind};
use std::alloc::{AllocError, Global};

/// The files of a kind whose lines answer one question.
#[derive(Drop)]
pub(crate) struct Files<'a, A: Answering> {
    pub(crate) answering: &'a A,
}

/// Each set of variables stands for a future: no clauses say what one is.
pub(crate) fn any_future() -> FutureClauses
    ensures { result ≡ any_future }
{
    FutureClauses {
        upto: 0,
        behind: 0,
        last: 0,
    }
}

/// Whether a line is the end.
fn is_end(step: &CertRecord) -> bool
    ensures { IsTrue result ↔ (step.now ≡ CertRecord.End) }
{
    match step {
        CertRecord::End => true,
        _ => false,
    }
}

/// Of the line of the end, where the answer is decided or not.
fn judge_end(decided: bool) -> Option<CertCause>
    ensures { TellsDecided decided result }
{
    if decided {
        None
    } else {
        Some(CertCause::Incomplete)
    }
}

impl<'a, A: Answering> Kind for Files<'a, A> {
    type Notes = A::Notes;

    ghost files = { λ f. answer_lines (A.file f.answering.now) (A.noted f.answering.now) };

    fn laws(&self) {
        forms_are_clear();
        self.answering.front_is_one_line();
    }

    fn judge_claim(
        &self,
        _alloc: Global,
        notes: &A::Notes,
        step: &CertRecord,
    ) -> Result<Option<CertCause>, AllocError> {
        if is_end(step) {
            Ok(judge_end(self.answering.is_decided(notes)))
        } else {
            Ok(Some(CertCause::WrongClaim))
        }
    }

    fn note_refuted(
        &self,
        _alloc: Global,
        notes: &mut A::Notes,
        question: Literals,
    ) -> Result<(), AllocError> {
        self.answering.note(notes, Finding::Refuted(question))
    }

    fn note_undecided(
        &self,
        _alloc: Global,
        notes: &mut A::Notes,
        question: Literals,
    ) -> Result<(), AllocError> {
        self.answering.note(notes, Finding::LeftUndecided(question))
    }

    fn note_installed(
        &self,
        _alloc: Global,
        notes: &mut A::Notes,
        variables: Numbers,
    ) -> Result<(), AllocError> {
        self.answering.note(notes, Finding::Installed(variables))
    }

    fn note_claim(
        &self,
        _alloc: Global,
        _notes: &mut A::Notes,
        _step: CertRecord,
    ) -> Result<(), AllocError> {
        Ok(())
    }
}
