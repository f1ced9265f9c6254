//! What a kind of file does.
ghost use Rattle.std.specs.Prelude.{◌≡◌, ◌↔◌, ◌++◌, ◌∷◌, [], ℕ, List, IfErr, IfOk, IsTrue, OnOk, length};
ghost use Rattle.dist_outside.specs.declared.limits.Limits.{Limits};
ghost use Rattle.dist_cert.specs.FileLines.{IsOneLine};
ghost use Rattle.dist_findings.specs.AnswerFiles.{AnswerFile};
ghost use Rattle.dist_findings.specs.Findings.{IsFormed};
ghost use Rattle.dist_findings.specs.Start.{GivesInputs, HasRightNumbers, IsLargeInput};
ghost use Rattle.dist_findings.specs.declared.finding.Finding.{Finding};

use crate::finding::Finding;
use dist_clause::ClauseSet;
use dist_outside::{Limits, WorkError};
use std::alloc::{AllocError, Global};

/// A kind of file whose lines answer one question. It notes what lines find, and says once they decide the answer.
pub trait Answering {
    /// What is noted of the findings so far.
    type Notes: Drop;

    /// The files.
    ghost file: { Self → AnswerFile };

    /// The notes are those of these findings, behind a first line of these numbers.
    ghost noted: { Self → (numbers : List ℕ) → List Finding → Self.Notes → Type 0 };

    /// It can be asked for what files are judged by, within these limits.
    ghost ready: { Self → Limits → Type 0 };

    /// What first lines begin with.
    fn front(&self) -> &[u8]
        ensures value { result.now ≡ (file self.now).front }
        ensures one_line { IsOneLine (file self.now).front };

    /// That is one line. Does nothing.
    fn front_is_one_line(&self)
        ensures { IsOneLine (file self.now).front };

    /// How many numbers follow it.
    fn count(&self) -> usize
        ensures { result ≡ (file self.now).count };

    /// The clauses that files with these numbers are judged by, or none where the numbers are not right.
    fn inputs(
        &self,
        alloc: Global,
        numbers: &[u32],
        limits: &Limits,
    ) -> Result<Option<ClauseSet>, WorkError>
        requires ready { ready self.now limits.now }
        requires count { length numbers.now ≡ (file self.now).count }
        ensures ok { IfOk result (GivesInputs (file self.now) numbers.now limits.now) }
        ensures err { IfErr result (IsLargeInput ((file self.now).PassesFirst numbers.now limits.now)) };

    /// The notes of no findings, behind a first line whose numbers are right.
    fn begin(&self, alloc: Global, numbers: &[u32]) -> Result<Self::Notes, AllocError>
        requires { HasRightNumbers (file self.now) numbers.now }
        ensures { IfOk result (noted self.now numbers.now []) };

    /// Notes one finding more.
    fn note(&self, notes: &mut Self::Notes, finding: Finding) -> Result<(), AllocError>
        requires { IsFormed finding }
        ensures { (numbers : List ℕ) (found : List Finding) → noted self.now numbers found notes.old
            → OnOk result (noted self.now numbers (found ++ finding ∷ []) notes.new) };

    /// Whether the findings decide the answer.
    fn is_decided(&self, notes: &Self::Notes) -> bool
        ensures { (numbers : List ℕ) (found : List Finding) → noted self.now numbers found notes.now
            → IsTrue result ↔ (file self.now).IsDecided numbers found };
}
