//! What a kind of file does.
ghost use Rattle.std.specs.Prelude.{◌≡◌, false, IfOk, OnOk};
ghost use Rattle.dist_cert.specs.Form.{AreLiterals, KeepsRules};
ghost use Rattle.dist_cert.specs.declared.records.CertRecord.TheVariants.{Installation};
ghost use Rattle.dist_line_check.specs.Kinds.{IsDue, IsLineKind, IsNoted, LineKind, NotesClaim, NotesInstalled, NotesRefuted, NotesUndecided, TellsOwn, is_common};

use dist_cert::{CertCause, CertRecord, Literals, Numbers};
use std::alloc::{AllocError, Global};

/// A kind of file. It notes what lines find, and tells of claims and of the end.
pub trait Kind {
    /// What is noted of the lines so far.
    type Notes: Drop;

    /// The files, and what is noted.
    ghost files: { Self → LineKind Self.Notes };

    /// The laws of the kind. The call does nothing.
    fn laws(&self)
        ensures { IsLineKind (files self.now) };

    /// The first fault of a claim or of the end, if there is one.
    fn judge_claim(
        &self,
        alloc: Global,
        notes: &Self::Notes,
        step: &CertRecord,
    ) -> Result<Option<CertCause>, AllocError>
        requires form { KeepsRules step.now }
        requires own { is_common step.now ≡ false }
        ensures { IfOk result (TellsOwn (files self.now) notes.now step.now) };

    /// Notes that a question is refuted.
    fn note_refuted(
        &self,
        alloc: Global,
        notes: &mut Self::Notes,
        question: Literals,
    ) -> Result<(), AllocError>
        requires { AreLiterals question }
        ensures { OnOk result (NotesRefuted (files self.now) question notes.old notes.new) };

    /// Notes that a question is left undecided.
    fn note_undecided(
        &self,
        alloc: Global,
        notes: &mut Self::Notes,
        question: Literals,
    ) -> Result<(), AllocError>
        requires { AreLiterals question }
        ensures { OnOk result (NotesUndecided (files self.now) question notes.old notes.new) };

    /// Notes an installation, behind fewer lines than can be counted.
    fn note_installed(
        &self,
        alloc: Global,
        notes: &mut Self::Notes,
        variables: Numbers,
    ) -> Result<(), AllocError>
        requires form { KeepsRules (Installation variables) }
        requires count { IsNoted (files self.now) notes.old }
        ensures { OnOk result (NotesInstalled (files self.now) variables notes.old notes.new) };

    /// Notes a claim or the end, which has no fault.
    fn note_claim(
        &self,
        alloc: Global,
        notes: &mut Self::Notes,
        step: CertRecord,
    ) -> Result<(), AllocError>
        requires form { KeepsRules step }
        requires own { is_common step ≡ false }
        requires due { IsDue (files self.now) notes.old step }
        ensures { OnOk result (NotesClaim (files self.now) step notes.old notes.new) };
}
