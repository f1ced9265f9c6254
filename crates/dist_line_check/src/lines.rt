//! One line.
ghost use Rattle.std.specs.Prelude.{◌≡◌, false, true, IfErr, IfOk, None, OnOk};
ghost use Rattle.std.specs.Option.{ForSome};
ghost use Rattle.dist_cert.specs.Form.{KeepsRules};
ghost use Rattle.dist_line_check.specs.Checker.{StopsAt, Tells, behind};
ghost use Rattle.dist_line_check.specs.Kinds.{IsDue, IsNext, IsSomewhere, LineStops, NotesClaim, NotesLine, NotesRefuted, NotesUndecided, TakesLine, TellsLine, is_common};

use crate::checker::Checker;
use crate::kind::Kind;
use dist_cert::{CertCause, CertFault, CertRecord, ReadCertError};
use dist_outside::WorkError;
use std::alloc::{AllocError, Global};

/// What is kept of the lines before a line.
#[derive(Drop)]
pub struct Kept<N> {
    pub checker: Checker,
    pub notes: N,
}

/// Whether a line is judged alike in each kind of file: it is no claim, and not the end.
fn is_common(step: &CertRecord) -> bool
    ensures { result ≡ is_common step.now }
{
    match step {
        CertRecord::Question(_)
        | CertRecord::Derived(_, _)
        | CertRecord::Refuted(_)
        | CertRecord::Installation(_)
        | CertRecord::Undecided => true,
        CertRecord::NotInstallable(_)
        | CertRecord::Unknown(_)
        | CertRecord::Strong(_, _, _, _)
        | CertRecord::Outdated(_)
        | CertRecord::Alive(_, _)
        | CertRecord::Challenged(_, _, _, _)
        | CertRecord::End => false,
    }
}

/// The first fault of a line, if there is one.
fn judge<K: Kind>(
    alloc: Global,
    kind: &K,
    kept: &mut Kept<K::Notes>,
    step: &CertRecord,
) -> Result<Option<CertCause>, AllocError>
    requires form { KeepsRules step.now }
    ensures told { IfOk result (TellsLine (K.files kind.now) kept.old.checker kept.old.notes step.now) }
    ensures common { IfOk result (λ found. is_common step.now ≡ true → Tells kept.old.checker step.now found) }
    ensures same { kept.new ≡ kept.old }
{
    kind.laws();
    if is_common(step) {
        kept.checker.judge(step)
    } else {
        kind.judge_claim(alloc, &kept.notes, step)
    }
}

/// Notes that the question that is open, if there is one, is refuted.
fn close_refuted<K: Kind>(
    alloc: Global,
    kind: &K,
    kept: &mut Kept<K::Notes>,
) -> Result<(), AllocError>
    ensures kept { OnOk result (kept.new.checker ≡ record kept.old.checker { question = None }) }
    ensures noted { OnOk result (ForSome kept.old.checker.question (λ q. NotesRefuted (K.files kind.now) q.assumptions kept.old.notes kept.new.notes)) }
{
    match kept.checker.close() {
        Some(question) => kind.note_refuted(alloc, &mut kept.notes, question),
        None => Ok(()),
    }
}

/// Notes that the question that is open, if there is one, is left undecided.
fn close_undecided<K: Kind>(
    alloc: Global,
    kind: &K,
    kept: &mut Kept<K::Notes>,
) -> Result<(), AllocError>
    ensures kept { OnOk result (kept.new.checker ≡ record kept.old.checker { question = None }) }
    ensures noted { OnOk result (ForSome kept.old.checker.question (λ q. NotesUndecided (K.files kind.now) q.assumptions kept.old.notes kept.new.notes)) }
{
    match kept.checker.close() {
        Some(question) => kind.note_undecided(alloc, &mut kept.notes, question),
        None => Ok(()),
    }
}

/// Takes a claim or the end, which has no fault.
fn take_claim<K: Kind>(
    alloc: Global,
    kind: &K,
    kept: &mut Kept<K::Notes>,
    step: CertRecord,
) -> Result<(), AllocError>
    requires form { KeepsRules step }
    requires own { is_common step ≡ false }
    requires due { IsDue (K.files kind.now) kept.old.notes step }
    ensures kept { OnOk result (kept.new.checker ≡ record kept.old.checker { question = None }) }
    ensures noted { OnOk result (NotesClaim (K.files kind.now) step kept.old.notes kept.new.notes) }
{
    drop(kept.checker.close());
    kind.note_claim(alloc, &mut kept.notes, step)
}

/// Takes a line that has no fault.
fn take<K: Kind>(
    alloc: Global,
    kind: &K,
    kept: &mut Kept<K::Notes>,
    step: CertRecord,
) -> Result<(), WorkError>
    requires form { KeepsRules step }
    requires common { is_common step ≡ true → Tells kept.old.checker step None }
    requires next { IsNext (K.files kind.now) kept.old.checker kept.old.notes step }
    ensures kept { OnOk result (kept.new.checker ≡ behind kept.old.checker step) }
    ensures noted { OnOk result (NotesLine (K.files kind.now) kept.old.checker step kept.old.notes kept.new.notes) }
    ensures err { IfErr result (StopsAt kept.old.checker step) }
{
    kind.laws();
    match step {
        CertRecord::Question(literals) => {
            kept.checker.open(literals);
            Ok(())
        }
        CertRecord::Derived(literals, _) => kept.checker.derive(literals.as_slice()),
        CertRecord::Refuted(_) => Ok(close_refuted(alloc, kind, kept)?),
        CertRecord::Installation(variables) => {
            Ok(kind.note_installed(alloc, &mut kept.notes, variables)?)
        }
        CertRecord::Undecided => Ok(close_undecided(alloc, kind, kept)?),
        CertRecord::NotInstallable(_)
        | CertRecord::Unknown(_)
        | CertRecord::Strong(_, _, _, _)
        | CertRecord::Outdated(_)
        | CertRecord::Alive(_, _)
        | CertRecord::Challenged(_, _, _, _)
        | CertRecord::End => Ok(take_claim(alloc, kind, kept, step)?),
    }
}

/// Takes a line of this number, or tells its first fault.
pub(crate) fn take_line<K: Kind>(
    alloc: Global,
    kind: &K,
    kept: &mut Kept<K::Notes>,
    line: u64,
    step: CertRecord,
) -> Result<(), ReadCertError>
    requires form { KeepsRules step }
    requires somewhere { IsSomewhere (K.files kind.now) kept.old.checker kept.old.notes }
    ensures ok { OnOk result (TakesLine (K.files kind.now) kept.old.checker kept.old.notes step kept.new.checker kept.new.notes) }
    ensures err { IfErr result (LineStops (K.files kind.now) kept.old.checker kept.old.notes step line) }
{
    if let Some(cause) = judge(alloc, kind, kept, &step)? {
        return Err(ReadCertError::Bad(CertFault { line, cause }));
    }
    match take(alloc, kind, kept, step) {
        Ok(()) => {
            kept.checker.keep_limits();
            Ok(())
        }
        Err(error) => Err(ReadCertError::Work(error)),
    }
}
