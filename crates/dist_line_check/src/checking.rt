//! One pass over the lines of a file behind its first one.
ghost use Rattle.std.specs.Prelude.{IfErr};
ghost use Rattle.dist_outside.specs.DeskView.{OnlyReads};
ghost use Rattle.dist_outside.specs.Files.{IsReading};
ghost use Rattle.dist_cert.specs.Reading.{text_left};
ghost use Rattle.dist_judge.specs.Causes.{TextCause};
ghost use Rattle.dist_line_check.specs.Checked.{AnswersSome, AnswersTold, IsBegun};

use crate::kind::Kind;
use crate::lines::{Kept, take_line};
use dist_cert::{ReadCertError, Reader};
use dist_outside::Desk;
use std::alloc::Global;

/// Takes all lines behind the first one. What is told of a text is told of each that these lines may be of.
fn take_lines<D: Desk, K: Kind>(
    alloc: Global,
    desk: &mut D,
    kind: &K,
    reader: &mut Reader,
    kept: &mut Kept<K::Notes>,
) -> Result<(), ReadCertError>
    requires reading { IsReading (D.view desk.old).mode }
    requires begun { IsBegun (K.files kind.now) reader.old kept.old.checker kept.old.notes }
    ensures text { AnswersTold (K.files kind.now) reader.old (text_left reader.old (D.view desk.old)) kept.old.checker kept.old.notes (λ _. kept.new.notes) result }
    ensures some { AnswersSome (K.files kind.now) reader.old kept.old.checker kept.old.notes (λ _. kept.new.notes) result }
    ensures cause { IfErr result (TextCause (D.view desk.old) (D.view desk.new)) }
    ensures only_reads { OnlyReads (D.view desk.old) (D.view desk.new) }
{
    kind.laws();
    'lines: loop {
        reader.keeps_invariant();
        let Some(step) = reader.next(desk)? else {
            return Ok(());
        };
        let line = reader.lines();
        take_line(alloc, kind, kept, line, step)?;
    }
}

/// What is noted of all lines behind the first one, with what is kept behind that one.
pub fn check_lines<D: Desk, K: Kind>(
    alloc: Global,
    desk: &mut D,
    kind: &K,
    reader: &mut Reader,
    kept: Kept<K::Notes>,
) -> Result<K::Notes, ReadCertError>
    requires reading { IsReading (D.view desk.old).mode }
    requires begun { IsBegun (K.files kind.now) reader.old kept.checker kept.notes }
    ensures text { AnswersTold (K.files kind.now) reader.old (text_left reader.old (D.view desk.old)) kept.checker kept.notes (λ notes. notes) result }
    ensures some { AnswersSome (K.files kind.now) reader.old kept.checker kept.notes (λ notes. notes) result }
    ensures cause { IfErr result (TextCause (D.view desk.old) (D.view desk.new)) }
    ensures only_reads { OnlyReads (D.view desk.old) (D.view desk.new) }
{
    let mut kept = kept;
    match take_lines(alloc, desk, kind, reader, &mut kept) {
        Ok(()) => {
            let Kept { checker, notes } = kept;
            drop(checker);
            Ok(notes)
        }
        Err(error) => {
            drop(kept);
            Err(error)
        }
    }
}
