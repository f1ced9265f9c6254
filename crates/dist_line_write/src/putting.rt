//! Lines that are put behind those before.
ghost use Rattle.std.specs.Prelude.{◌≡◌, ◌<◌, ◌≤◌, IfErr, IfOk, OnOk, length};
ghost use Rattle.dist_outside.specs.DeskView.{FileGrew};
ghost use Rattle.dist_outside.specs.Files.{IsWriting};
ghost use Rattle.dist_solver.specs.Derived.{line_at};
ghost use Rattle.dist_cert.specs.Form.{AreFromOne, KeepsRules, record_text};
ghost use Rattle.dist_cert.specs.FileLines.{lines_text};
ghost use Rattle.dist_cert.specs.Writing.{ended};
ghost use Rattle.dist_line_write.specs.Script.{Grows, PutAll, PutAllStops, PutMore, PutStops};
ghost use Rattle.dist_line_write.specs.Words.{AreDerived, derived_line, derived_lines};

use crate::words::words_of;
use dist_cert::{CertRecord, Items, Writer};
use dist_derive::Log;
use dist_outside::{Desk, WorkError, file_grows};
use dist_solver::Derived;
use std::alloc::{AllocError, Global};

/// Puts a line.
pub(crate) fn put_line<D: Desk>(
    writer: &mut Writer,
    desk: &mut D,
    step: &CertRecord,
) -> Result<(), WorkError>
    requires writing { IsWriting (D.view desk.old).mode }
    requires form { KeepsRules step.now }
    ensures grew { OnOk result (FileGrew (ended (record_text step.now)) (D.view desk.old) (D.view desk.new)) }
    ensures ok { OnOk result (PutMore writer.old writer.new step.now) }
    ensures err { IfErr result (PutStops writer.old step.now (D.view desk.old) (D.view desk.new)) }
    ensures grows { Grows (D.view desk.old) (D.view desk.new) }
{
    file_grows();
    writer.put(desk, step)
}

/// The line of the derived clause at a place.
fn derived_record(
    alloc: Global,
    log: &Log,
    derived: &Derived,
    place: usize,
) -> Result<CertRecord, AllocError>
    requires place { place < length derived.now }
    requires from_one { 1 ≤ (line_at derived.now place).line }
    requires to_len { (line_at derived.now place).line ≤ length log.now.clauses }
    requires hints { AreFromOne (line_at derived.now place).hints }
    ensures value { IfOk result (λ step. step ≡ derived_line log.now.clauses (line_at derived.now place)) }
    ensures form { IfOk result KeepsRules }
{
    let clause = log.clause(derived.line(place));
    let words = words_of(alloc, clause)?;
    let hints = derived.hints(place).to_vec(alloc)?;
    Ok(CertRecord::Derived(Items::from_vec(words), Items::from_vec(hints)))
}

/// Puts the line of the derived clause at a place.
fn put_derived_at<D: Desk>(
    alloc: Global,
    log: &Log,
    derived: &Derived,
    place: usize,
    writer: &mut Writer,
    desk: &mut D,
) -> Result<(), WorkError>
    requires writing { IsWriting (D.view desk.old).mode }
    requires derived { AreDerived log.now.clauses derived.now }
    requires place { place < length derived.now }
    ensures grew { OnOk result (FileGrew (ended (record_text (derived_line log.now.clauses (line_at derived.now place)))) (D.view desk.old) (D.view desk.new)) }
    ensures ok { OnOk result (PutMore writer.old writer.new (derived_line log.now.clauses (line_at derived.now place))) }
    ensures err { IfErr result (PutStops writer.old (derived_line log.now.clauses (line_at derived.now place)) (D.view desk.old) (D.view desk.new)) }
    ensures grows { Grows (D.view desk.old) (D.view desk.new) }
{
    file_grows();
    let step = derived_record(alloc, log, derived, place)?;
    put_line(writer, desk, &step)
}

/// Puts the lines of all derived clauses.
pub(crate) fn put_derived<D: Desk>(
    alloc: Global,
    log: &Log,
    derived: &Derived,
    writer: &mut Writer,
    desk: &mut D,
) -> Result<(), WorkError>
    requires writing { IsWriting (D.view desk.old).mode }
    requires derived { AreDerived log.now.clauses derived.now }
    ensures grew { OnOk result (FileGrew (lines_text (derived_lines log.now.clauses derived.now)) (D.view desk.old) (D.view desk.new)) }
    ensures ok { OnOk result (PutAll writer.old writer.new (derived_lines log.now.clauses derived.now)) }
    ensures err { IfErr result (PutAllStops writer.old (derived_lines log.now.clauses derived.now) (D.view desk.old) (D.view desk.new)) }
    ensures grows { Grows (D.view desk.old) (D.view desk.new) }
{
    file_grows();
    for place in 0..derived.len() {
        put_derived_at(alloc, log, derived, place, writer, desk)?;
    }
    Ok(())
}
