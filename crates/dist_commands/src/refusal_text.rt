//! The line on `err` of a run that was given up. It takes no memory.
ghost use Rattle.std.specs.Prelude.{◌≡◌, ◌++◌, codes};
ghost use Rattle.dist_commands.specs.Refusal.{limit_text, reason_text, refusal_text};
ghost use Rattle.dist_commands.specs.Writes.{Writes};

use crate::cause_text::cause_text;
use crate::fault_text::write_kind;
use crate::journal_text::journal_fault_text;
use crate::pieces::write_pieces;
use crate::refusal::Refusal;
use dist_cert::CertFault;
use dist_journal::JournalFault;
use dist_outside::{Sink, What, WorkError, sink_grows, write_whole};
use dist_package::Fault;
use itoa::Buffer;

/// The name of a limit.
fn limit_text(what: What) -> &'static [u8]
    ensures { result.now ≡ limit_text what }
{
    match what {
        What::Bytes => b"Bytes",
        What::Stanzas => b"Stanzas",
        What::Variables => b"Variables",
        What::Clauses => b"Clauses",
        What::Literals => b"Literals",
        What::Lines => b"Lines",
        What::LineLiterals => b"LineLiterals",
        What::Certificate => b"Certificate",
        What::RecordLine => b"RecordLine",
    }
}

/// Writes what is wrong with a Packages file.
fn write_fault<E: Sink>(err: &mut E, fault: Fault) -> Result<(), WorkError>
    ensures { Writes (reason_text (Refusal.BadPackages fault)) result (E.view err.old) (E.view err.new) }
{
    let mut buffer = Buffer::new();
    let line = buffer.format(fault.line).as_bytes();
    sink_grows();
    match write_pieces(err, &[b"bad packages at line ", line, b": "]) {
        Ok(()) => write_kind(err, fault.kind),
        Err(error) => Err(error),
    }
}

/// Writes what is wrong with a certificate.
fn write_cert_fault<E: Sink>(err: &mut E, fault: CertFault) -> Result<(), WorkError>
    ensures { Writes (reason_text (Refusal.CertificateRefused fault)) result (E.view err.old) (E.view err.new) }
{
    let mut buffer = Buffer::new();
    let place = buffer.format(fault.line).as_bytes();
    write_pieces(
        err,
        &[
            b"certificate refused at line ",
            place,
            b": ",
            cause_text(fault.cause),
        ],
    )
}

/// Writes what is wrong with a journal.
fn write_journal_fault<E: Sink>(
    err: &mut E,
    line: u64,
    fault: JournalFault,
) -> Result<(), WorkError>
    ensures { Writes (reason_text (Refusal.BadJournal line fault)) result (E.view err.old) (E.view err.new) }
{
    let mut buffer = Buffer::new();
    let place = buffer.format(line).as_bytes();
    write_pieces(
        err,
        &[
            b"bad journal at line ",
            place,
            b": ",
            journal_fault_text(fault),
        ],
    )
}

/// Writes what a line says after the program's name.
fn write_reason<E: Sink>(err: &mut E, refusal: Refusal) -> Result<(), WorkError>
    ensures { Writes (reason_text refusal) result (E.view err.old) (E.view err.new) }
{
    match refusal {
        Refusal::BadWords => write_whole(err, b"bad command line"),
        Refusal::BadPackages(fault) => write_fault(err, fault),
        Refusal::CertificateRefused(fault) => write_cert_fault(err, fault),
        Refusal::ReadFault => write_whole(err, b"read fault"),
        Refusal::WriteFault => write_whole(err, b"write fault"),
        Refusal::NoMemory => write_whole(err, b"no memory"),
        Refusal::TooLarge(what) => write_pieces(err, &[b"too large: ", limit_text(what)]),
        Refusal::BadList(line) => {
            let mut buffer = Buffer::new();
            write_pieces(err, &[b"bad list at line ", buffer.format(line).as_bytes()])
        }
        Refusal::BadJournal(line, fault) => write_journal_fault(err, line, fault),
        Refusal::NoSuchPackage => write_whole(err, b"no such package"),
    }
}

/// Writes the line of a refusal, up to where the sink refuses it.
pub fn write_refusal<E: Sink>(err: &mut E, refusal: Refusal) -> Result<(), WorkError>
    ensures { Writes (refusal_text refusal) result (E.view err.old) (E.view err.new) }
{
    sink_grows();
    match write_whole(err, b"distfuture: ") {
        Ok(()) => write_ended(err, refusal),
        Err(error) => Err(error),
    }
}

/// Writes what a line says after the program's name, and its end.
fn write_ended<E: Sink>(err: &mut E, refusal: Refusal) -> Result<(), WorkError>
    ensures { Writes (reason_text refusal ++ codes "\n") result (E.view err.old) (E.view err.new) }
{
    sink_grows();
    match write_reason(err, refusal) {
        Ok(()) => write_whole(err, b"\n"),
        Err(error) => Err(error),
    }
}
