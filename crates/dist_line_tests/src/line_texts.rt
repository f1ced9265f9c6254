//! Whole texts, copied from one desk to another: each line is read as its value, and that value is written as the line.
ghost use Rattle.std.specs.Prelude.{IsTrue, OnOk};
ghost use Rattle.dist_cert.specs.Form.{KeepsRules};
ghost use Rattle.dist_outside.specs.Files.{IsNotWriting, IsReading, IsWriting};

use dist_cert::{
    CertKind, CertRecord, Header, ReadCertError, Reader, Writer, forms_are_clear, one_form,
    reader_is_exact, written_is_read,
};
use dist_outside::{Desk, Limits, MemoryDesk};
use dist_samples::TEN;
use std::alloc::Global;

/// A record of constant lists.
#[derive(Clone, Copy)]
pub(crate) enum Line {
    Question(&'static [(u32, bool)]),
    Derived(&'static [(u32, bool)], &'static [u32]),
    Refuted(&'static [u32]),
    Installation(&'static [u32]),
    Undecided,
    NotInstallable(u32),
    Unknown(u32),
    Strong(u32, &'static [u32], &'static [u32], &'static [u32]),
    Outdated(u32),
    Alive(u32, u32),
    Challenged(u32, &'static [u32], &'static [(u32, u32)], &'static [(u32, u32)]),
    End,
}

/// Whether a record is the one of constant lists.
fn is_line(step: &CertRecord, line: &Line) -> bool {
    match (step, line) {
        (CertRecord::Question(literals), Line::Question(wanted)) => literals.as_slice() == *wanted,
        (CertRecord::Derived(literals, hints), Line::Derived(wanted, numbers)) => {
            literals.as_slice() == *wanted && hints.as_slice() == *numbers
        }
        (CertRecord::Refuted(hints), Line::Refuted(wanted)) => hints.as_slice() == *wanted,
        (CertRecord::Installation(variables), Line::Installation(wanted)) => {
            variables.as_slice() == *wanted
        }
        (CertRecord::Undecided, Line::Undecided) => true,
        (CertRecord::NotInstallable(package), Line::NotInstallable(wanted)) => package == wanted,
        (CertRecord::Unknown(package), Line::Unknown(wanted)) => package == wanted,
        (
            CertRecord::Strong(package, installations, on, undecided),
            Line::Strong(wanted, found, needed, open),
        ) => {
            package == wanted
                && installations.as_slice() == *found
                && on.as_slice() == *needed
                && undecided.as_slice() == *open
        }
        (CertRecord::Outdated(package), Line::Outdated(wanted)) => package == wanted,
        (CertRecord::Alive(package, installation), Line::Alive(wanted, found)) => {
            package == wanted && installation == found
        }
        (
            CertRecord::Challenged(package, installations, by, undecided),
            Line::Challenged(wanted, found, pairs, open),
        ) => {
            package == wanted
                && installations.as_slice() == *found
                && by.as_slice() == *pairs
                && undecided.as_slice() == *open
        }
        (CertRecord::End, Line::End) => true,
        _ => false,
    }
}

/// How a text is read or written: the most bytes of a line and of the whole, where a limit above the stated one is the stated
/// one, in pieces of how many bytes, and which call of the desk fails.
pub(crate) type Way = (u64, u64, usize, u64);

/// Within the stated limits, in pieces of seven bytes, with no failure.
pub(crate) const PLAIN: Way = (u64::MAX, u64::MAX, 7, 0);

/// The limits of a way.
fn limits_of(way: &Way) -> Limits {
    let mut limits = Limits::stated();
    limits.record_line = limits.record_line.min(way.0);
    limits.certificate = limits.certificate.min(way.1);
    limits
}

/// The first line, and whether the lines behind it are the expected ones; or why the copy ended before.
pub(crate) type Copied = Result<(Header, bool), ReadCertError>;

/// Copies a line, and says whether it is the expected one.
fn copy_line<D: Desk>(
    writer: &mut Writer,
    target: &mut D,
    step: &CertRecord,
    wanted: Option<&Line>,
) -> Result<bool, ReadCertError>
    requires writing { IsWriting (D.view target.old).mode }
    requires form { KeepsRules step.now }
    ensures writing { OnOk result (IsWriting (D.view target.new).mode) }
{
    match writer.put(target, step) {
        Ok(()) => Ok(wanted.is_some_and(|line| is_line(step, line))),
        Err(error) => Err(ReadCertError::Work(error)),
    }
}

/// Copies a text of fewer than a hundred lines, line by line.
fn copy<D: Desk>(
    reader: &mut Reader,
    source: &mut D,
    writer: &mut Writer,
    target: &mut D,
    lines: &[Line],
) -> Copied
    requires reading { IsReading (D.view source.old).mode }
    requires writing { IsWriting (D.view target.old).mode }
{
    let header = reader.header(source)?;
    writer.put_header(target, &header)?;
    let mut are_lines = true;
    for place in 0..100 {
        let Some(step) = reader.next(source)? else {
            return Ok((header, are_lines && place == lines.len()));
        };
        let copied = copy_line(writer, target, &step, lines.get(place));
        drop(step);
        are_lines = copied? && are_lines;
    }
    Ok((header, false))
}

/// Puts a text on a desk that does nothing, and begins to read it, which it says.
fn begins_to_read(desk: &mut MemoryDesk, text: &[u8]) -> bool
    requires { IsNotWriting desk.old.mode }
    ensures { IsTrue result → IsReading desk.new.mode }
{
    desk.put("a", text).is_ok() && desk.start_read("a").is_ok()
}

/// What copying from a desk to another comes to, and what is written then.
fn copied_to(
    alloc: Global,
    source: &mut MemoryDesk,
    target: &mut MemoryDesk,
    lines: &[Line],
    ways: (&Way, &Way),
) -> Option<(Copied, Vec<u8>)>
    requires reading { IsReading source.old.mode }
    requires writing { IsWriting target.old.mode }
{
    let mut reader = Reader::new(alloc, &limits_of(ways.0));
    let mut writer = Writer::new(alloc, &limits_of(ways.1));
    let answer = copy(&mut reader, source, &mut writer, target, lines);
    drop(reader);
    drop(writer);
    Some((answer, target.get("a")?.to_vec(alloc).ok()?))
}

/// The same to a new desk.
fn copied_from(
    alloc: Global,
    source: &mut MemoryDesk,
    lines: &[Line],
    from: &Way,
    to: &Way,
) -> Option<(Copied, Vec<u8>)>
    requires { IsReading source.old.mode }
{
    if to.2 == 0 {
        return None;
    }
    let mut target = MemoryDesk::new(alloc, to.2, &[to.3]).ok()?;
    let copied = match target.create("a") {
        Ok(()) => copied_to(alloc, source, &mut target, lines, (from, to)),
        Err(_) => None,
    };
    drop(target);
    copied
}

/// What copying a text, which has these lines, comes to, and what is written then.
pub(crate) fn copied(
    alloc: Global,
    text: &[u8],
    lines: &[Line],
    from: &Way,
    to: &Way,
) -> Option<(Copied, Vec<u8>)> {
    if from.2 == 0 {
        return None;
    }
    let mut source = MemoryDesk::new(alloc, from.2, &[from.3]).ok()?;
    let copied = if begins_to_read(&mut source, text) {
        copied_from(alloc, &mut source, lines, from, to)
    } else {
        None
    };
    drop(source);
    copied
}

/// A text, in pieces of how many bytes it is read, its kind, whether its mode is essential, its limit and its numbers of
/// packages, variables and clauses, and the lines behind the first.
type Text = (
    &'static str,
    usize,
    CertKind,
    bool,
    [u32; 4],
    &'static [Line],
);

/// The lines of a certificate of two packages.
const LINES: &[Line] = &[
    Line::Question(&[(1, true)]),
    Line::Installation(&[1, 2]),
    Line::Question(&[(1, true), (2, false)]),
    Line::Refuted(&[1]),
    Line::Strong(1, &[1], &[2], &[]),
    Line::Question(&[(2, true)]),
    Line::Installation(&[2]),
    Line::Strong(2, &[2], &[], &[]),
    Line::End,
];

const STRONG: CertKind = CertKind::Strong;

const OUTDATED: CertKind = CertKind::Outdated;

const CHALLENGED: CertKind = CertKind::Challenged;

const TEXTS: &[Text] = &[
    (TEN, 1, STRONG, false, [10000, 2, 2, 1], LINES),
    (TEN, 7, STRONG, false, [10000, 2, 2, 1], LINES),
    (TEN, 4096, STRONG, false, [10000, 2, 2, 1], LINES),
    // The other forms.
    (
        "distfuture-certificate 1 outdated essential 10000 2 2 1\nd -3 0 10 9\nc 2 2 3 0 1 2 0 1 3\nu\nx 5\ny 6\no 8\na 9 4294967295\ne\n",
        7,
        OUTDATED,
        true,
        [10000, 2, 2, 1],
        &[
            Line::Derived(&[(3, false)], &[10, 9]),
            Line::Challenged(2, &[2, 3], &[(1, 2)], &[(1, 3)]),
            Line::Undecided,
            Line::NotInstallable(5),
            Line::Unknown(6),
            Line::Outdated(8),
            Line::Alive(9, 4_294_967_295),
            Line::End,
        ],
    ),
    // Lists of no item, and of several.
    (
        "distfuture-certificate 1 strong plain 10000 2 2 1\nq -1 3 2\nd 3 -2 0 10 9\nd 0\nf\nm\ns 1 2 3 0 4 0 5\ne\n",
        7,
        STRONG,
        false,
        [10000, 2, 2, 1],
        &[
            Line::Question(&[(1, false), (3, true), (2, true)]),
            Line::Derived(&[(3, true), (2, false)], &[10, 9]),
            Line::Derived(&[], &[]),
            Line::Refuted(&[]),
            Line::Installation(&[]),
            Line::Strong(1, &[2, 3], &[4], &[5]),
            Line::End,
        ],
    ),
    // Other first lines.
    (
        "distfuture-certificate 1 challenged plain 10000 2 2 1\ne\n",
        7,
        CHALLENGED,
        false,
        [10000, 2, 2, 1],
        &[Line::End],
    ),
    (
        "distfuture-certificate 1 challenged essential 1000000 0 0 4294967295\ne\n",
        7,
        CHALLENGED,
        true,
        [1_000_000, 0, 0, 4_294_967_295],
        &[Line::End],
    ),
    (
        "distfuture-certificate 1 outdated plain 1 2 3 4\ne\n",
        7,
        OUTDATED,
        false,
        [1, 2, 3, 4],
        &[Line::End],
    ),
    (
        "distfuture-certificate 1 outdated essential 5 300 1000 0\na 1 20\nx 300\ne\n",
        7,
        OUTDATED,
        true,
        [5, 300, 1000, 0],
        &[Line::Alive(1, 20), Line::NotInstallable(300), Line::End],
    ),
];

/// The first line of a row.
fn header_of(row: &Text) -> Header {
    let [limit, packages, variables, clauses] = row.4;
    Header {
        kind: row.2,
        limit,
        packages,
        variables,
        clauses,
        essential: row.3,
    }
}

/// Whether a text has the lines of its row, and is copied whole.
fn is_copied(alloc: Global, row: &Text) -> bool {
    let text = row.0.as_bytes();
    let from = (u64::MAX, u64::MAX, row.1, 0);
    match copied(alloc, text, row.5, &from, &PLAIN) {
        Some((answer, written)) => {
            let whole = written.as_slice() == text;
            drop(written);
            whole && answer == Ok((header_of(row), true))
        }
        None => false,
    }
}

/// The first text that is copied otherwise.
fn wrong_copy(alloc: Global, rows: &[Text]) -> Option<&'static str> {
    for row in rows {
        if !is_copied(alloc, row) {
            return Some(row.0);
        }
    }
    None
}

#[test]
fn texts_are_copied(rt: HostRuntime) {
    assert_eq!(rt; wrong_copy(rt.alloc(), TEXTS), None);
}

#[test]
fn the_laws_hold() {
    one_form();
    forms_are_clear();
    written_is_read();
    reader_is_exact();
}
