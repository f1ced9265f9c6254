//! How a row runs: the top call on a desk and sinks in memory, and what is looked at afterwards.
ghost use Rattle.std.specs.Prelude.{IfOk};
ghost use Rattle.dist_outside.specs.Files.{IsNotWriting};

use crate::{After, Row, Table};
use dist_app::{Status, run, run_with};
use dist_outside::{MemoryDesk, MemorySink, What};
use dist_samples::{is_held, limited, words_of};
use std::alloc::{AllocError, Global};

/// The most that a call of the desk moves.
const DESK_STEP: usize = 7;

/// The most that a write to `out` or `err` takes.
pub const SINK_STEP: usize = 10;

/// How a run ended.
#[derive(Drop)]
pub struct Ended {
    pub status: Status,
    pub desk: MemoryDesk,
    pub out: MemorySink,
    pub err: MemorySink,
}

/// Puts the files of a row on a desk.
fn put_files(desk: &mut MemoryDesk, row: &Row) -> Result<(), AllocError>
    requires { IsNotWriting desk.old.mode }
    ensures { IsNotWriting desk.new.mode }
{
    desk.put("packages", row.packages.as_bytes())?;
    desk.put("list", row.list.as_bytes())?;
    if let Some(cert) = row.cert {
        desk.put("cert", cert.as_bytes())?;
    }
    Ok(())
}

/// The desk of a row, with its files.
pub fn desk_of(alloc: Global, row: &Row) -> Result<MemoryDesk, AllocError>
    ensures { IfOk result (λ desk. IsNotWriting desk.mode) }
{
    let mut desk = MemoryDesk::new(alloc, DESK_STEP, &[row.failing.desk])?;
    match put_files(&mut desk, row) {
        Ok(()) => Ok(desk),
        Err(error) => {
            drop(desk);
            Err(error)
        }
    }
}

/// The sinks of a row.
fn sinks_of(alloc: Global, row: &Row) -> Result<(MemorySink, MemorySink), AllocError> {
    let out = MemorySink::new(alloc, SINK_STEP, &[row.failing.out])?;
    match MemorySink::new(alloc, SINK_STEP, &[row.failing.err]) {
        Ok(err) => Ok((out, err)),
        Err(error) => {
            drop(out);
            Err(error)
        }
    }
}

/// The top call at the stated limits, or at those but for one.
fn called(
    alloc: Global,
    words: &[String],
    desk: &mut MemoryDesk,
    out: &mut MemorySink,
    err: &mut MemorySink,
    at_most: Option<(What, u32)>,
) -> Status
    requires { IsNotWriting desk.old.mode }
{
    match at_most {
        Some((what, number)) => run_with(alloc, words, desk, out, err, &limited(what, number)),
        None => run(alloc, words, desk, out, err),
    }
}

/// Runs words over the desk of a row, and says how it ended.
fn run_on(
    alloc: Global,
    row: &Row,
    words: &[String],
    mut desk: MemoryDesk,
) -> Result<Ended, AllocError>
    requires { IsNotWriting desk.mode }
{
    match sinks_of(alloc, row) {
        Ok((mut out, mut err)) => Ok(Ended {
            status: called(alloc, words, &mut desk, &mut out, &mut err, row.at_most),
            desk,
            out,
            err,
        }),
        Err(error) => {
            drop(desk);
            Err(error)
        }
    }
}

/// Runs a row, and says how it ended.
pub fn carried_out(alloc: Global, row: &Row) -> Result<Ended, AllocError> {
    let words = words_of(alloc, row.words)?;
    let ended = match desk_of(alloc, row) {
        Ok(desk) => run_on(alloc, row, &words, desk),
        Err(error) => Err(error),
    };
    drop(words);
    ended
}

/// Whether the file `cert` is as the row wants it.
fn is_after(row: &Row, held: Option<&[u8]>) -> bool {
    match (row.after, held) {
        (After::AsBefore, _) => is_held(held, row.cert),
        (After::Is(text), _) => is_held(held, Some(text)),
        (After::Begins(front), Some(bytes)) => bytes.starts_with(front.as_bytes()),
        (_, None) => false,
    }
}

/// The first thing of a run that isn't as its row says, if any.
pub fn wrong_in(row: &Row, ended: &Ended) -> Option<&'static str> {
    if ended.status != row.status {
        Some("the status")
    } else if ended.out.bytes() != row.out.as_bytes() {
        Some("what was printed")
    } else if ended.err.bytes() != row.err.as_bytes() {
        Some("the line on err")
    } else {
        first_wrong_file(row, &ended.desk)
    }
}

/// The first file that isn't as the row says, if any.
fn first_wrong_file(row: &Row, desk: &MemoryDesk) -> Option<&'static str> {
    if !is_held(desk.get("packages"), Some(row.packages)) {
        Some("packages")
    } else if !is_held(desk.get("list"), Some(row.list)) {
        Some("list")
    } else if !is_after(row, desk.get("cert")) {
        Some("cert")
    } else {
        None
    }
}

/// Runs a row, and tells the first thing that isn't as it says, if any.
pub fn wrong_of(alloc: Global, row: &Row) -> Result<Option<&'static str>, AllocError> {
    let ended = carried_out(alloc, row)?;
    let wrong = wrong_in(row, &ended);
    drop(ended);
    Ok(wrong)
}

/// What isn't as a row says, the name of its table, and its place there.
#[derive(Clone, Copy, Debug, PartialEq, Eq)]
pub struct Wrong {
    pub table: &'static str,
    pub row: usize,
    pub what: &'static str,
}

/// Runs the rows of a table up to the first that doesn't come to what it says, if any.
fn first_wrong_of(
    alloc: Global,
    table: &'static str,
    rows: &[Row],
) -> Result<Option<Wrong>, AllocError> {
    for row in 0..rows.len() {
        if let Some(what) = wrong_of(alloc, &rows[row])? {
            return Ok(Some(Wrong { table, row, what }));
        }
    }
    Ok(None)
}

/// Runs the rows of some tables up to the first that doesn't come to what it says, if any.
pub fn first_wrong(alloc: Global, tables: &[Table]) -> Result<Option<Wrong>, AllocError> {
    for (table, rows) in tables {
        if let Some(wrong) = first_wrong_of(alloc, table, rows)? {
            return Ok(Some(wrong));
        }
    }
    Ok(None)
}
