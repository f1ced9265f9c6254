//! Tests over desks and sinks in memory, and some over the real file system.
ghost use Rattle.std.specs.Prelude.{◌<◌, IsTrue};
ghost use Rattle.dist_outside.specs.Files.{IsNotWriting, IsWriting};

use dist_outside::{
    Desk, Limits, MemoryDesk, MemorySink, RealDesk, Sink, StdSink, Trouble, What, WorkError,
    desk_only_reads, desk_write_whole, file_grows, file_holds, read_whole, sink_grows, write_whole,
};
use dist_samples::is_held;
use std::alloc::Global;
use std::fs;
use std::rt::Files;

/// Whether a file, of which at most so many bytes are read, has these.
fn has_bytes<D: Desk>(
    alloc: Global,
    desk: &mut D,
    name: &str,
    limit: u64,
    wanted: &[u8],
) -> Result<bool, WorkError>
    requires { IsNotWriting (D.view desk.old).mode }
    ensures { IsNotWriting (D.view desk.new).mode }
{
    match read_whole(alloc, desk, name, limit) {
        Ok(bytes) => {
            let so = bytes.as_slice() == wanted;
            drop(bytes);
            Ok(so)
        }
        Err(error) => Err(error),
    }
}

/// Makes a file anew, writes it in two pieces, and says whether each call did.
fn is_written<D: Desk>(desk: &mut D, name: &str, first: &[u8], second: &[u8]) -> bool
    requires { IsNotWriting (D.view desk.old).mode }
    ensures { IsTrue result → IsNotWriting (D.view desk.new).mode }
{
    desk.create(name).is_ok()
        && desk_write_whole(desk, first).is_ok()
        && desk_write_whole(desk, second).is_ok()
        && desk.close().is_ok()
}

/// A name, how many bytes are read at most, what comes, and how many faults there are then.
type Reading = (&'static str, u64, Result<&'static str, WorkError>, u64);

/// Readings of a desk on which no call fails.
const SOUND: &[Reading] = &[
    ("a", 10, Ok("0123456789"), 0),
    ("a", 9, Err(WorkError::TooLarge(What::Bytes)), 0),
    ("b", 0, Ok(""), 0),
];

/// Readings of a desk of which the second call fails: a file, a missing one, and the file again.
const FAULTY: &[Reading] = &[
    ("a", 10, Err(WorkError::ReadFault), 1),
    ("c", 10, Err(WorkError::ReadFault), 2),
    ("a", 10, Ok("0123456789"), 2),
];

/// Whether a reading comes to what its row says.
fn comes(alloc: Global, desk: &mut MemoryDesk, row: &Reading) -> bool
    requires { IsNotWriting desk.old.mode }
    ensures { IsNotWriting desk.new.mode }
{
    match row.2 {
        Ok(text) => has_bytes(alloc, desk, row.0, row.1, text.as_bytes()) == Ok(true),
        Err(error) => has_bytes(alloc, desk, row.0, row.1, b"") == Err(error),
    }
}

/// Whether readings, one after another, come to what their rows say.
fn all_come(alloc: Global, desk: &mut MemoryDesk, rows: &[Reading]) -> bool
    requires { IsNotWriting desk.old.mode }
{
    for row in rows {
        if !comes(alloc, desk, row) || desk.faults() != row.3 {
            return false;
        }
    }
    true
}

/// Puts three files into a desk, the last in place of the first, and says whether they are there.
fn are_put(desk: &mut MemoryDesk) -> bool
    requires { IsNotWriting desk.old.mode }
    ensures { IsNotWriting desk.new.mode }
{
    desk.put("a", b"older").is_ok()
        && desk.put("b", b"").is_ok()
        && desk.put("a", b"0123456789").is_ok()
        && is_held(desk.get("a"), Some("0123456789"))
        && desk.get("c").is_none()
}

/// Whether files are read in pieces of a length as rows say, where the calls of some numbers fail.
fn is_read(alloc: Global, step: usize, fails: &[u64], rows: &[Reading]) -> bool
    requires { 0 < step }
{
    match MemoryDesk::new(alloc, step, fails) {
        Ok(mut desk) => {
            let so = are_put(&mut desk) && all_come(alloc, &mut desk, rows);
            drop(desk);
            so
        }
        Err(_) => false,
    }
}

#[test]
fn a_file_is_read_in_pieces(rt: HostRuntime) {
    assert!(rt; is_read(rt.alloc(), 1, &[], SOUND));
    assert!(rt; is_read(rt.alloc(), 3, &[], SOUND));
    assert!(rt; is_read(rt.alloc(), 100, &[], SOUND));
}

#[test]
fn a_desk_fails_at_the_listed_calls_and_a_missing_file(rt: HostRuntime) {
    assert!(rt; is_read(rt.alloc(), 4, &[2], FAULTY));
}

/// Whether a file is written, and another one stays as it is.
fn is_replaced(desk: &mut MemoryDesk) -> bool
    requires { IsNotWriting desk.old.mode }
{
    desk.put("a", b"older").is_ok()
        && desk.put("b", b"other").is_ok()
        && is_written(desk, "a", b"01234", b"56789")
        && is_held(desk.get("a"), Some("0123456789"))
        && is_held(desk.get("b"), Some("other"))
}

/// Whether a file is written in pieces of a length.
fn is_replaced_by(alloc: Global, step: usize) -> bool
    requires { 0 < step }
{
    match MemoryDesk::new(alloc, step, &[]) {
        Ok(mut desk) => {
            let so = is_replaced(&mut desk);
            drop(desk);
            so
        }
        Err(_) => false,
    }
}

#[test]
fn a_file_is_written_in_pieces(rt: HostRuntime) {
    assert!(rt; is_replaced_by(rt.alloc(), 1));
    assert!(rt; is_replaced_by(rt.alloc(), 4));
    assert!(rt; is_replaced_by(rt.alloc(), 100));
}

/// Whether a file is made, and written up to its third piece. Calls: create, three writes.
fn is_cut_short(desk: &mut MemoryDesk) -> bool
    requires { IsNotWriting desk.old.mode }
    ensures { IsTrue result → IsWriting desk.new.mode }
{
    desk.create("a").is_ok()
        && is_held(desk.get("a"), Some(""))
        && desk_write_whole(desk, b"0123456789") == Err(WorkError::WriteFault)
        && is_held(desk.get("a"), Some("01234567"))
}

/// Whether a file is not made anew, and stays as it is. Calls: close, create.
fn stays_short(desk: &mut MemoryDesk) -> bool
    requires { IsWriting desk.old.mode }
    ensures { IsTrue result → IsNotWriting desk.new.mode }
{
    desk.close().is_ok()
        && desk.faults() == 1
        && desk.create("a") == Err(Trouble::Failed)
        && is_held(desk.get("a"), Some("01234567"))
}

/// Whether writing ends where its end is refused. Calls: create, close, start_read.
fn ends_refused(desk: &mut MemoryDesk) -> bool
    requires { IsNotWriting desk.old.mode }
{
    desk.create("b").is_ok()
        && desk.close() == Err(Trouble::Failed)
        && desk.faults() == 3
        && desk.start_read("b").is_ok()
}

/// Whether the listed calls fail.
fn fail_in_writing(alloc: Global) -> bool {
    match MemoryDesk::new(alloc, 4, &[4, 6, 8]) {
        Ok(mut desk) => {
            let so = is_cut_short(&mut desk) && stays_short(&mut desk) && ends_refused(&mut desk);
            drop(desk);
            so
        }
        Err(_) => false,
    }
}

#[test]
fn writing_fails_at_the_listed_calls(rt: HostRuntime) {
    assert!(rt; fail_in_writing(rt.alloc()));
}

/// Whether a text is written, and the next one is refused. Calls: three writes of a text, one that fails.
fn takes_a_text(sink: &mut MemorySink) -> bool {
    write_whole(sink, b"0123456789").is_ok()
        && sink.bytes() == b"0123456789".as_slice()
        && write_whole(sink, b"x") == Err(WorkError::WriteFault)
}

/// Whether a front of a text is taken, and the next text refused. Calls: a write of a piece, and one that fails.
fn takes_a_front(sink: &mut MemorySink) -> bool {
    sink.write(b"abcdef") == Ok(4)
        && sink.write(b"x") == Err(Trouble::Failed)
        && sink.faults() == 2
        && sink.bytes() == b"0123456789abcd".as_slice()
}

/// Whether texts are written in pieces, up to the listed calls.
fn takes_texts(alloc: Global) -> bool {
    match MemorySink::new(alloc, 4, &[4, 6]) {
        Ok(mut sink) => {
            let so = takes_a_text(&mut sink) && takes_a_front(&mut sink);
            drop(sink);
            so
        }
        Err(_) => false,
    }
}

#[test]
fn a_text_is_written_in_pieces(rt: HostRuntime) {
    assert!(rt; takes_texts(rt.alloc()));
}

/// What is done with a file of the system.
#[derive(Clone, Copy)]
enum Work {
    /// A file that is written in two pieces has both.
    Kept,
    /// A file that had more bytes has those alone that were written last.
    Anew,
    /// A small piece waits for the close, which is the first call that the device refuses.
    RefusedAtTheEnd,
    /// No file is there, and none can be made.
    Missing,
    /// The file has these bytes.
    Has(&'static str),
}

/// Whether a file has these bytes and no more.
fn has<D: Desk>(alloc: Global, desk: &mut D, path: &str, text: &str) -> bool
    requires { IsNotWriting (D.view desk.old).mode }
{
    has_bytes(alloc, desk, path, 10, text.as_bytes()) == Ok(true)
}

/// Whether a small piece is refused when the file is closed, and not before.
fn is_refused_at_the_end<D: Desk>(desk: &mut D, path: &str) -> bool
    requires { IsNotWriting (D.view desk.old).mode }
{
    desk.create(path).is_ok()
        && desk_write_whole(desk, b"text").is_ok()
        && desk.close() == Err(Trouble::Failed)
}

/// Whether work is done.
fn is_done<D: Desk>(alloc: Global, desk: &mut D, path: &str, work: Work) -> bool
    requires { IsNotWriting (D.view desk.old).mode }
{
    match work {
        Work::Kept => {
            is_written(desk, path, b"01234", b"56789") && has(alloc, desk, path, "0123456789")
        }
        Work::Anew => {
            is_written(desk, path, b"01234", b"56789")
                && is_written(desk, path, b"abc", b"")
                && has(alloc, desk, path, "abc")
        }
        Work::RefusedAtTheEnd => is_refused_at_the_end(desk, path),
        Work::Missing => {
            desk.start_read(path) == Err(Trouble::Failed)
                && desk.create("no such folder/file") == Err(Trouble::Failed)
        }
        Work::Has(text) => has(alloc, desk, path, text),
    }
}

/// Whether work is done on the system.
fn is_done_on<R: Files + Drop>(alloc: Global, rt: R, path: &str, work: Work) -> bool {
    let mut desk = RealDesk::new(alloc, rt);
    let so = is_done(alloc, &mut desk, path, work);
    drop(desk);
    so
}

#[test]
fn a_file_of_the_system_is_written_and_read(rt: HostRuntime) {
    let path = "dist_outside_real_desk.txt";
    let kept = is_done_on(rt.alloc(), &rt, path, Work::Kept);
    assert!(rt; fs::remove_file(&rt, path).is_ok() && kept);
}

#[test]
fn a_file_in_no_folder_is_not_there(rt: HostRuntime) {
    assert!(rt; is_done_on(rt.alloc(), &rt, "no such file", Work::Missing));
}

#[test]
fn a_longer_file_of_the_system_is_made_empty(rt: HostRuntime) {
    let path = "dist_outside_longer_file.txt";
    let anew = is_done_on(rt.alloc(), &rt, path, Work::Anew);
    assert!(rt; fs::remove_file(&rt, path).is_ok() && anew);
}

#[test]
fn a_full_device_is_told_when_the_file_is_closed(rt: HostRuntime) {
    assert!(rt; is_done_on(rt.alloc(), &rt, "/dev/full", Work::RefusedAtTheEnd));
}

/// Whether a writer of std takes a text.
fn is_taken(rt: &impl Files, path: &str) -> bool {
    match fs::File::create(rt, path) {
        Ok(file) => {
            let mut sink = StdSink::new(file);
            let written = write_whole(&mut sink, b"text");
            drop(sink);
            written.is_ok()
        }
        Err(_) => false,
    }
}

#[test]
fn a_writer_of_std_takes_a_text(rt: HostRuntime) {
    let path = "dist_outside_std_sink.txt";
    let taken = is_taken(&rt, path);
    let kept = is_done_on(rt.alloc(), &rt, path, Work::Has("text"));
    assert!(rt; fs::remove_file(&rt, path).is_ok() && taken && kept);
}

#[test]
fn the_limits_are_the_stated_ones(rt: HostRuntime) {
    let limits = Limits::stated();
    assert!(rt; limits.bytes == 268_435_456 && limits.record_line == 1_073_741_824);
}

#[test]
fn the_laws_hold() {
    sink_grows();
    desk_only_reads();
    file_grows();
    file_holds();
}
