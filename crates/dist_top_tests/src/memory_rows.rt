//! Want of memory, which a sink tells: the status with its number and its line.
ghost use Rattle.dist_outside.specs.Files.{IsNotWriting};

use dist_app::{Status, run};
use dist_outside::{MemoryDesk, MemorySink, Sink, Trouble};
use dist_samples::words_of;
use dist_top_rows::{EMPTY, Row, SINK_STEP, desk_of};
use std::alloc::{AllocError, Global};
use std::test::Fail;

/// A sink that finds no memory, and counts how often.
#[derive(Drop)]
struct Full {
    wants: u64,
}

impl Sink for Full {
    ghost use Rattle.std.specs.Prelude.{None};

    ghost view = { λ sink. record { written = None; faults = 0; wants = sink.wants } };

    fn write(&mut self, _bytes: &[u8]) -> Result<usize, Trouble> {
        self.wants = self.wants.saturating_add(1);
        Err(Trouble::NoMemory)
    }
}

/// Whether words over a desk end with want of memory, once `out` has found none, and with the line that tells it.
fn is_told(alloc: Global, words: &[String], desk: &mut MemoryDesk, err: &mut MemorySink) -> bool
    requires { IsNotWriting desk.old.mode }
{
    let mut out = Full { wants: 0 };
    let status = run(alloc, words, desk, &mut out, err);
    status == Status::NoMemory
        && status.number() == 7
        && out.wants == 1
        && err.bytes() == b"distfuture: no memory\n".as_slice()
}

/// The same of a row's words over a desk with its files.
fn is_told_to(
    alloc: Global,
    row: &Row,
    words: &[String],
    err: &mut MemorySink,
) -> Result<bool, AllocError> {
    let mut desk = desk_of(alloc, row)?;
    let told = is_told(alloc, words, &mut desk, err);
    drop(desk);
    Ok(told)
}

/// The same of a row.
fn is_told_of(alloc: Global, row: &Row) -> Result<bool, AllocError> {
    let mut err = MemorySink::new(alloc, SINK_STEP, &[])?;
    let told = match words_of(alloc, row.words) {
        Ok(words) => {
            let told = is_told_to(alloc, row, &words, &mut err);
            drop(words);
            told
        }
        Err(error) => Err(error),
    };
    drop(err);
    told
}

#[test]
fn want_of_memory_has_its_line(rt: HostRuntime) -> Result<(), Fail> {
    assert!(rt; is_told_of(rt.alloc(), &EMPTY)?);
    Ok(())
}
