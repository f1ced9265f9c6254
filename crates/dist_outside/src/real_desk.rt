//! A desk over the file system.
ghost use Rattle.std.specs.Prelude.{◌≡◌, ◌<◌, ◌≤◌, None, [], length, take, IfOk, OnOk, OnErr, IsErrOf};
ghost use Rattle.std.specs.Io.KnownBytes.{Keeps, ReadConsumes, WriteAppends};
ghost use Rattle.std.specs.Io.Buffered.{writer_contents};
ghost use Rattle.dist_outside.specs.Counts.{Rose};
ghost use Rattle.dist_outside.specs.Files.{Idle, Reading, Writing, IsReading, IsWriting, IsNotWriting, IsPresent};
ghost use Rattle.dist_outside.specs.DeskView.{OnlyReads, Holds, NotCreated, FileGrew, Closed};
ghost use Rattle.dist_outside.specs.Reading.{ReadsNext};
ghost use Rattle.dist_outside.specs.Real.{real_view, RealReadCall, RealWriteCall};

use crate::std_answers::counted;
use crate::{Desk, PIECE, Trouble};
use std::alloc::Global;
use std::fs::File;
use std::io::{BufReader, BufWriter, Read, Write};
use std::marker::Model;
use std::rt::Files;
use std::{io, mem};

/// What the desk is doing.
#[derive(Drop)]
enum Open<F: Read + Write + Drop> {
    Nothing,
    Reading(BufReader<F>),
    Writing(BufWriter<F>),
}

/// Reads and writes the files of the system by their paths. It tells no contents, and counts each error of reading and
/// of writing, and each write that takes nothing of a piece that is not empty.
#[derive(Drop)]
pub struct RealDesk<R: Files + Drop> {
    alloc: Global,
    runtime: R,
    state: Open<R::File>,
    read_faults: u64,
    write_faults: u64,
}

impl<R: Files + Drop> Model for RealDesk<R> {
    ghost use Rattle.dist_outside.specs.Real.{RealState, real_code};

    ghost Value = { RealState };

    ghost coded = { real_code };

    ghost use Rattle.dist_outside.specs.RealOpenPrivate.{real_mode, real_remaining, real_contents};

    ghost view = { λ s. record {
      mode = real_mode s.state;
      read_faults = s.read_faults;
      write_faults = s.write_faults;
      remaining = real_remaining R.File.remaining s.state;
      contents = real_contents R.File.contents s.state;
    } };
}

impl<R: Files + Drop> RealDesk<R> {
    /// A desk that does nothing yet. The allocator is for its buffer.
    pub fn new(alloc: Global, runtime: R) -> RealDesk<R>
        ensures { result ≡ record { mode = Idle; read_faults = 0; write_faults = 0; remaining = None; contents = None } }
    {
        RealDesk {
            alloc,
            runtime,
            state: Open::Nothing,
            read_faults: 0,
            write_faults: 0,
        }
    }
}

impl<R: Files + Drop> Desk for RealDesk<R> {
    ghost view = { real_view };

    fn start_read(&mut self, name: &str) -> Result<(), Trouble>
        requires { IsNotWriting self.old.mode }
        ensures reading { OnOk result (self.new.mode ≡ Reading None) }
        ensures present { OnOk result (IsPresent None name.now) }
        ensures refused { OnErr result (self.new.mode ≡ Idle) }
        ensures failed { IsErrOf result Trouble.Failed → Rose self.old.read_faults self.new.read_faults }
        ensures only_reads { OnlyReads (real_view self.old) (real_view self.new) }
        ensures exact { RealReadCall result self.old self.new }
    {
        self.state = Open::Nothing;
        let file = counted(File::open(&self.runtime, name), &mut self.read_faults)?;
        let Ok(reader) = BufReader::with_capacity(self.alloc, PIECE, file) else {
            return Err(Trouble::NoMemory);
        };
        self.state = Open::Reading(reader);
        Ok(())
    }

    fn read(&mut self, buffer: &mut [u8]) -> Result<usize, Trouble>
        requires reading { IsReading self.old.mode }
        requires room { 0 < length buffer.old }
        ensures next { IfOk result (λ count. ReadsNext count buffer.new (real_view self.old) (real_view self.new)) }
        ensures stays { IsReading self.new.mode }
        ensures refused { OnErr result (self.new.mode ≡ self.old.mode) }
        ensures failed { IsErrOf result Trouble.Failed → Rose self.old.read_faults self.new.read_faults }
        ensures only_reads { OnlyReads (real_view self.old) (real_view self.new) }

        // What std knows of the file is handed on, and the counts are exact.
        ensures handed_on { ReadConsumes self.old.remaining self.new.remaining result buffer.new }
        ensures exact { RealReadCall result self.old self.new }
    {
        let Open::Reading(reader) = &mut self.state else {
            // The caller has started to read.
            unreachable!()
        };
        counted(reader.read(buffer), &mut self.read_faults)
    }

    fn create(&mut self, name: &str) -> Result<(), Trouble>
        requires { IsNotWriting self.old.mode }
        ensures created { OnOk result (Holds name.now [] (Writing None) (real_view self.old) (real_view self.new)) }
        ensures refused { OnErr result (NotCreated name.now (real_view self.old) (real_view self.new)) }
        ensures failed { IsErrOf result Trouble.Failed → Rose self.old.write_faults self.new.write_faults }
        ensures exact { RealWriteCall result self.old self.new }
    {
        self.state = Open::Nothing;
        let file = counted(File::create(&self.runtime, name), &mut self.write_faults)?;
        let Ok(writer) = BufWriter::with_capacity(self.alloc, PIECE, file) else {
            return Err(Trouble::NoMemory);
        };
        self.state = Open::Writing(writer);
        Ok(())
    }

    fn write(&mut self, bytes: &[u8]) -> Result<usize, Trouble>
        requires { IsWriting self.old.mode }
        ensures count { IfOk result (λ count. count ≤ length bytes.now) }
        ensures progress { IfOk result (λ count. 0 < length bytes.now → 0 < count) }
        ensures appended { IfOk result (λ count. FileGrew (take count bytes.now) (real_view self.old) (real_view self.new)) }
        ensures refused { OnErr result (FileGrew [] (real_view self.old) (real_view self.new)) }
        ensures failed { IsErrOf result Trouble.Failed → Rose self.old.write_faults self.new.write_faults }

        // What std knows of the file is handed on, and the counts are exact.
        ensures handed_on { WriteAppends self.old.contents self.new.contents result bytes.now }
        ensures exact { RealWriteCall result self.old self.new }
    {
        let Open::Writing(writer) = &mut self.state else {
            // The caller has made a file.
            unreachable!()
        };
        let count = counted(writer.write(bytes), &mut self.write_faults)?;
        if count == 0 && !bytes.is_empty() {
            self.write_faults = self.write_faults.saturating_add(1);
            return Err(Trouble::Failed);
        }
        Ok(count)
    }

    fn close(&mut self) -> Result<(), Trouble>
        requires { IsWriting self.old.mode }
        ensures closed { Closed (real_view self.old) (real_view self.new) }
        ensures failed { IsErrOf result Trouble.Failed → Rose self.old.write_faults self.new.write_faults }
        ensures exact { RealWriteCall result self.old self.new }
    {
        let Open::Writing(writer) = mem::replace(&mut self.state, Open::Nothing) else {
            // The caller has made a file.
            unreachable!()
        };
        let _file = counted(flushed(writer), &mut self.write_faults)?;
        Ok(())
    }
}

/// Writes what the buffer holds, and gives the file.
fn flushed<F: Write + Drop>(mut writer: BufWriter<F>) -> io::Result<F>
    ensures { IfOk result (λ file. Keeps (writer_contents F.contents writer) (F.contents file)) }
{
    let result = writer.flush();
    // A writer that is dropped writes its rest again, which would hide the failure.
    let (file, _rest) = writer.into_parts();
    result?;
    Ok(file)
}
