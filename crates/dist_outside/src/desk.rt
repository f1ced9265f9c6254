//! Where files are.
ghost use Rattle.std.specs.Prelude.{◌≡◌, ◌<◌, ◌≤◌, [], length, take, OnOk, OnErr, IfOk, IsErrOf};
ghost use Rattle.dist_outside.specs.Counts.{Rose};
ghost use Rattle.dist_outside.specs.Files.{Idle, Reading, Writing, IsReading, IsWriting, IsNotWriting, where_told, IsPresent};
ghost use Rattle.dist_outside.specs.DeskView.{DeskView, OnlyReads, Holds, NotCreated, FileGrew, Closed};
ghost use Rattle.dist_outside.specs.Reading.{ReadsNext};

use crate::Trouble;

/// Reads and writes files by name, one at a time.
pub trait Desk {
    /// The files, where the desk tells them, what it is doing, and its two counts, which never fall.
    ghost view: { Self → DeskView };

    /// Goes to the front of a file. A missing file is a failure.
    fn start_read(&mut self, name: &str) -> Result<(), Trouble>
        requires { IsNotWriting (view self.old).mode }
        ensures reading { OnOk result ((view self.new).mode ≡ Reading (where_told (view self.old).files (name.now, 0))) }
        ensures present { OnOk result (IsPresent (view self.old).files name.now) }
        ensures refused { OnErr result ((view self.new).mode ≡ Idle) }
        ensures failed { IsErrOf result Trouble.Failed → Rose (view self.old).read_faults (view self.new).read_faults }
        ensures only_reads { OnlyReads (view self.old) (view self.new) };

    /// Puts the next bytes of the file into the buffer's front, and says how many. None come only at the file's end.
    fn read(&mut self, buffer: &mut [u8]) -> Result<usize, Trouble>
        requires reading { IsReading (view self.old).mode }
        requires room { 0 < length buffer.old }
        ensures next { IfOk result (λ count. ReadsNext count buffer.new (view self.old) (view self.new)) }
        ensures stays { IsReading (view self.new).mode }
        ensures refused { OnErr result ((view self.new).mode ≡ (view self.old).mode) }
        ensures failed { IsErrOf result Trouble.Failed → Rose (view self.old).read_faults (view self.new).read_faults }
        ensures only_reads { OnlyReads (view self.old) (view self.new) };

    /// Makes an empty file, in place of one of that name, to be written.
    fn create(&mut self, name: &str) -> Result<(), Trouble>
        requires { IsNotWriting (view self.old).mode }
        ensures created { OnOk result (Holds name.now [] (Writing (where_told (view self.old).files name.now)) (view self.old) (view self.new)) }
        ensures refused { OnErr result (NotCreated name.now (view self.old) (view self.new)) }
        ensures failed { IsErrOf result Trouble.Failed → Rose (view self.old).write_faults (view self.new).write_faults };

    /// Appends a front of the piece to the file, and says how many bytes it took.
    fn write(&mut self, bytes: &[u8]) -> Result<usize, Trouble>
        requires { IsWriting (view self.old).mode }
        ensures count { IfOk result (λ count. count ≤ length bytes.now) }
        ensures progress { IfOk result (λ count. 0 < length bytes.now → 0 < count) }
        ensures appended { IfOk result (λ count. FileGrew (take count bytes.now) (view self.old) (view self.new)) }
        ensures refused { OnErr result (FileGrew [] (view self.old) (view self.new)) }
        ensures failed { IsErrOf result Trouble.Failed → Rose (view self.old).write_faults (view self.new).write_faults };

    /// Ends the writing, also where it is refused.
    fn close(&mut self) -> Result<(), Trouble>
        requires { IsWriting (view self.old).mode }
        ensures closed { Closed (view self.old) (view self.new) }
        ensures failed { IsErrOf result Trouble.Failed → Rose (view self.old).write_faults (view self.new).write_faults };
}
