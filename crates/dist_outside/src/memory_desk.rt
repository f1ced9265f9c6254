//! A desk in memory, which fails where a test asks for it.
ghost use Rattle.std.specs.Prelude.{◌≡◌, ◌≢◌, ◌+◌, ◌-◌, ◌^◌, ◌<◌, ◌≤◌, ◌↔◌, ◌⊎◌, [], Some, length, take, min, IfOk, OnOk, OnErr, IsErrOf, IsNone};
ghost use Rattle.std.specs.Option.{option_copied};
ghost use Rattle.std.specs.FinMap as map;
ghost use Rattle.dist_outside.specs.Counts.{Rose};
ghost use Rattle.dist_outside.specs.Files.{Idle, Reading, Writing, IsReading, IsWriting, IsNotWriting, where_told, IsPresent};
ghost use Rattle.dist_outside.specs.DeskView.{OnlyReads, Holds, NotCreated, FileGrew, Closed};
ghost use Rattle.dist_outside.specs.Memory.{desk_view, IsListed, ReadCall, MovesStep, WriteCall};
ghost use Rattle.dist_outside.specs.Reading.{ReadsNext};

use crate::named_files::{NamedFile, append_to_newest, copy_next, newest, put_front};
use crate::{Desk, Trouble};
use std::alloc::{AllocError, Global};
use std::marker::Model;

/// What the desk is doing. The file that is written is the newest.
#[derive(Drop)]
enum Open {
    Nothing,
    Reading(String, usize),
    Writing,
}

/// Keeps files by name, the newest first.
#[derive(Drop)]
pub struct MemoryDesk {
    alloc: Global,
    files: Vec<NamedFile>,
    state: Open,
    read_faults: u64,
    write_faults: u64,
    calls: u64,
    step: usize,
    fails: Vec<u64>,
}

impl Model for MemoryDesk {
    ghost use Rattle.dist_outside.specs.Memory.{DeskState, state_code};
    ghost use Rattle.std.specs.Prelude.{◌≡◌, ◌<◌, vec_len};

    ghost Value = { DeskState };

    ghost coded = { state_code };

    ghost use Rattle.dist_outside.specs.KeptPrivate.{files_of, mode_of};
    ghost use Rattle.dist_outside.specs.declared.memory_desk.Open.TheVariants as kept;

    ghost view = { λ s. record {
      files = files_of s.files.items;
      mode = mode_of s.files.items s.state;
      read_faults = s.read_faults;
      write_faults = s.write_faults;
      calls = s.calls;
      step = s.step;
      fails = s.fails.items;
    } };

    ghost invariant = { λ s. (0 < s.step) × (s.state ≡ kept.Writing → 0 < vec_len s.files) };
}

impl MemoryDesk {
    /// A desk with no files, whose reads and writes move at most `step` bytes, and whose calls of these numbers,
    /// from 1, fail.
    pub fn new(alloc: Global, step: usize, fails: &[u64]) -> Result<MemoryDesk, AllocError>
        requires { 0 < step }
        ensures { IfOk result (λ desk. desk ≡ record { files = map.empty; mode = Idle; read_faults = 0; write_faults = 0; calls = 0; step = step; fails = fails.now }) }
    {
        Ok(MemoryDesk {
            alloc,
            files: Vec::new(alloc),
            state: Open::Nothing,
            read_faults: 0,
            write_faults: 0,
            calls: 0,
            step,
            fails: fails.to_vec(alloc)?,
        })
    }

    /// Puts a file there, in place of one of that name. The desk reads nothing afterwards.
    pub fn put(&mut self, name: &str, bytes: &[u8]) -> Result<(), AllocError>
        requires { IsNotWriting self.old.mode }
        ensures ok { OnOk result (self.new ≡ record self.old { files = map.insert self.old.files name.now bytes.now; mode = Idle }) }
        ensures err { OnErr result (self.new ≡ record self.old { mode = Idle }) }
    {
        self.state = Open::Nothing;
        put_front(self.alloc, &mut self.files, name, bytes)
    }

    /// The bytes of the file of that name.
    pub fn get(&self, name: &str) -> Option<&[u8]>
        ensures { option_copied result ≡ map.get self.now.files name.now }
    {
        newest(&self.files, name)
    }

    /// How often a call of a listed number, or a start on a missing file, failed.
    pub fn faults(&self) -> u64
        ensures { result ≡ min (self.now.read_faults + self.now.write_faults) (2 ^ 64 - 1) }
    {
        self.read_faults.saturating_add(self.write_faults)
    }
}

impl Desk for MemoryDesk {
    ghost view = { desk_view };

    fn start_read(&mut self, name: &str) -> Result<(), Trouble>
        requires { IsNotWriting self.old.mode }
        ensures reading { OnOk result (self.new.mode ≡ Reading (where_told (Some self.old.files) (name.now, 0))) }
        ensures present { OnOk result (IsPresent (Some self.old.files) name.now) }
        ensures refused { OnErr result (self.new.mode ≡ Idle) }
        ensures failed { IsErrOf result Trouble.Failed → Rose self.old.read_faults self.new.read_faults }
        ensures only_reads { OnlyReads (desk_view self.old) (desk_view self.new) }

        // It fails at the listed calls and at a missing file alone.
        ensures listed { IsErrOf result Trouble.Failed ↔
            (IsListed self.old ⊎ IsNone (map.get self.old.files name.now)) }
        ensures exact { ReadCall result self.old self.new }
    {
        self.state = Open::Nothing;
        self.calls = self.calls.saturating_add(1);
        if self.fails.contains(&self.calls) || newest(&self.files, name).is_none() {
            self.read_faults = self.read_faults.saturating_add(1);
            return Err(Trouble::Failed);
        }
        match String::from_str(self.alloc, name) {
            Ok(name) => {
                self.state = Open::Reading(name, 0);
                Ok(())
            }
            Err(_) => Err(Trouble::NoMemory),
        }
    }

    fn read(&mut self, buffer: &mut [u8]) -> Result<usize, Trouble>
        requires reading { IsReading self.old.mode }
        requires room { 0 < length buffer.old }
        ensures next { IfOk result (λ count. ReadsNext count buffer.new (desk_view self.old) (desk_view self.new)) }
        ensures stays { IsReading self.new.mode }
        ensures refused { OnErr result (self.new.mode ≡ self.old.mode) }
        ensures failed { IsErrOf result Trouble.Failed → Rose self.old.read_faults self.new.read_faults }
        ensures only_reads { OnlyReads (desk_view self.old) (desk_view self.new) }

        // It fails at the listed calls alone, and moves at most a step.
        ensures exact { MovesStep result self.old self.new }
    {
        self.calls = self.calls.saturating_add(1);
        if self.fails.contains(&self.calls) {
            self.read_faults = self.read_faults.saturating_add(1);
            return Err(Trouble::Failed);
        }
        match &mut self.state {
            Open::Reading(name, place) => {
                let count = copy_next(&self.files, name.as_str(), *place, self.step, buffer);
                *place += count;
                Ok(count)
            }
            // The caller has started to read.
            Open::Nothing | Open::Writing => unreachable!(),
        }
    }

    fn create(&mut self, name: &str) -> Result<(), Trouble>
        requires { IsNotWriting self.old.mode }
        ensures created { OnOk result (Holds name.now [] (Writing (where_told (Some self.old.files) name.now)) (desk_view self.old) (desk_view self.new)) }
        ensures refused { OnErr result (NotCreated name.now (desk_view self.old) (desk_view self.new)) }
        ensures failed { IsErrOf result Trouble.Failed → Rose self.old.write_faults self.new.write_faults }

        // It fails at the listed calls alone, and a refusal leaves the files as before.
        ensures listed { IsErrOf result Trouble.Failed ↔ IsListed self.old }
        ensures as_before { OnErr result (self.new.files ≡ self.old.files) }
        ensures exact { WriteCall result self.old self.new }
    {
        self.state = Open::Nothing;
        self.calls = self.calls.saturating_add(1);
        if self.fails.contains(&self.calls) {
            self.write_faults = self.write_faults.saturating_add(1);
            return Err(Trouble::Failed);
        }
        match put_front(self.alloc, &mut self.files, name, b"") {
            Ok(()) => {
                self.state = Open::Writing;
                Ok(())
            }
            Err(_) => Err(Trouble::NoMemory),
        }
    }

    fn write(&mut self, bytes: &[u8]) -> Result<usize, Trouble>
        requires { IsWriting self.old.mode }
        ensures count { IfOk result (λ count. count ≤ length bytes.now) }
        ensures progress { IfOk result (λ count. 0 < length bytes.now → 0 < count) }
        ensures appended { IfOk result (λ count. FileGrew (take count bytes.now) (desk_view self.old) (desk_view self.new)) }
        ensures refused { OnErr result (FileGrew [] (desk_view self.old) (desk_view self.new)) }
        ensures failed { IsErrOf result Trouble.Failed → Rose self.old.write_faults self.new.write_faults }

        // It fails at the listed calls alone, and takes as much as a step allows.
        ensures listed { IsErrOf result Trouble.Failed ↔ IsListed self.old }
        ensures step { IfOk result (λ count. count ≡ min self.old.step (length bytes.now)) }
        ensures exact { WriteCall result self.old self.new }
    {
        self.calls = self.calls.saturating_add(1);
        if self.fails.contains(&self.calls) {
            self.write_faults = self.write_faults.saturating_add(1);
            return Err(Trouble::Failed);
        }
        let count = self.step.min(bytes.len());
        match append_to_newest(&mut self.files, &bytes[..count]) {
            Ok(()) => Ok(count),
            Err(_) => Err(Trouble::NoMemory),
        }
    }

    fn close(&mut self) -> Result<(), Trouble>
        requires { IsWriting self.old.mode }
        ensures closed { Closed (desk_view self.old) (desk_view self.new) }
        ensures failed { IsErrOf result Trouble.Failed → Rose self.old.write_faults self.new.write_faults }

        // It fails at the listed calls alone.
        ensures listed { IsErrOf result Trouble.Failed ↔ IsListed self.old }
        ensures memory { result ≢ Err Trouble.NoMemory }
        ensures exact { WriteCall result self.old self.new }
    {
        self.state = Open::Nothing;
        self.calls = self.calls.saturating_add(1);
        if self.fails.contains(&self.calls) {
            self.write_faults = self.write_faults.saturating_add(1);
            return Err(Trouble::Failed);
        }
        Ok(())
    }
}
