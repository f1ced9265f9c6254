//! A sink over a writer of std.
ghost use Rattle.std.specs.Prelude.{◌≡◌, ◌↔◌, ◌<◌, ◌≤◌, [], length, take, IfOk, IfErr, OnErr};
ghost use Rattle.std.specs.IoError.{error_kind};
ghost use Rattle.std.specs.Io.KnownBytes.{WriteAppends};
ghost use Rattle.dist_outside.specs.Counts.{faults_by, wants_by};
ghost use Rattle.dist_outside.specs.SinkView.{Grew, SinkCause};
ghost use Rattle.dist_outside.specs.Real.{std_view, StdCall};

use crate::std_answers::trouble_of;
use crate::{Sink, Trouble};
use std::io::{Error, ErrorKind, Write};
use std::marker::Model;

/// Hands each piece to the writer. It tells no bytes, and counts each error of the writer, and each write
/// that takes nothing of a piece that is not empty.
#[derive(Drop)]
pub struct StdSink<W: Write + Drop> {
    writer: W,
    faults: u64,
    wants: u64,
}

impl<W: Write + Drop> Model for StdSink<W> {
    ghost use Rattle.dist_outside.specs.Real.{StdState};

    ghost Value = { StdState };

    ghost view = { λ s. record { contents = W.contents s.writer; faults = s.faults; wants = s.wants } };
}

impl<W: Write + Drop> StdSink<W> {
    /// A sink over this writer, which counted nothing yet.
    pub fn new(writer: W) -> StdSink<W>
        ensures { result ≡ record { contents = W.contents writer; faults = 0; wants = 0 } }
    {
        StdSink {
            writer,
            faults: 0,
            wants: 0,
        }
    }

    /// The trouble that an error of the writer is, which is counted.
    fn refused(&mut self, error: &Error) -> Trouble
        ensures named { (result ≡ Trouble.NoMemory) ↔ (error_kind error.now ≡ ErrorKind.OutOfMemory) }
        ensures exact { self.new ≡ record self.old { faults = faults_by result self.old.faults; wants = wants_by result self.old.wants } }
        ensures refused { Grew [] (std_view self.old) (std_view self.new) }
        ensures cause { SinkCause result (std_view self.old) (std_view self.new) }
    {
        let trouble = trouble_of(error);
        match trouble {
            Trouble::Failed => self.faults = self.faults.saturating_add(1),
            Trouble::NoMemory => self.wants = self.wants.saturating_add(1),
        }
        trouble
    }
}

impl<W: Write + Drop> Sink for StdSink<W> {
    ghost view = { std_view };

    fn write(&mut self, bytes: &[u8]) -> Result<usize, Trouble>
        ensures count { IfOk result (λ count. count ≤ length bytes.now) }
        ensures progress { IfOk result (λ count. 0 < length bytes.now → 0 < count) }
        ensures appended { IfOk result (λ count. Grew (take count bytes.now) (std_view self.old) (std_view self.new)) }
        ensures refused { OnErr result (Grew [] (std_view self.old) (std_view self.new)) }
        ensures cause { IfErr result (λ trouble. SinkCause trouble (std_view self.old) (std_view self.new)) }

        // What std knows of the writer is handed on, and the counts are exact.
        ensures handed_on { WriteAppends self.old.contents self.new.contents result bytes.now }
        ensures exact { StdCall result self.old self.new }
    {
        match self.writer.write(bytes) {
            Ok(0) if !bytes.is_empty() => {
                self.faults = self.faults.saturating_add(1);
                Err(Trouble::Failed)
            }
            Ok(count) => Ok(count),
            Err(error) => Err(self.refused(&error)),
        }
    }
}
