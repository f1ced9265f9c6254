//! The piece of a file that was read last.
ghost use Rattle.std.specs.Prelude.{◌≡◌, ◌<◌, ◌≤◌, [], false, length, drop, IsTrue, IfOk, IfErr};
ghost use Rattle.dist_outside.specs.Files.{IsReading};
ghost use Rattle.dist_outside.specs.DeskView.{OnlyReads};
ghost use Rattle.dist_outside.specs.Reading.{ReadCause};
ghost use Rattle.dist_cert.specs.Reading.{WhereTold};
ghost use Rattle.dist_cert.specs.LineReadingPrivate.{unread, Filled};

use dist_outside::{Desk, PIECE, Trouble, WorkError};
use std::alloc::Global;
use std::marker::Model;

/// What was not taken yet of a piece of a file.
#[derive(Drop)]
pub(crate) struct Piece {
    /// Room for a piece, once one was read.
    bytes: Vec<u8>,
    start: usize,
    end: usize,
}

impl Model for Piece {
    ghost use Rattle.std.specs.Prelude.{List, ℕ, ◌≤◌, vec_len, slice_range};

    ghost Value = { List ℕ };

    ghost view = { λ p. slice_range p.bytes.items p.start p.end };

    ghost invariant = { λ p. (p.start ≤ p.end) × (p.end ≤ vec_len p.bytes) };
}

impl Piece {
    /// Nothing yet.
    pub(crate) fn new(alloc: Global) -> Piece
        ensures { result ≡ [] }
    {
        Piece {
            bytes: Vec::new(alloc),
            start: 0,
            end: 0,
        }
    }

    /// What was not taken yet.
    pub(crate) fn as_slice(&self) -> &[u8]
        ensures { result.now ≡ self.now }
    {
        &self.bytes[self.start..self.end]
    }

    /// Takes the first bytes.
    pub(crate) fn skip(&mut self, count: usize)
        requires { count ≤ length self.old }
        ensures { self.new ≡ drop count self.old }
    {
        self.start += count;
    }

    /// Reads the next bytes of the file, once the ones before were taken, and says whether there were any.
    pub(crate) fn fill<D: Desk>(&mut self, desk: &mut D) -> Result<bool, WorkError>
        requires taken { self.old ≡ [] }
        requires reading { IsReading (D.view desk.old).mode }
        ensures text { WhereTold (unread (D.view desk.old)) (unread (D.view desk.new)) (λ left more. Filled result self.new left more) }
        ensures some { IfOk result (λ some. IsTrue some → 0 < length self.new) }
        ensures none { IfOk result (λ some. some ≡ false → self.new ≡ []) }
        ensures err { IfErr result (λ error. self.new ≡ []) }
        ensures cause { IfErr result (λ error. ReadCause error (D.view desk.old) (D.view desk.new) ⊥) }
        ensures reading { IsReading (D.view desk.new).mode }
        ensures only_reads { OnlyReads (D.view desk.old) (D.view desk.new) }
    {
        if self.bytes.is_empty() {
            self.bytes.resize(PIECE, 0)?;
        }
        self.start = 0;
        self.end = 0;
        match desk.read(&mut self.bytes) {
            Ok(count) => {
                self.end = count;
                Ok(count > 0)
            }
            Err(Trouble::Failed) => Err(WorkError::ReadFault),
            Err(Trouble::NoMemory) => Err(WorkError::NoMemory),
        }
    }
}
