//! Whole files and whole texts, over any desk and any sink.
ghost use Rattle.std.specs.Prelude.{◌≡◌, ◌<◌, ◌≤◌, length, vec_len, false, IsTrue, IfOk, IfErr, OnOk, OnErr};
ghost use Rattle.dist_outside.specs.Files.{IsWriting, IsNotWriting, IsFile, IsLonger};
ghost use Rattle.dist_outside.specs.SinkView.{Grew, GrewByFront, WriteCause};
ghost use Rattle.dist_outside.specs.DeskView.{OnlyReads, FileGrew, FileGrewByFront};
ghost use Rattle.dist_outside.specs.Reading.{ReadCause, DeskWriteCause, IsWhole};
ghost use Rattle.dist_outside.specs.SoFarPrivate.{SoFar};

use crate::{Desk, PIECE, Sink, Trouble, What, WorkError};
use std::alloc::{AllocError, Global};

/// The bytes of a file, of which there are at most `limit`.
pub fn read_whole<D: Desk>(
    alloc: Global,
    desk: &mut D,
    name: &str,
    limit: u64,
) -> Result<Vec<u8>, WorkError>
    requires { IsNotWriting (D.view desk.old).mode }
    ensures whole { IfOk result (λ bytes. IsWhole (D.view desk.old).files name.now limit bytes.items) }
    ensures cause { IfErr result (λ error. ReadCause error (D.view desk.old) (D.view desk.new)
        (IsLonger (D.view desk.old).files name.now limit)) }
    ensures only_reads { OnlyReads (D.view desk.old) (D.view desk.new) }
{
    match desk.start_read(name) {
        Ok(()) => {}
        Err(Trouble::Failed) => return Err(WorkError::ReadFault),
        Err(Trouble::NoMemory) => return Err(WorkError::NoMemory),
    }
    let mut buffer = empty_buffer(alloc)?;
    let mut bytes = Vec::new(alloc);
    while read_more(desk, name, limit, &mut buffer, &mut bytes)? {}
    Ok(bytes)
}

/// Room for one piece.
fn empty_buffer(alloc: Global) -> Result<Vec<u8>, AllocError>
    ensures { IfOk result (λ buffer. 0 < vec_len buffer) }
{
    vec![in alloc; 0u8; PIECE]
}

/// Adds the next bytes of the file, and says whether there were any.
fn read_more<D: Desk>(
    desk: &mut D,
    name: &str,
    limit: u64,
    buffer: &mut [u8],
    bytes: &mut Vec<u8>,
) -> Result<bool, WorkError>
    requires so_far { SoFar (D.view desk.old).files (D.view desk.old).mode name.now bytes.old.items }
    requires within { length bytes.old.items ≤ limit }
    requires room { 0 < length buffer.old }
    ensures so_far { OnOk result (SoFar (D.view desk.new).files (D.view desk.new).mode name.now bytes.new.items) }
    ensures within { OnOk result (length bytes.new.items ≤ limit) }
    ensures more { IfOk result (λ more. IsTrue more → length bytes.old.items < length bytes.new.items) }
    ensures end { IfOk result (λ more. more ≡ false → IsFile (D.view desk.new).files name.now bytes.new.items) }
    ensures cause { IfErr result (λ error. ReadCause error (D.view desk.old) (D.view desk.new)
        (IsLonger (D.view desk.old).files name.now limit)) }
    ensures only_reads { OnlyReads (D.view desk.old) (D.view desk.new) }
{
    let count = match desk.read(buffer) {
        Ok(count) => count,
        Err(Trouble::Failed) => return Err(WorkError::ReadFault),
        Err(Trouble::NoMemory) => return Err(WorkError::NoMemory),
    };
    if count as u64 > limit - bytes.len() as u64 {
        return Err(WorkError::TooLarge(What::Bytes));
    }
    bytes.extend_from_slice(&buffer[..count])?;
    Ok(count > 0)
}

/// Writes all the bytes, or a front of them where it is refused.
#[tactic(auto, using(crate::proofs::Growing::grew_by_front))]
pub fn write_whole<W: Sink>(sink: &mut W, bytes: &[u8]) -> Result<(), WorkError>
    ensures all { OnOk result (Grew bytes.now (W.view sink.old) (W.view sink.new)) }
    ensures front { OnErr result (GrewByFront bytes.now (W.view sink.old) (W.view sink.new)) }
    ensures cause { IfErr result (λ error. WriteCause error (W.view sink.old) (W.view sink.new)) }
{
    let mut done = 0;
    while done < bytes.len() {
        match sink.write(&bytes[done..]) {
            Ok(count) => done += count,
            Err(Trouble::Failed) => return Err(WorkError::WriteFault),
            Err(Trouble::NoMemory) => return Err(WorkError::NoMemory),
        }
    }
    Ok(())
}

/// Writes all the bytes to the end of the file that is being written, or a front of them where it is refused.
pub fn desk_write_whole<D: Desk>(desk: &mut D, bytes: &[u8]) -> Result<(), WorkError>
    requires { IsWriting (D.view desk.old).mode }
    ensures all { OnOk result (FileGrew bytes.now (D.view desk.old) (D.view desk.new)) }
    ensures front { OnErr result (FileGrewByFront bytes.now (D.view desk.old) (D.view desk.new)) }
    ensures cause { IfErr result (λ error. DeskWriteCause error (D.view desk.old) (D.view desk.new)) }
{
    let mut done = 0;
    while done < bytes.len() {
        match desk.write(&bytes[done..]) {
            Ok(count) => done += count,
            Err(Trouble::Failed) => return Err(WorkError::WriteFault),
            Err(Trouble::NoMemory) => return Err(WorkError::NoMemory),
        }
    }
    Ok(())
}
