//! The files of a desk in memory: a list, the newest first, of which the newest of a name counts.
ghost use Rattle.std.specs.Prelude.{◌≡◌, ◌+◌, ◌^◌, ◌<◌, ◌≤◌, Some, length, drop, vec_len, OnOk, OnErr};
ghost use Rattle.std.specs.Option.{option_copied};
ghost use Rattle.std.specs.FinMap as map;
ghost use Rattle.dist_outside.specs.Files.{Writing, with_more};
ghost use Rattle.dist_outside.specs.KeptPrivate.{files_of, newest_name};
ghost use Rattle.dist_outside.specs.Reading.{bytes_from, GivesNext};

use std::alloc::{AllocError, Global};

/// A file and its name.
#[derive(Drop)]
pub(crate) struct NamedFile {
    pub(crate) name: String,
    pub(crate) bytes: Vec<u8>,
}

/// Puts a file in front, where it hides an older one of its name.
pub(crate) fn put_front(
    alloc: Global,
    files: &mut Vec<NamedFile>,
    name: &str,
    bytes: &[u8],
) -> Result<(), AllocError>
    ensures ok { OnOk result (files_of files.new.items ≡ map.insert (files_of files.old.items) name.now bytes.now) }
    ensures newest { OnOk result (newest_name files.new.items ≡ name.now) }
    ensures some { OnOk result (0 < vec_len files.new) }
    ensures err { OnErr result (files_of files.new.items ≡ files_of files.old.items) }
{
    let file = NamedFile {
        name: String::from_str(alloc, name)?,
        bytes: bytes.to_vec(alloc)?,
    };
    files.insert(0, file)?;
    Ok(())
}

/// Appends to the newest file.
pub(crate) fn append_to_newest(files: &mut Vec<NamedFile>, piece: &[u8]) -> Result<(), AllocError>
    requires { 0 < vec_len files.old }
    ensures ok { OnOk result (Some (files_of files.new.items) ≡ with_more (Some (files_of files.old.items)) (Writing (Some (newest_name files.old.items))) piece.now) }
    ensures err { OnErr result (files_of files.new.items ≡ files_of files.old.items) }
    ensures newest { newest_name files.new.items ≡ newest_name files.old.items }
    ensures len { vec_len files.new ≡ vec_len files.old }
{
    files[0].bytes.extend_from_slice(piece)
}

/// The bytes of the newest file of a name.
pub(crate) fn newest<'a>(files: &'a [NamedFile], name: &str) -> Option<&'a [u8]>
    ensures { option_copied result ≡ map.get (files_of files.now) name.now }
{
    for file in files {
        if name == file.name.as_str() {
            return Some(&file.bytes);
        }
    }
    None
}

/// Copies the next bytes of a file from a place on, at most a step, and says how many.
pub(crate) fn copy_next(
    files: &[NamedFile],
    name: &str,
    place: usize,
    step: usize,
    buffer: &mut [u8],
) -> usize
    requires step { 0 < step }
    requires room { 0 < length buffer.old }
    ensures count { result ≤ length buffer.new }
    ensures step { result ≤ step }
    ensures place { place + result < 2 ^ 64 }
    ensures next { GivesNext (bytes_from place (map.get (files_of files.now) name.now)) result buffer.new }
{
    match newest(files, name) {
        None => 0,
        Some(bytes) => copy_from(bytes, place, step, buffer),
    }
}

/// Copies the bytes from a place on, at most a step, and says how many.
fn copy_from(bytes: &[u8], place: usize, step: usize, buffer: &mut [u8]) -> usize
    requires step { 0 < step }
    requires room { 0 < length buffer.old }
    ensures count { result ≤ length buffer.new }
    ensures step { result ≤ step }
    ensures place { place + result < 2 ^ 64 }
    ensures next { GivesNext (Some (drop place bytes.now)) result buffer.new }
{
    if place >= bytes.len() {
        return 0;
    }
    let left = &bytes[place..];
    let count = step.min(buffer.len()).min(left.len());
    buffer[..count].copy_from_slice(&left[..count]);
    count
}
