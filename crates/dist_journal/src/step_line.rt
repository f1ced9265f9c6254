//! What a step line says.
ghost use Rattle.std.specs.Prelude.{◌≡◌, ◌∷◌, [], IfOk, MatchOption};
ghost use Rattle.dist_version.specs.Spelling.{IsVersion};
ghost use Rattle.dist_relation.specs.Bytes.{IsName};
ghost use Rattle.dist_journal.specs.CutPrivate.{AreWords, IsSaid, with_more};
ghost use Rattle.dist_journal.specs.Journal.{words};

use dist_relation::{Name, RelationError};
use dist_version::{Version, VersionError, texts_are_exact};
use memchr::memchr;
use std::alloc::{AllocError, Global};

/// What a step line says.
#[derive(Drop)]
pub(crate) enum StepLine {
    /// The name of a package whose cluster is uploaded, and the version.
    Upload(Name, Version),
    /// The name of the package that goes.
    Removal(Name),
    /// A package of a new name comes.
    NewName,
}

/// The words of a line, by their number.
#[derive(Clone, Copy)]
enum Words<'a> {
    Two(&'a [u8], &'a [u8]),
    Three(&'a [u8], &'a [u8], &'a [u8]),
    Four(&'a [u8], &'a [u8], &'a [u8], &'a [u8]),
    Other,
}

/// What stands before the first space of a text, and what comes after that space, if there is one.
fn split_word(text: &[u8]) -> (&[u8], Option<&[u8]>)
    ensures { words text.now ≡ with_more result.0.now result.1 }
{
    match memchr(b' ', text) {
        Some(end) => (&text[..end], Some(&text[end + 1..])),
        None => (text, None),
    }
}

/// The words of a line.
fn words_of(line: &[u8]) -> Words<'_>
    ensures { AreWords (words line.now) result }
{
    let (first, Some(rest)) = split_word(line) else {
        return Words::Other;
    };
    let (second, rest) = split_word(rest);
    let Some(rest) = rest else {
        return Words::Two(first, second);
    };
    let (third, rest) = split_word(rest);
    let Some(rest) = rest else {
        return Words::Three(first, second, third);
    };
    let (fourth, rest) = split_word(rest);
    match rest {
        Some(_) => Words::Other,
        None => Words::Four(first, second, third, fourth),
    }
}

/// The name that a word is, if it is one.
fn name_in(alloc: Global, word: &[u8]) -> Result<Option<Name>, AllocError>
    ensures { IfOk result (λ name. MatchOption name (¬ IsName word.now) (λ bytes. (bytes ≡ word.now) × IsName word.now)) }
{
    match Name::read(alloc, word) {
        Ok(name) => Ok(Some(name)),
        Err(RelationError::NoMemory) => Err(AllocError),
        Err(_) => Ok(None),
    }
}

/// The version that a word is, if it is one.
fn version_in(alloc: Global, word: &[u8]) -> Result<Option<Version>, AllocError>
    ensures { IfOk result (λ version. MatchOption version (¬ IsVersion word.now)
        (λ text. (text ≡ word.now) × IsVersion word.now)) }
{
    texts_are_exact();
    match Version::read(alloc, word) {
        Ok(version) => Ok(Some(version)),
        Err(VersionError::NoMemory) => Err(AllocError),
        Err(_) => Ok(None),
    }
}

/// What a step line of two words says.
fn read_two(mark: &[u8], word: &[u8]) -> Option<StepLine>
    ensures { IsSaid (mark.now ∷ word.now ∷ []) result }
{
    if mark == b"=".as_slice() && word == b"new".as_slice() {
        Some(StepLine::NewName)
    } else {
        None
    }
}

/// What a step line of three words says.
fn read_three(
    alloc: Global,
    mark: &[u8],
    word: &[u8],
    name: &[u8],
) -> Result<Option<StepLine>, AllocError>
    ensures { IfOk result (IsSaid (mark.now ∷ word.now ∷ name.now ∷ [])) }
{
    if mark != b"=".as_slice() || word != b"removal".as_slice() {
        return Ok(None);
    }
    match name_in(alloc, name)? {
        Some(name) => Ok(Some(StepLine::Removal(name))),
        None => Ok(None),
    }
}

/// What a step line of four words says.
fn read_four(
    alloc: Global,
    mark: &[u8],
    word: &[u8],
    name: &[u8],
    version: &[u8],
) -> Result<Option<StepLine>, AllocError>
    ensures { IfOk result (IsSaid (mark.now ∷ word.now ∷ name.now ∷ version.now ∷ [])) }
{
    if mark != b"=".as_slice() || word != b"upload".as_slice() {
        return Ok(None);
    }
    let Some(name) = name_in(alloc, name)? else {
        return Ok(None);
    };
    match version_in(alloc, version)? {
        Some(version) => Ok(Some(StepLine::Upload(name, version))),
        None => Ok(None),
    }
}

/// What a step line says, if it says something.
pub(crate) fn read_step_line(alloc: Global, line: &[u8]) -> Result<Option<StepLine>, AllocError>
    ensures { IfOk result (IsSaid (words line.now)) }
{
    match words_of(line) {
        Words::Two(mark, word) => Ok(read_two(mark, word)),
        Words::Three(mark, word, name) => read_three(alloc, mark, word, name),
        Words::Four(mark, word, name, version) => read_four(alloc, mark, word, name, version),
        Words::Other => Ok(None),
    }
}
