//! The value of a Source field: a name, and perhaps a version in parentheses.
ghost use Rattle.std.specs.Prelude.{◌≡◌, ◌≤◌, ℕ, List, length, MatchOption};
ghost use Rattle.std.specs.List.{position_or_len};
ghost use Rattle.dist_base.specs.Answers.{Answers};
ghost use Rattle.dist_package.specs.Source.{ends_name, IsInParentheses, ReadsVersionPart, SpellsSource, IsNoVersionPart, IsNoSource};

use dist_control::trimmed;
use dist_relation::{Name, RelationError};
use dist_version::{Version, VersionError};
use std::alloc::Global;

/// Why a value gives no source.
#[derive(Clone, Copy, Debug, PartialEq, Eq)]
pub(crate) enum SourceError {
    NoSource,
    NoMemory,
}

/// Whether a name ends at this byte.
fn ends_name(byte: u8) -> bool
    ensures { result ≡ ends_name byte }
{
    byte == b' ' || byte == b'\t' || byte == b'\n' || byte == b'('
}

/// Where the name ends.
fn name_end(value: &[u8]) -> usize
    ensures place { result ≡ position_or_len ends_name value.now }
    ensures within { result ≤ length value.now }
{
    for (place, byte) in value.iter().enumerate() {
        if ends_name(*byte) {
            return place;
        }
    }
    value.len()
}

/// What stands in the parentheses of a text that begins and ends with them, without white space at its ends.
fn in_parentheses(part: &[u8]) -> Option<&[u8]>
    ensures { MatchOption result ((text : List ℕ) → ¬ IsInParentheses part.now text)
        (λ text. IsInParentheses part.now text.now) }
{
    let [b'(', inner @ .., b')'] = part else {
        return None;
    };
    Some(trimmed(inner))
}

/// The version that a part gives, if it has one.
fn version_of(alloc: Global, part: &[u8]) -> Result<Option<Version>, SourceError>
    ensures { Answers (ReadsVersionPart part.now) (λ error. (error ≡ SourceError.NoSource) × IsNoVersionPart part.now)
        SourceError.NoMemory result }
{
    if part.is_empty() {
        return Ok(None);
    }
    let Some(text) = in_parentheses(part) else {
        return Err(SourceError::NoSource);
    };
    match Version::read(alloc, text) {
        Ok(version) => Ok(Some(version)),
        Err(VersionError::NoMemory) => Err(SourceError::NoMemory),
        Err(_) => Err(SourceError::NoSource),
    }
}

/// The source that a value gives, with its version if it has one.
pub(crate) fn source_of(alloc: Global, value: &[u8]) -> Result<(Name, Option<Version>), SourceError>
    ensures { Answers (λ source. SpellsSource value.now source.0 source.1)
        (λ error. (error ≡ SourceError.NoSource) × IsNoSource value.now) SourceError.NoMemory result }
{
    let end = name_end(value);
    let name = match Name::read(alloc, &value[..end]) {
        Ok(name) => name,
        Err(RelationError::NoMemory) => return Err(SourceError::NoMemory),
        Err(_) => return Err(SourceError::NoSource),
    };
    match version_of(alloc, trimmed(&value[end..])) {
        Ok(version) => Ok((name, version)),
        Err(error) => Err(error),
    }
}
