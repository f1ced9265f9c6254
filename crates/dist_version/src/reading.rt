//! The parts of a version text, and its first fault, by Debian Policy 5.6.12.
ghost use Rattle.std.specs.Prelude.{◌≡◌, ◌+◌, ◌^◌, ◌<◌, None, Some, MatchResult, length, not, position};
ghost use Rattle.std.specs.Char.{is_ascii_digit};
ghost use Rattle.std.specs.List.{list_all};
ghost use Rattle.std.specs.Option.{option_map, option_map_or, option_or, option_copied};
ghost use Rattle.std.specs.Str.Parse.{digits_value};
ghost use Rattle.dist_base.specs.Ascii.{hyphen};
ghost use Rattle.dist_version.specs.Spelling.{split_once, rsplit_once, is_upstream_byte, is_revision_byte};
ghost use Rattle.dist_version.specs.Spelling.{epoch_digits, after_epoch, epoch_of, upstream_of, revision_of};
ghost use Rattle.dist_version.specs.Faults.{fault_of, epoch_fault, upstream_fault, revision_fault, bad_byte};
ghost use Rattle.dist_version.specs.Kept.{Keeps};

use crate::MAX_EPOCH;
use crate::error::VersionError;
use memchr::{memchr, memrchr};

/// The value of the epoch, and the places in the text where the upstream version starts and ends.
#[derive(Clone, Copy, Debug)]
pub(crate) struct Places {
    pub(crate) epoch: u32,
    pub(crate) start: usize,
    pub(crate) end: usize,
}

impl Places {
    /// The upstream version in the text of which these are the places.
    pub(crate) fn upstream<'a>(self, text: &'a [u8]) -> &'a [u8]
        requires { Keeps text.now self.epoch self.start self.end }
        ensures { result.now ≡ upstream_of text.now }
    {
        &text[self.start..self.end]
    }

    /// The revision in that text.
    pub(crate) fn revision<'a>(self, text: &'a [u8]) -> Option<&'a [u8]>
        requires { Keeps text.now self.epoch self.start self.end }
        ensures { option_copied result ≡ revision_of text.now }
    {
        if self.end < text.len() {
            Some(&text[self.end + 1..])
        } else {
            None
        }
    }
}

/// What stands before and after the first such byte.
fn split_once(bytes: &[u8], byte: u8) -> Option<(&[u8], &[u8])>
    ensures { option_map (λ s. (s.0.now, s.1.now)) result ≡ split_once byte bytes.now }
{
    let at = memchr(byte, bytes)?;
    Some((&bytes[..at], &bytes[at + 1..]))
}

/// What stands before and after the last such byte.
pub(crate) fn rsplit_once(bytes: &[u8], byte: u8) -> Option<(&[u8], &[u8])>
    ensures { option_map (λ s. (s.0.now, s.1.now)) result ≡ rsplit_once byte bytes.now }
{
    let at = memrchr(byte, bytes)?;
    Some((&bytes[..at], &bytes[at + 1..]))
}

/// Whether an upstream version may have the byte.
fn is_upstream_byte(byte: u8) -> bool
    ensures { result ≡ is_upstream_byte byte }
{
    byte.is_ascii_alphanumeric() || matches!(byte, b'.' | b'+' | b'-' | b'~' | b':')
}

/// Whether a revision may have the byte.
fn is_revision_byte(byte: u8) -> bool
    ensures { result ≡ is_revision_byte byte }
{
    byte.is_ascii_alphanumeric() || matches!(byte, b'.' | b'+' | b'~')
}

/// The place of the first byte that an upstream version may not have.
fn bad_upstream_byte(upstream: &[u8]) -> Option<usize>
    ensures { result ≡ position (λ byte. not (is_upstream_byte byte)) upstream.now }
{
    upstream.iter().position(|byte| !is_upstream_byte(*byte))
}

/// The place of the first byte that a revision may not have.
fn bad_revision_byte(revision: &[u8]) -> Option<usize>
    ensures { result ≡ position (λ byte. not (is_revision_byte byte)) revision.now }
{
    revision.iter().position(|byte| !is_revision_byte(*byte))
}

/// Whether all bytes are digits.
pub(crate) fn are_digits(bytes: &[u8]) -> bool
    ensures { result ≡ list_all is_ascii_digit bytes.now }
{
    bytes.iter().all(|byte| byte.is_ascii_digit())
}

/// The number that an epoch's digits write.
fn epoch_value(digits: &[u8]) -> Result<u32, VersionError>
    ensures { MatchResult result
        (λ value. (epoch_fault digits.now ≡ None) × (digits_value 10 digits.now ≡ value))
        (λ error. epoch_fault digits.now ≡ Some error) }
{
    if digits.is_empty() || !are_digits(digits) {
        return Err(VersionError::BadEpoch);
    }
    let mut value: u64 = 0;
    for digit in digits {
        value = value * 10 + u64::from(*digit - b'0');
        if value > u64::from(MAX_EPOCH) {
            return Err(VersionError::EpochTooLarge);
        }
    }
    Ok(value as u32)
}

/// The epoch, and the text after it.
fn split_epoch(text: &[u8]) -> Result<(u32, &[u8]), VersionError>
    ensures { MatchResult result
        (λ s. (option_map_or epoch_fault (epoch_digits text.now) None ≡ None) × (epoch_of text.now ≡ s.0) × (after_epoch text.now ≡ s.1.now))
        (λ error. option_map_or epoch_fault (epoch_digits text.now) None ≡ Some error) }
{
    match split_once(text, b':') {
        Some((digits, rest)) => Ok((epoch_value(digits)?, rest)),
        None => Ok((0, text)),
    }
}

/// The upstream version and the revision of the text after the epoch.
fn split_revision(rest: &[u8]) -> (&[u8], Option<&[u8]>)
    ensures upstream { result.0.now ≡ option_map_or (λ s. s.0) (rsplit_once hyphen rest.now) rest.now }
    ensures revision { option_copied result.1 ≡ option_map (λ s. s.1) (rsplit_once hyphen rest.now) }
{
    match rsplit_once(rest, b'-') {
        Some((upstream, revision)) => (upstream, Some(revision)),
        None => (rest, None),
    }
}

/// Refuses an empty upstream version, and an empty revision.
fn check_lengths(upstream: &[u8], revision: Option<&[u8]>) -> Result<(), VersionError>
    ensures { MatchResult result
        (λ _. option_or (upstream_fault upstream.now) (revision_fault (option_copied revision.entry)) ≡ None)
        (λ error. option_or (upstream_fault upstream.now) (revision_fault (option_copied revision.entry)) ≡ Some error) }
{
    if upstream.is_empty() {
        return Err(VersionError::EmptyUpstream);
    }
    match revision {
        Some([]) => Err(VersionError::EmptyRevision),
        _ => Ok(()),
    }
}

/// Refuses an upstream version that begins at `start`, or the revision one place after its end, by the first byte that it may not have.
fn check_bytes(upstream: &[u8], revision: &[u8], start: usize) -> Result<(), VersionError>
    requires { start + length upstream.now + 1 + length revision.now < 2 ^ 64 }
    ensures { MatchResult result
        (λ _. option_or (bad_byte is_upstream_byte start upstream.now) (bad_byte is_revision_byte (start + length upstream.now + 1) revision.now) ≡ None)
        (λ error. option_or (bad_byte is_upstream_byte start upstream.now) (bad_byte is_revision_byte (start + length upstream.now + 1) revision.now) ≡ Some error) }
{
    if let Some(at) = bad_upstream_byte(upstream) {
        return Err(VersionError::BadByte(start + at));
    }
    if let Some(at) = bad_revision_byte(revision) {
        return Err(VersionError::BadByte(start + upstream.len() + 1 + at));
    }
    Ok(())
}

/// The places of a version text, or its first fault.
pub(crate) fn places_of(text: &[u8]) -> Result<Places, VersionError>
    ensures { MatchResult result
        (λ places. Keeps text.now places.epoch places.start places.end)
        (λ error. fault_of text.now ≡ Some error) }
{
    if text.is_empty() {
        return Err(VersionError::Empty);
    }
    let (epoch, rest) = split_epoch(text)?;
    let (upstream, revision) = split_revision(rest);
    check_lengths(upstream, revision)?;
    let start = text.len() - rest.len();
    check_bytes(upstream, revision.unwrap_or(&[]), start)?;
    Ok(Places {
        epoch,
        start,
        end: start + upstream.len(),
    })
}
