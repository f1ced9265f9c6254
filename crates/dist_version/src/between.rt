//! Versions in between: just above a version, below one, and one without the suffix of a rebuild.
ghost use Rattle.std.specs.Prelude.{◌≡◌, ◌≤◌, ◌++◌, ℕ, List, IfOk, OnOk, MatchOption, length, replicate};
ghost use Rattle.dist_base.specs.Ascii.{tilde};
ghost use Rattle.dist_version.specs.Order.{IsBelow};
ghost use Rattle.dist_version.specs.Between.{ends_in_digit, extension, above_text, below_text, is_rebuild, without_rebuild_text};
ghost use Rattle.dist_version.specs.Kept.{Keeps};

use crate::Version;
use crate::reading::{Places, are_digits, places_of, rsplit_once};
use smallvec::SmallVec;
use std::alloc::AllocError;

/// Whether the last byte is a digit.
#[tactic(auto, using(crate::proofs::Density::last_digit))]
fn ends_in_digit(bytes: &[u8]) -> bool
    ensures { result ≡ ends_in_digit bytes.now }
{
    match bytes.last() {
        Some(byte) => byte.is_ascii_digit(),
        None => false,
    }
}

/// Puts so many tildes at the end. A length that no `usize` holds is want of memory.
fn push_tildes(text: &mut SmallVec<u8, 16>, tildes: usize) -> Result<(), AllocError>
    ensures { OnOk result (text.new.items ≡ text.old.items ++ replicate tildes tilde) }
{
    match text.len().checked_add(tildes) {
        Some(length) => text.resize(length, b'~'),
        None => Err(AllocError),
    }
}

/// Puts at the end what makes this revision a little greater.
fn push_extension(
    text: &mut SmallVec<u8, 16>,
    revision: &[u8],
    tildes: usize,
) -> Result<(), AllocError>
    ensures { OnOk result (text.new.items ≡ text.old.items ++ extension revision.now tildes) }
{
    if !ends_in_digit(revision) {
        text.push(b'0')?;
    }
    text.push(b'A')?;
    push_tildes(text, tildes)
}

/// Whether the bytes are `b` and one or more digits.
fn is_rebuild(suffix: &[u8]) -> bool
    ensures { result ≡ is_rebuild suffix.now }
{
    match suffix {
        [b'b', digits @ ..] => !digits.is_empty() && are_digits(digits),
        _ => false,
    }
}

/// The version of which the text is a rebuild, with its places. Its suffix begins at the last plus.
fn rebuilt(text: &[u8]) -> Option<(&[u8], Places)>
    ensures { MatchOption result
        (without_rebuild_text text.now ≡ text.now)
        (λ base. (without_rebuild_text text.now ≡ base.0.now) × Keeps base.0.now base.1.epoch base.1.start base.1.end) }
{
    match rsplit_once(text, b'+') {
        Some((base, suffix)) if is_rebuild(suffix) => match places_of(base) {
            Ok(places) => Some((base, places)),
            Err(_) => None,
        },
        _ => None,
    }
}

impl Version {
    /// The text just above this one.
    fn text_after(&self, tildes: usize) -> Result<SmallVec<u8, 16>, AllocError>
        ensures { IfOk result (λ text. text.items ≡ above_text self.now tildes) }
    {
        let mut text = SmallVec::from_slice(self.text.allocator(), self.text())?;
        match self.revision() {
            Some(revision) => push_extension(&mut text, revision, tildes)?,
            None => {
                text.push(b'-')?;
                push_extension(&mut text, &[], tildes)?;
            }
        }
        Ok(text)
    }

    /// A version just above this one: its revision is extended by `0` where it is missing or ends in no digit, by `A`, and by so many tildes.
    /// A text too long to be made is want of memory.
    pub fn after(&self, tildes: usize) -> Result<Version, AllocError>
        ensures text { IfOk result (λ after. after ≡ above_text self.now tildes) }

        // It is above this version, and below each greater one whose text has at most so many bytes as there are tildes.
        ensures above { IfOk result (λ after. IsBelow self.now after) }
        ensures below { IfOk result (λ after. (other : List ℕ) → IsBelow self.now other → length other ≤ tildes → IsBelow after other) }
    {
        // The upstream version ends where it did, since all is put behind it.
        Version::keep(self.text_after(tildes)?, self.places())
    }

    /// A version below this one: as many tildes as the text has bytes, and one more.
    pub fn below(&self) -> Result<Version, AllocError>
        ensures text { IfOk result (λ below. below ≡ below_text self.now) }
        ensures below { IfOk result (λ below. IsBelow below self.now) }
    {
        let mut text = SmallVec::new(self.text.allocator());
        let end = self.text().len() + 1;
        push_tildes(&mut text, end)?;
        let places = Places {
            epoch: 0,
            start: 0,
            end,
        };
        Version::keep(text, places)
    }

    /// This version without its rebuild suffix, a final `+b` and one or more digits, which is taken off once and only where a version is left.
    pub fn without_rebuild(&self) -> Result<Version, AllocError>
        ensures { IfOk result (λ version. version ≡ without_rebuild_text self.now) }
    {
        match rebuilt(self.text()) {
            Some((base, places)) => {
                let text = SmallVec::from_slice(self.text.allocator(), base)?;
                Version::keep(text, places)
            }
            None => self.try_clone(),
        }
    }
}
