//! Debian versions: read, kept and compared by Debian Policy 5.6.12; and versions just above and below a given one.
//!
//! A version keeps its text and the places of its parts. Comparing costs the bytes of the shorter text, takes no memory, and
//! passes what the texts begin with alike many bytes at a time. So that it does, a number with many leading zeros is kept
//! without them too (`kept.rt`). The order is defined by weights of bytes (`specs/Order.antt`); a change of the order is a
//! change there first.
#![tactic(auto)]

ghost use Rattle.std.specs.Prelude.{◌≡◌, ◌↔◌, ℕ, List, [], None, IfOk, IsTrue, bytes_eq};
ghost use Rattle.std.specs.Option.{option_copied, unwrap_or};
ghost use Rattle.dist_base.specs.Answers.{Answers};
ghost use Rattle.dist_version.specs.Spelling.{IsVersion, Spells, ReadsVersion, parts_of, epoch_of, upstream_of, revision_of};
ghost use Rattle.dist_version.specs.Faults.{fault_of, IsTextFault};
ghost use Rattle.dist_version.specs.Order.{version_cmp, weights_of};
ghost use Rattle.dist_version.specs.Kept.{Keeps, KeepsText, text_of};

mod between;
mod between_order;
mod error;
mod kept;
mod laws;
mod order;
mod reading;

pub use error::VersionError;
use kept::Text;
pub use laws::{
    equal_is_neither_below, order_is_total, rebuilds_are_taken_off, texts_are_exact,
    versions_are_dense, weights_decide,
};
use order::compare_parts;
use reading::{Places, places_of};
use smallvec::SmallVec;
use std::alloc::{AllocError, Global};
use std::cmp::Ordering;
use std::marker::Model;

/// The greatest epoch.
pub const MAX_EPOCH: u32 = 2_147_483_647;

/// A version, seen as its text. The text is kept once, with the epoch and the places where the upstream version starts and ends.
#[derive(Debug, Drop)]
pub struct Version {
    text: Text,
    epoch: u32,
    /// Only zeros before an epoch could make it larger, and no version takes more room for their sake.
    start: u32,
    end: usize,
}

impl Model for Version {
    ghost Value = { List ℕ };

    ghost view = { λ v. text_of v.text };

    ghost invariant = { λ v. KeepsText v.text v.epoch v.start v.end };
}

impl Version {
    /// Reads a version and keeps a copy of its text.
    pub fn read(alloc: Global, bytes: &[u8]) -> Result<Version, VersionError>
        // The version of this text, or the text's first fault.
        ensures { Answers (ReadsVersion bytes.now) (IsTextFault bytes.now) VersionError.NoMemory result }
    {
        let places = places_of(bytes)?;
        let text = SmallVec::from_slice(alloc, bytes)?;
        Ok(Version::keep(text, places)?)
    }

    /// The version of a text with these places. More zeros before an epoch than a `u32` counts are want of memory.
    fn keep(text: SmallVec<u8, 16>, places: Places) -> Result<Version, AllocError>
        requires { Keeps text.items places.epoch places.start places.end }
        ensures { IfOk result (λ version. version ≡ text.items) }
    {
        let start = u32::try_from(places.start).map_err(|_| AllocError)?;
        Ok(Version {
            text: Text::new(text, places)?,
            epoch: places.epoch,
            start,
            end: places.end,
        })
    }

    /// The places of the parts in the text.
    pub(crate) fn places(&self) -> Places
        ensures { Keeps self.now result.epoch result.start result.end }
    {
        Places {
            epoch: self.epoch,
            start: self.start as usize,
            end: self.end,
        }
    }

    /// The text, as it was read.
    pub fn text(&self) -> &[u8]
        ensures value { result.now ≡ self.now }
        ensures sound { fault_of self.now ≡ None }
        ensures spelled { Spells self.now (parts_of self.now) }
    {
        self.text.as_slice()
    }

    /// The text is a version's. Does nothing.
    pub fn keeps_invariant(&self)
        ensures { IsVersion self.now }
    {
        self.text();
    }

    /// The epoch, which is 0 where the text has none.
    pub fn epoch(&self) -> u32
        ensures { result ≡ epoch_of self.now }
    {
        self.epoch
    }

    /// The upstream version.
    pub fn upstream(&self) -> &[u8]
        ensures { result.now ≡ upstream_of self.now }
    {
        self.places().upstream(self.text())
    }

    /// The revision, where the text has one.
    pub fn revision(&self) -> Option<&[u8]>
        ensures { option_copied result ≡ revision_of self.now }
    {
        self.places().revision(self.text())
    }

    /// Compares two versions. Equal versions may differ in their texts, as `1.0` and `0:1.00-0` do.
    pub fn compare(&self, other: &Version) -> Ordering
        ensures { result ≡ version_cmp self.now other.now }
    {
        if self.text() == other.text() {
            Ordering::Equal
        } else {
            self.compare_by_parts(other)
        }
    }

    /// The order by epoch, upstream version and revision.
    fn compare_by_parts(&self, other: &Version) -> Ordering
        ensures { result ≡ version_cmp self.now other.now }
    {
        let order = self.epoch().cmp(&other.epoch());
        if order.is_ne() {
            return order;
        }
        let order = compare_parts(self.upstream_to_compare(), other.upstream_to_compare());
        if order.is_ne() {
            return order;
        }
        compare_parts(self.revision_to_compare(), other.revision_to_compare())
    }

    /// What the upstream version is compared by.
    pub(crate) fn upstream_to_compare(&self) -> &[u8]
        ensures { weights_of result.now ≡ weights_of (upstream_of self.now) }
    {
        match &self.text {
            Text::Plain(_) => self.upstream(),
            Text::Shared(shared) => shared.upstream.as_slice(),
        }
    }

    /// What the revision is compared by. A missing one is an empty part.
    pub(crate) fn revision_to_compare(&self) -> &[u8]
        ensures { weights_of result.now ≡ weights_of (unwrap_or (revision_of self.now) []) }
    {
        match &self.text {
            Text::Plain(_) => self.revision().unwrap_or(&[]),
            Text::Shared(shared) => shared.revision.as_slice(),
        }
    }

    /// The same version. Where its text is long, both share it.
    pub fn try_clone(&self) -> Result<Version, AllocError>
        ensures { IfOk result (λ version. version ≡ self.now) }
    {
        Ok(Version {
            text: self.text.try_clone()?,
            epoch: self.epoch,
            start: self.start,
            end: self.end,
        })
    }
}

/// Texts that are the same bytes. Versions that are equal in the order of versions may have other texts: see [`Version::compare`].
impl PartialEq for Version {
    ghost use Rattle.std.specs.Prelude.{bytes_eq};
    ghost use Rattle.std.specs.Cmp.{partial_equiv_from_equiv};
    ghost use Rattle.std.specs.Cmp.Lexicographic.{nat_list_eq_equiv};

    ghost eq = { bytes_eq };

    ghost laws = { partial_equiv_from_equiv nat_list_eq_equiv };

    fn eq(&self, other: &Version) -> bool
        ensures value { result ≡ bytes_eq self.now other.now }
        ensures same { IsTrue result ↔ (self.now ≡ other.now) }
    {
        self.text() == other.text()
    }
}

impl Eq for Version {
    ghost use Rattle.std.specs.Cmp.Lexicographic.{nat_list_eq_equiv};

    ghost laws = { nat_list_eq_equiv };
}
