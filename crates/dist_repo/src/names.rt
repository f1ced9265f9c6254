//! A table of names in order, and the place of a name in it.
ghost use Rattle.std.specs.Prelude.{◌≡◌, Some, Contains, MatchOption, slice_get};
ghost use Rattle.std.specs.Cmp.Lexicographic.{slice_cmp};
ghost use Rattle.std.specs.List.Sorted.{IsStrictlySortedBy};
ghost use Rattle.std.specs.Ordering.{nat_cmp};

use crate::guesses::{Guesses, next_look};
use crate::offers::Offer;
use dist_base::Flat;
use std::cmp::Ordering;

/// A table of names in order. Beside each stand the numbers of its providers, and their offers in the order of versions.
#[derive(Drop)]
pub(crate) struct NameIndex {
    pub(crate) names: Flat<u8>,
    pub(crate) numbers: Flat<u32>,
    pub(crate) offers: Flat<Offer>,
    /// Where each name may stand.
    pub(crate) guesses: Guesses,
}

/// The place of a name among names that rise in the order of their bytes, with a guess at it.
pub(crate) fn place_of(names: &Flat<u8>, name: &[u8], guess: usize) -> Option<usize>
    requires { IsStrictlySortedBy (slice_cmp nat_cmp) names.now }
    ensures { MatchOption result (¬ Contains names.now name.now) (λ place. slice_get names.now place ≡ Some name.now) }
{
    let mut low = 0;
    let mut high = names.len();
    while low < high {
        let middle = next_look(guess, low, high);
        match names.get(middle).cmp(name) {
            Ordering::Less => low = middle + 1,
            Ordering::Equal => return Some(middle),
            Ordering::Greater => high = middle,
        }
    }
    None
}
