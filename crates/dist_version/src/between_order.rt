//! The order of the versions just above another one and below it, which are not made for that. So a class of versions, for
//! which one of these stands, takes no memory of its own.
ghost use Rattle.std.specs.Prelude.{◌≡◌, ◌++◌, [], codes, map, replicate};
ghost use Rattle.std.specs.Ordering.{int_cmp, nat_cmp, ordering_then};
ghost use Rattle.dist_base.specs.Ascii.{tilde};
ghost use Rattle.dist_version.specs.Between.{above_text, below_text, extension};
ghost use Rattle.dist_version.specs.Order.{after_turn, number_of, part_cmp, text_start, version_cmp, weight_at, weight_of, weights_cmp};

use crate::Version;
use crate::order::{
    compare_numbers, compare_parts, compare_turns, first_weight, next_turn, text_len,
};
use std::cmp::Ordering;

/// The weight of a tilde, and that of the letter `A`.
const TILDE: i16 = -1;

const LETTER: i16 = 65;

/// Compares a weight with that of the first byte of the text that a part begins with.
fn compare_weight(weight: i16, part: &[u8]) -> Ordering
    ensures { result ≡ int_cmp weight (weight_at (map weight_of (text_start part.now)) 0) }
{
    weight.cmp(&first_weight(part))
}

/// Compares so many tildes with the text that a part begins with, by their weights.
fn compare_tildes(tildes: usize, part: &[u8]) -> Ordering
    ensures { result ≡ weights_cmp (map weight_of (replicate tildes tilde)) (map weight_of (text_start part.now)) }
{
    let mut left = tildes;
    let mut rest = part;
    while left > 0 {
        let order = compare_weight(TILDE, rest);
        if order.is_ne() {
            return order;
        }
        left -= 1;
        rest = &rest[1..];
    }
    compare_weight(0, rest)
}

/// Compares `A` and so many tildes with the text that a part begins with.
fn compare_letter_text(tildes: usize, part: &[u8]) -> Ordering
    ensures { result ≡ weights_cmp (map weight_of (codes "A" ++ replicate tildes tilde)) (map weight_of (text_start part.now)) }
{
    let order = compare_weight(LETTER, part);
    if order.is_ne() {
        return order;
    }
    compare_tildes(tildes, &part[1..])
}

/// Compares a part that is a text without digits with another part, where the order of this text and that of the other is
/// known.
fn compare_alone(texts: Ordering, other: &[u8]) -> Ordering
    ensures { result ≡ ordering_then texts (ordering_then (nat_cmp 0 (number_of other.now)) (part_cmp [] (after_turn other.now))) }
{
    if texts.is_ne() {
        return texts;
    }
    let order = compare_numbers(&[], &other[text_len(other)..]);
    if order.is_ne() {
        return order;
    }
    compare_parts(&[], next_turn(other).rest)
}

/// Compares `A` and so many tildes with a part.
fn compare_letter(tildes: usize, other: &[u8]) -> Ordering
    ensures { result ≡ part_cmp (codes "A" ++ replicate tildes tilde) other.now }
{
    compare_alone(compare_letter_text(tildes, other), other)
}

/// Compares a revision and what makes it a little greater with another one.
fn compare_extended(revision: &[u8], tildes: usize, other: &[u8]) -> Ordering
    ensures { result ≡ part_cmp (revision.now ++ extension revision.now tildes) other.now }
{
    let mut revision = revision;
    let mut other = other;
    loop {
        let order = compare_turns(revision, other);
        if order.is_ne() {
            return order;
        }
        revision = next_turn(revision).rest;
        other = next_turn(other).rest;
        if revision.is_empty() {
            return compare_letter(tildes, other);
        }
    }
}

impl Version {
    /// Compares the version that [`Version::after`] makes with another one. It takes no memory.
    pub fn compare_after(&self, tildes: usize, other: &Version) -> Ordering
        ensures { result ≡ version_cmp (above_text self.now tildes) other.now }
    {
        let order = self.places().epoch.cmp(&other.epoch());
        if order.is_ne() {
            return order;
        }
        let order = compare_parts(self.upstream_to_compare(), other.upstream_to_compare());
        if order.is_ne() {
            return order;
        }
        compare_extended(
            self.revision_to_compare(),
            tildes,
            other.revision_to_compare(),
        )
    }

    /// Compares the version that [`Version::below`] makes with another one. It takes no memory.
    pub fn compare_below(&self, other: &Version) -> Ordering
        ensures { result ≡ version_cmp (below_text self.now) other.now }
    {
        let order = 0u32.cmp(&other.epoch());
        if order.is_ne() {
            return order;
        }
        let upstream = other.upstream_to_compare();
        let tildes = self.text().len() + 1;
        let order = compare_alone(compare_tildes(tildes, upstream), upstream);
        if order.is_ne() {
            return order;
        }
        compare_parts(&[], other.revision_to_compare())
    }

    /// Compares the version `0` with another one. It takes no memory.
    pub fn compare_zero(other: &Version) -> Ordering
        ensures { result ≡ version_cmp (codes "0") other.now }
    {
        let order = 0u32.cmp(&other.epoch());
        if order.is_ne() {
            return order;
        }
        let order = compare_parts(b"0", other.upstream_to_compare());
        if order.is_ne() {
            return order;
        }
        compare_parts(&[], other.revision_to_compare())
    }
}
