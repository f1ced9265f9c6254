//! Words of bits: one bit, and all of them eight words at a time.

ghost use Rattle.std.specs.Prelude.{◌≡◌, ◌≢◌, ◌+◌, ◌*◌, ◌/◌, ◌^◌, ◌<◌, ◌≤◌, ◌↔◌, ℕ, true, false, length, IfNone, IfSome, IsTrue, slice_index, bit_and};
ghost use Rattle.std.specs.Prelude.{sum_by, count_ones};
ghost use Rattle.std.specs.Simd.Lanes.{zip2, chunk, put_chunk};
ghost use Rattle.dist_lanes.specs.Bits.{bit, SetsBit};
ghost use Rattle.dist_lanes.specs.BitsPrivate.{AreClear, AreWords, Conjoins, FillsPlaces};

use std::simd::prelude::*;

/// Words that are taken at a time.
const LANES: usize = 8;

/// The bit at a place.
pub(crate) fn bit(words: &[u64], place: usize) -> bool
    requires { place < 64 * length words.now }
    ensures { result ≡ bit words.now place }
{
    words[place / 64] >> (place % 64) & 1 == 1
}

/// Sets the bit at a place to a value.
pub(crate) fn set_bit(words: &mut [u64], place: usize, value: bool)
    requires { place < 64 * length words.old }
    ensures { SetsBit words.old words.new place value }
{
    let mask = 1 << (place % 64);
    let word = words[place / 64];
    words[place / 64] = if value { word | mask } else { word & !mask };
}

/// Each word becomes what it has in common with the one beside it.
pub(crate) fn and_words(words: &mut [u64], others: &[u64])
    requires { length words.old ≡ length others.now }
    ensures { Conjoins words.old others.now words.new }
{
    for group in 0..words.len() / LANES {
        and_lanes(words, others, LANES * group);
    }
    for at in words.len() / LANES * LANES..words.len() {
        words[at] &= others[at];
    }
}

fn and_lanes(words: &mut [u64], others: &[u64], at: usize)
    requires words { at + 8 ≤ length words.old }
    requires others { at + 8 ≤ length others.now }
    ensures { words.new ≡ put_chunk at words.old (zip2 bit_and (chunk at 8 words.old) (chunk at 8 others.now)) }
{
    let both = u64x8::from_slice(&words[at..]) & u64x8::from_slice(&others[at..]);
    both.copy_to_slice(&mut words[at..]);
}

/// Whether each bit of some words is one of others too.
pub(crate) fn are_within(words: &[u64], others: &[u64]) -> bool
    requires { length words.now ≡ length others.now }
    ensures { IsTrue result ↔ ((k : ℕ) → bit words.now k ≡ true → bit others.now k ≡ true) }
{
    for group in 0..words.len() / LANES {
        if !lanes_are_within(words, others, LANES * group) {
            return false;
        }
    }
    for at in words.len() / LANES * LANES..words.len() {
        if words[at] & others[at] != words[at] {
            return false;
        }
    }
    true
}

fn lanes_are_within(words: &[u64], others: &[u64], at: usize) -> bool
    requires words { at + 8 ≤ length words.now }
    requires others { at + 8 ≤ length others.now }
    ensures { IsTrue result ↔ ((k : ℕ) → at ≤ k → k < at + 8 → bit_and (slice_index words.now k) (slice_index others.now k) ≡ slice_index words.now k) }
{
    let lanes = u64x8::from_slice(&words[at..]);
    let both = lanes & u64x8::from_slice(&others[at..]);
    (both ^ lanes).reduce_or() == 0
}

/// Whether some bit is one of both.
pub(crate) fn meet(words: &[u64], others: &[u64]) -> bool
    requires { length words.now ≡ length others.now }
    ensures { IsTrue result ↔ ((k : ℕ) × (bit words.now k ≡ true) × (bit others.now k ≡ true)) }
{
    for group in 0..words.len() / LANES {
        if lanes_meet(words, others, LANES * group) {
            return true;
        }
    }
    for at in words.len() / LANES * LANES..words.len() {
        if words[at] & others[at] != 0 {
            return true;
        }
    }
    false
}

fn lanes_meet(words: &[u64], others: &[u64], at: usize) -> bool
    requires words { at + 8 ≤ length words.now }
    requires others { at + 8 ≤ length others.now }
    ensures { IsTrue result ↔ ((k : ℕ) × (at ≤ k) × (k < at + 8) × (bit_and (slice_index words.now k) (slice_index others.now k) ≢ 0)) }
{
    let both = u64x8::from_slice(&words[at..]) & u64x8::from_slice(&others[at..]);
    both.reduce_or() != 0
}

/// How many bits are set.
pub(crate) fn ones(words: &[u64]) -> usize
    requires { AreWords words.now → sum_by count_ones words.now < 2 ^ 64 }
    ensures words { AreWords words.now }
    ensures sum { result ≡ sum_by count_ones words.now }
{
    let mut total = 0;
    for group in 0..words.len() / LANES {
        total += lanes_ones(words, LANES * group) as usize;
    }
    for at in words.len() / LANES * LANES..words.len() {
        total += words[at].count_ones() as usize;
    }
    total
}

fn lanes_ones(words: &[u64], at: usize) -> u64
    requires { at + 8 ≤ length words.now }
    ensures { result ≡ sum_by count_ones (chunk at 8 words.now) }
{
    u64x8::from_slice(&words[at..]).count_ones().reduce_sum()
}

/// Gives each place the value, and clears what stands behind the last one.
pub(crate) fn fill(words: &mut [u64], places: usize, value: bool)
    requires { length words.old ≡ (places + 63) / 64 }
    ensures { FillsPlaces words.old words.new places value }
{
    if value {
        set_places(words, places);
    } else {
        words.fill(0);
    }
}

fn set_places(words: &mut [u64], places: usize)
    requires { length words.old ≡ (places + 63) / 64 }
    ensures { FillsPlaces words.old words.new places true }
{
    words.fill(u64::MAX);
    if places % 64 > 0 {
        words[places / 64] = u64::MAX >> (64 - places % 64);
    }
}

fn lanes_are_zero(words: &[u64], at: usize) -> bool
    requires { at + 8 ≤ length words.now }
    ensures { IsTrue result → (k : ℕ) → at ≤ k → k < at + 8 → slice_index words.now k ≡ 0 }
{
    u64x8::from_slice(&words[at..]).reduce_or() == 0
}

/// Passes over words that are zero, from one on, as long as eight at a time are. Few bits are set in a long row.
fn pass_zeros(words: &[u64], from: usize) -> usize
    requires { from ≤ length words.now }
    ensures behind { from ≤ result }
    ensures zeros { (k : ℕ) → from ≤ k → k < result → slice_index words.now k ≡ 0 }
{
    let groups = (words.len() - from) / LANES;
    for group in 0..groups {
        if !lanes_are_zero(words, from + LANES * group) {
            return from + LANES * group;
        }
    }
    from + LANES * groups
}

/// The first bit that is set at or behind a place.
pub(crate) fn next_bit(words: &[u64], from: usize) -> Option<usize>
    requires { 64 * length words.now ≤ 2 ^ 64 }
    ensures some { IfSome result (λ p. (from ≤ p) × (bit words.now p ≡ true) × AreClear words.now from p) }
    ensures none { IfNone result ((k : ℕ) → from ≤ k → bit words.now k ≡ false) }
{
    let first = from / 64;
    if first >= words.len() {
        return None;
    }
    let rest = words[first] & (u64::MAX << (from % 64));
    if rest != 0 {
        return Some(64 * first + rest.trailing_zeros() as usize);
    }
    for number in pass_zeros(words, first + 1)..words.len() {
        let word = words[number];
        if word != 0 {
            return Some(64 * number + word.trailing_zeros() as usize);
        }
    }
    None
}
