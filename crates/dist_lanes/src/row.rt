//! Rows: a truth value at each place.

ghost use Rattle.std.specs.Prelude.{◌≡◌, ◌&&◌, ◌<◌, ◌≤◌, ◌↔◌, [], ℕ, true, false, count_by, length, replicate, IfNone, IfOk, IfSome, IsTrue};
ghost use Rattle.std.specs.Prelude.{slice_set};
ghost use Rattle.dist_lanes.specs.Rows.{value_at, both, IsSubset, Meets, IsAllFalse, AreFalseUpTo};

use crate::words::{and_words, are_within, bit, fill, meet, next_bit, ones, set_bit};
use std::alloc::{AllocError, Global};
use std::marker::Model;

/// A truth value at each place, from 0 on.
#[derive(Debug, Drop)]
pub struct Row {
    /// 64 places in a word, the first one in its lowest bit, and no bit set behind the last place.
    words: Vec<u64>,
    places: usize,
}

impl Model for Row {
    ghost use Rattle.std.specs.Prelude.{List, Bool};

    ghost Value = { List Bool };

    ghost use Rattle.dist_lanes.specs.Bits.{bits};
    ghost use Rattle.dist_lanes.specs.BitsPrivate.{IsRow};

    ghost view = { λ a. bits a.words.items a.places };

    ghost invariant = { λ a. IsRow a.words.items a.places };
}

impl Row {
    /// All places are false.
    pub fn new(alloc: Global, bits: usize) -> Result<Row, AllocError>
        ensures { IfOk result (λ a. a ≡ replicate bits false) }
    {
        let words = vec![in alloc; 0u64; bits.div_ceil(64)]?;
        Ok(Row {
            words,
            places: bits,
        })
    }

    /// No place. It takes no memory.
    pub fn empty(alloc: Global) -> Row
        ensures { result ≡ [] }
    {
        Row {
            words: Vec::new(alloc),
            places: 0,
        }
    }

    pub fn len(&self) -> usize
        ensures { result ≡ length self.now }
    {
        self.places
    }

    pub fn get(&self, place: usize) -> bool
        requires { place < length self.now }
        ensures { result ≡ value_at self.now place }
    {
        bit(&self.words, place)
    }

    pub fn set(&mut self, place: usize, value: bool)
        requires { place < length self.old }
        ensures { self.new ≡ slice_set self.old place value }
    {
        set_bit(&mut self.words, place, value);
    }

    /// Every place gets the value.
    pub fn fill(&mut self, value: bool)
        ensures { self.new ≡ replicate (length self.old) value }
    {
        fill(&mut self.words, self.places, value);
    }

    /// Every place gets the other row's value.
    pub fn copy_from(&mut self, other: &Row)
        requires { length self.old ≡ length other.now }
        ensures { self.new ≡ other.now }
    {
        self.words.copy_from_slice(&other.words);
    }

    /// A place stays true where it is true in the other row too.
    pub fn and_into(&mut self, other: &Row)
        requires { length self.old ≡ length other.now }
        ensures all { self.new ≡ both self.old other.now }
        ensures len { length self.new ≡ length self.old }
        ensures each { (k : ℕ) → value_at self.new k ≡ (value_at self.old k && value_at other.now k) }
    {
        and_words(&mut self.words, &other.words);
    }

    /// Whether each true place is true in the other row too.
    pub fn is_subset(&self, other: &Row) -> bool
        requires { length self.now ≡ length other.now }
        ensures { IsTrue result ↔ IsSubset self.now other.now }
    {
        are_within(&self.words, &other.words)
    }

    /// Whether some place is true in both rows.
    pub fn meets(&self, other: &Row) -> bool
        requires { length self.now ≡ length other.now }
        ensures { IsTrue result ↔ Meets self.now other.now }
    {
        meet(&self.words, &other.words)
    }

    /// How many places are true.
    pub fn count_ones(&self) -> usize
        ensures { result ≡ count_by (λ value. value) self.now }
    {
        ones(&self.words)
    }

    /// Whether no place is true.
    pub fn is_empty(&self) -> bool
        ensures { IsTrue result ↔ IsAllFalse self.now }
    {
        !meet(&self.words, &self.words)
    }

    /// The first true place at or behind a place.
    pub fn next_true(&self, from: usize) -> Option<usize>
        ensures some { IfSome result (λ p. (from ≤ p) × (p < length self.now) × (value_at self.now p ≡ true) × AreFalseUpTo self.now from p) }
        ensures none { IfNone result ((k : ℕ) → from ≤ k → value_at self.now k ≡ false) }
    {
        next_bit(&self.words, from)
    }
}
