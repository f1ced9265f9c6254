//! Sets of numbers that are filled and emptied again.
ghost use Rattle.std.specs.Prelude.{◌≡◌, ◌==◌, ◌||◌, [], ℕ, OnOk};
ghost use Rattle.std.specs.List.{list_all};
ghost use Rattle.dist_cert.specs.Rising.{is_among};

use std::alloc::{AllocError, Global};
use std::collections::BTreeSet;
use std::marker::Model;

/// A set of numbers. Emptying it costs what it has.
#[derive(Drop)]
pub(crate) struct NumberSet {
    numbers: BTreeSet<u32>,
}

impl Model for NumberSet {
    ghost use Rattle.std.specs.Prelude.{ℕ, List};

    ghost Value = { List ℕ };

    ghost view = { λ s. s.numbers.keys };
}

impl NumberSet {
    /// No numbers.
    pub(crate) fn new(alloc: Global) -> NumberSet
        ensures { result ≡ [] }
    {
        NumberSet {
            numbers: BTreeSet::new(alloc),
        }
    }

    /// Puts a number in.
    pub(crate) fn add(&mut self, number: u32) -> Result<(), AllocError>
        ensures { OnOk result ((q : ℕ) → is_among self.new q ≡ ((q == number) || is_among self.old q)) }
    {
        self.numbers.insert(number)?;
        Ok(())
    }

    /// Whether a number is in.
    pub(crate) fn has(&self, number: u32) -> bool
        ensures { result ≡ is_among self.now number }
    {
        self.numbers.contains(&number)
    }

    /// Whether all of some numbers are in.
    pub(crate) fn has_all(&self, numbers: &[u32]) -> bool
        ensures { result ≡ list_all (is_among self.now) numbers.now }
    {
        numbers.iter().all(|number| self.has(*number))
    }

    /// Takes all numbers out.
    pub(crate) fn clear(&mut self)
        ensures { self.new ≡ [] }
    {
        self.numbers.clear();
    }
}
