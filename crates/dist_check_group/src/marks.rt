//! Sets of numbers in which each is found by its place.
ghost use Rattle.std.specs.Prelude.{◌≡◌, ◌==◌, ◌||◌, ℕ, false, IfOk, OnOk, slice_index_or};
ghost use Rattle.dist_cert.specs.Rising.{is_among};
ghost use Rattle.dist_check_group.specs.MarksPrivate.{is_marked};

use dist_clause::Assignment;
use std::alloc::{AllocError, Global};
use std::marker::Model;

/// A set of numbers. Those below a bound have a bit each; all others are listed.
#[derive(Drop)]
pub(crate) struct Marks {
    places: Assignment,
    bound: u32,
    others: Vec<u32>,
}

impl Model for Marks {
    ghost use Rattle.std.specs.Prelude.{◌≡◌, length};
    ghost use Rattle.dist_check_group.specs.MarksPrivate.{MarksView};

    ghost Value = { MarksView };

    ghost view = { λ m. record { places = m.places; others = m.others.items } };

    ghost invariant = { λ m. m.bound ≡ length m.places };
}

impl Marks {
    /// No numbers, with room for those below a bound.
    pub(crate) fn new(alloc: Global, bound: u32) -> Result<Marks, AllocError>
        ensures { IfOk result (λ marks. (q : ℕ) → is_marked marks q ≡ false) }
    {
        Ok(Marks {
            places: Assignment::new(alloc, bound)?,
            bound,
            others: Vec::new(alloc),
        })
    }

    /// Puts a number in.
    pub(crate) fn add(&mut self, number: u32) -> Result<(), AllocError>
        ensures { OnOk result ((q : ℕ) → is_marked self.new q ≡ ((q == number) || is_marked self.old q)) }
    {
        if number < self.bound {
            self.places.set(number + 1, true);
            return Ok(());
        }
        self.others.push(number)?;
        Ok(())
    }

    /// Puts all of some numbers in.
    pub(crate) fn add_all(&mut self, numbers: &[u32]) -> Result<(), AllocError>
        ensures { OnOk result ((q : ℕ) → is_marked self.new q ≡ (is_marked self.old q || is_among numbers.now q)) }
    {
        for number in numbers {
            self.add(*number)?;
        }
        Ok(())
    }

    /// Whether a number is in.
    pub(crate) fn has(&self, number: u32) -> bool
        ensures { result ≡ is_marked self.now number }
    {
        self.has_place(number) || self.others.contains(&number)
    }

    /// Whether a number below the bound is in.
    fn has_place(&self, number: u32) -> bool
        ensures { result ≡ slice_index_or self.now.places number false }
    {
        number < self.bound && self.places.value(number + 1)
    }
}
