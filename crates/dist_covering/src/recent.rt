//! The latest installations with each package. They are guesses: whether an installation is kept and has the package is tested
//! where it is to be named, so a wrong one costs time alone.
ghost use Rattle.std.specs.Prelude.{◌-◌};

use dist_clause::Assignment;
use std::alloc::{AllocError, Global};

/// How many installations are known of each variable.
pub(crate) const LATEST: u32 = 16;

/// For each variable up to a last one the numbers of the latest installations with it, and of the latest ones of today.
#[derive(Drop)]
pub(crate) struct Recent {
    last: u32,
    /// So many numbers for each slot, in a ring. Behind the slots of all installations stand those of today's.
    numbers: Vec<u32>,
    /// How many were noted in each slot.
    counts: Vec<u32>,
}

impl Recent {
    /// None yet, with room for the variables up to a last one.
    pub(crate) fn new(alloc: Global, last: u32) -> Result<Recent, AllocError> {
        let mut recent = Recent {
            last,
            numbers: Vec::new(alloc),
            counts: Vec::new(alloc),
        };
        match recent.make_room() {
            Ok(()) => Ok(recent),
            Err(error) => {
                drop(recent);
                Err(error)
            }
        }
    }

    fn make_room(&mut self) -> Result<(), AllocError> {
        let slots = self.slot_of(self.last, true).saturating_add(1);
        self.counts.resize(slots, 0)?;
        self.numbers
            .resize(slots.saturating_mul(LATEST as usize), 0)?;
        Ok(())
    }

    /// The slot of a variable, of all installations or of today's.
    fn slot_of(&self, variable: u32, of_today: bool) -> usize {
        let first = if of_today { self.last as usize } else { 0 };
        first.saturating_add(variable as usize)
    }

    /// The place in a slot of the one that was noted behind so many.
    fn place_of(&self, slot: usize, behind: u32) -> usize {
        slot.saturating_mul(LATEST as usize)
            .saturating_add((behind % LATEST) as usize)
    }

    fn count(&self, slot: usize) -> u32 {
        self.counts.get(slot).copied().unwrap_or(0)
    }

    /// Notes an installation in a slot.
    fn note(&mut self, slot: usize, number: u32) {
        let place = self.place_of(slot, self.count(slot));
        if let Some(known) = self.numbers.get_mut(place) {
            *known = number;
        }
        if let Some(count) = self.counts.get_mut(slot) {
            *count = count.wrapping_add(1);
        }
    }

    /// Notes that an installation, perhaps one of today, has a variable.
    fn note_variable(&mut self, variable: u32, number: u32, is_today: bool) {
        self.note(self.slot_of(variable, false), number);
        if is_today {
            self.note(self.slot_of(variable, true), number);
        }
    }

    /// Notes an installation with each variable that it has, up to the last one.
    pub(crate) fn note_all(&mut self, values: &Assignment, number: u32) {
        let is_today = values.next_true(1) == Some(1);
        let last = self.last;
        let mut variable = 0;
        'noted: while variable < last {
            match values.next_true(variable + 1) {
                Some(next) => {
                    self.note_variable(next, number, is_today);
                    variable = next;
                }
                None => variable = last,
            }
        }
    }

    /// The number of an installation that may have a variable: the latest one, or one so many before it; or 0.
    pub(crate) fn latest(&self, variable: u32, back: u32, of_today: bool) -> u32 {
        let slot = self.slot_of(variable, of_today);
        let count = self.count(slot);
        if back >= count || back >= LATEST {
            return 0;
        }
        let place = self.place_of(slot, count - 1 - back);
        self.numbers.get(place).copied().unwrap_or(0)
    }
}
