//! Guesses at the places of names in order. A search looks there first, so a wrong guess costs time alone, and nothing is
//! promised of one.
ghost use Rattle.std.specs.Prelude.{◌<◌, ◌≤◌};

use std::alloc::{AllocError, Global};

/// How many of a name's first bytes its slot depends on.
const BYTES: usize = 64;

/// Slots with a place each. Of the names with one slot the first that was noted has it.
#[derive(Drop)]
pub(crate) struct Guesses {
    places: Vec<u32>,
}

impl Guesses {
    /// Slots for so many names, where none is noted.
    pub(crate) fn for_names(alloc: Global, count: usize) -> Result<Guesses, AllocError> {
        let mut places = Vec::new(alloc);
        match places.resize(count.saturating_mul(4), u32::MAX) {
            Ok(()) => Ok(Guesses { places }),
            Err(_) => {
                drop(places);
                Err(AllocError)
            }
        }
    }

    /// The slot of a name, if there are any.
    fn slot_of(&self, name: &[u8]) -> Option<usize> {
        let mut code = name.len() as u64;
        for byte in name.iter().take(BYTES) {
            code = (code ^ u64::from(*byte)).wrapping_mul(0x0100_0000_01b3);
        }
        let mixed = code ^ (code >> 32);
        mixed
            .checked_rem(self.places.len() as u64)
            .map(|slot| slot as usize)
    }

    /// Notes that a name stands at a place.
    pub(crate) fn note(&mut self, name: &[u8], place: usize) {
        let slot = self.slot_of(name);
        if let Some(slot) = slot
            && let Some(known) = self.places.get_mut(slot)
            && *known == u32::MAX
        {
            *known = u32::try_from(place).unwrap_or(u32::MAX);
        }
    }

    /// A place at which the name may stand.
    pub(crate) fn guess(&self, name: &[u8]) -> usize {
        match self.slot_of(name) {
            Some(slot) => self.places.get(slot).copied().unwrap_or(u32::MAX) as usize,
            None => u32::MAX as usize,
        }
    }
}

/// The place at which a search from one place up to another looks: at the guess, then beside it, and else in the middle.
pub(crate) fn next_look(guess: usize, low: usize, high: usize) -> usize
    requires { low < high }
    ensures from { low ≤ result }
    ensures to { result < high }
{
    if low <= guess && guess < high {
        return guess;
    }
    if guess == high {
        return high - 1;
    }
    low + (high - low) / 2
}
