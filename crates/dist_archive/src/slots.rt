//! What is held of each package of the repository: the package itself, nothing, or a new version.
ghost use Rattle.std.specs.Prelude.{◌≡◌, ◌+◌, ◌<◌, All, IfOk, Some, if◌then◌else◌, length, replicate, slice_get, slice_set, true};
ghost use Rattle.dist_archive.specs.SlotsPrivate.{filled_count, is_filled, puts};
ghost use Rattle.dist_archive.specs.declared.slots.Slot.TheVariants as slot;

use dist_repo::Package;
use std::alloc::{AllocError, Global};
use std::marker::Model;

/// What is held of one package.
#[derive(Drop)]
pub(crate) enum Slot {
    /// The package itself.
    Kept,
    /// Nothing of its name.
    Gone,
    /// A new version.
    New(Box<Package>),
}

impl Slot {
    /// Whether something is held.
    pub(crate) fn is_filled(&self) -> bool
        ensures { result ≡ is_filled self.now }
    {
        match self {
            Slot::Kept | Slot::New(_) => true,
            Slot::Gone => false,
        }
    }
}

/// How many slots hold something, once one of them is put anew.
fn count_after(count: u32, was: bool, is: bool) -> u32
    requires some { was ≡ true → 0 < count }
    requires room { count < 4294967295 }
    ensures { result + (if was then 1 else 0) ≡ count + (if is then 1 else 0) }
{
    match (was, is) {
        (true, false) => count - 1,
        (false, true) => count + 1,
        _ => count,
    }
}

/// One slot for each package, and how many of them hold something.
#[derive(Drop)]
pub(crate) struct Slots {
    slots: Vec<Slot>,
    filled: u32,
}

impl Model for Slots {
    ghost use Rattle.std.specs.Prelude.{◌≡◌, ◌<◌, List, length};
    ghost use Rattle.dist_archive.specs.declared.slots.Slot.{Slot};
    ghost use Rattle.dist_archive.specs.SlotsPrivate.{filled_count};

    ghost Value = { List Slot };

    ghost view = { λ s. s.slots.items };

    ghost invariant = { λ s. (s.filled ≡ filled_count s.slots.items) × (length s.slots.items < 4294967295) };
}

impl Slots {
    /// Every package is held itself.
    pub(crate) fn new(alloc: Global, packages: u32) -> Result<Slots, AllocError>
        requires { packages < 4294967295 }
        ensures { IfOk result (λ slots. slots ≡ replicate packages slot.Kept) }
    {
        let mut slots = Vec::new(alloc);
        for _number in 0..packages {
            slots.push(Slot::Kept)?;
        }
        Ok(Slots {
            slots,
            filled: packages,
        })
    }

    /// How many hold something.
    pub(crate) fn filled(&self) -> u32
        ensures { result ≡ filled_count self.now }
    {
        self.filled
    }

    /// The slot of a number.
    pub(crate) fn get(&self, number: u32) -> &Slot
        requires { number < length self.now }
        ensures { slice_get self.now number ≡ Some result.now }
    {
        &self.slots[number as usize]
    }

    /// Puts what is held of one package from now on.
    pub(crate) fn put(&mut self, number: u32, slot: Slot)
        requires { number < length self.old }
        ensures { self.new ≡ slice_set self.old number slot }
    {
        let place = number as usize;
        self.filled = count_after(self.filled, self.slots[place].is_filled(), slot.is_filled());
        self.slots[place] = slot;
    }

    /// Puts what is held of several packages.
    pub(crate) fn put_all(&mut self, numbers: &[u32], mut slots: Vec<Slot>)
        requires beside { length slots.items ≡ length numbers.now }
        requires within { All (λ number. number < length self.old) numbers.now }
        ensures { self.new ≡ puts numbers.now slots.items self.old }
    {
        while let Some(slot) = slots.pop() {
            self.put(numbers[slots.len()], slot);
        }
    }
}
