//! Which places have to be asked of those lists of atoms of which some don't have to. So what is asked of a list does not cost
//! the product of its atoms and of what each of them matches, and whoever asks takes no memory for it.
ghost use Rattle.std.specs.Prelude.{◌≡◌, ◌⊎◌, ◌<◌, ◌^◌, List, [], Contains, IfOk, IsTrue, OnOk, Some, length, slice_get};
ghost use Rattle.dist_asked.specs.AskedPlaces.{AreEnough};
ghost use Rattle.dist_relation.specs.declared.atom.Atom.{Atom};
ghost use Rattle.dist_repo.specs.AskedPrivate.{AreAskedOfConflicts, AreAskedOfItems};
ghost use Rattle.dist_repo.specs.declared.asked_lists.AskedList.{AskedList};

use crate::key::Key;
use crate::package::Package;
use dist_asked::AskedPlaces;
use std::alloc::{AllocError, Global};
use std::marker::Model;

/// Which places of a list of a package have to be asked.
#[derive(Drop)]
struct AskedList {
    number: u32,
    /// The place of the list in its field.
    place: usize,
    asked: AskedPlaces,
}

/// The lists of which some place does not have to be asked. They rise by the numbers of their packages, and then by places: a
/// wrong order would cost time alone.
#[derive(Drop)]
pub(crate) struct AskedLists {
    lists: Vec<AskedList>,
    /// What is answered of all others.
    all: AskedPlaces,
}

impl Model for AskedLists {
    ghost use Rattle.std.specs.Prelude.{List};
    ghost use Rattle.dist_asked.specs.AskedPlaces.{AreEnough};
    ghost use Rattle.dist_relation.specs.declared.atom.Atom.{Atom};
    ghost use Rattle.dist_repo.specs.declared.asked_lists.AskedList.{AskedList};

    ghost Value = { List AskedList };

    ghost view = { λ asked. asked.lists.items };

    ghost invariant = { λ asked. (atoms : List Atom) → AreEnough atoms asked.all };
}

impl AskedList {
    /// Whether it comes before the list of a package and a place.
    fn is_before(&self, number: u32, place: usize) -> bool {
        self.number < number || self.number == number && self.place < place
    }

    /// Whether it is the list of a package and a place.
    fn is(&self, number: u32, place: usize) -> bool
        ensures number { IsTrue result → self.now.number ≡ number }
        ensures place { IsTrue result → self.now.place ≡ place }
    {
        self.number == number && self.place == place
    }
}

impl AskedLists {
    fn new(alloc: Global) -> AskedLists
        ensures { result ≡ [] }
    {
        AskedLists {
            lists: Vec::new(alloc),
            all: AskedPlaces::all(alloc),
        }
    }

    /// Adds a list, if some place of it does not have to be asked.
    fn add(&mut self, number: u32, place: usize, asked: AskedPlaces) -> Result<(), AllocError>
        ensures { OnOk result ((list : AskedList) → Contains self.new list
            → Contains self.old list ⊎ (list ≡ record { number = number; place = place; asked = asked })) }
    {
        if !asked.leaves_out() {
            drop(asked);
            return Ok(());
        }
        self.lists.push(AskedList {
            number,
            place,
            asked,
        })?;
        Ok(())
    }

    /// Adds the items of the package of a number.
    fn add_items(
        &mut self,
        packages: &[Key],
        number: u32,
        package: &Package,
    ) -> Result<(), AllocError>
        requires number { slice_get packages.now number ≡ Some «package».now }
        requires enough { AreAskedOfItems packages.now self.old }
        ensures { OnOk result (AreAskedOfItems packages.now self.new) }
    {
        let alloc = *self.lists.allocator();
        for place in 0..package.depends.len() {
            let asked = AskedPlaces::in_item(alloc, package.depends.get(place))?;
            self.add(number, place, asked)?;
        }
        Ok(())
    }

    /// Adds the items of all packages.
    fn add_all_items(&mut self, packages: &[Key]) -> Result<(), AllocError>
        requires few { length packages.now < 2 ^ 32 }
        requires enough { AreAskedOfItems packages.now self.old }
        ensures { OnOk result (AreAskedOfItems packages.now self.new) }
    {
        for (number, key) in packages.iter().enumerate() {
            self.add_items(packages, number as u32, key.package())?;
        }
        Ok(())
    }

    /// Adds the conflicts of all packages.
    fn add_all_conflicts(&mut self, packages: &[Key]) -> Result<(), AllocError>
        requires few { length packages.now < 2 ^ 32 }
        requires enough { AreAskedOfConflicts packages.now self.old }
        ensures { OnOk result (AreAskedOfConflicts packages.now self.new) }
    {
        let alloc = *self.lists.allocator();
        for (number, key) in packages.iter().enumerate() {
            let asked = AskedPlaces::in_field(alloc, &key.package().conflicts)?;
            self.add(number as u32, 0, asked)?;
        }
        Ok(())
    }

    /// Where a list stands, if it is there.
    fn place_of(&self, number: u32, place: usize) -> usize {
        let mut low = 0;
        let mut high = self.lists.len();
        while low < high {
            let middle = low + (high - low) / 2;
            if self.lists[middle].is_before(number, place) {
                low = middle + 1;
            } else {
                high = middle;
            }
        }
        low
    }

    /// Which places of a list have to be asked.
    pub(crate) fn find(&self, number: u32, place: usize) -> &AskedPlaces
        ensures { Contains self.now (record { number = number; place = place; asked = result.now })
            ⊎ ((atoms : List Atom) → AreEnough atoms result.now) }
    {
        let at = self.place_of(number, place);
        if at < self.lists.len() && self.lists[at].is(number, place) {
            return &self.lists[at].asked;
        }
        &self.all
    }
}

/// Those of the items of packages.
pub(crate) fn asked_items(alloc: Global, packages: &[Key]) -> Result<AskedLists, AllocError>
    requires { length packages.now < 2 ^ 32 }
    ensures { IfOk result (AreAskedOfItems packages.now) }
{
    let mut lists = AskedLists::new(alloc);
    match lists.add_all_items(packages) {
        Ok(()) => Ok(lists),
        Err(error) => {
            drop(lists);
            Err(error)
        }
    }
}

/// Those of the conflicts of packages, each at place 0.
pub(crate) fn asked_conflicts(alloc: Global, packages: &[Key]) -> Result<AskedLists, AllocError>
    requires { length packages.now < 2 ^ 32 }
    ensures { IfOk result (AreAskedOfConflicts packages.now) }
{
    let mut lists = AskedLists::new(alloc);
    match lists.add_all_conflicts(packages) {
        Ok(()) => Ok(lists),
        Err(error) => {
            drop(lists);
            Err(error)
        }
    }
}
