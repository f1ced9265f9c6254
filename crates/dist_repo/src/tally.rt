//! Who offers a name by an entry of Provides, while the packages are gone through: for each name the offers so far.
ghost use Rattle.std.specs.Prelude.{◌≡◌, ◌<◌, ◌^◌, ◌++◌, ◌∷◌, ℕ, [], IfOk, OnOk, IsSomeAnd, length, slice_get};
ghost use Rattle.std.specs.Cmp.Lexicographic.{slice_cmp};
ghost use Rattle.std.specs.List.{AllZip};
ghost use Rattle.std.specs.List.Sorted.{IsStrictlySortedBy};
ghost use Rattle.std.specs.Map.{keys_of};
ghost use Rattle.std.specs.Ordering.{nat_cmp};
ghost use Rattle.dist_repo.specs.Order.{IsInOrder};
ghost use Rattle.dist_repo.specs.OwnPrivate.{AreOwn};
ghost use Rattle.dist_repo.specs.Providers.{IsEntryOf};
ghost use Rattle.dist_repo.specs.TallyPrivate.{AreNumbersOf, IsRowOf, IsTallyOf, Notes, NotesEach};

use crate::guesses::Guesses;
use crate::key::Key;
use crate::matching::is_usable;
use crate::name_key::NameKey;
use crate::names::NameIndex;
use crate::offers::{Offer, write_numbers, write_order};
use crate::own::offers_named;
use crate::package::Package;
use dist_base::Flat;
use dist_relation::Name;
use smallvec::SmallVec;
use std::alloc::{AllocError, Global};
use std::collections::BTreeMap;
use std::marker::Model;

/// For each name the offers so far. Most names have few, which take no memory of their own.
#[derive(Drop)]
pub(crate) struct Tally<'a> {
    alloc: Global,
    offers: BTreeMap<NameKey<'a>, Offers>,
}

/// Some offers.
#[derive(Drop)]
struct Offers {
    offers: SmallVec<Offer, 2>,
}

impl Model for Offers {
    ghost use Rattle.std.specs.Prelude.{List};
    ghost use Rattle.dist_repo.specs.declared.offers.Offer.{Offer};

    ghost Value = { List Offer };

    ghost view = { λ list. list.offers.items };
}

impl Offers {
    fn new(alloc: Global) -> Offers
        ensures { result ≡ [] }
    {
        Offers {
            offers: SmallVec::new(alloc),
        }
    }

    fn as_slice(&self) -> &[Offer]
        ensures { result.now ≡ self.now }
    {
        self.offers.as_slice()
    }

    fn add(&mut self, offer: Offer) -> Result<(), AllocError>
        ensures { OnOk result (self.new ≡ self.old ++ offer ∷ []) }
    {
        self.offers.push(offer)?;
        Ok(())
    }
}

impl<'a> Model for Tally<'a> {
    ghost use Rattle.std.specs.Prelude.{ℕ, List};
    ghost use Rattle.dist_repo.specs.declared.offers.Offer.{Offer};

    ghost Value = { List (List ℕ × List Offer) };

    ghost view = { λ tally. tally.offers.entries };
}

impl<'a> Tally<'a> {
    pub(crate) fn new(alloc: Global) -> Tally<'a>
        ensures { result ≡ [] }
    {
        Tally {
            alloc,
            offers: BTreeMap::new(alloc),
        }
    }

    /// Notes that the package of a number offers a name at a place. A place past 4,294,967,295 is want of memory too.
    fn note(&mut self, name: &'a Name, number: u32, place: usize) -> Result<(), AllocError>
        ensures { OnOk result (Notes self.old self.new name.now number place) }
    {
        if place > u32::MAX as usize {
            return Err(AllocError);
        }
        let offer = Offer {
            number,
            place: place as u32,
        };
        let none = Offers::new(self.alloc);
        let key = NameKey::new(name);
        self.offers.entry(key)?.or_insert(none).add(offer)
    }

    /// Notes what the package of a number offers by its entries.
    pub(crate) fn note_package(
        &mut self,
        architecture: &Option<Name>,
        package: &'a Package,
        number: u32,
    ) -> Result<(), AllocError>
        ensures { OnOk result (NotesEach self.old self.new
            (λ q place. IsSomeAnd (slice_get «package».now.provides place) (IsEntryOf architecture.now q)) number) }
    {
        for place in 0..package.provides.len() {
            let entry = package.provides.get(place);
            if is_usable(architecture, &entry.qualifier) {
                self.note(&entry.name, number, place)?;
            }
        }
        Ok(())
    }

    /// Notes what all packages of a list offer by entries, where nothing is noted.
    fn note_packages(
        &mut self,
        architecture: &Option<Name>,
        packages: &'a [Key],
    ) -> Result<(), AllocError>
        requires few { length packages.now < 2 ^ 32 }
        requires none { self.old ≡ [] }
        ensures { OnOk result (IsTallyOf architecture.now packages.now self.new) }
    {
        for (number, key) in packages.iter().enumerate() {
            self.note_package(architecture, key.package(), number as u32)?;
        }
        Ok(())
    }

    /// Where each name may stand among them in order.
    fn guesses(&self) -> Result<Guesses, AllocError> {
        let mut guesses = Guesses::for_names(self.alloc, self.offers.len())?;
        for (place, (key, _)) in self.offers.iter().enumerate() {
            guesses.note(key.name().bytes(), place);
        }
        Ok(guesses)
    }

    /// The names, and beside each its providers and their offers, the packages' own among them, laid flat.
    pub(crate) fn flattened(&self, packages: &[Key], own: &[Offer]) -> Result<NameIndex, AllocError>
        requires in_order { IsInOrder packages.now }
        requires own { AreOwn packages.now (length packages.now) own.now }
        ensures names { IfOk result (λ index. index.names ≡ keys_of self.now) }
        ensures in_order { IfOk result (λ index. IsStrictlySortedBy (slice_cmp nat_cmp) index.names) }
        ensures numbers { IfOk result (λ index. AllZip AreNumbersOf index.numbers index.offers) }
        ensures offers { IfOk result (λ index. AllZip (IsRowOf packages.now) index.offers self.now) }
    {
        let guesses = self.guesses()?;
        let mut index = NameIndex {
            names: Flat::new(self.alloc),
            numbers: Flat::new(self.alloc),
            offers: Flat::new(self.alloc),
            guesses,
        };
        match self.fill(packages, own, &mut index) {
            Ok(()) => Ok(index),
            Err(error) => {
                drop(index);
                Err(error)
            }
        }
    }

    /// Adds the names to an empty index, and beside each its providers and their offers.
    fn fill(&self, packages: &[Key], own: &[Offer], index: &mut NameIndex) -> Result<(), AllocError>
        requires in_order { IsInOrder packages.now }
        requires own { AreOwn packages.now (length packages.now) own.now }
        requires names { index.old.names ≡ [] }
        requires numbers { index.old.numbers ≡ [] }
        requires offers { index.old.offers ≡ [] }
        ensures names { OnOk result (index.new.names ≡ keys_of self.now) }
        ensures in_order { OnOk result (IsStrictlySortedBy (slice_cmp nat_cmp) index.new.names) }
        ensures numbers { OnOk result (AllZip AreNumbersOf index.new.numbers index.new.offers) }
        ensures offers { OnOk result (AllZip (IsRowOf packages.now) index.new.offers self.now) }
    {
        let mut numbers = Vec::new(self.alloc);
        let mut offers = Vec::new(self.alloc);
        let filled = self.fill_rows(packages, own, &mut numbers, &mut offers, index);
        drop(numbers);
        drop(offers);
        filled
    }

    /// The same, with lists for the providers of one name and their offers.
    fn fill_rows(
        &self,
        packages: &[Key],
        own: &[Offer],
        some_numbers: &mut Vec<u32>,
        some_offers: &mut Vec<Offer>,
        index: &mut NameIndex,
    ) -> Result<(), AllocError>
        requires in_order { IsInOrder packages.now }
        requires own { AreOwn packages.now (length packages.now) own.now }
        requires names { index.old.names ≡ [] }
        requires numbers { index.old.numbers ≡ [] }
        requires offers { index.old.offers ≡ [] }
        ensures names { OnOk result (index.new.names ≡ keys_of self.now) }
        ensures in_order { OnOk result (IsStrictlySortedBy (slice_cmp nat_cmp) index.new.names) }
        ensures numbers { OnOk result (AllZip AreNumbersOf index.new.numbers index.new.offers) }
        ensures offers { OnOk result (AllZip (IsRowOf packages.now) index.new.offers self.now) }
    {
        for (key, list) in self.offers.iter() {
            let name = key.name().bytes();
            let named = offers_named(packages, own, name, usize::MAX);
            write_order(packages, list.as_slice(), named, some_offers)?;
            write_numbers(some_offers, some_numbers)?;
            index.names.push(name)?;
            index.numbers.push(some_numbers)?;
            index.offers.push(some_offers)?;
        }
        Ok(())
    }
}

/// Who offers which name by entries, for all packages of a list.
pub(crate) fn tally_of<'a>(
    alloc: Global,
    architecture: &Option<Name>,
    packages: &'a [Key],
) -> Result<Tally<'a>, AllocError>
    requires { length packages.now < 2 ^ 32 }
    ensures { IfOk result (IsTallyOf architecture.now packages.now) }
{
    let mut tally = Tally::new(alloc);
    match tally.note_packages(architecture, packages) {
        Ok(()) => Ok(tally),
        Err(error) => {
            drop(tally);
            Err(error)
        }
    }
}
