//! The packages of a file in order, and what can be asked of them without taking memory.
ghost use Rattle.std.specs.Prelude.{◌≡◌, ◌<◌, ◌^◌, ◌↔◌, ℕ, List, [], Some, length, slice_get, IsTrue, IfOk, OnOk};
ghost use Rattle.std.specs.Option.{option_copied};
ghost use Rattle.dist_asked.specs.AskedPlaces.{AreEnough};
ghost use Rattle.dist_relation.specs.declared.atom.Atom.{Atom};
ghost use Rattle.dist_repo.specs.AskedPrivate.{AreAskedOfConflicts, AreAskedOfItems};
ghost use Rattle.dist_repo.specs.Conflict.{AreInConflict};
ghost use Rattle.dist_repo.specs.Indexed.{IsIndex};
ghost use Rattle.dist_repo.specs.LatestPrivate.{is_last_of_name, last_of_names};
ghost use Rattle.dist_repo.specs.Match.{IsUsable, Matches};
ghost use Rattle.dist_repo.specs.Offers.{AreMatched, AreOffers};
ghost use Rattle.dist_repo.specs.Order.{key_cmp, IsFlat, IsInOrder, IsLatestOf};
ghost use Rattle.dist_repo.specs.OwnPrivate.{AreCounted, AreOwn};
ghost use Rattle.dist_repo.specs.Providers.{AreProviders, IsPackageAt};
ghost use Rattle.dist_repo.specs.Size.{IsWithinSize};
ghost use Rattle.dist_repo.specs.declared.package.Package.{Package};

use crate::asked_lists::{AskedLists, asked_conflicts, asked_items};
use crate::edges::meeting;
use crate::key::{Key, compare};
use crate::matching;
use crate::names::{NameIndex, place_of};
use crate::offers::Offer;
use crate::own::{Own, numbers_named, offers_named, own_of};
use crate::package::Package;
use crate::pairs::{Pair, beside};
use crate::size::has_few_relations;
use crate::tally::tally_of;
use dist_asked::AskedPlaces;
use dist_base::MAX_PACKAGES;
use dist_relation::{Atom, Name, Qualifier};
use dist_version::Version;
use std::alloc::{AllocError, Global};
use std::cmp::Ordering;
use std::marker::Model;

/// Packages in the order of the bytes of their names, and then of their versions. Their numbers start at 0.
#[derive(Drop)]
pub struct Repository {
    architecture: Option<Name>,
    packages: Vec<Key>,
    /// What packages offer of their own names.
    own: Own,
    /// The names that entries of Provides have, the numbers of the providers of each, and what they offer.
    index: NameIndex,
    /// Which alternatives of items have to be asked.
    asked_items: AskedLists,
    /// Which conflict atoms have to be asked.
    asked_conflicts: AskedLists,
}

impl Model for Repository {
    ghost use Rattle.dist_repo.specs.PackageList.{PackageList};
    ghost use Rattle.dist_repo.specs.Indexed.{IsRepository};

    ghost Value = { PackageList };

    ghost view = { λ r. record { architecture = r.architecture; packages = r.packages.items } };

    ghost invariant = { λ r. IsRepository (record { architecture = r.architecture; packages = r.packages.items }) r.own.numbers.items r.own.offers.items r.index.names r.index.numbers r.index.offers r.asked_items r.asked_conflicts };
}

impl Repository {
    /// The repository of packages in order.
    pub(crate) fn from_packages(
        alloc: Global,
        architecture: Option<Name>,
        packages: Vec<Key>,
    ) -> Result<Repository, AllocError>
        requires in_order { IsInOrder packages.items }
        requires few { length packages.items < 2 ^ 32 }
        ensures { IfOk result (λ r. r ≡ record { architecture = architecture; packages = packages.items }) }
    {
        match tables_of(alloc, &architecture, &packages) {
            Ok(tables) => Ok(Repository {
                architecture,
                packages,
                own: tables.first.first,
                index: tables.first.second,
                asked_items: tables.second.first,
                asked_conflicts: tables.second.second,
            }),
            Err(error) => {
                drop(architecture);
                drop(packages);
                Err(error)
            }
        }
    }

    /// How many packages there are.
    pub fn len(&self) -> u32
        ensures value { result ≡ length self.now.packages }
        ensures in_order { IsInOrder self.now.packages }
    {
        self.packages.len() as u32
    }

    /// Packages are in order, and fewer than 32 bits can number. Does nothing.
    pub fn keeps_invariant(&self)
        ensures in_order { IsInOrder self.now.packages }
        ensures few { length self.now.packages < 2 ^ 32 }
    {
        self.len();
    }

    /// The package of a number.
    pub fn package(&self, number: u32) -> &Package
        requires { number < length self.now.packages }
        ensures { slice_get self.now.packages number ≡ Some result.now }
    {
        self.packages[number as usize].package()
    }

    /// The architecture of the file, where it has one.
    pub fn architecture(&self) -> Option<&Name>
        ensures { option_copied result ≡ self.now.architecture }
    {
        self.architecture.as_ref()
    }

    /// The number of the package that has this name and an equal version.
    pub fn find(&self, name: &[u8], version: &Version) -> Option<u32>
        ensures { (number : ℕ) → (result ≡ Some number) ↔ IsPackageAt self.now.packages number name.now version.now }
    {
        let by_key = |key: &Key| -> Ordering
            ensures { result ≡ key_cmp (key.now.name, key.now.version) (name.entry.now, version.entry.now) }
        { compare(key.package(), name, version) };
        match self.packages.as_slice().binary_search_by(by_key) {
            Ok(place) => Some(place as u32),
            Err(_) => None,
        }
    }

    /// The numbers of the packages that have the name or a usable entry of Provides of it, rising.
    pub fn providers(&self, name: &[u8]) -> &[u32]
        ensures { AreProviders self.now name.now result.now }
    {
        let guess = self.index.guesses.guess(name);
        match place_of(&self.index.names, name, guess) {
            Some(place) => self.index.numbers.get(place),
            None => {
                let guess = self.own.guesses.guess(name);
                numbers_named(&self.packages, &self.own.numbers, name, guess)
            }
        }
    }

    /// Which alternatives of an item of a package have to be asked: each of the others allows no more than one of these.
    pub fn asked_alternatives(&self, number: u32, item: usize) -> &AskedPlaces
        ensures { (p : Package) (atoms : List Atom) → slice_get self.now.packages number ≡ Some p
            → slice_get p.depends item ≡ Some atoms → AreEnough atoms result.now }
    {
        self.asked_items.find(number, item)
    }

    /// Which conflict atoms of a package have to be asked: each of the others allows no more than one of these.
    pub fn asked_conflicts(&self, number: u32) -> &AskedPlaces
        ensures { (p : Package) → slice_get self.now.packages number ≡ Some p → AreEnough p.conflicts result.now }
    {
        self.asked_conflicts.find(number, 0)
    }

    /// Whether an atom or an entry of Provides with this qualifier is usable.
    pub fn usable(&self, qualifier: &Qualifier) -> bool
        ensures { IsTrue result ↔ IsUsable self.now.architecture qualifier.now }
    {
        matching::is_usable(&self.architecture, qualifier)
    }

    /// Whether an atom matches a package.
    pub fn matches(&self, atom: &Atom, package: &Package) -> bool
        ensures { IsTrue result ↔ Matches self.now.architecture atom.now «package».now }
    {
        matching::matches(&self.architecture, atom, package)
    }

    /// What packages offer of a name, in the order of versions.
    fn offers(&self, name: &[u8]) -> &[Offer]
        ensures { AreOffers self.now name.now result.now }
    {
        let guess = self.index.guesses.guess(name);
        match place_of(&self.index.names, name, guess) {
            Some(place) => self.index.offers.get(place),
            None => {
                let guess = self.own.guesses.guess(name);
                offers_named(&self.packages, &self.own.offers, name, guess)
            }
        }
    }

    /// What packages offer of the name of an atom and it matches: the packages are those that it matches.
    pub fn matched(&self, atom: &Atom) -> &[Offer]
        ensures { AreMatched self.now atom.now result.now }
    {
        if !self.usable(&atom.qualifier) {
            return &[];
        }
        meeting(&self.packages, self.offers(atom.name.bytes()), &atom.bound)
    }

    /// Whether two packages are in conflict.
    pub fn conflict(&self, first: &Package, second: &Package) -> bool
        ensures { IsTrue result ↔ AreInConflict self.now.architecture first.now second.now }
    {
        matching::are_in_conflict(&self.architecture, first, second)
    }

    /// Whether there are at most the stated numbers of packages, and of atoms and entries.
    pub fn is_within_size(&self) -> bool
        ensures { IsTrue result ↔ IsWithinSize self.now }
    {
        self.packages.len() <= MAX_PACKAGES as usize && has_few_relations(&self.packages)
    }

    /// Whether each name has one version.
    pub fn is_flat(&self) -> bool
        ensures { IsTrue result ↔ IsFlat self.now.packages }
    {
        for number in 1..self.packages.len() {
            if self.packages[number - 1].name() == self.packages[number].name() {
                return false;
            }
        }
        true
    }

    /// The newest version of each name, for the same architecture.
    pub fn latest(&self) -> Result<Repository, AllocError>
        ensures { IfOk result (IsLatestOf self.now) }
    {
        let alloc = *self.packages.allocator();
        let architecture = match &self.architecture {
            Some(name) => Some(name.try_clone()?),
            None => None,
        };
        let both = beside(architecture, newest_of(alloc, &self.packages))?;
        Repository::from_packages(alloc, both.first, both.second)
    }
}

/// What is kept beside packages: who offers which name, and which places of lists have to be asked.
type Tables = Pair<Pair<Own, NameIndex>, Pair<AskedLists, AskedLists>>;

/// What is kept beside packages.
fn tables_of(
    alloc: Global,
    architecture: &Option<Name>,
    packages: &[Key],
) -> Result<Tables, AllocError>
    requires in_order { IsInOrder packages.now }
    requires few { length packages.now < 2 ^ 32 }
    ensures counted { IfOk result (λ tables. AreCounted (length packages.now) tables.first.first.numbers.items) }
    ensures own { IfOk result (λ tables. AreOwn packages.now (length packages.now) tables.first.first.offers.items) }
    ensures index { IfOk result (λ tables. IsIndex (record { architecture = architecture.now; packages = packages.now })
        tables.first.second.names tables.first.second.numbers tables.first.second.offers) }
    ensures items { IfOk result (λ tables. AreAskedOfItems packages.now tables.second.first) }
    ensures conflicts { IfOk result (λ tables. AreAskedOfConflicts packages.now tables.second.second) }
{
    let offered = offered_of(alloc, architecture, packages)?;
    beside(offered, asked_of(alloc, packages))
}

/// Which places have to be asked of items, and of conflicts.
fn asked_of(alloc: Global, packages: &[Key]) -> Result<Pair<AskedLists, AskedLists>, AllocError>
    requires { length packages.now < 2 ^ 32 }
    ensures items { IfOk result (λ asked. AreAskedOfItems packages.now asked.first) }
    ensures conflicts { IfOk result (λ asked. AreAskedOfConflicts packages.now asked.second) }
{
    let items = asked_items(alloc, packages)?;
    beside(items, asked_conflicts(alloc, packages))
}

/// What packages offer of their own names, and the index of the names that entries of Provides have.
fn offered_of(
    alloc: Global,
    architecture: &Option<Name>,
    packages: &[Key],
) -> Result<Pair<Own, NameIndex>, AllocError>
    requires in_order { IsInOrder packages.now }
    requires few { length packages.now < 2 ^ 32 }
    ensures counted { IfOk result (λ tables. AreCounted (length packages.now) tables.first.numbers.items) }
    ensures own { IfOk result (λ tables. AreOwn packages.now (length packages.now) tables.first.offers.items) }
    ensures index { IfOk result (λ tables. IsIndex (record { architecture = architecture.now; packages = packages.now })
        tables.second.names tables.second.numbers tables.second.offers) }
{
    let own = own_of(alloc, packages)?;
    let index = index_of(alloc, architecture, packages, &own.offers);
    beside(own, index)
}

/// The index of the names that entries of Provides have.
fn index_of(
    alloc: Global,
    architecture: &Option<Name>,
    packages: &[Key],
    own: &[Offer],
) -> Result<NameIndex, AllocError>
    requires in_order { IsInOrder packages.now }
    requires few { length packages.now < 2 ^ 32 }
    requires own { AreOwn packages.now (length packages.now) own.now }
    ensures { IfOk result (λ index. IsIndex (record { architecture = architecture.now; packages = packages.now })
        index.names index.numbers index.offers) }
{
    let tally = tally_of(alloc, architecture, packages)?;
    let index = tally.flattened(packages, own);
    drop(tally);
    index
}

/// Copies of the last package of each name.
fn newest_of(alloc: Global, packages: &[Key]) -> Result<Vec<Key>, AllocError>
    ensures { IfOk result (λ newest. newest.items ≡ last_of_names packages.now) }
{
    let mut newest = Vec::new(alloc);
    match push_newest(alloc, packages, &mut newest) {
        Ok(()) => Ok(newest),
        Err(error) => {
            drop(newest);
            Err(error)
        }
    }
}

/// Adds copies of the last package of each name to an empty list.
fn push_newest(alloc: Global, packages: &[Key], newest: &mut Vec<Key>) -> Result<(), AllocError>
    requires { newest.old.items ≡ [] }
    ensures { OnOk result (newest.new.items ≡ last_of_names packages.now) }
{
    let mut rest = packages;
    while let [first, others @ ..] = rest {
        if is_last_of_name(first, others) {
            newest.push(first.try_clone(alloc)?)?;
        }
        rest = others;
    }
    Ok(())
}

/// Whether the packages behind a package begin with another name, or there is none.
fn is_last_of_name(key: &Key, others: &[Key]) -> bool
    ensures { result ≡ is_last_of_name key.now others.now }
{
    match others {
        [next, ..] => key.name() != next.name(),
        [] => true,
    }
}
