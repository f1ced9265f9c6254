//! Which packages may match an atom by a new version of theirs where they do not match it as they are: those of its name, and those
//! with an entry of the name that goes with the package's version. All are found in one walk.
ghost use Rattle.std.specs.Prelude.{◌≡◌, ◌↔◌, ◌∷◌, [], ℕ, Any, Contains, IfOk, IsTrue, OnOk};
ghost use Rattle.dist_space_clauses.specs.Moving.{AreMovers, GoesAlong, IsMover, IsWith, Notes, numbers_at};

use dist_relation::{Name, Provide};
use dist_repo::{NameKey, Package, Repository};
use std::alloc::{AllocError, Global};
use std::collections::BTreeMap;
use std::marker::Model;

/// Numbers of packages.
#[derive(Drop)]
struct Numbers {
    numbers: Vec<u32>,
}

impl Model for Numbers {
    ghost use Rattle.std.specs.Prelude.{ℕ, List};

    ghost Value = { List ℕ };

    ghost view = { λ n. n.numbers.items };
}

/// Whether a number is the last one.
fn is_last(numbers: &[u32], number: u32) -> bool
    ensures { IsTrue result → Contains numbers.now number }
{
    match numbers {
        [.., last] => *last == number,
        [] => false,
    }
}

impl Numbers {
    /// One number.
    fn of(alloc: Global, number: u32) -> Result<Numbers, AllocError>
        ensures { IfOk result (λ numbers. numbers ≡ number ∷ []) }
    {
        let mut numbers = Vec::new(alloc);
        numbers.push(number)?;
        Ok(Numbers { numbers })
    }

    /// Adds a number as the last one, unless it is that.
    fn push(&mut self, number: u32) -> Result<(), AllocError>
        ensures { OnOk result (IsWith self.old number self.new) }
    {
        if is_last(&self.numbers, number) {
            return Ok(());
        }
        self.numbers.push(number)?;
        Ok(())
    }

    fn as_slice(&self) -> &[u32]
        ensures { result.now ≡ self.now }
    {
        self.numbers.as_slice()
    }
}

/// For each name the packages that may match more as new versions, as far as they were gone through.
#[derive(Drop)]
pub(crate) struct Movers<'a> {
    alloc: Global,
    numbers: BTreeMap<NameKey<'a>, Numbers>,
}

impl<'a> Model for Movers<'a> {
    ghost use Rattle.dist_space_clauses.specs.Moving.{Entries};

    ghost Value = { Entries };

    ghost view = { λ r. r.numbers.entries };
}

impl<'a> Movers<'a> {
    fn new(alloc: Global) -> Movers<'a>
        ensures { result ≡ [] }
    {
        Movers {
            alloc,
            numbers: BTreeMap::new(alloc),
        }
    }

    /// Those of a name.
    pub(crate) fn of(&self, name: &'a Name) -> &[u32]
        ensures { result.now ≡ numbers_at self.now name.now }
    {
        match self.numbers.get(&NameKey::new(name)) {
            Some(numbers) => numbers.as_slice(),
            None => &[],
        }
    }

    /// Notes a package at a name.
    fn note(&mut self, name: &'a Name, number: u32) -> Result<(), AllocError>
        ensures { OnOk result (Notes self.old self.new (λ q n. (name.now ≡ q) × (number ≡ n))) }
    {
        let key = NameKey::new(name);
        if let Some(numbers) = self.numbers.get_mut(&key) {
            return numbers.push(number);
        }
        let numbers = Numbers::of(self.alloc, number)?;
        self.numbers.insert(key, numbers)?;
        Ok(())
    }

    /// Notes a package at the name of an entry, if that goes with it.
    fn note_entry(
        &mut self,
        package: &'a Package,
        entry: &'a Provide,
        number: u32,
    ) -> Result<(), AllocError>
        ensures { OnOk result (Notes self.old self.new (λ q n. (GoesAlong «package».now entry.now × (entry.now.name ≡ q)) × (number ≡ n))) }
    {
        if goes_along(package, entry) {
            return self.note(&entry.name, number);
        }
        Ok(())
    }

    /// Notes a package at the names of the entries that go with it.
    fn note_entries(&mut self, package: &'a Package, number: u32) -> Result<(), AllocError>
        ensures { OnOk result (Notes self.old self.new (λ q n. Any (λ entry. GoesAlong «package».now entry × (entry.name ≡ q)) «package».now.provides × (number ≡ n))) }
    {
        for place in 0..package.provides.len() {
            self.note_entry(package, package.provides.get(place), number)?;
        }
        Ok(())
    }

    /// Notes a package.
    fn note_package(&mut self, package: &'a Package, number: u32) -> Result<(), AllocError>
        ensures { OnOk result (Notes self.old self.new (λ q n. IsMover q «package».now × (number ≡ n))) }
    {
        self.note(&package.name, number)?;
        self.note_entries(package, number)
    }

    /// Notes all packages of a repository, where none is noted.
    fn note_packages(&mut self, repo: &'a Repository) -> Result<(), AllocError>
        requires { self.old ≡ [] }
        ensures { OnOk result (AreMovers repo.now self.new) }
    {
        for number in 0..repo.len() {
            self.note_package(repo.package(number), number)?;
        }
        Ok(())
    }
}

/// Whether an entry has the version of its package, and so goes with it.
fn goes_along(package: &Package, entry: &Provide) -> bool
    ensures { IsTrue result ↔ GoesAlong «package».now entry.now }
{
    match &entry.version {
        Some(version) => version.compare(&package.version).is_eq(),
        None => false,
    }
}

/// Those of all packages.
pub(crate) fn movers_of<'a>(alloc: Global, repo: &'a Repository) -> Result<Movers<'a>, AllocError>
    ensures { IfOk result (AreMovers repo.now) }
{
    let mut movers = Movers::new(alloc);
    match movers.note_packages(repo) {
        Ok(()) => Ok(movers),
        Err(error) => {
            drop(movers);
            Err(error)
        }
    }
}
