//! A repository in the making: packages come in any order, and each is held once.
ghost use Rattle.std.specs.Prelude.{◌≡◌, ◌≢◌, ◌+◌, ◌<◌, ◌≤◌, ◌↔◌, ◌⊎◌, ℕ, [], ◌∷◌, length, Ok, Err, IfOk, IfErr, OnErr, IsPermutation, MatchOption, Contains};
ghost use Rattle.dist_repo.specs.Held.{IsClashAt, IsFree, IsHeld, packages_of, returned_package};
ghost use Rattle.dist_repo.specs.Order.{IsInOrder, IsSamePackage};

use crate::key::Key;
use crate::matching::are_same;
use crate::package::Package;
use crate::pairs::beside;
use crate::repository::Repository;
use dist_relation::Name;
use std::alloc::{AllocError, Global};
use std::collections::BTreeMap;
use std::marker::Model;

/// What became of a package that a builder took.
#[derive(Clone, Copy, Debug, PartialEq, Eq)]
pub enum Added {
    /// It is held now.
    New,
    /// An equal one was held.
    Same,
}

/// Why a builder took no package. The package is given back.
#[derive(Debug, Drop)]
pub enum AddError {
    /// Another package of that name and with an equal version is held, which came with this line.
    Clash(u64, Package),
    /// There is no memory for it.
    NoMemory(Package),
}

/// Packages, each with the line that it came with. Contracts see them in the order of packages.
#[derive(Drop)]
pub struct Builder {
    alloc: Global,
    packages: BTreeMap<Key, u64>,
}

impl Model for Builder {
    ghost use Rattle.std.specs.Prelude.{List};
    ghost use Rattle.dist_repo.specs.Held.{Held, IsKept};

    ghost Value = { List Held };

    ghost view = { λ builder. builder.packages.entries };

    ghost invariant = { λ builder. IsKept builder.packages.entries };
}

impl Builder {
    /// A builder that holds nothing.
    pub fn new(alloc: Global) -> Builder
        ensures { result ≡ [] }
    {
        Builder {
            alloc,
            packages: BTreeMap::new(alloc),
        }
    }

    /// The package of the same name and an equal version that is held, with its line.
    fn held(&self, key: &Key) -> Option<(&Package, u64)>
        ensures found { MatchOption result (IsFree self.now key.now)
            (λ h. Contains self.now (h.0.now, h.1) × IsSamePackage h.0.now key.now) }
        ensures in_order { IsInOrder (packages_of self.now) }
    {
        match self.packages.get_key_value(key) {
            Some((held, line)) => Some((held.package(), *line)),
            None => None,
        }
    }

    /// The same for a package. A key takes memory, so where there is none the held ones are looked through one by one.
    fn held_without_key(&self, package: &Package) -> Option<(&Package, u64)>
        ensures found { MatchOption result (IsFree self.now «package».now)
            (λ h. Contains self.now (h.0.now, h.1) × IsSamePackage h.0.now «package».now) }
        ensures in_order { IsInOrder (packages_of self.now) }
    {
        for (key, line) in self.packages.iter() {
            if are_same(key.package(), package) {
                return Some((key.package(), *line));
            }
        }
        None
    }

    /// Adds a package that came with a line.
    pub fn add(&mut self, package: Package, line: u64) -> Result<Added, AddError>
        requires { length self.old < 4294967295 }
        ensures new { result ≡ Ok Added.New → IsPermutation ((«package», line) ∷ self.old) self.new }
        ensures free { result ≡ Ok Added.New → IsFree self.old «package» }
        ensures same { (result ≡ Ok Added.Same) ↔ IsHeld self.old «package» }
        ensures clash { (kept : ℕ) → (result ≡ Err (AddError.Clash kept «package»)) ↔ IsClashAt self.old «package» kept }
        ensures no_memory { result ≡ Err (AddError.NoMemory «package») → IsFree self.old «package» }
        ensures returned { IfErr result (λ error. returned_package error ≡ «package») }

        // Only a new package changes the builder.
        ensures kept { result ≢ Ok Added.New → self.new ≡ self.old }
        ensures in_order { IsInOrder (packages_of self.new) }
        ensures one_at_most { length self.new ≤ length self.old + 1 }
    {
        match Key::new(self.alloc, package) {
            Ok(key) => match self.held(&key) {
                Some((held, kept)) => told_beside(held, kept, key.into_package()),
                None => self.insert(key, line),
            },
            Err(refused) => match self.held_without_key(&refused.value) {
                Some((held, kept)) => told_beside(held, kept, refused.value),
                None => Err(AddError::NoMemory(refused.value)),
            },
        }
    }

    /// Adds a package of a name and a version that no held one has.
    fn insert(&mut self, key: Key, line: u64) -> Result<Added, AddError>
        requires free { IsFree self.old key }
        requires room { length self.old < 4294967295 }
        ensures new { IfOk result (λ added. (added ≡ Added.New) × IsPermutation ((key, line) ∷ self.old) self.new) }
        ensures no_memory { IfErr result (λ error. error ≡ AddError.NoMemory key) }
        ensures kept { OnErr result (self.new ≡ self.old) }
        ensures in_order { IsInOrder (packages_of self.new) }
        ensures one_at_most { length self.new ≤ length self.old + 1 }
    {
        if let Err(refused) = self.packages.insert(key, line) {
            return Err(AddError::NoMemory(refused.value.0.into_package()));
        }
        Ok(Added::New)
    }

    /// The repository of the packages, for the architecture of their file. After a refusal they are given up.
    pub fn finish(self, architecture: Option<Name>) -> Result<Repository, AllocError>
        ensures packages { IfOk result (λ repository. repository.packages ≡ packages_of self) }
        ensures architecture { IfOk result (λ repository. repository.architecture ≡ architecture) }
        ensures in_order { IsInOrder (packages_of self) }
    {
        let Builder { alloc, packages } = self;
        let both = beside(architecture, in_order(alloc, packages))?;
        Repository::from_packages(alloc, both.first, both.second)
    }
}

/// What is told of a package where one of its name and an equal version is held, which came with the line `kept`.
fn told_beside(held: &Package, kept: u64, package: Package) -> Result<Added, AddError>
    ensures same { (result ≡ Ok Added.Same) ↔ (held.now ≡ «package») }
    ensures either { (result ≡ Ok Added.Same) ⊎ (result ≡ Err (AddError.Clash kept «package»)) }
{
    if *held == package {
        drop(package);
        return Ok(Added::Same);
    }
    Err(AddError::Clash(kept, package))
}

/// The packages of a map, in order.
fn in_order(alloc: Global, packages: BTreeMap<Key, u64>) -> Result<Vec<Key>, AllocError>
    ensures { IfOk result (λ list. list.items ≡ packages_of packages.entries) }
{
    packages.into_keys().collect(alloc)
}
