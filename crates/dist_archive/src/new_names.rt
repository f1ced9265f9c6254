//! The packages of new names that are held, by their names.
ghost use Rattle.std.specs.Prelude.{◌≡◌, ◌↔◌, ◌⊎◌, ◌≢◌, ◌+◌, ◌≤◌, [], Contains, IsTrue, OnErr, OnOk, Some, length};
ghost use Rattle.std.specs.Option.{option_copied};
ghost use Rattle.dist_repo.specs.Order.{IsFlat};
ghost use Rattle.dist_repo.specs.declared.package.Package.{Package};
ghost use Rattle.dist_archive.specs.Archive.{IsHeldAs};
ghost use Rattle.dist_archive.specs.Steps.{HasExactly, IsHeld};

use dist_repo::Package;
use std::alloc::{AllocError, Global};
use std::collections::BTreeMap;
use std::marker::Model;

/// Packages by their names, seen as their list.
#[derive(Drop)]
pub(crate) struct NewNames {
    alloc: Global,
    packages: BTreeMap<Vec<u8>, Box<Package>>,
}

impl Model for NewNames {
    ghost use Rattle.std.specs.Prelude.{◌≡◌, All, List, map};
    ghost use Rattle.dist_repo.specs.declared.package.Package.{Package};

    ghost Value = { List Package };

    ghost view = { λ names. map (λ e. e.1.value) names.packages.entries };

    ghost invariant = { λ names. All (λ e. e.1.value.name ≡ e.0.items) names.packages.entries };
}

impl NewNames {
    /// None yet.
    pub(crate) fn new(alloc: Global) -> NewNames
        ensures { result ≡ [] }
    {
        NewNames {
            alloc,
            packages: BTreeMap::new(alloc),
        }
    }

    /// How many there are.
    pub(crate) fn len(&self) -> usize
        ensures value { result ≡ length self.now }
    {
        self.packages.len()
    }

    /// There is one package of each name. Does nothing.
    fn keeps_invariant(&self)
        ensures { IsFlat self.now }
    {
        self.packages.len();
    }

    /// The package of a name.
    pub(crate) fn get(&self, name: &[u8]) -> Option<&Package>
        ensures { (p : Package) → (option_copied result ≡ Some p) ↔ IsHeldAs self.now name.now p }
    {
        self.keeps_invariant();
        match self.packages.get(name) {
            Some(package) => Some(package),
            None => None,
        }
    }

    /// Takes a copy of a package of another name.
    pub(crate) fn insert(&mut self, package: &Package) -> Result<(), AllocError>
        requires { ¬ IsHeld self.old «package».now.name }
        ensures ok { OnOk result (HasExactly self.new (λ n. Contains self.old n ⊎ («package».now ≡ n))) }
        ensures one_more { OnOk result (length self.new ≡ length self.old + 1) }
        ensures err { OnErr result (self.new ≡ self.old) }
    {
        let name = Vec::from_slice(self.alloc, package.name.bytes())?;
        let copy = Box::new(self.alloc, package.try_clone()?)?;
        self.packages.insert(name, copy)?;
        Ok(())
    }

    /// Takes the package of a name away, and says whether there was one.
    pub(crate) fn remove(&mut self, name: &[u8]) -> bool
        ensures there { IsTrue result ↔ IsHeld self.old name.now }
        ensures made { HasExactly self.new (λ n. Contains self.old n × (n.name ≢ name.now)) }
        ensures no_more { length self.new ≤ length self.old }
    {
        self.packages.remove(name).is_some()
    }
}
