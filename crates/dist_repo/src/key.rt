//! Packages as keys of an ordered map, and in order: by the bytes of their names, and then by version.
ghost use Rattle.std.specs.Prelude.{◌≡◌, IfOk, IfErr};
ghost use Rattle.std.specs.Cmp.Lexicographic.{slice_cmp};
ghost use Rattle.std.specs.Ordering.{nat_cmp};
ghost use Rattle.dist_repo.specs.Order.{key_cmp};
ghost use Rattle.dist_repo.specs.Prefix.{IsPrefixOf};

use crate::package::Package;
use crate::prefix::prefix_of;
use dist_version::Version;
use std::alloc::{AllocError, AllocFailed, Global};
use std::cmp::Ordering;
use std::marker::Model;

/// Compares a package with a name and a version: by the bytes of the names, and then by version.
pub(crate) fn compare(package: &Package, name: &[u8], version: &Version) -> Ordering
    ensures { result ≡ key_cmp («package».now.name, «package».now.version) (name.now, version.now) }
{
    let by_name = package.name.bytes().cmp(name);
    if by_name.is_ne() {
        return by_name;
    }
    package.version.compare(version)
}

/// A package, compared by its name and its version alone.
#[derive(Drop)]
pub(crate) struct Key {
    /// The prefix of the package's name, so that packages of different prefixes are compared without their names.
    prefix: u128,
    /// A package is large, and keys move often, so it stays where it is.
    package: Box<Package>,
}

impl Model for Key {
    ghost use Rattle.dist_repo.specs.declared.package.Package.{Package};
    ghost use Rattle.dist_repo.specs.Prefix.{IsPrefixOf};

    ghost Value = { Package };

    ghost view = { λ key. key.«package».value };

    ghost invariant = { λ key. IsPrefixOf key.prefix key.«package».value.name };
}

impl Key {
    /// After a refusal the package is given back.
    pub(crate) fn new(alloc: Global, package: Package) -> Result<Key, AllocFailed<Package>>
        ensures made { IfOk result (λ key. key ≡ «package») }
        ensures returned { IfErr result (λ refused. refused.value ≡ «package») }
    {
        let prefix = prefix_of(package.name.bytes());
        let package = Box::new(alloc, package)?;
        Ok(Key { prefix, package })
    }

    pub(crate) fn package(&self) -> &Package
        ensures { result.now ≡ self.now }
    {
        &self.package
    }

    /// The package's name.
    pub(crate) fn name(&self) -> &[u8]
        ensures { result.now ≡ self.now.name }
    {
        self.package.name.bytes()
    }

    /// Compares the package's name with another one, of which the prefix is given.
    pub(crate) fn compare_name(&self, prefix: u128, name: &[u8]) -> Ordering
        requires { IsPrefixOf prefix name.now }
        ensures { result ≡ slice_cmp nat_cmp self.now.name name.now }
    {
        let by_prefix = self.prefix.cmp(&prefix);
        if by_prefix.is_ne() {
            return by_prefix;
        }
        self.name().cmp(name)
    }

    /// The key of a copy of the package.
    pub(crate) fn try_clone(&self, alloc: Global) -> Result<Key, AllocError>
        ensures { IfOk result (λ copy. copy ≡ self.now) }
    {
        let package = Box::new(alloc, self.package.try_clone()?)?;
        Ok(Key {
            prefix: self.prefix,
            package,
        })
    }

    pub(crate) fn into_package(self) -> Package
        ensures { result ≡ self }
    {
        let Key { package, .. } = self;
        Box::into_inner(package)
    }
}

impl Ord for Key {
    ghost use Rattle.dist_repo.specs.Order.{package_cmp};
    ghost use Rattle.dist_repo.specs.TotalLaws.{package_total};
    ghost use Rattle.std.proofs.Common.{refl};

    ghost cmp = { package_cmp };

    ghost total = { package_total };

    ghost matches_partial_cmp = { λ _ _. refl };

    ghost matches_eq = { λ _ _. refl };

    fn cmp(&self, other: &Key) -> Ordering {
        let by_prefix = self.prefix.cmp(&other.prefix);
        if by_prefix.is_ne() {
            return by_prefix;
        }
        let other = &other.package;
        compare(&self.package, other.name.bytes(), &other.version)
    }
}

impl PartialOrd for Key {
    ghost use Rattle.std.specs.Ordering.{as_partial_cmp};
    ghost use Rattle.std.specs.Cmp.{partial_order_from_total};
    ghost use Rattle.dist_repo.specs.Order.{package_cmp};
    ghost use Rattle.dist_repo.specs.TotalLaws.{package_total};

    ghost partial_cmp = { as_partial_cmp package_cmp };

    ghost laws = { partial_order_from_total package_total };

    fn partial_cmp(&self, other: &Key) -> Option<Ordering> {
        Some(self.cmp(other))
    }
}

impl PartialEq for Key {
    ghost use Rattle.std.specs.Cmp.{eq_by_cmp_equiv, partial_equiv_from_equiv};
    ghost use Rattle.std.specs.Ordering.{eq_by_cmp};
    ghost use Rattle.dist_repo.specs.Order.{package_cmp};
    ghost use Rattle.dist_repo.specs.TotalLaws.{package_total};

    ghost eq = { eq_by_cmp package_cmp };

    ghost laws = { partial_equiv_from_equiv (eq_by_cmp_equiv package_total) };

    fn eq(&self, other: &Key) -> bool {
        self.cmp(other).is_eq()
    }
}

impl Eq for Key {
    ghost use Rattle.std.specs.Cmp.{eq_by_cmp_equiv};
    ghost use Rattle.dist_repo.specs.TotalLaws.{package_total};

    ghost laws = { eq_by_cmp_equiv package_total };
}
