//! A package, as a stanza of a Packages file describes it.
ghost use Rattle.std.specs.Prelude.{◌≡◌, ◌↔◌, IfOk, IsTrue};
ghost use Rattle.dist_repo.specs.EqualityPrivate.{package_eq};

use crate::pairs::{Pair, beside};
use dist_relation::{Atoms, Items, Name, Provides};
use dist_version::Version;
use std::alloc::AllocError;

/// A package of one version.
#[derive(Debug, Drop)]
pub struct Package {
    pub name: Name,
    pub version: Version,
    /// The source package that it is built from, and the version of that.
    pub source: Name,
    pub source_version: Version,
    /// The items of Pre-Depends, and then those of Depends.
    pub depends: Items,
    /// The atoms of Conflicts, and then those of Breaks.
    pub conflicts: Atoms,
    pub provides: Provides,
    pub essential: bool,
}

impl Package {
    /// The same package, with memory of its own.
    pub fn try_clone(&self) -> Result<Package, AllocError>
        ensures { IfOk result (λ copy. copy ≡ self.now) }
    {
        let own = copied(&self.name, &self.version)?;
        let names = beside(own, copied(&self.source, &self.source_version))?;
        let with_depends = beside(names, self.depends.try_clone())?;
        let with_conflicts = beside(with_depends, self.conflicts.try_clone())?;
        let all = beside(with_conflicts, self.provides.try_clone())?;
        Ok(package_of(all, self.essential))
    }
}

/// Copies of a name and a version.
fn copied(name: &Name, version: &Version) -> Result<Pair<Name, Version>, AllocError>
    ensures { IfOk result (λ pair. (pair.first ≡ name.now) × (pair.second ≡ version.now)) }
{
    beside(name.try_clone()?, version.try_clone())
}

/// What a package has, its name and version first, and then its source and the version of that.
type Parts = Pair<
    Pair<Pair<Pair<Pair<Name, Version>, Pair<Name, Version>>, Items>, Atoms>,
    Provides,
>;

/// The package of its parts.
fn package_of(parts: Parts, essential: bool) -> Package
    ensures name { result.name ≡ parts.first.first.first.first.first }
    ensures version { result.version ≡ parts.first.first.first.first.second }
    ensures source { result.source ≡ parts.first.first.first.second.first }
    ensures source_version { result.source_version ≡ parts.first.first.first.second.second }
    ensures depends { result.depends ≡ parts.first.first.second }
    ensures conflicts { result.conflicts ≡ parts.first.second }
    ensures provides { result.provides ≡ parts.second }
    ensures essential { result.essential ≡ essential }
{
    let Pair {
        first,
        second: provides,
    } = parts;
    let Pair {
        first,
        second: conflicts,
    } = first;
    let Pair {
        first: names,
        second: depends,
    } = first;
    let Pair {
        first: own,
        second: source,
    } = names;
    Package {
        name: own.first,
        version: own.second,
        source: source.first,
        source_version: source.second,
        depends,
        conflicts,
        provides,
        essential,
    }
}

/// Whether two packages are equal in all fields, texts as bytes. It takes no memory.
pub fn same(first: &Package, second: &Package) -> bool
    ensures { IsTrue result ↔ (first.now ≡ second.now) }
{
    first == second
}

/// Equality of all fields, with names and versions as bytes. Packages of one name and of versions that are equal in the
/// order of versions may differ.
impl PartialEq for Package {
    ghost use Rattle.std.specs.Cmp.{partial_equiv_from_equiv};
    ghost use Rattle.dist_relation.specs.EqualityPrivate.{equivalence};
    ghost use Rattle.dist_repo.specs.EqualityPrivate.{package_eq, packages_decide};

    ghost eq = { package_eq };

    ghost laws = { partial_equiv_from_equiv (equivalence packages_decide) };

    fn eq(&self, other: &Package) -> bool
        ensures value { result ≡ package_eq self.now other.now }
        ensures same { IsTrue result ↔ (self.now ≡ other.now) }
    {
        self.name == other.name
            && self.version == other.version
            && self.source == other.source
            && self.source_version == other.source_version
            && self.depends == other.depends
            && self.conflicts == other.conflicts
            && self.provides == other.provides
            && self.essential == other.essential
    }
}

impl Eq for Package {
    ghost use Rattle.dist_relation.specs.EqualityPrivate.{equivalence};
    ghost use Rattle.dist_repo.specs.EqualityPrivate.{packages_decide};

    ghost laws = { equivalence packages_decide };
}
