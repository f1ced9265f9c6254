//! The versions that a repository's atoms have in their bounds, by name and version. All are found in one walk over the atoms;
//! those on a name that are above a version are found by halving, and each that is equal to one before is passed over.
ghost use Rattle.std.specs.Prelude.{◌≡◌, ◌≢◌, ◌↔◌, [], ℕ, List, None, Some, Any, Contains, IfOk, IfSome, OnOk, slice_get};
ghost use Rattle.std.specs.Cmp.Lexicographic.{slice_cmp};
ghost use Rattle.std.specs.List.Sorted.{IsSorted};
ghost use Rattle.std.specs.Ordering.{is_le, is_lt, nat_cmp};
ghost use Rattle.dist_version.specs.Order.{IsBelow};
ghost use Rattle.dist_classes.specs.Table.{AddsLeast, HasBounds, IsAtomBound, IsPackageBound, IsStart, IsTableOf, Notes, StandsFrom, bound_cmp, key_cmp};

use crate::keys::TextKey;
use dist_relation::{Alternatives, Atom, Atoms, Items, Name};
use dist_repo::{NameKey, Package, Repository};
use dist_version::Version;
use std::alloc::{AllocError, Global};
use std::cmp::Ordering;
use std::marker::Model;

/// A name, and a version in a bound on it.
#[derive(Drop)]
struct NameBound<'a> {
    name: NameKey<'a>,
    version: TextKey<'a>,
}

impl<'a> Model for NameBound<'a> {
    ghost use Rattle.dist_classes.specs.Table.{Entry};

    ghost Value = { Entry };

    ghost view = { λ bound. (bound.name, bound.version) };
}

/// The order of two bounds: by name, by version, and by text where versions are equal.
fn compare_bounds<'a>(first: &NameBound<'a>, second: &NameBound<'a>) -> Ordering
    ensures { result ≡ bound_cmp first.now second.now }
{
    let order = first.name.cmp(&second.name);
    if order.is_ne() {
        return order;
    }
    first.version.cmp(&second.version)
}

/// Whether a bound is on a lesser name.
fn is_before(bound: &NameBound, name: &NameKey) -> bool
    ensures { result ≡ is_lt (slice_cmp nat_cmp bound.now.0 name.now) }
{
    bound.name.cmp(name).is_lt()
}

/// Whether a bound is on a lesser name, or on the name and its version is not above another one.
fn is_up_to(bound: &NameBound, name: &NameKey, version: &Version) -> bool
    ensures { result ≡ is_le (key_cmp bound.now (name.now, version.now)) }
{
    let order = bound.name.cmp(name);
    if order.is_ne() {
        return order.is_le();
    }
    bound.version.version().compare(version).is_le()
}

/// Where the bounds on a name begin.
fn first_of(bounds: &[NameBound], name: &NameKey) -> usize
    requires { IsSorted bound_cmp bounds.now }
    ensures { IsStart bounds.now name.now result (λ v. Contains bounds.now (name.now, v)) }
{
    bounds.partition_point(|bound| is_before(bound, name))
}

/// Where those bounds on a name begin whose versions are above another one.
fn first_above(bounds: &[NameBound], name: &NameKey, version: &Version) -> usize
    requires { IsSorted bound_cmp bounds.now }
    ensures { IsStart bounds.now name.now result (λ v. IsBelow version.now v × Contains bounds.now (name.now, v)) }
{
    bounds.partition_point(|bound| is_up_to(bound, name, version))
}

/// The version at a place, if it stands in a bound on the name.
fn version_at<'a>(bounds: &[NameBound<'a>], name: &NameKey, place: usize) -> Option<&'a Version>
    ensures some { IfSome result (λ version. slice_get bounds.now place ≡ Some (name.now, version.now)) }
    ensures none { result ≡ None → (v : List ℕ) → slice_get bounds.now place ≢ Some (name.now, v) }
{
    let bound = bounds.get(place)?;
    if bound.name.cmp(name).is_ne() {
        return None;
    }
    Some(bound.version.version())
}

/// Adds the versions in bounds on a name from a place on, each once: the first of those that are equal. The others are passed
/// over by halving.
fn collect_from<'a>(
    bounds: &[NameBound<'a>],
    name: &NameKey,
    place: usize,
    found: &mut Vec<TextKey<'a>>,
) -> Result<(), AllocError>
    requires sorted { IsSorted bound_cmp bounds.now }
    requires place { IsStart bounds.now name.now place (StandsFrom bounds.now place name.now) }
    ensures { OnOk result (AddsLeast found.old.items found.new.items (StandsFrom bounds.now place name.now)) }
{
    let mut place = place;
    while let Some(version) = version_at(bounds, name, place) {
        found.push(TextKey::new(version))?;
        place = first_above(bounds, name, version);
    }
    Ok(())
}

/// The versions in bounds, by their names, as far as the atoms were gone through.
#[derive(Drop)]
pub(crate) struct Table<'a> {
    bounds: Vec<NameBound<'a>>,
}

impl<'a> Model for Table<'a> {
    ghost use Rattle.dist_classes.specs.Table.{Entries};

    ghost Value = { Entries };

    ghost view = { λ table. table.bounds.items };
}

impl<'a> Table<'a> {
    fn new(alloc: Global) -> Table<'a>
        ensures { result ≡ [] }
    {
        Table {
            bounds: Vec::new(alloc),
        }
    }

    /// Adds the versions in bounds on a name, each once.
    pub(crate) fn collect(
        &self,
        name: &NameKey,
        found: &mut Vec<TextKey<'a>>,
    ) -> Result<(), AllocError>
        requires { IsSorted bound_cmp self.now }
        ensures { OnOk result (AddsLeast found.old.items found.new.items (λ v. Contains self.now (name.now, v))) }
    {
        let bounds = self.bounds.as_slice();
        collect_from(bounds, name, first_of(bounds, name), found)
    }

    /// Adds the versions in bounds on a name that are above another one, each once.
    pub(crate) fn collect_above(
        &self,
        name: &NameKey,
        version: &Version,
        found: &mut Vec<TextKey<'a>>,
    ) -> Result<(), AllocError>
        requires { IsSorted bound_cmp self.now }
        ensures { OnOk result (AddsLeast found.old.items found.new.items (λ v. IsBelow version.now v × Contains self.now (name.now, v))) }
    {
        let bounds = self.bounds.as_slice();
        collect_from(bounds, name, first_above(bounds, name, version), found)
    }

    /// Puts the bounds in order.
    fn sort(&mut self)
        ensures sorted { IsSorted bound_cmp self.new }
        ensures same { (q v : List ℕ) → Contains self.new (q, v) ↔ Contains self.old (q, v) }
    {
        self.bounds
            .sort_unstable_by(|first, second| compare_bounds(first, second));
    }

    /// Notes that a version stands in a bound on a name.
    fn note(&mut self, name: &'a Name, version: &'a Version) -> Result<(), AllocError>
        ensures { OnOk result (Notes self.old self.new (λ q v. (name.now ≡ q) × (version.now ≡ v))) }
    {
        let version = TextKey::new(version);
        let name = NameKey::new(name);
        self.bounds.push(NameBound { name, version })?;
        Ok(())
    }

    /// Notes the version of an atom's bound, if the atom is usable and has one.
    fn note_atom(&mut self, repo: &Repository, atom: &'a Atom) -> Result<(), AllocError>
        ensures { OnOk result (Notes self.old self.new (λ q v. IsAtomBound repo.now.architecture q v atom.now)) }
    {
        let Some(bound) = &atom.bound else {
            return Ok(());
        };
        if !repo.usable(&atom.qualifier) {
            return Ok(());
        }
        self.note(&atom.name, &bound.version)
    }

    /// Notes the atoms of an item.
    fn note_item(&mut self, repo: &Repository, item: &'a Alternatives) -> Result<(), AllocError>
        ensures { OnOk result (Notes self.old self.new (λ q v. Any (IsAtomBound repo.now.architecture q v) item.now)) }
    {
        for place in 0..item.len() {
            self.note_atom(repo, item.get(place))?;
        }
        Ok(())
    }

    /// Notes the atoms of all items.
    fn note_items(&mut self, repo: &Repository, items: &'a Items) -> Result<(), AllocError>
        ensures { OnOk result (Notes self.old self.new (λ q v. Any (λ item. Any (IsAtomBound repo.now.architecture q v) item) items.now)) }
    {
        for place in 0..items.len() {
            self.note_item(repo, items.get(place))?;
        }
        Ok(())
    }

    /// Notes the atoms of conflicts.
    fn note_conflicts(&mut self, repo: &Repository, atoms: &'a Atoms) -> Result<(), AllocError>
        ensures { OnOk result (Notes self.old self.new (λ q v. Any (IsAtomBound repo.now.architecture q v) atoms.now)) }
    {
        for place in 0..atoms.len() {
            self.note_atom(repo, atoms.get(place))?;
        }
        Ok(())
    }

    /// Notes all atoms of a package.
    fn note_package(&mut self, repo: &Repository, package: &'a Package) -> Result<(), AllocError>
        ensures { OnOk result (Notes self.old self.new (λ q v. IsPackageBound repo.now.architecture q v «package».now)) }
    {
        self.note_items(repo, &package.depends)?;
        self.note_conflicts(repo, &package.conflicts)?;
        Ok(())
    }

    /// Notes all atoms of a repository, where nothing is noted.
    fn note_packages(&mut self, repo: &'a Repository) -> Result<(), AllocError>
        requires { self.old ≡ [] }
        ensures { OnOk result (HasBounds repo.now self.new) }
    {
        for number in 0..repo.len() {
            self.note_package(repo, repo.package(number))?;
        }
        Ok(())
    }
}

/// The versions in bounds of all atoms of a repository.
pub(crate) fn table_of<'a>(alloc: Global, repo: &'a Repository) -> Result<Table<'a>, AllocError>
    ensures { IfOk result (λ table. IsTableOf repo.now table) }
{
    let mut table = Table::new(alloc);
    match table.note_packages(repo) {
        Ok(()) => {
            table.sort();
            Ok(table)
        }
        Err(error) => {
            drop(table);
            Err(error)
        }
    }
}
