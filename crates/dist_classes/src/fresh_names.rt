//! The new names of a repository: those that its dependencies name and no package has or provides.
ghost use Rattle.std.specs.Prelude.{◌≡◌, [], ◌<◌, ◌↔◌, ℕ, List, Any, IfOk, IsTrue, OnOk, length, slice_get, Some};
ghost use Rattle.std.specs.Cmp.Lexicographic.{slice_cmp};
ghost use Rattle.std.specs.List.Sorted.{IsStrictlySortedBy};
ghost use Rattle.std.specs.Ordering.{nat_cmp};
ghost use Rattle.dist_classes.specs.NewNames.{AreNewNames, IsFreshAtom};
ghost use Rattle.dist_classes.specs.Table.{Adds};

use dist_relation::{Alternatives, Atom, Items, Name};
use dist_repo::{NameKey, Repository};
use std::alloc::{AllocError, Global};
use std::collections::BTreeSet;
use std::marker::Model;

/// Names in the order of their bytes.
#[derive(Debug, Drop)]
pub struct Names {
    names: Vec<Name>,
}

impl Model for Names {
    ghost use Rattle.std.specs.Prelude.{ℕ, List};

    ghost Value = { List (List ℕ) };

    ghost view = { λ n. n.names.items };
}

impl Names {
    /// How many names there are.
    pub fn len(&self) -> usize
        ensures { result ≡ length self.now }
    {
        self.names.len()
    }

    /// The name at a place, from 0.
    pub fn get(&self, place: usize) -> &Name
        requires { place < length self.now }
        ensures { slice_get self.now place ≡ Some result.now }
    {
        &self.names[place]
    }
}

/// Whether an atom is usable, and no package has or provides its name.
fn is_fresh(repo: &Repository, atom: &Atom) -> bool
    ensures { IsTrue result ↔ IsFreshAtom repo.now atom.now.name atom.now }
{
    repo.usable(&atom.qualifier) && repo.providers(atom.name.bytes()).is_empty()
}

/// Notes the name of an atom, if it is new.
fn note_atom<'a>(
    names: &mut BTreeSet<NameKey<'a>>,
    repo: &Repository,
    atom: &'a Atom,
) -> Result<(), AllocError>
    ensures { OnOk result (Adds names.old.keys names.new.keys (λ q. IsFreshAtom repo.now q atom.now)) }
{
    if is_fresh(repo, atom) {
        names.insert(NameKey::new(&atom.name))?;
    }
    Ok(())
}

/// Notes the new names of an item.
fn note_item<'a>(
    names: &mut BTreeSet<NameKey<'a>>,
    repo: &Repository,
    item: &'a Alternatives,
) -> Result<(), AllocError>
    ensures { OnOk result (Adds names.old.keys names.new.keys (λ q. Any (IsFreshAtom repo.now q) item.now)) }
{
    for place in 0..item.len() {
        note_atom(names, repo, item.get(place))?;
    }
    Ok(())
}

/// Notes the new names of all items of a package.
fn note_items<'a>(
    names: &mut BTreeSet<NameKey<'a>>,
    repo: &Repository,
    items: &'a Items,
) -> Result<(), AllocError>
    ensures { OnOk result (Adds names.old.keys names.new.keys (λ q. Any (λ item. Any (IsFreshAtom repo.now q) item) items.now)) }
{
    for place in 0..items.len() {
        note_item(names, repo, items.get(place))?;
    }
    Ok(())
}

/// Adds copies of names to an empty list.
fn push_copies(copies: &mut Vec<Name>, names: &BTreeSet<NameKey>) -> Result<(), AllocError>
    requires { copies.old.items ≡ [] }
    ensures same { OnOk result (copies.new.items ≡ names.now.keys) }
    ensures in_order { IsStrictlySortedBy (slice_cmp nat_cmp) names.now.keys }
{
    let keys = names.iter();
    for key in keys {
        copies.push(key.name().try_clone()?)?;
    }
    Ok(())
}

/// Copies of names in order.
fn copied(alloc: Global, names: &BTreeSet<NameKey>) -> Result<Names, AllocError>
    ensures same { IfOk result (λ copies. copies ≡ names.now.keys) }
    ensures in_order { IsStrictlySortedBy (slice_cmp nat_cmp) names.now.keys }
{
    let mut copies = Vec::new(alloc);
    match push_copies(&mut copies, names) {
        Ok(()) => Ok(Names { names: copies }),
        Err(error) => {
            drop(copies);
            Err(error)
        }
    }
}

/// The new names of a repository, found into an empty set.
fn names_by<'a>(
    alloc: Global,
    repo: &'a Repository,
    names: &mut BTreeSet<NameKey<'a>>,
) -> Result<Names, AllocError>
    requires { names.old.keys ≡ [] }
    ensures { IfOk result (AreNewNames repo.now) }
{
    for number in 0..repo.len() {
        note_items(names, repo, &repo.package(number).depends)?;
    }
    copied(alloc, names)
}

/// The names that dependencies name and no package of the repository has or provides.
pub fn new_names(alloc: Global, repo: &Repository) -> Result<Names, AllocError>
    ensures { IfOk result (AreNewNames repo.now) }
{
    let mut names = BTreeSet::new(alloc);
    let found = names_by(alloc, repo, &mut names);
    drop(names);
    found
}
