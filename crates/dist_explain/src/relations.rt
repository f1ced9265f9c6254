//! The relations of a repository, in their order.
ghost use Rattle.std.specs.Prelude.{◌≡◌, ◌⊎◌, ◌↔◌, ◌+◌, ◌++◌, ◌<◌, ℕ, Any, Contains, IfOk, IsTrue, OnOk, Some, length, map, slice_get};
ghost use Rattle.dist_asked.specs.AskedPlaces.{AreEnough};
ghost use Rattle.dist_now.specs.PresentClauses.{Apart, IsMetBy, Item};
ghost use Rattle.dist_repo.specs.Match.{Matches};
ghost use Rattle.dist_explain.specs.RelationList.{AreRelationsOf};
ghost use Rattle.dist_explain.specs.RelationListPrivate.{AreApart, AreListedBefore, IsNamesake, pair_with};

use crate::listed::put_in_order;
use dist_asked::AskedPlaces;
use dist_now::Partners;
use dist_relation::{Alternatives, Atom};
use dist_repo::{Offer, Package, Repository};
use std::alloc::{AllocError, Global};

/// A relation between packages. Packages are numbered from 0.
#[derive(Clone, Copy, Debug, PartialEq, Eq)]
pub enum Relation {
    /// A package needs one that matches an alternative of its item at a place, from 0.
    Needs(u32, usize),
    /// Two packages must be apart.
    Apart(u32, u32),
}

/// Whether one of some offers is of the package of a number.
fn is_among(offers: &[Offer], number: u32) -> bool
    ensures { IsTrue result ↔ Any (λ offer. offer.number ≡ number) offers.now }
{
    offers.iter().any(|offer| offer.number == number)
}

/// Whether an atom matches the package of a number: by the offers that it matches, or by the package's entries, whichever
/// are fewer.
fn is_matched(repo: &Repository, atom: &Atom, number: u32, package: &Package) -> bool
    requires { slice_get repo.now.packages number ≡ Some «package».now }
    ensures { IsTrue result ↔ Matches repo.now.architecture atom.now «package».now }
{
    let offers = repo.matched(atom);
    if offers.len() > package.provides.len() {
        return repo.matches(atom, package);
    }
    is_among(offers, number)
}

/// Whether a package meets an item, by the alternatives that are asked.
fn meets(
    repo: &Repository,
    number: u32,
    package: &Package,
    alternatives: &Alternatives,
    asked: &AskedPlaces,
) -> bool
    requires number { slice_get repo.now.packages number ≡ Some «package».now }
    requires enough { AreEnough alternatives.now asked.now }
    ensures { IsTrue result ↔ IsMetBy repo.now.architecture alternatives.now «package».now }
{
    for place in 0..alternatives.len() {
        let atom = alternatives.get(place);
        if asked.has(place) && is_matched(repo, atom, number, package) {
            return true;
        }
    }
    false
}

/// Adds a package's items that it doesn't meet itself.
fn add_items_of(
    repo: &Repository,
    number: u32,
    package: &Package,
    list: &mut Vec<Relation>,
) -> Result<(), AllocError>
    requires number { slice_get repo.now.packages number ≡ Some «package».now }
    requires before { AreListedBefore repo.now (Item number 0) list.old.items }
    ensures { OnOk result (AreListedBefore repo.now (Item (number + 1) 0) list.new.items) }
{
    for place in 0..package.depends.len() {
        let asked = repo.asked_alternatives(number, place);
        if !meets(repo, number, package, package.depends.get(place), asked) {
            list.push(Relation::Needs(number, place))?;
        }
    }
    Ok(())
}

/// Adds all items.
fn add_items(repo: &Repository, list: &mut Vec<Relation>) -> Result<(), AllocError>
    requires { AreListedBefore repo.now (Item 0 0) list.old.items }
    ensures { OnOk result (AreListedBefore repo.now (Apart 0 0) list.new.items) }
{
    for number in 0..repo.len() {
        add_items_of(repo, number, repo.package(number), list)?;
    }
    Ok(())
}

/// Whether two packages have one name.
fn have_one_name(first: &Package, second: &Package) -> bool
    ensures { IsTrue result ↔ (first.now.name ≡ second.now.name) }
{
    first.name == second.name
}

/// Whether a package stands behind another one and has its name.
fn is_namesake(repo: &Repository, number: u32, other: u32) -> bool
    requires number { number < length repo.now.packages }
    requires other { other < length repo.now.packages }
    ensures { IsTrue result ↔ IsNamesake repo.now number other }
{
    number < other && have_one_name(repo.package(number), repo.package(other))
}

/// Adds the packages behind one that have its name.
fn add_namesakes(repo: &Repository, number: u32, numbers: &mut Vec<u32>) -> Result<(), AllocError>
    requires { number < length repo.now.packages }
    ensures { OnOk result ((k : ℕ) → Contains numbers.new.items k ↔ (Contains numbers.old.items k ⊎ IsNamesake repo.now number k)) }
{
    for other in repo.providers(repo.package(number).name.bytes()) {
        if is_namesake(repo, number, *other) {
            numbers.push(*other)?;
        }
    }
    Ok(())
}

/// Gathers the packages that one must be apart from, of those behind it.
fn gather_apart(
    repo: &Repository,
    partners: &mut Partners,
    first: u32,
    numbers: &mut Vec<u32>,
) -> Result<(), AllocError>
    requires same { partners.old ≡ repo.now }
    requires first { first < length repo.now.packages }
    ensures same { partners.new ≡ partners.old }
    ensures apart { OnOk result (AreApart repo.now first numbers.new.items) }
{
    numbers.clear();
    add_namesakes(repo, first, numbers)?;
    partners.add_behind(first, numbers)?;
    put_in_order(numbers);
    Ok(())
}

/// Adds a package and each of those that it must be apart from.
fn add_pairs_of(first: u32, seconds: &[u32], list: &mut Vec<Relation>) -> Result<(), AllocError>
    ensures { OnOk result (list.new.items ≡ list.old.items ++ map (pair_with first) seconds.now) }
{
    for second in seconds {
        list.push(Relation::Apart(first, *second))?;
    }
    Ok(())
}

/// Adds all pairs.
fn add_pairs(alloc: Global, repo: &Repository, list: &mut Vec<Relation>) -> Result<(), AllocError>
    requires { AreListedBefore repo.now (Apart 0 0) list.old.items }
    ensures { OnOk result (AreRelationsOf repo.now list.new.items) }
{
    let mut partners = Partners::new(alloc, repo);
    let mut numbers = Vec::new(alloc);
    for first in 0..repo.len() {
        gather_apart(repo, &mut partners, first, &mut numbers)?;
        add_pairs_of(first, &numbers, list)?;
    }
    Ok(())
}

/// The relations of a repository.
pub fn relations_of(alloc: Global, repo: &Repository) -> Result<Vec<Relation>, AllocError>
    ensures { IfOk result (λ list. AreRelationsOf repo.now list.items) }
{
    let mut list = Vec::new(alloc);
    add_items(repo, &mut list)?;
    add_pairs(alloc, repo, &mut list)?;
    Ok(list)
}
