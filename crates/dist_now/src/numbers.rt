//! Numbers of packages that a clause speaks of, gathered into one vector that is used again and again.
ghost use Rattle.std.specs.Prelude.{◌≡◌, ◌<◌, ◌≤◌, ◌↔◌, ℕ, Contains, IsTrue, OnOk, Some, length, slice_get, slice_index_or};
ghost use Rattle.std.specs.List.Sorted.{IsStrictlyIncreasing};
ghost use Rattle.dist_asked.specs.AskedPlaces.{AreEnough};
ghost use Rattle.dist_repo.specs.Match.{IsUsable, Matches};
ghost use Rattle.dist_repo.specs.PackageList.{IsPackageAnd};
ghost use Rattle.dist_repo.specs.Providers.{AreProviders, IsProvider};
ghost use Rattle.dist_now.specs.GatheringPrivate.{Adds};
ghost use Rattle.dist_now.specs.PresentClauses.{AreNumbersOf, IsMetBy};

use dist_asked::AskedPlaces;
use dist_relation::{Alternatives, Atom, Name};
use dist_repo::{Package, Repository};
use std::alloc::AllocError;

/// So many numbers are kept before repeated ones among them are looked for.
const MANY: usize = 1 << 16;

/// Puts numbers in their order, each once.
pub(crate) fn put_in_order(numbers: &mut Vec<u32>)
    ensures rising { IsStrictlyIncreasing numbers.new.items }
    ensures same { (k : ℕ) → Contains numbers.new.items k ↔ Contains numbers.old.items k }
{
    numbers.sort_unstable();
    numbers.dedup();
}

/// The first place of a number that is not below a bound, among numbers that rise.
pub(crate) fn place_from(numbers: &[u32], bound: u32) -> usize
    requires { IsStrictlyIncreasing numbers.now }
    ensures to_len { result ≤ length numbers.now }
    ensures below { (k : ℕ) → k < result → slice_index_or numbers.now k 0 < bound }
    ensures from { (k : ℕ) → result ≤ k → k < length numbers.now → bound ≤ slice_index_or numbers.now k 0 }
{
    let mut low = 0;
    let mut high = numbers.len();
    while low < high {
        let middle = low + (high - low) / 2;
        if numbers[middle] < bound {
            low = middle + 1;
        } else {
            high = middle;
        }
    }
    low
}

/// Whether an atom matches a provider of its name. Where it has no bound it does, so the package isn't looked at.
pub(crate) fn matches_provider(repo: &Repository, atom: &Atom, number: u32) -> bool
    requires usable { IsUsable repo.now.architecture atom.now.qualifier }
    requires provider { IsPackageAnd repo.now.packages number (IsProvider repo.now.architecture atom.now.name) }
    ensures { IsTrue result ↔ IsPackageAnd repo.now.packages number (Matches repo.now.architecture atom.now) }
{
    if atom.bound.is_none() {
        return true;
    }
    repo.matches(atom, repo.package(number))
}

/// Adds the packages that an atom matches, of the providers of its name.
fn add_provided(
    repo: &Repository,
    atom: &Atom,
    providers: &[u32],
    numbers: &mut Vec<u32>,
) -> Result<(), AllocError>
    requires { AreProviders repo.now atom.now.name providers.now }
    ensures { OnOk result (Adds numbers.old.items numbers.new.items (λ k. IsPackageAnd repo.now.packages k (Matches repo.now.architecture atom.now))) }
{
    // A qualifier that is not usable is looked at once, and not for each provider.
    if !repo.usable(&atom.qualifier) {
        return Ok(());
    }
    for number in providers {
        if matches_provider(repo, atom, *number) {
            numbers.push(*number)?;
        }
    }
    Ok(())
}

/// Adds the packages that an atom matches, by the offers that meet its bound.
fn add_offered(repo: &Repository, atom: &Atom, numbers: &mut Vec<u32>) -> Result<(), AllocError>
    ensures { OnOk result (Adds numbers.old.items numbers.new.items (λ k. IsPackageAnd repo.now.packages k (Matches repo.now.architecture atom.now))) }
{
    let offers = repo.matched(atom);
    for offer in offers {
        numbers.push(offer.number)?;
    }
    Ok(())
}

/// Adds the packages that an atom matches. Where it has no bound these are the providers of its name, each of which stands once.
fn add_matched(repo: &Repository, atom: &Atom, numbers: &mut Vec<u32>) -> Result<(), AllocError>
    ensures { OnOk result (Adds numbers.old.items numbers.new.items (λ k. IsPackageAnd repo.now.packages k (Matches repo.now.architecture atom.now))) }
{
    if atom.bound.is_some() {
        return add_offered(repo, atom, numbers);
    }
    let providers = repo.providers(atom.name.bytes());
    add_provided(repo, atom, providers, numbers)
}

/// Puts numbers in order, each once, where they are more than a limit, so that alternatives that match the same packages
/// take no more memory than these. Answers the next limit.
fn thin(numbers: &mut Vec<u32>, limit: usize) -> usize
    ensures { (k : ℕ) → Contains numbers.new.items k ↔ Contains numbers.old.items k }
{
    if numbers.len() <= limit {
        return limit;
    }
    put_in_order(numbers);
    numbers.len().saturating_mul(2).max(limit)
}

/// Adds the packages that meet an item, by the places that are asked.
fn add_asked(
    repo: &Repository,
    alternatives: &Alternatives,
    asked: &AskedPlaces,
    numbers: &mut Vec<u32>,
) -> Result<(), AllocError>
    requires { AreEnough alternatives.now asked.now }
    ensures { OnOk result (Adds numbers.old.items numbers.new.items (λ k. IsPackageAnd repo.now.packages k (IsMetBy repo.now.architecture alternatives.now))) }
{
    let mut limit = MANY;
    for place in 0..alternatives.len() {
        let atom = alternatives.get(place);
        if asked.has(place) {
            add_matched(repo, atom, numbers)?;
            limit = thin(numbers, limit);
        }
    }
    Ok(())
}

/// Gathers the packages that meet an item.
pub(crate) fn gather_meeting(
    repo: &Repository,
    alternatives: &Alternatives,
    asked: &AskedPlaces,
    numbers: &mut Vec<u32>,
) -> Result<(), AllocError>
    requires { AreEnough alternatives.now asked.now }
    ensures { OnOk result (AreNumbersOf repo.now (IsMetBy repo.now.architecture alternatives.now) numbers.new.items) }
{
    numbers.clear();
    add_asked(repo, alternatives, asked, numbers)?;
    put_in_order(numbers);
    Ok(())
}

/// Gathers the packages of a name.
pub(crate) fn gather_named(
    repo: &Repository,
    name: &Name,
    numbers: &mut Vec<u32>,
) -> Result<(), AllocError>
    ensures { OnOk result (AreNumbersOf repo.now (λ p. p.name ≡ name.now) numbers.new.items) }
{
    numbers.clear();
    let providers = repo.providers(name.bytes());
    for number in providers {
        if repo.package(*number).name == *name {
            numbers.push(*number)?;
        }
    }
    put_in_order(numbers);
    Ok(())
}

/// Adds the packages behind a package that have its name.
pub(crate) fn add_versions(
    repo: &Repository,
    first: u32,
    package: &Package,
    numbers: &mut Vec<u32>,
) -> Result<(), AllocError>
    requires { slice_get repo.now.packages first ≡ Some «package».now }
    ensures { OnOk result (Adds numbers.old.items numbers.new.items (λ k. (first < k) × IsPackageAnd repo.now.packages k (λ q. «package».now.name ≡ q.name))) }
{
    // Packages are in the order of their names, so those of one name stand together.
    let end = repo.len();
    for second in first + 1..end {
        if repo.package(second).name != package.name {
            return Ok(());
        }
        numbers.push(second)?;
    }
    Ok(())
}
