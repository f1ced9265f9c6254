//! The variables that an atom matches, added to a vector: packages as they are, their new versions with what these keep, and
//! packages of new names.
ghost use Rattle.std.specs.Prelude.{◌≡◌, ◌<◌, ◌↔◌, ℕ, Any, Contains, IsTrue, OnOk, Some, length, slice_get, slice_index};
ghost use Rattle.std.specs.List.Sorted.{IsStrictlyIncreasing};
ghost use Rattle.dist_space_clauses.specs.GatheringPrivate.{Adds, Gathers, IsFresh, IsKeptAt, IsKeptOf, IsLaterOf, IsNewOf};
ghost use Rattle.dist_space.specs.EntryOrder.{AreMatchedAlike, IsEntryNamed};
ghost use Rattle.dist_space.specs.Space.{IsMatchedBy, IsMeaning, fresh_classes, member_classes};
ghost use Rattle.dist_space.specs.declared.meaning.Meaning.TheVariants as meaning;

use dist_relation::Atom;
use dist_repo::Package;
use dist_space::{Meaning, Space, matches_moved, meets_bound};
use std::alloc::AllocError;

/// Puts variables in their order, each once.
pub(crate) fn put_in_order(variables: &mut Vec<u32>)
    ensures rising { IsStrictlyIncreasing variables.new.items }
    ensures same { (v : ℕ) → Contains variables.new.items v ↔ Contains variables.old.items v }
{
    variables.sort_unstable();
    variables.dedup();
}

/// Leaves each variable once where there are many more than the space has.
fn make_room(space: &Space, variables: &mut Vec<u32>)
    ensures { (v : ℕ) → Contains variables.new.items v ↔ Contains variables.old.items v }
{
    if variables.len() / 2 > space.variables() as usize {
        put_in_order(variables);
    }
}

/// Adds the variable of a meaning.
pub(crate) fn add_variable(
    space: &Space,
    meaning: Meaning,
    variables: &mut Vec<u32>,
) -> Result<(), AllocError>
    requires { IsMeaning space.now meaning }
    ensures { OnOk result (Adds space.now variables.old.items variables.new.items (λ m. m ≡ meaning)) }
{
    make_room(space, variables);
    variables.push(space.variable(&meaning))?;
    Ok(())
}

/// Whether an atom matches an entry of a new version.
fn matches_kept(space: &Space, atom: &Atom, member: u32, class: u32, place: u32) -> bool
    requires class { class < length (member_classes space.now member) }
    requires place { IsEntryNamed space.now.repository.packages member atom.now.name place }
    ensures { IsTrue result ↔ IsMatchedBy space.now atom.now (meaning.Kept member class place) }
{
    let package = space.package(member);
    let entry = package.provides.get(place as usize);
    let example = space.example(space.cluster_of(member), class);
    matches_moved(space.repo(), atom, entry, &package.version, &example)
}

/// Adds an entry of a new version, if the atom matches it.
fn add_entry(
    space: &Space,
    atom: &Atom,
    member: u32,
    class: u32,
    place: u32,
    variables: &mut Vec<u32>,
) -> Result<(), AllocError>
    requires class { class < length (member_classes space.now member) }
    requires place { IsEntryNamed space.now.repository.packages member atom.now.name place }
    ensures { OnOk result (Adds space.now variables.old.items variables.new.items (λ m. (m ≡ meaning.Kept member class place) × IsMatchedBy space.now atom.now m)) }
{
    if matches_kept(space, atom, member, class, place) {
        return add_variable(space, Meaning::Kept(member, class, place), variables);
    }
    Ok(())
}

/// Adds those of some entries of a new version that the atom matches.
fn add_entries(
    space: &Space,
    atom: &Atom,
    member: u32,
    class: u32,
    places: &[u32],
    variables: &mut Vec<u32>,
) -> Result<(), AllocError>
    requires class { class < length (member_classes space.now member) }
    requires places { (j : ℕ) → Contains places.now j → IsEntryNamed space.now.repository.packages member atom.now.name j }
    ensures { OnOk result (Gathers space.now variables.old.items variables.new.items (λ m. IsLaterOf member m × IsMatchedBy space.now atom.now m)
        (λ m. Any (λ place. (m ≡ meaning.Kept member class place) × IsMatchedBy space.now atom.now m) places.now)) }
{
    for place in places {
        add_entry(space, atom, member, class, *place, variables)?;
    }
    Ok(())
}

/// Adds entries of a new version that the atom matches alike, if it matches them.
fn add_alike(
    space: &Space,
    atom: &Atom,
    member: u32,
    class: u32,
    places: &[u32],
    variables: &mut Vec<u32>,
) -> Result<(), AllocError>
    requires class { class < length (member_classes space.now member) }
    requires places { (j : ℕ) → Contains places.now j → IsEntryNamed space.now.repository.packages member atom.now.name j }
    requires alike { (class k : ℕ) → k < length places.now → AreMatchedAlike space.now atom.now member class (slice_index places.now 0) (slice_index places.now k) }
    ensures { OnOk result (Gathers space.now variables.old.items variables.new.items (λ m. IsLaterOf member m × IsMatchedBy space.now atom.now m)
        (λ m. Any (λ place. (m ≡ meaning.Kept member class place) × IsMatchedBy space.now atom.now m) places.now)) }
{
    if places.is_empty() || !matches_kept(space, atom, member, class, places[0]) {
        return Ok(());
    }
    add_entries(space, atom, member, class, places, variables)
}

/// Adds entries of all new versions that the atom matches alike in each of these, if it matches them there.
fn add_run(
    space: &Space,
    atom: &Atom,
    member: u32,
    places: &[u32],
    variables: &mut Vec<u32>,
) -> Result<(), AllocError>
    requires member { member < length space.now.repository.packages }
    requires places { (j : ℕ) → Contains places.now j → IsEntryNamed space.now.repository.packages member atom.now.name j }
    requires alike { (class k : ℕ) → k < length places.now → AreMatchedAlike space.now atom.now member class (slice_index places.now 0) (slice_index places.now k) }
    ensures { OnOk result (Gathers space.now variables.old.items variables.new.items (λ m. IsLaterOf member m × IsMatchedBy space.now atom.now m)
        (λ m. Any (λ place. IsKeptAt member place m × IsMatchedBy space.now atom.now m) places.now)) }
{
    for class in 0..space.class_count(space.cluster_of(member)) {
        add_alike(space, atom, member, class, places, variables)?;
    }
    Ok(())
}

/// Adds the entries of all new versions of a package that the atom matches. Those that it matches alike stand together, so that
/// they are looked at one by one only where it matches them.
fn add_kept(
    space: &Space,
    atom: &Atom,
    member: u32,
    variables: &mut Vec<u32>,
) -> Result<(), AllocError>
    requires { member < length space.now.repository.packages }
    ensures { OnOk result (Gathers space.now variables.old.items variables.new.items (λ m. IsLaterOf member m × IsMatchedBy space.now atom.now m)
        (λ m. IsKeptOf member m × IsMatchedBy space.now atom.now m)) }
{
    let mut rest = space.entries_named(member, &atom.name);
    while !rest.is_empty() {
        let (alike, others) = rest.split_at(space.alike_count(member, atom, rest));
        add_run(space, atom, member, alike, variables)?;
        rest = others;
    }
    Ok(())
}

/// Adds a new version, if the atom matches its name and version.
fn add_new(
    space: &Space,
    atom: &Atom,
    package: &Package,
    member: u32,
    class: u32,
    variables: &mut Vec<u32>,
) -> Result<(), AllocError>
    requires member { slice_get space.now.repository.packages member ≡ Some «package».now }
    requires class { class < length (member_classes space.now member) }
    ensures { OnOk result (Adds space.now variables.old.items variables.new.items (λ m. (m ≡ meaning.New member class) × IsMatchedBy space.now atom.now m)) }
{
    let example = space.example(space.cluster_of(member), class);
    if package.name == atom.name && meets_bound(atom, &example) {
        return add_variable(space, Meaning::New(member, class), variables);
    }
    Ok(())
}

/// Adds the new versions of a package whose name and version the atom matches.
fn add_versions(
    space: &Space,
    atom: &Atom,
    member: u32,
    variables: &mut Vec<u32>,
) -> Result<(), AllocError>
    requires { member < length space.now.repository.packages }
    ensures { OnOk result (Gathers space.now variables.old.items variables.new.items (λ m. IsLaterOf member m × IsMatchedBy space.now atom.now m)
        (λ m. IsNewOf member m × IsMatchedBy space.now atom.now m)) }
{
    let package = space.package(member);
    for class in 0..space.class_count(space.cluster_of(member)) {
        add_new(space, atom, package, member, class, variables)?;
    }
    Ok(())
}

/// Adds what the atom matches of all new versions of a package.
pub(crate) fn add_later(
    space: &Space,
    atom: &Atom,
    member: u32,
    variables: &mut Vec<u32>,
) -> Result<(), AllocError>
    requires { member < length space.now.repository.packages }
    ensures { OnOk result (Adds space.now variables.old.items variables.new.items (λ m. IsLaterOf member m × IsMatchedBy space.now atom.now m)) }
{
    add_versions(space, atom, member, variables)?;
    add_kept(space, atom, member, variables)
}

/// Adds a package of a new name, if its class meets the atom's bound.
fn add_fresh_class(
    space: &Space,
    atom: &Atom,
    name: u32,
    class: u32,
    variables: &mut Vec<u32>,
) -> Result<(), AllocError>
    requires name { slice_get space.now.names name ≡ Some atom.now.name }
    requires class { class < length (fresh_classes space.now name) }
    ensures { OnOk result (Adds space.now variables.old.items variables.new.items (λ m. (m ≡ meaning.Fresh name class) × IsMatchedBy space.now atom.now m)) }
{
    if meets_bound(atom, &space.name_example(name, class)) {
        return add_variable(space, Meaning::Fresh(name, class), variables);
    }
    Ok(())
}

/// Adds the packages of new names that the atom matches.
pub(crate) fn add_fresh(
    space: &Space,
    atom: &Atom,
    variables: &mut Vec<u32>,
) -> Result<(), AllocError>
    ensures { OnOk result (Adds space.now variables.old.items variables.new.items (λ m. IsFresh m × IsMatchedBy space.now atom.now m)) }
{
    let Some(name) = space.find_name(&atom.name) else {
        return Ok(());
    };
    for class in 0..space.name_class_count(name) {
        add_fresh_class(space, atom, name, class, variables)?;
    }
    Ok(())
}
