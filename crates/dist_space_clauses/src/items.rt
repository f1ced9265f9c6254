//! The clauses of the items of packages.
ghost use Rattle.std.specs.Prelude.{◌≡◌, ◌+◌, ◌<◌, ◌≤◌, Any, IfErr, None, OnOk, Some, length, slice_get};
ghost use Rattle.dist_asked.specs.AskedPlaces.{AreEnough};
ghost use Rattle.dist_repo.specs.Match.{IsUsable};
ghost use Rattle.dist_repo.specs.Offers.{AreMatched};
ghost use Rattle.dist_repo.specs.Providers.{AreProviders};
ghost use Rattle.dist_space_clauses.specs.GatheringPrivate.{Adds, AreVariablesOf, Gathers, IsCauseAt, IsFront, IsItemAt, IsLaterOf, IsPresentMatched};
ghost use Rattle.dist_space_clauses.specs.Moving.{AreCandidates, AreMovers};
ghost use Rattle.dist_space.specs.Space.{IsMatched, IsMatchedBy, IsMetBy, variable_of};
ghost use Rattle.dist_space.specs.declared.meaning.Meaning.TheVariants as meaning;

use crate::candidates::gather_candidates;
use crate::clause_text::Scratch;
use crate::matched::{add_fresh, add_later, add_variable, put_in_order};
use crate::movers::Movers;
use dist_asked::AskedPlaces;
use dist_clause::{ClauseSet, PushError};
use dist_relation::{Alternatives, Atom};
use dist_repo::{Offer, Package};
use dist_space::{Meaning, Space};
use std::alloc::AllocError;

/// Adds the packages of some offers as they are.
fn add_offered(
    space: &Space,
    atom: &Atom,
    offers: &[Offer],
    variables: &mut Vec<u32>,
) -> Result<(), AllocError>
    requires { AreMatched space.now.repository atom.now offers.now }
    ensures { OnOk result (Adds space.now variables.old.items variables.new.items (IsPresentMatched space.now atom.now)) }
{
    for offer in offers {
        add_variable(space, Meaning::Present(offer.number), variables)?;
    }
    Ok(())
}

/// Adds the providers of a name as they are.
fn add_provided(
    space: &Space,
    atom: &Atom,
    providers: &[u32],
    variables: &mut Vec<u32>,
) -> Result<(), AllocError>
    requires usable { IsUsable space.now.repository.architecture atom.now.qualifier }
    requires unbounded { atom.now.bound ≡ None }
    requires providers { AreProviders space.now.repository atom.now.name providers.now }
    ensures { OnOk result (Adds space.now variables.old.items variables.new.items (IsPresentMatched space.now atom.now)) }
{
    for number in providers {
        add_variable(space, Meaning::Present(*number), variables)?;
    }
    Ok(())
}

/// Adds the packages that an atom matches as they are. Where it has no bound these are the providers of its name, each of which
/// stands once.
fn add_present(space: &Space, atom: &Atom, variables: &mut Vec<u32>) -> Result<(), AllocError>
    requires { IsUsable space.now.repository.architecture atom.now.qualifier }
    ensures { OnOk result (Adds space.now variables.old.items variables.new.items (IsPresentMatched space.now atom.now)) }
{
    let repo = space.repo();
    if atom.bound.is_some() {
        return add_offered(space, atom, repo.matched(atom), variables);
    }
    add_provided(space, atom, repo.providers(atom.name.bytes()), variables)
}

/// Adds what an atom matches of the new versions of some packages.
fn add_packages(
    space: &Space,
    atom: &Atom,
    numbers: &[u32],
    variables: &mut Vec<u32>,
) -> Result<(), AllocError>
    requires { AreCandidates space.now atom.now numbers.now }
    ensures { OnOk result (Gathers space.now variables.old.items variables.new.items (IsMatchedBy space.now atom.now) (λ m. Any (λ number. IsLaterOf number m × IsMatchedBy space.now atom.now m) numbers.now)) }
{
    for number in numbers {
        add_later(space, atom, *number, variables)?;
    }
    Ok(())
}

/// Adds what a usable atom matches, with a list for the packages that may match it by new versions.
fn add_usable<'a>(
    space: &'a Space,
    atom: &'a Atom,
    movers: &Movers<'a>,
    numbers: &mut Vec<u32>,
    variables: &mut Vec<u32>,
) -> Result<(), AllocError>
    requires usable { IsUsable space.now.repository.architecture atom.now.qualifier }
    requires movers { AreMovers space.now.repository movers.now }
    ensures { OnOk result (Adds space.now variables.old.items variables.new.items (IsMatched space.now atom.now)) }
{
    gather_candidates(space, atom, movers, numbers)?;
    add_present(space, atom, variables)?;
    add_packages(space, atom, numbers, variables)?;
    add_fresh(space, atom, variables)
}

/// Adds what an atom matches.
fn add_matched<'a>(
    space: &'a Space,
    atom: &'a Atom,
    movers: &Movers<'a>,
    variables: &mut Vec<u32>,
) -> Result<(), AllocError>
    requires { AreMovers space.now.repository movers.now }
    ensures { OnOk result (Adds space.now variables.old.items variables.new.items (IsMatched space.now atom.now)) }
{
    if !space.repo().usable(&atom.qualifier) {
        return Ok(());
    }
    let mut numbers = Vec::new(*variables.allocator());
    let added = add_usable(space, atom, movers, &mut numbers, variables);
    drop(numbers);
    added
}

/// Adds what an item is met by, by the places that are asked.
fn add_asked<'a>(
    space: &'a Space,
    alternatives: &'a Alternatives,
    asked: &AskedPlaces,
    movers: &Movers<'a>,
    variables: &mut Vec<u32>,
) -> Result<(), AllocError>
    requires enough { AreEnough alternatives.now asked.now }
    requires movers { AreMovers space.now.repository movers.now }
    ensures { OnOk result (Adds space.now variables.old.items variables.new.items (IsMetBy space.now alternatives.now)) }
{
    for place in 0..alternatives.len() {
        let atom = alternatives.get(place);
        if asked.has(place) {
            add_matched(space, atom, movers, variables)?;
        }
    }
    Ok(())
}

/// Gathers what an item is met by.
fn gather_meeting<'a>(
    space: &'a Space,
    alternatives: &'a Alternatives,
    asked: &AskedPlaces,
    movers: &Movers<'a>,
    variables: &mut Vec<u32>,
) -> Result<(), AllocError>
    requires enough { AreEnough alternatives.now asked.now }
    requires movers { AreMovers space.now.repository movers.now }
    ensures { OnOk result (AreVariablesOf space.now (IsMetBy space.now alternatives.now) variables.new.items) }
{
    variables.clear();
    add_asked(space, alternatives, asked, movers, variables)?;
    put_in_order(variables);
    Ok(())
}

/// Adds the clause of the item at a place of a package, unless the package meets it itself.
fn push_item<'a>(
    space: &'a Space,
    number: u32,
    place: usize,
    alternatives: &'a Alternatives,
    movers: &Movers<'a>,
    scratch: &mut Scratch,
    set: &mut ClauseSet,
) -> Result<(), PushError>
    requires movers { AreMovers space.now.repository movers.now }
    requires item { IsItemAt space.now.repository.packages number place alternatives.now }
    requires front { IsFront space.now 4 (variable_of space.now (meaning.Present number)) place set.old set.old }
    ensures ok { OnOk result (IsFront space.now 4 (variable_of space.now (meaning.Present number)) (place + 1) set.old set.new) }
    ensures err { IfErr result (IsCauseAt space.now set.old) }
{
    space.keeps_invariant();
    let asked = space.repo().asked_alternatives(number, place);
    let variables = &mut scratch.variables;
    if let Err(AllocError) = gather_meeting(space, alternatives, asked, movers, variables) {
        return Err(PushError::NoMemory);
    }
    let variable = space.variable(&Meaning::Present(number));
    if scratch.variables.as_slice().contains(&variable) {
        return Ok(());
    }
    if let Err(AllocError) = scratch.write_implied(variable) {
        return Err(PushError::NoMemory);
    }
    set.push(&scratch.clause)
}

/// Adds the clauses of the items of a package.
fn push_items<'a>(
    space: &'a Space,
    number: u32,
    package: &'a Package,
    movers: &Movers<'a>,
    scratch: &mut Scratch,
    set: &mut ClauseSet,
) -> Result<(), PushError>
    requires movers { AreMovers space.now.repository movers.now }
    requires package { slice_get space.now.repository.packages number ≡ Some «package».now }
    requires front { IsFront space.now 4 (variable_of space.now (meaning.Present number)) 0 set.old set.old }
    ensures ok { OnOk result (IsFront space.now 4 (variable_of space.now (meaning.Present number) + 1) 0 set.old set.new) }
    ensures err { IfErr result (IsCauseAt space.now set.old) }
{
    for place in 0..package.depends.len() {
        push_item(
            space,
            number,
            place,
            package.depends.get(place),
            movers,
            scratch,
            set,
        )?;
    }
    space.keeps_invariant();
    Ok(())
}

/// The clauses of the items of the package that a variable means as it is.
pub(crate) fn push_items_of<'a>(
    space: &'a Space,
    variable: u32,
    movers: &Movers<'a>,
    scratch: &mut Scratch,
    set: &mut ClauseSet,
) -> Result<(), PushError>
    requires from_one { 1 ≤ variable }
    requires in_range { variable ≤ length space.now.meanings }
    requires movers { AreMovers space.now.repository movers.now }
    requires front { IsFront space.now 4 variable 0 set.old set.old }
    ensures ok { OnOk result (IsFront space.now 4 (variable + 1) 0 set.old set.new) }
    ensures err { IfErr result (IsCauseAt space.now set.old) }
{
    match space.meaning(variable) {
        Meaning::Present(number) => {
            push_items(space, number, space.package(number), movers, scratch, set)
        }
        _ => Ok(()),
    }
}
