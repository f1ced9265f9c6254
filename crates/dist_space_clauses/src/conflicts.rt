//! The clauses of packages in conflict. Of two packages as they are today the one that stands first has the clause, so both
//! its own conflict atoms count and those of the packages behind it.
ghost use Rattle.std.specs.Prelude.{◌≡◌, ◌≢◌, ◌+◌, ◌≤◌, ◌<◌, [], All, Any, Contains, IsSomeAnd, IfErr, OnOk, Some, length, slice_get};
ghost use Rattle.dist_asked.specs.AskedPlaces.{AreEnough};
ghost use Rattle.dist_repo.specs.Match.{IsUsable};
ghost use Rattle.dist_repo.specs.PackageList.{IsPackageAnd};
ghost use Rattle.dist_space_clauses.specs.Moving.{AreCandidates, AreMovers};
ghost use Rattle.dist_space_clauses.specs.GatheringPrivate.{Adds, AreVariablesOf, Gathers, IsCauseAt, IsFresh, IsFront, IsLater, IsLaterOf, IsPartnerOf};
ghost use Rattle.dist_space.specs.Space.{IsMatched, IsMatchedBy, name_of, variable_of};
ghost use Rattle.dist_space_clauses.specs.SpaceClauses.{Excludes};
ghost use Rattle.dist_space.specs.declared.meaning.Meaning.TheVariants as meaning;

use crate::candidates::gather_candidates;
use crate::clause_text::{Scratch, add_pair};
use crate::matched::{add_fresh, add_later, add_variable, put_in_order};
use crate::movers::Movers;
use dist_asked::AskedPlaces;
use dist_clause::{ClauseSet, Lit, PushError};
use dist_now::Partners;
use dist_relation::Atom;
use dist_repo::Package;
use dist_space::{Meaning, Space};
use std::alloc::AllocError;

/// Adds what a conflict atom of a package matches of the new versions of another one.
fn add_rejected(
    space: &Space,
    number: u32,
    package: &Package,
    atom: &Atom,
    other: u32,
    variables: &mut Vec<u32>,
) -> Result<(), AllocError>
    requires other { other < length space.now.repository.packages }
    requires usable { IsUsable space.now.repository.architecture atom.now.qualifier }
    requires atom { Contains «package».now.conflicts atom.now }
    ensures { OnOk result (Gathers space.now variables.old.items variables.new.items (Excludes space.now number «package».now) (λ m. (IsLaterOf other m × IsMatchedBy space.now atom.now m) × Excludes space.now number «package».now m)) }
{
    let rejected = space.package(other);
    if rejected.name == package.name {
        return Ok(());
    }
    add_later(space, atom, other, variables)
}

/// Adds what a conflict atom of a package matches of the new versions of some packages.
fn add_packages(
    space: &Space,
    number: u32,
    package: &Package,
    atom: &Atom,
    numbers: &[u32],
    variables: &mut Vec<u32>,
) -> Result<(), AllocError>
    requires usable { IsUsable space.now.repository.architecture atom.now.qualifier }
    requires atom { Contains «package».now.conflicts atom.now }
    requires candidates { AreCandidates space.now atom.now numbers.now }
    ensures { OnOk result (Gathers space.now variables.old.items variables.new.items (Excludes space.now number «package».now) (λ m. Any (λ other. (IsLaterOf other m × IsMatchedBy space.now atom.now m) × Excludes space.now number «package».now m) numbers.now)) }
{
    for other in numbers {
        add_rejected(space, number, package, atom, *other, variables)?;
    }
    Ok(())
}

/// Adds the packages of new names that a conflict atom of a package matches.
fn add_new_names(
    space: &Space,
    package: &Package,
    atom: &Atom,
    variables: &mut Vec<u32>,
) -> Result<(), AllocError>
    ensures { OnOk result (Adds space.now variables.old.items variables.new.items (λ m. (IsFresh m × IsMatchedBy space.now atom.now m) × IsSomeAnd (name_of space.now m) (λ name. name ≢ «package».now.name))) }
{
    if atom.name == package.name {
        return Ok(());
    }
    add_fresh(space, atom, variables)
}

/// Adds what a usable conflict atom of a package matches of new versions and new names, with a list for the packages that may match
/// it by new versions.
fn add_usable<'a>(
    space: &'a Space,
    number: u32,
    package: &Package,
    atom: &'a Atom,
    movers: &Movers<'a>,
    numbers: &mut Vec<u32>,
    variables: &mut Vec<u32>,
) -> Result<(), AllocError>
    requires atom { Contains «package».now.conflicts atom.now }
    requires usable { IsUsable space.now.repository.architecture atom.now.qualifier }
    requires movers { AreMovers space.now.repository movers.now }
    ensures { OnOk result (Gathers space.now variables.old.items variables.new.items (Excludes space.now number «package».now) (λ m. IsLater m × IsMatched space.now atom.now m × Excludes space.now number «package».now m)) }
{
    gather_candidates(space, atom, movers, numbers)?;
    add_packages(space, number, package, atom, numbers, variables)?;
    add_new_names(space, package, atom, variables)
}

/// Adds what a conflict atom of a package matches of new versions and new names.
fn add_atom<'a>(
    space: &'a Space,
    number: u32,
    package: &Package,
    atom: &'a Atom,
    movers: &Movers<'a>,
    variables: &mut Vec<u32>,
) -> Result<(), AllocError>
    requires atom { Contains «package».now.conflicts atom.now }
    requires movers { AreMovers space.now.repository movers.now }
    ensures { OnOk result (Gathers space.now variables.old.items variables.new.items (Excludes space.now number «package».now) (λ m. IsLater m × IsMatched space.now atom.now m × Excludes space.now number «package».now m)) }
{
    if !space.repo().usable(&atom.qualifier) {
        return Ok(());
    }
    let mut numbers = Vec::new(*variables.allocator());
    let added = add_usable(
        space,
        number,
        package,
        atom,
        movers,
        &mut numbers,
        variables,
    );
    drop(numbers);
    added
}

/// Adds what the conflict atoms of a package match of new versions and new names, by the places that are asked.
fn add_asked<'a>(
    space: &'a Space,
    number: u32,
    package: &'a Package,
    asked: &AskedPlaces,
    movers: &Movers<'a>,
    variables: &mut Vec<u32>,
) -> Result<(), AllocError>
    requires enough { AreEnough «package».now.conflicts asked.now }
    requires movers { AreMovers space.now.repository movers.now }
    ensures { OnOk result (Gathers space.now variables.old.items variables.new.items (Excludes space.now number «package».now) (λ m. Any (λ atom. IsLater m × IsMatched space.now atom m × Excludes space.now number «package».now m) «package».now.conflicts)) }
{
    for place in 0..package.conflicts.len() {
        let atom = package.conflicts.get(place);
        if asked.has(place) {
            add_atom(space, number, package, atom, movers, variables)?;
        }
    }
    Ok(())
}

/// Adds what the conflict atoms of a package match of new versions and new names.
fn add_atoms<'a>(
    space: &'a Space,
    number: u32,
    package: &'a Package,
    movers: &Movers<'a>,
    variables: &mut Vec<u32>,
) -> Result<(), AllocError>
    requires number { slice_get space.now.repository.packages number ≡ Some «package».now }
    requires movers { AreMovers space.now.repository movers.now }
    ensures { OnOk result (Gathers space.now variables.old.items variables.new.items (Excludes space.now number «package».now) (λ m. Any (λ atom. IsLater m × IsMatched space.now atom m × Excludes space.now number «package».now m) «package».now.conflicts)) }
{
    let asked = space.repo().asked_conflicts(number);
    add_asked(space, number, package, asked, movers, variables)
}

/// Adds packages as they are.
fn add_present(space: &Space, others: &[u32], variables: &mut Vec<u32>) -> Result<(), AllocError>
    requires { All (λ other. other < length space.now.repository.packages) others.now }
    ensures { OnOk result (Adds space.now variables.old.items variables.new.items (λ m. Any (λ other. m ≡ meaning.Present other) others.now)) }
{
    for other in others {
        add_variable(space, Meaning::Present(*other), variables)?;
    }
    Ok(())
}

/// Adds the packages behind a package that are in conflict with it, with an empty list for their numbers.
fn add_found(
    space: &Space,
    number: u32,
    partners: &mut Partners,
    others: &mut Vec<u32>,
    variables: &mut Vec<u32>,
) -> Result<(), AllocError>
    requires number { number < length space.now.repository.packages }
    requires partners { partners.old ≡ space.now.repository }
    requires none { others.old.items ≡ [] }
    ensures partners { partners.new ≡ partners.old }
    ensures adds { OnOk result (Adds space.now variables.old.items variables.new.items (IsPartnerOf space.now number)) }
{
    partners.add_behind(number, others)?;
    add_present(space, others, variables)
}

/// Adds the packages behind a package that are in conflict with it.
fn add_partners(
    space: &Space,
    number: u32,
    partners: &mut Partners,
    variables: &mut Vec<u32>,
) -> Result<(), AllocError>
    requires number { number < length space.now.repository.packages }
    requires partners { partners.old ≡ space.now.repository }
    ensures partners { partners.new ≡ partners.old }
    ensures adds { OnOk result (Adds space.now variables.old.items variables.new.items (IsPartnerOf space.now number)) }
{
    let mut others = Vec::new(*variables.allocator());
    let added = add_found(space, number, partners, &mut others, variables);
    drop(others);
    added
}

/// Gathers what stands behind a package and is in conflict with it.
fn gather_apart<'a>(
    space: &'a Space,
    number: u32,
    package: &'a Package,
    movers: &Movers<'a>,
    partners: &mut Partners,
    variables: &mut Vec<u32>,
) -> Result<(), AllocError>
    requires package { slice_get space.now.repository.packages number ≡ Some «package».now }
    requires movers { AreMovers space.now.repository movers.now }
    requires partners { partners.old ≡ space.now.repository }
    ensures partners { partners.new ≡ partners.old }
    ensures are { OnOk result (AreVariablesOf space.now (Excludes space.now number «package».now) variables.new.items) }
{
    variables.clear();
    add_partners(space, number, partners, variables)?;
    add_atoms(space, number, package, movers, variables)?;
    put_in_order(variables);
    Ok(())
}

/// Adds the clauses of a package and what it must be apart from.
fn push_pairs(
    space: &Space,
    number: u32,
    others: &[u32],
    set: &mut ClauseSet,
) -> Result<(), PushError>
    requires others { AreVariablesOf space.now (λ m. IsPackageAnd space.now.repository.packages number (λ p. Excludes space.now number p m)) others.now }
    requires number { number < length space.now.repository.packages }
    requires front { IsFront space.now 5 (variable_of space.now (meaning.Present number)) 0 set.old set.old }
    ensures ok { OnOk result (IsFront space.now 5 (variable_of space.now (meaning.Present number) + 1) 0 set.old set.new) }
    ensures err { IfErr result (IsCauseAt space.now set.old) }
{
    let variable = space.variable(&Meaning::Present(number));
    space.keeps_invariant();
    for other in others {
        add_pair(set, Lit::new(variable, false), Lit::new(*other, false))?;
    }
    Ok(())
}

/// Adds the clauses of the conflicts of a package.
fn push_conflicts<'a>(
    space: &'a Space,
    number: u32,
    package: &'a Package,
    movers: &Movers<'a>,
    partners: &mut Partners,
    scratch: &mut Scratch,
    set: &mut ClauseSet,
) -> Result<(), PushError>
    requires package { slice_get space.now.repository.packages number ≡ Some «package».now }
    requires movers { AreMovers space.now.repository movers.now }
    requires partners { partners.old ≡ space.now.repository }
    requires front { IsFront space.now 5 (variable_of space.now (meaning.Present number)) 0 set.old set.old }
    ensures partners { partners.new ≡ partners.old }
    ensures ok { OnOk result (IsFront space.now 5 (variable_of space.now (meaning.Present number) + 1) 0 set.old set.new) }
    ensures err { IfErr result (IsCauseAt space.now set.old) }
{
    let variables = &mut scratch.variables;
    if let Err(AllocError) = gather_apart(space, number, package, movers, partners, variables) {
        return Err(PushError::NoMemory);
    }
    push_pairs(space, number, &scratch.variables, set)
}

/// The clauses of the conflicts of the package that a variable means as it is.
pub(crate) fn push_conflicts_of<'a>(
    space: &'a Space,
    variable: u32,
    movers: &Movers<'a>,
    partners: &mut Partners,
    scratch: &mut Scratch,
    set: &mut ClauseSet,
) -> Result<(), PushError>
    requires from_one { 1 ≤ variable }
    requires in_range { variable ≤ length space.now.meanings }
    requires movers { AreMovers space.now.repository movers.now }
    requires partners { partners.old ≡ space.now.repository }
    requires front { IsFront space.now 5 variable 0 set.old set.old }
    ensures partners { partners.new ≡ partners.old }
    ensures ok { OnOk result (IsFront space.now 5 (variable + 1) 0 set.old set.new) }
    ensures err { IfErr result (IsCauseAt space.now set.old) }
{
    match space.meaning(variable) {
        Meaning::Present(number) => {
            push_conflicts(
                space,
                number,
                space.package(number),
                movers,
                partners,
                scratch,
                set,
            )
        }
        _ => Ok(()),
    }
}
