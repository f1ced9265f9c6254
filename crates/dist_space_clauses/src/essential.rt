//! The clauses of essential names. A name has one package, as the repository of a space is flat.
ghost use Rattle.std.specs.Prelude.{◌≡◌, ◌+◌, true, IfErr, OnOk, Some, slice_get};
ghost use Rattle.dist_space_clauses.specs.GatheringPrivate.{AreVariablesOf, IsCauseAt, IsGroupsFront, IsNamedFront, IsWholeSet};
ghost use Rattle.dist_space_clauses.specs.SpaceClauses.{IsBearer};

use crate::clause_text::Scratch;
use crate::matched::{add_variable, put_in_order};
use dist_clause::{ClauseSet, PushError};
use dist_repo::Package;
use dist_space::{Meaning, Space};
use std::alloc::AllocError;

/// Gathers a package as it is and its new versions, which are all that bears its name.
fn gather_bearers(
    space: &Space,
    number: u32,
    package: &Package,
    variables: &mut Vec<u32>,
) -> Result<(), AllocError>
    requires package { slice_get space.now.repository.packages number ≡ Some «package».now }
    ensures { OnOk result (AreVariablesOf space.now (IsBearer space.now «package».now.name) variables.new.items) }
{
    variables.clear();
    add_variable(space, Meaning::Present(number), variables)?;
    for class in 0..space.class_count(space.cluster_of(number)) {
        add_variable(space, Meaning::New(number, class), variables)?;
    }
    put_in_order(variables);
    space.keeps_invariant();
    Ok(())
}

/// Adds the clause of the name of a package, if the package is essential.
fn push_name(
    space: &Space,
    number: u32,
    package: &Package,
    scratch: &mut Scratch,
    set: &mut ClauseSet,
) -> Result<(), PushError>
    requires package { slice_get space.now.repository.packages number ≡ Some «package».now }
    requires essential { space.now.essential ≡ true }
    requires front { IsNamedFront space.now number set.old set.old }
    ensures ok { OnOk result (IsNamedFront space.now (number + 1) set.old set.new) }
    ensures err { IfErr result (IsCauseAt space.now set.old) }
{
    space.keeps_invariant();
    space.repo().keeps_invariant();
    if !package.essential {
        return Ok(());
    }
    let variables = &mut scratch.variables;
    if let Err(AllocError) = gather_bearers(space, number, package, variables) {
        return Err(PushError::NoMemory);
    }
    if let Err(AllocError) = scratch.write_positive() {
        return Err(PushError::NoMemory);
    }
    set.push(&scratch.clause)
}

/// Adds the clauses of the names of essential packages.
pub(crate) fn push_names(
    space: &Space,
    scratch: &mut Scratch,
    set: &mut ClauseSet,
) -> Result<(), PushError>
    requires essential { space.now.essential ≡ true }
    requires front { IsGroupsFront space.now 7 set.old set.old }
    ensures ok { OnOk result (IsWholeSet space.now set.old set.new) }
    ensures err { IfErr result (IsCauseAt space.now set.old) }
{
    space.keeps_invariant();
    for number in 0..space.package_count() {
        push_name(space, number, space.package(number), scratch, set)?;
    }
    Ok(())
}
