//! The clauses of two literals that one variable leads: those of clusters, of new versions, of new names and of today.
ghost use Rattle.std.specs.Prelude.{◌+◌, ◌≤◌, ◌<◌, IfErr, OnOk, length};
ghost use Rattle.dist_space_clauses.specs.GatheringPrivate.{IsCauseAt, IsFront};
ghost use Rattle.dist_space_clauses.specs.GroupsPrivate.{class_of, classes_of, group_for};
ghost use Rattle.dist_space.specs.Space.{IsChange, IsMeaningOf};
ghost use Rattle.dist_space.specs.declared.meaning.Meaning.TheVariants as meaning;

use crate::classed::Classed;
use crate::clause_text::add_pair;
use dist_clause::{ClauseSet, Lit, PushError};
use dist_space::{Meaning, Space};

/// That a class of a cluster or of a new name and each later one do not hold together.
fn push_later(
    space: &Space,
    classed: Classed,
    variable: u32,
    number: u32,
    class: u32,
    set: &mut ClauseSet,
) -> Result<(), PushError>
    requires meaning { IsMeaningOf space.now variable (class_of classed number class) }
    requires class { class < length (classes_of space.now classed number) }
    requires front { IsFront space.now (group_for classed) variable 0 set.old set.old }
    ensures ok { OnOk result (IsFront space.now (group_for classed) (variable + 1) 0 set.old set.new) }
    ensures err { IfErr result (IsCauseAt space.now set.old) }
{
    let end = classed.class_count(space, number);
    for later in class + 1..end {
        let other = classed.variable(space, number, later);
        add_pair(set, Lit::new(variable, false), Lit::new(other, false))?;
    }
    Ok(())
}

/// The clauses of one class of a cluster, or of a new name.
pub(crate) fn push_one_class(
    space: &Space,
    classed: Classed,
    variable: u32,
    set: &mut ClauseSet,
) -> Result<(), PushError>
    requires from_one { 1 ≤ variable }
    requires in_range { variable ≤ length space.now.meanings }
    requires front { IsFront space.now (group_for classed) variable 0 set.old set.old }
    ensures ok { OnOk result (IsFront space.now (group_for classed) (variable + 1) 0 set.old set.new) }
    ensures err { IfErr result (IsCauseAt space.now set.old) }
{
    match classed.class_of(space.meaning(variable)) {
        Some((number, class)) => push_later(space, classed, variable, number, class, set),
        None => Ok(()),
    }
}

/// That a member is gone where its cluster is at a class, and that the cluster is there where its new version is installed.
fn push_new(
    space: &Space,
    variable: u32,
    member: u32,
    class: u32,
    set: &mut ClauseSet,
) -> Result<(), PushError>
    requires meaning { IsMeaningOf space.now variable (meaning.New member class) }
    requires front { IsFront space.now 2 variable 0 set.old set.old }
    ensures ok { OnOk result (IsFront space.now 2 (variable + 1) 0 set.old set.new) }
    ensures err { IfErr result (IsCauseAt space.now set.old) }
{
    let at = space.variable(&Meaning::At(space.cluster_of(member), class));
    let present = space.variable(&Meaning::Present(member));
    add_pair(set, Lit::new(present, false), Lit::new(at, false))?;
    add_pair(set, Lit::new(variable, false), Lit::new(at, true))
}

/// That a new version is installed where an entry of it is kept.
fn push_kept(
    space: &Space,
    variable: u32,
    member: u32,
    class: u32,
    entry: u32,
    set: &mut ClauseSet,
) -> Result<(), PushError>
    requires meaning { IsMeaningOf space.now variable (meaning.Kept member class entry) }
    requires front { IsFront space.now 2 variable 0 set.old set.old }
    ensures ok { OnOk result (IsFront space.now 2 (variable + 1) 0 set.old set.new) }
    ensures err { IfErr result (IsCauseAt space.now set.old) }
{
    let new = space.variable(&Meaning::New(member, class));
    add_pair(set, Lit::new(variable, false), Lit::new(new, true))
}

/// The clauses of a new version and of its entries.
pub(crate) fn push_moves(space: &Space, variable: u32, set: &mut ClauseSet) -> Result<(), PushError>
    requires from_one { 1 ≤ variable }
    requires in_range { variable ≤ length space.now.meanings }
    requires front { IsFront space.now 2 variable 0 set.old set.old }
    ensures ok { OnOk result (IsFront space.now 2 (variable + 1) 0 set.old set.new) }
    ensures err { IfErr result (IsCauseAt space.now set.old) }
{
    match space.meaning(variable) {
        Meaning::New(member, class) => push_new(space, variable, member, class, set),
        Meaning::Kept(member, class, entry) => {
            push_kept(space, variable, member, class, entry, set)
        }
        _ => Ok(()),
    }
}

/// That in the archive of today a cluster is not at a class, or that there is no package of a new name.
fn push_no_change(
    space: &Space,
    variable: u32,
    change: Meaning,
    set: &mut ClauseSet,
) -> Result<(), PushError>
    requires meaning { IsMeaningOf space.now variable change }
    requires change { IsChange change }
    requires front { IsFront space.now 6 variable 0 set.old set.old }
    ensures ok { OnOk result (IsFront space.now 6 (variable + 1) 0 set.old set.new) }
    ensures err { IfErr result (IsCauseAt space.now set.old) }
{
    let now = space.variable(&Meaning::Now);
    add_pair(set, Lit::new(now, false), Lit::new(variable, false))
}

/// The clause of a class of a cluster or of a new name in the archive of today.
pub(crate) fn push_today(space: &Space, variable: u32, set: &mut ClauseSet) -> Result<(), PushError>
    requires from_one { 1 ≤ variable }
    requires in_range { variable ≤ length space.now.meanings }
    requires front { IsFront space.now 6 variable 0 set.old set.old }
    ensures ok { OnOk result (IsFront space.now 6 (variable + 1) 0 set.old set.new) }
    ensures err { IfErr result (IsCauseAt space.now set.old) }
{
    let meaning = space.meaning(variable);
    if meaning.is_change() {
        return push_no_change(space, variable, meaning, set);
    }
    Ok(())
}
