//! The groups of clauses that variables lead, each by going through the variables.
ghost use Rattle.std.specs.Prelude.{◌≡◌, ◌+◌, ◌≤◌, IfErr, OnOk, length};
ghost use Rattle.dist_space_clauses.specs.GatheringPrivate.{IsCauseAt, IsFront, IsGroupsFront};
ghost use Rattle.dist_space_clauses.specs.GroupsPrivate.{number_of};
ghost use Rattle.dist_space_clauses.specs.Moving.{AreMovers};

use crate::classed::Classed;
use crate::clause_text::Scratch;
use crate::conflicts::push_conflicts_of;
use crate::items::push_items_of;
use crate::led_clauses::{push_moves, push_one_class, push_today};
use crate::movers::Movers;
use dist_clause::{ClauseSet, PushError};
use dist_now::Partners;
use dist_space::Space;

/// What the clauses of a group say.
#[derive(Clone, Copy)]
pub(crate) enum Group {
    /// That a cluster has one class at most.
    Classes,
    /// What new versions and their entries go with.
    Versions,
    /// That a new name has one class at most.
    Names,
    /// What packages depend on.
    Items,
    /// What packages are in conflict with.
    Conflicts,
    /// What holds of the archive of today.
    Today,
}

/// Adds the clauses of a group that one variable leads.
fn push_led<'a>(
    space: &'a Space,
    group: Group,
    variable: u32,
    movers: &Movers<'a>,
    partners: &mut Partners,
    scratch: &mut Scratch,
    set: &mut ClauseSet,
) -> Result<(), PushError>
    requires from_one { 1 ≤ variable }
    requires in_range { variable ≤ length space.now.meanings }
    requires movers { AreMovers space.now.repository movers.now }
    requires partners { partners.old ≡ space.now.repository }
    requires front { IsFront space.now (number_of group) variable 0 set.old set.old }
    ensures partners { partners.new ≡ partners.old }
    ensures ok { OnOk result (IsFront space.now (number_of group) (variable + 1) 0 set.old set.new) }
    ensures err { IfErr result (IsCauseAt space.now set.old) }
{
    match group {
        Group::Classes => push_one_class(space, Classed::Cluster, variable, set),
        Group::Versions => push_moves(space, variable, set),
        Group::Names => push_one_class(space, Classed::Name, variable, set),
        Group::Items => push_items_of(space, variable, movers, scratch, set),
        Group::Conflicts => push_conflicts_of(space, variable, movers, partners, scratch, set),
        Group::Today => push_today(space, variable, set),
    }
}

/// Adds the clauses of a group.
pub(crate) fn push_group<'a>(
    space: &'a Space,
    group: Group,
    movers: &Movers<'a>,
    partners: &mut Partners,
    scratch: &mut Scratch,
    set: &mut ClauseSet,
) -> Result<(), PushError>
    requires movers { AreMovers space.now.repository movers.now }
    requires partners { partners.old ≡ space.now.repository }
    requires front { IsGroupsFront space.now (number_of group) set.old set.old }
    ensures partners { partners.new ≡ partners.old }
    ensures ok { OnOk result (IsGroupsFront space.now (number_of group + 1) set.old set.new) }
    ensures err { IfErr result (IsCauseAt space.now set.old) }
{
    for variable in 1..space.variables() + 1 {
        push_led(space, group, variable, movers, partners, scratch, set)?;
    }
    Ok(())
}
