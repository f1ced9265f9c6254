//! The least two variables that make an assignment stand for no future.
ghost use Rattle.std.specs.Prelude.{◌≡◌, ◌≤◌, length};
ghost use Rattle.dist_base.specs.Least.{IsLeastIfAny, IsLeastPairIfAny};
ghost use Rattle.dist_future.specs.FutureHealth.{AreNoFuture, IsOneEach};
ghost use Rattle.dist_future.specs.MatchingPrivate.{IsChangeAt, IsHeldFrom, IsLacking};
ghost use Rattle.dist_space.specs.Space.{IsMeaning, cluster_classes, fresh_classes};
ghost use Rattle.dist_space.specs.declared.meaning.Meaning.TheVariants as meaning;

use dist_clause::Assignment;
use dist_space::{Meaning, Space};

/// The least class of a cluster or of a new name that holds.
fn change_held(space: &Space, members: &Assignment) -> Option<u32>
    requires { IsOneEach space.now members.now }
    ensures { IsLeastIfAny (IsChangeAt space.now members.now) result }
{
    for variable in 1..space.variables() + 1 {
        if members.value(variable) && space.meaning(variable).is_change() {
            return Some(variable);
        }
    }
    None
}

/// The least class of a cluster, from a number on, that holds. `end` is how many classes there are.
fn class_held(
    space: &Space,
    members: &Assignment,
    cluster: u32,
    start: u32,
    end: u32,
) -> Option<u32>
    requires one_each { IsOneEach space.now members.now }
    requires end { end ≡ length (cluster_classes space.now cluster) }
    ensures { IsLeastIfAny (IsHeldFrom space.now members.now (meaning.At cluster) start) result }
{
    space.keeps_invariant();
    for class in start..end {
        let variable = space.variable(&Meaning::At(cluster, class));
        if members.value(variable) {
            return Some(variable);
        }
    }
    None
}

/// The least class of a new name, from a number on, that holds. `end` is how many classes there are.
fn fresh_held(space: &Space, members: &Assignment, name: u32, start: u32, end: u32) -> Option<u32>
    requires one_each { IsOneEach space.now members.now }
    requires end { end ≡ length (fresh_classes space.now name) }
    ensures { IsLeastIfAny (IsHeldFrom space.now members.now (meaning.Fresh name) start) result }
{
    space.keeps_invariant();
    for class in start..end {
        let variable = space.variable(&Meaning::Fresh(name, class));
        if members.value(variable) {
            return Some(variable);
        }
    }
    None
}

/// The variable of a meaning that does not hold.
fn lacking(space: &Space, members: &Assignment, needed: Meaning) -> Option<u32>
    requires one_each { IsOneEach space.now members.now }
    requires is_meaning { IsMeaning space.now needed }
    ensures { IsLeastIfAny (IsLacking space.now members.now needed) result }
{
    let variable = space.variable(&needed);
    if members.value(variable) {
        None
    } else {
        Some(variable)
    }
}

/// The least variable that one excludes, or that it lacks.
fn no_future_row(space: &Space, members: &Assignment, variable: u32) -> Option<u32>
    requires one_each { IsOneEach space.now members.now }
    requires from_one { 1 ≤ variable }
    requires in_range { variable ≤ length space.now.meanings }
    ensures { IsLeastIfAny (AreNoFuture space.now members.now variable) result }
{
    if !members.value(variable) {
        return None;
    }
    match space.meaning(variable) {
        Meaning::Now => change_held(space, members),
        Meaning::Present(number) => {
            let cluster = space.cluster_of(number);
            class_held(space, members, cluster, 0, space.class_count(cluster))
        }
        Meaning::At(cluster, class) => {
            let end = space.class_count(cluster);
            class_held(space, members, cluster, class + 1, end)
        }
        Meaning::New(member, class) => {
            lacking(space, members, Meaning::At(space.cluster_of(member), class))
        }
        Meaning::Kept(member, class, _) => lacking(space, members, Meaning::New(member, class)),
        Meaning::Fresh(name, class) => {
            let end = space.name_class_count(name);
            fresh_held(space, members, name, class + 1, end)
        }
    }
}

/// The least two variables that no future has so.
pub(crate) fn no_future(space: &Space, members: &Assignment) -> Option<(u32, u32)>
    requires { IsOneEach space.now members.now }
    ensures { IsLeastPairIfAny (AreNoFuture space.now members.now) result }
{
    for first in 1..space.variables() + 1 {
        if let Some(second) = no_future_row(space, members, first) {
            return Some((first, second));
        }
    }
    None
}
