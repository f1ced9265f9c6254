//! For tests: the health of assignments of small spaces, and which meanings have a model, with all assignments tried.
ghost use Rattle.std.specs.Prelude.{◌≡◌, IfSome, length};
ghost use Rattle.dist_future.specs.FutureHealth.{IsOneEach};

use dist_clause::Assignment;
use dist_future::{FutureHealth, Meaning, Space, health_in};
use std::alloc::Global;

/// Makes a variable true, and says whether there is one.
fn make_true(space: &Space, members: &mut Assignment, variable: u32) -> bool
    requires { IsOneEach space.now members.old }
    ensures { IsOneEach space.now members.new }
{
    if variable < 1 || variable > space.variables() {
        return false;
    }
    members.set(variable, true);
    true
}

/// Makes variables true, and says whether there are such.
fn make_all_true(space: &Space, members: &mut Assignment, variables: &[u32]) -> bool
    requires { IsOneEach space.now members.old }
    ensures { IsOneEach space.now members.new }
{
    for variable in variables {
        if !make_true(space, members, *variable) {
            return false;
        }
    }
    true
}

/// The assignment that makes some variables true.
fn assignment(alloc: Global, space: &Space, variables: &[u32]) -> Option<Assignment>
    ensures { IfSome result (IsOneEach space.now) }
{
    let mut members = Assignment::new(alloc, space.variables()).ok()?;
    if make_all_true(space, &mut members, variables) {
        Some(members)
    } else {
        drop(members);
        None
    }
}

/// Whether the assignment that makes some variables true has this health.
fn is_of_health(alloc: Global, space: &Space, row: &(&[u32], FutureHealth)) -> Option<bool> {
    let members = assignment(alloc, space, row.0)?;
    let health = health_in(space, &members);
    drop(members);
    Some(health == row.1)
}

/// Whether the assignments that make some variables true have this health.
pub(crate) fn have_health(
    alloc: Global,
    space: &Space,
    rows: &[(&[u32], FutureHealth)],
) -> Option<bool> {
    for row in rows {
        if !is_of_health(alloc, space, row)? {
            return Some(false);
        }
    }
    Some(true)
}

/// Goes on to the next assignment, as binary numbers count. Answers false after the last one.
fn next(members: &mut Assignment, variables: u32) -> bool
    requires { variables ≡ length members.old }
    ensures { length members.new ≡ length members.old }
{
    for place in 0..variables {
        let variable = place + 1;
        let value = members.value(variable);
        members.set(variable, !value);
        if !value {
            return true;
        }
    }
    false
}

/// Whether all of these meanings hold.
fn hold(space: &Space, members: &Assignment, wanted: &[Meaning]) -> bool
    requires { IsOneEach space.now members.now }
{
    for variable in 1..space.variables() + 1 {
        if !members.value(variable) && wanted.contains(&space.meaning(variable)) {
            return false;
        }
    }
    true
}

/// Whether a variable has the meaning.
fn is_there(space: &Space, meaning: &Meaning) -> bool {
    for variable in 1..space.variables() + 1 {
        if space.meaning(variable) == *meaning {
            return true;
        }
    }
    false
}

/// Whether all of these are meanings of the space.
fn are_there(space: &Space, wanted: &[Meaning]) -> bool {
    for meaning in wanted {
        if !is_there(space, meaning) {
            return false;
        }
    }
    true
}

/// Whether this assignment or a later one is healthy and makes these meanings true.
fn finds_model(space: &Space, members: &mut Assignment, wanted: &[Meaning]) -> Option<bool>
    requires { IsOneEach space.now members.old }
{
    for _round in 0..1_000_000u32 {
        if hold(space, members, wanted) && health_in(space, members) == FutureHealth::Healthy {
            return Some(true);
        }
        if !next(members, space.variables()) {
            return Some(false);
        }
    }
    None
}

/// Whether some healthy assignment makes these meanings true: all are tried, of fewer than twenty variables.
fn has_model(alloc: Global, space: &Space, wanted: &[Meaning]) -> Option<bool> {
    let mut members = Assignment::new(alloc, space.variables()).ok()?;
    let found = finds_model(space, &mut members, wanted);
    drop(members);
    found
}

/// Whether these meanings are there, and have a model or none, as told.
fn is_model(alloc: Global, space: &Space, model: &(&[Meaning], bool)) -> Option<bool> {
    if !are_there(space, model.0) {
        return None;
    }
    Some(has_model(alloc, space, model.0)? == model.1)
}

/// Whether there are models with these meanings, as told.
pub(crate) fn are_models(
    alloc: Global,
    space: &Space,
    models: &[(&[Meaning], bool)],
) -> Option<bool> {
    for model in models {
        if !is_model(alloc, space, model)? {
            return Some(false);
        }
    }
    Some(true)
}
