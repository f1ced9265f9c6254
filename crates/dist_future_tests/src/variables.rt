//! Worked rows: how many variables a space has, and what they mean.
ghost use Rattle.std.specs.Prelude.{◌≤◌};

use crate::spaces::{ONE_SOURCE, space_within};
use dist_future::{Meaning, Space, SpaceError, spaces_are_one, spaces_are_there};
use dist_samples::LIBRARY;
use std::alloc::Global;

/// Whether these are the meanings of all variables, in order, and each has its variable.
fn has_meanings(space: &Space, meanings: &[Meaning]) -> bool {
    if space.variables() as usize != meanings.len() {
        return false;
    }
    for variable in 1..space.variables() + 1 {
        let meaning = space.meaning(variable);
        if meaning != meanings[variable as usize - 1] || space.variable(&meaning) != variable {
            return false;
        }
    }
    true
}

/// What a row shows, stanzas, and the meanings of all variables of their space.
type Variables = (&'static str, &'static str, &'static [Meaning]);

const VARIABLES: &[Variables] = &[
    (
        "members move together",
        ONE_SOURCE,
        &[
            Meaning::Now,
            Meaning::Present(0),
            Meaning::Present(1),
            Meaning::Present(2),
            Meaning::At(0, 0),
            Meaning::New(0, 0),
            Meaning::New(1, 0),
            Meaning::At(0, 1),
            Meaning::New(0, 1),
            Meaning::New(1, 1),
            Meaning::At(0, 2),
            Meaning::New(0, 2),
            Meaning::New(1, 2),
            Meaning::At(1, 0),
            Meaning::New(2, 0),
        ],
    ),
    (
        "entries are kept and new names come",
        "Package: p\nVersion: 1\nDepends: m | n\n\nPackage: q\nVersion: 1\nProvides: m\n\nPackage: r\nVersion: 1\n",
        &[
            Meaning::Now,
            Meaning::Present(0),
            Meaning::Present(1),
            Meaning::Present(2),
            Meaning::At(0, 0),
            Meaning::New(0, 0),
            Meaning::At(1, 0),
            Meaning::New(1, 0),
            Meaning::Kept(1, 0, 0),
            Meaning::At(2, 0),
            Meaning::New(2, 0),
            Meaning::Fresh(0, 0),
        ],
    ),
    (
        "three classes of a library",
        LIBRARY,
        &[
            Meaning::Now,
            Meaning::Present(0),
            Meaning::Present(1),
            Meaning::At(0, 0),
            Meaning::New(0, 0),
            Meaning::At(0, 1),
            Meaning::New(0, 1),
            Meaning::At(0, 2),
            Meaning::New(0, 2),
            Meaning::At(1, 0),
            Meaning::New(1, 0),
        ],
    ),
];

/// Whether there is a space of the row's stanzas within a number of variables, which has the row's meanings.
fn is_there(alloc: Global, row: &Variables, variables: u32) -> bool
    requires { variables ≤ 1000 }
{
    match space_within(alloc, row.1, false, variables) {
        Some(Ok(space)) => {
            let told = has_meanings(&space, row.2);
            drop(space);
            told
        }
        _ => false,
    }
}

/// Whether a space of the row's stanzas has more variables than this.
fn is_larger(alloc: Global, row: &Variables, variables: u32) -> bool
    requires { variables ≤ 1000 }
{
    match space_within(alloc, row.1, false, variables) {
        Some(Err(error)) => error == SpaceError::TooManyVariables,
        _ => false,
    }
}

/// Whether the space of a row is there, and none with fewer variables.
fn is_made(alloc: Global, row: &Variables) -> bool {
    if row.2.is_empty() || row.2.len() > 1000 {
        return false;
    }
    let variables = row.2.len() as u32;
    is_there(alloc, row, variables) && is_larger(alloc, row, variables - 1)
}

/// What the first row with other variables shows.
fn wrong_variables(alloc: Global, rows: &[Variables]) -> Option<&'static str> {
    for row in rows {
        if !is_made(alloc, row) {
            return Some(row.0);
        }
    }
    None
}

#[test]
fn variables_have_their_meanings(rt: HostRuntime) {
    assert_eq!(rt; wrong_variables(rt.alloc(), VARIABLES), None);
}

#[test]
fn the_laws_hold() {
    spaces_are_one();
    spaces_are_there();
}
