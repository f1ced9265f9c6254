//! Variables that a model leaves out where it has a choice.

ghost use Rattle.std.specs.Prelude.{◌≡◌, IfSome, length};

use dist_clause::Assignment;
use dist_lanes::Row;
use std::alloc::Global;
use std::marker::Model;

/// Variables that models leave out where they have a choice, and those of them that are the last to be taken. Variable 1 stands at
/// place 0 of both rows; variables behind a row's end are none of them.
#[derive(Debug, Drop)]
pub struct Shunning {
    pub left_out: Row,
    pub last: Row,
}

impl Shunning {
    /// None is left out.
    pub(crate) fn none(alloc: Global) -> Shunning {
        Shunning {
            left_out: Row::empty(alloc),
            last: Row::empty(alloc),
        }
    }
}

/// Whether a row has a variable.
fn has(row: &Row, variable: u32) -> bool {
    let place = variable as usize;
    place > 0 && place <= row.len() && row.get(place - 1)
}

/// The variables that are shunned by a question: those that are true in an assignment of its own, or else those of all questions.
#[derive(Drop)]
pub(crate) struct Shunned<'a> {
    values: Option<&'a Assignment>,
    variables: u32,
    always: &'a Shunning,
}

impl<'a> Model for Shunned<'a> {
    ghost use Rattle.std.specs.Prelude.{◌≡◌, IfSome, ℕ, length};

    ghost Value = { ℕ };

    ghost view = { λ s. s.variables };

    ghost invariant = { λ s. IfSome s.values (λ values. length values.now ≡ s.variables) };
}

impl<'a> Shunned<'a> {
    /// The variables that are true in an assignment of so many, or else those of all questions.
    pub(crate) fn of(
        values: Option<&'a Assignment>,
        variables: u32,
        always: &'a Shunning,
    ) -> Shunned<'a>
        requires { IfSome values (λ values. length values.now ≡ variables) }
    {
        Shunned {
            values,
            variables,
            always,
        }
    }

    /// Whether a variable is shunned.
    pub(crate) fn has(&self, variable: u32) -> bool {
        match self.values {
            Some(values) => { variable > 0 && variable <= self.variables && values.value(variable) }
            None => has(&self.always.left_out, variable),
        }
    }

    /// Whether a variable is, of those that are shunned, among the last ones.
    pub(crate) fn is_last(&self, variable: u32) -> bool {
        self.values.is_none() && has(&self.always.last, variable)
    }
}
