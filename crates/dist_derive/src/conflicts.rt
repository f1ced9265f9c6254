//! Numbers of clauses that were false, so that none of them is read again.

ghost use Rattle.std.specs.Prelude.{◌≡◌, ◌⊎◌, [], ◌∷◌, ◌++◌, Contains, IfOk, IsTrue};

use crate::variable_set::VariableSet;
use std::alloc::{AllocError, Global};
use std::marker::Model;

/// Some of the clauses that were false in a call, by their numbers. A number without room is not remembered.
#[derive(Drop)]
pub(crate) struct Conflicts {
    numbers: VariableSet,
    /// The largest number that can be remembered.
    room: u32,
}

impl Model for Conflicts {
    ghost use Rattle.std.specs.Prelude.{◌≡◌, ℕ, List};

    ghost Value = { List ℕ };

    ghost view = { λ a. a.numbers.members };

    ghost invariant = { λ a. a.numbers.variables ≡ a.room };
}

impl Conflicts {
    /// No number, and room for none.
    pub(crate) fn new(alloc: Global) -> Result<Conflicts, AllocError>
        ensures { IfOk result (λ new. new ≡ []) }
    {
        let numbers = VariableSet::new(alloc, 0)?;
        Ok(Conflicts { numbers, room: 0 })
    }

    /// Makes room for so many clauses, where there is less. The room doubles, so that one more clause costs little.
    pub(crate) fn make_room(&mut self, alloc: Global, clauses: u32) -> Result<(), AllocError>
        requires { self.old ≡ [] }
        ensures { self.new ≡ [] }
    {
        if clauses <= self.room {
            return Ok(());
        }
        let room = clauses.saturating_mul(2);
        self.numbers = VariableSet::new(alloc, room)?;
        self.room = room;
        Ok(())
    }

    /// Whether a number is remembered.
    pub(crate) fn has(&self, number: u32) -> bool
        ensures { IsTrue result → Contains self.now number }
    {
        0 < number && number <= self.room && self.numbers.contains(number)
    }

    /// Remembers a number, if there is room for it.
    pub(crate) fn remember(&mut self, number: u32)
        ensures { (self.new ≡ self.old) ⊎ (self.new ≡ self.old ++ number ∷ []) }
    {
        if 0 < number && number <= self.room {
            self.numbers.include(number);
        }
    }

    /// Forgets all numbers, in time proportional to how many there are.
    pub(crate) fn clear(&mut self)
        ensures { self.new ≡ [] }
    {
        self.numbers.clear();
    }
}
