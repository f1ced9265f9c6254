//! Room that the two tests work in, taken once.

ghost use Rattle.std.specs.Prelude.{◌≡◌, IfOk};

use crate::conflicts::Conflicts;
use crate::true_literals::TrueLiterals;
use crate::variable_set::VariableSet;
use std::alloc::{AllocError, Global};
use std::marker::Model;

/// Room for the work of one call at a time, over a number of variables. Each call leaves it as it found it.
#[derive(Drop)]
pub struct Scratch {
    /// No literal is true here between the calls.
    pub(crate) literals: TrueLiterals,
    pub(crate) cone: VariableSet,
    pub(crate) conflicts: Conflicts,
}

impl Model for Scratch {
    ghost use Rattle.std.specs.Prelude.{ℕ};
    ghost use Rattle.dist_derive.specs.Scratch.{IsReady};

    ghost Value = { ℕ };

    ghost view = { λ a. a.literals.variables };

    ghost invariant = { λ a. IsReady a.literals a.cone a.conflicts };
}

impl Scratch {
    /// Room for logs of so many variables.
    pub fn new(alloc: Global, variables: u32) -> Result<Scratch, AllocError>
        ensures { IfOk result (λ s. s ≡ variables) }
    {
        let literals = TrueLiterals::new(alloc, variables)?;
        let cone = match VariableSet::new(alloc, variables) {
            Ok(cone) => cone,
            Err(error) => {
                drop(literals);
                return Err(error);
            }
        };
        match Conflicts::new(alloc) {
            Ok(conflicts) => Ok(Scratch {
                literals,
                cone,
                conflicts,
            }),
            Err(error) => {
                drop(cone);
                drop(literals);
                Err(error)
            }
        }
    }

    /// Makes room for logs of so many clauses, so that hints that repeat cost little. More clauses are allowed.
    pub fn make_room(&mut self, alloc: Global, clauses: u32) -> Result<(), AllocError>
        ensures { self.new ≡ self.old }
    {
        self.conflicts.make_room(alloc, clauses)
    }
}
