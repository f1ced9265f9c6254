//! Clauses over the variables of a space, and the set that they are added to.
ghost use Rattle.std.specs.Prelude.{◌≡◌, ◌≤◌, ◌++◌, ◌∷◌, All, IfErr, OnOk, [], false, map};
ghost use Rattle.dist_base.specs.declared.TheConstants.{MAX_VARIABLES};
ghost use Rattle.dist_clause.specs.Demands.{IsRefused};
ghost use Rattle.dist_clause.specs.Formula.{IsClauseOver, literal};
ghost use Rattle.dist_space_clauses.specs.GatheringPrivate.{positive};

use dist_clause::{ClauseSet, Lit, PushError};
use std::alloc::{AllocError, Global};

/// Vectors that are used again for each clause.
#[derive(Drop)]
pub(crate) struct Scratch {
    pub(crate) variables: Vec<u32>,
    pub(crate) clause: Vec<Lit>,
}

/// Adds the literals that variables hold.
fn add_positive(clause: &mut Vec<Lit>, variables: &[u32]) -> Result<(), AllocError>
    requires { All (λ v. (1 ≤ v) × (v ≤ MAX_VARIABLES)) variables.now }
    ensures { OnOk result (clause.new.items ≡ clause.old.items ++ map positive variables.now) }
{
    for variable in variables {
        clause.push(Lit::new(*variable, true))?;
    }
    Ok(())
}

impl Scratch {
    /// Empty vectors.
    pub(crate) fn new(alloc: Global) -> Scratch {
        Scratch {
            variables: Vec::new(alloc),
            clause: Vec::new(alloc),
        }
    }

    /// Writes the clause that one of the variables holds.
    pub(crate) fn write_positive(&mut self) -> Result<(), AllocError>
        requires { All (λ v. (1 ≤ v) × (v ≤ MAX_VARIABLES)) self.old.variables.items }
        ensures { OnOk result (self.new.clause.items ≡ map positive self.old.variables.items) }
    {
        self.clause.clear();
        add_positive(&mut self.clause, &self.variables)
    }

    /// Writes the clause that one of the variables holds, or another variable does not.
    pub(crate) fn write_implied(&mut self, variable: u32) -> Result<(), AllocError>
        requires from_one { 1 ≤ variable }
        requires stated { variable ≤ MAX_VARIABLES }
        requires variables { All (λ v. (1 ≤ v) × (v ≤ MAX_VARIABLES)) self.old.variables.items }
        ensures { OnOk result (self.new.clause.items ≡ literal variable false ∷ map positive self.old.variables.items) }
    {
        self.clause.clear();
        self.clause.push(Lit::new(variable, false))?;
        add_positive(&mut self.clause, &self.variables)
    }
}

/// Adds a clause of two literals.
pub(crate) fn add_pair(set: &mut ClauseSet, first: Lit, second: Lit) -> Result<(), PushError>
    requires { IsClauseOver set.old.variables (first ∷ second ∷ []) }
    ensures ok { OnOk result (set.new ≡ record set.old { clauses = set.old.clauses ++ (first ∷ second ∷ []) ∷ [] }) }
    ensures err { IfErr result (IsRefused set.old (first ∷ second ∷ [])) }
{
    set.push(&[first, second])
}
