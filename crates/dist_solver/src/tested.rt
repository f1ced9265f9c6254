//! Guesses at an answer, each tested before it leaves: nothing is believed of what made it.

ghost use Rattle.std.specs.Prelude.{◌≡◌, IfOk, IfSome, IsTrue, length, map, All, Bool, ℕ};
ghost use Rattle.dist_clause.specs.Formula.{IsClauseOver, negation, value_of, IsTrueLiteral};
ghost use Rattle.dist_derive.specs.Follows.{EachLineFollows};
ghost use Rattle.dist_derive.specs.VariableSet.{GivesTrue};
ghost use Rattle.dist_solver.specs.Evidence.{IsShort};
ghost use Rattle.dist_solver.specs.Ask.{IsModelUnder, IsRefutation};

use crate::answers::Hints;
use dist_clause::{Assignment, Lit};
use dist_derive::{Log, Scratch, VariableSet, lines_keep_models};
use std::alloc::{AllocError, Global};
use std::marker::Model;

/// The room in which guesses are tested.
#[derive(Drop)]
pub(crate) struct Tests {
    scratch: Scratch,
    variables: VariableSet,
}

impl Model for Tests {
    ghost use Rattle.std.specs.Prelude.{◌≡◌, ℕ};

    ghost Value = { ℕ };

    ghost view = { λ a. a.scratch };

    ghost invariant = { λ a. a.variables.variables ≡ a.scratch };
}

impl Tests {
    /// Room for logs of so many variables.
    pub(crate) fn new(alloc: Global, variables: u32) -> Result<Tests, AllocError>
        ensures { IfOk result (λ tests. tests ≡ variables) }
    {
        let scratch = Scratch::new(alloc, variables)?;
        match VariableSet::new(alloc, variables) {
            Ok(variables) => Ok(Tests { scratch, variables }),
            Err(error) => {
                drop(scratch);
                Err(error)
            }
        }
    }

    /// The assignment in which exactly these variables are true, where it is a model of the input clauses and makes the
    /// assumptions true.
    pub(crate) fn model(
        &mut self,
        alloc: Global,
        log: &Log,
        assumptions: &[Lit],
        trues: &[u32],
    ) -> Result<Option<Assignment>, AllocError>
        requires same_variables { self.old ≡ log.now.variables }
        requires assumptions { IsClauseOver log.now.variables assumptions.now }
        ensures model { IfOk result (λ r. IfSome r (IsModelUnder log.now assumptions.now)) }
        ensures same_variables { self.new ≡ self.old }
    {
        if !gather(&mut self.variables, log.variables(), trues) {
            return Ok(None);
        }
        if !log.holds(&self.variables) || !are_true(&self.variables, assumptions) {
            return Ok(None);
        }
        Ok(Some(values(alloc, &self.variables, log.variables())?))
    }

    /// The hints, where the clause of the negated assumptions follows by them and they are not too many.
    pub(crate) fn refutation(
        &mut self,
        alloc: Global,
        log: &Log,
        assumptions: &[Lit],
        hints: &[u32],
    ) -> Result<Option<Hints>, AllocError>
        requires same_variables { self.old ≡ log.now.variables }
        requires assumptions { IsClauseOver log.now.variables assumptions.now }
        requires lines_follow { EachLineFollows log.now.inputs log.now.clauses }
        ensures refutation { IfOk result (λ r. IfSome r (IsRefutation log.now assumptions.now)) }
        ensures same_variables { self.new ≡ self.old }
    {
        lines_keep_models();
        let clause = negated(alloc, assumptions)?;
        if !is_short(log, hints) || !log.follows(&mut self.scratch, &clause, hints) {
            return Ok(None);
        }
        Ok(Some(Hints::of(Vec::from_slice(alloc, hints)?)))
    }
}

/// Makes a set that of the listed variables; answers whether all are in range.
fn gather(set: &mut VariableSet, variables: u32, listed: &[u32]) -> bool
    requires { variables ≡ set.old.variables }
    ensures same_variables { set.new.variables ≡ set.old.variables }
{
    set.clear();
    for variable in listed {
        if *variable == 0 || *variable > variables {
            return false;
        }
        set.include(*variable);
    }
    true
}

/// Whether all literals are true where exactly the members of a set are.
fn are_true(set: &VariableSet, literals: &[Lit]) -> bool
    requires { IsClauseOver set.now.variables literals.now }
    ensures { (value : ℕ → Bool) → GivesTrue value set.now.members → IsTrue result → All (IsTrueLiteral value) literals.now }
{
    literals.iter().all(|l| set.makes_true(*l))
}

/// The assignment in which exactly the members of a set are true.
fn values(alloc: Global, set: &VariableSet, variables: u32) -> Result<Assignment, AllocError>
    requires { variables ≡ set.now.variables }
    ensures length { IfOk result (λ values. length values ≡ set.now.variables) }
    ensures values { IfOk result (λ values. GivesTrue (value_of values) set.now.members) }
{
    let mut values = Assignment::new(alloc, variables)?;
    for variable in set.members() {
        values.set(*variable, true);
    }
    Ok(values)
}

/// The negated literals.
fn negated(alloc: Global, literals: &[Lit]) -> Result<Vec<Lit>, AllocError>
    ensures { IfOk result (λ clause. clause.items ≡ map negation literals.now) }
{
    literals.iter().map(|l| l.negated()).collect(alloc)
}

/// Whether hints are at most the variables and one.
fn is_short(log: &Log, hints: &[u32]) -> bool
    ensures { IsTrue result → IsShort log.now.variables hints.now }
{
    hints.len() <= log.variables() as usize + 1
}
