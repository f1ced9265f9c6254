//! The values of a trail: which variables of a cone have none, and the assignment that they make.

ghost use Rattle.std.specs.Prelude.{◌≡◌, ◌≤◌, length, All, Contains, IfOk, IfSome, IfNone, IsTrue};
ghost use Rattle.dist_derive.specs.Propagation.{IsUnset};
ghost use Rattle.dist_search.specs.StepsPrivate.{IsSet, AreValuesOf};

use crate::trail::Trail;
use dist_clause::{Assignment, Lit};
use dist_derive::{Truth, VariableSet};
use std::alloc::{AllocError, Global};

impl Trail {
    /// Whether a literal is of a variable of the cone that has no value.
    pub(crate) fn is_open(&self, cone: &VariableSet, literal: Lit) -> bool
        requires same_variables { self.now.variables ≡ cone.now.variables }
        ensures open { IsTrue result → Contains cone.now.members literal.variable × IsUnset self.now.literals literal }
        ensures in_range { IsTrue result → literal.variable ≤ self.now.variables }
    {
        if literal.variable() > self.variables() {
            return false;
        }
        cone.contains(literal.variable()) && self.trues().is_unset(literal)
    }

    /// The first variable of the cone that has no value, made false.
    pub(crate) fn first_unset(&self, cone: &VariableSet) -> Option<Lit>
        requires same_variables { self.now.variables ≡ cone.now.variables }
        ensures some { IfSome result (λ l. Contains cone.now.members l.variable × IsUnset self.now.literals l) }
        ensures in_range { IfSome result (λ l. l.variable ≤ self.now.variables) }
        ensures none { IfNone result (All (IsSet self.now.literals) cone.now.members) }
    {
        self.keeps_invariant();
        for variable in cone.members() {
            let literal = Lit::new(*variable, false);
            if let Truth::Unset = self.trues().status(literal) {
                return Some(literal);
            }
        }
        None
    }

    /// The assignment in which exactly the true variables of the trail are true.
    pub(crate) fn values(&self, alloc: Global) -> Result<Assignment, AllocError>
        ensures length { IfOk result (λ values. length values ≡ self.now.variables) }
        ensures values { IfOk result (λ values. AreValuesOf self.now.literals values) }
    {
        self.keeps_invariant();
        let mut values = Assignment::new(alloc, self.variables())?;
        for place in 0..self.len() {
            let literal = self.get(place);
            values.set(literal.variable(), literal.positive());
        }
        Ok(values)
    }
}
