//! Assignments, each a row of truth values, and the test whether one is a model.

ghost use Rattle.std.specs.Prelude.{◌≡◌, ◌&&◌, ◌+◌, ◌-◌, ◌<◌, ◌≤◌, ◌↔◌, [], ℕ, true, false, All, length, replicate, IfNone, IfOk, IfSome, IsTrue, slice_set};
ghost use Rattle.dist_clause.specs.Formula.{value_of, MakesTrue, IsModel};
ghost use Rattle.dist_lanes.specs.Rows.{both};

use crate::{ClauseSet, Lit};
use dist_lanes::Row;
use std::alloc::{AllocError, Global};
use std::marker::Model;

/// A truth value for each variable, numbered from 1.
#[derive(Debug, Drop)]
pub struct Assignment {
    /// The value of variable 1 at place 0.
    values: Row,
}

impl Model for Assignment {
    ghost use Rattle.std.specs.Prelude.{◌^◌, ◌<◌, List, Bool, length};

    ghost Value = { List Bool };

    ghost view = { λ a. a.values };

    ghost invariant = { λ a. length a.values < 2 ^ 32 };
}

impl Assignment {
    /// All variables are false.
    pub fn new(alloc: Global, variables: u32) -> Result<Assignment, AllocError>
        ensures { IfOk result (λ a. a ≡ replicate variables false) }
    {
        let values = Row::new(alloc, variables as usize)?;
        Ok(Assignment { values })
    }

    /// No variable. It takes no memory.
    pub fn empty(alloc: Global) -> Assignment
        ensures { result ≡ [] }
    {
        Assignment {
            values: Row::empty(alloc),
        }
    }

    pub fn value(&self, variable: u32) -> bool
        requires from_one { 1 ≤ variable }
        requires in_range { variable ≤ length self.now }
        ensures { result ≡ value_of self.now variable }
    {
        self.values.get(variable as usize - 1)
    }

    pub fn set(&mut self, variable: u32, value: bool)
        requires from_one { 1 ≤ variable }
        requires in_range { variable ≤ length self.old }
        ensures { self.new ≡ slice_set self.old (variable - 1) value }
    {
        self.values.set(variable as usize - 1, value);
    }

    /// Every variable gets its value in the other assignment.
    pub fn copy_from(&mut self, other: &Assignment)
        requires { length other.now ≡ length self.old }
        ensures { self.new ≡ other.now }
    {
        self.values.copy_from(&other.values);
    }

    /// A variable stays true where it is true in the other assignment too.
    pub fn and_into(&mut self, other: &Assignment)
        requires { length other.now ≡ length self.old }
        ensures all { self.new ≡ both self.old other.now }
        ensures len { length self.new ≡ length self.old }
        ensures each { (v : ℕ) → value_of self.new v ≡ (value_of self.old v && value_of other.now v) }
    {
        self.values.and_into(&other.values);
    }

    /// The first variable that is true, from one on.
    pub fn next_true(&self, from: u32) -> Option<u32>
        ensures some { IfSome result (λ v. (1 ≤ v) × (from ≤ v) × (v ≤ length self.now) × (value_of self.now v ≡ true) × ((w : ℕ) → 1 ≤ w → from ≤ w → w < v → value_of self.now w ≡ false)) }
        ensures none { IfNone result ((w : ℕ) → 1 ≤ w → from ≤ w → w ≤ length self.now → value_of self.now w ≡ false) }
    {
        let place = self.values.next_true(from.saturating_sub(1) as usize)?;
        Some(place as u32 + 1)
    }

    /// Whether the assignment is a model of the clauses.
    pub fn holds(&self, clauses: &ClauseSet) -> bool
        requires { clauses.now.variables ≡ length self.now }
        ensures { IsTrue result ↔ IsModel (value_of self.now) clauses.now.clauses }
    {
        for number in 1..=clauses.len() {
            if !self.makes_true(clauses.clause(number)) {
                return false;
            }
        }
        true
    }

    /// Whether some literal of the clause is true.
    fn makes_true(&self, clause: &[Lit]) -> bool
        requires { All (λ l. (1 ≤ l.variable) × (l.variable ≤ length self.now)) clause.now }
        ensures { IsTrue result ↔ MakesTrue (value_of self.now) clause.now }
    {
        clause
            .iter()
            .any(|l| self.value(l.variable()) == l.positive())
    }
}
