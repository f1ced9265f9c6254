//! Sets of variables that are emptied in time proportional to their members.

ghost use Rattle.std.specs.Prelude.{◌≡◌, ◌≢◌, ◌<◌, ◌≤◌, ◌↔◌, ◌⊎◌, true, false, [], ◌∷◌, ◌++◌, ℕ, Bool, length, replicate, All, AllPairs, Contains, IfOk, IsTrue, OnOk, slice_index};
ghost use Rattle.dist_clause.specs.Formula.{value_of, IsTrueLiteral, MakesTrue};
ghost use Rattle.dist_derive.specs.Cone.{IsClosedUnder};
ghost use Rattle.dist_derive.specs.VariableSet.{GivesTrue};
ghost use Rattle.dist_derive.specs.Marking.{Includes, Grows, HasAll, IsClosedAt};

use dist_clause::{Assignment, Lit};
use std::alloc::{AllocError, Global};
use std::marker::Model;

/// A set of the variables from 1 to a number, with its members in the order in which they came.
#[derive(Drop)]
pub struct VariableSet {
    marks: Assignment,
    members: Vec<u32>,
}

impl Model for VariableSet {
    ghost use Rattle.std.specs.Prelude.{length};
    ghost use Rattle.std.specs.Vec.{vec_capacity};
    ghost use Rattle.dist_derive.specs.VariableSet.{VariableList};
    ghost use Rattle.dist_derive.specs.Marking.{AreMarked};

    ghost Value = { VariableList };

    ghost view = { λ a. record { variables = length a.marks; members = a.members.items } };

    ghost invariant = { λ a. AreMarked a.marks a.members.items (vec_capacity a.members) };
}

impl VariableSet {
    /// An empty set, with room for all variables.
    pub fn new(alloc: Global, variables: u32) -> Result<VariableSet, AllocError>
        ensures { IfOk result (λ s. s ≡ record { variables = variables; members = [] }) }
    {
        let marks = Assignment::new(alloc, variables)?;
        let members = Vec::with_capacity(alloc, variables as usize)?;
        Ok(VariableSet { marks, members })
    }

    /// A set of no variables. It takes no memory.
    pub(crate) fn empty(alloc: Global) -> VariableSet
        ensures { result ≡ record { variables = 0; members = [] } }
    {
        VariableSet {
            marks: Assignment::empty(alloc),
            members: Vec::new(alloc),
        }
    }

    /// Whether a variable is in.
    pub fn contains(&self, variable: u32) -> bool
        requires from_one { 1 ≤ variable }
        requires in_range { variable ≤ self.now.variables }
        ensures { IsTrue result ↔ Contains self.now.members variable }
    {
        self.marks.value(variable)
    }

    /// The members, each once, in the order in which they came.
    pub fn members(&self) -> &[u32]
        ensures value { result.now ≡ self.now.members }
        ensures in_range { All (λ v. (1 ≤ v) × (v ≤ self.now.variables)) result.now }
        ensures each_once { AllPairs (λ v w. v ≢ w) result.now }
    {
        &self.members
    }

    /// Members are variables that there are, each once. Does nothing.
    pub fn keeps_invariant(&self)
        ensures in_range { All (λ v. (1 ≤ v) × (v ≤ self.now.variables)) self.now.members }
        ensures each_once { AllPairs (λ v w. v ≢ w) self.now.members }
    {
        self.members();
    }

    /// The members from a place on.
    pub(crate) fn members_from(&self, place: usize) -> &[u32]
        ensures { All (λ v. (1 ≤ v) × (v ≤ self.now.variables)) result.now }
    {
        match self.members().get(place..) {
            Some(members) => members,
            None => &[],
        }
    }

    /// How many members there are.
    pub(crate) fn len(&self) -> usize
        ensures value { result ≡ length self.now.members }
        ensures few { result ≤ self.now.variables }
    {
        self.members.len()
    }

    /// The member at a place, from 0 on, in the order in which they came.
    pub(crate) fn get(&self, place: usize) -> u32
        requires { place < length self.now.members }
        ensures value { result ≡ slice_index self.now.members place }
        ensures from_one { 1 ≤ result }
        ensures in_range { result ≤ self.now.variables }
    {
        self.members[place]
    }

    /// Adds a variable that is no member.
    pub(crate) fn add(&mut self, variable: u32)
        requires from_one { 1 ≤ variable }
        requires in_range { variable ≤ self.old.variables }
        requires fresh { ¬ Contains self.old.members variable }
        ensures added { self.new ≡ record self.old { members = self.old.members ++ variable ∷ [] } }
        ensures few { length self.new.members ≤ self.new.variables }
        ensures in_range { All (λ v. (1 ≤ v) × (v ≤ self.new.variables)) self.new.members }
    {
        // There is room for all variables, so this takes no memory.
        let _ = self.members.push(variable);
        self.marks.set(variable, true);
    }

    /// Puts a variable in, and answers whether it was not in before.
    pub fn include(&mut self, variable: u32) -> bool
        requires from_one { 1 ≤ variable }
        requires in_range { variable ≤ self.old.variables }
        ensures { Includes self.old self.new variable result }
    {
        if self.contains(variable) {
            return false;
        }
        self.add(variable);
        true
    }

    /// Puts the variables of a clause in, and answers whether one was not in before.
    pub(crate) fn include_all(&mut self, clause: &[Lit]) -> bool
        requires { All (λ l. l.variable ≤ self.old.variables) clause.now }
        ensures grows { Grows self.old self.new result }
        ensures included { All (λ l. Contains self.new.members l.variable) clause.now }
        ensures least { (has : ℕ → Bool) → HasAll has self.old.members → All (λ l. has l.variable ≡ true) clause.now
            → HasAll has self.new.members }
    {
        let mut grown = false;
        for literal in clause {
            grown |= self.include(literal.variable());
        }
        grown
    }

    /// Whether some variables are all in.
    pub(crate) fn has_each(&self, variables: &[u32]) -> bool
        requires { All (λ v. (1 ≤ v) × (v ≤ self.now.variables)) variables.now }
        ensures { IsTrue result → All (Contains self.now.members) variables.now }
    {
        for variable in variables {
            if !self.contains(*variable) {
                return false;
            }
        }
        true
    }

    /// Adds those of some variables that are in to an empty list. After want of memory it is empty.
    pub(crate) fn find_common(&self, variables: &[u32], common: &mut Vec<u32>)
        requires in_range { All (λ v. (1 ≤ v) × (v ≤ self.now.variables)) variables.now }
        requires none { common.old.items ≡ [] }
        ensures within { All (Contains self.now.members) common.new.items }
        ensures in_range { All (λ v. (1 ≤ v) × (v ≤ self.now.variables)) common.new.items }
    {
        if self.add_common(variables, common).is_err() {
            common.clear();
        }
    }

    /// Adds those of some variables that are in to a list of such ones.
    fn add_common(&self, variables: &[u32], common: &mut Vec<u32>) -> Result<(), AllocError>
        requires in_range { All (λ v. (1 ≤ v) × (v ≤ self.now.variables)) variables.now }
        requires none { common.old.items ≡ [] }
        ensures within { OnOk result (All (Contains self.now.members) common.new.items) }
        ensures in_range { OnOk result (All (λ v. (1 ≤ v) × (v ≤ self.now.variables)) common.new.items) }
    {
        for variable in variables {
            if !self.contains(*variable) {
                continue;
            }
            common.push(*variable)?;
        }
        Ok(())
    }

    /// Puts some variables in.
    pub(crate) fn include_each(&mut self, variables: &[u32])
        requires { All (λ v. (1 ≤ v) × (v ≤ self.old.variables)) variables.now }
        ensures same_variables { self.new.variables ≡ self.old.variables }
        ensures least { (has : ℕ → Bool) → HasAll has self.old.members → HasAll has variables.now → HasAll has self.new.members }
    {
        for variable in variables {
            self.include(*variable);
        }
    }

    /// Where the variables of all negative literals of a clause are in, puts all its variables in, and answers whether
    /// one was not in before.
    pub(crate) fn close_at(&mut self, clause: &[Lit]) -> bool
        requires { All (λ l. l.variable ≤ self.old.variables) clause.now }
        ensures grows { Grows self.old self.new result }
        ensures closed { IsClosedAt self.new.members clause.now }
        ensures least { (has : ℕ → Bool) → HasAll has self.old.members → IsClosedUnder has (clause.now ∷ [])
            → HasAll has self.new.members }
    {
        if self.has_negatives(clause) {
            self.include_all(clause)
        } else {
            false
        }
    }

    /// Whether the variables of all negative literals of a clause are in.
    fn has_negatives(&self, clause: &[Lit]) -> bool
        requires { All (λ l. l.variable ≤ self.now.variables) clause.now }
        ensures { IsTrue result ↔ All (λ l. l.positive ≡ false → Contains self.now.members l.variable) clause.now }
    {
        clause
            .iter()
            .all(|l| l.positive() || self.contains(l.variable()))
    }

    /// Whether the variables of all literals of a clause are in.
    pub(crate) fn has_clause(&self, clause: &[Lit]) -> bool
        requires { All (λ l. l.variable ≤ self.now.variables) clause.now }
        ensures { IsTrue result ↔ All (λ l. Contains self.now.members l.variable) clause.now }
    {
        for literal in clause {
            if !self.contains(literal.variable()) {
                return false;
            }
        }
        true
    }

    /// Whether a variable is in this set or in another one.
    fn has_or(&self, other: &VariableSet, variable: u32) -> bool
        requires same_variables { other.now.variables ≡ self.now.variables }
        requires from_one { 1 ≤ variable }
        requires in_range { variable ≤ self.now.variables }
        ensures { IsTrue result → Contains self.now.members variable ⊎ Contains other.now.members variable }
    {
        if self.contains(variable) {
            return true;
        }
        other.contains(variable)
    }

    /// Whether each variable of a clause is in this set or in another one.
    pub(crate) fn has_clause_or(&self, other: &VariableSet, clause: &[Lit]) -> bool
        requires same_variables { other.now.variables ≡ self.now.variables }
        requires over { All (λ l. l.variable ≤ self.now.variables) clause.now }
        ensures { IsTrue result → All (λ l. Contains self.now.members l.variable ⊎ Contains other.now.members l.variable) clause.now }
    {
        for literal in clause {
            if !self.has_or(other, literal.variable()) {
                return false;
            }
        }
        true
    }

    /// Whether a literal is true where exactly the members are.
    pub fn makes_true(&self, literal: Lit) -> bool
        requires { literal.variable ≤ self.now.variables }
        ensures { (value : ℕ → Bool) → GivesTrue value self.now.members → IsTrue result ↔ IsTrueLiteral value literal }
    {
        self.contains(literal.variable()) == literal.positive()
    }

    /// Whether a clause has a literal that is true where exactly the members are.
    pub(crate) fn makes_clause_true(&self, clause: &[Lit]) -> bool
        requires { All (λ l. l.variable ≤ self.now.variables) clause.now }
        ensures { (value : ℕ → Bool) → GivesTrue value self.now.members → IsTrue result ↔ MakesTrue value clause.now }
    {
        clause.iter().any(|l| self.makes_true(*l))
    }

    /// Takes all members out.
    pub fn clear(&mut self)
        ensures { self.new ≡ record self.old { members = [] } }
    {
        unmark(&mut self.marks, &self.members);
        self.members.clear();
    }
}

/// Makes the listed variables false, and so all, since no other is true.
fn unmark(marks: &mut Assignment, members: &[u32])
    requires in_range { All (λ v. (1 ≤ v) × (v ≤ length marks.old)) members.now }
    requires all { (v : ℕ) → 1 ≤ v → v ≤ length marks.old → value_of marks.old v ≡ true → Contains members.now v }
    ensures { marks.new ≡ replicate (length marks.old) false }
{
    for member in members {
        marks.set(*member, false);
    }
}
