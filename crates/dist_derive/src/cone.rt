//! The cone of assumptions: the variables that they reach through the input clauses.
//!
//! The members are a queue: each is taken once, with the clauses in which it stands negated. A clause asks for nothing until
//! all its negated variables are in, so what the cone doesn't touch isn't looked at. Clauses that are not in the index are
//! walked. Lines are mostly on variables that the assumptions reach soon, so these are looked for before the whole cone is
//! marked. What is reached far from the assumptions is kept (`far.rt`), and the next question begins there where it leads to it.

ghost use Rattle.std.specs.Prelude.{◌≡◌, ◌<◌, ◌≤◌, ◌↔◌, ◌⊎◌, ℕ, List, true, false, [], length, take, All, Contains, IsTrue};
ghost use Rattle.dist_clause.specs.Formula.{IsClauseOver, Literal};
ghost use Rattle.dist_derive.specs.ClauseLog.{inputs_of};
ghost use Rattle.dist_clause.specs.ClauseList.{clause_at};
ghost use Rattle.dist_derive.specs.Cone.{InCone};
ghost use Rattle.dist_derive.specs.Marking.{Grows, IsClosedAt};
ghost use Rattle.dist_derive.specs.OccurrencesPrivate.{Lists, IsIndexOf};
ghost use Rattle.dist_derive.specs.ConePrivate.{AreLinesWithin, AreReachedLines, WaitsIn, AllWaitIn, Reaches};
ghost use Rattle.dist_derive.specs.FarPrivate.{IsFar, IsFarIfMade};

use crate::Log;
use crate::far::Far;
use crate::occurrences::{Occurrences, POSITIVE};
use crate::variable_set::VariableSet;
use dist_clause::Lit;

/// So many members of a cone are taken before the lines are looked at. It is few, since one member may have many clauses.
const FIRST_MEMBERS: usize = 1;

/// What is reached behind so many members of a cone is far.
const NEAR: usize = 256;

impl Log {
    /// Makes a set the cone of assumptions over the input clauses. The set's own calls give its variables, each once.
    pub fn mark_cone(&self, cone: &mut VariableSet, assumptions: &[Lit])
        requires assumptions { IsClauseOver self.now.variables assumptions.now }
        requires variables { cone.old.variables ≡ self.now.variables }
        ensures exact { (v : ℕ) → Contains cone.new.members v ↔ InCone (inputs_of self.now) assumptions.now v }
        ensures same_variables { cone.new.variables ≡ cone.old.variables }
    {
        cone.clear();
        self.mark(cone, assumptions, self.inputs());
    }

    /// Whether the cone of the assumptions has all variables of a clause, where the input clauses are the first `inputs`
    /// ones.
    pub(crate) fn reaches(
        &self,
        cone: &mut VariableSet,
        assumptions: &[Lit],
        clause: &[Lit],
        inputs: u32,
    ) -> bool
        requires empty { cone.old ≡ record { variables = self.now.variables; members = [] } }
        requires assumptions { All (λ l. l.variable ≤ self.now.variables) assumptions.now }
        requires clause { All (λ l. l.variable ≤ self.now.variables) clause.now }
        requires inputs { inputs ≤ length self.now.clauses }
        ensures answer { IsTrue result
            ↔ All (λ l. InCone (take inputs self.now.clauses) assumptions.now l.variable) clause.now }
        ensures same_variables { cone.new.variables ≡ cone.old.variables }
    {
        self.mark(cone, assumptions, inputs);
        cone.has_clause(clause)
    }

    /// Whether the cone of the assumptions has all variables of the clauses with numbers above `last`. It marks as much of the
    /// cone as they need.
    pub(crate) fn reaches_lines(
        &self,
        far: &mut Far,
        cone: &mut VariableSet,
        assumptions: &[Lit],
        last: u32,
    ) -> bool
        requires far { IsFarIfMade (inputs_of self.now) self.now.variables far.old }
        requires empty { cone.old ≡ record { variables = self.now.variables; members = [] } }
        requires assumptions { All (λ l. l.variable ≤ self.now.variables) assumptions.now }
        requires last { last ≤ length self.now.clauses }
        ensures answer { IsTrue result ↔ AreLinesWithin (inputs_of self.now) self.now.clauses assumptions.now last }
        ensures far { IsFarIfMade (inputs_of self.now) self.now.variables far.new }
        ensures same_variables { cone.new.variables ≡ cone.old.variables }
    {
        let inputs = self.inputs();
        if self.finds_lines(far, cone, assumptions, last, inputs) {
            return true;
        }
        cone.clear();
        self.mark(cone, assumptions, inputs);
        self.has_lines(cone, last)
    }

    /// Marks what the assumptions reach, until all variables of the clauses with numbers above `last` are in; answers whether
    /// they are. Clauses without a negative literal and those that are not in the index are left out.
    fn finds_lines(
        &self,
        far: &mut Far,
        cone: &mut VariableSet,
        assumptions: &[Lit],
        last: u32,
        inputs: u32,
    ) -> bool
        requires far { IsFarIfMade (take inputs self.now.clauses) self.now.variables far.old }
        requires empty { cone.old ≡ record { variables = self.now.variables; members = [] } }
        requires assumptions { All (λ l. l.variable ≤ self.now.variables) assumptions.now }
        requires last { last ≤ length self.now.clauses }
        requires inputs { inputs ≤ length self.now.clauses }
        ensures found { IsTrue result → AreLinesWithin (take inputs self.now.clauses) self.now.clauses assumptions.now last }
        ensures far { IsFarIfMade (take inputs self.now.clauses) self.now.variables far.new }
        ensures same_variables { cone.new.variables ≡ cone.old.variables }
    {
        cone.include_all(assumptions);
        let mut done = 0usize;
        while done < cone.len() {
            // The lines are looked at as often as the members have doubled.
            let most = done.saturating_mul(2).saturating_add(FIRST_MEMBERS);
            self.take_some(cone, done, most, inputs);
            if self.has_lines(cone, last) {
                return true;
            }
            done = most;
            if done > NEAR {
                return self.finds_far_lines(far, cone, done, last, inputs);
            }
        }
        false
    }

    /// Looks for these lines in what the members of the cone reach that were not taken, from the place `done` on: first behind the
    /// starts that were kept and are members, then behind all of these.
    fn finds_far_lines(
        &self,
        far: &mut Far,
        cone: &VariableSet,
        done: usize,
        last: u32,
        inputs: u32,
    ) -> bool
        requires far { IsFarIfMade (take inputs self.now.clauses) self.now.variables far.old }
        requires same_variables { cone.now.variables ≡ self.now.variables }
        requires last { last ≤ length self.now.clauses }
        requires inputs { inputs ≤ length self.now.clauses }
        ensures found { IsTrue result → AreReachedLines (take inputs self.now.clauses) self.now.clauses cone.now.members last }
        ensures far { IsFarIfMade (take inputs self.now.clauses) self.now.variables far.new }
    {
        if !self.has_far(far) {
            return false;
        }
        far.narrow(self.alloc, cone);
        if self.finds_behind(far, cone, last, inputs) {
            return true;
        }
        far.begin(cone, cone.members_from(done));
        self.finds_behind(far, cone, last, inputs)
    }

    /// Looks for these lines in the cone and in what the starts reach, until they are found or all of that is marked.
    fn finds_behind(&self, far: &mut Far, cone: &VariableSet, last: u32, inputs: u32) -> bool
        requires far { IsFar (take inputs self.now.clauses) self.now.variables far.old }
        requires same_variables { cone.now.variables ≡ self.now.variables }
        requires within { All (Contains cone.now.members) far.old.starts }
        requires last { last ≤ length self.now.clauses }
        requires inputs { inputs ≤ length self.now.clauses }
        ensures found { IsTrue result → AreReachedLines (take inputs self.now.clauses) self.now.clauses cone.now.members last }
        ensures far { IsFar (take inputs self.now.clauses) self.now.variables far.new }
    {
        loop {
            if self.are_in_either(cone, &far.set, last) {
                return true;
            }
            if far.taken >= far.set.len() {
                return false;
            }
            let most = far.taken.saturating_mul(2).saturating_add(FIRST_MEMBERS);
            self.take_some(&mut far.set, far.taken, most, inputs);
            far.taken = most;
        }
    }

    /// Whether each variable of the clauses with numbers above `last` is in one of two sets.
    fn are_in_either(&self, cone: &VariableSet, far: &VariableSet, last: u32) -> bool
        requires same_variables { cone.now.variables ≡ self.now.variables }
        requires far_variables { far.now.variables ≡ self.now.variables }
        requires last { last ≤ length self.now.clauses }
        ensures { IsTrue result → (number : ℕ) → last < number → number ≤ length self.now.clauses
            → All (λ l. Contains cone.now.members l.variable ⊎ Contains far.now.members l.variable) (clause_at self.now.clauses number) }
    {
        for before in last..self.len() {
            if !cone.has_clause_or(far, self.clause(before + 1)) {
                return false;
            }
        }
        true
    }

    /// Makes what lies far, where there is none yet; answers whether it is there.
    fn has_far(&self, far: &mut Far) -> bool
        ensures far { (clauses : List (List Literal)) → IsFarIfMade clauses self.now.variables far.old → IsFarIfMade clauses self.now.variables far.new }
        ensures made { IsTrue result → far.new.is_made ≡ true }
    {
        if far.is_made {
            return true;
        }
        match Far::make(self.alloc, self.variables()) {
            Ok(made) => {
                far.put(made);
                true
            }
            Err(_) => false,
        }
    }

    /// Takes the members from the place `first` on, and before another, with the clauses in which they stand negated.
    fn take_some(&self, cone: &mut VariableSet, first: usize, most: usize, inputs: u32)
        requires same_variables { cone.old.variables ≡ self.now.variables }
        requires inputs { inputs ≤ length self.now.clauses }
        ensures reaches { Reaches (take inputs self.now.clauses) cone.old cone.new }
    {
        let index = self.occurrences();
        let mut done = first;
        while done < cone.len().min(most) {
            let latest = index.latest_negated(cone.get(done));
            self.close_list(index, cone, latest, inputs);
            done += 1;
        }
    }

    /// Whether all variables of the clauses with numbers above `last` are in a set.
    fn has_lines(&self, cone: &VariableSet, last: u32) -> bool
        requires same_variables { cone.now.variables ≡ self.now.variables }
        requires last { last ≤ length self.now.clauses }
        ensures { IsTrue result ↔ ((number : ℕ) → last < number → number ≤ length self.now.clauses
            → All (λ l. Contains cone.now.members l.variable) (clause_at self.now.clauses number)) }
    {
        for before in last..self.len() {
            if !cone.has_clause(self.clause(before + 1)) {
                return false;
            }
        }
        true
    }

    /// Makes an empty set the cone of the assumptions, where the input clauses are the first `inputs` ones.
    fn mark(&self, cone: &mut VariableSet, assumptions: &[Lit], inputs: u32)
        requires empty { cone.old ≡ record { variables = self.now.variables; members = [] } }
        requires assumptions { All (λ l. l.variable ≤ self.now.variables) assumptions.now }
        requires inputs { inputs ≤ length self.now.clauses }
        ensures exact { (v : ℕ) → Contains cone.new.members v
            ↔ InCone (take inputs self.now.clauses) assumptions.now v }
        ensures same_variables { cone.new.variables ≡ cone.old.variables }
    {
        let index = self.occurrences();
        cone.include_all(assumptions);
        self.close_list(index, cone, index.latest(POSITIVE), inputs);
        let mut done = 0;
        loop {
            self.take_members(index, cone, done, inputs);
            done = cone.len();
            if !self.walk(cone, index.covered(), inputs) {
                return;
            }
        }
    }

    /// Takes the members from a place on, each with the clauses in which it stands negated.
    fn take_members(&self, index: &Occurrences, cone: &mut VariableSet, first: usize, inputs: u32)
        requires index { IsIndexOf index.now self.now.clauses }
        requires same_variables { cone.old.variables ≡ self.now.variables }
        requires inputs { inputs ≤ length self.now.clauses }
        requires waiting { AllWaitIn index.now self.now.clauses inputs cone.old.members first }
        ensures reaches { Reaches (take inputs self.now.clauses) cone.old cone.new }
        ensures closed { AllWaitIn index.now self.now.clauses inputs cone.new.members (length cone.new.members) }
    {
        let mut done = first;
        while done < cone.len() {
            let latest = index.latest_negated(cone.get(done));
            self.close_list(index, cone, latest, inputs);
            done += 1;
        }
    }

    /// Puts in what the clauses of a list ask for, of those with numbers up to `inputs`.
    fn close_list(&self, index: &Occurrences, cone: &mut VariableSet, latest: u32, inputs: u32)
        requires index { IsIndexOf index.now self.now.clauses }
        requires same_variables { cone.old.variables ≡ self.now.variables }
        requires inputs { inputs ≤ length self.now.clauses }
        ensures reaches { Reaches (take inputs self.now.clauses) cone.old cone.new }
        ensures visited { (number done : ℕ) → Lists index.now.links latest number → number ≤ inputs
            → done ≤ length cone.old.members → WaitsIn cone.new.members done (clause_at self.now.clauses number) }
    {
        let mut place = latest;
        while let Some(link) = index.link(place) {
            self.close_clause(cone, link.number, inputs);
            place = link.next;
        }
    }

    /// Puts in what a clause asks for, unless its number is above `inputs`.
    fn close_clause(&self, cone: &mut VariableSet, number: u32, inputs: u32)
        requires same_variables { cone.old.variables ≡ self.now.variables }
        requires inputs { inputs ≤ length self.now.clauses }
        requires from_one { 1 ≤ number }
        ensures reaches { Reaches (take inputs self.now.clauses) cone.old cone.new }
        ensures closed { number ≤ inputs → IsClosedAt cone.new.members (clause_at self.now.clauses number) }
    {
        if number <= inputs {
            cone.close_at(self.clause(number));
        }
    }

    /// Puts in what the clauses with numbers above `first` and up to `inputs` ask for, one after another, and answers whether
    /// a variable was not in before.
    fn walk(&self, cone: &mut VariableSet, first: u32, inputs: u32) -> bool
        requires same_variables { cone.old.variables ≡ self.now.variables }
        requires inputs { inputs ≤ length self.now.clauses }
        ensures grows { Grows cone.old cone.new result }
        ensures reaches { Reaches (take inputs self.now.clauses) cone.old cone.new }
        ensures closed { result ≡ false → (number : ℕ) → first < number → number ≤ inputs
            → IsClosedAt cone.new.members (clause_at self.now.clauses number) }
    {
        let mut grown = false;
        for place in first..inputs {
            grown |= cone.close_at(self.clause(place + 1));
        }
        grown
    }
}
