//! Whether all lines of a question are new.
//!
//! Each line is tested and then taken in, so that a line costs what its own literals touch.

ghost use Rattle.std.specs.Prelude.{◌≡◌, ◌<◌, ◌≤◌, ◌↔◌, ◌+◌, length, take, All, IfOk, IsTrue};
ghost use Rattle.dist_clause.specs.Formula.{IsClauseOver};
ghost use Rattle.dist_clause.specs.ClauseList.{clause_at};
ghost use Rattle.dist_derive.specs.ClauseLog.{inputs_of};
ghost use Rattle.dist_derive.specs.ConePrivate.{AreLinesWithin};
ghost use Rattle.dist_derive.specs.New.{LeavesFirstUnset, AreNewFrom};
ghost use Rattle.dist_derive.specs.WatchesPrivate.{IsStandingIfMade};

use crate::watching::Watching;
use crate::{Log, Scratch};
use dist_clause::Lit;
use std::alloc::AllocError;

impl Log {
    /// Whether each clause with a number above `last` is new under assumptions over the clauses before it.
    pub fn are_new(&mut self, scratch: &mut Scratch, assumptions: &[Lit], last: u32) -> bool
        requires assumptions { IsClauseOver self.old.variables assumptions.now }
        requires scratch { scratch.old ≡ self.old.variables }
        requires last { last ≤ length self.old.clauses }
        ensures answer { IsTrue result ↔ AreNewFrom self.old.clauses self.old.inputs assumptions.now last }
        ensures same { self.new ≡ self.old }
        ensures ready { scratch.new ≡ scratch.old }
    {
        if last < self.inputs() {
            return self.each_is_new(scratch, assumptions, last);
        }
        let mut far = self.far.take(self.alloc);
        let reached = self.reaches_lines(&mut far, &mut scratch.cone, assumptions, last);
        self.far.put(far);
        scratch.cone.clear();
        if !reached {
            return false;
        }
        match self.lines_are_new(assumptions, last) {
            Ok(answer) => answer,
            Err(_) => self.each_is_new(scratch, assumptions, last),
        }
    }

    /// The same, by one test after another.
    fn each_is_new(&self, scratch: &mut Scratch, assumptions: &[Lit], last: u32) -> bool
        requires assumptions { IsClauseOver self.now.variables assumptions.now }
        requires scratch { scratch.old ≡ self.now.variables }
        requires last { last ≤ length self.now.clauses }
        ensures answer { IsTrue result ↔ AreNewFrom self.now.clauses self.now.inputs assumptions.now last }
        ensures ready { scratch.new ≡ scratch.old }
    {
        for before in last..self.len() {
            let number = before + 1;
            if !self.is_new(scratch, assumptions, self.clause(number), number) {
                return false;
            }
        }
        true
    }

    /// The same where the last number is not among the input clauses, and the cone of the assumptions has all variables of
    /// the lines.
    fn lines_are_new(&mut self, assumptions: &[Lit], last: u32) -> Result<bool, AllocError>
        requires inputs { self.old.inputs ≤ last }
        requires last { last ≤ length self.old.clauses }
        requires assumptions { All (λ l. l.variable ≤ self.old.variables) assumptions.now }
        requires within { AreLinesWithin (inputs_of self.old) self.old.clauses assumptions.now last }
        ensures answer { IfOk result (λ answer. IsTrue answer
            ↔ AreNewFrom self.old.clauses self.old.inputs assumptions.now last) }
        ensures same { self.new ≡ self.old }
    {
        let mut watching = self.watching.take(self.alloc);
        match self.tell_lines(&mut watching, assumptions, last) {
            Ok(answer) => {
                self.watching.put(watching);
                Ok(answer)
            }
            Err(error) => {
                drop(watching);
                Err(error)
            }
        }
    }

    /// The same, from what is kept.
    fn tell_lines(
        &self,
        watching: &mut Watching,
        assumptions: &[Lit],
        last: u32,
    ) -> Result<bool, AllocError>
        requires standing { IsStandingIfMade self.now.clauses self.now.variables watching.old }
        requires inputs { self.now.inputs ≤ last }
        requires assumptions { All (λ l. l.variable ≤ self.now.variables) assumptions.now }
        requires within { AreLinesWithin (inputs_of self.now) self.now.clauses assumptions.now last }
        ensures answer { IfOk result (λ answer. IsTrue answer
            ↔ AreNewFrom self.now.clauses self.now.inputs assumptions.now last) }
        ensures standing { IfOk result (λ _. IsStandingIfMade self.now.clauses self.now.variables watching.new) }
    {
        for before in last..self.len() {
            if !self.tell_line(watching, assumptions, before)? {
                return Ok(false);
            }
        }
        Ok(true)
    }

    /// Whether the first literal of the clause behind the first `before` ones is left unset by these, as `tested` says.
    fn tell_line(
        &self,
        watching: &mut Watching,
        assumptions: &[Lit],
        before: u32,
    ) -> Result<bool, AllocError>
        requires standing { IsStandingIfMade self.now.clauses self.now.variables watching.old }
        requires before { before < length self.now.clauses }
        requires assumptions { All (λ l. l.variable ≤ self.now.variables) assumptions.now }
        ensures answer { IfOk result (λ answer. IsTrue answer
            ↔ LeavesFirstUnset (take before self.now.clauses) assumptions.now (clause_at self.now.clauses (before + 1))) }
        ensures standing { IfOk result (λ _. IsStandingIfMade self.now.clauses self.now.variables watching.new) }
    {
        self.keeps_invariant();
        self.tell(watching, assumptions, self.clause(before + 1), before)
    }
}
