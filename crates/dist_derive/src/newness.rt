//! Whether a clause is new, from nothing: each clause is taken once.

ghost use Rattle.std.specs.Prelude.{◌≡◌, ◌≤◌, ◌↔◌, ◌-◌, [], length, take, min, All, IsTrue};
ghost use Rattle.dist_clause.specs.Formula.{IsClauseOver};
ghost use Rattle.dist_derive.specs.New.{IsNew, LeavesFirstUnset};

use crate::true_literals::TrueLiterals;
use crate::{Log, Scratch};
use dist_clause::Lit;

impl Log {
    /// Whether a clause is new under assumptions over the clauses with numbers below `before`: each of its variables is
    /// in the assumptions' cone, and unit propagation from the assumptions and the negations of its literals but the
    /// first gives neither a conflict nor a value of the first.
    pub fn is_new(
        &self,
        scratch: &mut Scratch,
        assumptions: &[Lit],
        clause: &[Lit],
        before: u32,
    ) -> bool
        requires assumptions { IsClauseOver self.now.variables assumptions.now }
        requires clause { IsClauseOver self.now.variables clause.now }
        requires scratch { scratch.old ≡ self.now.variables }
        ensures answer { IsTrue result
            ↔ IsNew (take (before - 1) self.now.clauses) self.now.inputs assumptions.now clause.now }
        ensures ready { scratch.new ≡ scratch.old }
    {
        let last = before.saturating_sub(1).min(self.len());
        let inputs = last.min(self.inputs());
        let reached = self.reaches(&mut scratch.cone, assumptions, clause, inputs);
        scratch.cone.clear();
        if !reached {
            return false;
        }
        self.adds(scratch, assumptions, clause, last)
    }

    /// Whether some true literals that hold the assumptions and the negations of a clause's literals but the first are
    /// closed under unit propagation by the first `last` clauses, make none of these false, and leave the clause's first
    /// literal unset.
    fn adds(&self, scratch: &mut Scratch, assumptions: &[Lit], clause: &[Lit], last: u32) -> bool
        requires assumptions { All (λ l. l.variable ≤ self.now.variables) assumptions.now }
        requires clause { IsClauseOver self.now.variables clause.now }
        requires scratch { scratch.old ≡ self.now.variables }
        requires last { last ≤ length self.now.clauses }
        ensures answer { IsTrue result ↔ LeavesFirstUnset (take last self.now.clauses) assumptions.now clause.now }
        ensures ready { scratch.new ≡ scratch.old }
    {
        let answer = self.leaves_unset(&mut scratch.literals, assumptions, clause, last);
        scratch.literals.clear();
        answer
    }

    /// The same, where no literal is true before.
    fn leaves_unset(
        &self,
        literals: &mut TrueLiterals,
        assumptions: &[Lit],
        clause: &[Lit],
        last: u32,
    ) -> bool
        requires none { literals.old.literals ≡ [] }
        requires same_variables { literals.old.variables ≡ self.now.variables }
        requires last { last ≤ length self.now.clauses }
        requires assumptions { All (λ l. l.variable ≤ self.now.variables) assumptions.now }
        requires clause { IsClauseOver self.now.variables clause.now }
        ensures answer { IsTrue result ↔ LeavesFirstUnset (take last self.now.clauses) assumptions.now clause.now }
        ensures same_variables { literals.new.variables ≡ literals.old.variables }
    {
        if !literals.assume_all(assumptions) {
            return false;
        }
        self.is_left_unset(literals, clause, last)
    }

    /// Whether some true literals that hold those of now and the negations of a clause's literals but the first are closed
    /// under unit propagation by the first `last` clauses, make none of these false, and leave the clause's first literal
    /// unset.
    fn is_left_unset(&self, literals: &mut TrueLiterals, clause: &[Lit], last: u32) -> bool
        requires same_variables { literals.old.variables ≡ self.now.variables }
        requires clause { IsClauseOver self.now.variables clause.now }
        requires last { last ≤ length self.now.clauses }
        ensures answer { IsTrue result
            ↔ LeavesFirstUnset (take last self.now.clauses) literals.old.literals clause.now }
        ensures same_variables { literals.new.variables ≡ literals.old.variables }
    {
        let Some((first, rest)) = clause.split_first() else {
            return false;
        };
        if !literals.deny_all(rest) {
            return false;
        }
        if !self.propagate(literals, last) {
            return false;
        }
        literals.is_unset(*first)
    }
}
