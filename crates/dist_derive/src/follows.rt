//! Whether a clause follows by hints.

ghost use Rattle.std.specs.Prelude.{◌≡◌, ◌↔◌, [], ℕ, Bool, IsTrue};
ghost use Rattle.dist_clause.specs.Formula.{IsClauseOver, MakesTrue, IsModel};
ghost use Rattle.dist_derive.specs.Follows.{EndsFalse, Follows};
ghost use Rattle.dist_derive.specs.HintsPrivate.{AreConflicts, TakesHint};

use crate::conflicts::Conflicts;
use crate::true_literals::{Outcome, TrueLiterals};
use crate::{Log, Scratch};
use dist_clause::Lit;

impl Log {
    /// Whether a clause follows from the log's clauses by hints, which are numbers of clauses. It costs the literals of
    /// the clause and of the hinted clauses, each of them once however often it is hinted, where the scratch has room.
    pub fn follows(&self, scratch: &mut Scratch, clause: &[Lit], hints: &[u32]) -> bool
        requires clause { IsClauseOver self.now.variables clause.now }
        requires scratch { scratch.old ≡ self.now.variables }
        ensures answer { IsTrue result ↔ Follows self.now.clauses clause.now hints.now }
        ensures sound { IsTrue result → (value : ℕ → Bool) → IsModel value self.now.clauses → MakesTrue value clause.now }
        ensures ready { scratch.new ≡ scratch.old }
    {
        scratch.literals.deny(clause);
        let answer = self.ends_false(&mut scratch.literals, &mut scratch.conflicts, hints);
        scratch.literals.clear();
        scratch.conflicts.clear();
        answer
    }

    /// Takes the hints in order, and answers whether the last one's clause is false.
    fn ends_false(
        &self,
        literals: &mut TrueLiterals,
        conflicts: &mut Conflicts,
        hints: &[u32],
    ) -> bool
        requires same_variables { literals.old.variables ≡ self.now.variables }
        requires none { conflicts.old ≡ [] }
        ensures answer { IsTrue result ↔ EndsFalse self.now.clauses literals.old.literals hints.now }
        ensures same_variables { literals.new.variables ≡ literals.old.variables }
    {
        let mut ended = false;
        for hint in hints {
            match self.take_once(literals, conflicts, *hint) {
                Outcome::Conflict => ended = true,
                Outcome::Unit(_) => ended = false,
                Outcome::Open => return false,
            }
        }
        ended
    }

    /// What the hinted clause is; if it is unit, its literal becomes true. A clause that was false stays false, since
    /// literals only become true, and is not read again; one that was unit is open from then on, which ends the hints.
    fn take_once(
        &self,
        literals: &mut TrueLiterals,
        conflicts: &mut Conflicts,
        hint: u32,
    ) -> Outcome
        requires same_variables { literals.old.variables ≡ self.now.variables }
        requires known { AreConflicts self.now.clauses literals.old.literals conflicts.old }
        ensures taken { TakesHint self.now.clauses literals.old literals.new hint result }
        ensures known { AreConflicts self.now.clauses literals.new.literals conflicts.new }
    {
        if conflicts.has(hint) {
            return Outcome::Conflict;
        }
        let outcome = self.take_clause(literals, hint);
        if let Outcome::Conflict = outcome {
            conflicts.remember(hint);
        }
        outcome
    }

    /// What the clause of a number is; if it is unit, its literal becomes true.
    pub(crate) fn take_clause(&self, literals: &mut TrueLiterals, number: u32) -> Outcome
        requires { literals.old.variables ≡ self.now.variables }
        ensures { TakesHint self.now.clauses literals.old literals.new number result }
    {
        if number == 0 || number > self.len() {
            return Outcome::Open;
        }
        let outcome = literals.outcome(self.clause(number));
        if let Outcome::Unit(literal) = outcome {
            literals.make_true(literal);
        }
        outcome
    }
}
