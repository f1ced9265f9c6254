//! Tests of newness that begin from what the test before has left.
//!
//! What the clauses give alone is made once and grows with the log; under assumptions it is made anew where these are other
//! ones than those of the test before. A clause's own literals come on top and go again. Each answer that needs memory that
//! is refused stays open, and what was kept is given up.

ghost use Rattle.std.specs.Prelude.{◌≡◌, ◌≤◌, ◌↔◌, ◌++◌, false, length, take, All, IfOk, IsTrue};
ghost use Rattle.dist_clause.specs.Formula.{IsClauseOver};
ghost use Rattle.dist_derive.specs.ContainmentPrivate.{ContainsAll};
ghost use Rattle.dist_derive.specs.New.{LeavesFirstUnset};
ghost use Rattle.dist_derive.specs.Watches.{AreWatchesOf};
ghost use Rattle.dist_derive.specs.WatchesPrivate.{AllGuarded, Tries, IsStanding, IsStandingIfMade, StandsFor};

use crate::Log;
use crate::true_literals::TrueLiterals;
use crate::watches::Watches;
use crate::watching::Watching;
use dist_clause::Lit;
use std::alloc::AllocError;

impl Log {
    /// Whether some true literals that hold the assumptions and the negations of a clause's literals but the first are
    /// closed under unit propagation by the first `last` clauses, make none of these false, and leave the clause's first
    /// literal unset.
    pub(crate) fn tested(
        &mut self,
        assumptions: &[Lit],
        clause: &[Lit],
        last: u32,
    ) -> Result<bool, AllocError>
        requires assumptions { All (λ l. l.variable ≤ self.old.variables) assumptions.now }
        requires clause { IsClauseOver self.old.variables clause.now }
        requires last { last ≤ length self.old.clauses }
        ensures answer { IfOk result (λ answer. IsTrue answer
            ↔ LeavesFirstUnset (take last self.old.clauses) assumptions.now clause.now) }
        ensures same { self.new ≡ self.old }
    {
        let mut watching = self.watching.take(self.alloc);
        match self.tell(&mut watching, assumptions, clause, last) {
            Ok(answer) => {
                self.watching.put(watching);
                Ok(answer)
            }
            Err(error) => {
                drop(watching);
                Err(error)
            }
        }
    }

    /// The same, from what is kept.
    pub(crate) fn tell(
        &self,
        watching: &mut Watching,
        assumptions: &[Lit],
        clause: &[Lit],
        last: u32,
    ) -> Result<bool, AllocError>
        requires standing { IsStandingIfMade self.now.clauses self.now.variables watching.old }
        requires assumptions { All (λ l. l.variable ≤ self.now.variables) assumptions.now }
        requires clause { IsClauseOver self.now.variables clause.now }
        requires last { last ≤ length self.now.clauses }
        ensures answer { IfOk result (λ answer. IsTrue answer
            ↔ LeavesFirstUnset (take last self.now.clauses) assumptions.now clause.now) }
        ensures standing { IfOk result (λ _. IsStandingIfMade self.now.clauses self.now.variables watching.new) }
    {
        if self.tell_above(watching, assumptions, clause, last)? {
            return Ok(true);
        }
        self.make(watching, last)?;
        if !self.stand(watching, assumptions, last)? {
            return Ok(false);
        }
        self.tell_clause(watching, clause, last)
    }

    /// Whether the clause's first literal is left unset with the assumptions of the question before too. Then it is without
    /// them, and what they give need not be made anew.
    fn tell_above(
        &self,
        watching: &mut Watching,
        assumptions: &[Lit],
        clause: &[Lit],
        last: u32,
    ) -> Result<bool, AllocError>
        requires standing { IsStandingIfMade self.now.clauses self.now.variables watching.old }
        requires assumptions { All (λ l. l.variable ≤ self.now.variables) assumptions.now }
        requires clause { IsClauseOver self.now.variables clause.now }
        requires last { last ≤ length self.now.clauses }
        ensures answer { IfOk result (λ answer. IsTrue answer
            → LeavesFirstUnset (take last self.now.clauses) assumptions.now clause.now) }
        ensures standing { IfOk result (λ _. IsStandingIfMade self.now.clauses self.now.variables watching.new) }
    {
        if !watching.may_rise(assumptions, last) {
            return Ok(false);
        }
        let before = watching.count();
        if !self.stand_above(watching, assumptions, last)? {
            watching.note_above(before);
            return Ok(false);
        }
        let answer = self.tell_clause(watching, clause, last)?;
        watching.note_above(before);
        Ok(answer)
    }

    /// Comes from what stands to what the assumptions above it and the first `last` clauses give; answers whether that is no
    /// conflict.
    fn stand_above(
        &self,
        watching: &mut Watching,
        assumptions: &[Lit],
        last: u32,
    ) -> Result<bool, AllocError>
        requires standing { IsStanding self.now.clauses self.now.variables watching.old }
        requires taken { watching.old.taken ≤ last }
        requires assumptions { All (λ l. l.variable ≤ self.now.variables) assumptions.now }
        requires last { last ≤ length self.now.clauses }
        ensures standing { IfOk result (λ _. IsStanding self.now.clauses self.now.variables watching.new) }
        ensures taken { IfOk result (λ fine. IsTrue fine → watching.new.taken ≡ last) }
        ensures above { IfOk result (λ fine. IsTrue fine → ContainsAll watching.new.literals.literals assumptions.now) }
    {
        if !self.take_more(watching, last)? {
            return Ok(false);
        }
        if watching.literals.are_true(assumptions) {
            return Ok(true);
        }
        self.stand_on(watching, assumptions, last)
    }

    /// Makes what is kept, where there is none, or more clauses are taken in alone.
    fn make(&self, watching: &mut Watching, last: u32) -> Result<(), AllocError>
        requires { IsStandingIfMade self.now.clauses self.now.variables watching.old }
        ensures standing { IfOk result (λ _. IsStanding self.now.clauses self.now.variables watching.new) }
        ensures grounded { IfOk result (λ _. watching.new.grounded ≤ last) }
    {
        if watching.is_made && watching.grounded <= last {
            return Ok(());
        }
        let made = Watching::make(self.alloc, self.variables())?;
        watching.put(made);
        Ok(())
    }

    /// Comes to what the assumptions and the first `last` clauses give; answers whether that is no conflict.
    fn stand(
        &self,
        watching: &mut Watching,
        assumptions: &[Lit],
        last: u32,
    ) -> Result<bool, AllocError>
        requires standing { IsStanding self.now.clauses self.now.variables watching.old }
        requires grounded { watching.old.grounded ≤ last }
        requires assumptions { All (λ l. l.variable ≤ self.now.variables) assumptions.now }
        requires last { last ≤ length self.now.clauses }
        ensures { IfOk result (λ fine. StandsFor self.now.clauses self.now.variables assumptions.now last watching.new fine) }
    {
        if watching.taken <= last && watching.is_under(assumptions) {
            return self.take_more(watching, last);
        }
        watching.to_ground();
        if !self.take_more(watching, last)? {
            return Ok(false);
        }
        watching.set_ground();
        let fine = self.stand_on(watching, assumptions, last)?;
        watching.note_alone();
        Ok(fine)
    }

    /// Takes in the clauses up to `last`; answers whether that ends without a conflict. After a conflict the assumptions are
    /// let go.
    fn take_more(&self, watching: &mut Watching, last: u32) -> Result<bool, AllocError>
        requires standing { IsStanding self.now.clauses self.now.variables watching.old }
        requires last { last ≤ length self.now.clauses }
        requires more { watching.old.taken ≤ last }
        ensures { IfOk result (λ fine. StandsFor self.now.clauses self.now.variables watching.old.assumptions last
            watching.new fine) }
    {
        let done = watching.literals.len();
        let taken = watching.taken;
        if !self.advance(
            &mut watching.watches,
            &mut watching.literals,
            done,
            taken,
            last,
        )? {
            watching.to_ground();
            return Ok(false);
        }
        watching.taken = last;
        Ok(true)
    }

    /// Comes from what stands to what more assumptions give too.
    fn stand_on(
        &self,
        watching: &mut Watching,
        assumptions: &[Lit],
        last: u32,
    ) -> Result<bool, AllocError>
        requires standing { IsStanding self.now.clauses self.now.variables watching.old }
        requires taken { watching.old.taken ≡ last }
        requires assumptions { All (λ l. l.variable ≤ self.now.variables) assumptions.now }
        ensures { IfOk result (λ fine. StandsFor self.now.clauses self.now.variables (watching.old.assumptions ++ assumptions.now) last
            watching.new fine) }
    {
        let done = watching.literals.len();
        if !watching.literals.assume_all(assumptions) {
            watching.to_ground();
            return Ok(false);
        }
        if !self.advance(
            &mut watching.watches,
            &mut watching.literals,
            done,
            last,
            last,
        )? {
            watching.to_ground();
            return Ok(false);
        }
        watching.assumptions.extend_from_slice(assumptions)?;
        Ok(true)
    }

    /// Whether the true literals of now leave a clause's first literal unset, as `tested` says of the assumptions.
    fn tell_clause(
        &self,
        watching: &mut Watching,
        clause: &[Lit],
        last: u32,
    ) -> Result<bool, AllocError>
        requires standing { IsStanding self.now.clauses self.now.variables watching.old }
        requires taken { watching.old.taken ≡ last }
        requires clause { IsClauseOver self.now.variables clause.now }
        ensures answer { IfOk result (λ answer. IsTrue answer
            ↔ LeavesFirstUnset (take last self.now.clauses) watching.old.literals.literals clause.now) }
        ensures standing { IfOk result (λ _. IsStanding self.now.clauses self.now.variables watching.new) }
    {
        let len = watching.literals.len();
        let answer = self.try_clause(&mut watching.watches, &mut watching.literals, clause, last)?;
        watching.peak = watching.literals.len();
        watching.literals.truncate(len);
        Ok(answer)
    }

    /// The same, where the literals that come on top stay.
    fn try_clause(
        &self,
        watches: &mut Watches,
        literals: &mut TrueLiterals,
        clause: &[Lit],
        last: u32,
    ) -> Result<bool, AllocError>
        requires same_variables { literals.old.variables ≡ self.now.variables }
        requires last { last ≤ length self.now.clauses }
        requires clause { IsClauseOver self.now.variables clause.now }
        requires watches { AreWatchesOf watches.old self.now.clauses }
        requires guarded { AllGuarded watches.old self.now.clauses last literals.old.literals literals.old.literals }
        ensures answer { IfOk result (λ answer. IsTrue answer
            ↔ LeavesFirstUnset (take last self.now.clauses) literals.old.literals clause.now) }
        ensures tries { IfOk result (λ _. Tries self.now.clauses watches.old watches.new literals.old literals.new) }
    {
        let Some((first, rest)) = clause.split_first() else {
            return Ok(false);
        };
        let done = literals.len();
        if !literals.deny_all(rest) {
            return Ok(false);
        }
        if !self.advance(watches, literals, done, last, last)? {
            return Ok(false);
        }
        Ok(literals.is_unset(*first))
    }
}
