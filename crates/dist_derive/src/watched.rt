//! Unit propagation by watches, over the first clauses of a log.
//!
//! The true literals are taken in the order in which they became true, each with the clauses that are found by its
//! negation. It stops where memory is wanting: nothing is known of the watches then.

ghost use Rattle.std.specs.Prelude.{◌≡◌, ◌≤◌, ◌<◌, ◌+◌, false, length, take, IfOk, IsTrue, Contains};
ghost use Rattle.dist_clause.specs.ClauseList.{clause_at};
ghost use Rattle.dist_derive.specs.SweepPrivate.{IsRefuted};
ghost use Rattle.dist_derive.specs.Watches.{AreWatchesOf};
ghost use Rattle.dist_derive.specs.WatchesPrivate.{AllGuarded, Advances, Looks, LooksAgain};

use crate::Log;
use crate::true_literals::TrueLiterals;
use crate::watches::Watches;
use dist_clause::Lit;
use std::alloc::AllocError;

impl Log {
    /// Takes in the clauses with numbers above `taken` and up to `last`, and makes true what the first `last` clauses give
    /// then; answers whether none of them is false. The first `taken` clauses were looked at when the literals before the
    /// place `done` were taken.
    pub(crate) fn advance(
        &self,
        watches: &mut Watches,
        literals: &mut TrueLiterals,
        done: usize,
        taken: u32,
        last: u32,
    ) -> Result<bool, AllocError>
        requires same_variables { literals.old.variables ≡ self.now.variables }
        requires last { last ≤ length self.now.clauses }
        requires done { done ≤ length literals.old.literals }
        requires watches { AreWatchesOf watches.old self.now.clauses }
        requires guarded { AllGuarded watches.old self.now.clauses taken literals.old.literals
            (take done literals.old.literals) }
        ensures advances { IfOk result (λ fine. Advances self.now.clauses last watches.old watches.new
            literals.old literals.new) }
        ensures guarded { IfOk result (λ fine. IsTrue fine → AllGuarded watches.new self.now.clauses last
            literals.new.literals literals.new.literals) }
        ensures refuted { IfOk result (λ fine. fine ≡ false → IsRefuted (take last self.now.clauses) literals.old.literals) }
    {
        if !self.take_in_all(watches, literals, done, taken, last)? {
            return Ok(false);
        }
        self.take_each(watches, literals, done, last)
    }

    /// Takes in the clauses with numbers above `taken` and up to `last`; answers whether none of them is false.
    fn take_in_all(
        &self,
        watches: &mut Watches,
        literals: &mut TrueLiterals,
        done: usize,
        taken: u32,
        last: u32,
    ) -> Result<bool, AllocError>
        requires same_variables { literals.old.variables ≡ self.now.variables }
        requires last { last ≤ length self.now.clauses }
        requires done { done ≤ length literals.old.literals }
        requires watches { AreWatchesOf watches.old self.now.clauses }
        requires guarded { AllGuarded watches.old self.now.clauses taken literals.old.literals
            (take done literals.old.literals) }
        ensures advances { IfOk result (λ fine. Advances self.now.clauses last watches.old watches.new
            literals.old literals.new) }
        ensures guarded { IfOk result (λ fine. IsTrue fine → AllGuarded watches.new self.now.clauses last
            literals.new.literals (take done literals.new.literals)) }
        ensures refuted { IfOk result (λ fine. fine ≡ false → IsRefuted (take last self.now.clauses) literals.old.literals) }
    {
        for place in taken..last {
            if !self.take_in(watches, literals, place + 1, last)? {
                return Ok(false);
            }
        }
        Ok(true)
    }

    /// Takes in a clause; answers whether it is not false.
    fn take_in(
        &self,
        watches: &mut Watches,
        literals: &mut TrueLiterals,
        number: u32,
        last: u32,
    ) -> Result<bool, AllocError>
        requires same_variables { literals.old.variables ≡ self.now.variables }
        requires last { last ≤ length self.now.clauses }
        requires from_one { 1 ≤ number }
        requires to_last { number ≤ last }
        ensures { IfOk result (λ fine. Looks self.now.clauses last number watches.old watches.new
            literals.old literals.new fine) }
    {
        let Some((first, _)) = self.clause(number).split_first() else {
            return Ok(false);
        };
        self.look(watches, literals, number, *first, last)
    }

    /// Takes the true literals from a place on; answers whether no clause is false then.
    fn take_each(
        &self,
        watches: &mut Watches,
        literals: &mut TrueLiterals,
        first: usize,
        last: u32,
    ) -> Result<bool, AllocError>
        requires same_variables { literals.old.variables ≡ self.now.variables }
        requires last { last ≤ length self.now.clauses }
        requires first { first ≤ length literals.old.literals }
        requires watches { AreWatchesOf watches.old self.now.clauses }
        requires guarded { AllGuarded watches.old self.now.clauses last literals.old.literals
            (take first literals.old.literals) }
        ensures advances { IfOk result (λ fine. Advances self.now.clauses last watches.old watches.new
            literals.old literals.new) }
        ensures guarded { IfOk result (λ fine. IsTrue fine → AllGuarded watches.new self.now.clauses last
            literals.new.literals literals.new.literals) }
        ensures refuted { IfOk result (λ fine. fine ≡ false → IsRefuted (take last self.now.clauses) literals.old.literals) }
    {
        let mut done = first;
        while done < literals.len() {
            if !self.take_literal(watches, literals, done, last)? {
                return Ok(false);
            }
            done += 1;
        }
        Ok(true)
    }

    /// Looks at the clauses that are found by the negation of the true literal at a place; answers whether none of them is
    /// false.
    fn take_literal(
        &self,
        watches: &mut Watches,
        literals: &mut TrueLiterals,
        done: usize,
        last: u32,
    ) -> Result<bool, AllocError>
        requires same_variables { literals.old.variables ≡ self.now.variables }
        requires last { last ≤ length self.now.clauses }
        requires done { done < length literals.old.literals }
        requires watches { AreWatchesOf watches.old self.now.clauses }
        requires guarded { AllGuarded watches.old self.now.clauses last literals.old.literals
            (take done literals.old.literals) }
        ensures advances { IfOk result (λ fine. Advances self.now.clauses last watches.old watches.new
            literals.old literals.new) }
        ensures guarded { IfOk result (λ fine. IsTrue fine → AllGuarded watches.new self.now.clauses last
            literals.new.literals (take (done + 1) literals.new.literals)) }
        ensures refuted { IfOk result (λ fine. fine ≡ false → IsRefuted (take last self.now.clauses) literals.old.literals) }
    {
        let literal = literals.get(done).negated();
        let mut place = 0;
        while let Some(number) = watches.number_at(literal, place) {
            if !self.look_again(watches, literals, number, literal, last)? {
                return Ok(false);
            }
            place = watches.pass(literal, place, number);
        }
        Ok(true)
    }

    /// Looks at a clause where it is found by a literal that is false now; answers whether it is not false.
    fn look_again(
        &self,
        watches: &mut Watches,
        literals: &mut TrueLiterals,
        number: u32,
        literal: Lit,
        last: u32,
    ) -> Result<bool, AllocError>
        requires same_variables { literals.old.variables ≡ self.now.variables }
        requires last { last ≤ length self.now.clauses }
        requires watches { AreWatchesOf watches.old self.now.clauses }
        ensures { IfOk result (λ fine. LooksAgain self.now.clauses last number literal watches.old watches.new
            literals.old literals.new fine) }
    {
        if number == 0 || number > last {
            return Ok(true);
        }
        let Some(other) = watches.other(number, literal) else {
            return Ok(true);
        };
        self.look(watches, literals, number, other, last)
    }

    /// Looks at a clause, first at one of its literals: finds it by two literals that are not false from now on, or makes
    /// its last one true; answers whether it is not false.
    fn look(
        &self,
        watches: &mut Watches,
        literals: &mut TrueLiterals,
        number: u32,
        first: Lit,
        last: u32,
    ) -> Result<bool, AllocError>
        requires same_variables { literals.old.variables ≡ self.now.variables }
        requires last { last ≤ length self.now.clauses }
        requires from_one { 1 ≤ number }
        requires to_last { number ≤ last }
        requires member { Contains (clause_at self.now.clauses number) first }
        ensures { IfOk result (λ fine. Looks self.now.clauses last number watches.old watches.new
            literals.old literals.new fine) }
    {
        self.keeps_invariant();
        if literals.is_true(first) {
            return Ok(true);
        }
        let clause = self.clause(number);
        let Some(one) = literals.free(clause, first) else {
            return Ok(false);
        };
        if let Some(other) = literals.other_free(clause, one) {
            watches.watch(number, one, other)?;
            return Ok(true);
        }
        Ok(literals.assume(one))
    }
}
