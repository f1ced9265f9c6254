//! Unit propagation over the first clauses of a log, by a queue: the true literals are taken in the order in which they
//! became true, each with the clauses in which its negation stands. A clause that is not false or unit stays so until one
//! more of its literals is false, so only what is touched is looked at. Clauses that are not in the index are walked.

ghost use Rattle.std.specs.Prelude.{◌≡◌, ◌<◌, ◌≤◌, ◌-◌, ℕ, false, length, take, IsTrue};
ghost use Rattle.dist_clause.specs.ClauseList.{clause_at};
ghost use Rattle.dist_derive.specs.TrueLiterals.{HasOutcome};
ghost use Rattle.dist_derive.specs.OccurrencesPrivate.{Lists, IsIndexOf};
ghost use Rattle.dist_derive.specs.SweepPrivate.{IsRefuted, AllOpen, Waits, AllWait, Propagates, Sweeps};

use crate::Log;
use crate::occurrences::{Occurrences, code_of};
use crate::true_literals::{Outcome, TrueLiterals};

/// What a walk over clauses found.
#[derive(Clone, Copy)]
pub enum Sweep {
    /// A clause with no literal but false ones.
    Conflict,
    /// Literals that are true now and were unset before.
    Grown,
    /// No clause is false or has one literal left.
    Settled,
}

impl Log {
    /// Makes true what unit propagation by the first `last` clauses gives; answers whether none of them is false then.
    pub(crate) fn propagate(&self, literals: &mut TrueLiterals, last: u32) -> bool
        requires same_variables { literals.old.variables ≡ self.now.variables }
        requires last { last ≤ length self.now.clauses }
        ensures grows { Propagates (take last self.now.clauses) literals.old literals.new }
        ensures settled { IsTrue result → AllOpen literals.new.literals (take last self.now.clauses) }
        ensures refuted { result ≡ false → IsRefuted (take last self.now.clauses) literals.old.literals }
    {
        let index = self.occurrences();
        if !self.look_at_all(literals, last) {
            return false;
        }
        let mut done = 0;
        loop {
            if !self.take_literals(index, literals, done, last) {
                return false;
            }
            done = literals.len();
            match self.sweep(literals, index.covered(), last) {
                Sweep::Conflict => return false,
                Sweep::Settled => return true,
                Sweep::Grown => {}
            }
        }
    }

    /// Looks once at the clauses with numbers up to `last`; answers whether none of them is false.
    fn look_at_all(&self, literals: &mut TrueLiterals, last: u32) -> bool
        requires same_variables { literals.old.variables ≡ self.now.variables }
        requires last { last ≤ length self.now.clauses }
        ensures grows { Propagates (take last self.now.clauses) literals.old literals.new }
        ensures looked { IsTrue result → (number done : ℕ) → 1 ≤ number → number ≤ last
            → done ≤ length literals.old.literals
            → Waits literals.new.literals done (clause_at self.now.clauses number) }
        ensures refuted { result ≡ false → IsRefuted (take last self.now.clauses) literals.old.literals }
    {
        for place in 0..last {
            if !self.look_at(literals, place + 1, last) {
                return false;
            }
        }
        true
    }

    /// Takes the true literals from a place on, each with the clauses in which its negation stands; answers whether none
    /// of these is false.
    fn take_literals(
        &self,
        index: &Occurrences,
        literals: &mut TrueLiterals,
        first: usize,
        last: u32,
    ) -> bool
        requires index { IsIndexOf index.now self.now.clauses }
        requires same_variables { literals.old.variables ≡ self.now.variables }
        requires last { last ≤ length self.now.clauses }
        requires waiting { AllWait index.now self.now.clauses last literals.old.literals first }
        ensures grows { Propagates (take last self.now.clauses) literals.old literals.new }
        ensures settled { IsTrue result → AllWait index.now self.now.clauses last literals.new.literals
            (length literals.new.literals) }
        ensures refuted { result ≡ false → IsRefuted (take last self.now.clauses) literals.old.literals }
    {
        let mut done = first;
        while done < literals.len() {
            let latest = index.latest(code_of(literals.get(done).negated()));
            if !self.visit(index, literals, latest, last) {
                return false;
            }
            done += 1;
        }
        true
    }

    /// Looks at the clauses of a list with numbers up to `last`; answers whether none of them is false.
    fn visit(
        &self,
        index: &Occurrences,
        literals: &mut TrueLiterals,
        latest: u32,
        last: u32,
    ) -> bool
        requires index { IsIndexOf index.now self.now.clauses }
        requires same_variables { literals.old.variables ≡ self.now.variables }
        requires last { last ≤ length self.now.clauses }
        ensures grows { Propagates (take last self.now.clauses) literals.old literals.new }
        ensures visited { IsTrue result → (number done : ℕ) → Lists index.now.links latest number → number ≤ last
            → done ≤ length literals.old.literals → Waits literals.new.literals done (clause_at self.now.clauses number) }
        ensures refuted { result ≡ false → IsRefuted (take last self.now.clauses) literals.old.literals }
    {
        let mut place = latest;
        while let Some(link) = index.link(place) {
            if !self.look_at(literals, link.number, last) {
                return false;
            }
            place = link.next;
        }
        true
    }

    /// Makes the literal of a clause true if it is unit, and answers whether it is not false. A clause with a number above
    /// `last` is passed over.
    fn look_at(&self, literals: &mut TrueLiterals, number: u32, last: u32) -> bool
        requires same_variables { literals.old.variables ≡ self.now.variables }
        requires last { last ≤ length self.now.clauses }
        requires from_one { 1 ≤ number }
        ensures grows { Propagates (take last self.now.clauses) literals.old literals.new }
        ensures is_open { IsTrue result → number ≤ last
            → HasOutcome literals.new.literals (clause_at self.now.clauses number) Outcome.Open }
        ensures refuted { result ≡ false → IsRefuted (take last self.now.clauses) literals.old.literals }
    {
        if number > last {
            return true;
        }
        if let Outcome::Conflict = self.take_clause(literals, number) {
            return false;
        }
        true
    }

    /// Walks once over the clauses with numbers above `first` and up to `last`; the literal of each unit one becomes true.
    fn sweep(&self, literals: &mut TrueLiterals, first: u32, last: u32) -> Sweep
        requires same_variables { literals.old.variables ≡ self.now.variables }
        requires last { last ≤ length self.now.clauses }
        ensures grows { Propagates (take last self.now.clauses) literals.old literals.new }
        ensures found { Sweeps (take last self.now.clauses) first literals.old literals.new result }
    {
        let mut grown = false;
        for place in first..last {
            match self.take_clause(literals, place + 1) {
                Outcome::Conflict => return Sweep::Conflict,
                Outcome::Unit(_) => grown = true,
                Outcome::Open => {}
            }
        }
        if grown {
            return Sweep::Grown;
        }
        Sweep::Settled
    }
}
