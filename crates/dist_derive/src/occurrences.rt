//! The clauses in which a literal stands, by their numbers, the latest first.
//!
//! The lists are linked through one vector: clauses come one by one, each of them behind all lists at once, and a vector of
//! its own for each list would be taken and moved again and again. A link takes eight bytes, and one law of a link more
//! serves the input clauses and the derived lines.

ghost use Rattle.std.specs.Prelude.{◌≡◌, ◌≢◌, ◌+◌, ◌<◌, ◌≤◌, ◌↔◌, ℕ, List, [], true, false, length, All, AllPairs, IsTrue, IfSome, IfNone, OnOk, slice_index};
ghost use Rattle.dist_clause.specs.Formula.{Literal, literal};
ghost use Rattle.dist_clause.specs.ClauseList.{clause_at};
ghost use Rattle.dist_derive.specs.OccurrencesPrivate.{code_of, link_at, Lists, IsListed, IsIndexOf, Extends};

use dist_clause::Lit;
use std::alloc::{AllocError, Global};
use std::marker::Model;

/// A clause in a list.
#[derive(Clone, Copy)]
pub struct Link {
    /// The number of the clause.
    pub number: u32,
    /// The place of the link behind this one; 0: there is none.
    pub next: u32,
}

/// The code of the clauses without a negative literal. No literal has it, since variables are numbered from 1.
pub(crate) const POSITIVE: u32 = 0;

/// For each code a list of clauses: for a literal's code those in which it stands.
#[derive(Drop)]
pub(crate) struct Occurrences {
    /// For each code the place of its latest link, from 1 on; 0: there is none. Empty until the lists are made.
    heads: Vec<u32>,
    links: Vec<Link>,
    /// The clauses with numbers up to this are in. The links of a clause that is not in yet may stand: they are superfluous.
    covered: u32,
}

impl Model for Occurrences {
    ghost use Rattle.dist_derive.specs.OccurrencesPrivate.{OccurrenceLists};

    ghost Value = { OccurrenceLists };

    ghost view = { λ a. record { heads = a.heads.items; links = a.links.items; covered = a.covered } };
}

impl Occurrences {
    /// No lists, and no clause in them.
    pub(crate) fn new(alloc: Global) -> Occurrences
        ensures { result ≡ record { heads = []; links = []; covered = 0 } }
    {
        Occurrences {
            heads: Vec::new(alloc),
            links: Vec::new(alloc),
            covered: 0,
        }
    }

    /// Makes an empty list for each code, where there are none yet.
    pub(crate) fn make_lists(&mut self, variables: u32) -> Result<(), AllocError>
        ensures { (clauses : List (List Literal)) → IsIndexOf self.old clauses → IsIndexOf self.new clauses }
    {
        if self.heads.is_empty() {
            self.heads.resize(2 * variables as usize + 2, 0)?;
        }
        Ok(())
    }

    /// The clauses with numbers up to this are in.
    pub(crate) fn covered(&self) -> u32
        ensures { result ≡ self.now.covered }
    {
        self.covered
    }

    /// The place of the latest clause with a code; 0: there is none.
    pub(crate) fn latest(&self, code: u32) -> u32
        ensures { result ≡ slice_index self.now.heads code }
    {
        head(&self.heads, code as usize)
    }

    /// The place of the latest clause in which a variable stands negated; 0: there is none.
    pub(crate) fn latest_negated(&self, variable: u32) -> u32
        ensures { result ≡ slice_index self.now.heads (code_of (literal variable false)) }
    {
        head(&self.heads, 2 * variable as usize)
    }

    /// What stands at a place.
    pub(crate) fn link(&self, place: u32) -> Option<Link>
        ensures some { IfSome result (λ link. (1 ≤ place) × (place ≤ length self.now.links)
            × (link ≡ link_at self.now.links place)) }
        ensures none { IfNone result ((number : ℕ) → ¬ Lists self.now.links place number) }
    {
        if place == 0 || place as usize > self.links.len() {
            return None;
        }
        Some(self.links[place as usize - 1])
    }

    /// Puts the first clause that is not in yet into the lists of its codes. After want of memory it is not in, and all
    /// before it are.
    pub(crate) fn add(&mut self, number: u32, clause: &[Lit]) -> Result<(), AllocError>
        requires next { number ≡ self.old.covered + 1 }
        requires distinct { AllPairs (λ l m. l.variable ≢ m.variable) clause.now }
        ensures index { (clauses : List (List Literal)) → IsIndexOf self.old clauses → number ≤ length clauses
            → clause.now ≡ clause_at clauses number → IsIndexOf self.new clauses }
        ensures covered { OnOk result (self.new.covered ≡ number) }
    {
        self.put_positive(clause, number)?;
        self.put_literals(clause, number)?;
        self.covered = number;
        Ok(())
    }

    /// Puts a clause in where all before it are in, unless memory is wanting.
    pub(crate) fn add_next(&mut self, number: u32, clause: &[Lit])
        requires { AllPairs (λ l m. l.variable ≢ m.variable) clause.now }
        ensures { (clauses : List (List Literal)) → IsIndexOf self.old clauses → number ≤ length clauses
            → clause.now ≡ clause_at clauses number → IsIndexOf self.new clauses }
    {
        if self.covered < number && number - self.covered == 1 {
            let _ = self.add(number, clause);
        }
    }

    /// Puts a clause without a negative literal into the list of such clauses.
    fn put_positive(&mut self, clause: &[Lit], number: u32) -> Result<(), AllocError>
        ensures extends { Extends self.old self.new number }
        ensures listed { All (λ l. l.positive ≡ true) clause.now → OnOk result (IsListed self.new POSITIVE number) }
    {
        if is_positive(clause) {
            self.put(POSITIVE, number)
        } else {
            Ok(())
        }
    }

    /// Puts a clause into the lists of its literals.
    fn put_literals(&mut self, clause: &[Lit], number: u32) -> Result<(), AllocError>
        ensures extends { Extends self.old self.new number }
        ensures listed { OnOk result (All (λ l. IsListed self.new (code_of l) number) clause.now) }
    {
        for literal in clause {
            self.put(code_of(*literal), number)?;
        }
        Ok(())
    }

    /// Puts a clause into a code's list. Where the lists aren't made, it is want of memory too.
    fn put(&mut self, code: u32, number: u32) -> Result<(), AllocError>
        ensures extends { Extends self.old self.new number }
        ensures listed { OnOk result (IsListed self.new code number) }
    {
        let code = code as usize;
        if code >= self.heads.len() || self.links.len() >= u32::MAX as usize {
            return Err(AllocError);
        }
        let next = self.heads[code];
        self.links.push(Link { number, next })?;
        self.heads[code] = self.links.len() as u32;
        Ok(())
    }
}

/// The head of a code's list; 0 where it has none.
fn head(heads: &[u32], code: usize) -> u32
    ensures { result ≡ slice_index heads.now code }
{
    match heads.get(code) {
        Some(place) => *place,
        None => 0,
    }
}

/// The code of a literal.
pub(crate) fn code_of(literal: Lit) -> u32
    ensures { result ≡ code_of literal }
{
    2 * literal.variable() + u32::from(literal.positive())
}

/// Whether a clause has no negative literal.
fn is_positive(clause: &[Lit]) -> bool
    ensures { IsTrue result ↔ All (λ l. l.positive ≡ true) clause.now }
{
    clause.iter().all(|l| l.positive())
}
