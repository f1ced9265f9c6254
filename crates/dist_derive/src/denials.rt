//! Where clauses can be false: only where all variables that they negate are true. So a clause is looked at with one of the
//! variables that it negates, and it is the rarest of them, so that a variable that very many clauses negate costs little.
//! Clauses of one variable that share a true literal are passed at once (`rows.rt`).

ghost use Rattle.std.specs.Prelude.{◌≡◌, ◌↔◌, ◌<◌, ◌≤◌, ℕ, Bool, Contains, IfNone, IfOk, IfSome, IsTrue, List, OnOk, length, slice_index_or};
ghost use Rattle.std.specs.List.Sorted.{IsNonDecreasingBy};
ghost use Rattle.dist_clause.specs.ClauseList.{clause_at};
ghost use Rattle.dist_clause.specs.Formula.{IsModel, Literal, MakesTrue};
ghost use Rattle.dist_derive.specs.DenialsPrivate.{AreDenialsOf, AreTrueWithin, IsDenied, StartsAt};
ghost use Rattle.dist_derive.specs.RowsPrivate.{AreAlike};
ghost use Rattle.dist_derive.specs.VariableSet.{GivesTrue};

use crate::rows::{Rows, compare_denials};
use crate::variable_set::VariableSet;
use dist_base::Flat;
use dist_clause::{ClauseSet, Lit};
use std::alloc::{AllocError, Global};
use std::marker::Model;

/// For each clause the variable of its rarest negative literal, or 0 where it has none, and its number, in the order of the
/// variables, and for one variable in the order of the rows.
#[derive(Drop)]
pub(crate) struct Denials {
    pairs: Vec<(u32, u32)>,
    /// For each variable a guess at the place of its first pair.
    starts: Vec<usize>,
}

impl Model for Denials {
    ghost use Rattle.std.specs.Prelude.{ℕ, List};
    ghost use Rattle.std.specs.List.Sorted.{IsNonDecreasingBy};

    ghost Value = { List (ℕ × ℕ) };

    ghost view = { λ d. d.pairs.items };

    ghost invariant = { λ d. IsNonDecreasingBy (λ (pair : ℕ × ℕ). pair.0) d.pairs.items };
}

/// Counts the negative literals of a clause, each by its variable.
fn count_denials(counts: &mut [u32], clause: &[Lit]) {
    for literal in clause {
        if literal.positive() {
            continue;
        }
        if let Some(count) = counts.get_mut(literal.variable() as usize) {
            *count = count.saturating_add(1);
        }
    }
}

/// How often the negative literal of each variable stands in the clauses.
fn denial_counts(alloc: Global, clauses: &ClauseSet) -> Result<Vec<u32>, AllocError> {
    let mut counts = vec![in alloc; 0u32; clauses.variables() as usize + 1]?;
    for place in 0..clauses.len() {
        count_denials(&mut counts, clauses.clause(place + 1));
    }
    Ok(counts)
}

/// How often the negative literal of a variable was counted.
fn count_of(counts: &[u32], variable: u32) -> u32 {
    match counts.get(variable as usize) {
        Some(count) => *count,
        None => 0,
    }
}

/// The variable of the rarest negative literal, or 0 where there is none.
fn rarest_denied(clause: &[Lit], counts: &[u32]) -> u32
    ensures { IsDenied clause.now result }
{
    let mut rarest = 0;
    let mut least = 0;
    for literal in clause {
        let count = count_of(counts, literal.variable());
        if !literal.positive() && (rarest == 0 || count < least) {
            rarest = literal.variable();
            least = count;
        }
    }
    rarest
}

/// The pairs of the clauses, in the order of these.
fn pairs_of(alloc: Global, clauses: &ClauseSet) -> Result<Vec<(u32, u32)>, AllocError>
    ensures { IfOk result (λ pairs. AreDenialsOf clauses.now.clauses pairs.items) }
{
    let counts = denial_counts(alloc, clauses)?;
    let mut pairs = Vec::with_capacity(alloc, clauses.len() as usize)?;
    for place in 0..clauses.len() {
        let number = place + 1;
        pairs.push((rarest_denied(clauses.clause(number), &counts), number))?;
    }
    Ok(pairs)
}

/// Counts a pair behind the place of its variable.
fn count_behind(counts: &mut [usize], variable: u32) {
    if let Some(count) = counts.get_mut(variable as usize + 1) {
        *count = count.saturating_add(1);
    }
}

/// For each variable, and for 0, how many pairs have a lower one.
fn starts_of(
    alloc: Global,
    variables: u32,
    pairs: &[(u32, u32)],
) -> Result<Vec<usize>, AllocError> {
    let mut starts = vec![in alloc; 0usize; variables as usize + 2]?;
    for pair in pairs {
        count_behind(&mut starts, pair.0);
    }
    let mut lower = 0usize;
    for start in starts.iter_mut() {
        lower = lower.saturating_add(*start);
        *start = lower;
    }
    Ok(starts)
}

/// Puts pairs into the order of their variables. Those of one variable come in the order of their rows.
fn put_in_order(
    rows: &Flat<Lit>,
    counts: &[u32],
    pairs: &mut Vec<(u32, u32)>,
) -> Result<(), AllocError>
    ensures rising { OnOk result (IsNonDecreasingBy (λ (pair : ℕ × ℕ). pair.0) pairs.new.items) }
    ensures same { (clauses : List (List Literal)) → AreDenialsOf clauses pairs.old.items
        → AreDenialsOf clauses pairs.new.items }
{
    pairs.sort_unstable_by(|pair, other| compare_denials(rows, counts, *pair, *other));
    // They are in this order already, which a stable sort finds by one walk.
    pairs.sort_by_key(|pair| pair.0)
}

impl Denials {
    /// Those of no clauses. It takes no memory.
    pub(crate) fn empty(alloc: Global) -> Denials {
        Denials {
            pairs: Vec::new(alloc),
            starts: Vec::new(alloc),
        }
    }

    /// The denials of some clauses, with their rows.
    pub(crate) fn new(
        alloc: Global,
        clauses: &ClauseSet,
        rows: &Flat<Lit>,
        counts: &[u32],
    ) -> Result<Denials, AllocError>
        ensures { IfOk result (AreDenialsOf clauses.now.clauses) }
    {
        let mut pairs = pairs_of(alloc, clauses)?;
        put_in_order(rows, counts, &mut pairs)?;
        let starts = starts_of(alloc, clauses.variables(), &pairs)?;
        Ok(Denials { pairs, starts })
    }

    /// The pairs.
    pub(crate) fn pairs(&self) -> &[(u32, u32)]
        ensures { result.now ≡ self.now }
    {
        &self.pairs
    }

    /// Whether the clauses are true where exactly the members of a set are.
    pub(crate) fn hold(&self, clauses: &ClauseSet, rows: &Rows, trues: &VariableSet) -> bool
        requires denials { AreDenialsOf clauses.now.clauses self.now }
        requires alike { AreAlike clauses.now.clauses self.now rows.now }
        requires variables { trues.now.variables ≡ clauses.now.variables }
        ensures { (value : ℕ → Bool) → GivesTrue value trues.now.members
            → IsTrue result ↔ IsModel value clauses.now.clauses }
    {
        if !self.are_true(clauses, rows, 0, trues) {
            return false;
        }
        for variable in trues.members() {
            if !self.are_true(clauses, rows, *variable, trues) {
                return false;
            }
        }
        true
    }

    /// Whether those clauses are true that are looked at with this variable, or at 0 those that have no negative literal.
    fn are_true(&self, clauses: &ClauseSet, rows: &Rows, variable: u32, trues: &VariableSet) -> bool
        requires denials { AreDenialsOf clauses.now.clauses self.now }
        requires alike { AreAlike clauses.now.clauses self.now rows.now }
        requires variables { trues.now.variables ≡ clauses.now.variables }
        ensures { (value : ℕ → Bool) → GivesTrue value trues.now.members
            → IsTrue result ↔ ((number : ℕ) → Contains self.now (variable, number)
            → MakesTrue value (clause_at clauses.now.clauses number)) }
    {
        let mut place = self.start_of(variable);
        while place < self.pairs.len() {
            if self.pairs[place].0 != variable {
                return true;
            }
            let Some(next) = self.pass(clauses, rows, place, trues) else {
                return false;
            };
            place = next;
        }
        true
    }

    /// A place so that the clauses of all pairs from one on, and before it, are true; none where the first of them is false.
    fn pass(
        &self,
        clauses: &ClauseSet,
        rows: &Rows,
        place: usize,
        trues: &VariableSet,
    ) -> Option<usize>
        requires place { place < length self.now }
        requires denials { AreDenialsOf clauses.now.clauses self.now }
        requires alike { AreAlike clauses.now.clauses self.now rows.now }
        requires variables { trues.now.variables ≡ clauses.now.variables }
        ensures later { IfSome result (λ next. place < next) }
        ensures some { (value : ℕ → Bool) → GivesTrue value trues.now.members
            → IfSome result (AreTrueWithin value clauses.now.clauses self.now place) }
        ensures none { (value : ℕ → Bool) → GivesTrue value trues.now.members
            → IfNone result (¬ MakesTrue value (clause_at clauses.now.clauses (slice_index_or self.now place (0, 0)).1)) }
    {
        let (_, number) = self.pairs[place];
        let clause = clauses.clause(number);
        if let Some(found) = rows.true_place(number, clause.len(), place, trues) {
            return Some(rows.behind(place, found));
        }
        if trues.makes_clause_true(clause) {
            Some(place + 1)
        } else {
            None
        }
    }

    /// The place of the first pair with this variable, or with a higher one. A guess that fits spares the search.
    fn start_of(&self, variable: u32) -> usize
        ensures { StartsAt self.now variable result }
    {
        if let Some(start) = self.starts.get(variable as usize) {
            if self.ends_before(*start, variable) && self.begins_at(*start, variable) {
                return *start;
            }
        }
        self.pairs.partition_point(|pair| pair.0 < variable)
    }

    /// Whether the pair before a place has a lower variable, so that all before have.
    fn ends_before(&self, place: usize, variable: u32) -> bool
        ensures { IsTrue result → (k : ℕ) (d : ℕ × ℕ) → k < place → (slice_index_or self.now k d).0 < variable }
    {
        if place == 0 {
            return true;
        }
        if place > self.pairs.len() {
            return false;
        }
        self.pairs[place - 1].0 < variable
    }

    /// Whether the pair at a place has no lower variable, so that none from there on has.
    fn begins_at(&self, place: usize, variable: u32) -> bool
        ensures { IsTrue result → (k : ℕ) (d : ℕ × ℕ) → place ≤ k → k < length self.now
            → variable ≤ (slice_index_or self.now k d).0 }
    {
        if place >= self.pairs.len() {
            return true;
        }
        self.pairs[place].0 >= variable
    }
}
