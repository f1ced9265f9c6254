//! Clauses that begin alike, of those that are looked at with one variable.
//!
//! A row is a clause with its negative literals first, and then those that stand in the most clauses. The denials of a
//! variable are in the order of their rows, so that clauses with the same frequent literals stand together: where one of
//! these is true, they are all passed at once, and so are equal clauses. What is passed was compared when the rows were put
//! in order; the order itself is only a guess at what is looked at least.

ghost use Rattle.std.specs.Prelude.{◌≡◌, ◌+◌, ◌^◌, ◌<◌, ◌≤◌, false, ℕ, Bool, All, Contains, IfOk, IfSome, OnOk, length, slice_index, slice_index_or};
ghost use Rattle.dist_clause.specs.ClauseList.{clause_at};
ghost use Rattle.dist_clause.specs.Formula.{IsTrueLiteral, Literal, literal};
ghost use Rattle.dist_derive.specs.RowsPrivate.{AreFrontsOf, AreJumpsOf, AreRowsOf, StandsAt, row_of};
ghost use Rattle.dist_derive.specs.VariableSet.{GivesTrue};

use crate::variable_set::VariableSet;
use dist_base::Flat;
use dist_clause::{ClauseSet, Lit};
use std::alloc::{AllocError, Global};
use std::cmp::Ordering;
use std::marker::Model;

/// So many literals of a row are looked at one after another for each member of a set, before the members are looked up.
const STEPS: usize = 8;

/// The rows of clauses, and how they follow one another in the order of the denials.
#[derive(Drop)]
pub(crate) struct Rows {
    /// For each clause its row.
    rows: Flat<Lit>,
    /// In how many clauses each variable stands without a negation.
    counts: Vec<u32>,
    /// For each denial, how many of its first literals are those of the one before.
    fronts: Vec<u32>,
    /// For each denial the next one with a shorter front.
    jumps: Vec<u32>,
}

impl Model for Rows {
    ghost use Rattle.dist_derive.specs.RowsPrivate.{AreJumpsOf, RowLists};

    ghost Value = { RowLists };

    ghost view = { λ r. record { rows = r.rows; fronts = r.fronts.items } };

    ghost invariant = { λ r. AreJumpsOf r.fronts.items r.jumps.items };
}

/// Counts the positive literals of a clause, each by its variable.
fn count_positives(counts: &mut [u32], clause: &[Lit]) {
    for literal in clause {
        if !literal.positive() {
            continue;
        }
        if let Some(count) = counts.get_mut(literal.variable() as usize) {
            *count = count.saturating_add(1);
        }
    }
}

/// In how many clauses each variable stands without a negation.
pub(crate) fn positive_counts(alloc: Global, clauses: &ClauseSet) -> Result<Vec<u32>, AllocError> {
    let mut counts = vec![in alloc; 0u32; clauses.variables() as usize + 1]?;
    for place in 0..clauses.len() {
        count_positives(&mut counts, clauses.clause(place + 1));
    }
    Ok(counts)
}

/// By what the positive literals of a row are in order.
fn positive_key(counts: &[u32], variable: u32) -> (u32, u32) {
    match counts.get(variable as usize) {
        Some(count) => (u32::MAX - *count, variable),
        None => (u32::MAX, variable),
    }
}

/// By what the literals of a row are in order.
fn key_of(counts: &[u32], literal: Lit) -> (u32, u32) {
    if literal.positive() {
        positive_key(counts, literal.variable())
    } else {
        (0, literal.variable())
    }
}

/// Writes the row of a clause.
fn write_row(counts: &[u32], clause: &[Lit], row: &mut Vec<Lit>) -> Result<(), AllocError>
    ensures { OnOk result ((l : Literal) → Contains row.new.items l → Contains clause.now l) }
{
    row.clear();
    row.extend_from_slice(clause)?;
    row.sort_unstable_by_key(|literal| key_of(counts, *literal));
    Ok(())
}

/// The rows of clauses.
pub(crate) fn rows_of(
    alloc: Global,
    clauses: &ClauseSet,
    counts: &[u32],
) -> Result<Flat<Lit>, AllocError>
    ensures { IfOk result (AreRowsOf clauses.now.clauses) }
{
    let mut row = Vec::new(alloc);
    let mut rows = Flat::new(alloc);
    for place in 0..clauses.len() {
        write_row(counts, clauses.clause(place + 1), &mut row)?;
        rows.push(&row)?;
    }
    Ok(rows)
}

/// The row of the clause of a number.
fn row_at(rows: &Flat<Lit>, number: u32) -> &[Lit]
    ensures { result.now ≡ clause_at rows.now number }
{
    let place = number.saturating_sub(1) as usize;
    if place < rows.len() {
        rows.get(place)
    } else {
        &[]
    }
}

/// The order of two rows, by the first literals in which they differ.
fn compare_rows(counts: &[u32], row: &[Lit], other: &[Lit]) -> Ordering {
    for place in 0..row.len().min(other.len()) {
        if row[place] != other[place] {
            return key_of(counts, row[place]).cmp(&key_of(counts, other[place]));
        }
    }
    row.len().cmp(&other.len())
}

/// The order of two denials: by their variables, and then by their rows.
pub(crate) fn compare_denials(
    rows: &Flat<Lit>,
    counts: &[u32],
    pair: (u32, u32),
    other: (u32, u32),
) -> Ordering {
    match pair.0.cmp(&other.0) {
        Ordering::Equal => compare_rows(counts, row_at(rows, pair.1), row_at(rows, other.1)),
        unequal => unequal,
    }
}

/// How many of its first literals a row has in common with the one before it.
fn shared_front(before: &[Lit], row: &[Lit]) -> u32
    ensures { (p : ℕ) (l : Literal) → p < result → StandsAt before.now p l → StandsAt row.now p l }
{
    let most = before.len().min(row.len()).min(u32::MAX as usize) as u32;
    let mut front = 0;
    while front < most && before[front as usize] == row[front as usize] {
        front += 1;
    }
    front
}

/// The same for the row at a place; 0 where the denial before it is of another variable.
fn front_at(rows: &Flat<Lit>, pairs: &[(u32, u32)], place: usize) -> u32
    requires { place < length pairs.now }
    ensures { (k p : ℕ) (l : Literal) → place ≡ k + 1 → p < result → StandsAt (row_of rows.now pairs.now k) p l
        → StandsAt (row_of rows.now pairs.now place) p l }
{
    if place == 0 {
        return 0;
    }
    let (before_variable, before) = pairs[place - 1];
    let (variable, number) = pairs[place];
    if variable != before_variable {
        return 0;
    }
    shared_front(row_at(rows, before), row_at(rows, number))
}

/// The fronts of the rows in the order of the denials.
fn fronts_of(alloc: Global, rows: &Flat<Lit>, pairs: &[(u32, u32)]) -> Result<Vec<u32>, AllocError>
    ensures { IfOk result (λ fronts. AreFrontsOf rows.now pairs.now fronts.items) }
{
    let mut fronts = Vec::with_capacity(alloc, pairs.len())?;
    for place in 0..pairs.len() {
        fronts.push(front_at(rows, pairs, place))?;
    }
    Ok(fronts)
}

/// The jump from a place.
fn jump_at(jumps: &[u32], place: usize) -> usize
    ensures { result ≡ slice_index jumps.now place }
{
    match jumps.get(place) {
        Some(jump) => *jump as usize,
        None => 0,
    }
}

/// The first place behind one from which a row shares fewer than so many literals with the one before it, as far as the jumps
/// tell.
fn place_behind(fronts: &[u32], jumps: &[u32], place: usize, least: u32) -> usize
    requires place { place < length fronts.now }
    requires jumps { AreJumpsOf fronts.now jumps.now }
    ensures later { place < result }
    ensures shared { (i : ℕ) → place < i → i < result → least ≤ slice_index fronts.now i }
{
    let mut next = place + 1;
    while next < fronts.len() && fronts[next] >= least {
        next = jump_at(jumps, next).max(next + 1);
    }
    next
}

/// From each place the next one with a shorter front.
fn jumps_of(alloc: Global, fronts: &[u32]) -> Result<Vec<u32>, AllocError>
    ensures { IfOk result (λ jumps. AreJumpsOf fronts.now jumps.items) }
{
    let mut jumps = vec![in alloc; 0u32; fronts.len()]?;
    for done in 0..fronts.len() {
        let place = fronts.len() - 1 - done;
        let next = place_behind(fronts, &jumps, place, fronts[place]);
        jumps[place] = next.min(u32::MAX as usize) as u32;
    }
    Ok(jumps)
}

/// The first place from one on, and before another, at which a literal is true where exactly the members of a set are.
fn walk_row(row: &[Lit], first: usize, last: usize, trues: &VariableSet) -> Option<usize>
    requires { All (λ l. l.variable ≤ trues.now.variables) row.now }
{
    for place in first..last.min(row.len()) {
        if trues.makes_true(row[place]) {
            return Some(place);
        }
    }
    None
}

/// Where a variable stands in a row without a negation, if it does.
fn place_of(counts: &[u32], row: &[Lit], variable: u32) -> Option<usize> {
    let key = positive_key(counts, variable);
    let place = row.partition_point(|l| key_of(counts, *l) < key);
    if place < row.len() && row[place].variable() == variable {
        Some(place)
    } else {
        None
    }
}

/// The lower of two places, where there is a first.
fn lower(least: Option<usize>, place: usize) -> Option<usize> {
    match least {
        Some(least) => Some(least.min(place)),
        None => Some(place),
    }
}

/// The first place in a row at which a member of a set stands.
fn place_of_member(counts: &[u32], row: &[Lit], trues: &VariableSet) -> Option<usize> {
    let mut least = None;
    for variable in trues.members() {
        if let Some(place) = place_of(counts, row, *variable) {
            least = lower(least, place);
        }
    }
    least
}

impl Rows {
    /// Those of no clauses. It takes no memory.
    pub(crate) fn empty(alloc: Global) -> Rows {
        Rows {
            rows: Flat::new(alloc),
            counts: Vec::new(alloc),
            fronts: Vec::new(alloc),
            jumps: Vec::new(alloc),
        }
    }

    /// Rows in the order of denials.
    pub(crate) fn new(
        alloc: Global,
        rows: Flat<Lit>,
        counts: Vec<u32>,
        pairs: &[(u32, u32)],
    ) -> Result<Rows, AllocError>
        ensures { IfOk result (λ made. (made.rows ≡ rows) × AreFrontsOf rows pairs.now made.fronts) }
    {
        let fronts = fronts_of(alloc, &rows, pairs)?;
        let jumps = jumps_of(alloc, &fronts)?;
        Ok(Rows {
            rows,
            counts,
            fronts,
            jumps,
        })
    }

    /// Whether a row says more than its clause: the next one shares an alternative with it, or the clause is long.
    fn is_worth_a_look(&self, place: usize, literals: usize, trues: &VariableSet) -> bool {
        match self.fronts.get(place.saturating_add(1)) {
            Some(front) if *front > 1 => true,
            _ => literals > trues.len().saturating_mul(STEPS),
        }
    }

    /// A place in the row of a clause of so many literals, whose denial is at a place, at which a literal is true where exactly
    /// the members of a set are. What the row shares with the one before it is taken to be false.
    pub(crate) fn true_place(
        &self,
        number: u32,
        literals: usize,
        place: usize,
        trues: &VariableSet,
    ) -> Option<usize>
        requires { All (λ l. l.variable ≤ trues.now.variables) (clause_at self.now.rows number) }
        ensures { (value : ℕ → Bool) → GivesTrue value trues.now.members → IfSome result (λ p.
            (p < length (clause_at self.now.rows number))
            × IsTrueLiteral value (slice_index_or (clause_at self.now.rows number) p (literal 0 false))) }
    {
        if !self.is_worth_a_look(place, literals, trues) {
            return None;
        }
        let row = row_at(&self.rows, number);
        let found = self.guess(row, place, trues)?;
        if found < row.len() && trues.makes_true(row[found]) {
            Some(found)
        } else {
            None
        }
    }

    /// A guess at it: a row that is longer than what the members of the set cost is searched by these.
    fn guess(&self, row: &[Lit], place: usize, trues: &VariableSet) -> Option<usize>
        requires { All (λ l. l.variable ≤ trues.now.variables) row.now }
    {
        let first = match self.fronts.get(place) {
            Some(front) => *front as usize,
            None => 0,
        };
        let last = trues.len().saturating_mul(STEPS).saturating_add(first);
        match walk_row(row, first, last, trues) {
            Some(found) => Some(found),
            None if last < row.len() => place_of_member(&self.counts, row, trues),
            None => None,
        }
    }

    /// A place behind one so that all rows up to it have the literal that the row there has at `shared`.
    pub(crate) fn behind(&self, place: usize, shared: usize) -> usize
        requires { place + 1 < 2 ^ 64 }
        ensures later { place < result }
        ensures alike { (i : ℕ) → place < i → i < result → shared < slice_index self.now.fronts i }
    {
        if place >= self.fronts.len() || shared >= u32::MAX as usize {
            return place + 1;
        }
        place_behind(&self.fronts, &self.jumps, place, shared as u32 + 1)
    }
}
