//! Clauses by two literals of each.
//!
//! A clause in which neither of two different literals is false is neither false nor unit. So it is enough to look at a
//! clause when one of its two becomes false, and another literal takes that one's place then. Literals that become unset
//! again leave all that as it is.

ghost use Rattle.std.specs.Prelude.{◌≡◌, ◌≢◌, ◌+◌, ◌<◌, ◌≤◌, ◌^◌, ℕ, false, List, [], ◌∷◌, ◌++◌, length, IfOk, IfSome, IfNone, IsTrue, OnOk, Contains, slice_index, slice_index_or};
ghost use Rattle.std.specs.List.{swap_remove};
ghost use Rattle.dist_clause.specs.Formula.{Literal};
ghost use Rattle.dist_clause.specs.ClauseList.{clause_at};
ghost use Rattle.dist_derive.specs.Watches.{no_entry, numbers_in, entries_of, list_of, pair_of, AreWatchesOf, IsPairKept, Lists, HasOther, HasNot, Pends};

use crate::occurrences::code_of;
use dist_clause::Lit;
use std::alloc::{AllocError, Global};
use std::marker::Model;

/// Numbers of clauses, each with a literal of its clause, the blocker: while that is true, the clause need not be read.
#[derive(Drop)]
struct Entries {
    entries: Vec<(u32, Lit)>,
}

impl Model for Entries {
    ghost use Rattle.std.specs.Prelude.{ℕ, List};
    ghost use Rattle.dist_clause.specs.Formula.{Literal};

    ghost Value = { List (ℕ × Literal) };

    ghost view = { λ a. a.entries.items };
}

impl Entries {
    fn new(alloc: Global) -> Entries
        ensures { result ≡ [] }
    {
        Entries {
            entries: Vec::new(alloc),
        }
    }

    fn add(&mut self, number: u32, blocker: Lit) -> Result<(), AllocError>
        ensures { OnOk result (self.new ≡ self.old ++ (number, blocker) ∷ []) }
    {
        self.entries.push((number, blocker))?;
        Ok(())
    }

    fn get(&self, place: usize) -> Option<u32>
        ensures some { IfSome result (λ number. (place < length (numbers_in self.now)) × (number ≡ slice_index (numbers_in self.now) place)) }
        ensures none { IfNone result (length (numbers_in self.now) ≤ place) }
    {
        match self.entries.get(place) {
            Some(entry) => Some(entry.0),
            None => None,
        }
    }

    fn blocker(&self, place: usize) -> Lit
        requires { place < length self.now }
        ensures { result ≡ (slice_index_or self.now place no_entry).1 }
    {
        self.entries[place].1
    }

    /// The last one takes the place of the one that is taken out.
    fn take_out(&mut self, place: usize)
        requires { place < length self.old }
        ensures { self.new ≡ swap_remove self.old place no_entry }
    {
        let _ = self.entries.swap_remove(place);
    }
}

/// For each literal the clauses that are found by it, and for each clause its two literals.
#[derive(Drop)]
pub struct Watches {
    /// By the code of the literal. A number may stand in a list though its clause is found by other literals now.
    lists: Vec<Entries>,
    /// By the number of the clause, from 1 on. Two equal literals: the clause isn't watched.
    pairs: Vec<(Lit, Lit)>,
    /// By the number too: where a literal that is not false was found last in the clause.
    places: Vec<u32>,
}

impl Model for Watches {
    ghost use Rattle.dist_derive.specs.Watches.{WatchLists};

    ghost Value = { WatchLists };

    ghost view = { λ a. record { lists = a.lists.items; pairs = a.pairs.items } };
}

impl Watches {
    /// No lists. It takes no memory.
    pub(crate) fn empty(alloc: Global) -> Watches
        ensures { result ≡ record { lists = []; pairs = [] } }
    {
        Watches {
            lists: Vec::new(alloc),
            pairs: Vec::new(alloc),
            places: Vec::new(alloc),
        }
    }

    /// An empty list for each literal.
    pub fn make(alloc: Global, variables: u32) -> Result<Watches, AllocError>
        ensures { IfOk result (λ watches. (clauses : List (List Literal)) → AreWatchesOf watches clauses) }
    {
        let mut lists = Vec::new(alloc);
        for _code in 0..2 * variables as usize + 2 {
            lists.push(Entries::new(alloc))?;
        }
        Ok(Watches {
            lists,
            pairs: Vec::new(alloc),
            places: Vec::new(alloc),
        })
    }

    /// How many numbers a literal's list has.
    fn count(&self, literal: Lit) -> usize
        ensures { result ≡ length (list_of self.now literal) }
    {
        match self.lists.get(code_of(literal) as usize) {
            Some(list) => list.entries.len(),
            None => 0,
        }
    }

    /// A literal's list has fewer numbers than 64 bits can count. Does nothing.
    fn list_is_short(&self, literal: Lit)
        ensures { length (list_of self.now literal) < 2 ^ 64 }
    {
        self.count(literal);
    }

    /// The number at a place in a literal's list.
    pub fn number_at(&self, literal: Lit, place: usize) -> Option<u32>
        ensures some { IfSome result (λ number. (place < length (list_of self.now literal))
            × (number ≡ slice_index (list_of self.now literal) place)) }
        ensures none { IfNone result (length (list_of self.now literal) ≤ place) }
    {
        match self.lists.get(code_of(literal) as usize) {
            Some(list) => list.get(place),
            None => None,
        }
    }

    /// A literal of the clause whose number stands at a place in a literal's list.
    pub fn blocker(&self, literal: Lit, place: usize) -> Lit
        requires { place < length (list_of self.now literal) }
        ensures value { (clauses : List (List Literal)) → AreWatchesOf self.now clauses
            → Contains (clause_at clauses (slice_index (list_of self.now literal) place)) result }
        ensures short { length (list_of self.now literal) < 2 ^ 64 }
    {
        self.list_is_short(literal);
        let code = code_of(literal) as usize;
        self.lists[code].blocker(place)
    }

    /// The other one of a clause's two literals, where one is this.
    pub fn other(&self, number: u32, literal: Lit) -> Option<Lit>
        ensures some { IfSome result (λ other. HasOther (pair_of self.now number) literal other) }
        ensures none { IfNone result (HasNot (pair_of self.now number) literal) }
    {
        match self.pairs.get((number as usize).saturating_sub(1)) {
            Some(pair) => other_of(pair.0, pair.1, literal),
            None => None,
        }
    }

    /// Whether one of a clause's two literals is this.
    fn is_by(&self, number: u32, literal: Lit) -> bool
        ensures yes { IsTrue result → (other : Literal) × HasOther (pair_of self.now number) literal other }
        ensures no { result ≡ false → HasNot (pair_of self.now number) literal }
    {
        match self.other(number, literal) {
            Some(_) => true,
            None => false,
        }
    }

    /// Finds a clause by two different literals from now on.
    pub fn watch(&mut self, number: u32, one: Lit, other: Lit) -> Result<(), AllocError>
        requires from_one { 1 ≤ number }
        requires apart { one ≢ other }
        ensures pair { OnOk result (pair_of self.new number ≡ (one, other)) }
        ensures other_pairs { OnOk result ((n : ℕ) → 1 ≤ n → n ≢ number → IsPairKept self.old.pairs self.new.pairs n) }
        ensures other_lists { OnOk result ((l : Literal) → l ≢ one → l ≢ other
            → list_of self.new l ≡ list_of self.old l) }
        ensures watches { OnOk result ((clauses : List (List Literal)) → Contains (clause_at clauses number) one
            → Contains (clause_at clauses number) other → AreWatchesOf self.old clauses → AreWatchesOf self.new clauses) }
    {
        self.list(one, number, other)?;
        self.list(other, number, one)?;
        self.set_pair(number, one, other)
    }

    /// Finds a clause by another literal from now on, in the place of the one that was found with this.
    pub fn move_to(&mut self, number: u32, one: Lit, other: Lit) -> Result<(), AllocError>
        requires from_one { 1 ≤ number }
        requires apart { one ≢ other }
        requires found { (l : Literal) × HasOther (pair_of self.old number) one l }
        ensures pair { OnOk result (pair_of self.new number ≡ (one, other)) }
        ensures other_pairs { OnOk result ((n : ℕ) → 1 ≤ n → n ≢ number → IsPairKept self.old.pairs self.new.pairs n) }
        ensures other_lists { OnOk result ((l : Literal) → l ≢ other → list_of self.new l ≡ list_of self.old l) }
        ensures watches { OnOk result ((clauses : List (List Literal)) → Contains (clause_at clauses number) one
            → Contains (clause_at clauses number) other → AreWatchesOf self.old clauses → AreWatchesOf self.new clauses) }
    {
        self.put(other, number, one)?;
        self.set_pair(number, one, other)
    }

    /// Puts a clause into a literal's list, unless it is found by this literal.
    fn list(&mut self, literal: Lit, number: u32, blocker: Lit) -> Result<(), AllocError>
        requires from_one { 1 ≤ number }
        ensures { OnOk result (Lists self.old self.new literal number blocker) }
    {
        if self.is_by(number, literal) {
            Ok(())
        } else {
            self.put(literal, number, blocker)
        }
    }

    /// Puts a clause into a literal's list. Where there is none, it is want of memory too.
    fn put(&mut self, literal: Lit, number: u32, blocker: Lit) -> Result<(), AllocError>
        ensures same_pairs { OnOk result (self.new.pairs ≡ self.old.pairs) }
        ensures other_lists { OnOk result ((l : Literal) → l ≢ literal → entries_of self.new l ≡ entries_of self.old l) }
        ensures list { OnOk result (entries_of self.new literal ≡ entries_of self.old literal ++ (number, blocker) ∷ []) }
    {
        let code = code_of(literal) as usize;
        if code >= self.lists.len() {
            return Err(AllocError);
        }
        self.lists[code].add(number, blocker)
    }

    /// Where to begin to look for a literal of a clause that is not false: where one was found last. Of long clauses the literals
    /// before it are mostly false still.
    pub fn place(&self, number: u32) -> usize {
        match self.places.get((number as usize).saturating_sub(1)) {
            Some(place) => *place as usize,
            None => 0,
        }
    }

    /// Notes where such a literal was found. Where memory is wanting, the next look begins elsewhere.
    pub fn note_place(&mut self, number: u32, place: usize)
        ensures { self.new ≡ self.old }
    {
        let Ok(noted) = u32::try_from(place) else {
            return;
        };
        let index = (number as usize).saturating_sub(1);
        while self.places.len() <= index {
            if self.places.push(0).is_err() {
                return;
            }
        }
        self.places[index] = noted;
    }

    /// Sets the two literals of a clause.
    fn set_pair(&mut self, number: u32, one: Lit, other: Lit) -> Result<(), AllocError>
        requires from_one { 1 ≤ number }
        ensures same_lists { self.new.lists ≡ self.old.lists }
        ensures pair { OnOk result (pair_of self.new number ≡ (one, other)) }
        ensures other_pairs { OnOk result ((n : ℕ) → 1 ≤ n → n ≢ number → IsPairKept self.old.pairs self.new.pairs n) }
    {
        let place = number as usize - 1;
        while self.pairs.len() <= place {
            self.pairs.push((one, one))?;
        }
        self.pairs[place] = (one, other);
        Ok(())
    }

    /// The next place in a literal's list. A clause that isn't found by this literal any more is taken out, and the last one
    /// of the list comes to its place.
    pub fn pass(&mut self, literal: Lit, place: usize, number: u32) -> usize
        requires within { place < length (list_of self.old literal) }
        requires number { number ≡ slice_index (list_of self.old literal) place }
        ensures same_pairs { self.new.pairs ≡ self.old.pairs }
        ensures watches { (clauses : List (List Literal)) → AreWatchesOf self.old clauses → AreWatchesOf self.new clauses }
        ensures left { length (list_of self.new literal) + place < length (list_of self.old literal) + result }
        ensures up_to { result ≤ length (list_of self.new literal) }
        ensures pending { (n : ℕ) → n ≢ number → Pends self.old literal place n → Pends self.new literal result n }
    {
        if self.is_by(number, literal) {
            self.list_is_short(literal);
            place + 1
        } else {
            self.take_out(literal, place);
            place
        }
    }

    /// Takes the number at a place out of a literal's list.
    fn take_out(&mut self, literal: Lit, place: usize)
        requires within { place < length (list_of self.old literal) }
        ensures same_pairs { self.new.pairs ≡ self.old.pairs }
        ensures other_lists { (l : Literal) → l ≢ literal → entries_of self.new l ≡ entries_of self.old l }
        ensures list { entries_of self.new literal ≡ swap_remove (entries_of self.old literal) place no_entry }
    {
        let code = code_of(literal) as usize;
        self.lists[code].take_out(place);
    }
}

/// The other one of two literals, where one is this and they differ.
fn other_of(one: Lit, two: Lit, literal: Lit) -> Option<Lit>
    ensures some { IfSome result (λ other. HasOther (one, two) literal other) }
    ensures none { IfNone result (HasNot (one, two) literal) }
{
    if one == two {
        None
    } else if one == literal {
        Some(two)
    } else if two == literal {
        Some(one)
    } else {
        None
    }
}
