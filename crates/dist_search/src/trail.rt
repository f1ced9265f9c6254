//! The trail: literals that are true for now, in the order in which they became true.
//!
//! For each stand there the clause that gave it and its place, and where each decision stands. There is room for all variables, so
//! that nothing here takes memory once the trail is made; taking literals back costs what is taken back.

ghost use Rattle.std.specs.Prelude.{◌≡◌, ◌<◌, ◌≤◌, ◌+◌, ◌⊎◌, ℕ, true, false, [], ◌∷◌, ◌++◌, length, take, Contains, IfOk, IfSome, IfNone, slice_index};
ghost use Rattle.dist_clause.specs.Formula.{literal};
ghost use Rattle.dist_derive.specs.Propagation.{IsUnset, IsConsistent};
ghost use Rattle.dist_search.specs.Trail.{literal_at, IsOrdered};

use dist_base::MAX_VARIABLES;
use dist_clause::Lit;
use dist_derive::TrueLiterals;
use std::alloc::{AllocError, Global};
use std::marker::Model;

/// True literals: assumptions, and behind them decisions and what clauses gave.
#[derive(Drop)]
pub(crate) struct Trail {
    trues: TrueLiterals,
    /// For each true literal the number of the clause that gave it, 0 for an assumption or a decision.
    reasons: Vec<u32>,
    /// For each variable that has a value the place of its literal.
    places: Vec<u32>,
    /// The places of the decisions.
    starts: Vec<u32>,
    /// How many literals propagation has taken.
    head: u32,
}

impl Model for Trail {
    ghost use Rattle.std.specs.Vec.{vec_capacity};
    ghost use Rattle.dist_search.specs.Trail.{TrailState};
    ghost use Rattle.dist_search.specs.TrailPrivate.{IsTrailKept};

    ghost Value = { TrailState };

    ghost view = { λ a. record {
      variables = a.trues.variables;
      literals = a.trues.literals;
      reasons = a.reasons.items;
      starts = a.starts.items;
      head = a.head;
    } };

    ghost invariant = { λ a. IsTrailKept a.trues a.reasons.items a.places.items a.starts.items a.head
        (vec_capacity a.reasons) (vec_capacity a.starts) };
}

impl Trail {
    /// An empty trail, with room for so many variables.
    pub(crate) fn new(alloc: Global, variables: u32) -> Result<Trail, AllocError>
        requires { variables ≤ MAX_VARIABLES }
        ensures { IfOk result (λ t. t ≡ record { variables = variables; literals = []; reasons = []; starts = []; head = 0 }) }
    {
        let trues = TrueLiterals::new(alloc, variables)?;
        let reasons = Vec::with_capacity(alloc, variables as usize)?;
        let starts = Vec::with_capacity(alloc, variables as usize)?;
        let mut places = Vec::new(alloc);
        places.resize(variables as usize + 1, 0)?;
        Ok(Trail {
            trues,
            reasons,
            places,
            starts,
            head: 0,
        })
    }

    /// The literals are of different variables, and decisions stand in their order. Does nothing.
    pub(crate) fn keeps_invariant(&self)
        ensures ordered { IsOrdered self.now }
        ensures consistent { IsConsistent self.now.literals }
        ensures stated { self.now.variables ≤ MAX_VARIABLES }
        ensures few { length self.now.literals ≤ self.now.variables }
    {
        self.trues.len();
    }

    /// How many variables there are.
    pub(crate) fn variables(&self) -> u32
        ensures { result ≡ self.now.variables }
    {
        self.places.len() as u32 - 1
    }

    /// The true literals.
    pub(crate) fn trues(&self) -> &TrueLiterals
        ensures { result.now ≡ record { variables = self.now.variables; literals = self.now.literals } }
    {
        &self.trues
    }

    /// How many literals are true.
    pub(crate) fn len(&self) -> u32
        ensures value { result ≡ length self.now.literals }
        ensures few { result ≤ self.now.variables }
    {
        self.trues.len() as u32
    }

    /// The literal at a place, from 0 on.
    pub(crate) fn get(&self, place: u32) -> Lit
        requires { place < length self.now.literals }
        ensures { result ≡ literal_at self.now.literals place }
    {
        self.trues.get(place as usize)
    }

    /// The number of the clause that gave the literal at a place, 0 for an assumption or a decision.
    pub(crate) fn reason(&self, place: u32) -> u32
        requires { place < length self.now.literals }
        ensures { result ≡ slice_index self.now.reasons place }
    {
        self.reasons[place as usize]
    }

    /// The place of the literal of a variable that has a value.
    pub(crate) fn place(&self, variable: u32) -> u32
        requires { Contains self.now.literals (literal variable true) ⊎ Contains self.now.literals (literal variable false) }
        ensures within { result < length self.now.literals }
        ensures place { (literal_at self.now.literals result).variable ≡ variable }
    {
        self.keeps_invariant();
        self.places[variable as usize]
    }

    /// How many decisions stand.
    pub(crate) fn levels(&self) -> u32
        ensures value { result ≡ length self.now.starts }
        ensures few { result ≤ self.now.variables }
    {
        self.starts.len() as u32
    }

    /// The place of a decision, the first of which has the number 0.
    pub(crate) fn start(&self, level: u32) -> u32
        requires { level < length self.now.starts }
        ensures value { result ≡ slice_index self.now.starts level }
        ensures within { result < length self.now.literals }
    {
        self.starts[level as usize]
    }

    /// How many decisions stand at a place or before it. It costs the decisions behind.
    pub(crate) fn levels_to(&self, place: u32) -> u32
        ensures to { result ≤ length self.now.starts }
        ensures before { (k : ℕ) → k < result → slice_index self.now.starts k ≤ place }
        ensures behind { (k : ℕ) → result ≤ k → k < length self.now.starts → place < slice_index self.now.starts k }
    {
        self.keeps_invariant();
        let mut levels = self.levels();
        while levels > 0 && self.start(levels - 1) > place {
            levels -= 1;
        }
        levels
    }

    /// The next true literal that propagation has not taken, which is taken now.
    pub(crate) fn take_next(&mut self) -> Option<Lit>
        ensures some { IfSome result (λ l. (self.old.head < length self.old.literals) × (l ≡ literal_at self.old.literals self.old.head)
            × (self.new ≡ record self.old { head = self.old.head + 1 })) }
        ensures none { IfNone result ((self.old.head ≡ length self.old.literals) × (self.new ≡ self.old)) }
    {
        if self.head >= self.len() {
            return None;
        }
        let literal = self.get(self.head);
        self.head += 1;
        Some(literal)
    }

    /// Makes an unset literal true, which a clause of a number gives, or which is assumed.
    pub(crate) fn push(&mut self, literal: Lit, reason: u32)
        requires in_range { literal.variable ≤ self.old.variables }
        requires unset { IsUnset self.old.literals literal }
        ensures { self.new ≡ record self.old {
          literals = self.old.literals ++ literal ∷ [];
          reasons = self.old.reasons ++ reason ∷ [];
        } }
    {
        let place = self.len();
        self.trues.make_true(literal);
        self.reasons.push_reserved(reason);
        self.places[literal.variable() as usize] = place;
    }

    /// Makes an unset literal true by a decision. All that was true before is taken.
    pub(crate) fn decide(&mut self, literal: Lit)
        requires in_range { literal.variable ≤ self.old.variables }
        requires unset { IsUnset self.old.literals literal }
        requires taken { self.old.head ≡ length self.old.literals }
        ensures { self.new ≡ record self.old {
          literals = self.old.literals ++ literal ∷ [];
          reasons = self.old.reasons ++ 0 ∷ [];
          starts = self.old.starts ++ length self.old.literals ∷ [];
        } }
    {
        self.keeps_invariant();
        let place = self.len();
        self.push(literal, 0);
        self.starts.push_reserved(place);
    }

    /// Takes back what became true with a decision and behind it.
    pub(crate) fn back_to(&mut self, level: u32)
        requires { level < length self.old.starts }
        ensures { self.new ≡ record self.old {
          literals = take (slice_index self.old.starts level) self.old.literals;
          reasons = take (slice_index self.old.starts level) self.old.reasons;
          starts = take level self.old.starts;
          head = slice_index self.old.starts level;
        } }
    {
        let start = self.start(level);
        self.trues.truncate(start as usize);
        self.reasons.truncate(start as usize);
        self.starts.truncate(level as usize);
        self.head = start;
    }

    /// Takes all literals back.
    pub(crate) fn clear(&mut self)
        ensures { self.new ≡ record self.old { literals = []; reasons = []; starts = []; head = 0 } }
    {
        self.trues.clear();
        self.reasons.clear();
        self.starts.clear();
        self.head = 0;
    }
}
