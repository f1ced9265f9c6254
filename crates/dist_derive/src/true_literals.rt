//! Literals that are true for now, and what clauses are under them.

ghost use Rattle.std.specs.Prelude.{◌≡◌, ◌≢◌, ◌-◌, ◌<◌, ◌≤◌, ◌↔◌, false, [], ◌∷◌, ◌++◌, List, length, map, take, All, Contains, IfOk, IfSome, IfNone, IsTrue, slice_index_or};
ghost use Rattle.dist_clause.specs.Formula.{Literal, negation, IsClauseOver};
ghost use Rattle.dist_derive.specs.Propagation.{IsFalse, IsUnset, AllFalse, OthersFalse, IsConsistent};
ghost use Rattle.dist_derive.specs.AssumePrivate.{Assumes, AssumesAll};
ghost use Rattle.dist_derive.specs.ContainmentPrivate.{ContainsAll};

use crate::occurrences::code_of;
use dist_base::MAX_VARIABLES;
use dist_clause::Lit;
use std::alloc::{AllocError, Global};
use std::marker::Model;

/// What a literal is under the true ones.
#[derive(Clone, Copy)]
pub enum Truth {
    True,
    False,
    Unset,
}

/// What a clause is under the true literals.
#[derive(Clone, Copy)]
pub enum Outcome {
    /// All its literals are false.
    Conflict,
    /// All its literals but this one are false, and this one is unset.
    Unit(Lit),
    Open,
}

/// Literals that are true for now, never a literal together with its negation.
#[derive(Drop)]
pub struct TrueLiterals {
    variables: u32,
    literals: Vec<Lit>,
    /// By the code of a literal: whether it is false.
    falses: Vec<bool>,
}

impl Model for TrueLiterals {
    ghost use Rattle.std.specs.Vec.{vec_capacity};
    ghost use Rattle.dist_derive.specs.TrueLiterals.{LiteralList, AreFalses};

    ghost Value = { LiteralList };

    ghost view = { λ a. record { variables = a.variables; literals = a.literals.items } };

    ghost invariant = { λ a. AreFalses a.variables a.literals.items a.falses.items (vec_capacity a.literals) };
}

impl TrueLiterals {
    ghost use Rattle.dist_derive.specs.TrueLiterals.{HasTruth, HasOutcome};

    /// No literal is true.
    pub fn new(alloc: Global, variables: u32) -> Result<TrueLiterals, AllocError>
        ensures { IfOk result (λ t. t ≡ record { variables = variables; literals = [] }) }
    {
        let literals = Vec::with_capacity(alloc, variables as usize)?;
        let mut falses = Vec::new(alloc);
        falses.resize(2 * variables as usize + 2, false)?;
        Ok(TrueLiterals {
            variables,
            literals,
            falses,
        })
    }

    /// No literal, over no variables. It takes no memory.
    pub(crate) fn empty(alloc: Global) -> TrueLiterals
        ensures { result ≡ record { variables = 0; literals = [] } }
    {
        TrueLiterals {
            variables: 0,
            literals: Vec::new(alloc),
            falses: Vec::new(alloc),
        }
    }

    /// What a literal is under the true ones.
    pub fn status(&self, literal: Lit) -> Truth
        requires { literal.variable ≤ self.now.variables }
        ensures { HasTruth self.now.literals literal result }
    {
        self.keeps_invariant();
        if self.is_false(literal) {
            Truth::False
        } else if self.is_false(literal.negated()) {
            Truth::True
        } else {
            Truth::Unset
        }
    }

    /// Whether a literal is true.
    pub fn is_true(&self, literal: Lit) -> bool
        requires { literal.variable ≤ self.now.variables }
        ensures { IsTrue result → Contains self.now.literals literal }
    {
        self.is_false(literal.negated())
    }

    /// Whether all literals are true.
    pub(crate) fn are_true(&self, literals: &[Lit]) -> bool
        requires { All (λ l. l.variable ≤ self.now.variables) literals.now }
        ensures { IsTrue result → ContainsAll self.now.literals literals.now }
    {
        for literal in literals {
            if !self.is_true(*literal) {
                return false;
            }
        }
        true
    }

    /// Whether a literal is false.
    fn is_false(&self, literal: Lit) -> bool
        requires { literal.variable ≤ self.now.variables }
        ensures { IsTrue result ↔ IsFalse self.now.literals literal }
    {
        self.falses[code_of(literal) as usize]
    }

    /// A literal of a clause that is not false: this one, if it isn't.
    pub fn free(&self, clause: &[Lit], first: Lit) -> Option<Lit>
        requires clause { IsClauseOver self.now.variables clause.now }
        requires member { Contains clause.now first }
        ensures some { IfSome result (λ l. Contains clause.now l × (¬ IsFalse self.now.literals l)) }
        ensures none { IfNone result (AllFalse self.now.literals clause.now) }
    {
        if self.is_false(first) {
            self.other_free(clause, first)
        } else {
            Some(first)
        }
    }

    /// A literal of a clause that is not false, other than this one.
    pub(crate) fn other_free(&self, clause: &[Lit], one: Lit) -> Option<Lit>
        requires { IsClauseOver self.now.variables clause.now }
        ensures some { IfSome result (λ l. Contains clause.now l × (one ≢ l) × (¬ IsFalse self.now.literals l)) }
        ensures none { IfNone result (OthersFalse self.now.literals clause.now one) }
    {
        match self.free_in(clause, one, 0) {
            Some(found) => Some(found.1),
            None => None,
        }
    }

    /// The same, looked for from a place on, and before it then. With its place, where the next look can begin.
    pub fn free_from(&self, clause: &[Lit], one: Lit, start: usize) -> Option<(usize, Lit)>
        requires { IsClauseOver self.now.variables clause.now }
        ensures some { IfSome result (λ found. Contains clause.now found.1 × (one ≢ found.1) × (¬ IsFalse self.now.literals found.1)) }
        ensures none { IfNone result (OthersFalse self.now.literals clause.now one) }
    {
        let middle = start.min(clause.len());
        match self.free_in(&clause[middle..], one, middle) {
            Some(found) => Some(found),
            None => self.free_in(&clause[..middle], one, 0),
        }
    }

    /// A literal of some that is not false, other than this one, with its place, where theirs begin with this one.
    fn free_in(&self, literals: &[Lit], one: Lit, first: usize) -> Option<(usize, Lit)>
        requires { All (λ l. l.variable ≤ self.now.variables) literals.now }
        ensures some { IfSome result (λ found. Contains literals.now found.1 × (one ≢ found.1) × (¬ IsFalse self.now.literals found.1)) }
        ensures none { IfNone result (OthersFalse self.now.literals literals.now one) }
    {
        for place in 0..literals.len() {
            let literal = literals[place];
            if self.is_other_free(literal, one) {
                return Some((first.saturating_add(place), literal));
            }
        }
        None
    }

    /// Whether a literal is not false, and not this one.
    fn is_other_free(&self, literal: Lit, one: Lit) -> bool
        requires { literal.variable ≤ self.now.variables }
        ensures yes { IsTrue result → (one ≢ literal) × (¬ IsFalse self.now.literals literal) }
        ensures no { result ≡ false → literal ≢ one → IsFalse self.now.literals literal }
    {
        if one == literal {
            return false;
        }
        !self.is_false(literal)
    }

    /// How many literals are true.
    pub fn len(&self) -> usize
        ensures value { result ≡ length self.now.literals }
        ensures few { result ≤ self.now.variables }
        ensures over_variables { IsClauseOver self.now.variables self.now.literals }
        ensures stated { result ≤ MAX_VARIABLES }
    {
        self.literals.len()
    }

    /// The literal at a place, from 0 on, in the order in which they became true.
    pub fn get(&self, place: usize) -> Lit
        requires { place < length self.now.literals }
        ensures { result ≡ slice_index_or self.now.literals place result }
    {
        self.literals[place]
    }

    /// Makes an unset literal true.
    pub fn make_true(&mut self, literal: Lit)
        requires in_range { literal.variable ≤ self.old.variables }
        requires unset { IsUnset self.old.literals literal }
        ensures added { self.new ≡ record self.old { literals = self.old.literals ++ literal ∷ [] } }
        ensures few { length self.new.literals ≤ self.new.variables }
    {
        self.literals.push_reserved(literal);
        self.falses[code_of(literal.negated()) as usize] = true;
    }

    /// Makes the negation of each literal of a clause true, where no literal is true before.
    pub(crate) fn deny(&mut self, clause: &[Lit])
        requires none { self.old.literals ≡ [] }
        requires clause { IsClauseOver self.old.variables clause.now }
        ensures { self.new ≡ record self.old { literals = map negation clause.now } }
    {
        for literal in clause {
            self.make_true(literal.negated());
        }
    }

    /// Makes a literal true, unless it is false; answers whether it is true then.
    pub(crate) fn assume(&mut self, literal: Lit) -> bool
        requires { literal.variable ≤ self.old.variables }
        ensures { Assumes self.old self.new literal result }
    {
        match self.status(literal) {
            Truth::True => true,
            Truth::False => false,
            Truth::Unset => {
                self.make_true(literal);
                true
            }
        }
    }

    /// Makes literals true, up to one that is false; answers whether all are true then.
    pub(crate) fn assume_all(&mut self, literals: &[Lit]) -> bool
        requires { All (λ l. l.variable ≤ self.old.variables) literals.now }
        ensures { AssumesAll self.old self.new literals.now result }
    {
        for literal in literals {
            if !self.assume(*literal) {
                return false;
            }
        }
        true
    }

    /// Makes the literals of a clause false, up to one that is true; answers whether all are false then.
    pub(crate) fn deny_all(&mut self, clause: &[Lit]) -> bool
        requires { All (λ l. l.variable ≤ self.old.variables) clause.now }
        ensures { AssumesAll self.old self.new (map negation clause.now) result }
    {
        for literal in clause {
            if !self.assume(literal.negated()) {
                return false;
            }
        }
        true
    }

    /// Whether neither a literal nor its negation is true.
    pub fn is_unset(&self, literal: Lit) -> bool
        requires { literal.variable ≤ self.now.variables }
        ensures answer { IsTrue result ↔ IsUnset self.now.literals literal }
        ensures consistent { IsConsistent self.now.literals }
    {
        self.keeps_invariant();
        !self.is_false(literal) && !self.is_false(literal.negated())
    }

    /// No literal is true together with its negation. Does nothing.
    fn keeps_invariant(&self)
        ensures { IsConsistent self.now.literals }
    {
        self.literals.len();
    }

    /// What a clause is under the true literals.
    pub fn outcome(&self, clause: &[Lit]) -> Outcome
        requires { IsClauseOver self.now.variables clause.now }
        ensures { HasOutcome self.now.literals clause.now result }
    {
        let mut outcome = Outcome::Conflict;
        for literal in clause {
            outcome = outcome.with(*literal, self.status(*literal));
            if let Outcome::Open = outcome {
                return Outcome::Open;
            }
        }
        outcome
    }

    /// Makes the literals from a place on unset.
    pub fn truncate(&mut self, len: usize)
        ensures { self.new ≡ record self.old { literals = take len self.old.literals } }
    {
        while self.literals.len() > len {
            self.pop();
        }
    }

    /// Makes the last true literal unset, where there is one.
    fn pop(&mut self)
        ensures { self.new ≡ record self.old { literals = take (length self.old.literals - 1) self.old.literals } }
    {
        let Some(literal) = self.literals.pop() else {
            return;
        };
        self.falses[code_of(literal.negated()) as usize] = false;
    }

    /// Makes all literals unset.
    pub fn clear(&mut self)
        ensures { self.new ≡ record self.old { literals = [] } }
    {
        self.truncate(0);
    }
}

impl Outcome {
    ghost use Rattle.dist_derive.specs.TrueLiterals.{HasTruth, HasOutcome};

    /// What a clause is with one more literal, of a variable that the clause has not.
    pub(crate) fn with(self, literal: Lit, status: Truth) -> Outcome
        ensures { (trues clause : List Literal) → All (λ m. m.variable ≢ literal.variable) clause
            → HasOutcome trues clause self → HasTruth trues literal status → HasOutcome trues (clause ++ literal ∷ []) result }
    {
        match self {
            Outcome::Conflict => match status {
                Truth::False => Outcome::Conflict,
                Truth::Unset => Outcome::Unit(literal),
                Truth::True => Outcome::Open,
            },
            Outcome::Unit(only) => match status {
                Truth::False => Outcome::Unit(only),
                Truth::Unset | Truth::True => Outcome::Open,
            },
            Outcome::Open => Outcome::Open,
        }
    }
}
