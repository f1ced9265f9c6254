//! Literals, each in one word.

ghost use Rattle.std.specs.Prelude.{◌≡◌, ◌≤◌};
ghost use Rattle.dist_clause.specs.Formula.{literal, negation};

use dist_base::MAX_VARIABLES;
use std::marker::Model;

/// A variable or its negation, kept in 32 bits.
#[derive(Clone, Copy, Debug, PartialEq, Eq)]
pub struct Lit {
    /// Twice the variable, and one more where the literal is positive.
    word: u32,
}

impl Model for Lit {
    ghost use Rattle.std.specs.Prelude.{◌==◌, ◌+◌, ◌*◌, ◌/◌, ◌%◌, ◌≤◌, if◌then◌else◌};
    ghost use Rattle.dist_clause.specs.Formula.{Literal, literal};
    ghost use Rattle.dist_base.specs.declared.TheConstants.{MAX_VARIABLES};

    ghost Value = { Literal };

    ghost view = { λ a. literal (a.word / 2) (a.word % 2 == 1) };

    ghost invariant = { λ a. (2 ≤ a.word) × (a.word ≤ 2 * MAX_VARIABLES + 1) };

    ghost inverse = { λ l. record { word = 2 * l.variable + (if l.positive then 1 else 0) } };

    ghost use Rattle.std.proofs.Common.{ap};
    ghost use Rattle.dist_clause.specs.WordsPrivate.{word-of_parts};

    ghost inverse_ok = { λ a h. ap (λ w. record { word = w }) (word-of_parts a.word) };
}

impl Lit {
    pub fn new(variable: u32, positive: bool) -> Lit
        requires from_one { 1 ≤ variable }
        requires to_limit { variable ≤ MAX_VARIABLES }
        ensures { result ≡ literal variable positive }
    {
        Lit {
            word: 2 * variable + u32::from(positive),
        }
    }

    pub fn variable(&self) -> u32
        ensures value { result ≡ self.now.variable }
        ensures from_one { 1 ≤ result }
        ensures to_limit { result ≤ MAX_VARIABLES }
    {
        self.word / 2
    }

    pub fn positive(&self) -> bool
        ensures { result ≡ self.now.positive }
    {
        self.word % 2 == 1
    }

    pub fn negated(&self) -> Lit
        ensures { result ≡ negation self.now }
    {
        Lit {
            word: self.word ^ 1,
        }
    }
}
