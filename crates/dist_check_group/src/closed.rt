//! Questions of a group that were closed in one way.
ghost use Rattle.std.specs.Prelude.{◌≡◌, OnOk};
ghost use Rattle.dist_check_group.specs.Closed.{ClosedView, Closes, asks_alone, asks_own, asks_together, none_closed};

use crate::number_set::NumberSet;
use dist_cert::CertKind;
use std::alloc::{AllocError, Global};
use std::marker::Model;

/// Of the questions that were closed in one way those that a claim on one package may name: the claim's own, and whether
/// the package's variable is without another one, or together with it.
#[derive(Drop)]
pub(crate) struct Closed {
    alone: bool,
    without: NumberSet,
    together: NumberSet,
}

impl Model for Closed {
    ghost use Rattle.dist_check_group.specs.Closed.{ClosedView};

    ghost Value = { ClosedView };

    ghost view = { λ c. record { alone = c.alone; without = c.without; together = c.together } };
}

impl Closed {
    /// No questions.
    pub(crate) fn new(alloc: Global) -> Closed
        ensures { result ≡ none_closed }
    {
        Closed {
            alone: false,
            without: NumberSet::new(alloc),
            together: NumberSet::new(alloc),
        }
    }

    /// Adds a question, where it is one that a claim on the package of the variable may name.
    pub(crate) fn add(
        &mut self,
        kind: CertKind,
        variable: u32,
        question: &[(u32, bool)],
    ) -> Result<(), AllocError>
        ensures { OnOk result (Closes kind variable question.now self.old self.new) }
    {
        if asks_own(kind, variable, question) {
            self.alone = true;
        }
        match question {
            [(first, true), (other, false)] if *first == variable => self.without.add(*other)?,
            [(first, true), (other, true)] if *first == variable => self.together.add(*other)?,
            _ => {}
        }
        Ok(())
    }

    /// Forgets all questions.
    pub(crate) fn clear(&mut self)
        ensures { self.new ≡ none_closed }
    {
        self.alone = false;
        self.without.clear();
        self.together.clear();
    }

    /// Whether the claim's own question is there.
    pub(crate) fn has_alone(&self) -> bool
        ensures { result ≡ self.now.alone }
    {
        self.alone
    }

    /// The variables without which the package's was asked for.
    pub(crate) fn without(&self) -> &NumberSet
        ensures { result.now ≡ self.now.without }
    {
        &self.without
    }

    /// The variables together with which the package's was asked for.
    pub(crate) fn together(&self) -> &NumberSet
        ensures { result.now ≡ self.now.together }
    {
        &self.together
    }
}

/// Whether a question is that of a variable alone.
fn asks_alone(variable: u32, question: &[(u32, bool)]) -> bool
    ensures { result ≡ asks_alone variable question.now }
{
    match question {
        [(first, true)] => *first == variable,
        _ => false,
    }
}

/// Whether a question is that of a variable together with another one.
fn asks_together(variable: u32, question: &[(u32, bool)], other: u32) -> bool
    ensures { result ≡ asks_together variable question.now other }
{
    match question {
        [(first, true), (second, true)] => *first == variable && other == *second,
        _ => false,
    }
}

/// Whether a question is the claim's own.
fn asks_own(kind: CertKind, variable: u32, question: &[(u32, bool)]) -> bool
    ensures { result ≡ asks_own kind variable question.now }
{
    match kind {
        CertKind::Challenged => asks_together(1, question, variable),
        CertKind::Strong | CertKind::Outdated => asks_alone(variable, question),
    }
}
