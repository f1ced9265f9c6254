//! The open question.
ghost use Rattle.std.specs.Prelude.{◌≡◌};
ghost use Rattle.dist_line_check.specs.Checker.{QuestionView};

use dist_cert::Literals;
use std::marker::Model;

/// A question that is open.
#[derive(Drop)]
pub(crate) struct Question {
    assumptions: Literals,
    /// The number of the last clause before its line.
    last: u32,
}

impl Model for Question {
    ghost use Rattle.dist_line_check.specs.Checker.{QuestionView};

    ghost Value = { QuestionView };

    ghost view = { λ q. record { assumptions = q.assumptions; last = q.last } };
}

impl Question {
    /// A question with these assumptions, behind the clause of this number.
    pub(crate) fn new(assumptions: Literals, last: u32) -> Question
        ensures { result ≡ record { assumptions = assumptions; last = last } }
    {
        Question { assumptions, last }
    }

    /// What is assumed.
    pub(crate) fn assumptions(&self) -> &[(u32, bool)]
        ensures { result.now ≡ self.now.assumptions }
    {
        self.assumptions.as_slice()
    }

    /// The number of the last clause before its line.
    pub(crate) fn last(&self) -> u32
        ensures { result ≡ self.now.last }
    {
        self.last
    }

    /// What was assumed.
    pub(crate) fn into_assumptions(self) -> Literals
        ensures { result ≡ self.assumptions }
    {
        self.assumptions
    }
}
