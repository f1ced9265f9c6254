//! What a question is answered.

ghost use Rattle.std.specs.Prelude.{◌≡◌};

use dist_clause::Assignment;
use dist_derive::AppendError;
use std::alloc::AllocError;
use std::marker::Model;

/// Numbers of clauses, by which a clause follows.
#[derive(Drop)]
pub struct Hints {
    numbers: Vec<u32>,
}

impl Model for Hints {
    ghost use Rattle.std.specs.Prelude.{ℕ, List};

    ghost Value = { List ℕ };

    ghost view = { λ a. a.numbers.items };
}

impl Hints {
    /// Hints of a list of numbers.
    pub(crate) fn of(numbers: Vec<u32>) -> Hints
        ensures { result ≡ numbers.items }
    {
        Hints { numbers }
    }

    /// The numbers, in the order in which they are taken.
    pub fn as_slice(&self) -> &[u32]
        ensures { result.now ≡ self.now }
    {
        &self.numbers
    }
}

/// The answer to a question.
#[derive(Drop)]
pub enum Answer {
    /// A model of the input clauses in which the assumptions are true.
    Found(Assignment),
    /// By these hints the clause of the negated assumptions follows from the log.
    Refuted(Hints),
    /// As many lines as allowed were added, and neither came.
    Undecided,
}

/// Why a question got no answer.
#[derive(Clone, Copy, Debug, PartialEq, Eq)]
pub enum AskError {
    /// One more line would be one more than the log may have.
    TooManyLines,
    /// With one more line the log's lines would have more literals than they may have.
    TooManyLiterals,
    NoMemory,
}

impl From<AllocError> for AskError {
    ghost use Rattle.std.specs.Prelude.{◌≡◌};
    ghost use Rattle.dist_solver.specs.declared.answers.AskError.TheVariants.{NoMemory};

    ghost from_gives = { λ _ e. e ≡ NoMemory };

    fn from(_: AllocError) -> AskError {
        AskError::NoMemory
    }
}

impl From<AppendError> for AskError {
    ghost use Rattle.std.specs.Prelude.{◌≡◌};
    ghost use Rattle.dist_solver.specs.RefusalPrivate.{refusal_of};

    ghost from_gives = { λ cause e. e ≡ refusal_of cause };

    fn from(cause: AppendError) -> AskError {
        match cause {
            AppendError::TooManyLines => AskError::TooManyLines,
            AppendError::TooManyLiterals => AskError::TooManyLiterals,
            AppendError::NoMemory => AskError::NoMemory,
        }
    }
}
