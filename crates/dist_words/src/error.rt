//! Why the words give no command.
ghost use Rattle.std.specs.Prelude.{◌≡◌};

use std::alloc::AllocError;

/// Why the words give no command.
#[derive(Clone, Copy, Debug, PartialEq, Eq)]
pub enum WordsError {
    /// They are of no command.
    BadWords,
    NoMemory,
}

impl From<AllocError> for WordsError {
    ghost use Rattle.std.specs.Prelude.{◌≡◌};
    ghost use Rattle.dist_words.specs.declared.error.WordsError.TheVariants.{NoMemory};

    ghost from_gives = { λ _ error. error ≡ NoMemory };

    fn from(_: AllocError) -> WordsError {
        WordsError::NoMemory
    }
}
