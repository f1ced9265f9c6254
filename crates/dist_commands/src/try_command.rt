//! `try --size N --seed S`. It touches no file.
ghost use Rattle.std.specs.Prelude.{IfErr, IfOk, Option};
ghost use Rattle.dist_outside.specs.Files.{Files};
ghost use Rattle.dist_words.specs.Lines.{IsSize};
ghost use Rattle.dist_commands.specs.DuePrivate.{IsPartGivenUp};
ghost use Rattle.dist_commands.specs.StatedLimits.{IsWithinStated};
ghost use Rattle.dist_commands.specs.Stages.{answered};
ghost use Rattle.dist_commands.specs.Try.{Tries, TryStages};

use crate::answer::Answer;
use crate::claims::marked_status;
use crate::refusal::{Refusal, refusal_of};
use dist_outside::Limits;
use dist_trial::trial;
use dist_words::TryWords;
use std::alloc::Global;

/// What the command answers, or why it was given up.
pub(crate) fn run_try(alloc: Global, words: &TryWords, limits: &Limits) -> Result<Answer, Refusal>
    requires within { IsWithinStated limits.now }
    requires size { IsSize words.now.size }
    ensures answers { IfOk result (λ answer. (files : Option Files) → TryStages files limits.now words.now.size words.now.seed
        (Tries files limits.now words.now.size) (answered files answer.status answer.text.items)) }
    ensures stops { IfErr result (λ refusal. (files : Option Files) → IsPartGivenUp (TryStages files limits.now words.now.size words.now.seed
        (Tries files limits.now words.now.size)) files refusal) }
{
    match trial(alloc, words.size, words.seed, limits) {
        Ok(trial) => Ok(Answer {
            status: marked_status(trial.undecided),
            text: trial.summary,
        }),
        Err(error) => Err(refusal_of(error)),
    }
}
