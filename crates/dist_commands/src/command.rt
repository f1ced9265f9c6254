//! The way from a command to its answer.
ghost use Rattle.std.specs.Prelude.{◌≡◌, IfOk, IfErr};
ghost use Rattle.dist_outside.specs.Files.{IsNotWriting};
ghost use Rattle.dist_outside.specs.DeskView.{OnlyReads};
ghost use Rattle.dist_words.specs.Lines.{HasLimit, line_of};
ghost use Rattle.dist_commands.specs.Command.{CommandDecides, IsApart, OnlyReadsFiles};
ghost use Rattle.dist_commands.specs.Stops.{LeavesDesk, Stops};
ghost use Rattle.dist_commands.specs.StatedLimits.{IsWithinStated};
ghost use Rattle.dist_commands.specs.Stages.{answered};

use crate::answer::Answer;
use crate::check_command::run_check;
use crate::check_explain_command::run_check_explain;
use crate::check_repair_command::run_check_repair;
use crate::classes_command::run_classes;
use crate::explain_command::run_explain;
use crate::follow_command::run_follow;
use crate::health_command::run_health;
use crate::refusal::Refusal;
use crate::repair_command::run_repair;
use crate::steps_command::run_steps;
use crate::sweep_command::run_sweep;
use crate::try_command::run_try;
use dist_outside::{Desk, Limits};
use dist_words::Command;
use std::alloc::Global;

/// What a command answers, or why it was given up.
pub fn run_command<D: Desk>(
    alloc: Global,
    desk: &mut D,
    command: &Command<'_>,
    limits: &Limits,
) -> Result<Answer, Refusal>
    requires not_writing { IsNotWriting (D.view desk.old).mode }
    requires within { IsWithinStated limits.now }
    requires limit { HasLimit command.now }
    ensures answers { IfOk result (λ answer. CommandDecides (line_of command.now) (D.view desk.old).files limits.now
        (answered (D.view desk.new).files answer.status answer.text.items)) }
    ensures stops { IfErr result (Stops (line_of command.now) limits.now (D.view desk.old) (D.view desk.new)) }
    ensures leaves { LeavesDesk (D.view desk.old) (D.view desk.new) }
    ensures only_reads { OnlyReadsFiles (line_of command.now) → OnlyReads (D.view desk.old) (D.view desk.new) }
    ensures apart { IsApart (line_of command.now) → D.view desk.new ≡ D.view desk.old }
{
    match command {
        Command::Health(files) => run_health(alloc, desk, files, limits),
        Command::Classes(packages) => run_classes(alloc, desk, packages, limits),
        Command::Sweep(words) => run_sweep(alloc, desk, words, limits),
        Command::Check(files) => run_check(alloc, desk, files, limits),
        Command::CheckExplain(files) => run_check_explain(alloc, desk, files, limits),
        Command::Explain(words) => run_explain(alloc, desk, words, limits),
        Command::CheckRepair(files) => run_check_repair(alloc, desk, files, limits),
        Command::Repair(words) => run_repair(alloc, desk, words, limits),
        Command::Try(words) => run_try(alloc, words, limits),
        Command::Steps(files) => run_steps(alloc, desk, files, limits),
        Command::Follow(files) => run_follow(alloc, desk, files, limits),
    }
}
