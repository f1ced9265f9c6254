//! The top call.
ghost use Rattle.std.specs.Prelude.{map, string_bytes, MatchResult};
ghost use Rattle.dist_outside.specs.Files.{IsNotWriting};
ghost use Rattle.dist_commands.specs.StatedLimits.{IsWithinStated, stated_limits};
ghost use Rattle.dist_app.specs.Headline.{CheckExplainIsProved, CheckIsProved, CheckRepairIsProved, ExplainIsProved, FollowIsProved, RepairIsProved, StepsAreProved, SweepIsProved};
ghost use Rattle.dist_app.specs.Run.{Leaves, Runs};
ghost use Rattle.dist_app.specs.Stopped.{StopsLow};
ghost use Rattle.dist_app.specs.Truth.{IsTrue};
ghost use Rattle.dist_app.specs.CarriedPrivate.{IsAnswered, IsRefused, Prints};

use crate::laws::laws_hold;
use dist_commands::{Answer, Refusal, Status, refusal_of, run_command, write_refusal};
use dist_outside::{Desk, Limits, Sink, sink_grows, write_whole};
use dist_words::{WordsError, command_of};
use std::alloc::Global;

/// Carries out the command of the words, which stand after the program's name, at the stated limits.
///
/// The text of the answer goes to `out`, and one line on a status other than success to `err`.
pub fn run<D: Desk, W: Sink, E: Sink>(
    alloc: Global,
    words: &[String],
    desk: &mut D,
    out: &mut W,
    err: &mut E,
) -> Status
    requires { IsNotWriting (D.view desk.old).mode }
    ensures runs { Runs (map string_bytes words.now) stated_limits result (D.view desk.old) (D.view desk.new)
        (W.view out.old) (W.view out.new) (E.view err.old) (E.view err.new) }
    ensures truth { IsTrue (map string_bytes words.now) stated_limits result (D.view desk.old).files (W.view out.old) (W.view out.new) }
    ensures sweep { SweepIsProved (map string_bytes words.now) stated_limits result (D.view desk.old) (D.view desk.new)
        (W.view out.old) (W.view out.new) }
    ensures check { CheckIsProved (map string_bytes words.now) stated_limits result (D.view desk.old) (D.view desk.new)
        (W.view out.old) (W.view out.new) }
    ensures explain { ExplainIsProved (map string_bytes words.now) stated_limits result (D.view desk.old) (D.view desk.new)
        (W.view out.old) (W.view out.new) }
    ensures check_explain { CheckExplainIsProved (map string_bytes words.now) stated_limits result (D.view desk.old) (D.view desk.new)
        (W.view out.old) (W.view out.new) }
    ensures repair { RepairIsProved (map string_bytes words.now) stated_limits result (D.view desk.old) (D.view desk.new)
        (W.view out.old) (W.view out.new) }
    ensures check_repair { CheckRepairIsProved (map string_bytes words.now) stated_limits result (D.view desk.old) (D.view desk.new)
        (W.view out.old) (W.view out.new) }
    ensures steps { StepsAreProved (map string_bytes words.now) stated_limits result (D.view desk.old) (D.view desk.new)
        (W.view out.old) (W.view out.new) }
    ensures follow { FollowIsProved (map string_bytes words.now) stated_limits result (D.view desk.old) (D.view desk.new)
        (W.view out.old) (W.view out.new) }
    ensures stopped { StopsLow (map string_bytes words.now) stated_limits result (D.view desk.old).files (D.view desk.new).files }
{
    run_with(alloc, words, desk, out, err, &Limits::stated())
}

/// The same at other limits.
pub fn run_with<D: Desk, W: Sink, E: Sink>(
    alloc: Global,
    words: &[String],
    desk: &mut D,
    out: &mut W,
    err: &mut E,
    limits: &Limits,
) -> Status
    requires not_writing { IsNotWriting (D.view desk.old).mode }
    requires within { IsWithinStated limits.now }
    ensures runs { Runs (map string_bytes words.now) limits.now result (D.view desk.old) (D.view desk.new)
        (W.view out.old) (W.view out.new) (E.view err.old) (E.view err.new) }
    ensures truth { IsTrue (map string_bytes words.now) limits.now result (D.view desk.old).files (W.view out.old) (W.view out.new) }
    ensures sweep { SweepIsProved (map string_bytes words.now) limits.now result (D.view desk.old) (D.view desk.new)
        (W.view out.old) (W.view out.new) }
    ensures check { CheckIsProved (map string_bytes words.now) limits.now result (D.view desk.old) (D.view desk.new)
        (W.view out.old) (W.view out.new) }
    ensures explain { ExplainIsProved (map string_bytes words.now) limits.now result (D.view desk.old) (D.view desk.new)
        (W.view out.old) (W.view out.new) }
    ensures check_explain { CheckExplainIsProved (map string_bytes words.now) limits.now result (D.view desk.old) (D.view desk.new)
        (W.view out.old) (W.view out.new) }
    ensures repair { RepairIsProved (map string_bytes words.now) limits.now result (D.view desk.old) (D.view desk.new)
        (W.view out.old) (W.view out.new) }
    ensures check_repair { CheckRepairIsProved (map string_bytes words.now) limits.now result (D.view desk.old) (D.view desk.new)
        (W.view out.old) (W.view out.new) }
    ensures steps { StepsAreProved (map string_bytes words.now) limits.now result (D.view desk.old) (D.view desk.new)
        (W.view out.old) (W.view out.new) }
    ensures follow { FollowIsProved (map string_bytes words.now) limits.now result (D.view desk.old) (D.view desk.new)
        (W.view out.old) (W.view out.new) }
    ensures stopped { StopsLow (map string_bytes words.now) limits.now result (D.view desk.old).files (D.view desk.new).files }
{
    // What this call tells is what the promises rest on.
    laws_hold();
    finish(alloc, words, desk, out, err, limits)
}

/// Carries out the command, and tells why where it was given up.
fn finish<D: Desk, W: Sink, E: Sink>(
    alloc: Global,
    words: &[String],
    desk: &mut D,
    out: &mut W,
    err: &mut E,
    limits: &Limits,
) -> Status
    requires not_writing { IsNotWriting (D.view desk.old).mode }
    requires within { IsWithinStated limits.now }
    ensures { Runs (map string_bytes words.now) limits.now result (D.view desk.old) (D.view desk.new)
        (W.view out.old) (W.view out.new) (E.view err.old) (E.view err.new) }
{
    laws_hold();
    sink_grows();
    match carry_out(alloc, words, desk, out, limits) {
        Ok(status) => status,
        Err(refusal) => {
            let status = refusal.status();
            // A sink that refuses the line changes no status.
            let _ = write_refusal(err, refusal);
            status
        }
    }
}

/// Carries out the command and prints its answer.
fn carry_out<D: Desk, W: Sink>(
    alloc: Global,
    words: &[String],
    desk: &mut D,
    out: &mut W,
    limits: &Limits,
) -> Result<Status, Refusal>
    requires not_writing { IsNotWriting (D.view desk.old).mode }
    requires within { IsWithinStated limits.now }
    ensures ends { MatchResult result
        (IsAnswered (map string_bytes words.now) limits.now (D.view desk.old) (D.view desk.new) (W.view out.old) (W.view out.new))
        (IsRefused (map string_bytes words.now) limits.now (D.view desk.old) (D.view desk.new) (W.view out.old) (W.view out.new)) }
    ensures leaves { Leaves (map string_bytes words.now) (D.view desk.old) (D.view desk.new) }
{
    sink_grows();
    let command = match command_of(alloc, words) {
        Ok(command) => command,
        Err(WordsError::BadWords) => return Err(Refusal::BadWords),
        Err(WordsError::NoMemory) => return Err(Refusal::NoMemory),
    };
    match run_command(alloc, desk, &command, limits) {
        Ok(answer) => print(out, &answer),
        Err(refusal) => Err(refusal),
    }
}

/// Writes the text of an answer.
fn print<W: Sink>(out: &mut W, answer: &Answer) -> Result<Status, Refusal>
    ensures { Prints answer.now.status answer.now.text.items result (W.view out.old) (W.view out.new) }
{
    match write_whole(out, &answer.text) {
        Ok(()) => Ok(answer.status),
        Err(error) => Err(refusal_of(error)),
    }
}
