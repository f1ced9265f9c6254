//! The questions of claims.
ghost use Rattle.std.specs.Prelude.{◌≡◌, ◌≤◌, IfErr, IfOk, IfSome, length};
ghost use Rattle.dist_line_write.specs.Asking.{IsOver};
ghost use Rattle.dist_line_write.specs.Script.{Grows};
ghost use Rattle.dist_outside.specs.Files.{IsWriting};
ghost use Rattle.dist_sweep.specs.Asking.{AskMore, AskStops, Holds, IsReplyOf};

use dist_clause::Assignment;
use dist_line_write::Asker;
use dist_outside::{Desk, WorkError};
use dist_solver::Answer;

/// What a question was answered.
#[derive(Debug, Drop)]
pub enum Reply {
    /// A healthy installation, by its truth values.
    Found(Assignment),
    /// There is none.
    Refuted,
    /// As many lines as allowed were derived, and neither came.
    Undecided,
}

/// What an answer tells a sweep.
fn reply_of(answer: Answer) -> Reply
    ensures { IsReplyOf answer result }
{
    match answer {
        Answer::Found(values) => Reply::Found(values),
        Answer::Refuted(_) => Reply::Refuted,
        Answer::Undecided => Reply::Undecided,
    }
}

/// Asks a question that a claim needs and writes its lines. A guess at the installation is tried first: the variables that are true in
/// it, perhaps. One that has to be looked for leaves variables out that are true in an assignment, as far as the search meets other
/// alternatives.
pub fn ask<D: Desk>(
    asker: &mut Asker,
    desk: &mut D,
    question: &[(u32, bool)],
    trues: &[u32],
    shunned: Option<&Assignment>,
) -> Result<Reply, WorkError>
    requires writing { IsWriting (D.view desk.old).mode }
    requires limit { 1 ≤ asker.old.limit }
    requires question { IsOver asker.old.log.variables question.now }
    requires shunned { IfSome shunned (λ values. length values.now ≡ asker.old.log.variables) }
    ensures ok { IfOk result (AskMore (D.view desk.old) (D.view desk.new) asker.old asker.new question.now) }
    ensures err { IfErr result (AskStops asker.old question.now (D.view desk.old) (D.view desk.new)) }
    ensures holds { IfOk result (Holds asker.old.log.variables question.now) }
    ensures variables { asker.new.log.variables ≡ asker.old.log.variables }
    ensures limit { asker.new.limit ≡ asker.old.limit }
    ensures grows { Grows (D.view desk.old) (D.view desk.new) }
{
    let answer = asker.ask_with(desk, question, trues, shunned)?;
    Ok(reply_of(answer))
}
