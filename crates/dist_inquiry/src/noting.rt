//! What questions find, noted by the kind of file.
ghost use Rattle.std.specs.Prelude.{◌≡◌, ◌≤◌, ◌↔◌, IfErr, IfOk, IsFalse, IsTrue};
ghost use Rattle.dist_outside.specs.Files.{IsWriting};
ghost use Rattle.dist_cert.specs.Form.{AreLiterals};
ghost use Rattle.dist_cert.specs.Groups.{clause_of};
ghost use Rattle.dist_findings.specs.Findings.{IsFormed};
ghost use Rattle.dist_solver.specs.declared.answers.Answer.TheVariants as answers;
ghost use Rattle.dist_inquiry.specs.Asking.{AskStops};
ghost use Rattle.dist_line_write.specs.Asking.{IsOver, AreRefuted};
ghost use Rattle.dist_line_write.specs.Script.{Grows};
ghost use Rattle.dist_line_write.specs.Words.{IsAnswerOver};
ghost use Rattle.dist_inquiry.specs.AnswerText.{NoteMore, finding_of};

use dist_cert::Items;
use dist_findings::{Answering, Finding};
use dist_line_write::{Asker, true_variables};
use dist_outside::{Desk, WorkError, file_grows};
use dist_solver::Answer;
use std::alloc::{AllocError, Global};

/// What a question finds.
fn finding_of(
    alloc: Global,
    question: &[(u32, bool)],
    answer: &Answer,
    variables: u32,
) -> Result<Finding, AllocError>
    requires form { AreLiterals question.now }
    requires over { IsAnswerOver variables answer.now }
    ensures value { IfOk result (λ finding. finding ≡ finding_of question.now answer.now) }
    ensures form { IfOk result IsFormed }
{
    match answer {
        Answer::Found(values) => {
            let members = true_variables(alloc, values, variables)?;
            Ok(Finding::Installed(Items::from_vec(members)))
        }
        Answer::Refuted(_) => {
            let literals = question.to_vec(alloc)?;
            Ok(Finding::Refuted(Items::from_vec(literals)))
        }
        Answer::Undecided => {
            let literals = question.to_vec(alloc)?;
            Ok(Finding::LeftUndecided(Items::from_vec(literals)))
        }
    }
}

/// Asks a question, writes its lines, and notes what it finds.
pub fn ask_and_note<D: Desk, A: Answering>(
    alloc: Global,
    answering: &A,
    inquirer: &mut Asker,
    notes: &mut A::Notes,
    desk: &mut D,
    question: &[(u32, bool)],
) -> Result<Answer, WorkError>
    requires writing { IsWriting (D.view desk.old).mode }
    requires limit { 1 ≤ inquirer.old.limit }
    requires question { IsOver inquirer.old.log.variables question.now }
    ensures ok { IfOk result (NoteMore (A.noted answering.now) (D.view desk.old) (D.view desk.new) inquirer.old inquirer.new notes.old notes.new question.now) }
    ensures err { IfErr result (AskStops inquirer.old question.now (D.view desk.old) (D.view desk.new)) }
    ensures over { IfOk result (IsAnswerOver inquirer.old.log.variables) }
    ensures variables { inquirer.new.log.variables ≡ inquirer.old.log.variables }
    ensures limit { inquirer.new.limit ≡ inquirer.old.limit }
    ensures grows { Grows (D.view desk.old) (D.view desk.new) }
{
    file_grows();
    let variables = inquirer.variables();
    let answer = inquirer.ask(desk, question)?;
    let finding = finding_of(alloc, question, &answer, variables)?;
    answering.note(notes, finding)?;
    Ok(answer)
}

/// Writes a question that these hints refute, with its answer, and notes it, where they do. The solver isn't asked.
pub fn refute_and_note<D: Desk, A: Answering>(
    alloc: Global,
    answering: &A,
    inquirer: &mut Asker,
    notes: &mut A::Notes,
    desk: &mut D,
    question: &[(u32, bool)],
    hints: &[u32],
) -> Result<bool, WorkError>
    requires writing { IsWriting (D.view desk.old).mode }
    requires question { IsOver inquirer.old.log.variables question.now }
    ensures exactly { IfOk result (λ yes. IsTrue yes ↔ AreRefuted inquirer.old.log (clause_of question.now) hints.now) }
    ensures ok { IfOk result (λ yes. IsTrue yes
        → NoteMore (A.noted answering.now) (D.view desk.old) (D.view desk.new) inquirer.old inquirer.new notes.old notes.new question.now (answers.Refuted hints.now)) }
    ensures none { IfOk result (λ yes. IsFalse yes → (desk.new ≡ desk.old) × (inquirer.new ≡ inquirer.old) × (notes.new ≡ notes.old)) }
    ensures err { IfErr result (AskStops inquirer.old question.now (D.view desk.old) (D.view desk.new)) }
    ensures rest { inquirer.new ≡ record inquirer.old { writer = inquirer.new.writer } }
    ensures grows { Grows (D.view desk.old) (D.view desk.new) }
{
    file_grows();
    let refuted = inquirer.refute(desk, question, hints)?;
    if !refuted {
        return Ok(false);
    }
    let literals = question.to_vec(alloc)?;
    answering.note(notes, Finding::Refuted(Items::from_vec(literals)))?;
    Ok(true)
}
