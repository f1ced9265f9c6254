//! What the clauses that count mean, and what files prove. The functions do nothing.
ghost use Rattle.std.specs.Prelude.{◌≡◌, ℕ, List, Ok, Result};
ghost use Rattle.dist_outside.specs.declared.limits.Limits.{Limits};
ghost use Rattle.dist_outside.specs.declared.trouble.WorkError.{WorkError};
ghost use Rattle.dist_clause.specs.Formula.{Literal};
ghost use Rattle.dist_space.specs.Space.{IsSpace, SpaceView};
ghost use Rattle.dist_space_clauses.specs.SpaceClauses.{AreSpaceClauses};
ghost use Rattle.dist_findings.specs.Answers.{IsAnswered};
ghost use Rattle.dist_repair.specs.Answered.{Answers};
ghost use Rattle.dist_repair.specs.Counters.{CountedModelsTell, ModelsTellMoves};
ghost use Rattle.dist_repair.specs.RepairFiles.{asked_by, repair_files};
ghost use Rattle.dist_repair.specs.Searched.{LastDecides, LowerDecides, NextDecides, NotesAnswer};
ghost use Rattle.dist_repair.specs.Verdicts.{AcceptedSays, IsHeaderOf, IsRepairVerdict, RepairAnswers};
ghost use Rattle.dist_judge.specs.Causes.{IsOfText};
ghost use Rattle.dist_repair.specs.declared.repair.Repair.{Repair};
ghost use Rattle.dist_repair.specs.declared.verdict.RepairHeader.{RepairHeader};
ghost use Rattle.dist_cert.specs.declared.faults.CertFault.{CertFault};
ghost use Rattle.dist_repair.specs.declared.verdict.RepairVerdict.{RepairVerdict};
ghost use Rattle.dist_repair.specs.declared.verdict.RepairVerdict.TheVariants.{Accepted, Refused};

use dist_cert::forms_are_clear;
use dist_derive::{lines_keep_models, new_lines_are_few};
use dist_future::{each_model_is_a_future, models_tell_of_moves};
use dist_space_clauses::{space_clauses_are_one, space_clauses_are_there};

/// What models tell of how many clusters must move for a package.
pub fn counters_count_moves()
    ensures counted { (s : SpaceView) (clauses : List (List Literal)) (most : ℕ) → IsSpace s → AreSpaceClauses s clauses
        → CountedModelsTell s clauses most }
    ensures moves { (s : SpaceView) (clauses : List (List Literal)) → IsSpace s → AreSpaceClauses s clauses → ModelsTellMoves s clauses }
{
    models_tell_of_moves();
    each_model_is_a_future();
}

/// What an accepted file answers is true, whoever wrote it.
pub fn accepted_repairs_hold()
    ensures { (s : SpaceView) (limits : Limits) (text numbers : List ℕ) (h : RepairHeader) (repair : Repair) → IsSpace s
        → IsHeaderOf numbers h → IsAnswered (repair_files s) limits text numbers (λ found. Answers s (asked_by numbers) found repair)
        → AcceptedSays s h repair }
{
    forms_are_clear();
    lines_keep_models();
    new_lines_are_few();
    models_tell_of_moves();
    counters_count_moves();
}

/// What questions find of an answer that are asked at the lower bound, one after another, and then below the upper bound.
pub fn questions_decide()
    ensures next { (s : SpaceView) (clauses : List (List Literal)) → IsSpace s → AreSpaceClauses s clauses → NextDecides s clauses }
    ensures last { (s : SpaceView) → LastDecides s }
    ensures lower { (s : SpaceView) (clauses : List (List Literal)) → IsSpace s → AreSpaceClauses s clauses → LowerDecides s clauses }
    ensures answer { (s : SpaceView) → NotesAnswer s }
{
    models_tell_of_moves();
    counters_count_moves();
}

/// A text has one answer, but for a fault of reading and want of memory: that a number is passed, a verdict and what is answered,
/// for two, exclude each other.
pub fn repairs_have_one_answer()
    ensures { (s : SpaceView) (limits : Limits) (text : List ℕ) (result other : Result RepairVerdict WorkError)
        → RepairAnswers s limits text result → RepairAnswers s limits text other → IsOfText result → IsOfText other → other ≡ result }
{
    forms_are_clear();
    space_clauses_are_one();
}

/// What the check answers of a text is the text's verdict, there is no other one, and no text has none.
pub fn repair_texts_have_one_verdict()
    ensures right { (s : SpaceView) (limits : Limits) (text : List ℕ) (verdict : RepairVerdict) → RepairAnswers s limits text (Ok verdict)
        → IsRepairVerdict s limits text verdict }
    ensures one { (s : SpaceView) (limits : Limits) (text : List ℕ) (verdict other : RepairVerdict) → IsRepairVerdict s limits text verdict
        → IsRepairVerdict s limits text other → verdict ≡ other }
    ensures there { (s : SpaceView) (limits : Limits) (text : List ℕ) → IsSpace s
        → ((h : RepairHeader) (repair : Repair) → ¬ IsRepairVerdict s limits text (Accepted h repair))
        → ¬ ((fault : CertFault) → ¬ IsRepairVerdict s limits text (Refused fault)) }
{
    forms_are_clear();
    space_clauses_are_one();
    space_clauses_are_there();
}
