//! What clauses with selectors mean, and what an accepted file proves. The functions do nothing.
ghost use Rattle.std.specs.Prelude.{◌≡◌, ◌≤◌, All, Bool, List, Ok, Result, false, ℕ};
ghost use Rattle.dist_outside.specs.declared.limits.Limits.{Limits};
ghost use Rattle.dist_outside.specs.declared.trouble.What.{What};
ghost use Rattle.dist_outside.specs.declared.trouble.WorkError.{WorkError};
ghost use Rattle.dist_clause.specs.Formula.{Literal};
ghost use Rattle.dist_repo.specs.Order.{IsInOrder};
ghost use Rattle.dist_repo.specs.PackageList.{PackageList};
ghost use Rattle.dist_now.specs.PresentClauses.{ArePresentClauses, Demand};
ghost use Rattle.dist_now.specs.Relations.{AreRelations};
ghost use Rattle.dist_explain.specs.Answered.{AreAnswered, AreLast};
ghost use Rattle.dist_explain.specs.NotesPrivate.{AreNotesOf, IsMarkedIn, NotesView};
ghost use Rattle.dist_explain.specs.ExplanationFiles.{PassesFirst};
ghost use Rattle.dist_explain.specs.Selectors.{AreExplainedByNoModel, AreModelsBySelectors};
ghost use Rattle.dist_explain.specs.Verdicts.{AcceptedMeans, ExplanationAnswers, IsExplainVerdict, IsExplanation};
ghost use Rattle.dist_judge.specs.Causes.{IsOfText};
ghost use Rattle.dist_explain.specs.declared.asked.Asked.{Asked};
ghost use Rattle.dist_explain.specs.declared.explained.Explained.{Explained};
ghost use Rattle.dist_explain.specs.declared.verdict.ExplainHeader.{ExplainHeader};
ghost use Rattle.dist_cert.specs.declared.faults.CertFault.{CertFault};
ghost use Rattle.dist_explain.specs.declared.verdict.ExplainVerdict.{ExplainVerdict};
ghost use Rattle.dist_explain.specs.declared.verdict.ExplainVerdict.TheVariants.{Accepted, Refused};
ghost use Rattle.dist_findings.specs.declared.finding.Finding.{Finding};

use dist_cert::forms_are_clear;
use dist_derive::{lines_keep_models, new_lines_are_few};
use dist_now::{
    demands_tell_health, models_are_installations, present_clauses_are_one,
    present_clauses_are_there, relations_have_clauses,
};
use dist_subject::first_numbers_are_one;

/// With the selectors of some relations a package can't be true exactly where they explain it.
pub fn selectors_explain()
    ensures models { (r : PackageList) (relations : List Demand) (clauses : List (List Literal)) (values : List Bool) → IsInOrder r.packages
        → AreRelations r relations → ArePresentClauses r false clauses → AreModelsBySelectors r relations clauses values }
    ensures explained { (r : PackageList) (relations : List Demand) (clauses : List (List Literal)) → IsInOrder r.packages
        → AreRelations r relations → ArePresentClauses r false clauses → AreExplainedByNoModel r relations clauses }
{
    demands_tell_health();
    relations_have_clauses();
}

/// What an accepted file says of its package is true, whoever wrote it.
pub fn accepted_explanations_hold()
    ensures { (r : PackageList) (limits : Limits) (text : List ℕ) (h : ExplainHeader) (explained : Explained) → IsInOrder r.packages
        → IsExplanation r limits text h explained → AcceptedMeans r h explained }
{
    forms_are_clear();
    lines_keep_models();
    new_lines_are_few();
    models_are_installations();
    demands_tell_health();
    relations_have_clauses();
    selectors_explain();
}

/// Relations of which each has its mark are an answer.
pub fn marked_relations_are_answered()
    ensures { (asked : Asked) (found : List Finding) (notes : NotesView) (numbers : List ℕ) (later : List Finding)
        → asked.number ≤ asked.packages → AreNotesOf asked found notes → AreLast asked found numbers later
        → All (IsMarkedIn asked numbers later) numbers → AreAnswered asked found }
{}

/// A text has one answer, but for a fault of reading and want of memory, and what files are judged by passes one number first.
pub fn explanations_have_one_answer()
    ensures answer { (r : PackageList) (limits : Limits) (text : List ℕ) (result other : Result ExplainVerdict WorkError) → IsInOrder r.packages
        → ExplanationAnswers r limits text result → ExplanationAnswers r limits text other → IsOfText result → IsOfText other → other ≡ result }
    ensures number { (r : PackageList) (limits : Limits) (what other : What) → IsInOrder r.packages → PassesFirst r limits what
        → PassesFirst r limits other → other ≡ what }
{
    forms_are_clear();
    present_clauses_are_one();
    first_numbers_are_one();
}

/// What the check answers of a text is the text's verdict, there is no other one, and no text has none.
pub fn explanation_texts_have_one_verdict()
    ensures right { (r : PackageList) (limits : Limits) (text : List ℕ) (verdict : ExplainVerdict) → IsInOrder r.packages
        → ExplanationAnswers r limits text (Ok verdict) → IsExplainVerdict r limits text verdict }
    ensures one { (r : PackageList) (limits : Limits) (text : List ℕ) (verdict other : ExplainVerdict) → IsInOrder r.packages
        → IsExplainVerdict r limits text verdict → IsExplainVerdict r limits text other → verdict ≡ other }
    ensures there { (r : PackageList) (limits : Limits) (text : List ℕ) → IsInOrder r.packages
        → ((h : ExplainHeader) (explained : Explained) → ¬ IsExplainVerdict r limits text (Accepted h explained))
        → ¬ ((fault : CertFault) → ¬ IsExplainVerdict r limits text (Refused fault)) }
{
    forms_are_clear();
    present_clauses_are_there();
    present_clauses_are_one();
    first_numbers_are_one();
}
