//! Which numbers are enough for a file. The functions do nothing.
ghost use Rattle.std.specs.Prelude.{ℕ, ◌<◌, Bool, false, List, length};
ghost use Rattle.dist_budget.specs.Budget.{IsBelowBudget, IsBelowFileBudget};
ghost use Rattle.dist_budget.specs.SearchBudget.{explanation_size, repair_size};
ghost use Rattle.dist_cert.specs.Part.{IsStoppedBy};
ghost use Rattle.dist_clause.specs.Formula.{Literal};
ghost use Rattle.dist_cert.specs.declared.records.CertKind.{CertKind};
ghost use Rattle.dist_explain_search.specs.ExplainAnswers.{OfExplain};
ghost use Rattle.dist_inquiry.specs.Written.{IsFull};
ghost use Rattle.dist_now.specs.PresentClauses.{ArePresentClauses};
ghost use Rattle.dist_outside.specs.declared.limits.Limits.{Limits};
ghost use Rattle.dist_outside.specs.declared.trouble.What.{What};
ghost use Rattle.dist_repair.specs.declared.verdict.RepairHeader.{RepairHeader};
ghost use Rattle.dist_repair_search.specs.SearchAnswers.{OfRepair};
ghost use Rattle.dist_repo.specs.PackageList.{PackageList};
ghost use Rattle.dist_space.specs.Space.{SpaceView};
ghost use Rattle.dist_subject.specs.Basis.{Basis, IsBasisOf, matter_of};
ghost use Rattle.dist_sweep.specs.Sweep.{header_of};

use dist_cert::forms_are_clear;
use dist_now::present_clauses_are_one;

/// A sweep is stopped by a number only where that number is below its budget.
pub fn budgets_are_enough()
    ensures { (r : PackageList) (kind : CertKind) (essential : Bool) (limit : ℕ) (limits : Limits) (basis : Basis) (text : List ℕ) (what : What)
        → IsBasisOf r kind essential basis → IsStoppedBy (matter_of r basis) limits (header_of kind essential limit (matter_of r basis)) text what
        → IsBelowBudget limits kind (matter_of r basis) limit what }
{
    forms_are_clear();
}

/// The search for an explanation is stopped by a number of its file only where that number is below its budget, which goes by the
/// clauses of its relations.
pub fn explanation_budgets_are_enough()
    ensures { (r : PackageList) (relations : List (List Literal)) (number limit : ℕ) (limits : Limits) (what : What) (text : List ℕ)
        → number < length r.packages → ArePresentClauses r false relations → OfExplain r number limit limits (λ g course. IsFull g course what text)
        → IsBelowFileBudget limits (explanation_size r relations limit) what }
{
    present_clauses_are_one();
}

/// The search for a repair is stopped by a number of its file only where that number is below its budget.
pub fn repair_budgets_are_enough()
    ensures { (s : SpaceView) (h : RepairHeader) (limits : Limits) (what : What) (text : List ℕ)
        → OfRepair s h limits (λ g course. IsFull g course what text) → IsBelowFileBudget limits (repair_size s h) what }
{}
