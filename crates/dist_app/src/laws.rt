//! The laws of the layers below, on which the promises of a run rest, and what follows of each run. The functions do nothing.
ghost use Rattle.std.specs.Prelude.{ℕ, List};
ghost use Rattle.dist_outside.specs.DeskView.{DeskView};
ghost use Rattle.dist_outside.specs.SinkView.{SinkView};
ghost use Rattle.dist_outside.specs.declared.limits.Limits.{Limits};
ghost use Rattle.dist_commands.specs.declared.status.Status.{Status};
ghost use Rattle.dist_app.specs.Complete.{IsComplete};
ghost use Rattle.dist_app.specs.LawsPrivate.{Laws};
ghost use Rattle.dist_app.specs.Run.{Runs};

use dist_budget::{budgets_are_enough, explanation_budgets_are_enough, repair_budgets_are_enough};
use dist_check::{
    accepted_claims_hold, marks_are_tried, texts_have_one_answer, undecided_questions_are_hard,
};
use dist_classes::cuts_are_one;
use dist_cluster::{partitions_are_one, tops_are_one};
use dist_explain::{accepted_explanations_hold, explanations_have_one_answer};
use dist_journal::journals_have_one_end;
use dist_list::{lists_are_exact, names_are_exact};
use dist_now::one_health;
use dist_package::packages_are_exact;
use dist_repair::{accepted_repairs_hold, repairs_have_one_answer};
use dist_repo::latest_is_one;
use dist_space::spaces_are_one;
use dist_space_clauses::space_clauses_are_one;
use dist_subject::first_numbers_are_one;

/// Each input has one answer, the budgets are enough, and what is accepted holds.
pub(crate) fn laws_hold()
    ensures { Laws }
{
    packages_are_exact();
    one_health();
    budgets_are_enough();
    explanation_budgets_are_enough();
    repair_budgets_are_enough();
    texts_have_one_answer();
    explanations_have_one_answer();
    first_numbers_are_one();
    lists_are_exact();
    names_are_exact();
    latest_is_one();
    spaces_are_one();
    partitions_are_one();
    tops_are_one();
    cuts_are_one();
    space_clauses_are_one();
    repairs_have_one_answer();
    journals_have_one_end();
    accepted_claims_hold();
    accepted_explanations_hold();
    accepted_repairs_hold();
    undecided_questions_are_hard();
    marks_are_tried();
}

/// Where nothing is in its way, a run comes to what its files and its limits decide.
pub fn runs_are_complete()
    ensures { (words : List (List ℕ)) (limits : Limits) (result : Status) (desk desk' : DeskView) (out out' err err' : SinkView)
        → Runs words limits result desk desk' out out' err err' → IsComplete words limits result desk desk' out out' }
{
    laws_hold();
}
