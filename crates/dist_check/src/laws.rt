//! What an accepted certificate proves, apart from the work. The functions do nothing.
ghost use Rattle.std.specs.Prelude.{◌≡◌, ℕ, ◌^◌, ◌≤◌, ◌↔◌, List, Ok, Contains, Result, length};
ghost use Rattle.dist_outside.specs.declared.limits.Limits.{Limits};
ghost use Rattle.dist_outside.specs.declared.trouble.WorkError.{WorkError};
ghost use Rattle.dist_derive.specs.Cone.{InCone};
ghost use Rattle.dist_repo.specs.Order.{IsInOrder};
ghost use Rattle.dist_repo.specs.PackageList.{PackageList};
ghost use Rattle.dist_cert.specs.declared.faults.CertFault.{CertFault};
ghost use Rattle.dist_cert.specs.declared.records.CertRecord.{CertRecord};
ghost use Rattle.dist_cert.specs.declared.records.Claim.{Claim};
ghost use Rattle.dist_cert.specs.declared.records.Header.{Header};
ghost use Rattle.dist_cert.specs.Accepted.{IsAcceptedAs};
ghost use Rattle.dist_cert.specs.Form.{Word};
ghost use Rattle.dist_cert.specs.Tried.{AreMarksTried};
ghost use Rattle.dist_cert.specs.Groups.{clause_of, IsUndecidedIn};
ghost use Rattle.dist_check.specs.declared.verdict.Verdict.{Verdict};
ghost use Rattle.dist_check.specs.Answers.{Answers, AsksOfFutures, IsVerdict};
ghost use Rattle.dist_judge.specs.Causes.{IsOfText};
ghost use Rattle.dist_subject.specs.Basis.{Basis, HaveVersions, IsAccepted, IsRefused, matter_of};
ghost use Rattle.dist_check.specs.Means.{Means};

use dist_cert::forms_are_clear;
use dist_derive::{lines_keep_models, new_lines_are_few};
use dist_future::{
    clusters_and_classes_are_numbered, models_stand_for_futures, models_tell_of_packages,
};
use dist_now::models_are_installations;
use dist_space::packages_come_first;
use dist_subject::{
    bases_are_one, first_numbers_are_one, models_are_healthy, pairs_are_of_the_space,
};

/// The claims of an accepted text hold, whoever wrote it.
pub fn accepted_claims_hold()
    ensures { (r : PackageList) (limits : Limits) (text : List ℕ) (h : Header) (made : List Claim) → IsInOrder r.packages
        → IsAccepted r limits text h made → Means h.kind h.essential r made }
{
    forms_are_clear();
    lines_keep_models();
    models_are_installations();
    models_are_healthy();
    packages_come_first();
    models_stand_for_futures();
    models_tell_of_packages();
    clusters_and_classes_are_numbered();
    pairs_are_of_the_space();
}

/// A question that an accepted text closes as undecided is hard: the limit is at most 3 to the power of the number of
/// variables in its cone, which is given by its list.
pub fn undecided_questions_are_hard()
    ensures { (r : PackageList) (basis : Basis) (limits : Limits) (text : List ℕ) (h : Header) (steps : List CertRecord)
        (question : List Word) (cone : List ℕ) → IsAcceptedAs (matter_of r basis) limits text h steps
        → IsUndecidedIn steps question → ((v : ℕ) → Contains cone v ↔ InCone (matter_of r basis).inputs (clause_of question) v)
        → h.limit ≤ 3 ^ length cone }
{
    forms_are_clear();
    new_lines_are_few();
}

/// Each mark of an accepted text was worked for: its question is closed as undecided in the text, behind at least as many
/// derived lines as the limit, each of which follows by its hints and was new.
pub fn marks_are_tried()
    ensures { (r : PackageList) (basis : Basis) (limits : Limits) (text : List ℕ) (h : Header) (steps : List CertRecord)
        → IsAcceptedAs (matter_of r basis) limits text h steps → AreMarksTried (matter_of r basis) h.kind h.limit steps }
{
    forms_are_clear();
}

/// What the check answers of a text is the text's verdict, and there is no other one.
pub fn texts_have_one_verdict()
    ensures right { (r : PackageList) (limits : Limits) (text : List ℕ) (verdict : Verdict) → Answers r limits text (Ok verdict)
        → IsVerdict r limits text verdict }
    ensures one { (r : PackageList) (limits : Limits) (text : List ℕ) (verdict other : Verdict) → IsVerdict r limits text verdict
        → IsVerdict r limits text other → verdict ≡ other }
{
    forms_are_clear();
    bases_are_one();
}

/// No text is neither accepted nor refused. One that asks of futures is judged by newest packages that have versions, as those
/// of a repository that was read do.
pub fn each_text_has_a_verdict()
    ensures { (r : PackageList) (limits : Limits) (text : List ℕ) → IsInOrder r.packages → (AsksOfFutures text → HaveVersions r)
        → ((h : Header) (made : List Claim) → ¬ IsAccepted r limits text h made) → ¬ ((fault : CertFault) → ¬ IsRefused r limits text fault) }
{
    forms_are_clear();
    bases_are_one();
}

/// A text has one answer, but for a fault of reading and want of memory: that a number is passed and a verdict, for two,
/// exclude each other.
pub fn texts_have_one_answer()
    ensures { (r : PackageList) (limits : Limits) (text : List ℕ) (result other : Result Verdict WorkError) → IsInOrder r.packages
        → Answers r limits text result → Answers r limits text other → IsOfText result → IsOfText other → other ≡ result }
{
    forms_are_clear();
    bases_are_one();
    first_numbers_are_one();
}
