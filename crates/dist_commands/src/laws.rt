//! What holds of the commands' answers, apart from any run. The functions do nothing.
ghost use Rattle.std.specs.Prelude.{ℕ, List};
ghost use Rattle.dist_outside.specs.declared.limits.Limits.{Limits};
ghost use Rattle.dist_repo.specs.Order.{IsLatestOf};
ghost use Rattle.dist_repo.specs.PackageList.{PackageList};
ghost use Rattle.dist_cert.specs.declared.faults.CertFault.{CertFault};
ghost use Rattle.dist_cert.specs.declared.records.Claim.{Claim};
ghost use Rattle.dist_cert.specs.declared.records.Header.{Header};
ghost use Rattle.dist_package.specs.RepositoryOf.{IsRepositoryOf};
ghost use Rattle.dist_report.specs.ClassesReport.{IsClassesText};
ghost use Rattle.dist_subject.specs.Basis.{HaveVersions, IsAccepted, IsRefused};

use dist_check::each_text_has_a_verdict;
use dist_package::packages_are_spelled;
use dist_report::classes_texts_are_one;

/// The newest versions of each file that has a repository have a report of their classes.
pub fn archives_have_reports()
    ensures { (text : List ℕ) (limit : ℕ) (repository newest : PackageList) → IsRepositoryOf text limit repository
        → IsLatestOf repository newest → (report : List ℕ) × IsClassesText newest report }
{
    packages_are_spelled();
    classes_texts_are_one();
}

/// Over the repository of a file no text is neither accepted nor refused, of whatever kind: its newest packages have versions.
pub fn texts_have_verdicts()
    ensures versions { (packages : List ℕ) (stanzas : ℕ) (r : PackageList) → IsRepositoryOf packages stanzas r → HaveVersions r }
    ensures verdict { (packages : List ℕ) (stanzas : ℕ) (r : PackageList) (limits : Limits) (text : List ℕ) → IsRepositoryOf packages stanzas r
        → ((h : Header) (made : List Claim) → ¬ IsAccepted r limits text h made) → ¬ ((fault : CertFault) → ¬ IsRefused r limits text fault) }
{
    packages_are_spelled();
    each_text_has_a_verdict();
}
