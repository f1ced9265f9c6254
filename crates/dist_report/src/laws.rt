//! Laws of reports, apart from the work. The functions do nothing.
ghost use Rattle.std.specs.Prelude.{◌≡◌, ◌≢◌, ℕ, List, All};
ghost use Rattle.dist_version.specs.Spelling.{IsVersion};
ghost use Rattle.dist_relation.specs.Bytes.{IsName};
ghost use Rattle.dist_repo.specs.PackageList.{PackageList};
ghost use Rattle.dist_repo.specs.declared.package.Package.{Package};
ghost use Rattle.dist_cert.specs.declared.records.CertKind.TheVariants as kinds;
ghost use Rattle.dist_cert.specs.declared.records.Claim.{Claim};
ghost use Rattle.dist_cert.specs.declared.records.Header.{Header};
ghost use Rattle.dist_classes.specs.Atoms.{AreBoundsVersions};
ghost use Rattle.dist_classes.specs.ClassList.{class_text};
ghost use Rattle.dist_classes.specs.declared.class_value.Class.{Class};
ghost use Rattle.dist_report.specs.ClassesReport.{AreToldClusters, IsClassesText, ToldCluster};
ghost use Rattle.dist_report.specs.PackageText.{label};
ghost use Rattle.dist_report.specs.Plain.{HasVersionTexts, IsPlain};
ghost use Rattle.dist_report.specs.ReportText.{IsReportText};

use dist_classes::{classes_are_there, cuts_are_one, new_names_are_one, no_class_is_empty};
use dist_cluster::{partitions_are_one, tops_are_one};

/// The clusters of a repository are told in one way, at least where its versions and those of its bounds are versions.
fn told_clusters_are_one()
    ensures there { (r : PackageList) → AreBoundsVersions r → All (λ p. IsVersion p.version) r.packages → (clusters : List ToldCluster) × AreToldClusters r clusters }
    ensures one { (r : PackageList) (clusters others : List ToldCluster) → AreToldClusters r clusters → AreToldClusters r others → clusters ≡ others }
{
    partitions_are_one();
    tops_are_one();
    cuts_are_one();
    classes_are_there();
    no_class_is_empty();
}

/// A repository has one report of classes, at least where its versions and those of its bounds are versions, as they are in
/// a repository that was read.
pub fn classes_texts_are_one()
    ensures there { (r : PackageList) → AreBoundsVersions r → All (λ p. IsVersion p.version) r.packages → (text : List ℕ) × IsClassesText r text }
    ensures one { (r : PackageList) (text other : List ℕ) → IsClassesText r text → IsClassesText r other → text ≡ other }
{
    told_clusters_are_one();
    cuts_are_one();
    new_names_are_one();
    classes_are_there();
    no_class_is_empty();
}

/// A repository has one report of claims under a first line, at least in the same conditions. Of the kinds strong and outdated
/// it has one always.
pub fn reports_are_one()
    ensures there { (r : PackageList) → AreBoundsVersions r → All (λ p. IsVersion p.version) r.packages → (h : Header) (made : List Claim) → (text : List ℕ) × IsReportText r h made text }
    ensures always { (r : PackageList) (h : Header) (made : List Claim) → h.kind ≢ kinds.Challenged → (text : List ℕ) × IsReportText r h made text }
    ensures one { (r : PackageList) (h : Header) (made : List Claim) (text other : List ℕ) → IsReportText r h made text → IsReportText r h made other → text ≡ other }
{
    told_clusters_are_one();
}

/// No string of a report needs an escape: names, versions, packages and classes are plain.
pub fn strings_are_plain()
    ensures names { (name : List ℕ) → IsName name → IsPlain name }
    ensures versions { (version : List ℕ) → IsVersion version → IsPlain version }
    ensures labels { (p : Package) → IsName p.name → IsVersion p.version → IsPlain (label p) }
    ensures classes { (class : Class) → HasVersionTexts class → IsPlain (class_text class) }
{}
