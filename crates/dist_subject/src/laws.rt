//! Laws of what certificates are judged by. The functions do nothing.
ghost use Rattle.std.specs.Prelude.{◌≡◌, ℕ, Bool, List, length};
ghost use Rattle.dist_clause.specs.Formula.{Literal};
ghost use Rattle.dist_repo.specs.Order.{IsInOrder};
ghost use Rattle.dist_repo.specs.PackageList.{PackageList};
ghost use Rattle.dist_cert.specs.declared.records.CertKind.{CertKind};
ghost use Rattle.dist_cert.specs.declared.records.CertKind.TheVariants.{Strong};
ghost use Rattle.dist_future.specs.Future.{IsFuture};
ghost use Rattle.dist_future.specs.SpaceLaws.{future_under};
ghost use Rattle.dist_space.specs.Space.{IsSpace, SpaceView};
ghost use Rattle.dist_subject.specs.Basis.{Basis, HaveVersions, IsBasisOf, matter_of};
ghost use Rattle.dist_subject.specs.Installed.{AreModelsHealthy};
ghost use Rattle.dist_subject.specs.Later.{later_matter};
ghost use Rattle.dist_subject.specs.Present.{truth_of};

use dist_future::{futures_meet_their_clauses, healthy_are_models, healthy_stand_for_futures};
use dist_now::{models_are_installations, present_clauses_are_one, present_clauses_are_there};
use dist_repo::latest_is_one;
use dist_space::{spaces_are_one, spaces_are_there};
use dist_space_clauses::{space_clauses_are_one, space_clauses_are_there};

/// What certificates are judged by is one at each kind and mode. For kinds outdated and challenged there is some at least where
/// the newest packages have versions, as they do in a repository that was read.
pub fn bases_are_one()
    ensures today { (r : PackageList) (essential : Bool) → IsInOrder r.packages → (basis : Basis) × IsBasisOf r Strong essential basis }
    ensures there { (r : PackageList) (kind : CertKind) (essential : Bool) → IsInOrder r.packages → HaveVersions r
        → (basis : Basis) × IsBasisOf r kind essential basis }
    ensures one { (r : PackageList) (kind : CertKind) (essential : Bool) (basis other : Basis) → IsBasisOf r kind essential basis
        → IsBasisOf r kind essential other → other ≡ basis }
{
    latest_is_one();
    present_clauses_are_there();
    present_clauses_are_one();
    spaces_are_there();
    spaces_are_one();
    space_clauses_are_there();
    space_clauses_are_one();
}

/// The sets of variables that stand for a future and a healthy installation in it are exactly the models of the input clauses.
pub fn models_are_healthy()
    ensures { (r : PackageList) (kind : CertKind) (essential : Bool) (basis : Basis) → IsInOrder r.packages
        → IsBasisOf r kind essential basis → AreModelsHealthy (matter_of r basis) }
{
    models_are_installations();
    futures_meet_their_clauses();
    healthy_are_models();
    healthy_stand_for_futures();
}

/// A set of variables that stands for a future, by the clauses of the space, stands for packages that are one.
pub fn futures_are_of_the_packages()
    ensures { (s : SpaceView) (clauses : List (List Literal)) (members : List ℕ) → IsSpace s → (later_matter s clauses).IsFuture members
        → IsFuture s.repository (future_under s (truth_of (length s.meanings) members)) }
{
    futures_meet_their_clauses();
}
