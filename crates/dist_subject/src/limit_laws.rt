//! Which number what certificates are judged by passes first. The function does nothing.
ghost use Rattle.std.specs.Prelude.{◌≡◌, Bool};
ghost use Rattle.dist_cert.specs.declared.records.CertKind.{CertKind};
ghost use Rattle.dist_outside.specs.declared.limits.Limits.{Limits};
ghost use Rattle.dist_outside.specs.declared.trouble.What.{What};
ghost use Rattle.dist_repo.specs.Order.{IsInOrder};
ghost use Rattle.dist_repo.specs.PackageList.{PackageList};
ghost use Rattle.dist_subject.specs.Basis.{Basis, IsBasisOf};
ghost use Rattle.dist_subject.specs.Limited.{AreInputsWithin, PassesFirst};

use dist_now::{present_clauses_are_there, present_clauses_go_on};
use dist_repo::latest_is_one;
use dist_space::spaces_are_one;
use dist_space_clauses::{one_limit_is_passed, space_clauses_go_on};

/// What keeps all numbers passes none, and no other one than the first.
pub fn first_numbers_are_one()
    ensures kept { (r : PackageList) (kind : CertKind) (essential : Bool) (limits : Limits) (basis : Basis) (what : What)
        → IsBasisOf r kind essential basis → AreInputsWithin limits r basis → ¬ PassesFirst r kind essential limits what }
    ensures one { (r : PackageList) (kind : CertKind) (essential : Bool) (limits : Limits) (what other : What) → IsInOrder r.packages
        → PassesFirst r kind essential limits what → PassesFirst r kind essential limits other → other ≡ what }
{
    latest_is_one();
    present_clauses_are_there();
    present_clauses_go_on();
    spaces_are_one();
    space_clauses_go_on();
    one_limit_is_passed();
}
