//! Which later archives steps reach, and by which plan.
ghost use Rattle.std.specs.Prelude.{◌≢◌, ◌↔◌, ℕ, Err, IfOk, IsOk};
ghost use Rattle.dist_base.specs.Answers.{IsExactly};
ghost use Rattle.dist_repo.specs.Order.{IsFlat};
ghost use Rattle.dist_future.specs.Future.{IsFuture};
ghost use Rattle.dist_archive.specs.Reach.{AreTaken, IsFirstMisfit, IsPlan};
ghost use Rattle.dist_archive.specs.Steps.{Lead};

use crate::fitting::check;
use crate::plan::{Plan, ReachError};
use crate::planning::plan_of;
use dist_repo::Repository;
use dist_space::Space;
use std::alloc::Global;

/// The plan that leads from the repository of a space to the packages of a later one, or the first package that does not fit. The
/// cost is that of finding each package's name by halving, in both; only packages that come are copied.
pub fn reach(alloc: Global, space: &Space, later: &Repository) -> Result<Plan, ReachError>
    requires flat { IsFlat later.now.packages }
    ensures plan { IfOk result (IsPlan space.now later.now.packages) }
    ensures leads { IfOk result (λ plan. Lead space.now plan space.now.repository.packages later.now.packages) }
    ensures taken { IfOk result (λ plan. AreTaken space.now plan space.now.repository.packages later.now.packages) }

    // Want of memory apart, there is a plan exactly where the packages are a future, and else the first misfit is told.
    ensures future { result ≢ Err ReachError.NoMemory → (IsOk result ↔ IsFuture space.now.repository later.now.packages) }
    ensures misfit { (number : ℕ) → IsExactly ReachError.NoMemory result (ReachError.NotAFuture number) (IsFirstMisfit space.now.repository later.now.packages number) }
{
    space.keeps_invariant();
    match check(alloc, space, later) {
        Ok(founds) => plan_of(alloc, space, later, &founds),
        Err(error) => Err(error),
    }
}
