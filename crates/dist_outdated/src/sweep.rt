//! The sweep for outdated packages.
ghost use Rattle.std.specs.Prelude.{◌≤◌};
ghost use Rattle.dist_base.specs.declared.TheConstants.{MAX_LIMIT};
ghost use Rattle.dist_outside.specs.Files.{IsNotWriting};
ghost use Rattle.dist_cert.specs.declared.records.CertKind.TheVariants.{Outdated};
ghost use Rattle.dist_repo.specs.Size.{IsWithinSize};
ghost use Rattle.dist_subject.specs.Limited.{AreStated};
ghost use Rattle.dist_sweep.specs.Sweep.{SweepAnswers, TellsFirst};

use crate::outdated_claimant::OutdatedClaimant;
use dist_cert::{CertKind, Claims};
use dist_outside::{Desk, Limits, WorkError};
use dist_repo::Repository;
use dist_subject::{first_numbers_are_one, later_inputs};
use dist_sweep::{SweepInputs, write_sweep};
use std::alloc::Global;

/// Writes a certificate of the outdated packages to the file of that name, and tells its claims, one for each of the newest
/// packages in order. So many derived lines leave a question undecided. The file grows while the sweep works.
pub fn outdated<D: Desk>(
    alloc: Global,
    repo: &Repository,
    essential: bool,
    desk: &mut D,
    name: &str,
    limit: u32,
    limits: &Limits,
) -> Result<Claims, WorkError>
    requires idle { IsNotWriting (D.view desk.old).mode }
    requires size { IsWithinSize repo.now }
    requires from_one { 1 ≤ limit }
    requires upto { limit ≤ MAX_LIMIT }
    requires limits { AreStated limits.now }
    ensures answers { SweepAnswers repo.now Outdated essential limit limits.now name.now (D.view desk.old) (D.view desk.new) result }
    ensures first { TellsFirst repo.now Outdated essential limits.now result }
{
    first_numbers_are_one();
    repo.keeps_invariant();
    let inputs = later_inputs(alloc, repo, essential, limits)?;
    let over = SweepInputs {
        kind: CertKind::Outdated,
        essential,
        limit,
        packages: inputs.space.package_count(),
        clauses: inputs.clauses,
    };
    let mut claimant = OutdatedClaimant::new(alloc, inputs.space)?;
    let claims = write_sweep(alloc, &mut claimant, over, desk, name, limits);
    drop(claimant);
    claims
}
