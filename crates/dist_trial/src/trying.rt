//! A trial, stage by stage.
ghost use Rattle.std.specs.Prelude.{◌≤◌, ◌<◌, false, length};
ghost use Rattle.dist_base.specs.declared.TheConstants.{MAX_SIZE};
ghost use Rattle.dist_base.specs.Answers.{IsExactly};
ghost use Rattle.dist_cert.specs.declared.records.CertKind.{CertKind};
ghost use Rattle.dist_cert.specs.declared.records.CertKind.TheVariants.{Strong};
ghost use Rattle.dist_generate.specs.Generator.{generated};
ghost use Rattle.dist_outside.specs.declared.trouble.What.TheVariants as what;
ghost use Rattle.dist_outside.specs.declared.trouble.WorkError.TheVariants.{NoMemory, TooLarge};
ghost use Rattle.dist_repo.specs.Size.{IsWithinSize};
ghost use Rattle.dist_subject.specs.Limited.{AreStated, PassesFirst};
ghost use Rattle.dist_trial.specs.Trial.{IsStoppedAt, IsTrial, OfArchive, SweptAnswers, Tells, TrialAnswers};

use crate::archive::repository_of;
use crate::claiming::claims_of;
use crate::summary::told;
use crate::trials::Trial;
use dist_cert::CertKind;
use dist_outside::{Limits, WorkError};
use dist_package::packages_are_exact;
use dist_repo::Repository;
use std::alloc::Global;

/// Writes and checks the certificate of each kind of a repository of this size, and tells what they claim.
#[tactic(none)]
fn swept(alloc: Global, size: u32, repo: &Repository, limits: &Limits) -> Result<Trial, WorkError>
    requires size { IsWithinSize repo.now }
    requires limits { AreStated limits.now }
    ensures answers { SweptAnswers (λ done. IsTrial size limits.now done repo.now)
        (λ number. (kind : CertKind) × IsStoppedAt repo.now kind limits.now number) result }
    ensures first { Tells (PassesFirst repo.now Strong false limits.now) result }
{
    let strong = claims_of(alloc, repo, CertKind::Strong, limits)?;
    let outdated = claims_of(alloc, repo, CertKind::Outdated, limits)?;
    let challenged = claims_of(alloc, repo, CertKind::Challenged, limits)?;
    Ok(told(alloc, size, &strong, &outdated, &challenged)?)
}

/// Makes the archive of a size and a seed, writes and checks its certificate of strong dependencies, that of outdated packages
/// and that of challenges, and tells the summary of what they claim.
#[tactic(none)]
pub fn trial(alloc: Global, size: u32, seed: u32, limits: &Limits) -> Result<Trial, WorkError>
    requires some { 1 ≤ size }
    requires few { size ≤ MAX_SIZE }
    requires limits { AreStated limits.now }
    ensures answers { TrialAnswers size seed limits.now result }
    ensures too_many_bytes { IsExactly NoMemory result (TooLarge what.Bytes) (limits.now.bytes < length (generated size seed)) }
    ensures too_many_stanzas { IsExactly NoMemory result (TooLarge what.Stanzas) ((length (generated size seed) ≤ limits.now.bytes) × (limits.now.stanzas < size)) }
    ensures first { Tells (λ number. OfArchive size seed limits.now (λ r. PassesFirst r Strong false limits.now number)) result }
{
    packages_are_exact();
    let repo = repository_of(alloc, size, seed, limits)?;
    swept(alloc, size, &repo, limits)
}
