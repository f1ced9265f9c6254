//! The claims of a repository: a sweep writes its certificate to a desk in memory, and the check reads it there.
ghost use Rattle.std.specs.Prelude.{◌≡◌, ◌≤◌, IfOk, codes, false, length};
ghost use Rattle.dist_base.specs.declared.TheConstants.{DEFAULT_LIMIT, MAX_PACKAGES};
ghost use Rattle.dist_outside.specs.Files.{IsNotWriting};
ghost use Rattle.dist_outside.specs.Memory.{desk_view};
ghost use Rattle.dist_repo.specs.Size.{IsWithinSize};
ghost use Rattle.dist_subject.specs.Limited.{AreStated, PassesFirst};
ghost use Rattle.dist_sweep.specs.Sweep.{SweepAnswers, TellsFirst};
ghost use Rattle.dist_trial.specs.ClaimingPrivate.{in_memory};
ghost use Rattle.dist_trial.specs.Trial.{AreSwept, IsStoppedAt, SweptAnswers, Tells};

use dist_base::DEFAULT_LIMIT;
use dist_cert::{CertKind, Claims};
use dist_challenge::challenged;
use dist_check::{Verdict, check, texts_have_one_answer, texts_have_one_verdict};
use dist_outdated::outdated;
use dist_outside::{Limits, MemoryDesk, WorkError};
use dist_repo::{Repository, latest_is_one};
use dist_strong::strong;
use std::alloc::Global;

/// The file on the desk.
const CERTIFICATE: &str = "certificate";

/// Why work on a desk in memory stops. No call of it is made to fail, so what it lacks is memory.
fn in_memory(error: WorkError) -> WorkError
    ensures { result ≡ in_memory error }
{
    match error {
        WorkError::ReadFault | WorkError::WriteFault => WorkError::NoMemory,
        error => error,
    }
}

/// Writes the certificate of a kind, plain.
fn write(
    alloc: Global,
    repo: &Repository,
    kind: CertKind,
    desk: &mut MemoryDesk,
    limits: &Limits,
) -> Result<Claims, WorkError>
    requires idle { IsNotWriting desk.old.mode }
    requires size { IsWithinSize repo.now }
    requires limits { AreStated limits.now }
    ensures answers { SweepAnswers repo.now kind false DEFAULT_LIMIT limits.now (codes "certificate") (desk_view desk.old) (desk_view desk.new) result }
    ensures first { TellsFirst repo.now kind false limits.now result }
{
    let (name, limit) = (CERTIFICATE, DEFAULT_LIMIT);
    match kind {
        CertKind::Strong => strong(alloc, repo, false, desk, name, limit, limits),
        CertKind::Outdated => outdated(alloc, repo, false, desk, name, limit, limits),
        CertKind::Challenged => challenged(alloc, repo, false, desk, name, limit, limits),
    }
}

/// The claims of a certificate of a kind, plain, which is written and then checked.
#[tactic(none)]
pub(crate) fn claims_of(
    alloc: Global,
    repo: &Repository,
    kind: CertKind,
    limits: &Limits,
) -> Result<Claims, WorkError>
    requires size { IsWithinSize repo.now }
    requires limits { AreStated limits.now }
    ensures answers { SweptAnswers (AreSwept repo.now kind limits.now) (IsStoppedAt repo.now kind limits.now) result }
    ensures few { IfOk result (λ made. length made ≤ MAX_PACKAGES) }
    ensures first { Tells (PassesFirst repo.now kind false limits.now) result }
{
    latest_is_one();
    texts_have_one_verdict();
    texts_have_one_answer();
    repo.keeps_invariant();
    let mut desk = MemoryDesk::new(alloc, usize::MAX, &[])?;
    match write(alloc, repo, kind, &mut desk, limits) {
        Ok(_) => {}
        Err(error) => return Err(in_memory(error)),
    }
    match check(alloc, repo, &mut desk, CERTIFICATE, limits) {
        Ok(Verdict::Accepted(_, claims)) => Ok(claims),
        // What a sweep wrote is accepted.
        Ok(Verdict::Refused(_)) => unreachable!(),
        // A text that is accepted passes no number.
        Err(WorkError::TooLarge(_)) => unreachable!(),
        // A check writes nothing.
        Err(WorkError::WriteFault) => unreachable!(),
        // No call of the desk is made to fail, so what the check lacks is memory.
        Err(WorkError::ReadFault | WorkError::NoMemory) => Err(WorkError::NoMemory),
    }
}
