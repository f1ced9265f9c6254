//! The input clauses of what certificates are judged by, within the limits.
ghost use Rattle.std.specs.Prelude.{◌≡◌, ◌≢◌, IfErr, IfOk};
ghost use Rattle.dist_base.specs.Answers.{IsExactly};
ghost use Rattle.dist_cert.specs.declared.records.CertKind.{CertKind};
ghost use Rattle.dist_cert.specs.declared.records.CertKind.TheVariants.{Strong};
ghost use Rattle.dist_outside.specs.declared.trouble.What.{What};
ghost use Rattle.dist_outside.specs.declared.trouble.What.TheVariants as what;
ghost use Rattle.dist_outside.specs.declared.trouble.WorkError.TheVariants.{NoMemory, TooLarge};
ghost use Rattle.dist_repo.specs.Size.{IsWithinSize};
ghost use Rattle.dist_space_clauses.specs.Ends.{AreEndsOf};
ghost use Rattle.dist_space_clauses.specs.SpaceClauses.{IsDemand};
ghost use Rattle.dist_space_clauses.specs.SpaceSet.{IsSetOf};
ghost use Rattle.dist_subject.specs.Basis.{Later, Today};
ghost use Rattle.dist_judge.specs.Causes.{IsLarge};
ghost use Rattle.dist_subject.specs.Inputs.{AreInputsOf, large_by};
ghost use Rattle.dist_subject.specs.InputsPrivate.{IsSpaceWithin, PassesSpace};
ghost use Rattle.dist_subject.specs.Limited.{AreStated, PassesLater, PassesPresent};

use crate::limit_laws::first_numbers_are_one;
use dist_clause::{ClauseSet, PushError};
use dist_now::clauses_of;
use dist_outside::{Limits, What, WorkError};
use dist_repo::{Repository, latest_is_one};
use dist_space::{Space, SpaceError, space_of};
use dist_space_clauses::{FutureEnds, clauses_with_ends};
use std::alloc::Global;

/// The space of the futures of the newest packages with its clauses, which certificates of kinds outdated and challenged are
/// judged by.
#[derive(Drop)]
pub struct LaterInputs {
    pub space: Space,
    pub clauses: ClauseSet,
    /// Where the groups of clauses end that say what a future is.
    pub ends: FutureEnds,
}

/// What it comes to that clauses pass a limit.
pub fn too_large(error: PushError) -> WorkError
    ensures { result ≡ large_by error }
{
    match error {
        PushError::TooManyClauses => WorkError::TooLarge(What::Clauses),
        PushError::TooManyLiterals => WorkError::TooLarge(What::Literals),
        PushError::NoMemory => WorkError::NoMemory,
    }
}

/// The clauses of the present, which certificates of kind strong are judged by.
pub fn present_inputs(
    alloc: Global,
    repo: &Repository,
    essential: bool,
    limits: &Limits,
) -> Result<ClauseSet, WorkError>
    requires size { IsWithinSize repo.now }
    requires limits { AreStated limits.now }
    ensures ok { IfOk result (λ set. AreInputsOf repo.now Strong essential limits.now (Today essential set.clauses) set) }
    ensures exact { (what : What) → IsExactly NoMemory result (TooLarge what) (PassesPresent repo.now essential limits.now what) }
    ensures cause { IfErr result (IsLarge (PassesPresent repo.now essential limits.now)) }
{
    first_numbers_are_one();
    repo.keeps_invariant();
    match clauses_of(alloc, repo, essential, limits.clauses, limits.literals) {
        Ok(inputs) => {
            inputs.keeps_invariant();
            Ok(inputs)
        }
        Err(error) => Err(too_large(error)),
    }
}

/// The space of the futures of the newest packages.
fn newest_space(
    alloc: Global,
    repo: &Repository,
    essential: bool,
    limits: &Limits,
) -> Result<Space, WorkError>
    requires size { IsWithinSize repo.now }
    requires limits { AreStated limits.now }
    ensures ok { IfOk result (IsSpaceWithin repo.now essential limits.now) }
    ensures cause { IfErr result (IsLarge (PassesLater repo.now essential limits.now)) }
{
    latest_is_one();
    let newest = repo.latest()?;
    match space_of(alloc, newest, essential, limits.variables) {
        Ok(space) => Ok(space),
        Err(SpaceError::TooManyVariables) => Err(WorkError::TooLarge(What::Variables)),
        Err(SpaceError::NoMemory) => Err(WorkError::NoMemory),
    }
}

/// The clauses of a space.
fn space_clauses(
    alloc: Global,
    space: &Space,
    limits: &Limits,
) -> Result<(ClauseSet, FutureEnds), WorkError>
    requires { AreStated limits.now }
    ensures set { IfOk result (λ made. IsSetOf space.now (IsDemand space.now)
        limits.now.clauses limits.now.literals made.0) }
    ensures ends { IfOk result (λ made. AreEndsOf space.now made.0.clauses made.1) }
    ensures cause { IfErr result (IsLarge (PassesSpace space.now limits.now)) }
{
    match clauses_with_ends(alloc, space, limits.clauses, limits.literals) {
        Ok(made) => Ok(made),
        Err(error) => Err(too_large(error)),
    }
}

/// The clauses of the space of the futures of the newest packages.
pub fn later_inputs(
    alloc: Global,
    repo: &Repository,
    essential: bool,
    limits: &Limits,
) -> Result<LaterInputs, WorkError>
    requires size { IsWithinSize repo.now }
    requires limits { AreStated limits.now }
    ensures ok { (kind : CertKind) → kind ≢ Strong → IfOk result (λ made. AreInputsOf repo.now kind essential limits.now
        (Later made.space made.clauses.clauses) made.clauses) }
    ensures ends { IfOk result (λ made. AreEndsOf made.space made.clauses.clauses made.ends) }
    ensures exact { (what : What) → IsExactly NoMemory result (TooLarge what) (PassesLater repo.now essential limits.now what) }
    ensures cause { IfErr result (IsLarge (PassesLater repo.now essential limits.now)) }
{
    first_numbers_are_one();
    repo.keeps_invariant();
    let space = newest_space(alloc, repo, essential, limits)?;
    let (clauses, ends) = space_clauses(alloc, &space, limits)?;
    clauses.keeps_invariant();
    Ok(LaterInputs {
        space,
        clauses,
        ends,
    })
}
