//! The stages that accept a file: a certificate, or that of an explanation or of a repair.
ghost use Rattle.std.specs.Prelude.{IfErr, IfOk};
ghost use Rattle.dist_outside.specs.DeskView.{OnlyReads};
ghost use Rattle.dist_outside.specs.Files.{IsNotWriting};
ghost use Rattle.dist_repo.specs.Size.{IsWithinSize};
ghost use Rattle.dist_check.specs.Answers.{AcceptedMeans};
ghost use Rattle.dist_check.specs.JudgedSpace.{IsSpaceGiven};
ghost use Rattle.dist_explain.specs.Verdicts.{AcceptedMeans as ExplanationMeans};
ghost use Rattle.dist_repair.specs.Verdicts.{AcceptedSays};
ghost use Rattle.dist_commands.specs.Check.{CertificateStage};
ghost use Rattle.dist_commands.specs.CheckExplain.{ExplanationStage};
ghost use Rattle.dist_commands.specs.CheckRepair.{RepairStage};
ghost use Rattle.dist_commands.specs.DuePrivate.{IsDue};
ghost use Rattle.dist_commands.specs.FollowPrivate.{pair_of};
ghost use Rattle.dist_commands.specs.StatedLimits.{IsWithinStated};
ghost use Rattle.dist_commands.specs.Stages.{Ends, Goes};

use crate::refusal::{Refusal, refusal_of};
use dist_cert::{Claims, Header};
use dist_check::{Judged, Verdict, check_with_space};
use dist_explain::{ExplainHeader, ExplainVerdict, Explained, check_explained};
use dist_outside::{Desk, Limits};
use dist_repair::{Repair, RepairHeader, RepairVerdict, check_repair};
use dist_repo::Repository;
use dist_space::Space;
use std::alloc::Global;

/// The first line of a certificate that was accepted, and its claims.
#[derive(Drop)]
pub(crate) struct Accepted {
    pub(crate) header: Header,
    pub(crate) claims: Claims,
}

/// What CERT says of a repository, if it is accepted, and the space that it is judged by, where that is wanted and there is one.
pub(crate) fn accept<D: Desk>(
    alloc: Global,
    desk: &mut D,
    repository: &Repository,
    cert: &str,
    wants_space: bool,
    limits: &Limits,
) -> Result<(Accepted, Option<Space>), Refusal>
    requires not_writing { IsNotWriting (D.view desk.old).mode }
    requires within { IsWithinStated limits.now }
    requires within_size { IsWithinSize repository.now }
    ensures goes { IfOk result (λ told. CertificateStage (D.view desk.old).files limits.now cert.now repository.now (Goes (pair_of told.0))) }
    ensures means { IfOk result (λ told. AcceptedMeans repository.now told.0.header told.0.claims) }
    ensures space { IfOk result (λ told. IsSpaceGiven repository.now limits.now wants_space told.0.header.kind told.0.header.essential told.1) }
    ensures due { IfErr result (IsDue (λ ending. CertificateStage (D.view desk.old).files limits.now cert.now repository.now (Ends ending))
        (D.view desk.old) (D.view desk.new)) }
    ensures only_reads { OnlyReads (D.view desk.old) (D.view desk.new) }
{
    match check_with_space(alloc, repository, desk, cert, wants_space, limits) {
        Ok(Judged { verdict, space }) => match verdict {
            Verdict::Accepted(header, claims) => Ok((Accepted { header, claims }, space)),
            Verdict::Refused(fault) => Err(Refusal::CertificateRefused(fault)),
        },
        Err(error) => Err(refusal_of(error)),
    }
}

/// The header of an accepted file of an explanation, and what it answers.
#[derive(Drop)]
pub(crate) struct AcceptedExplanation {
    pub(crate) header: ExplainHeader,
    pub(crate) explained: Explained,
}

/// What CERT answers of a package of a repository, if it is accepted.
pub(crate) fn accept_explanation<D: Desk>(
    alloc: Global,
    desk: &mut D,
    repository: &Repository,
    cert: &str,
    limits: &Limits,
) -> Result<AcceptedExplanation, Refusal>
    requires not_writing { IsNotWriting (D.view desk.old).mode }
    requires within { IsWithinStated limits.now }
    requires within_size { IsWithinSize repository.now }
    ensures goes { IfOk result (λ accepted. ExplanationStage (D.view desk.old).files limits.now cert.now repository.now
        (Goes (accepted.header, accepted.explained))) }
    ensures means { IfOk result (λ accepted. ExplanationMeans repository.now accepted.header accepted.explained) }
    ensures due { IfErr result (IsDue (λ ending. ExplanationStage (D.view desk.old).files limits.now cert.now repository.now (Ends ending))
        (D.view desk.old) (D.view desk.new)) }
    ensures only_reads { OnlyReads (D.view desk.old) (D.view desk.new) }
{
    match check_explained(alloc, repository, desk, cert, limits) {
        Ok(ExplainVerdict::Accepted(header, explained)) => {
            Ok(AcceptedExplanation { header, explained })
        }
        Ok(ExplainVerdict::Refused(fault)) => Err(Refusal::CertificateRefused(fault)),
        Err(error) => Err(refusal_of(error)),
    }
}

/// The header of an accepted file of a repair, and what it answers.
#[derive(Drop)]
pub(crate) struct AcceptedRepair {
    pub(crate) header: RepairHeader,
    pub(crate) repair: Repair,
}

/// What CERT answers of a package of a space, if it is accepted.
pub(crate) fn accept_repair<D: Desk>(
    alloc: Global,
    desk: &mut D,
    space: &Space,
    cert: &str,
    limits: &Limits,
) -> Result<AcceptedRepair, Refusal>
    requires not_writing { IsNotWriting (D.view desk.old).mode }
    requires within { IsWithinStated limits.now }
    ensures goes { IfOk result (λ accepted. RepairStage (D.view desk.old).files limits.now cert.now space.now (Goes (accepted.header, accepted.repair))) }
    ensures says { IfOk result (λ accepted. AcceptedSays space.now accepted.header accepted.repair) }
    ensures due { IfErr result (IsDue (λ ending. RepairStage (D.view desk.old).files limits.now cert.now space.now (Ends ending))
        (D.view desk.old) (D.view desk.new)) }
    ensures only_reads { OnlyReads (D.view desk.old) (D.view desk.new) }
{
    match check_repair(alloc, space, desk, cert, limits) {
        Ok(RepairVerdict::Accepted(header, repair)) => Ok(AcceptedRepair { header, repair }),
        Ok(RepairVerdict::Refused(fault)) => Err(Refusal::CertificateRefused(fault)),
        Err(error) => Err(refusal_of(error)),
    }
}
