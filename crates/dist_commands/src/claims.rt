//! What is told of the claims of a certificate.
ghost use Rattle.std.specs.Prelude.{◌≡◌, IfOk};
ghost use Rattle.dist_report.specs.ReportText.{IsReportText};
ghost use Rattle.dist_commands.specs.Claims.{IsReportOf, claims_status, marked_status};

use crate::answer::Answer;
use crate::status::Status;
use dist_cert::{CertKind, Claims, Header};
use dist_repo::Repository;
use dist_report::{some_has_mark, text};
use std::alloc::{AllocError, Global};

/// The status of a run that reports claims, by whether something is left undecided.
pub(crate) fn marked_status(undecided: bool) -> Status
    ensures { result ≡ marked_status undecided }
{
    if undecided {
        Status::DoneWithUndecided
    } else {
        Status::Done
    }
}

/// The report of claims, of the packages that certificates of their kind speak of. Of the first line it goes by the kind and
/// the limit.
pub(crate) fn report(
    alloc: Global,
    repository: &Repository,
    header: &Header,
    claims: &Claims,
) -> Result<Answer, AllocError>
    ensures status { IfOk result (λ answer. answer.status ≡ claims_status claims.now) }
    ensures text { IfOk result (λ answer. IsReportOf repository.now header.now.kind header.now.limit claims.now answer.text.items) }
{
    match header.kind {
        CertKind::Strong => tell_claims(alloc, repository, header, claims),
        CertKind::Outdated | CertKind::Challenged => {
            let newest = repository.latest()?;
            let answer = tell_claims(alloc, &newest, header, claims);
            drop(newest);
            answer
        }
    }
}

/// The report of claims, with its status.
fn tell_claims(
    alloc: Global,
    repository: &Repository,
    header: &Header,
    claims: &Claims,
) -> Result<Answer, AllocError>
    ensures status { IfOk result (λ answer. answer.status ≡ claims_status claims.now) }
    ensures text { IfOk result (λ answer. IsReportText repository.now header.now claims.now answer.text.items) }
{
    let text = text(alloc, repository, header, claims)?;
    Ok(Answer {
        status: marked_status(some_has_mark(claims)),
        text,
    })
}
