//! The report of what a certificate claims, by the certificate's kind.
ghost use Rattle.std.specs.Prelude.{◌<◌, ◌^◌, IfOk, length};
ghost use Rattle.dist_report.specs.ReportText.{IsReportText};

use crate::challenged_report::challenged_text;
use crate::labels::Labels;
use crate::outdated_report::outdated_text;
use crate::strong_report::strong_text;
use dist_cert::{CertKind, Claims, Header};
use dist_repo::Repository;
use std::alloc::{AllocError, Global};

/// The same, by the labels of the packages.
fn text_by(
    alloc: Global,
    labels: &Labels,
    header: &Header,
    claims: &Claims,
) -> Result<Vec<u8>, AllocError>
    requires { length claims.now < 2 ^ 32 }
    ensures { IfOk result (λ text. IsReportText labels.now header.now claims.now text.items) }
{
    match header.kind {
        CertKind::Strong => strong_text(alloc, labels, header.limit, claims),
        CertKind::Outdated => outdated_text(alloc, labels, header.limit, claims),
        CertKind::Challenged => challenged_text(alloc, labels, header.limit, claims),
    }
}

/// The report of what an accepted certificate claims of the packages of a repository. Of the first line it goes by the kind
/// and the limit.
///
/// Its time and memory are linear in the packages and the listed pairs; of kind challenged also in the atoms of the
/// repository and the classes of its clusters, but for sorting.
pub fn text(
    alloc: Global,
    repo: &Repository,
    header: &Header,
    claims: &Claims,
) -> Result<Vec<u8>, AllocError>
    ensures { IfOk result (λ text. IsReportText repo.now header.now claims.now text.items) }
{
    if claims.len() > u32::MAX as usize {
        // No memory has numbers for so many packages.
        return Err(AllocError);
    }
    let labels = Labels::new(alloc, repo)?;
    let text = text_by(alloc, &labels, header, claims);
    drop(labels);
    text
}
