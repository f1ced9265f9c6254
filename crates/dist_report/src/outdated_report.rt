//! The report of outdated packages.
ghost use Rattle.std.specs.Prelude.{◌≡◌, ◌<◌, ◌^◌, IfOk, length};
ghost use Rattle.dist_report.specs.OutdatedReport.{outdated_lines};

use crate::claim_parts::{Part, opened, write_part};
use crate::labels::Labels;
use dist_cert::Claims;
use std::alloc::{AllocError, Global};

/// The report of claims of outdated packages.
pub(crate) fn outdated_text(
    alloc: Global,
    labels: &Labels,
    limit: u32,
    claims: &Claims,
) -> Result<Vec<u8>, AllocError>
    requires { length claims.now < 2 ^ 32 }
    ensures { IfOk result (λ text. text.items ≡ outdated_lines labels.now.packages limit claims.now) }
{
    let repo = labels.repo();
    let mut out = opened(alloc, repo, b"outdated", limit, 0)?;
    write_part(
        alloc,
        &mut out,
        labels,
        claims,
        b"outdated:",
        Part::OutOfDate,
    )?;
    write_part(
        alloc,
        &mut out,
        labels,
        claims,
        b"undecided:",
        Part::NotKnown,
    )?;
    Ok(out)
}
