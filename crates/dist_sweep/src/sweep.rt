//! A sweep over the input clauses of what certificates are judged by.
ghost use Rattle.std.specs.Prelude.{◌≡◌, ◌<◌, ◌≤◌, ◌^◌, ℕ};
ghost use Rattle.dist_base.specs.declared.TheConstants.{MAX_LIMIT, MAX_LINES, MAX_LINE_LITERALS};
ghost use Rattle.dist_outside.specs.Files.{IsNotWriting};
ghost use Rattle.dist_sweep.specs.Sweeping.{SweepsOver, first_header};

use crate::claimant::Claimant;
use crate::file::write_file;
use dist_cert::{CertKind, Claims, Header};
use dist_clause::ClauseSet;
use dist_line_write::Asker;
use dist_outside::{Desk, Limits, WorkError};
use dist_subject::models_are_healthy;
use std::alloc::Global;

/// What a sweep goes over: the kind, the mode, after how many derived lines a question is left undecided, the number of
/// packages, and the input clauses.
#[derive(Drop)]
pub struct SweepInputs {
    pub kind: CertKind,
    pub essential: bool,
    pub limit: u32,
    pub packages: u32,
    pub clauses: ClauseSet,
}

/// The number of packages. That it has 32 bits is known of a call's answer, and not of a field behind a reference: this function
/// is there to tell it to `first_line`.
fn packages_of(over: &SweepInputs) -> u32
    ensures { result ≡ over.now.packages }
{
    over.packages
}

/// The first line of a certificate.
fn first_line(over: &SweepInputs) -> Header
    ensures value { result ≡ first_header over.now }
    ensures packages { result.packages < 2 ^ 32 }
    ensures variables { result.variables < 2 ^ 32 }
    ensures clauses { result.clauses < 2 ^ 32 }
{
    Header {
        kind: over.kind,
        limit: over.limit,
        packages: packages_of(over),
        variables: over.clauses.variables(),
        clauses: over.clauses.len(),
        essential: over.essential,
    }
}

/// Writes the certificate of a sweep to the file of that name. It is closed whatever comes.
pub fn write_sweep<C: Claimant, D: Desk>(
    alloc: Global,
    claimant: &mut C,
    over: SweepInputs,
    desk: &mut D,
    name: &str,
    limits: &Limits,
) -> Result<Claims, WorkError>
    requires idle { IsNotWriting (D.view desk.old).mode }
    requires from_one { 1 ≤ over.limit }
    requires upto { over.limit ≤ MAX_LIMIT }
    requires lines { limits.now.lines ≤ MAX_LINES }
    requires line_literals { limits.now.line_literals ≤ MAX_LINE_LITERALS }
    requires fits { (p : ℕ) → 1 ≤ p → p ≤ over.packages → C.fits claimant.old over.clauses.variables p }
    ensures { SweepsOver C.keeps over limits.now claimant.old name.now (D.view desk.old) (D.view desk.new) result }
{
    models_are_healthy();
    let header = first_line(&over);
    let mut asker = Asker::new(alloc, over.clauses, over.limit, limits)?;
    let claims = write_file(alloc, claimant, &mut asker, desk, name, &header);
    drop(asker);
    claims
}
