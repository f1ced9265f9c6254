//! What the check of a text over a few stanzas answers.
ghost use Rattle.dist_subject.specs.Limited.{AreStated};

use dist_cert::{CertCause, CertFault};
use dist_check::{Verdict, check};
use dist_outside::{Limits, MemoryDesk, WorkError};
use dist_repo::Repository;
use dist_samples::repository;
use std::alloc::Global;

/// What a check answers.
pub type Answer = Result<Verdict, WorkError>;

/// What the check of a text over a repository answers, where the desk's call of a number fails and a file is asked for.
fn answer_over(
    alloc: Global,
    repository: &Repository,
    text: &[u8],
    limits: &Limits,
    failing: (u64, &str),
) -> Option<Answer>
    requires { AreStated limits.now }
{
    if !repository.is_within_size() {
        return None;
    }
    let mut desk = MemoryDesk::new(alloc, 7, &[failing.0]).ok()?;
    let answer = match desk.put("c", text) {
        Ok(()) => Some(check(alloc, repository, &mut desk, failing.1, limits)),
        Err(_) => None,
    };
    drop(desk);
    answer
}

/// What the check of a text over some stanzas answers, where a call of the desk fails and a file is asked for.
pub fn answer_at(
    alloc: Global,
    stanzas: &str,
    text: &[u8],
    limits: &Limits,
    failing: (u64, &str),
) -> Option<Answer>
    requires { AreStated limits.now }
{
    let repository = repository(alloc, stanzas)?;
    let answer = answer_over(alloc, &repository, text, limits, failing);
    drop(repository);
    answer
}

/// What the check of a text over some stanzas answers.
pub fn answer(alloc: Global, stanzas: &str, text: &[u8], limits: &Limits) -> Option<Answer>
    requires { AreStated limits.now }
{
    answer_at(alloc, stanzas, text, limits, (0, "c"))
}

/// Whether a text over some stanzas is accepted.
pub fn is_accepted(alloc: Global, stanzas: &str, text: &[u8]) -> bool {
    match answer(alloc, stanzas, text, &Limits::stated()) {
        Some(Ok(verdict)) => {
            let accepted = matches!(verdict, Verdict::Accepted(_, _));
            drop(verdict);
            accepted
        }
        _ => false,
    }
}

/// The fault that a verdict tells.
fn fault_in(verdict: &Verdict) -> Option<CertFault> {
    match verdict {
        Verdict::Refused(fault) => Some(*fault),
        _ => None,
    }
}

/// The fault of a refused text over some stanzas.
pub fn fault_of(alloc: Global, stanzas: &str, text: &[u8], limits: &Limits) -> Option<CertFault>
    requires { AreStated limits.now }
{
    match answer(alloc, stanzas, text, limits) {
        Some(Ok(verdict)) => {
            let fault = fault_in(&verdict);
            drop(verdict);
            fault
        }
        _ => None,
    }
}

/// A fault.
pub fn at(line: u64, cause: CertCause) -> Option<CertFault> {
    Some(CertFault { line, cause })
}
