//! Whole trials.
ghost use Rattle.std.specs.Prelude.{◌≤◌};
ghost use Rattle.dist_base.specs.declared.TheConstants.{MAX_SIZE};
ghost use Rattle.dist_subject.specs.Limited.{AreStated};

use dist_base::DEFAULT_LIMIT;
use dist_generate::generate;
use dist_outside::{Limits, MemoryDesk, What, WorkError};
use dist_package::read_packages;
use dist_repo::Repository;
use dist_samples::limited;
use dist_strong::strong;
use dist_trial::{marks_are_counted, trial};
use std::alloc::Global;

const TWO: &str = "size 2
strong 1
uninstallable 0
outdated 0
challenged 0
undecided 0
accepted 3
";

/// Whether the trial of a size and a seed has this summary, and leaves nothing undecided.
fn is_told(alloc: Global, size: u32, seed: u32, summary: &str) -> bool
    requires some { 1 ≤ size }
    requires few { size ≤ MAX_SIZE }
{
    match trial(alloc, size, seed, &Limits::stated()) {
        Ok(told) => {
            let same = told.summary.as_slice() == summary.as_bytes() && !told.undecided;
            drop(told);
            same
        }
        Err(_) => false,
    }
}

#[test]
fn two_packages(rt: HostRuntime) {
    marks_are_counted();
    assert!(rt; is_told(rt.alloc(), 2, 0, TWO));
}

const SIXTY: &str = "size 60
strong 41
uninstallable 13
outdated 2
challenged 8
undecided 0
accepted 3
";

#[test]
fn sixty_packages(rt: HostRuntime) {
    assert!(rt; is_told(rt.alloc(), 60, 1, SIXTY));
}

/// Whether the sweep for strong dependencies keeps some limits over a repository.
fn keeps(alloc: Global, repository: &Repository, limits: &Limits) -> bool
    requires { AreStated limits.now }
{
    if !repository.is_within_size() {
        return false;
    }
    match MemoryDesk::new(alloc, usize::MAX, &[]) {
        Ok(mut desk) => {
            let swept = strong(
                alloc,
                repository,
                false,
                &mut desk,
                "c",
                DEFAULT_LIMIT,
                limits,
            );
            drop(desk);
            match swept {
                Ok(claims) => {
                    drop(claims);
                    true
                }
                Err(_) => false,
            }
        }
        Err(_) => false,
    }
}

/// The same over the packages of a text, of which there are so many at most.
fn keeps_text(alloc: Global, text: &[u8], packages: u32, limits: &Limits) -> bool
    requires { AreStated limits.now }
{
    match read_packages(alloc, text, packages) {
        Ok(repository) => {
            let kept = keeps(alloc, &repository, limits);
            drop(repository);
            kept
        }
        Err(_) => false,
    }
}

/// The same over the archive of this size and seed.
fn keeps_strong(alloc: Global, size: u32, seed: u32, limits: &Limits) -> bool
    requires some { 1 ≤ size }
    requires few { size ≤ MAX_SIZE }
    requires limits { AreStated limits.now }
{
    match generate(alloc, size, seed) {
        Ok(text) => {
            let kept = keeps_text(alloc, &text, size, limits);
            drop(text);
            kept
        }
        Err(_) => false,
    }
}
/// The error of the trial of a size and a seed.
fn error_of(alloc: Global, size: u32, seed: u32, limits: &Limits) -> Option<WorkError>
    requires some { 1 ≤ size }
    requires few { size ≤ MAX_SIZE }
    requires limits { AreStated limits.now }
{
    match trial(alloc, size, seed, limits) {
        Ok(told) => {
            drop(told);
            None
        }
        Err(error) => Some(error),
    }
}

// There are eight clauses of the present, and more of the futures.
#[test]
fn a_later_certificate_may_pass_a_number(rt: HostRuntime) {
    let limits = limited(What::Clauses, 8);
    assert!(rt; keeps_strong(rt.alloc(), 8, 31, &limits));
    let error = error_of(rt.alloc(), 8, 31, &limits);
    assert!(rt; error == Some(WorkError::TooLarge(What::Clauses)));
}

/// Numbers that a trial of two packages passes, each where it is at most this.
const PASSED: &[(What, u32)] = &[
    (What::Bytes, 1),
    (What::Stanzas, 1),
    (What::Clauses, 1),
    (What::Literals, 1),
    (What::Certificate, 60),
    (What::RecordLine, 20),
];

/// The place of the first number that such a trial does not pass.
fn kept_number(alloc: Global, rows: &[(What, u32)]) -> Option<usize> {
    for place in 0..rows.len() {
        let (what, number) = rows[place];
        let error = error_of(alloc, 2, 0, &limited(what, number));
        if error != Some(WorkError::TooLarge(what)) {
            return Some(place);
        }
    }
    None
}

#[test]
fn limits_that_are_passed(rt: HostRuntime) {
    assert_eq!(rt; kept_number(rt.alloc(), PASSED), None);
}
