//! Trials, each twice: the three sweeps and checks of an archive. And by the top call, a package with more installations than a claim may
//! name, and packages with large installations. Trials of larger archives take some 20 seconds as the gate builds them; `rt try`, which
//! builds with checks, is hundreds of times slower, so they stand apart from the other tests.
#![tactic(auto)]

#[cfg(test)]
mod commands;
#[cfg(test)]
mod large_installations;
#[cfg(test)]
mod many_installations;

ghost use Rattle.std.specs.Prelude.{◌≤◌};
ghost use Rattle.dist_base.specs.declared.TheConstants.{MAX_SIZE};

use dist_outside::{Limits, WorkError};
use dist_trial::{Trial, trial};
use std::alloc::Global;
use std::test::Fail;

/// Whether another trial of this size and seed tells the same as a first one.
fn is_told_again(alloc: Global, size: u32, seed: u32, first: &Trial) -> Result<bool, WorkError>
    requires some { 1 ≤ size }
    requires few { size ≤ MAX_SIZE }
{
    let second = trial(alloc, size, seed, &Limits::stated())?;
    let same = first.summary == second.summary;
    drop(second);
    Ok(same)
}

/// Whether all three certificates of a trial are accepted, and nothing is undecided.
fn is_decided(first: &Trial) -> bool {
    first.summary.ends_with(b"\nundecided 0\naccepted 3\n") && !first.undecided
}

/// Whether two trials of this size and seed tell the same, all three certificates are accepted, and nothing is undecided.
fn is_told_twice(alloc: Global, size: u32, seed: u32) -> Result<bool, WorkError>
    requires some { 1 ≤ size }
    requires few { size ≤ MAX_SIZE }
{
    let first = trial(alloc, size, seed, &Limits::stated())?;
    let again = is_told_again(alloc, size, seed, &first);
    let decided = is_decided(&first);
    drop(first);
    Ok(again? && decided)
}

#[test]
fn small_archives(rt: HostRuntime) -> Result<(), Fail> {
    for size in [2, 20] {
        for seed in [0, 1, 5] {
            assert_eq!(rt; is_told_twice(rt.alloc(), size, seed), Ok(true));
        }
    }
    Ok(())
}

#[test]
fn archives_of_sixty_packages(rt: HostRuntime) -> Result<(), Fail> {
    for seed in [0, 1, 5] {
        assert_eq!(rt; is_told_twice(rt.alloc(), 60, seed), Ok(true));
    }
    Ok(())
}

#[test]
fn archives_of_three_hundred_packages(rt: HostRuntime) -> Result<(), Fail> {
    for seed in [0, 1, 5] {
        assert_eq!(rt; is_told_twice(rt.alloc(), 300, seed), Ok(true));
    }
    Ok(())
}

#[test]
fn an_archive_of_a_thousand_packages(rt: HostRuntime) -> Result<(), Fail> {
    assert_eq!(rt; is_told_twice(rt.alloc(), 1000, 1), Ok(true));
    Ok(())
}
