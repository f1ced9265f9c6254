//! Packages come to the builder of a repository one after another: some are new, some are known, and some clash.
ghost use Rattle.std.specs.Prelude.{◌+◌, ◌<◌, ◌≤◌, length};

use dist_repo::{AddError, Added, Builder, Package, Repository};
use dist_samples::repository;
use std::alloc::Global;

/// The stanza of a package that comes with a line, and what the builder answers. A refusal has the line of the package that
/// it clashes with, or 0 for want of memory.
#[derive(Clone, Copy)]
struct Coming {
    stanza: &'static str,
    line: u64,
    answer: Result<Added, u64>,
}

/// Two versions of a, and b. Of versions that are equal in their order the first is held.
const COMING: [Coming; 5] = [
    Coming {
        stanza: "Package: b\nVersion: 1\n",
        line: 1,
        answer: Ok(Added::New),
    },
    Coming {
        stanza: "Package: a\nVersion: 2\n",
        line: 4,
        answer: Ok(Added::New),
    },
    Coming {
        stanza: "Package: a\nVersion: 1.0\n",
        line: 7,
        answer: Ok(Added::New),
    },
    Coming {
        stanza: "Package: a\nVersion: 1.0-0\n",
        line: 10,
        answer: Err(7),
    },
    Coming {
        stanza: "Package: a\nVersion: 2\n",
        line: 13,
        answer: Ok(Added::Same),
    },
];

/// The first package of a repository, with memory of its own.
fn first_package(repository: &Repository) -> Option<Package> {
    if repository.len() == 0 {
        return None;
    }
    repository.package(0).try_clone().ok()
}

/// The package of a stanza.
fn package(alloc: Global, stanza: &str) -> Option<Package> {
    let repository = repository(alloc, stanza)?;
    let package = first_package(&repository);
    drop(repository);
    package
}

/// The line of the package that another clashes with, or 0 for want of memory.
fn line_of(error: &AddError) -> u64 {
    match error {
        AddError::Clash(kept, _) => *kept,
        AddError::NoMemory(_) => 0,
    }
}

/// What a builder answers to a package.
fn added(builder: &mut Builder, package: Package, line: u64) -> Result<Added, u64>
    requires { length builder.old < 100 }
    ensures { length builder.new ≤ length builder.old + 1 }
{
    match builder.add(package, line) {
        Ok(added) => Ok(added),
        Err(error) => Err(line_of(&error)),
    }
}

/// Whether a builder answers to a package as its row says.
fn is_answered(alloc: Global, builder: &mut Builder, row: &Coming) -> bool
    requires { length builder.old < 100 }
    ensures { length builder.new ≤ length builder.old + 1 }
{
    match package(alloc, row.stanza) {
        Some(package) => added(builder, package, row.line) == row.answer,
        None => false,
    }
}

/// Whether a builder answers to each package as its row says.
fn are_answered(alloc: Global, builder: &mut Builder, rows: &[Coming; 5]) -> bool
    requires { length builder.old < 90 }
{
    is_answered(alloc, builder, &rows[0])
        && is_answered(alloc, builder, &rows[1])
        && is_answered(alloc, builder, &rows[2])
        && is_answered(alloc, builder, &rows[3])
        && is_answered(alloc, builder, &rows[4])
}

/// How many packages the repository has, where the builder answers to each as its row says.
fn held(alloc: Global, rows: &[Coming; 5]) -> Option<u32> {
    let mut builder = Builder::new(alloc);
    if !are_answered(alloc, &mut builder, rows) {
        drop(builder);
        return None;
    }
    match builder.finish(None) {
        Ok(repository) => {
            let packages = repository.len();
            drop(repository);
            Some(packages)
        }
        Err(_) => None,
    }
}

#[test]
fn packages_come(rt: HostRuntime) {
    assert_eq!(rt; held(rt.alloc(), &COMING), Some(3));
}
