//! The line that tells whether a set of packages is healthy, or names what is wrong with it.
ghost use Rattle.std.specs.Prelude.{◌<◌, length, IfOk};
ghost use Rattle.dist_report.specs.HealthText.{HasItem, HasText, IsHealthText, IsPairLine, IsUnmetLine};

use crate::lines::print_label;
use dist_now::Health;
use dist_relation::print_alternatives;
use dist_repo::Repository;
use std::alloc::{AllocError, Global};

/// The line of the health of a set of a repository's packages.
pub fn health_text(
    alloc: Global,
    repository: &Repository,
    health: &Health,
) -> Result<Vec<u8>, AllocError>
    requires { HasText repository.now.packages health.now }
    ensures { IfOk result (λ line. IsHealthText repository.now.packages health.now line.items) }
{
    match *health {
        Health::Healthy => b"healthy\n".to_vec(alloc),
        Health::TwoVersions(p, q) => pair_line(alloc, repository, b"two versions ", p, q),
        Health::Unmet(p, place) => unmet_line(alloc, repository, p, place),
        Health::Conflict(p, q) => pair_line(alloc, repository, b"conflict ", p, q),
        // It has no line.
        Health::EssentialMissing(_) => unreachable!(),
    }
}

/// Two labels behind some words.
fn pair_line(
    alloc: Global,
    repository: &Repository,
    words: &[u8],
    first: u32,
    second: u32,
) -> Result<Vec<u8>, AllocError>
    requires first { first < length repository.now.packages }
    requires second { second < length repository.now.packages }
    ensures { IfOk result (λ line. IsPairLine repository.now.packages words.now first second line.items) }
{
    let mut line = words.to_vec(alloc)?;
    print_label(repository.package(first), &mut line)?;
    line.push(b' ')?;
    print_label(repository.package(second), &mut line)?;
    line.push(b'\n')?;
    Ok(line)
}

/// The line that names a package's unmet dependency.
fn unmet_line(
    alloc: Global,
    repository: &Repository,
    number: u32,
    place: u32,
) -> Result<Vec<u8>, AllocError>
    requires { HasItem repository.now.packages number place }
    ensures { IfOk result (λ line. IsUnmetLine repository.now.packages number place line.items) }
{
    let package = repository.package(number);
    let mut line = b"unmet ".to_vec(alloc)?;
    print_label(package, &mut line)?;
    line.extend_from_slice(b": ")?;
    print_alternatives(package.depends.get(place as usize), &mut line)?;
    line.push(b'\n')?;
    Ok(line)
}
