//! Reads a Packages file, and counts what is made of it: packages, clauses of the present, classes of later versions.
ghost use Rattle.std.specs.Prelude.{◌≡◌, ◌<◌, false, IfOk, length};
ghost use Rattle.dist_base.specs.Answers.{Answers};
ghost use Rattle.dist_classes.specs.Answers.{AreClustersOf};
ghost use Rattle.dist_repo.specs.Size.{IsWithinSize};
ghost use Rattle.dist_bench.specs.Packages.{ArePresentWithin, HasClauseCount, HasNoClauses, HasNoPackages, HaveClasses, IsClassesText, IsClausesText, IsFileOf, IsNewestOf, IsPackagesText, OfNewest, PassesPresentLimits};

use crate::counted::{add_counted, counted};
use crate::error::JobError;
use dist_base::{MAX_BYTES, MAX_CLAUSES, MAX_LITERALS, MAX_STANZAS};
use dist_classes::{CutFinder, new_names, repository_clusters};
use dist_clause::{ClauseSet, PushError};
use dist_cluster::Clusters;
use dist_now::clauses_of;
use dist_package::{PackagesError, packages_are_exact, read_packages};
use dist_repo::{Repository, latest_is_one};
use std::alloc::{AllocError, Global};

/// The repository of a file within the stated limits.
fn repository_of(alloc: Global, text: &[u8]) -> Result<Repository, JobError>
    ensures answers { Answers (IsFileOf text.now) (HasNoPackages text.now) JobError.NoMemory result }
    ensures within_size { IfOk result IsWithinSize }
{
    packages_are_exact();
    if text.len() as u64 > MAX_BYTES {
        return Err(JobError::NoPackages);
    }
    match read_packages(alloc, text, MAX_STANZAS) {
        Ok(repository) => Ok(repository),
        Err(PackagesError::Bad(_)) => Err(JobError::NoPackages),
        Err(PackagesError::TooMany) => Err(JobError::NoPackages),
        Err(PackagesError::NoMemory) => Err(JobError::NoMemory),
    }
}

/// The repository of its newest packages, which is no larger.
pub(crate) fn newest_of(alloc: Global, text: &[u8]) -> Result<Repository, JobError>
    ensures answers { Answers (IsNewestOf text.now) (HasNoPackages text.now) JobError.NoMemory result }
    ensures within_size { IfOk result IsWithinSize }
{
    latest_is_one();
    let repository = repository_of(alloc, text)?;
    Ok(repository.latest()?)
}

/// How many packages the file has.
pub fn packages_text(alloc: Global, text: &[u8]) -> Result<Vec<u8>, JobError>
    ensures { Answers (λ answer. IsPackagesText text.now answer.items) (HasNoPackages text.now) JobError.NoMemory result }
{
    let repository = repository_of(alloc, text)?;
    let count = repository.len();
    drop(repository);
    Ok(counted(alloc, u128::from(count), b" packages\n")?)
}

/// The clauses of the present.
pub(crate) fn present_clauses(
    alloc: Global,
    repository: &Repository,
    essential: bool,
) -> Result<ClauseSet, JobError>
    requires { IsWithinSize repository.now }
    ensures answers { Answers (λ set. ArePresentWithin repository.now essential set.clauses)
        (λ error. (error ≡ JobError.TooManyClauses) × PassesPresentLimits repository.now essential) JobError.NoMemory result }
    ensures variables { IfOk result (λ set. set.variables ≡ length repository.now.packages) }
{
    match clauses_of(alloc, repository, essential, MAX_CLAUSES, MAX_LITERALS) {
        Ok(set) => Ok(set),
        Err(PushError::TooManyClauses) => Err(JobError::TooManyClauses),
        Err(PushError::TooManyLiterals) => Err(JobError::TooManyClauses),
        Err(PushError::NoMemory) => Err(JobError::NoMemory),
    }
}

/// How many clauses of the present a repository has, at mode plain.
fn clause_count(alloc: Global, repository: &Repository) -> Result<u32, JobError>
    requires { IsWithinSize repository.now }
    ensures { Answers (HasClauseCount repository.now) (λ error. (error ≡ JobError.TooManyClauses) × PassesPresentLimits repository.now false)
        JobError.NoMemory result }
{
    let set = present_clauses(alloc, repository, false)?;
    let count = set.len();
    drop(set);
    Ok(count)
}

/// How many clauses of the present the packages of the file have.
pub fn clauses_text(alloc: Global, text: &[u8]) -> Result<Vec<u8>, JobError>
    ensures { Answers (λ answer. IsClausesText text.now answer.items) (HasNoClauses text.now) JobError.NoMemory result }
{
    let repository = repository_of(alloc, text)?;
    let count = clause_count(alloc, &repository);
    drop(repository);
    Ok(counted(alloc, u128::from(count?), b" clauses\n")?)
}

/// How many classes the clusters of a repository have. There are not so many clusters that the number passes 128 bits.
fn class_count(
    alloc: Global,
    repository: &Repository,
    clusters: &Clusters,
) -> Result<u128, AllocError>
    requires { AreClustersOf repository.now clusters.now }
    ensures { IfOk result (HaveClasses repository.now clusters.now (length clusters.now.members)) }
{
    let finder = CutFinder::new(alloc, repository)?;
    let mut classes = 0u128;
    for cluster in 0..clusters.len() {
        let found = finder.classes_of_cluster(clusters, cluster)?;
        let count = found.len();
        classes += count as u128;
    }
    Ok(classes)
}

/// How many clusters, classes and new names a repository has.
fn repository_classes(alloc: Global, repository: &Repository) -> Result<Vec<u8>, AllocError>
    requires { IsWithinSize repository.now }
    ensures { IfOk result (λ answer. IsClassesText repository.now answer.items) }
{
    let clusters = repository_clusters(alloc, repository)?;
    let classes = class_count(alloc, repository, &clusters)?;
    let names = new_names(alloc, repository)?;
    let mut text = counted(alloc, u128::from(clusters.len()), b" clusters, ")?;
    add_counted(&mut text, classes, b" classes, ")?;
    add_counted(&mut text, names.len() as u128, b" new names\n")?;
    Ok(text)
}

/// How many clusters, classes and new names the newest packages of the file have.
pub fn classes_text(alloc: Global, text: &[u8]) -> Result<Vec<u8>, JobError>
    ensures { Answers (λ answer. OfNewest text.now (λ r. IsClassesText r answer.items)) (HasNoPackages text.now) JobError.NoMemory result }
{
    let newest = newest_of(alloc, text)?;
    let classes = repository_classes(alloc, &newest);
    drop(newest);
    Ok(classes?)
}
