//! Explains each package that can't be installed, all of them of one reading.
ghost use Rattle.std.specs.Prelude.{◌≡◌, ◌+◌, ◌<◌, ◌^◌, false, IfOk, length};
ghost use Rattle.dist_base.specs.Answers.{Answers};
ghost use Rattle.dist_base.specs.declared.TheConstants.{MAX_VARIABLES};
ghost use Rattle.dist_repo.specs.Size.{IsWithinSize};
ghost use Rattle.dist_bench.specs.Explained.{IsExplainedText, explained_text, told_of};
ghost use Rattle.dist_bench.specs.Packages.{OfNewest, PassesPresentLimits};
ghost use Rattle.dist_bench.specs.Questions.{HasNoQuestions};

use crate::counted::{add_counted, counted};
use crate::error::JobError;
use crate::packages::newest_of;
use crate::questions::{ask, solver_of};
use dist_base::DEFAULT_LIMIT;
use dist_clause::Lit;
use dist_explain::Explained;
use dist_explain_search::explain;
use dist_outside::{Limits, MemoryDesk, WorkError};
use dist_repo::Repository;
use dist_solver::{Answer, Solver};
use std::alloc::{AllocError, Global};

/// What is told of packages.
#[derive(Clone, Copy)]
pub(crate) struct ExplainCounts {
    pub(crate) explained: u64,
    /// How many relations are told of these, together.
    pub(crate) relations: u64,
    pub(crate) others: u64,
}

impl ExplainCounts {
    /// With one more package, and the relations that explain it.
    fn with(self, relations: Option<u64>) -> ExplainCounts
        requires { told_of self < 2 ^ 60 }
        ensures { told_of result ≡ told_of self + 1 }
    {
        let mut counts = self;
        match relations {
            Some(relations) => {
                counts.explained += 1;
                counts.relations = counts.relations.saturating_add(relations);
            }
            None => counts.others += 1,
        }
        counts
    }
}

/// How many relations explain a package; none where they do not.
fn relations_of(
    alloc: Global,
    repository: &Repository,
    package: u32,
) -> Result<Option<u64>, AllocError>
    requires size { IsWithinSize repository.now }
    requires package { «package» < length repository.now.packages }
{
    let mut desk = MemoryDesk::new(alloc, usize::MAX, &[])?;
    let limits = Limits::stated();
    match explain(
        alloc,
        repository,
        package,
        &mut desk,
        "cert",
        DEFAULT_LIMIT,
        &limits,
    ) {
        Ok(Explained::Broken(needed, undecided)) => {
            let count = needed.len().saturating_add(undecided.len());
            Ok(Some(count as u64))
        }
        Ok(_) => Ok(None),
        Err(WorkError::NoMemory) => Err(AllocError),
        Err(_) => Ok(None),
    }
}

/// The same, where no model of the clauses of the present has the package.
fn explained(
    alloc: Global,
    repository: &Repository,
    solver: &mut Solver,
    package: u32,
) -> Result<Option<u64>, AllocError>
    requires size { IsWithinSize repository.now }
    requires package { «package» < length repository.now.packages }
    requires stated { «package» < MAX_VARIABLES }
    requires variables { solver.old.log.variables ≡ length repository.now.packages }
    ensures variables { solver.new.log.variables ≡ solver.old.log.variables }
{
    match ask(solver, &[Lit::new(package + 1, true)])? {
        Answer::Refuted(_) => relations_of(alloc, repository, package),
        _ => Ok(None),
    }
}

/// What is told of all packages.
fn explain_all(
    alloc: Global,
    repository: &Repository,
    solver: &mut Solver,
) -> Result<ExplainCounts, AllocError>
    requires size { IsWithinSize repository.now }
    requires variables { solver.old.log.variables ≡ length repository.now.packages }
    ensures { IfOk result (λ counts. told_of counts ≡ length repository.now.packages) }
{
    let mut counts = ExplainCounts {
        explained: 0,
        relations: 0,
        others: 0,
    };
    let packages = solver.log().variables();
    for package in 0..packages {
        counts = counts.with(explained(alloc, repository, solver, package)?);
    }
    Ok(counts)
}

/// The counts in words.
fn text_of(alloc: Global, counts: ExplainCounts) -> Result<Vec<u8>, AllocError>
    ensures { IfOk result (λ text. text.items ≡ explained_text counts) }
{
    let mut text = counted(alloc, u128::from(counts.explained), b" explained, ")?;
    add_counted(&mut text, u128::from(counts.relations), b" relations, ")?;
    add_counted(&mut text, u128::from(counts.others), b" others\n")?;
    Ok(text)
}

/// What is told of the packages of a repository.
fn told(alloc: Global, repository: &Repository, solver: &mut Solver) -> Result<Vec<u8>, AllocError>
    requires size { IsWithinSize repository.now }
    requires variables { solver.old.log.variables ≡ length repository.now.packages }
    ensures { IfOk result (λ answer. IsExplainedText repository.now answer.items) }
{
    let counts = explain_all(alloc, repository, solver)?;
    text_of(alloc, counts)
}

/// The same, of the packages alone.
fn explained_of(alloc: Global, repository: &Repository) -> Result<Vec<u8>, JobError>
    requires { IsWithinSize repository.now }
    ensures { Answers (λ answer. IsExplainedText repository.now answer.items)
        (λ error. (error ≡ JobError.TooManyClauses) × PassesPresentLimits repository.now false) JobError.NoMemory result }
{
    let mut solver = solver_of(alloc, repository, false)?;
    let text = told(alloc, repository, &mut solver);
    drop(solver);
    match text {
        Ok(text) => Ok(text),
        Err(AllocError) => Err(JobError::NoMemory),
    }
}

/// What is told of the newest packages of the file.
pub fn explained_text(alloc: Global, text: &[u8]) -> Result<Vec<u8>, JobError>
    ensures { Answers (λ answer. OfNewest text.now (λ r. IsExplainedText r answer.items)) (HasNoQuestions false text.now) JobError.NoMemory result }
{
    let newest = newest_of(alloc, text)?;
    let told = explained_of(alloc, &newest);
    drop(newest);
    told
}
