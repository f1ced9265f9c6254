//! The jobs: the word of each, and what it answers.
ghost use Rattle.std.specs.Prelude.{◌≡◌, ◌≢◌, MatchOption};
ghost use Rattle.dist_base.specs.Answers.{Answers};
ghost use Rattle.dist_bench.specs.Jobs.{HasNoAnswer, IsAnswer, word_of};

use crate::error::JobError;
use crate::{
    counted, explained, filled, future_clauses, futures, packages, questions, relations, versions,
};
use std::alloc::Global;

/// What is done to a text.
#[derive(Clone, Copy, Debug, PartialEq, Eq)]
pub enum Job {
    AskEssentialPackages,
    AskLastPackage,
    AskPackages,
    CountLines,
    CountClasses,
    CountClauses,
    CountFutureClauses,
    CountFutureVariables,
    CountPackages,
    ExplainPackages,
    FillClauses,
    ReadRelations,
    SortVersions,
}

impl Job {
    /// The job of a word.
    pub fn of(word: &str) -> Option<Job>
        ensures { MatchOption result ((job : Job) → word.now ≢ word_of job) (λ job. word.now ≡ word_of job) }
    {
        match word {
            "ask-essential-packages" => Some(Job::AskEssentialPackages),
            "ask-last-package" => Some(Job::AskLastPackage),
            "ask-packages" => Some(Job::AskPackages),
            "count-lines" => Some(Job::CountLines),
            "count-classes" => Some(Job::CountClasses),
            "count-clauses" => Some(Job::CountClauses),
            "count-future-clauses" => Some(Job::CountFutureClauses),
            "count-future-variables" => Some(Job::CountFutureVariables),
            "count-packages" => Some(Job::CountPackages),
            "explain-packages" => Some(Job::ExplainPackages),
            "fill-clauses" => Some(Job::FillClauses),
            "read-relations" => Some(Job::ReadRelations),
            "sort-versions" => Some(Job::SortVersions),
            _ => None,
        }
    }
}

/// Does a job.
pub fn answer(alloc: Global, job: Job, text: &str) -> Result<Vec<u8>, JobError>
    ensures { Answers (λ answer. IsAnswer job text.now answer.items) (HasNoAnswer job text.now) JobError.NoMemory result }
{
    let bytes = text.as_bytes();
    match job {
        Job::AskEssentialPackages => questions::asked_text(alloc, bytes, true),
        Job::AskLastPackage => questions::last_text(alloc, bytes),
        Job::AskPackages => questions::asked_text(alloc, bytes, false),
        Job::CountLines => Ok(counted::lines_text(alloc, bytes)?),
        Job::CountClasses => packages::classes_text(alloc, bytes),
        Job::CountClauses => packages::clauses_text(alloc, bytes),
        Job::CountFutureClauses => future_clauses::clauses_text(alloc, bytes),
        Job::CountFutureVariables => futures::variables_text(alloc, bytes),
        Job::CountPackages => packages::packages_text(alloc, bytes),
        Job::ExplainPackages => explained::explained_text(alloc, bytes),
        Job::FillClauses => filled::filled_text(alloc, text),
        Job::ReadRelations => relations::counts_text(alloc, bytes),
        Job::SortVersions => versions::sorted_text(alloc, bytes),
    }
}
