//! Asks questions over the clauses of the present: for each package, and for it without each other member of its first
//! installation; or for the last package alone.
ghost use Rattle.std.specs.Prelude.{◌≡◌, ◌+◌, ◌<◌, ◌≤◌, ◌^◌, IfOk, false, length};
ghost use Rattle.dist_base.specs.Answers.{Answers};
ghost use Rattle.dist_clause.specs.Formula.{IsClauseOver};
ghost use Rattle.dist_repo.specs.Size.{IsWithinSize};
ghost use Rattle.dist_bench.specs.Packages.{OfNewest, PassesPresentLimits};
ghost use Rattle.dist_bench.specs.Questions.{HasNoQuestions, IsAskedOf, IsAskedText, IsLastText, IsLogOf, IsRight, IsVerdict, asked_text, said, total};

use crate::counted::{add_counted, counted};
use crate::error::JobError;
use crate::packages::{newest_of, present_clauses};
use dist_base::{DEFAULT_LIMIT, MAX_LINE_LITERALS, MAX_LINES};
use dist_clause::{Assignment, Lit};
use dist_repo::Repository;
use dist_solver::{Answer, AskError, Solver};
use std::alloc::{AllocError, Global};

/// How questions were answered.
#[derive(Clone, Copy)]
pub(crate) struct QuestionCounts {
    pub(crate) models: u64,
    pub(crate) refutations: u64,
    pub(crate) undecided: u64,
}

impl QuestionCounts {
    /// With one more answer.
    fn with(self, answer: &Answer) -> QuestionCounts
        requires { total self < 2 ^ 60 }
        ensures { total result ≡ total self + 1 }
    {
        let mut counts = self;
        match answer {
            Answer::Found(_) => counts.models += 1,
            Answer::Refuted(_) => counts.refutations += 1,
            Answer::Undecided => counts.undecided += 1,
        }
        counts
    }
}

/// A solver of the clauses of the present.
pub(crate) fn solver_of(
    alloc: Global,
    repository: &Repository,
    essential: bool,
) -> Result<Solver, JobError>
    requires { IsWithinSize repository.now }
    ensures { Answers (λ solver. IsLogOf repository.now essential solver.log)
        (λ error. (error ≡ JobError.TooManyClauses) × PassesPresentLimits repository.now essential) JobError.NoMemory result }
{
    let set = present_clauses(alloc, repository, essential)?;
    Ok(Solver::new(alloc, set, MAX_LINES, MAX_LINE_LITERALS)?)
}

/// The answer to a question. It stays undecided too where the log has no room for a line more.
pub(crate) fn ask(solver: &mut Solver, assumptions: &[Lit]) -> Result<Answer, AllocError>
    requires { IsClauseOver solver.old.log.variables assumptions.now }
    ensures variables { solver.new.log.variables ≡ solver.old.log.variables }
    ensures right { IfOk result (IsRight solver.old.log assumptions.now) }
{
    solver.log().keeps_invariant();
    match solver.ask(assumptions, DEFAULT_LIMIT) {
        Ok(answer) => Ok(answer),
        Err(AskError::NoMemory) => Err(AllocError),
        Err(AskError::TooManyLines) => Ok(Answer::Undecided),
        Err(AskError::TooManyLiterals) => Ok(Answer::Undecided),
    }
}

/// Asks for a package without each other member of an installation.
fn ask_without_members(
    solver: &mut Solver,
    package: u32,
    members: &Assignment,
    counts: QuestionCounts,
) -> Result<QuestionCounts, AllocError>
    requires from_one { 1 ≤ «package» }
    requires upto { «package» ≤ solver.old.log.variables }
    requires members { length members.now ≡ solver.old.log.variables }
    requires room { total counts + solver.old.log.variables < 2 ^ 60 }
    ensures variables { solver.new.log.variables ≡ solver.old.log.variables }
    ensures more { IfOk result (λ more. (total counts ≤ total more) × (total more ≤ total counts + solver.old.log.variables)) }
{
    let mut counts = counts;
    for place in 0..solver.log().variables() {
        let other = place + 1;
        if other != package && members.value(other) {
            let without = [Lit::new(package, true), Lit::new(other, false)];
            counts = counts.with(&ask(solver, &without)?);
        }
    }
    Ok(counts)
}

/// Asks for a package, and for it without each other member of the installation that is found.
fn ask_package(
    solver: &mut Solver,
    package: u32,
    counts: QuestionCounts,
) -> Result<QuestionCounts, AllocError>
    requires from_one { 1 ≤ «package» }
    requires upto { «package» ≤ solver.old.log.variables }
    requires room { total counts + solver.old.log.variables + 1 < 2 ^ 60 }
    ensures variables { solver.new.log.variables ≡ solver.old.log.variables }
    ensures more { IfOk result (λ more. (total counts < total more) × (total more ≤ total counts + solver.old.log.variables + 1)) }
{
    solver.log().keeps_invariant();
    let answer = ask(solver, &[Lit::new(package, true)])?;
    let counts = counts.with(&answer);
    if let Answer::Found(members) = &answer {
        return ask_without_members(solver, package, members, counts);
    }
    Ok(counts)
}

/// Asks for all packages.
fn ask_all(solver: &mut Solver) -> Result<QuestionCounts, AllocError>
    ensures { IfOk result (λ counts. solver.old.log.variables ≤ total counts) }
{
    let mut counts = QuestionCounts {
        models: 0,
        refutations: 0,
        undecided: 0,
    };
    for place in 0..solver.log().variables() {
        counts = ask_package(solver, place + 1, counts)?;
    }
    Ok(counts)
}

/// How many lines were derived.
fn line_count(solver: &Solver) -> u32 {
    solver.log().len() - solver.log().inputs()
}

/// The counts in words.
fn text_of(
    alloc: Global,
    counts: QuestionCounts,
    lines: u32,
    failed: u64,
) -> Result<Vec<u8>, AllocError>
    ensures { IfOk result (λ text. text.items ≡ asked_text counts lines failed) }
{
    let mut text = counted(alloc, u128::from(counts.models), b" models, ")?;
    add_counted(&mut text, u128::from(counts.refutations), b" refutations, ")?;
    add_counted(&mut text, u128::from(counts.undecided), b" undecided, ")?;
    add_counted(&mut text, u128::from(lines), b" derived lines, ")?;
    add_counted(&mut text, u128::from(failed), b" failed guesses\n")?;
    Ok(text)
}

/// How the questions for the packages of a repository were answered, how many lines were derived for them, and how many
/// guesses failed their tests.
fn counts_of(alloc: Global, solver: &mut Solver) -> Result<Vec<u8>, AllocError>
    ensures { IfOk result (λ answer. IsAskedOf solver.old.log.variables answer.items) }
{
    let counts = ask_all(solver)?;
    text_of(alloc, counts, line_count(solver), solver.failed_guesses())
}

/// The same, of the packages alone.
fn asked_of(alloc: Global, repository: &Repository, essential: bool) -> Result<Vec<u8>, JobError>
    requires { IsWithinSize repository.now }
    ensures { Answers (λ answer. IsAskedText repository.now answer.items)
        (λ error. (error ≡ JobError.TooManyClauses) × PassesPresentLimits repository.now essential) JobError.NoMemory result }
{
    let mut solver = solver_of(alloc, repository, essential)?;
    let counts = counts_of(alloc, &mut solver);
    drop(solver);
    match counts {
        Ok(text) => Ok(text),
        Err(AllocError) => Err(JobError::NoMemory),
    }
}

/// How the questions for the newest packages of the file were answered.
pub fn asked_text(alloc: Global, text: &[u8], essential: bool) -> Result<Vec<u8>, JobError>
    ensures { Answers (λ answer. OfNewest text.now (λ r. IsAskedText r answer.items)) (HasNoQuestions essential text.now) JobError.NoMemory result }
{
    let newest = newest_of(alloc, text)?;
    let asked = asked_of(alloc, &newest, essential);
    drop(newest);
    asked
}

/// What is said of a package by the answer on it.
fn said(answer: &Answer) -> &'static [u8]
    ensures { result.now ≡ said answer.now }
{
    match answer {
        Answer::Found(_) => b"installable, ",
        Answer::Refuted(_) => b"not installable, ",
        Answer::Undecided => b"undecided, ",
    }
}

/// What is said of the last package.
fn verdict_of(repository: &Repository, solver: &mut Solver) -> Result<&'static [u8], AllocError>
    requires { IsLogOf repository.now false solver.old.log }
    ensures { IfOk result (λ verdict. IsVerdict repository.now verdict.now) }
{
    let last = solver.log().variables();
    if last == 0 {
        return Ok(b"not installable, ");
    }
    let answer = ask(solver, &[Lit::new(last, true)])?;
    Ok(said(&answer))
}

/// The same, and how many lines were derived for it.
fn last_by(
    alloc: Global,
    repository: &Repository,
    solver: &mut Solver,
) -> Result<Vec<u8>, AllocError>
    requires { IsLogOf repository.now false solver.old.log }
    ensures { IfOk result (λ answer. IsLastText repository.now answer.items) }
{
    let verdict = verdict_of(repository, solver)?;
    let mut answer = Vec::new(alloc);
    answer.extend_from_slice(verdict)?;
    add_counted(
        &mut answer,
        u128::from(line_count(solver)),
        b" derived lines\n",
    )?;
    Ok(answer)
}

/// Whether the last package of a repository is installable, at mode plain.
fn last_of(alloc: Global, repository: &Repository) -> Result<Vec<u8>, JobError>
    requires { IsWithinSize repository.now }
    ensures { Answers (λ answer. IsLastText repository.now answer.items)
        (λ error. (error ≡ JobError.TooManyClauses) × PassesPresentLimits repository.now false) JobError.NoMemory result }
{
    let mut solver = solver_of(alloc, repository, false)?;
    let answer = last_by(alloc, repository, &mut solver);
    drop(solver);
    match answer {
        Ok(text) => Ok(text),
        Err(AllocError) => Err(JobError::NoMemory),
    }
}

/// Whether the last of the newest packages of the file is installable, at mode plain.
pub fn last_text(alloc: Global, text: &[u8]) -> Result<Vec<u8>, JobError>
    ensures { Answers (λ answer. OfNewest text.now (λ r. IsLastText r answer.items)) (HasNoQuestions false text.now) JobError.NoMemory result }
{
    let newest = newest_of(alloc, text)?;
    let last = last_of(alloc, &newest);
    drop(newest);
    last
}
