//! The file of an explanation.
ghost use Rattle.std.specs.Prelude.{◌≡◌, ◌<◌, ◌≤◌, ◌∷◌, [], All, IfOk, length};
ghost use Rattle.dist_base.specs.declared.TheConstants.{MAX_LIMIT};
ghost use Rattle.dist_cert.specs.Form.{IsSmall};
ghost use Rattle.dist_outside.specs.Files.{IsNotWriting};
ghost use Rattle.dist_repo.specs.Size.{IsWithinSize};
ghost use Rattle.dist_subject.specs.Limited.{AreStated};
ghost use Rattle.dist_explain.specs.NotesPrivate.{AreNotesOf};
ghost use Rattle.dist_inquiry.specs.StartLaws.{new_asker};
ghost use Rattle.dist_explain_search.specs.ExplainAnswers.{ExplainAnswers, TellsFirst};
ghost use Rattle.dist_explain_search.specs.SearchPrivate.{FitsAsked, RunsSearch, TellsAnswer, TellsOf, WritesFile};

use crate::search::ExplainSearch;
use dist_clause::ClauseSet;
use dist_explain::{Asked, Explained, Explaining, Notes, selected_inputs};
use dist_inquiry::write_inquiry;
use dist_line_write::Asker;
use dist_outside::{Desk, Limits, WorkError};
use dist_repo::Repository;
use std::alloc::{AllocError, Global};

/// The numbers of a first line.
fn numbers_of(
    alloc: Global,
    limit: u32,
    packages: u32,
    relations: u32,
    number: u32,
) -> Result<Vec<u32>, AllocError>
    ensures value { IfOk result (λ numbers. numbers.items ≡ limit ∷ packages ∷ relations ∷ number ∷ []) }
    ensures small { IfOk result (λ numbers. All IsSmall numbers.items) }
{
    let numbers = [limit, packages, relations, number];
    Vec::from_slice(alloc, &numbers)
}

/// A search that has asked nothing.
fn new_search<'a>(alloc: Global, repo: &'a Repository, asked: Asked) -> ExplainSearch<'a>
    requires { asked.number ≤ asked.packages }
    ensures repository { result.explaining.repo.now ≡ repo.now }
    ensures asked { result.asked ≡ asked }
    ensures notes { AreNotesOf asked [] result.notes }
{
    ExplainSearch {
        alloc,
        explaining: Explaining { repo },
        asked,
        notes: Notes::new(alloc, asked),
    }
}

/// Writes the file of a search.
fn write_search<D: Desk>(
    alloc: Global,
    search: &mut ExplainSearch<'_>,
    inquirer: &mut Asker,
    numbers: &[u32],
    desk: &mut D,
    name: &str,
) -> Result<(), WorkError>
    requires idle { IsNotWriting (D.view desk.old).mode }
    requires limit { 1 ≤ inquirer.old.limit }
    requires fits { FitsAsked search.old.asked inquirer.old.log.variables }
    requires nothing { inquirer.old.writer.written ≡ 0 }
    ensures { WritesFile search.old.explaining.repo.now search.old.asked search.old.notes search.new.notes numbers.now inquirer.old name.now (D.view desk.old) (D.view desk.new) result }
{
    write_inquiry(alloc, search, inquirer, numbers, desk, name)
}

/// What a search has found.
fn answer_of(search: ExplainSearch<'_>) -> Explained
    ensures { TellsOf search.entry.notes result }
{
    let ExplainSearch {
        alloc: _,
        explaining,
        asked: _,
        notes,
    } = search;
    drop(explaining);
    notes.answer()
}

/// Asks over these clauses, and writes the file of a search.
fn run_search<D: Desk>(
    alloc: Global,
    search: &mut ExplainSearch<'_>,
    set: ClauseSet,
    numbers: &[u32],
    desk: &mut D,
    name: &str,
    limit: u32,
    limits: &Limits,
) -> Result<(), WorkError>
    requires idle { IsNotWriting (D.view desk.old).mode }
    requires limit { 1 ≤ limit }
    requires limits { AreStated limits.now }
    requires fits { FitsAsked search.old.asked set.variables }
    ensures { RunsSearch search.old.explaining.repo.now search.old.asked search.old.notes search.new.notes numbers.now (new_asker set limit limits.now) name.now (D.view desk.old) (D.view desk.new) result }
{
    let mut inquirer = Asker::new(alloc, set, limit, limits)?;
    let done = write_search(alloc, search, &mut inquirer, numbers, desk, name);
    drop(inquirer);
    done
}

/// Writes the file with a first line of these numbers, by these clauses, and tells the answer.
fn answer_with<D: Desk>(
    alloc: Global,
    repo: &Repository,
    asked: Asked,
    set: ClauseSet,
    numbers: &[u32],
    desk: &mut D,
    name: &str,
    limit: u32,
    limits: &Limits,
) -> Result<Explained, WorkError>
    requires idle { IsNotWriting (D.view desk.old).mode }
    requires limit { 1 ≤ limit }
    requires limits { AreStated limits.now }
    requires fits { FitsAsked asked set.variables }
    ensures { TellsAnswer repo.now asked numbers.now (new_asker set limit limits.now) name.now (D.view desk.old) (D.view desk.new) result }
{
    let mut search = new_search(alloc, repo, asked);
    match run_search(alloc, &mut search, set, numbers, desk, name, limit, limits) {
        Ok(()) => Ok(answer_of(search)),
        Err(error) => {
            drop(search);
            Err(error)
        }
    }
}

/// Writes a file that explains why a package can't be installed, or shows that it can, to the file of that name, and tells the
/// answer. The package is numbered from 0. So many derived lines leave a question undecided.
pub fn explain<D: Desk>(
    alloc: Global,
    repo: &Repository,
    package: u32,
    desk: &mut D,
    name: &str,
    limit: u32,
    limits: &Limits,
) -> Result<Explained, WorkError>
    requires idle { IsNotWriting (D.view desk.old).mode }
    requires size { IsWithinSize repo.now }
    requires package { «package» < length repo.now.packages }
    requires from_one { 1 ≤ limit }
    requires upto { limit ≤ MAX_LIMIT }
    requires limits { AreStated limits.now }
    ensures answers { ExplainAnswers repo.now «package» limit limits.now name.now (D.view desk.old) (D.view desk.new) result }
    ensures first { TellsFirst repo.now limits.now result }
{
    let set = selected_inputs(alloc, repo, limits)?;
    let packages = repo.len();
    let variables = set.variables();
    set.keeps_invariant();
    let relations = variables - packages;
    let numbers = numbers_of(alloc, limit, packages, relations, package + 1)?;
    let asked = Asked {
        packages,
        relations,
        number: package + 1,
    };
    answer_with(alloc, repo, asked, set, &numbers, desk, name, limit, limits)
}
