//! The file of a repair.
ghost use Rattle.std.specs.Prelude.{◌≡◌, ◌<◌, ◌≤◌, [], All, IfOk, length};
ghost use Rattle.dist_base.specs.declared.TheConstants.{MAX_LIMIT};
ghost use Rattle.dist_cert.specs.Form.{IsSmall};
ghost use Rattle.dist_outside.specs.Files.{IsNotWriting};
ghost use Rattle.dist_findings.specs.Start.{HasRightNumbers};
ghost use Rattle.dist_inquiry.specs.StartLaws.{new_asker};
ghost use Rattle.dist_repair.specs.InputsPrivate.{inputs_of};
ghost use Rattle.dist_repair.specs.NotesPrivate.{AreNotesOf, AreWordsOf, WordsView, answer_of};
ghost use Rattle.dist_repair.specs.RepairFiles.{asked_by, repair_files};
ghost use Rattle.dist_repair_search.specs.SearchPrivate.{AreOver, RunsSearch, TellsAnswer, WritesFile};
ghost use Rattle.dist_repair.specs.Verdicts.{AcceptedSays};
ghost use Rattle.dist_base.specs.declared.TheConstants.{MAX_MOST};
ghost use Rattle.dist_subject.specs.Limited.{AreStated};
ghost use Rattle.dist_repair_search.specs.SearchAnswers.{SearchAnswers, TellsFirst, first_numbers, header_with};

use crate::search::RepairSearch;
use crate::shunned::shunning;
use dist_clause::ClauseSet;
use dist_findings::Answering;
use dist_inquiry::write_inquiry;
use dist_line_write::Asker;
use dist_outside::{Desk, Limits, WorkError};
use dist_repair::{Repair, Repairing, accepted_repairs_hold, repair_inputs, words_of};
use dist_space::Space;
use std::alloc::{AllocError, Global};

/// The numbers of the first line of a file on a package.
fn first_numbers(
    alloc: Global,
    space: &Space,
    set: &ClauseSet,
    package: u32,
    most: u32,
    limit: u32,
) -> Result<Vec<u32>, AllocError>
    requires { «package» < length space.now.repository.packages }
    ensures value { IfOk result (λ numbers. numbers.items ≡ first_numbers space.now (header_with limit «package» most) (inputs_of set.now)) }
    ensures small { IfOk result (λ numbers. All IsSmall numbers.items) }
{
    let packages = space.package_count();
    let numbers = [
        limit,
        packages,
        set.variables(),
        set.len(),
        package + 1,
        most,
    ];
    Vec::from_slice(alloc, &numbers)
}

/// A search behind a first line of these numbers, which has asked nothing.
fn new_search<'a>(
    alloc: Global,
    space: &'a Space,
    numbers: &[u32],
) -> Result<RepairSearch<'a>, AllocError>
    requires { HasRightNumbers (repair_files space.now) numbers.now }
    ensures space { IfOk result (λ search. search.repairing.space.now ≡ space.now) }
    ensures words { IfOk result (λ search. AreWordsOf space.now (asked_by numbers.now) search.words) }
    ensures notes { IfOk result (λ search. AreNotesOf space.now (asked_by numbers.now) [] search.notes) }
{
    let repairing = Repairing { alloc, space };
    let words = words_of(space, numbers);
    let notes = repairing.begin(alloc, numbers)?;
    Ok(RepairSearch {
        repairing,
        words,
        notes,
    })
}

/// Writes the file of a search.
fn write_search<D: Desk>(
    alloc: Global,
    search: &mut RepairSearch<'_>,
    inquirer: &mut Asker,
    numbers: &[u32],
    desk: &mut D,
    name: &str,
) -> Result<(), WorkError>
    requires idle { IsNotWriting (D.view desk.old).mode }
    requires limit { 1 ≤ inquirer.old.limit }
    requires fits { AreOver inquirer.old.log.variables search.old.words }
    requires nothing { inquirer.old.writer.written ≡ 0 }
    ensures { WritesFile search.old.repairing.space.now search.old.words search.old.notes search.new.notes numbers.now inquirer.old name.now (D.view desk.old) (D.view desk.new) result }
{
    write_inquiry(alloc, search, inquirer, numbers, desk, name)
}

/// What a search has found.
fn answer_of(search: RepairSearch<'_>) -> Repair
    ensures { result ≡ answer_of search.entry.notes }
{
    let RepairSearch {
        repairing,
        words,
        notes,
    } = search;
    drop(repairing);
    drop(words);
    notes.answer()
}

/// An asker over these clauses, whose installations take few new versions, and those that atoms name before others.
fn asker_over(
    alloc: Global,
    space: &Space,
    set: ClauseSet,
    limit: u32,
    limits: &Limits,
) -> Result<Asker, AllocError>
    requires limits { AreStated limits.now }
    ensures { IfOk result (λ asker. asker ≡ new_asker set limit limits.now) }
{
    let shunning = shunning(alloc, space)?;
    let mut asker = Asker::new(alloc, set, limit, limits)?;
    asker.shun(shunning);
    Ok(asker)
}

/// Asks over these clauses, and writes the file of a search.
fn run_search<D: Desk>(
    alloc: Global,
    search: &mut RepairSearch<'_>,
    set: ClauseSet,
    numbers: &[u32],
    desk: &mut D,
    name: &str,
    limit: u32,
    limits: &Limits,
) -> Result<(), WorkError>
    requires idle { IsNotWriting (D.view desk.old).mode }
    requires limit { 1 ≤ limit }
    requires limits { AreStated limits.now }
    requires fits { AreOver set.variables search.old.words }
    ensures { RunsSearch search.old.repairing.space.now search.old.words search.old.notes search.new.notes numbers.now (new_asker set limit limits.now) name.now (D.view desk.old) (D.view desk.new) result }
{
    let mut inquirer = asker_over(alloc, search.repairing.space, set, limit, limits)?;
    let done = write_search(alloc, search, &mut inquirer, numbers, desk, name);
    drop(inquirer);
    done
}

/// Writes the file with a first line of these numbers, by these clauses, and tells the answer.
fn answer_with<D: Desk>(
    alloc: Global,
    space: &Space,
    set: ClauseSet,
    numbers: &[u32],
    desk: &mut D,
    name: &str,
    limit: u32,
    limits: &Limits,
) -> Result<Repair, WorkError>
    requires idle { IsNotWriting (D.view desk.old).mode }
    requires limit { 1 ≤ limit }
    requires limits { AreStated limits.now }
    requires numbers { HasRightNumbers (repair_files space.now) numbers.now }
    requires words { (w : WordsView) → AreWordsOf space.now (asked_by numbers.now) w → AreOver set.variables w }
    ensures { TellsAnswer space.now numbers.now (new_asker set limit limits.now) name.now (D.view desk.old) (D.view desk.new) result }
{
    let mut search = new_search(alloc, space, numbers)?;
    match run_search(alloc, &mut search, set, numbers, desk, name, limit, limits) {
        Ok(()) => Ok(answer_of(search)),
        Err(error) => {
            drop(search);
            Err(error)
        }
    }
}

/// Writes a file on how many clusters must move so that a package can be installed, to the file of that name, and tells the
/// answer. The package is numbered from 0; clusters are counted up to a most; so many derived lines leave a question undecided.
///
/// It asks at most as many questions as two more than the most, and each costs what the solver takes for it.
pub fn repair<D: Desk>(
    alloc: Global,
    space: &Space,
    package: u32,
    most: u32,
    desk: &mut D,
    name: &str,
    limit: u32,
    limits: &Limits,
) -> Result<Repair, WorkError>
    requires idle { IsNotWriting (D.view desk.old).mode }
    requires package { «package» < length space.now.repository.packages }
    requires most { most ≤ MAX_MOST }
    requires from_one { 1 ≤ limit }
    requires upto { limit ≤ MAX_LIMIT }
    requires limits { AreStated limits.now }
    ensures answers { SearchAnswers space.now (header_with limit «package» most) limits.now name.now (D.view desk.old) (D.view desk.new) result }
    ensures first { TellsFirst space.now most limits.now result }
    ensures says { IfOk result (AcceptedSays space.now (header_with limit «package» most)) }
{
    accepted_repairs_hold();
    let set = repair_inputs(alloc, space, most, limits)?;
    space.keeps_invariant();
    set.keeps_invariant();
    let numbers = first_numbers(alloc, space, &set, package, most, limit)?;
    answer_with(alloc, space, set, &numbers, desk, name, limit, limits)
}
