//! The files of explanations, as files whose lines answer one question.
ghost use Rattle.std.specs.Prelude.{◌≡◌, ◌↔◌, IsTrue};
ghost use Rattle.dist_repo.specs.Size.{IsWithinSize};
ghost use Rattle.dist_subject.specs.Limited.{AreStated};
ghost use Rattle.dist_explain.specs.ExplanationFiles.{AreNumbersFor, asked_by, explanation_files};
ghost use Rattle.dist_explain.specs.NotesPrivate.{AreNotesOf};

use crate::asked::Asked;
use crate::inputs::selected_inputs;
use crate::notes::Notes;
use dist_clause::ClauseSet;
use dist_findings::{Answering, Finding, number_at};
use dist_outside::{Limits, WorkError};
use dist_repo::Repository;
use std::alloc::{AllocError, Global};

/// What a first line speaks of.
fn asked_by(numbers: &[u32]) -> Asked
    ensures { result ≡ asked_by numbers.now }
{
    Asked {
        packages: number_at(numbers, 1),
        relations: number_at(numbers, 2),
        number: number_at(numbers, 3),
    }
}

/// Whether a first line has the numbers for so many packages and variables.
fn are_numbers_for(numbers: &[u32], packages: u32, variables: u32) -> bool
    ensures { IsTrue result ↔ AreNumbersFor packages variables numbers.now }
{
    let asked = asked_by(numbers);
    asked.packages == packages
        && u64::from(asked.packages) + u64::from(asked.relations) == u64::from(variables)
        && 1 <= asked.number
        && asked.number <= packages
}

/// The files of explanations over a repository.
#[derive(Drop)]
pub struct Explaining<'a> {
    /// Its packages are explained.
    pub repo: &'a Repository,
}

impl<'a> Answering for Explaining<'a> {
    type Notes = Notes;

    ghost file = { λ e. explanation_files e.repo.now };

    ghost noted = { λ e numbers found notes. AreNotesOf (asked_by numbers) found notes };

    ghost ready = { λ e limits. IsWithinSize e.repo.now × AreStated limits };

    fn front(&self) -> &[u8] {
        b"distfuture-explain 1"
    }

    fn front_is_one_line(&self) {}

    fn count(&self) -> usize {
        4
    }

    fn inputs(
        &self,
        alloc: Global,
        numbers: &[u32],
        limits: &Limits,
    ) -> Result<Option<ClauseSet>, WorkError> {
        let set = selected_inputs(alloc, self.repo, limits)?;
        if are_numbers_for(numbers, self.repo.len(), set.variables()) {
            Ok(Some(set))
        } else {
            Ok(None)
        }
    }

    fn begin(&self, alloc: Global, numbers: &[u32]) -> Result<Notes, AllocError> {
        Ok(Notes::new(alloc, asked_by(numbers)))
    }

    fn note(&self, notes: &mut Notes, finding: Finding) -> Result<(), AllocError> {
        notes.note(finding)
    }

    fn is_decided(&self, notes: &Notes) -> bool {
        notes.is_decided()
    }
}
