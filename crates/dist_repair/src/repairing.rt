//! Files of repairs, as a kind of file whose lines answer one question.
ghost use Rattle.std.specs.Prelude.{◌≤◌};
ghost use Rattle.dist_findings.specs.Start.{HasRightNumbers};
ghost use Rattle.dist_repair.specs.NotesPrivate.{AreWordsOf};
ghost use Rattle.dist_repair.specs.RepairFiles.{asked_by, repair_files};
ghost use Rattle.dist_base.specs.declared.TheConstants.{MAX_MOST};

use crate::inputs::{counted_inputs, fits};
use crate::notes::Notes;
use crate::words::Words;
use dist_base::MAX_MOST;
use dist_clause::ClauseSet;
use dist_findings::{Answering, Finding, number_at};
use dist_outside::{Limits, WorkError};
use dist_space::{Meaning, Space};
use std::alloc::{AllocError, Global};

/// Files of repairs over a space.
#[derive(Drop)]
pub struct Repairing<'a> {
    pub alloc: Global,
    pub space: &'a Space,
}

/// The variables of the questions that a file may ask, where its numbers are right.
pub fn words_of(space: &Space, numbers: &[u32]) -> Words
    requires { HasRightNumbers (repair_files space.now) numbers.now }
    ensures words { AreWordsOf space.now (asked_by numbers.now) result }
    ensures most { result.most ≤ MAX_MOST }
{
    space.keeps_invariant();
    let most = number_at(numbers, 5);
    Words {
        own: space.variable(&Meaning::Present(number_at(numbers, 4) - 1)),
        first: number_at(numbers, 2) - most,
        most,
    }
}

impl<'a> Answering for Repairing<'a> {
    ghost use Rattle.dist_subject.specs.Limited.{AreStated};
    ghost use Rattle.dist_repair.specs.NotesPrivate.{AreNotesOf};
    ghost use Rattle.dist_repair.specs.RepairFiles.{asked_by, repair_files};

    type Notes = Notes;

    ghost file = { λ k. repair_files k.space.now };

    ghost noted = { λ k numbers found notes. AreNotesOf k.space.now (asked_by numbers) found notes };

    ghost ready = { λ k limits. AreStated limits };

    fn front(&self) -> &[u8] {
        b"distfuture-repair 1"
    }

    fn front_is_one_line(&self) {}

    fn count(&self) -> usize {
        6
    }

    fn inputs(
        &self,
        alloc: Global,
        numbers: &[u32],
        limits: &Limits,
    ) -> Result<Option<ClauseSet>, WorkError> {
        let most = number_at(numbers, 5);
        if most > MAX_MOST {
            return Ok(None);
        }
        let set = counted_inputs(alloc, self.space, most, limits)?;
        if fits(self.space, &set, numbers) {
            Ok(Some(set))
        } else {
            drop(set);
            Ok(None)
        }
    }

    fn begin(&self, alloc: Global, numbers: &[u32]) -> Result<Notes, AllocError> {
        Notes::new(alloc, words_of(self.space, numbers))
    }

    fn note(&self, notes: &mut Notes, finding: Finding) -> Result<(), AllocError> {
        notes.note(self.alloc, self.space, finding)
    }

    fn is_decided(&self, notes: &Notes) -> bool {
        notes.has_answer()
    }
}
