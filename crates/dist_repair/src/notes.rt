//! What is noted of the findings of a file.
ghost use Rattle.std.specs.Prelude.{◌≡◌, ◌++◌, ◌∷◌, ◌<◌, ◌≤◌, ◌^◌, [], IfOk, IfSome, List, OnOk};
ghost use Rattle.dist_cert.specs.Form.{AreFromOne};
ghost use Rattle.dist_cert.specs.Rising.{AreRising};
ghost use Rattle.dist_space.specs.Space.{SpaceView};
ghost use Rattle.dist_findings.specs.Findings.{IsFormed};
ghost use Rattle.dist_findings.specs.declared.finding.Finding.{Finding};
ghost use Rattle.dist_repair.specs.Answered.{Asked};
ghost use Rattle.dist_base.specs.declared.TheConstants.{MAX_MOST};
ghost use Rattle.dist_repair.specs.Searched.{IsBelowUpper};
ghost use Rattle.dist_repair.specs.NotesPrivate.{AreNotesOf, AreWordsOf, NotesLeft, NotesRefuted, answer_of, has_answer, is_at_end, is_fewer, noted_installed, raised};

use crate::moved::{moved_in, values_of};
use crate::repair::Repair;
use crate::words::Words;
use dist_check_group::has;
use dist_clause::Assignment;
use dist_findings::Finding;
use dist_space::Space;
use std::alloc::{AllocError, Global};
use std::marker::Model;

/// What is noted of the findings of a file.
#[derive(Debug, Drop)]
pub struct Notes {
    words: Words,
    /// Whether the question of the package alone is refuted.
    outdated: bool,
    /// Whether it is left undecided.
    alone_left: bool,
    /// The lower bound.
    lower: u32,
    /// For each number up to the most, whether its question is left undecided.
    left: Vec<bool>,
    /// The upper bound, with the first installation for it.
    upper: Option<(u32, Assignment)>,
}

impl Model for Notes {
    ghost use Rattle.std.specs.Prelude.{◌≡◌, ◌+◌, ◌≤◌, length};
    ghost use Rattle.dist_repair.specs.NotesPrivate.{NotesView};
    ghost use Rattle.dist_base.specs.declared.TheConstants.{MAX_MOST};

    ghost Value = { NotesView };

    ghost view = { λ n. record { words = n.words; outdated = n.outdated; alone_left = n.alone_left; lower = n.lower; left = n.left.items; upper = n.upper } };

    ghost invariant = { λ n. (length n.left.items ≡ n.words.most + 1) × (n.words.most ≤ MAX_MOST) };
}

/// A lower bound with one more number whose question is refuted.
fn raised(lower: u32, number: u32) -> u32
    requires { number < 2 ^ 31 }
    ensures { result ≡ raised lower number }
{
    if number < lower { lower } else { number + 1 }
}

impl Notes {
    /// Nothing is found so far.
    pub(crate) fn new(alloc: Global, words: Words) -> Result<Notes, AllocError>
        requires { words.most ≤ MAX_MOST }
        ensures { (s : SpaceView) (asked : Asked) → AreWordsOf s asked words → IfOk result (AreNotesOf s asked []) }
    {
        let left = vec![in alloc; false; words.most as usize + 1]?;
        Ok(Notes {
            words,
            outdated: false,
            alone_left: false,
            lower: 0,
            left,
            upper: None,
        })
    }

    /// Notes that a question is refuted.
    fn note_refuted(&mut self, question: &[(u32, bool)])
        ensures { NotesRefuted self.old question.now self.new }
    {
        if self.words.is_alone(question) {
            self.outdated = true;
            return;
        }
        match self.words.number_of(question) {
            Some(number) => self.lower = raised(self.lower, number),
            None => {}
        }
    }

    /// Notes that a question is left undecided.
    fn note_left(&mut self, question: &[(u32, bool)])
        ensures { NotesLeft self.old question.now self.new }
    {
        if self.words.is_alone(question) {
            self.alone_left = true;
            return;
        }
        match self.words.number_of(question) {
            Some(number) => self.left[number as usize] = true,
            None => {}
        }
    }

    /// Whether a number is below the upper bound, if there is one.
    fn is_fewer(&self, count: u32) -> bool
        ensures { result ≡ is_fewer self.now.upper count }
    {
        match &self.upper {
            Some((least, _)) => count < *least,
            None => true,
        }
    }

    /// Notes an installation.
    fn note_installed(
        &mut self,
        alloc: Global,
        space: &Space,
        members: &[u32],
    ) -> Result<(), AllocError>
        requires from_one { AreFromOne members.now }
        requires rising { AreRising members.now }
        ensures { OnOk result (self.new ≡ noted_installed space.now self.old members.now) }
    {
        if !has(members, self.words.own) {
            return Ok(());
        }
        let count = moved_in(alloc, space, members)?;
        if !self.is_fewer(count) {
            return Ok(());
        }
        let values = values_of(alloc, self.words.first + self.words.most, members)?;
        self.upper = Some((count, values));
        Ok(())
    }

    /// Notes what a line finds.
    pub(crate) fn note(
        &mut self,
        alloc: Global,
        space: &Space,
        finding: Finding,
    ) -> Result<(), AllocError>
        requires { IsFormed finding }
        ensures { (asked : Asked) (found : List Finding) → AreNotesOf space.now asked found self.old
            → OnOk result (AreNotesOf space.now asked (found ++ finding ∷ []) self.new) }
    {
        match finding {
            Finding::Refuted(question) => {
                self.note_refuted(question.as_slice());
                Ok(())
            }
            Finding::LeftUndecided(question) => {
                self.note_left(question.as_slice());
                Ok(())
            }
            Finding::Installed(members) => self.note_installed(alloc, space, members.as_slice()),
        }
    }

    /// The number of the question that would make the bounds meet where it is refuted, or show that they differ by the most alone: one
    /// below the upper bound, or the most where that is smaller.
    pub fn below(&self) -> Option<u32>
        ensures { IfSome result (λ j. (s : SpaceView) (asked : Asked) (found : List Finding) → AreNotesOf s asked found self.now → IsBelowUpper s asked found j) }
    {
        match &self.upper {
            Some((least, _)) if *least > 0 => Some((*least - 1).min(self.words.most)),
            _ => None,
        }
    }

    /// Whether all questions up to the most are refuted, or the one at the lower bound is left undecided.
    fn is_at_end(&self) -> bool
        ensures { result ≡ is_at_end self.now }
    {
        self.lower > self.words.most || self.left[self.lower as usize]
    }

    /// Whether what was found has an answer.
    pub(crate) fn has_answer(&self) -> bool
        ensures { result ≡ has_answer self.now }
    {
        if self.outdated {
            return true;
        }
        match &self.upper {
            Some((count, _)) => *count == self.lower || self.is_at_end(),
            None => self.alone_left && self.is_at_end(),
        }
    }

    /// The answer, where there is one.
    pub fn answer(self) -> Repair
        ensures { result ≡ answer_of self }
    {
        let Notes {
            words,
            outdated,
            alone_left: _,
            lower,
            left,
            upper,
        } = self;
        drop(left);
        if outdated {
            drop(upper);
            return Repair::Outdated;
        }
        match upper {
            Some((count, values)) if count == lower => Repair::Least(count, values),
            Some((count, values)) => {
                Repair::AtLeast(lower, lower <= words.most, Some((count, values)))
            }
            None => Repair::AtLeast(lower, true, None),
        }
    }
}
