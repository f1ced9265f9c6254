//! What is noted of the findings of a file.
ghost use Rattle.std.specs.Prelude.{◌≡◌, ◌↔◌, ◌++◌, ◌∷◌, ◌≤◌, [], IsTrue, List, OnOk};
ghost use Rattle.std.specs.List.{list_all};
ghost use Rattle.dist_cert.specs.Rising.{AreRising, is_among};
ghost use Rattle.dist_explain.specs.Answered.{Answers, AreAnswered};
ghost use Rattle.dist_explain.specs.NotesPrivate.{AreInOrder, AreNotesOf, MarksOpen, MarksShown, are_all_marked, fresh, undecided_of};
ghost use Rattle.dist_explain.specs.declared.asked.Asked.{Asked};
ghost use Rattle.dist_findings.specs.Findings.{IsFormed};
ghost use Rattle.dist_findings.specs.declared.finding.Finding.{Finding};
ghost use Rattle.dist_findings.specs.declared.finding.Finding.TheVariants as finding;

use crate::asked::Asked;
use crate::explained::Explained;
use crate::listed::{has_all_behind, only_missing, put};
use dist_cert::Items;
use dist_check_group::has;
use dist_findings::Finding;
use std::alloc::{AllocError, Global};
use std::marker::Model;

/// The relations of the last refuted question, and of these the ones that a later installation shows to be needed, and those of
/// which that was left undecided. Each list rises.
#[derive(Debug, Drop)]
pub(crate) struct Last {
    numbers: Vec<u32>,
    shown: Vec<u32>,
    left_open: Vec<u32>,
}

impl Model for Last {
    ghost use Rattle.dist_cert.specs.Rising.{AreRising};
    ghost use Rattle.dist_explain.specs.NotesPrivate.{LastView};

    ghost Value = { LastView };

    ghost view = { λ l. record { numbers = l.numbers.items; shown = l.shown.items; left_open = l.left_open.items } };

    ghost invariant = { λ l. AreRising l.numbers.items × AreRising l.shown.items × AreRising l.left_open.items };
}

impl Last {
    /// Nothing is known of these relations.
    fn new(alloc: Global, numbers: Vec<u32>) -> Last
        requires { AreRising numbers.items }
        ensures { result ≡ fresh numbers.items }
    {
        Last {
            numbers,
            shown: Vec::new(alloc),
            left_open: Vec::new(alloc),
        }
    }

    /// Notes the relation whose selector an installation lacks, if it is the only one.
    fn note_installed(&mut self, packages: u32, members: &[u32]) -> Result<(), AllocError>
        requires { AreRising members.now }
        ensures { OnOk result (MarksShown packages members.now self.old self.new) }
    {
        match only_missing(&self.numbers, packages, members) {
            Some(number) => put(&mut self.shown, number),
            None => Ok(()),
        }
    }

    /// Whether all of some numbers are relations of the question.
    fn has_all(&self, others: &[u32]) -> bool
        ensures { result ≡ list_all (is_among self.now.numbers) others.now }
    {
        others.iter().all(|other| has(&self.numbers, *other))
    }

    /// Notes the relation that a question leaves out, if it has all others and none besides.
    fn note_open(&mut self, others: &[u32]) -> Result<(), AllocError>
        requires { AreRising others.now }
        ensures { OnOk result (MarksOpen others.now self.old self.new) }
    {
        if !self.has_all(others) {
            return Ok(());
        }
        match only_missing(&self.numbers, 0, others) {
            Some(number) => put(&mut self.left_open, number),
            None => Ok(()),
        }
    }

    /// Whether each relation is shown to be needed or left open.
    fn is_decided(&self) -> bool
        ensures decided { result ≡ are_all_marked self.now }
        ensures order { AreInOrder self.now }
    {
        self.numbers.iter().all(|number| has(&self.shown, *number) || has(&self.left_open, *number))
    }

    /// The relations, those that are needed and those of which that is undecided.
    fn answer(self) -> Explained
        ensures value { result ≡ Explained.Broken self.shown (undecided_of self) }
        ensures order { AreInOrder self }
    {
        let Last {
            numbers,
            shown,
            mut left_open,
        } = self;
        drop(numbers);
        left_open.retain(|number| !has(&shown, *number));
        Explained::Broken(Items::from_vec(shown), Items::from_vec(left_open))
    }
}

/// What is noted of the findings of a file: of the relations of the last refuted question, which are needed, and of which that is
/// left undecided.
#[derive(Drop)]
pub struct Notes {
    alloc: Global,
    asked: Asked,
    last: Option<Last>,
    /// Whether an installation has the package and all selectors. It counts while no question is refuted.
    installed: bool,
    /// Whether the question of them all is left undecided. It counts while no question is refuted.
    left_open: bool,
}

impl Model for Notes {
    ghost use Rattle.std.specs.Prelude.{◌≤◌};
    ghost use Rattle.dist_explain.specs.NotesPrivate.{NotesView};

    ghost Value = { NotesView };

    ghost view = { λ n. record { asked = n.asked; last = n.last; installed = n.installed; left_open = n.left_open } };

    ghost invariant = { λ n. n.asked.number ≤ n.asked.packages };
}

impl Notes {
    /// Nothing is found yet.
    pub fn new(alloc: Global, asked: Asked) -> Notes
        requires { asked.number ≤ asked.packages }
        ensures { AreNotesOf asked [] result }
    {
        Notes {
            alloc,
            asked,
            last: None,
            installed: false,
            left_open: false,
        }
    }

    /// Notes that a question is refuted.
    fn note_refuted(&mut self, question: &[(u32, bool)]) -> Result<(), AllocError>
        ensures { (asked : Asked) (found : List Finding) → AreNotesOf asked found self.old
            → OnOk result (AreNotesOf asked (found ++ finding.Refuted question.now ∷ []) self.new) }
    {
        if let Some(numbers) = self.asked.selected(self.alloc, question)? {
            self.last = Some(Last::new(self.alloc, numbers));
        }
        Ok(())
    }

    /// Notes that a question is left undecided.
    fn note_undecided(&mut self, question: &[(u32, bool)]) -> Result<(), AllocError>
        ensures { (asked : Asked) (found : List Finding) → AreNotesOf asked found self.old
            → OnOk result (AreNotesOf asked (found ++ finding.LeftUndecided question.now ∷ []) self.new) }
    {
        let Some(numbers) = self.asked.selected(self.alloc, question)? else {
            return Ok(());
        };
        match &mut self.last {
            Some(last) => last.note_open(&numbers),
            None => {
                if has_all_behind(&numbers, 0, self.asked.relations) {
                    self.left_open = true;
                }
                Ok(())
            }
        }
    }

    /// Notes an installation.
    fn note_installed(&mut self, members: &[u32]) -> Result<(), AllocError>
        requires { AreRising members.now }
        ensures { (asked : Asked) (found : List Finding) → AreNotesOf asked found self.old
            → OnOk result (AreNotesOf asked (found ++ finding.Installed members.now ∷ []) self.new) }
    {
        let packages = self.asked.packages;
        if !has(members, self.asked.number) {
            return Ok(());
        }
        match &mut self.last {
            Some(last) => last.note_installed(packages, members),
            None => {
                if has_all_behind(members, packages, self.asked.relations) {
                    self.installed = true;
                }
                Ok(())
            }
        }
    }

    /// Notes one finding more.
    pub(crate) fn note(&mut self, finding: Finding) -> Result<(), AllocError>
        requires { IsFormed finding }
        ensures { (asked : Asked) (found : List Finding) → AreNotesOf asked found self.old
            → OnOk result (AreNotesOf asked (found ++ finding ∷ []) self.new) }
    {
        match finding {
            Finding::Refuted(question) => self.note_refuted(question.as_slice()),
            Finding::LeftUndecided(question) => self.note_undecided(question.as_slice()),
            Finding::Installed(members) => self.note_installed(members.as_slice()),
        }
    }

    /// Whether the findings decide the answer.
    pub(crate) fn is_decided(&self) -> bool
        ensures { (asked : Asked) (found : List Finding) → AreNotesOf asked found self.now
            → IsTrue result ↔ AreAnswered asked found }
    {
        match &self.last {
            Some(last) => last.is_decided(),
            None => self.installed || self.left_open,
        }
    }

    /// The answer, if the findings decide it.
    pub fn answer(self) -> Explained
        ensures { (asked : Asked) (found : List Finding) → AreNotesOf asked found self
            → (¬ ¬ AreAnswered asked found) → Answers asked found result }
    {
        let Notes {
            alloc: _,
            asked: _,
            last,
            installed,
            left_open: _,
        } = self;
        match last {
            Some(last) => last.answer(),
            None => {
                if installed {
                    Explained::Installable
                } else {
                    Explained::Undecided
                }
            }
        }
    }
}
