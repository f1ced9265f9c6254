//! The search.
ghost use Rattle.std.specs.Prelude.{◌≡◌, ◌≤◌, ◌++◌, ◌∷◌, [], ℕ, List, Contains, IfErr, IfOk, IfSome, MatchOption, OnOk};
ghost use Rattle.dist_outside.specs.Files.{IsWriting};
ghost use Rattle.dist_inquiry.specs.Asking.{AskStops};
ghost use Rattle.dist_line_write.specs.Script.{Grows};
ghost use Rattle.dist_inquiry.specs.AnswerText.{NoteMore};
ghost use Rattle.dist_explain_search.specs.SearchPrivate.{AreNumbers, FitsAsked, Goes, GoesNot, HasJust, IsAnsweredAt, IsSmaller, Marks, explain_noting, others_of, question_of};

use crate::costs::shortest;
use crate::hinted::core_of;
use crate::questions::{add, all_but, all_numbers, is_open, joined, question_of};
use dist_explain::{Asked, Explaining, Notes, marked_relations_are_answered};
use dist_inquiry::{Inquiring, ask_and_note, refute_and_note};
use dist_line_write::Asker;
use dist_outside::{Desk, WorkError, file_grows};
use dist_solver::Answer;
use std::alloc::Global;

/// The search, with what it has found.
#[derive(Drop)]
pub(crate) struct ExplainSearch<'a> {
    pub(crate) alloc: Global,
    pub(crate) explaining: Explaining<'a>,
    pub(crate) asked: Asked,
    pub(crate) notes: Notes,
}

impl<'a> ExplainSearch<'a> {
    /// Asks for the package with some relations.
    fn ask<D: Desk>(
        &mut self,
        inquirer: &mut Asker,
        desk: &mut D,
        numbers: &[u32],
    ) -> Result<Answer, WorkError>
        requires writing { IsWriting (D.view desk.old).mode }
        requires limit { 1 ≤ inquirer.old.limit }
        requires fits { FitsAsked self.old.asked inquirer.old.log.variables }
        requires numbers { AreNumbers self.old.asked numbers.now }
        ensures ok { IfOk result (NoteMore explain_noting (D.view desk.old) (D.view desk.new) inquirer.old inquirer.new
            self.old.notes self.new.notes (question_of self.old.asked numbers.now)) }
        ensures err { IfErr result (AskStops inquirer.old (question_of self.old.asked numbers.now) (D.view desk.old) (D.view desk.new)) }
        ensures asked { self.new.asked ≡ self.old.asked }
        ensures variables { inquirer.new.log.variables ≡ inquirer.old.log.variables }
        ensures limit { inquirer.new.limit ≡ inquirer.old.limit }
        ensures grows { Grows (D.view desk.old) (D.view desk.new) }
    {
        file_grows();
        inquirer.keeps_invariant();
        let question = question_of(self.alloc, &self.asked, numbers)?;
        ask_and_note(
            self.alloc,
            &self.explaining,
            inquirer,
            &mut self.notes,
            desk,
            &question,
        )
    }

    /// Writes the question of those of some relations that hints name, where these are fewer and the hints refute them. The
    /// relations that the last line refutes are the answer.
    fn narrow<D: Desk>(
        &mut self,
        inquirer: &mut Asker,
        desk: &mut D,
        numbers: Vec<u32>,
        hints: &[u32],
    ) -> Result<Vec<u32>, WorkError>
        requires writing { IsWriting (D.view desk.old).mode }
        requires fits { FitsAsked self.old.asked inquirer.old.log.variables }
        requires numbers { AreNumbers self.old.asked numbers.items }
        ensures ok { IfOk result (λ core. Goes self.old.asked (HasJust self.old.asked numbers.items) (Marks self.old.asked core.items [])
            (D.view desk.old) (D.view desk.new) inquirer.old inquirer.new self.old.notes self.new.notes) }
        ensures err { IfErr result (GoesNot self.old.asked (HasJust self.old.asked numbers.items) (D.view desk.old) (D.view desk.new)
            inquirer.old self.old.notes) }
        ensures core { IfOk result (λ core. IsSmaller self.old.asked numbers.items core.items) }
        ensures asked { self.new.asked ≡ self.old.asked }
        ensures variables { inquirer.new.log.variables ≡ inquirer.old.log.variables }
        ensures limit { inquirer.new.limit ≡ inquirer.old.limit }
        ensures grows { Grows (D.view desk.old) (D.view desk.new) }
    {
        file_grows();
        inquirer.keeps_invariant();
        let core = core_of(self.alloc, inquirer, self.asked.packages, &numbers, hints)?;
        if core.len() >= numbers.len() {
            return Ok(numbers);
        }
        let question = question_of(self.alloc, &self.asked, &core)?;
        let refuted = refute_and_note(
            self.alloc,
            &self.explaining,
            inquirer,
            &mut self.notes,
            desk,
            &question,
            hints,
        )?;
        if refuted { Ok(core) } else { Ok(numbers) }
    }

    /// The same of all relations, by the hints of the shortest refutation where one is found, or else by those of the answer.
    fn find_core<D: Desk>(
        &mut self,
        inquirer: &mut Asker,
        desk: &mut D,
        numbers: Vec<u32>,
        hints: &[u32],
    ) -> Result<Vec<u32>, WorkError>
        requires writing { IsWriting (D.view desk.old).mode }
        requires fits { FitsAsked self.old.asked inquirer.old.log.variables }
        requires numbers { AreNumbers self.old.asked numbers.items }
        ensures ok { IfOk result (λ core. Goes self.old.asked (HasJust self.old.asked numbers.items) (Marks self.old.asked core.items [])
            (D.view desk.old) (D.view desk.new) inquirer.old inquirer.new self.old.notes self.new.notes) }
        ensures err { IfErr result (GoesNot self.old.asked (HasJust self.old.asked numbers.items) (D.view desk.old) (D.view desk.new)
            inquirer.old self.old.notes) }
        ensures core { IfOk result (λ core. IsSmaller self.old.asked numbers.items core.items) }
        ensures asked { self.new.asked ≡ self.old.asked }
        ensures variables { inquirer.new.log.variables ≡ inquirer.old.log.variables }
        ensures limit { inquirer.new.limit ≡ inquirer.old.limit }
        ensures grows { Grows (D.view desk.old) (D.view desk.new) }
    {
        file_grows();
        let short = shortest(self.alloc, inquirer, &self.asked)?;
        let least = if short.is_empty() {
            hints
        } else {
            short.as_slice()
        };
        self.narrow(inquirer, desk, numbers, least)
    }

    /// Asks for all relations of the core but one. None is answered where that is not refuted, and else the new core.
    fn leave_out<D: Desk>(
        &mut self,
        inquirer: &mut Asker,
        desk: &mut D,
        core: &[u32],
        one: u32,
    ) -> Result<Option<Vec<u32>>, WorkError>
        requires writing { IsWriting (D.view desk.old).mode }
        requires limit { 1 ≤ inquirer.old.limit }
        requires fits { FitsAsked self.old.asked inquirer.old.log.variables }
        requires core { AreNumbers self.old.asked core.now }
        requires one { Contains core.now one }
        ensures ok { (done : List ℕ) → ¬ Contains done one → IfOk result (λ found. MatchOption found
            (Goes self.old.asked (Marks self.old.asked core.now done) (Marks self.old.asked core.now (done ++ one ∷ []))
            (D.view desk.old) (D.view desk.new) inquirer.old inquirer.new self.old.notes self.new.notes)
            (λ fewer. Goes self.old.asked (Marks self.old.asked core.now done) (Marks self.old.asked fewer.items [])
            (D.view desk.old) (D.view desk.new) inquirer.old inquirer.new self.old.notes self.new.notes)) }
        ensures err { (done : List ℕ) → ¬ Contains done one
            → IfErr result (GoesNot self.old.asked (Marks self.old.asked core.now done) (D.view desk.old) (D.view desk.new) inquirer.old self.old.notes) }
        ensures fewer { IfOk result (λ found. IfSome found (λ fewer. IsSmaller self.old.asked (others_of core.now one) fewer.items)) }
        ensures asked { self.new.asked ≡ self.old.asked }
        ensures variables { inquirer.new.log.variables ≡ inquirer.old.log.variables }
        ensures limit { inquirer.new.limit ≡ inquirer.old.limit }
        ensures grows { Grows (D.view desk.old) (D.view desk.new) }
    {
        file_grows();
        let others = all_but(self.alloc, core, one)?;
        match self.ask(inquirer, desk, &others)? {
            Answer::Refuted(hints) => {
                let fewer = self.narrow(inquirer, desk, others, hints.as_slice())?;
                Ok(Some(fewer))
            }
            Answer::Found(_values) => Ok(None),
            Answer::Undecided => Ok(None),
        }
    }

    /// Leaves out one relation of the core after another, until each has its mark. With a smaller core the relations that were not
    /// left out yet come first: the others, which were needed for more, are needed for fewer too.
    fn settle_core<D: Desk>(
        &mut self,
        inquirer: &mut Asker,
        desk: &mut D,
        first: Vec<u32>,
    ) -> Result<(), WorkError>
        requires writing { IsWriting (D.view desk.old).mode }
        requires limit { 1 ≤ inquirer.old.limit }
        requires fits { FitsAsked self.old.asked inquirer.old.log.variables }
        requires first { AreNumbers self.old.asked first.items }
        ensures ok { OnOk result (Goes self.old.asked (Marks self.old.asked first.items []) (IsAnsweredAt self.old.asked)
            (D.view desk.old) (D.view desk.new) inquirer.old inquirer.new self.old.notes self.new.notes) }
        ensures err { IfErr result (GoesNot self.old.asked (Marks self.old.asked first.items []) (D.view desk.old) (D.view desk.new)
            inquirer.old self.old.notes) }
        ensures grows { Grows (D.view desk.old) (D.view desk.new) }
    {
        marked_relations_are_answered();
        file_grows();
        let mut done = Vec::new(self.alloc);
        let mut left = joined(self.alloc, &first, &done)?;
        let mut core = first;
        'tries: while let Some(one) = left.pop() {
            if !is_open(&core, &done, one) {
                continue;
            }
            match self.leave_out(inquirer, desk, &core, one)? {
                Some(fewer) => {
                    core = fewer;
                    left = joined(self.alloc, &done, &left)?;
                    done.clear();
                }
                None => add(&mut done, one)?,
            }
        }
        Ok(())
    }
}

impl<'a> Inquiring for ExplainSearch<'a> {
    ghost use Rattle.std.specs.Prelude.{◌≡◌, []};
    ghost use Rattle.dist_explain.specs.Answered.{AreAnswered};
    ghost use Rattle.dist_explain.specs.ExplanationFiles.{asked_by, explanation_files};
    ghost use Rattle.dist_explain.specs.NotesPrivate.{AreNotesOf};
    ghost use Rattle.dist_explain_search.specs.ExplainOrder.{IsNextQuestion};
    ghost use Rattle.dist_explain_search.specs.SearchPrivate.{FitsAsked};

    ghost file = { λ s. explanation_files s.explaining.repo.now };

    ghost keeps = { λ s numbers. (s.asked ≡ asked_by numbers) × AreNotesOf (asked_by numbers) [] s.notes };

    ghost asks = { λ s numbers. IsNextQuestion (asked_by numbers) };

    ghost told = { λ before s numbers found. AreNotesOf (asked_by numbers) found s.notes × AreAnswered (asked_by numbers) found };

    ghost fits = { λ s n. FitsAsked s.asked n };

    fn front(&self) -> &[u8] {
        b"distfuture-explain 1"
    }

    fn settle<D: Desk>(&mut self, inquirer: &mut Asker, desk: &mut D) -> Result<(), WorkError> {
        file_grows();
        let all = all_numbers(self.alloc, self.asked.relations)?;
        match self.ask(inquirer, desk, &all)? {
            Answer::Refuted(hints) => {
                let core = self.find_core(inquirer, desk, all, hints.as_slice())?;
                self.settle_core(inquirer, desk, core)
            }
            Answer::Found(_values) => Ok(()),
            Answer::Undecided => Ok(()),
        }
    }
}
