//! The questions.
ghost use Rattle.std.specs.Prelude.{◌≡◌, ◌+◌, ◌<◌, ◌≤◌, List, IfErr, IfOk, IfSome, OnOk};
ghost use Rattle.dist_outside.specs.Files.{IsWriting};
ghost use Rattle.dist_line_write.specs.Script.{Grows};
ghost use Rattle.dist_space.specs.Space.{SpaceView};
ghost use Rattle.dist_findings.specs.declared.finding.Finding.{Finding};
ghost use Rattle.dist_repair.specs.Answered.{Asked};
ghost use Rattle.dist_repair.specs.NotesPrivate.{AreNotesOf};
ghost use Rattle.dist_repair.specs.Searched.{IsBelowUpper};
ghost use Rattle.dist_repair_search.specs.SearchPrivate.{AloneMore, AloneStops, AreOver, DownTo, LowerMore, LowerStops, NextMore, NextStops, SearchMore};

use dist_findings::Answering;
use dist_inquiry::{Inquiring, ask_and_note};
use dist_line_write::Asker;
use dist_outside::{Desk, WorkError, file_grows};
use dist_repair::{Notes, Repairing, Words, questions_decide};

/// The search, with what it has found.
#[derive(Drop)]
pub(crate) struct RepairSearch<'a> {
    pub(crate) repairing: Repairing<'a>,
    pub(crate) words: Words,
    pub(crate) notes: Notes,
}

/// Asks for the package alone.
fn ask_alone<D: Desk>(
    repairing: &Repairing<'_>,
    words: &Words,
    notes: &mut Notes,
    inquirer: &mut Asker,
    desk: &mut D,
) -> Result<(), WorkError>
    requires writing { IsWriting (D.view desk.old).mode }
    requires limit { 1 ≤ inquirer.old.limit }
    requires over { AreOver inquirer.old.log.variables words.now }
    ensures ok { OnOk result (AloneMore repairing.now.space.now words.now notes.old notes.new (D.view desk.old) (D.view desk.new) inquirer.old inquirer.new) }
    ensures err { IfErr result (AloneStops repairing.now.space.now words.now notes.old (D.view desk.old) (D.view desk.new) inquirer.old) }
    ensures variables { OnOk result (inquirer.new.log.variables ≡ inquirer.old.log.variables) }
    ensures same_limit { OnOk result (inquirer.new.limit ≡ inquirer.old.limit) }
    ensures grows { Grows (D.view desk.old) (D.view desk.new) }
{
    file_grows();
    repairing.space.keeps_invariant();
    let question = words.alone();
    let _answer = ask_and_note(repairing.alloc, repairing, inquirer, notes, desk, &question)?;
    Ok(())
}

/// Asks for the package where not more than so many clusters have moved: at the lower bound, where the answer is not decided, or else
/// below the upper bound, at a number that was not asked.
fn ask_at<D: Desk>(
    repairing: &Repairing<'_>,
    words: &Words,
    notes: &mut Notes,
    inquirer: &mut Asker,
    desk: &mut D,
    number: u32,
) -> Result<(), WorkError>
    requires writing { IsWriting (D.view desk.old).mode }
    requires limit { 1 ≤ inquirer.old.limit }
    requires over { AreOver inquirer.old.log.variables words.now }
    requires number { number ≤ words.now.most }
    ensures ok { OnOk result (NextMore repairing.now.space.now words.now number notes.old notes.new (D.view desk.old) (D.view desk.new) inquirer.old inquirer.new) }
    ensures err { IfErr result (NextStops repairing.now.space.now words.now number notes.old (D.view desk.old) (D.view desk.new) inquirer.old) }
    ensures lower { OnOk result (LowerMore repairing.now.space.now words.now number notes.old notes.new (D.view desk.old) (D.view desk.new) inquirer.old inquirer.new) }
    ensures lower_err { IfErr result (LowerStops repairing.now.space.now words.now number notes.old (D.view desk.old) (D.view desk.new) inquirer.old) }
    ensures variables { OnOk result (inquirer.new.log.variables ≡ inquirer.old.log.variables) }
    ensures same_limit { OnOk result (inquirer.new.limit ≡ inquirer.old.limit) }
    ensures grows { Grows (D.view desk.old) (D.view desk.new) }
{
    file_grows();
    questions_decide();
    repairing.space.keeps_invariant();
    let question = words.at(number);
    let _answer = ask_and_note(repairing.alloc, repairing, inquirer, notes, desk, &question)?;
    Ok(())
}

/// Asks for the package alone, and then where more and more clusters may move, until the answer is decided. The first number that was
/// not asked is the answer.
fn ask_up<D: Desk>(
    repairing: &Repairing<'_>,
    words: &Words,
    notes: &mut Notes,
    inquirer: &mut Asker,
    desk: &mut D,
) -> Result<u32, WorkError>
    requires writing { IsWriting (D.view desk.old).mode }
    requires limit { 1 ≤ inquirer.old.limit }
    requires over { AreOver inquirer.old.log.variables words.now }
    ensures ok { IfOk result (λ from. DownTo repairing.now.space.now words.now notes.old (D.view desk.old) inquirer.old from (words.now.most + 1) notes.new (D.view desk.new) inquirer.new) }
    ensures err { IfErr result (AloneStops repairing.now.space.now words.now notes.old (D.view desk.old) (D.view desk.new) inquirer.old) }
    ensures variables { IfOk result (λ from. inquirer.new.log.variables ≡ inquirer.old.log.variables) }
    ensures same_limit { IfOk result (λ from. inquirer.new.limit ≡ inquirer.old.limit) }
    ensures grows { Grows (D.view desk.old) (D.view desk.new) }
{
    file_grows();
    questions_decide();
    ask_alone(repairing, words, notes, inquirer, desk)?;
    for number in 0..words.most() + 1 {
        if repairing.is_decided(notes) {
            return Ok(number);
        }
        ask_at(repairing, words, notes, inquirer, desk, number)?;
    }
    Ok(words.most() + 1)
}

/// The number that may be asked below the upper bound, from one on and below another.
fn number_below(notes: &Notes, from: u32, above: u32) -> Option<u32>
    ensures from { IfSome result (λ j. from ≤ j) }
    ensures less { IfSome result (λ j. j < above) }
    ensures below { IfSome result (λ j. (s : SpaceView) (asked : Asked) (found : List Finding) → AreNotesOf s asked found notes.now → IsBelowUpper s asked found j) }
{
    match notes.below() {
        Some(number) if from <= number && number < above => Some(number),
        _ => None,
    }
}

/// Asks until the answer is decided, and then below the upper bound, while installations are found there.
fn ask_all<D: Desk>(
    repairing: &Repairing<'_>,
    words: &Words,
    notes: &mut Notes,
    inquirer: &mut Asker,
    desk: &mut D,
) -> Result<(), WorkError>
    requires writing { IsWriting (D.view desk.old).mode }
    requires limit { 1 ≤ inquirer.old.limit }
    requires over { AreOver inquirer.old.log.variables words.now }
    ensures ok { OnOk result (SearchMore repairing.now.space.now words.now notes.old notes.new (D.view desk.old) (D.view desk.new) inquirer.old inquirer.new) }
    ensures err { IfErr result (AloneStops repairing.now.space.now words.now notes.old (D.view desk.old) (D.view desk.new) inquirer.old) }
    ensures grows { Grows (D.view desk.old) (D.view desk.new) }
{
    file_grows();
    let from = ask_up(repairing, words, notes, inquirer, desk)?;
    let most = words.most();
    let mut above = most + 1;
    for _ in 0..most + 1 {
        match number_below(notes, from, above) {
            Some(number) => {
                ask_at(repairing, words, notes, inquirer, desk, number)?;
                above = number;
            }
            None => return Ok(()),
        }
    }
    Ok(())
}

impl<'a> Inquiring for RepairSearch<'a> {
    ghost use Rattle.std.specs.Prelude.{◌≡◌, []};
    ghost use Rattle.dist_repair.specs.Answered.{Answers};
    ghost use Rattle.dist_repair.specs.NotesPrivate.{AreNotesOf, AreWordsOf, answer_of};
    ghost use Rattle.dist_repair.specs.RepairFiles.{asked_by, repair_files};
    ghost use Rattle.dist_repair_search.specs.QuestionOrder.{repair_asks};
    ghost use Rattle.dist_repair_search.specs.SearchPrivate.{AreOver};

    ghost file = { λ s. repair_files s.repairing.space.now };

    ghost keeps = { λ s numbers. AreWordsOf s.repairing.space.now (asked_by numbers) s.words
        × AreNotesOf s.repairing.space.now (asked_by numbers) [] s.notes };

    ghost asks = { λ s numbers. repair_asks s.repairing.space.now numbers };

    ghost told = { λ before after numbers found. Answers before.repairing.space.now (asked_by numbers) found (answer_of after.notes) };

    ghost fits = { λ s n. AreOver n s.words };

    fn front(&self) -> &[u8] {
        self.repairing.front()
    }

    fn settle<D: Desk>(&mut self, inquirer: &mut Asker, desk: &mut D) -> Result<(), WorkError> {
        questions_decide();
        ask_all(
            &self.repairing,
            &self.words,
            &mut self.notes,
            inquirer,
            desk,
        )
    }
}
