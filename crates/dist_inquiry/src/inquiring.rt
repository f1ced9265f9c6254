//! What a kind of search does.
ghost use Rattle.std.specs.Prelude.{◌≡◌, ◌≤◌, ℕ, List, IfErr, OnOk};
ghost use Rattle.dist_outside.specs.Files.{IsWriting};
ghost use Rattle.dist_cert.specs.FileLines.{IsOneLine};
ghost use Rattle.dist_findings.specs.AnswerFiles.{AnswerFile};
ghost use Rattle.dist_findings.specs.declared.finding.Finding.{Finding};
ghost use Rattle.dist_line_write.specs.Script.{Grows, Asks};
ghost use Rattle.dist_inquiry.specs.Inquiring.{SettleMore, SettleStops};

use dist_line_write::Asker;
use dist_outside::{Desk, WorkError};

/// A search whose questions decide the answer of a file.
pub trait Inquiring {
    /// The files.
    ghost file: { Self → AnswerFile };

    /// It has asked nothing, and can be asked for the answer behind a first line of these numbers.
    ghost keeps: { Self → (numbers : List ℕ) → Type 0 };

    /// Which questions it asks behind a first line of these numbers and some lines.
    ghost asks: { Self → (numbers : List ℕ) → Asks };

    /// The answer that it has come to, from what it was before, is what these findings tell.
    ghost told: { Self → Self → (numbers : List ℕ) → List Finding → Type 0 };

    /// It can ask over so many variables.
    ghost fits: { Self → ℕ → Type 0 };

    /// What first lines begin with.
    fn front(&self) -> &[u8]
        ensures value { result.now ≡ (file self.now).front }
        ensures one_line { IsOneLine (file self.now).front };

    /// Asks all that the answer needs.
    fn settle<D: Desk>(&mut self, inquirer: &mut Asker, desk: &mut D) -> Result<(), WorkError>
        requires writing { IsWriting (D.view desk.old).mode }
        requires limit { 1 ≤ inquirer.old.limit }
        requires fits { fits self.old inquirer.old.log.variables }
        ensures ok { OnOk result (SettleMore (file self.old) (keeps self.old) (asks self.old) (told self.old self.new) (D.view desk.old) (D.view desk.new) inquirer.old inquirer.new) }
        ensures err { IfErr result (SettleStops (file self.old) (keeps self.old) (asks self.old) (D.view desk.old) (D.view desk.new) inquirer.old) }
        ensures grows { Grows (D.view desk.old) (D.view desk.new) };
}
