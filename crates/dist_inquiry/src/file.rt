//! The file of one question, from its first line to its end.
ghost use Rattle.std.specs.Prelude.{◌≡◌, ◌≤◌, ℕ, List, IfErr, IfOk, OnOk};
ghost use Rattle.dist_outside.specs.Files.{IsNotWriting, IsWriting};
ghost use Rattle.dist_cert.specs.FileLines.{IsOneLine};
ghost use Rattle.dist_cert.specs.FirstLines.{first_line};
ghost use Rattle.dist_line_write.specs.Script.{Grows};
ghost use Rattle.dist_inquiry.specs.Inquiring.{InquiryAnswers, InquiryMore, InquiryStops};

use crate::inquiring::Inquiring;
use dist_cert::{CertRecord, first_line_text, forms_are_clear};
use dist_line_write::{Asker, close_file, create_file};
use dist_outside::{Desk, WorkError, file_grows, file_holds};
use std::alloc::{AllocError, Global};

/// Puts all lines, from the first to the end.
fn put_all<S: Inquiring, D: Desk>(
    search: &mut S,
    inquirer: &mut Asker,
    line: &[u8],
    desk: &mut D,
) -> Result<(), WorkError>
    requires writing { IsWriting (D.view desk.old).mode }
    requires limit { 1 ≤ inquirer.old.limit }
    requires fits { S.fits search.old inquirer.old.log.variables }
    requires nothing { inquirer.old.writer.written ≡ 0 }
    requires one_line { IsOneLine line.now }
    requires front { IsOneLine (S.file search.old).front }
    ensures ok { OnOk result ((numbers : List ℕ) → line.now ≡ first_line (S.file search.old).front numbers
        → InquiryMore (S.file search.old) (S.keeps search.old) (S.asks search.old) (S.told search.old search.new) numbers (D.view desk.old) (D.view desk.new) inquirer.old) }
    ensures err { IfErr result (λ error. (numbers : List ℕ) → line.now ≡ first_line (S.file search.old).front numbers
        → InquiryStops (S.file search.old) (S.keeps search.old) (S.asks search.old) numbers (D.view desk.old) (D.view desk.new) inquirer.old error) }
    ensures grows { Grows (D.view desk.old) (D.view desk.new) }
{
    forms_are_clear();
    file_grows();
    inquirer.put_first(desk, line)?;
    search.settle(inquirer, desk)?;
    inquirer.put(desk, &CertRecord::End)
}

/// The text of the first line.
fn first_text<S: Inquiring>(
    alloc: Global,
    search: &S,
    numbers: &[u32],
) -> Result<Vec<u8>, AllocError>
    ensures value { IfOk result (λ line. line.items ≡ first_line (S.file search.now).front numbers.now) }
    ensures one_line { IfOk result (λ line. IsOneLine line.items) }
    ensures front { IsOneLine (S.file search.now).front }
{
    forms_are_clear();
    first_line_text(alloc, search.front(), numbers)
}

/// Writes the file of a search, with a first line of these numbers. It is closed whatever comes.
pub fn write_inquiry<S: Inquiring, D: Desk>(
    alloc: Global,
    search: &mut S,
    inquirer: &mut Asker,
    numbers: &[u32],
    desk: &mut D,
    name: &str,
) -> Result<(), WorkError>
    requires idle { IsNotWriting (D.view desk.old).mode }
    requires limit { 1 ≤ inquirer.old.limit }
    requires fits { S.fits search.old inquirer.old.log.variables }
    requires nothing { inquirer.old.writer.written ≡ 0 }
    ensures { InquiryAnswers (S.file search.old) (S.keeps search.old) (S.asks search.old) (S.told search.old search.new) numbers.now inquirer.old name.now (D.view desk.old) (D.view desk.new) result }
{
    file_holds();
    let line = first_text(alloc, search, numbers)?;
    create_file(desk, name)?;
    let done = put_all(search, inquirer, &line, desk);
    let closed = close_file(desk);
    drop(line);
    done?;
    closed
}
