//! Writes a certificate line by line, each through one buffer.
ghost use Rattle.std.specs.Prelude.{◌≡◌, ◌+◌, ◌≤◌, length, IfOk, OnOk, OnErr};
ghost use Rattle.dist_outside.specs.Files.{IsWriting};
ghost use Rattle.dist_outside.specs.DeskView.{FileGrew, FileGrewByFront};
ghost use Rattle.dist_cert.specs.Form.{record_text, header_text, KeepsRules, KeepsLimit};
ghost use Rattle.dist_cert.specs.FileLines.{IsOneLine};
ghost use Rattle.dist_cert.specs.Writing.{WriterView, PutAnswers, WritesNothing, ended, after_line};

use crate::line_text::{add_header, add_line, add_record};
use crate::records::{CertRecord, Header};
use dist_outside::{Desk, Limits, What, WorkError, desk_write_whole, file_grows};
use std::alloc::Global;
use std::marker::Model;

/// Writes a certificate within the limits.
#[derive(Debug, Drop)]
pub struct Writer {
    /// The line that is written, kept for its memory alone.
    line: Vec<u8>,
    line_limit: u64,
    whole_limit: u64,
    written: u64,
}

impl Model for Writer {
    ghost use Rattle.std.specs.Prelude.{◌≤◌};
    ghost use Rattle.dist_cert.specs.Writing.{WriterView};

    ghost Value = { WriterView };

    ghost view = { λ w. record { line_limit = w.line_limit; whole_limit = w.whole_limit; written = w.written } };

    ghost invariant = { λ w. w.written ≤ w.whole_limit };
}

impl Writer {
    /// A writer that has written nothing.
    pub fn new(alloc: Global, limits: &Limits) -> Writer
        ensures { result ≡ record { line_limit = limits.now.record_line; whole_limit = limits.now.certificate; written = 0 } }
    {
        Writer {
            line: Vec::new(alloc),
            line_limit: limits.record_line,
            whole_limit: limits.certificate,
            written: 0,
        }
    }

    /// Writes the first line to the end of the file that is being written.
    pub fn put_header<D: Desk>(&mut self, desk: &mut D, header: &Header) -> Result<(), WorkError>
        requires writing { IsWriting (D.view desk.old).mode }
        requires form { KeepsLimit header.now }
        ensures appended { OnOk result (FileGrew (ended (header_text header.now)) (D.view desk.old) (D.view desk.new)) }
        ensures counted { OnOk result (self.new ≡ after_line self.old (ended (header_text header.now))) }
        ensures answers { PutAnswers self.old (ended (header_text header.now)) (D.view desk.old) (D.view desk.new) result }
        ensures nothing { WritesNothing (D.view desk.old) (D.view desk.new) result }
        ensures front { OnErr result (FileGrewByFront (ended (header_text header.now)) (D.view desk.old) (D.view desk.new)) }
        ensures stays { OnErr result (self.new ≡ self.old) }
    {
        file_grows();
        self.line.clear();
        add_header(&mut self.line, header)?;
        self.written = write_line(
            desk,
            &self.line,
            self.line_limit,
            self.whole_limit,
            self.written,
        )?;
        Ok(())
    }

    /// Writes a first line of another form in place of a header, without its line feed, to the end of the file that is being
    /// written.
    pub fn put_first<D: Desk>(&mut self, desk: &mut D, line: &[u8]) -> Result<(), WorkError>
        requires writing { IsWriting (D.view desk.old).mode }
        requires nothing { self.old.written ≡ 0 }
        requires one_line { IsOneLine line.now }
        ensures appended { OnOk result (FileGrew (ended line.now) (D.view desk.old) (D.view desk.new)) }
        ensures counted { OnOk result (self.new ≡ after_line self.old (ended line.now)) }
        ensures answers { PutAnswers self.old (ended line.now) (D.view desk.old) (D.view desk.new) result }
        ensures nothing { WritesNothing (D.view desk.old) (D.view desk.new) result }
        ensures front { OnErr result (FileGrewByFront (ended line.now) (D.view desk.old) (D.view desk.new)) }
        ensures stays { OnErr result (self.new ≡ self.old) }
    {
        file_grows();
        self.line.clear();
        add_line(&mut self.line, line)?;
        self.written = write_line(
            desk,
            &self.line,
            self.line_limit,
            self.whole_limit,
            self.written,
        )?;
        Ok(())
    }

    /// Writes the line of a record to the end of the file that is being written.
    pub fn put<D: Desk>(&mut self, desk: &mut D, step: &CertRecord) -> Result<(), WorkError>
        requires writing { IsWriting (D.view desk.old).mode }
        requires form { KeepsRules step.now }
        ensures appended { OnOk result (FileGrew (ended (record_text step.now)) (D.view desk.old) (D.view desk.new)) }
        ensures counted { OnOk result (self.new ≡ after_line self.old (ended (record_text step.now))) }
        ensures answers { PutAnswers self.old (ended (record_text step.now)) (D.view desk.old) (D.view desk.new) result }
        ensures nothing { WritesNothing (D.view desk.old) (D.view desk.new) result }
        ensures front { OnErr result (FileGrewByFront (ended (record_text step.now)) (D.view desk.old) (D.view desk.new)) }
        ensures stays { OnErr result (self.new ≡ self.old) }
    {
        file_grows();
        self.line.clear();
        add_record(&mut self.line, step)?;
        self.written = write_line(
            desk,
            &self.line,
            self.line_limit,
            self.whole_limit,
            self.written,
        )?;
        Ok(())
    }
}

/// Writes a line with its line feed, where there is room for it, and says how many bytes are written then.
fn write_line<D: Desk>(
    desk: &mut D,
    line: &[u8],
    line_limit: u64,
    whole_limit: u64,
    written: u64,
) -> Result<u64, WorkError>
    requires writing { IsWriting (D.view desk.old).mode }
    requires within { written ≤ whole_limit }
    ensures appended { OnOk result (FileGrew line.now (D.view desk.old) (D.view desk.new)) }
    ensures counted { IfOk result (λ after. after ≡ written + length line.now) }
    ensures answers { PutAnswers (record { line_limit = line_limit; whole_limit = whole_limit; written = written })
        line.now (D.view desk.old) (D.view desk.new) result }
    ensures nothing { WritesNothing (D.view desk.old) (D.view desk.new) result }
    ensures front { OnErr result (FileGrewByFront line.now (D.view desk.old) (D.view desk.new)) }
{
    file_grows();
    let length = line.len() as u64;
    if length > line_limit {
        return Err(WorkError::TooLarge(What::RecordLine));
    }
    if length > whole_limit - written {
        return Err(WorkError::TooLarge(What::Certificate));
    }
    desk_write_whole(desk, line)?;
    Ok(written + length)
}
