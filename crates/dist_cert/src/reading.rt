//! Reads a certificate line by line, each through one buffer.
ghost use Rattle.std.specs.Prelude.{◌≡◌, ◌+◌, ◌-◌, ◌^◌, ◌<◌, ◌≤◌, [], false, length};
ghost use Rattle.dist_outside.specs.Files.{IsReading};
ghost use Rattle.dist_outside.specs.DeskView.{OnlyReads};
ghost use Rattle.dist_cert.specs.LineReadingPrivate.{AtFileEnd};
ghost use Rattle.dist_cert.specs.FirstLine.{bytes_of, FirstAnswers, FirstCause, FirstOfSome, GivesFirst};
ghost use Rattle.dist_cert.specs.Reading.{text_left, WhereTold, HeaderAnswers, HeaderCause, HeaderOfSome, GivesHeader, RecordAnswers, RecordCause, RecordOfSome, GivesRecord};

use crate::faults::{CertCause, CertFault, ReadCertError};
use crate::forms::Forms;
use crate::lines::{Lines, Reached};
use crate::records::{CertRecord, Header};
use dist_outside::{Desk, Limits};
use std::alloc::Global;
use std::marker::Model;

/// How much of a text was given.
#[derive(Drop)]
struct Progress {
    /// Bytes, and lines.
    given: u64,
    lines: u64,
    /// Whether the end was one of the lines.
    ended: bool,
}

impl Progress {
    /// Counts a line, without its line feed, that is given.
    fn pass(&mut self, line: &[u8])
        requires bytes { self.old.given + length line.now < 2 ^ 64 - 1 }
        requires lines { self.old.lines < 2 ^ 64 - 1 }
        ensures { self.new ≡ record self.old { given = self.old.given + (length line.now + 1); lines = self.old.lines + 1 } }
    {
        self.given += line.len() as u64 + 1;
        self.lines += 1;
    }

    /// A fault of the next line.
    fn bad(&self, cause: CertCause) -> ReadCertError
        requires { self.now.lines < 2 ^ 64 - 1 }
        ensures { result ≡ ReadCertError.Bad (record { line = self.now.lines + 1; cause = cause }) }
    {
        ReadCertError::Bad(CertFault {
            line: self.lines + 1,
            cause,
        })
    }

    /// What the end of the file is behind this front of a line.
    fn end(&self, line: &[u8]) -> Result<Option<CertRecord>, ReadCertError>
        requires { self.now.lines < 2 ^ 64 - 1 }
        ensures { AtFileEnd self.now.ended self.now.lines line.now result }
    {
        if self.ended && line.is_empty() {
            Ok(None)
        } else {
            Err(self.bad(CertCause::Truncated))
        }
    }
}

/// Reads a certificate within the limits, from the file that a desk is reading.
#[derive(Drop)]
pub struct Reader {
    limits: Limits,
    text: Lines,
    forms: Forms,
    done: Progress,
}

impl Model for Reader {
    ghost use Rattle.std.specs.Prelude.{◌+◌, ◌*◌, ◌≤◌, ◌++◌};
    ghost use Rattle.dist_cert.specs.Reading.{ReaderView};

    ghost Value = { ReaderView };

    ghost view = { λ r. record { limits = r.limits; held = r.text.line ++ r.text.behind; given = r.done.given; lines = r.done.lines; ended = r.done.ended } };

    // A line that is given has a byte and its line feed, but perhaps the first, so that lines can be counted.
    ghost invariant = { λ r. (r.done.given ≤ r.limits.certificate) × (2 * r.done.lines ≤ r.done.given + 1) };
}

impl Reader {
    /// A reader that has given nothing.
    pub fn new(alloc: Global, limits: &Limits) -> Reader
        ensures { result ≡ record { limits = limits.now; held = []; given = 0; lines = 0; ended = false } }
    {
        Reader {
            limits: *limits,
            text: Lines::new(alloc),
            forms: Forms::new(alloc),
            done: Progress {
                given: 0,
                lines: 0,
                ended: false,
            },
        }
    }

    /// How many lines were given.
    pub fn lines(&self) -> u64
        ensures value { result ≡ self.now.lines }
        ensures within { self.now.given ≤ self.now.limits.certificate }
    {
        self.done.lines
    }

    /// No more bytes were given than a certificate may have. Does nothing.
    pub fn keeps_invariant(&self)
        ensures { self.now.given ≤ self.now.limits.certificate }
    {
        self.lines();
    }

    /// The first line. It is asked for before any other.
    pub fn header<D: Desk>(&mut self, desk: &mut D) -> Result<Header, ReadCertError>
        requires { IsReading (D.view desk.old).mode }
        ensures text { WhereTold (text_left self.old (D.view desk.old)) (text_left self.new (D.view desk.new))
            (λ rest more. HeaderAnswers self.old rest more result) }
        ensures cause { HeaderCause self.old self.new (D.view desk.old) (D.view desk.new) result }
        ensures some { HeaderOfSome self.old result }
        ensures gives { GivesHeader self.old self.new result }
        ensures reading { IsReading (D.view desk.new).mode }
        ensures only_reads { OnlyReads (D.view desk.old) (D.view desk.new) }
    {
        let reached = self.text.read_line(desk, &self.limits, self.done.given)?;
        match reached {
            Reached::Within => Err(self.done.bad(CertCause::LineTooLong)),
            Reached::File => Err(self.done.bad(CertCause::Truncated)),
            Reached::Feed => match self.forms.header(self.text.line())? {
                None => Err(self.done.bad(CertCause::BadHeader)),
                Some(header) => {
                    self.done.pass(self.text.line());
                    self.text.pass_line();
                    Ok(header)
                }
            },
        }
    }

    /// The first line without its line feed, whatever its form. It is asked for in place of the header.
    pub fn first<D: Desk>(&mut self, desk: &mut D) -> Result<Vec<u8>, ReadCertError>
        requires reading { IsReading (D.view desk.old).mode }
        requires nothing { self.old.lines ≡ 0 }
        ensures text { WhereTold (text_left self.old (D.view desk.old)) (text_left self.new (D.view desk.new))
            (λ rest more. FirstAnswers self.old rest more (bytes_of (λ line. line.items) result)) }
        ensures cause { FirstCause self.old self.new (D.view desk.old) (D.view desk.new) (bytes_of (λ line. line.items) result) }
        ensures some { FirstOfSome self.old (bytes_of (λ line. line.items) result) }
        ensures gives { GivesFirst self.old self.new (bytes_of (λ line. line.items) result) }
        ensures reading { IsReading (D.view desk.new).mode }
        ensures only_reads { OnlyReads (D.view desk.old) (D.view desk.new) }
    {
        let reached = self.text.read_line(desk, &self.limits, self.done.given)?;
        match reached {
            Reached::Within => Err(self.done.bad(CertCause::LineTooLong)),
            Reached::File => Err(self.done.bad(CertCause::Truncated)),
            Reached::Feed => {
                let line = self.text.line_copy()?;
                self.done.pass(self.text.line());
                self.text.pass_line();
                Ok(line)
            }
        }
    }

    /// The next line, or none where the text ends behind the `e` line.
    pub fn next<D: Desk>(&mut self, desk: &mut D) -> Result<Option<CertRecord>, ReadCertError>
        requires { IsReading (D.view desk.old).mode }
        ensures text { WhereTold (text_left self.old (D.view desk.old)) (text_left self.new (D.view desk.new))
            (λ rest more. RecordAnswers self.old rest more result) }
        ensures cause { RecordCause self.old self.new (D.view desk.old) (D.view desk.new) result }
        ensures some { RecordOfSome self.old result }
        ensures gives { GivesRecord self.old self.new result }
        ensures reading { IsReading (D.view desk.new).mode }
        ensures only_reads { OnlyReads (D.view desk.old) (D.view desk.new) }
    {
        let reached = self.text.read_line(desk, &self.limits, self.done.given)?;
        match reached {
            Reached::Within => Err(self.done.bad(CertCause::LineTooLong)),
            Reached::File => self.done.end(self.text.line()),
            Reached::Feed => {
                if self.done.ended {
                    return Err(self.done.bad(CertCause::BadRecord));
                }
                match self.forms.record(self.text.line())? {
                    None => Err(self.done.bad(CertCause::BadRecord)),
                    Some(step) => {
                        self.done.pass(self.text.line());
                        self.done.ended = matches!(step, CertRecord::End);
                        self.text.pass_line();
                        Ok(Some(step))
                    }
                }
            }
        }
    }
}
