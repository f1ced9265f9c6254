//! The reader of the stanzas of a text.
ghost use Rattle.std.specs.Prelude.{◌≡◌, ◌+◌, ◌<◌, ◌^◌, ◌↔◌, [], Ok, None, true, false, length, IsTrue, IsErrOf};
ghost use Rattle.dist_base.specs.Answers.{Answers};
ghost use Rattle.dist_control.specs.Faults.{HasFault};
ghost use Rattle.dist_control.specs.Lines.{lines};
ghost use Rattle.dist_control.specs.Pieces.{IsAtStanza, ReadsFields, raw_here};

use crate::error::ControlError;
use crate::field::read_field;
use crate::field_list::{Fields, Stanza, add_field};
use crate::line::{is_at_field, skip_blank_lines};
use crate::names::NameSet;
use std::alloc::Global;
use std::marker::Model;

/// A reader of the stanzas of a text.
#[derive(Drop)]
pub struct Stanzas<'a> {
    rest: &'a [u8],
    line: u64,
    refused: bool,
}

impl<'a> Model for Stanzas<'a> {
    ghost use Rattle.std.specs.Prelude.{◌+◌, ◌<◌, ◌^◌, length, true};
    ghost use Rattle.dist_control.specs.Lines.{lines};
    ghost use Rattle.dist_control.specs.RawStanza.{raw_stanzas_from};
    ghost use Rattle.dist_control.specs.Unread.{Unread};

    ghost Value = { Unread };

    ghost view = { λ reader. record {
      left = raw_stanzas_from reader.line true (lines reader.rest.now);
      refused = reader.refused;
    } };

    ghost use Rattle.dist_control.specs.Pieces.{IsReaderPlace};

    ghost invariant = { λ reader. IsReaderPlace reader.line reader.rest.now };
}

impl<'a> Stanzas<'a> {
    ghost use Rattle.dist_control.specs.RawStanza.{raw_stanzas};
    ghost use Rattle.dist_control.specs.Reader.{HasNext, Gives, Refuses};

    /// A reader at the start of a text.
    pub fn new(bytes: &'a [u8]) -> Stanzas<'a>
        ensures { result ≡ record { left = raw_stanzas bytes.now; refused = false } }
    {
        let (rest, line) = skip_blank_lines(bytes, 1);
        Stanzas {
            rest,
            line,
            refused: false,
        }
    }

    /// Whether a stanza is left and no earlier call refused for another cause than memory.
    pub fn has_next(&self) -> bool
        ensures { IsTrue result ↔ HasNext self.now }
    {
        !self.refused && !self.rest.is_empty()
    }

    /// The next stanza.
    pub fn next(&mut self, alloc: Global) -> Result<Option<Stanza<'a>>, ControlError>
        ensures answers { Answers (Gives self.old self.new) (Refuses self.old self.new) ControlError.NoMemory result }
        ensures none { (result ≡ Ok None) ↔ (¬ HasNext self.old) }
        ensures no_memory { IsErrOf result ControlError.NoMemory → self.new ≡ self.old }
    {
        if !self.has_next() {
            return Ok(None);
        }
        let mut stanza = Stanza {
            line: self.line,
            fields: Fields::new(alloc),
        };
        match read_fields(alloc, &mut stanza.fields, self.rest, self.line) {
            Ok((rest, line)) => {
                let (rest, line) = skip_blank_lines(rest, line);
                self.rest = rest;
                self.line = line;
                Ok(Some(stanza))
            }
            Err(ControlError::NoMemory) => Err(ControlError::NoMemory),
            Err(error) => {
                self.refused = true;
                Err(error)
            }
        }
    }
}

/// Reads the fields of the stanza at the front. Answers what comes after its last line, and the number of the line there.
/// The fields are filled where they stand, since they are a kilobyte to move.
fn read_fields<'a>(
    alloc: Global,
    fields: &mut Fields<'a>,
    bytes: &'a [u8],
    number: u64,
) -> Result<(&'a [u8], u64), ControlError>
    requires no_fields { fields.old ≡ [] }
    requires room { number + length bytes.now < 2 ^ 64 }
    requires some { 0 < length bytes.now }
    requires at_stanza { IsAtStanza (lines bytes.now) }
    ensures answers { Answers (λ read. ReadsFields number bytes.now fields.new read.0.now read.1)
        (HasFault (raw_here number bytes.now)) ControlError.NoMemory result }
{
    if !is_at_field(bytes) {
        return Err(ControlError::OrphanContinuation(number));
    }
    let mut late = NameSet::new(alloc);
    let mut rest = bytes;
    let mut line = number;
    while is_at_field(rest) {
        let (field, after, next) = read_field(rest, line)?;
        let Ok(added) = add_field(alloc, fields, &mut late, field) else {
            return Err(ControlError::NoMemory);
        };
        if !added {
            return Err(ControlError::DoubleField(line));
        }
        rest = after;
        line = next;
    }
    Ok((rest, line))
}
