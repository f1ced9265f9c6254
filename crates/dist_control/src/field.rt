//! One field: its field line, its continuation lines, its name and its value.
ghost use Rattle.std.specs.Prelude.{◌≡◌, ℕ, ◌+◌, ◌<◌, ◌^◌, List, [], ◌∷◌, ◌++◌, true, length, get_or, take, take_while, IsTrue, MatchResult};
ghost use Rattle.std.specs.List.{list_any};
ghost use Rattle.dist_base.specs.Ascii.{is_colon, is_white, line_feed, space};
ghost use Rattle.dist_control.specs.Bytes.{is_field_name_byte, is_field_name};
ghost use Rattle.dist_control.specs.Fields.{name_of, trim};
ghost use Rattle.dist_control.specs.FieldText.{field_text};
ghost use Rattle.dist_control.specs.Lines.{lines};
ghost use Rattle.dist_control.specs.RawStanza.{run};
ghost use Rattle.dist_control.specs.Pieces.{EndsField, IsFieldInFront, IsAtField, IsFirstColon, ReadsField, IsNameFault, IsFieldFault};

use crate::error::ControlError;
use crate::field_list::Field;
use crate::line::{after_continuation, split_line};
use bstr::ByteSlice;
use memchr::memchr;

/// What is cut off at both ends of a value: space, tab and LF.
const WHITE: &[u8; 3] = b" \t\n";

/// Whether a byte is space, tab or LF.
fn is_white(byte: u8) -> bool
    ensures { result ≡ is_white byte }
{
    byte == b' ' || byte == b'\t' || byte == b'\n'
}

/// Whether a text is not empty and has no white space at its ends.
fn is_trimmed(text: &[u8]) -> bool
    ensures { IsTrue result → trim (space ∷ (text.now ++ line_feed ∷ [])) ≡ text.now }
{
    match (text.first(), text.last()) {
        (Some(first), Some(last)) => !is_white(*first) && !is_white(*last),
        _ => false,
    }
}

/// A text without white space at both ends. Most fields have one space in front and the end of a line behind: only the
/// others are looked through, since that makes a table of all bytes first.
pub fn trimmed(text: &[u8]) -> &[u8]
    ensures { result.now ≡ trim text.now }
{
    match text {
        [b' ', value @ .., b'\n'] if is_trimmed(value) => value,
        _ => without_white_ends(text),
    }
}

/// A text without white space at both ends.
fn without_white_ends(text: &[u8]) -> &[u8]
    ensures { result.now ≡ trim text.now }
{
    let Some(first) = text.find_not_byteset(WHITE) else {
        return &[];
    };
    let text = &text[first..];
    match text.rfind_not_byteset(WHITE) {
        Some(last) => &text[..last + 1],
        // The first byte is not white.
        None => text,
    }
}

/// Whether a byte may stand in a field name.
fn is_field_name_byte(byte: u8) -> bool
    ensures { result ≡ is_field_name_byte byte }
{
    // Letters are looked for first.
    matches!(byte, b';'..=b'~' | b'!'..=b'9')
}

/// How many bytes that may stand in a field name are at the front of a line.
fn name_length(line: &[u8]) -> usize
    ensures { result ≡ length (take_while is_field_name_byte line.now) }
{
    line.iter()
        .take_while(|byte| is_field_name_byte(**byte))
        .count()
}

/// Whether a field name may begin with the first byte of a line.
fn begins_name(line: &[u8]) -> bool
    ensures { result ≡ is_field_name (take 1 line.now) }
{
    match line {
        [first, ..] => *first != b'#' && *first != b'-' && is_field_name_byte(*first),
        [] => false,
    }
}

/// Whether a colon stands at a place of a line.
fn has_colon_at(line: &[u8], place: usize) -> bool
    ensures { result ≡ is_colon (get_or line.now place 0) }
{
    matches!(line.get(place), Some(b':'))
}

/// Whether a line has a colon.
fn has_colon(line: &[u8]) -> bool
    ensures { result ≡ list_any is_colon line.now }
{
    memchr(b':', line).is_some()
}

/// Where a line's field name ends: there its first colon stands. A colon is no byte of a name, so one look through the
/// name finds both; only a line at fault is looked through again.
fn name_end(line: &[u8], number: u64) -> Result<usize, ControlError>
    ensures { MatchResult result
        (λ place. IsFirstColon line.now place × (is_field_name (name_of line.now) ≡ true))
        (λ error. IsNameFault number line.now error) }
{
    let end = name_length(line);
    if has_colon_at(line, end) && begins_name(line) {
        Ok(end)
    } else if has_colon(line) {
        Err(ControlError::BadFieldName(number))
    } else {
        Err(ControlError::NoColon(number))
    }
}

/// The first line, what comes after it and its continuation lines, and the number of the line there.
fn split_field(bytes: &[u8], number: u64) -> (&[u8], &[u8], u64)
    requires some { 0 < length bytes.now }
    requires room { number + length bytes.now < 2 ^ 64 }
    ensures field { (more : List (List ℕ)) × IsFieldInFront bytes.now result.0.now more result.1.now
        × (result.2 ≡ number + 1 + length more) }
    ensures ends { EndsField (run (lines result.1.now)) }
    ensures room { result.2 + length result.1.now < 2 ^ 64 }
    ensures shorter { length result.1.now < length bytes.now }
{
    let (line, after) = split_line(bytes);
    let mut rest = after;
    let mut next = number + 1;
    while let Some(after) = after_continuation(rest) {
        rest = after;
        next += 1;
    }
    (line, rest, next)
}

/// The field at the front, what comes after it, and the number of the line there.
pub(crate) fn read_field(bytes: &[u8], number: u64) -> Result<(Field<'_>, &[u8], u64), ControlError>
    requires at_field { IsAtField (lines bytes.now) }
    requires room { number + length bytes.now < 2 ^ 64 }
    ensures { MatchResult result
        (λ read. ReadsField number bytes.now (field_text read.0) read.1.now read.2)
        (λ error. IsFieldFault number bytes.now error) }
{
    let (line, after, next) = split_field(bytes, number);
    let colon = match name_end(line, number) {
        Ok(colon) => colon,
        Err(error) => return Err(error),
    };
    let value = trimmed(&bytes[colon + 1..bytes.len() - after.len()]);
    let field = Field {
        name: &line[..colon],
        value,
        line: number,
    };
    Ok((field, after, next))
}
