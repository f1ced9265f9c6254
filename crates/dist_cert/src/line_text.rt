//! The text of records and headers, added to the end of a vector.
ghost use Rattle.std.specs.Prelude.{◌≡◌, [], ◌∷◌, ◌++◌, OnOk};
ghost use Rattle.dist_cert.specs.Form.{words_text, signed_text, plains, pair_words, separator, letter, words, record_text, kind_text, mode_text, header_text};
ghost use Rattle.dist_cert.specs.Writing.{ended};

use crate::records::{CertKind, CertRecord, Header};
use itoa::Buffer;
use std::alloc::AllocError;

/// Adds a space and a word.
fn add_word(text: &mut Vec<u8>, number: u32, positive: bool) -> Result<(), AllocError>
    ensures { OnOk result (text.new.items ≡ text.old.items ++ 32 ∷ signed_text number positive) }
{
    text.push(b' ')?;
    if !positive {
        text.push(b'-')?;
    }
    let mut digits = Buffer::new();
    text.extend_from_slice(digits.format(number).as_bytes())
}

/// Adds literals, each behind a space.
fn add_literals(text: &mut Vec<u8>, literals: &[(u32, bool)]) -> Result<(), AllocError>
    ensures { OnOk result (text.new.items ≡ text.old.items ++ words_text literals.now) }
{
    for literal in literals {
        add_word(text, literal.0, literal.1)?;
    }
    Ok(())
}

/// Adds numbers, each behind a space.
pub(crate) fn add_numbers(text: &mut Vec<u8>, numbers: &[u32]) -> Result<(), AllocError>
    ensures { OnOk result (text.new.items ≡ text.old.items ++ words_text (plains numbers.now)) }
{
    for number in numbers {
        add_word(text, *number, true)?;
    }
    Ok(())
}

/// Adds pairs of numbers, each number behind a space.
fn add_pairs(text: &mut Vec<u8>, pairs: &[(u32, u32)]) -> Result<(), AllocError>
    ensures { OnOk result (text.new.items ≡ text.old.items ++ words_text (pair_words pairs.now)) }
{
    for pair in pairs {
        add_word(text, pair.0, true)?;
        add_word(text, pair.1, true)?;
    }
    Ok(())
}

/// Adds the word that separates lists.
fn add_separator(text: &mut Vec<u8>) -> Result<(), AllocError>
    ensures { OnOk result (text.new.items ≡ text.old.items ++ words_text (separator ∷ [])) }
{
    add_word(text, 0, true)
}

/// The letter that the line of a record begins with.
pub(crate) fn letter_of(step: &CertRecord) -> u8
    ensures { result ≡ letter step.now }
{
    match step {
        CertRecord::Question(_) => b'q',
        CertRecord::Derived(_, _) => b'd',
        CertRecord::Refuted(_) => b'f',
        CertRecord::Installation(_) => b'm',
        CertRecord::Undecided => b'u',
        CertRecord::NotInstallable(_) => b'x',
        CertRecord::Unknown(_) => b'y',
        CertRecord::Strong(_, _, _, _) => b's',
        CertRecord::Outdated(_) => b'o',
        CertRecord::Alive(_, _) => b'a',
        CertRecord::Challenged(_, _, _, _) => b'c',
        CertRecord::End => b'e',
    }
}

/// Adds the words behind the letter, each behind a space.
fn add_words(text: &mut Vec<u8>, step: &CertRecord) -> Result<(), AllocError>
    ensures { OnOk result (text.new.items ≡ text.old.items ++ words_text (words step.now)) }
{
    match step {
        CertRecord::Question(literals) => add_literals(text, literals.as_slice()),
        CertRecord::Derived(literals, hints) => {
            add_literals(text, literals.as_slice())?;
            add_separator(text)?;
            add_numbers(text, hints.as_slice())
        }
        CertRecord::Refuted(hints) => add_numbers(text, hints.as_slice()),
        CertRecord::Installation(variables) => add_numbers(text, variables.as_slice()),
        CertRecord::NotInstallable(package) => add_numbers(text, &[*package]),
        CertRecord::Unknown(package) => add_numbers(text, &[*package]),
        CertRecord::Strong(package, installations, on, undecided) => {
            add_numbers(text, &[*package])?;
            add_numbers(text, installations.as_slice())?;
            add_separator(text)?;
            add_numbers(text, on.as_slice())?;
            add_separator(text)?;
            add_numbers(text, undecided.as_slice())
        }
        CertRecord::Outdated(package) => add_numbers(text, &[*package]),
        CertRecord::Alive(package, installation) => add_numbers(text, &[*package, *installation]),
        CertRecord::Challenged(package, installations, by, undecided) => {
            add_numbers(text, &[*package])?;
            add_numbers(text, installations.as_slice())?;
            add_separator(text)?;
            add_pairs(text, by.as_slice())?;
            add_separator(text)?;
            add_pairs(text, undecided.as_slice())
        }
        CertRecord::Undecided | CertRecord::End => Ok(()),
    }
}

/// Adds the text of a record, without a line feed.
fn add_record_text(text: &mut Vec<u8>, step: &CertRecord) -> Result<(), AllocError>
    ensures { OnOk result (text.new.items ≡ text.old.items ++ record_text step.now) }
{
    text.push(letter_of(step))?;
    add_words(text, step)
}

/// Adds the line of a record, with its line feed.
pub(crate) fn add_record(text: &mut Vec<u8>, step: &CertRecord) -> Result<(), AllocError>
    ensures { OnOk result (text.new.items ≡ text.old.items ++ ended (record_text step.now)) }
{
    add_record_text(text, step)?;
    end_line(text)
}

/// The word of a kind.
pub(crate) fn kind_word(kind: CertKind) -> &'static [u8]
    ensures { result.now ≡ kind_text kind }
{
    match kind {
        CertKind::Strong => b"strong",
        CertKind::Outdated => b"outdated",
        CertKind::Challenged => b"challenged",
    }
}

/// The word of a mode.
pub(crate) fn mode_word(essential: bool) -> &'static [u8]
    ensures { result.now ≡ mode_text essential }
{
    if essential { b"essential" } else { b"plain" }
}

/// Adds the text of the first line, without a line feed.
pub(crate) fn add_header_text(text: &mut Vec<u8>, header: &Header) -> Result<(), AllocError>
    ensures { OnOk result (text.new.items ≡ text.old.items ++ header_text header.now) }
{
    text.extend_from_slice(b"distfuture-certificate 1 ")?;
    text.extend_from_slice(kind_word(header.kind))?;
    text.push(b' ')?;
    text.extend_from_slice(mode_word(header.essential))?;
    add_numbers(
        text,
        &[
            header.limit,
            header.packages,
            header.variables,
            header.clauses,
        ],
    )
}

/// Adds the first line, with its line feed.
pub(crate) fn add_header(text: &mut Vec<u8>, header: &Header) -> Result<(), AllocError>
    ensures { OnOk result (text.new.items ≡ text.old.items ++ ended (header_text header.now)) }
{
    add_header_text(text, header)?;
    end_line(text)
}

/// Adds a line, with its line feed.
pub(crate) fn add_line(text: &mut Vec<u8>, line: &[u8]) -> Result<(), AllocError>
    ensures { OnOk result (text.new.items ≡ text.old.items ++ ended line.now) }
{
    text.extend_from_slice(line)?;
    end_line(text)
}

/// Adds the line feed.
fn end_line(text: &mut Vec<u8>) -> Result<(), AllocError>
    ensures { OnOk result (text.new.items ≡ text.old.items ++ 10 ∷ []) }
{
    text.push(b'\n')?;
    Ok(())
}
