//! Whether a line is the text of a record. The words are taken off the front of the line one after another, and nothing is
//! written.
ghost use Rattle.std.specs.Prelude.{◌≡◌, ◌↔◌, ◌∷◌, [], IsTrue, decimal};
ghost use Rattle.dist_cert.specs.Form.{pair_words, plains, record_text, signed_text, words, words_text};
ghost use Rattle.dist_cert.specs.SpellingPrivate.{Leaves, part_words, parts_words, sign_text};

use crate::line_text::letter_of;
use crate::records::CertRecord;
use itoa::Buffer;

/// Some words of a line.
#[derive(Clone, Copy)]
enum Part<'a> {
    Number(u32),
    Numbers(&'a [u32]),
    Literals(&'a [(u32, bool)]),
    Pairs(&'a [(u32, u32)]),
}

/// The word that separates lists.
const SEPARATOR: u32 = 0;

/// What is left of a text behind a front.
fn behind<'a>(text: &'a [u8], front: &[u8]) -> Option<&'a [u8]>
    ensures { Leaves text.now front.now result }
{
    text.strip_prefix(front)
}

/// The space before a word, and its sign.
fn sign_of(positive: bool) -> &'static [u8]
    ensures { result.now ≡ sign_text positive }
{
    if positive { b" " } else { b" -" }
}

/// What is left behind the digits of a number.
fn behind_digits<'a>(text: &'a [u8], number: u32) -> Option<&'a [u8]>
    ensures { Leaves text.now (decimal number) result }
{
    let mut digits = Buffer::new();
    behind(text, digits.format(number).as_bytes())
}

/// What is left behind a space and a word.
fn behind_word<'a>(text: &'a [u8], number: u32, positive: bool) -> Option<&'a [u8]>
    ensures { Leaves text.now (32 ∷ signed_text number positive) result }
{
    match behind(text, sign_of(positive)) {
        Some(rest) => behind_digits(rest, number),
        None => None,
    }
}

/// What is left behind literals.
fn behind_literals<'a>(text: &'a [u8], literals: &[(u32, bool)]) -> Option<&'a [u8]>
    ensures { Leaves text.now (words_text literals.now) result }
{
    let mut rest = text;
    let mut left = literals;
    while let [literal, others @ ..] = left {
        match behind_word(rest, literal.0, literal.1) {
            Some(behind) => rest = behind,
            None => return None,
        }
        left = others;
    }
    Some(rest)
}

/// What is left behind numbers.
fn behind_numbers<'a>(text: &'a [u8], numbers: &[u32]) -> Option<&'a [u8]>
    ensures { Leaves text.now (words_text (plains numbers.now)) result }
{
    let mut rest = text;
    let mut left = numbers;
    while let [number, others @ ..] = left {
        match behind_word(rest, *number, true) {
            Some(behind) => rest = behind,
            None => return None,
        }
        left = others;
    }
    Some(rest)
}

/// What is left behind the two numbers of a pair.
fn behind_pair<'a>(text: &'a [u8], pair: (u32, u32)) -> Option<&'a [u8]>
    ensures { Leaves text.now (words_text (pair_words (pair ∷ []))) result }
{
    match behind_word(text, pair.0, true) {
        Some(rest) => behind_word(rest, pair.1, true),
        None => None,
    }
}

/// What is left behind pairs of numbers.
fn behind_pairs<'a>(text: &'a [u8], pairs: &[(u32, u32)]) -> Option<&'a [u8]>
    ensures { Leaves text.now (words_text (pair_words pairs.now)) result }
{
    let mut rest = text;
    let mut left = pairs;
    while let [pair, others @ ..] = left {
        match behind_pair(rest, *pair) {
            Some(behind) => rest = behind,
            None => return None,
        }
        left = others;
    }
    Some(rest)
}

/// What is left behind the words of a part.
fn behind_part<'a>(text: &'a [u8], part: &Part) -> Option<&'a [u8]>
    ensures { Leaves text.now (words_text (part_words part.now)) result }
{
    match part {
        Part::Number(number) => behind_numbers(text, &[*number]),
        Part::Numbers(numbers) => behind_numbers(text, numbers),
        Part::Literals(literals) => behind_literals(text, literals),
        Part::Pairs(pairs) => behind_pairs(text, pairs),
    }
}

/// What is left behind the words of parts.
fn behind_parts<'a>(text: &'a [u8], parts: &[Part]) -> Option<&'a [u8]>
    ensures { Leaves text.now (words_text (parts_words parts.now)) result }
{
    let mut rest = text;
    let mut left = parts;
    while let [part, others @ ..] = left {
        match behind_part(rest, part) {
            Some(behind) => rest = behind,
            None => return None,
        }
        left = others;
    }
    Some(rest)
}

/// What is left behind the words of a record.
fn behind_words<'a>(text: &'a [u8], step: &CertRecord) -> Option<&'a [u8]>
    ensures { Leaves text.now (words_text (words step.now)) result }
{
    match step {
        CertRecord::Question(literals) => behind_literals(text, literals.as_slice()),
        CertRecord::Derived(literals, hints) => behind_parts(
            text,
            &[
                Part::Literals(literals.as_slice()),
                Part::Number(SEPARATOR),
                Part::Numbers(hints.as_slice()),
            ],
        ),
        CertRecord::Refuted(hints) => behind_numbers(text, hints.as_slice()),
        CertRecord::Installation(variables) => behind_numbers(text, variables.as_slice()),
        CertRecord::NotInstallable(package) => behind_numbers(text, &[*package]),
        CertRecord::Unknown(package) => behind_numbers(text, &[*package]),
        CertRecord::Strong(package, installations, on, undecided) => behind_parts(
            text,
            &[
                Part::Number(*package),
                Part::Numbers(installations.as_slice()),
                Part::Number(SEPARATOR),
                Part::Numbers(on.as_slice()),
                Part::Number(SEPARATOR),
                Part::Numbers(undecided.as_slice()),
            ],
        ),
        CertRecord::Outdated(package) => behind_numbers(text, &[*package]),
        CertRecord::Alive(package, installation) => behind_pair(text, (*package, *installation)),
        CertRecord::Challenged(package, installations, by, undecided) => behind_parts(
            text,
            &[
                Part::Number(*package),
                Part::Numbers(installations.as_slice()),
                Part::Number(SEPARATOR),
                Part::Pairs(by.as_slice()),
                Part::Number(SEPARATOR),
                Part::Pairs(undecided.as_slice()),
            ],
        ),
        CertRecord::Undecided | CertRecord::End => Some(text),
    }
}

/// Whether a line is the text of a record.
pub(crate) fn is_text_of(line: &[u8], step: &CertRecord) -> bool
    ensures { IsTrue result ↔ (record_text step.now ≡ line.now) }
{
    match line {
        [] => false,
        [first, text @ ..] => {
            if *first != letter_of(step) {
                return false;
            }
            match behind_words(text, step) {
                Some(rest) => rest.is_empty(),
                None => false,
            }
        }
    }
}
