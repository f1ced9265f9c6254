//! Reads lines by their form. A line is first read loosely, as the one value that it can be of; then the line is held against
//! that value's text, so that no rule of spelling is tested twice.
ghost use Rattle.std.specs.Prelude.{◌≡◌, ◌↔◌, IsTrue, IfOk};
ghost use Rattle.dist_cert.specs.Form.{record_text, KeepsRules, header_text, KeepsLimit};
ghost use Rattle.dist_cert.specs.LooseHeaderPrivate.{kind_in, mode_in, header_with, loose_header, IsReadAs, IsReadAsHeader};

use crate::decoding::decode;
use crate::line_text::{add_header_text, kind_word, mode_word};
use crate::loose_words::Words;
use crate::records::{CertKind, CertRecord, Header};
use crate::rules::keeps_rules;
use crate::spelling::is_text_of;
use dist_base::MAX_LIMIT;
use std::alloc::{AllocError, Global};

/// How many bytes stand before the kind of a first line.
const BEFORE_KIND: usize = 25;

/// Reads lines by their form, with room that is used again for each.
#[derive(Drop)]
pub(crate) struct Forms {
    alloc: Global,
    text: Vec<u8>,
    variables: Vec<u32>,
}

impl Forms {
    /// Room for nothing yet.
    pub(crate) fn new(alloc: Global) -> Forms {
        Forms {
            alloc,
            text: Vec::new(alloc),
            variables: Vec::new(alloc),
        }
    }

    /// The record of a line, if it has a form.
    pub(crate) fn record(&mut self, line: &[u8]) -> Result<Option<CertRecord>, AllocError>
        ensures { IfOk result (IsReadAs line.now) }
    {
        match line {
            [] => Ok(None),
            [letter, text @ ..] => {
                let step = decode(self.alloc, *letter, &mut Words::new(text))?;
                if self.is_record(&step, line)? {
                    Ok(Some(step))
                } else {
                    Ok(None)
                }
            }
        }
    }

    /// Whether a record keeps the rules and the line is its text.
    fn is_record(&mut self, step: &CertRecord, line: &[u8]) -> Result<bool, AllocError>
        ensures { IfOk result (λ is. IsTrue is ↔ (KeepsRules step.now × (record_text step.now ≡ line.now))) }
    {
        let kept = keeps_rules(step, &mut self.variables)?;
        Ok(kept && is_text_of(line, step))
    }

    /// The header of a line, if it has the form of a first line.
    pub(crate) fn header(&mut self, line: &[u8]) -> Result<Option<Header>, AllocError>
        ensures { IfOk result (IsReadAsHeader line.now) }
    {
        match loosely(line) {
            None => Ok(None),
            Some(header) => {
                if self.is_header(&header, line)? {
                    Ok(Some(header))
                } else {
                    Ok(None)
                }
            }
        }
    }

    /// Whether a header keeps the rule of its limit and the line is its text.
    fn is_header(&mut self, header: &Header, line: &[u8]) -> Result<bool, AllocError>
        ensures { IfOk result (λ is. IsTrue is ↔ (KeepsLimit header.now × (header_text header.now ≡ line.now))) }
    {
        self.text.clear();
        add_header_text(&mut self.text, header)?;
        let within = header.limit >= 1 && header.limit <= MAX_LIMIT;
        Ok(within && self.text.as_slice() == line)
    }
}

/// The header that a line is of, if it is of any.
fn loosely(line: &[u8]) -> Option<Header>
    ensures { result ≡ loose_header line.now }
{
    let kind = kind_of(line);
    let essential = mode_of(line, kind);
    let before = BEFORE_KIND + 1 + kind_word(kind).len() + mode_word(essential).len();
    if line.len() < before {
        return None;
    }
    numbered(kind, essential, &mut Words::new(&line[before..]))
}

/// The kind of a first line, by the first letter of its word.
fn kind_of(line: &[u8]) -> CertKind
    ensures { result ≡ kind_in line.now }
{
    if line.len() <= BEFORE_KIND {
        return CertKind::Challenged;
    }
    match line[BEFORE_KIND] {
        b's' => CertKind::Strong,
        b'o' => CertKind::Outdated,
        _ => CertKind::Challenged,
    }
}

/// Whether a first line of a kind is of mode essential, by the first letter of its word.
fn mode_of(line: &[u8], kind: CertKind) -> bool
    ensures { result ≡ mode_in line.now kind }
{
    let before = BEFORE_KIND + 1 + kind_word(kind).len();
    line.len() > before && line[before] == b'e'
}

/// The header of four numbers.
fn numbered(kind: CertKind, essential: bool, words: &mut Words) -> Option<Header>
    ensures { result ≡ header_with kind essential words.old }
{
    let limit = words.next()?;
    let packages = words.next()?;
    let variables = words.next()?;
    let clauses = words.next()?;
    match words.next() {
        Some(_) => None,
        None => Some(Header {
            kind,
            limit: limit.0,
            packages: packages.0,
            variables: variables.0,
            clauses: clauses.0,
            essential,
        }),
    }
}
