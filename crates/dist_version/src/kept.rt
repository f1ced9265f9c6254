//! The text of a version as it is kept. A number may begin with many zeros, which say nothing, and to pass over them at each
//! comparison could cost more than the other version is long. So a text with many zeros in a row has beside it what it is
//! compared by. Copies of a long text share it, so that many versions of one text take its room once.
ghost use Rattle.std.specs.Prelude.{◌≡◌, ◌<◌, IfOk, IsTrue, length};
ghost use Rattle.std.specs.Char.{is_ascii_digit};
ghost use Rattle.std.specs.List.{list_all};
ghost use Rattle.std.specs.Str.Parse.{digits_value};
ghost use Rattle.dist_version.specs.Order.{weights_of};
ghost use Rattle.dist_version.specs.Kept.{Keeps, KeepsParts, text_of};

use crate::order::{next_turn, without_zeros};
use crate::reading::Places;
use smallvec::SmallVec;
use std::alloc::{AllocError, Global};
use std::rc::Rc;

/// So many zeros in a row are passed over at each comparison. No text of at most so many bytes has more.
const MOST_ZEROS: usize = 16;

/// A text of at most so many bytes is copied, where it has few zeros in a row.
const SHORT: usize = 64;

/// A text that its copies share, and its upstream version and revision with no number that begins with a zero, unless it is 0.
#[derive(Debug, Drop)]
pub(crate) struct Shared {
    pub(crate) text: SmallVec<u8, 16>,
    pub(crate) upstream: Vec<u8>,
    pub(crate) revision: Vec<u8>,
}

/// The text of a version.
#[derive(Debug, Drop)]
pub(crate) enum Text {
    /// Most texts are short, and take no memory of their own.
    Plain(SmallVec<u8, 16>),
    /// One that is long, or has many zeros in a row.
    Shared(Rc<Shared>),
}

/// Whether more zeros stand in a row than are passed over.
fn has_many_zeros(text: &[u8]) -> bool {
    text.windows(MOST_ZEROS + 1)
        .any(|window| window.iter().all(|byte| *byte == b'0'))
}

/// The digits of a number without the zeros that it begins with. Zero keeps one.
fn shortest_digits(digits: &[u8]) -> &[u8]
    requires { IsTrue (list_all is_ascii_digit digits.now) }
    ensures digits { IsTrue (list_all is_ascii_digit result.now) }
    ensures value { digits_value 10 result.now ≡ digits_value 10 digits.now }
    ensures some { 0 < length digits.now → 0 < length result.now }
{
    let shortest = without_zeros(digits);
    if shortest.is_empty() {
        &digits[..digits.len().min(1)]
    } else {
        shortest
    }
}

/// A part with each number written by its shortest digits.
fn with_shortest_numbers(alloc: Global, part: &[u8]) -> Result<Vec<u8>, AllocError>
    ensures { IfOk result (λ shortest. weights_of shortest.items ≡ weights_of part.now) }
{
    let mut shortest = Vec::new(alloc);
    let mut rest = part;
    while !rest.is_empty() {
        let turn = next_turn(rest);
        shortest.extend_from_slice(turn.text)?;
        shortest.extend_from_slice(shortest_digits(turn.digits))?;
        rest = turn.rest;
    }
    Ok(shortest)
}

impl Text {
    /// Keeps a text whose parts stand at these places.
    pub(crate) fn new(text: SmallVec<u8, 16>, places: Places) -> Result<Text, AllocError>
        requires { Keeps text.items places.epoch places.start places.end }
        ensures text { IfOk result (λ kept. text_of kept ≡ text.items) }
        ensures parts { IfOk result (λ kept. KeepsParts kept) }
    {
        let bytes = text.as_slice();
        if bytes.len() <= SHORT && !has_many_zeros(bytes) {
            return Ok(Text::Plain(text));
        }
        let alloc = *text.allocator();
        let upstream = with_shortest_numbers(alloc, places.upstream(bytes))?;
        let revision = with_shortest_numbers(alloc, places.revision(bytes).unwrap_or(&[]))?;
        let shared = Shared {
            text,
            upstream,
            revision,
        };
        Ok(Text::Shared(Rc::new(alloc, shared)?))
    }

    /// The text as it was read.
    pub(crate) fn as_slice(&self) -> &[u8]
        ensures { result.now ≡ text_of self.now }
    {
        match self {
            Text::Plain(text) => text.as_slice(),
            Text::Shared(shared) => shared.text.as_slice(),
        }
    }

    pub(crate) fn allocator(&self) -> Global {
        match self {
            Text::Plain(text) => *text.allocator(),
            Text::Shared(shared) => *shared.text.allocator(),
        }
    }

    /// The same text. One that is shared takes no memory.
    pub(crate) fn try_clone(&self) -> Result<Text, AllocError>
        requires { KeepsParts self.now }
        ensures text { IfOk result (λ copy. text_of copy ≡ text_of self.now) }
        ensures parts { IfOk result (λ copy. KeepsParts copy) }
    {
        match self {
            Text::Plain(text) => {
                let copy = SmallVec::from_slice(*text.allocator(), text.as_slice())?;
                Ok(Text::Plain(copy))
            }
            Text::Shared(shared) => Ok(Text::Shared(shared.clone()?)),
        }
    }
}
