//! The first line.
ghost use Rattle.std.specs.Prelude.{◌≡◌, ◌↔◌, All, IfOk, IsTrue, MatchOption};
ghost use Rattle.dist_cert.specs.Form.{IsSmall};
ghost use Rattle.dist_findings.specs.AnswerFiles.{AreCounted, HasHeading, HasNoHeading, limit_of, number_at};

use crate::answering::Answering;
use dist_base::MAX_LIMIT;
use dist_cert::{first_line_numbers, forms_are_clear};
use std::alloc::{AllocError, Global};

/// The number of a first line at a place, from 0, or 0 past the last one.
pub fn number_at(numbers: &[u32], place: usize) -> u32
    ensures { result ≡ number_at place numbers.now }
{
    match numbers.get(place) {
        Some(number) => *number,
        None => 0,
    }
}

/// The limit of a first line.
pub(crate) fn limit_of(numbers: &[u32]) -> u32
    ensures { result ≡ limit_of numbers.now }
{
    number_at(numbers, 0)
}

/// Whether there are so many numbers, and the first is a limit that may be given.
fn are_counted(numbers: &[u32], count: usize) -> bool
    ensures counted { IsTrue result ↔ AreCounted count numbers.now }
    ensures small { All IsSmall numbers.now }
{
    let limit = limit_of(numbers);
    numbers.len() == count && 1 <= limit && limit <= MAX_LIMIT
}

/// The numbers of a first line, if it is one.
pub(crate) fn heading_numbers<A: Answering>(
    alloc: Global,
    answering: &A,
    line: &[u8],
) -> Result<Option<Vec<u32>>, AllocError>
    ensures { IfOk result (λ found. MatchOption found (HasNoHeading (A.file answering.now) line.now) (λ numbers. HasHeading (A.file answering.now) line.now numbers.items)) }
{
    forms_are_clear();
    let Some(numbers) = first_line_numbers(alloc, answering.front(), line)? else {
        return Ok(None);
    };
    if are_counted(&numbers, answering.count()) {
        Ok(Some(numbers))
    } else {
        Ok(None)
    }
}
