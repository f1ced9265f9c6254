//! First lines of files: a front, and numbers.
ghost use Rattle.std.specs.Prelude.{◌≡◌, IfOk, MatchOption, map};
ghost use Rattle.dist_cert.specs.FirstLines.{HasNoNumbers, first_line};

use crate::line_text::add_numbers;
use crate::loose_words::Words;
use std::alloc::{AllocError, Global};

/// The text of a first line, without a line feed.
pub fn first_line_text(alloc: Global, front: &[u8], numbers: &[u32]) -> Result<Vec<u8>, AllocError>
    ensures { IfOk result (λ text. text.items ≡ first_line front.now numbers.now) }
{
    let mut text = Vec::new(alloc);
    text.extend_from_slice(front)?;
    add_numbers(&mut text, numbers)?;
    Ok(text)
}

/// The numbers of the words that are left.
fn all_numbers(alloc: Global, words: &mut Words) -> Result<Vec<u32>, AllocError>
    ensures { IfOk result (λ numbers. numbers.items ≡ map (λ word. word.0) words.old) }
{
    let mut numbers = Vec::new(alloc);
    while let Some(word) = words.next() {
        numbers.push(word.0)?;
    }
    Ok(numbers)
}

/// The numbers of a first line with a front, if it is one. A number is at most 4,294,967,295.
pub fn first_line_numbers(
    alloc: Global,
    front: &[u8],
    line: &[u8],
) -> Result<Option<Vec<u32>>, AllocError>
    ensures { IfOk result (λ found. MatchOption found (HasNoNumbers front.now line.now) (λ numbers. line.now ≡ first_line front.now numbers.items)) }
{
    if line.len() < front.len() {
        return Ok(None);
    }
    let numbers = all_numbers(alloc, &mut Words::new(&line[front.len()..]))?;
    let text = first_line_text(alloc, front, &numbers)?;
    if text.as_slice() == line {
        Ok(Some(numbers))
    } else {
        Ok(None)
    }
}
