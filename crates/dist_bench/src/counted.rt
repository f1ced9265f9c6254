//! Texts that tell how many there are of a thing, and the lines of a text.
ghost use Rattle.std.specs.Prelude.{◌≡◌, ◌++◌, IfOk, OnOk};
ghost use Rattle.dist_bench.specs.Counted.{counted, line_feeds, lines_text};

use itoa::Buffer;
use std::alloc::{AllocError, Global};

/// Adds how many there are of a thing.
pub(crate) fn add_counted(text: &mut Vec<u8>, number: u128, things: &[u8]) -> Result<(), AllocError>
    ensures { OnOk result (text.new.items ≡ text.old.items ++ counted number things.now) }
{
    let mut digits = Buffer::new();
    text.extend_from_slice(digits.format(number).as_bytes())?;
    text.extend_from_slice(things)?;
    Ok(())
}

/// How many there are of a thing.
pub(crate) fn counted(alloc: Global, number: u128, things: &[u8]) -> Result<Vec<u8>, AllocError>
    ensures { IfOk result (λ text. text.items ≡ counted number things.now) }
{
    let mut text = Vec::new(alloc);
    add_counted(&mut text, number, things)?;
    Ok(text)
}

/// How many line feeds the text has.
fn line_count(text: &[u8]) -> usize
    ensures { result ≡ line_feeds text.now }
{
    text.iter().filter(|byte| **byte == b'\n').count()
}

/// How many lines the text has.
pub fn lines_text(alloc: Global, text: &[u8]) -> Result<Vec<u8>, AllocError>
    ensures { IfOk result (λ answer. answer.items ≡ lines_text text.now) }
{
    counted(alloc, line_count(text) as u128, b" lines\n")
}
