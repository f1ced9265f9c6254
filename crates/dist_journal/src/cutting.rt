//! How a journal is cut: step lines, and the lines between them.
ghost use Rattle.std.specs.Prelude.{◌≡◌, ◌+◌, ◌<◌, ◌≤◌, ◌^◌, IfNone, IfSome, length};
ghost use Rattle.dist_base.specs.Ascii.{is_padding};
ghost use Rattle.dist_control.specs.Bytes.{is_blank};
ghost use Rattle.dist_control.specs.Lines.{lines};
ghost use Rattle.dist_journal.specs.CutPrivate.{IsAtStep, IsCutAfter, IsLineInFront, IsStrayAt};
ghost use Rattle.dist_journal.specs.Journal.{is_step_line};

use dist_control::split_line;

/// Whether a line is a step line.
fn is_step_line(line: &[u8]) -> bool
    ensures { result ≡ is_step_line line.now }
{
    match line {
        [first, second, ..] => *first == b'=' && *second == b' ',
        _ => false,
    }
}

/// What comes after the next line, if that one is no step line.
fn after_line(bytes: &[u8]) -> Option<&[u8]>
    ensures some { IfSome result (λ after. IsLineInFront bytes.now after.now) }
    ensures none { IfNone result (IsAtStep (lines bytes.now)) }
{
    if bytes.is_empty() {
        return None;
    }
    let (line, after) = split_line(bytes);
    if is_step_line(line) {
        None
    } else {
        Some(after)
    }
}

/// The text before the next step line or the end, the text from there on, and the number of lines before it.
pub(crate) fn split_block(bytes: &[u8]) -> (&[u8], &[u8], u64)
    ensures cut { IsCutAfter (lines bytes.now) (lines result.0.now) (lines result.1.now) }
    ensures count { result.2 ≡ length (lines result.0.now) }
    ensures shorter { result.2 + length result.1.now ≤ length bytes.now }
    ensures within { length result.0.now ≤ length bytes.now }
{
    let mut rest = bytes;
    let mut count = 0;
    while let Some(after) = after_line(rest) {
        rest = after;
        count += 1;
    }
    let (block, next) = bytes.split_at(bytes.len() - rest.len());
    (block, next, count)
}

/// Whether a byte is a space or a tab.
fn is_padding(byte: u8) -> bool
    ensures { result ≡ is_padding byte }
{
    byte == b' ' || byte == b'\t'
}

/// Whether a line is empty or has only spaces and tabs.
fn is_blank(line: &[u8]) -> bool
    ensures { result ≡ is_blank line.now }
{
    line.iter().all(|byte| is_padding(*byte))
}

/// The number of the first line that is not blank, where the first of all has this number.
pub(crate) fn first_stray(block: &[u8], number: u64) -> Option<u64>
    requires { number + length block.now < 2 ^ 64 }
    ensures { IsStrayAt number (lines block.now) result }
{
    let mut rest = block;
    let mut place = number;
    while !rest.is_empty() {
        let (line, after) = split_line(rest);
        if !is_blank(line) {
            return Some(place);
        }
        rest = after;
        place += 1;
    }
    None
}
