//! Lines: where one ends, and whether it is blank or goes on with a field.
ghost use Rattle.std.specs.Prelude.{◌≡◌, ◌+◌, ◌<◌, ◌^◌, ◌∷◌, true, false, length, IfNone, IfSome};
ghost use Rattle.dist_base.specs.Ascii.{is_padding};
ghost use Rattle.dist_control.specs.Bytes.{is_blank, is_continuation};
ghost use Rattle.dist_control.specs.Lines.{lines, IsCutAtLine};
ghost use Rattle.dist_control.specs.RawStanza.{run, raw_stanzas_from};
ghost use Rattle.dist_control.specs.Pieces.{IsAtStanza, IsAtField, IsAtNoField, EndsField, IsBlankBefore, IsContinuedTo};

use memchr::memchr;

/// The first line, without its LF, and what comes after it.
pub fn split_line(bytes: &[u8]) -> (&[u8], &[u8])
    requires { 0 < length bytes.now }
    ensures lines { lines bytes.now ≡ result.0.now ∷ lines result.1.now }
    ensures shorter { length result.1.now < length bytes.now }
    ensures cut { IsCutAtLine bytes.now result.0.now result.1.now }
{
    match memchr(b'\n', bytes) {
        Some(end) => (&bytes[..end], &bytes[end + 1..]),
        None => (bytes, &[]),
    }
}

/// Whether a byte is a space or a tab.
fn is_padding(byte: u8) -> bool
    ensures { result ≡ is_padding byte }
{
    byte == b' ' || byte == b'\t'
}

/// Whether a line is empty or has only spaces and tabs.
fn is_blank(line: &[u8]) -> bool
    ensures { result ≡ is_blank line.now }
{
    line.iter().all(|byte| is_padding(*byte))
}

/// Whether a line begins with a space or a tab.
pub(crate) fn is_continuation(line: &[u8]) -> bool
    ensures { result ≡ is_continuation line.now }
{
    match line {
        [first, ..] => is_padding(*first),
        [] => false,
    }
}

/// What comes after a blank line that is next.
fn after_blank(bytes: &[u8]) -> Option<&[u8]>
    ensures blank { IfSome result (λ after. IsBlankBefore bytes.now after.now) }
    ensures none { IfNone result (IsAtStanza (lines bytes.now)) }
{
    if bytes.is_empty() {
        return None;
    }
    let (line, after) = split_line(bytes);
    if is_blank(line) { Some(after) } else { None }
}

/// What stands at the next line that is not blank, and its number.
pub(crate) fn skip_blank_lines(bytes: &[u8], number: u64) -> (&[u8], u64)
    requires { number + length bytes.now < 2 ^ 64 }
    ensures room { result.1 + length result.0.now < 2 ^ 64 }
    ensures stanzas { raw_stanzas_from result.1 true (lines result.0.now)
        ≡ raw_stanzas_from number true (lines bytes.now) }
    ensures at_stanza { IsAtStanza (lines result.0.now) }
{
    let mut rest = bytes;
    let mut line = number;
    while let Some(after) = after_blank(rest) {
        rest = after;
        line += 1;
    }
    (rest, line)
}

/// Whether a line that is neither blank nor a continuation is next.
pub(crate) fn is_at_field(bytes: &[u8]) -> bool
    ensures field { result ≡ true → IsAtField (lines bytes.now) }
    ensures none { result ≡ false → IsAtNoField (lines bytes.now) }
{
    match bytes {
        [first, ..] => !is_padding(*first) && *first != b'\n',
        [] => false,
    }
}

/// What comes after a continuation line that is next and not blank.
pub(crate) fn after_continuation(bytes: &[u8]) -> Option<&[u8]>
    ensures continued { IfSome result (λ after. IsContinuedTo bytes.now after.now) }
    ensures none { IfNone result (EndsField (run (lines bytes.now))) }
{
    let [first, ..] = bytes else {
        return None;
    };
    if !is_padding(*first) {
        return None;
    }
    let (line, after) = split_line(bytes);
    if is_blank(line) { None } else { Some(after) }
}
