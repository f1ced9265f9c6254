//! The bytes of relation fields, and the longest starts of them.
ghost use Rattle.std.specs.Prelude.{◌≡◌, ◌↔◌, ◌∷◌, ◌==◌, IsTrue, MatchOption, length, take_while};
ghost use Rattle.std.specs.List.{list_all};
ghost use Rattle.dist_base.specs.Ascii.{is_white};
ghost use Rattle.dist_relation.specs.Bytes.{is_name_byte, is_operator_byte, is_word_byte, IsName, Stops};
ghost use Rattle.dist_relation.specs.ReadingPrivate.{past, skip};

/// Whether the byte is white space.
fn is_white(byte: u8) -> bool
    ensures { result ≡ is_white byte }
{
    matches!(byte, b' ' | b'\t' | b'\n')
}

/// Whether a name may have the byte behind its first one. Most are small letters, so these are looked for first.
fn is_name_byte(byte: u8) -> bool
    ensures { result ≡ is_name_byte byte }
{
    byte.is_ascii_lowercase()
        || byte.is_ascii_alphanumeric()
        || matches!(byte, b'+' | b'-' | b'.' | b'_')
}

/// Whether an operator may have the byte.
fn is_operator_byte(byte: u8) -> bool
    ensures { result ≡ is_operator_byte byte }
{
    matches!(byte, b'<' | b'=' | b'>')
}

/// Whether the byte does not end a version.
fn is_word_byte(byte: u8) -> bool
    ensures { result ≡ is_word_byte byte }
{
    !is_white(byte) && !matches!(byte, b'(' | b')' | b',' | b'|')
}

/// Whether a name may have all these bytes behind its first one.
fn are_name_bytes(bytes: &[u8]) -> bool
    ensures { result ≡ list_all is_name_byte bytes.now }
{
    bytes.iter().all(|byte| is_name_byte(*byte))
}

/// Whether the bytes are a name.
pub(crate) fn is_name(bytes: &[u8]) -> bool
    ensures { IsTrue result ↔ IsName bytes.now }
{
    match bytes {
        [] => false,
        [first, rest @ ..] => first.is_ascii_alphanumeric() && are_name_bytes(rest),
    }
}

/// How many bytes of white space stand at the start.
fn space_length(text: &[u8]) -> usize
    ensures { result ≡ length (take_while is_white text.now) }
{
    text.iter().take_while(|byte| is_white(**byte)).count()
}

/// How many bytes of a name stand at the start.
fn name_length(text: &[u8]) -> usize
    ensures { result ≡ length (take_while is_name_byte text.now) }
{
    text.iter().take_while(|byte| is_name_byte(**byte)).count()
}

/// How many bytes of an operator stand at the start.
fn operator_length(text: &[u8]) -> usize
    ensures { result ≡ length (take_while is_operator_byte text.now) }
{
    text.iter()
        .take_while(|byte| is_operator_byte(**byte))
        .count()
}

/// How many bytes that do not end a version stand at the start.
fn word_length(text: &[u8]) -> usize
    ensures { result ≡ length (take_while is_word_byte text.now) }
{
    text.iter().take_while(|byte| is_word_byte(**byte)).count()
}

/// The text without the white space that it begins with.
pub(crate) fn skip_space(text: &[u8]) -> &[u8]
    ensures { result.now ≡ skip text.now }
{
    let length = space_length(text);
    text.split_at(length).1
}

/// The longest start of a name's bytes, and the rest.
pub(crate) fn split_name(text: &[u8]) -> (&[u8], &[u8])
    ensures front { result.0.now ≡ take_while is_name_byte text.now }
    ensures rest { result.1.now ≡ past is_name_byte text.now }
{
    let length = name_length(text);
    text.split_at(length)
}

/// The longest start of an operator's bytes, and the rest.
pub(crate) fn split_operator(text: &[u8]) -> (&[u8], &[u8])
    ensures front { result.0.now ≡ take_while is_operator_byte text.now }
    ensures rest { result.1.now ≡ past is_operator_byte text.now }
{
    let length = operator_length(text);
    text.split_at(length)
}

/// The longest start of bytes that don't end a version, and the rest.
pub(crate) fn split_word(text: &[u8]) -> (&[u8], &[u8])
    ensures front { result.0.now ≡ take_while is_word_byte text.now }
    ensures rest { result.1.now ≡ past is_word_byte text.now }
{
    let length = word_length(text);
    text.split_at(length)
}

/// The text after the byte that it begins with, if it begins with that byte.
pub(crate) fn after_byte(text: &[u8], byte: u8) -> Option<&[u8]>
    ensures { MatchOption result (Stops (λ b. b == byte) text.now) (λ rest. text.now ≡ byte ∷ rest.now) }
{
    match text {
        [first, rest @ ..] if *first == byte => Some(rest),
        _ => None,
    }
}
