//! What is in a file.

/// Whether a file that may be missing has these bytes, or is missing where none are given.
pub fn is_held(held: Option<&[u8]>, wanted: Option<&str>) -> bool {
    match (held, wanted) {
        (Some(bytes), Some(text)) => bytes == text.as_bytes(),
        (None, None) => true,
        _ => false,
    }
}
