//! Certificates of which some lines are replaced.
use std::alloc::Global;

/// Adds a certificate with the lines from one on up to another one replaced by a text.
fn add_edited(
    text: &mut Vec<u8>,
    certificate: &str,
    first: u64,
    last: u64,
    with: &str,
) -> Option<()> {
    if first == 1 {
        text.extend_from_slice(with.as_bytes()).ok()?;
    }
    let mut line = 1u64;
    for byte in certificate.as_bytes() {
        if line < first || last < line {
            text.push(*byte).ok()?;
        }
        if *byte == b'\n' {
            line = line.saturating_add(1);
            if line == first {
                text.extend_from_slice(with.as_bytes()).ok()?;
            }
        }
    }
    Some(())
}

/// A certificate with the lines from one on up to another one replaced by a text.
pub fn edited(
    alloc: Global,
    certificate: &str,
    first: u64,
    last: u64,
    with: &str,
) -> Option<Vec<u8>> {
    let mut text = Vec::new(alloc);
    match add_edited(&mut text, certificate, first, last, with) {
        Some(()) => Some(text),
        None => {
            drop(text);
            None
        }
    }
}
