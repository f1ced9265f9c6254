//! The mark of a field's name: a small number that tells most names apart without looking at all of their bytes.
ghost use Rattle.std.specs.Prelude.{◌≡◌, ◌<◌, unwrap_or, option_copied};
ghost use Rattle.std.specs.Char.{to_ascii_lowercase};
ghost use Rattle.dist_control.specs.Fields.{folded};
ghost use Rattle.dist_control.specs.Pieces.{mark_of};

/// How many marks there are.
pub(crate) const MARKS: usize = 64;

/// A byte in lower case, or 0 where there is none.
fn lowered(byte: Option<&u8>) -> usize
    ensures value { result ≡ to_ascii_lowercase (unwrap_or (option_copied byte.entry) 0) }
    ensures within { result < 256 }
{
    match byte {
        Some(byte) => usize::from(byte.to_ascii_lowercase()),
        None => 0,
    }
}

/// The mark of a name, ASCII case apart. Of the names that the stanzas of an archive have hardly two share one.
pub(crate) fn mark_of(name: &[u8]) -> usize
    ensures mark { result ≡ mark_of (folded name.now) }
    ensures within { result < MARKS }
{
    (3 * lowered(name.first()) + 5 * lowered(name.last()) + name.len() % MARKS) % MARKS
}
