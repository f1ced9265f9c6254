//! The first bytes of a name as one number: most comparisons of names are decided by it, and read no name.
ghost use Rattle.std.specs.Prelude.{◌≡◌, slice_index};
ghost use Rattle.dist_repo.specs.Prefix.{IsPrefixOf};

/// The first sixteen bytes of a name as one number. The first byte is the highest, and behind a shorter name stand zeros.
pub(crate) fn prefix_of(name: &[u8]) -> u128
    ensures { IsPrefixOf result name.now }
{
    let mut prefix: u128 = 0;
    for place in 0..16 {
        prefix = prefix * 256 + u128::from(byte_at(name, place));
    }
    prefix
}

/// The byte at a place, or zero behind the end.
fn byte_at(name: &[u8], place: usize) -> u8
    ensures { result ≡ slice_index name.now place }
{
    match name.get(place) {
        Some(byte) => *byte,
        None => 0,
    }
}
