//! A list of lists against plain slices.
use dist_base::Flat;
use std::alloc::{AllocError, Global};

/// Puts three lists behind one another.
fn push_lists(flat: &mut Flat<u8>) -> Result<(), AllocError> {
    flat.push(b"ab")?;
    flat.push(b"")?;
    flat.push(b"c")
}

/// Whether lists are those three.
fn has_lists(flat: &Flat<u8>) -> bool {
    flat.len() == 3
        && flat.total() == 3
        && flat.get(0) == b"ab".as_slice()
        && flat.get(1).is_empty()
        && flat.get(2) == b"c".as_slice()
}

/// Whether lists come back, of which there are none at first.
fn come_back(alloc: Global) -> bool {
    let mut flat: Flat<u8> = Flat::new(alloc);
    let is_empty = flat.len() == 0 && flat.total() == 0;
    let so = is_empty && push_lists(&mut flat).is_ok() && has_lists(&flat);
    drop(flat);
    so
}

#[test]
fn lists_come_back_as_they_went_in(rt: HostRuntime) {
    assert!(rt; come_back(rt.alloc()));
}
