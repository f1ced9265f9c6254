//! Archives of some sizes and seeds. The expected texts and numbers are those of another program.
use dist_base::MAX_SIZE;
use dist_generate::generate;
use std::alloc::Global;

const ONE: &str = "Package: g0
Version: 1.2
Architecture: all
Source: s0

";

const TWO: &str = "Package: g0
Version: 1.2
Architecture: all
Source: s0

Package: g1
Version: 1.1
Architecture: all
Source: s0
Depends: g0 (>= 1) | g0, g0 (>= 1) | g0 (<< 2)

";

const THREE: &str = "Package: g0
Version: 1.1
Architecture: all
Source: s0

Package: g1
Version: 1.2
Architecture: all
Source: s0
Depends: g0 | g0 (>= 1)
Conflicts: g0

Package: g2
Version: 1.0
Architecture: all
Source: s1
Depends: g1 | g0 (<< 2), g1

";

/// The archive of a size and a seed.
fn archive(alloc: Global, size: u32, seed: u32) -> Option<Vec<u8>> {
    if size >= 1 && size <= MAX_SIZE {
        generate(alloc, size, seed).ok()
    } else {
        None
    }
}

/// A size, a seed, and the text of their archive.
type Text = (u32, u32, &'static str);

const TEXTS: &[Text] = &[(1, 0, ONE), (2, 0, TWO), (3, 1, THREE)];

/// Whether an archive has the text of its row.
fn has_text(alloc: Global, row: &Text) -> bool {
    match archive(alloc, row.0, row.1) {
        Some(text) => {
            let so = text.as_slice() == row.2.as_bytes();
            drop(text);
            so
        }
        None => false,
    }
}

/// The place of the first row with another text.
fn wrong_text(alloc: Global, rows: &[Text]) -> Option<usize> {
    for place in 0..rows.len() {
        if !has_text(alloc, &rows[place]) {
            return Some(place);
        }
    }
    None
}

#[test]
fn small_archives(rt: HostRuntime) {
    assert_eq!(rt; wrong_text(rt.alloc(), TEXTS), None);
}

/// A sum over all bytes in their order.
fn sum_of(text: &[u8]) -> u32 {
    let mut sum = 0u32;
    for byte in text {
        sum = sum.wrapping_mul(31).wrapping_add(u32::from(*byte));
    }
    sum
}

/// A size, a seed, how many bytes their archive has, and the sum of these.
type Measure = (u32, u32, usize, u32);

const MEASURES: &[Measure] = &[
    (1, 4_294_967_295, 55, 3_955_692_927),
    (60, 1, 4514, 3_249_536_331),
    (2000, 0, 162_400, 2_249_512_506),
    (2000, 4_294_967_295, 162_503, 3_412_826_657),
];

/// Whether an archive has the measure of its row.
fn has_measure(alloc: Global, row: &Measure) -> bool {
    match archive(alloc, row.0, row.1) {
        Some(text) => {
            let so = text.len() == row.2 && sum_of(&text) == row.3;
            drop(text);
            so
        }
        None => false,
    }
}

/// The place of the first row with another measure.
fn wrong_measure(alloc: Global, rows: &[Measure]) -> Option<usize> {
    for place in 0..rows.len() {
        if !has_measure(alloc, &rows[place]) {
            return Some(place);
        }
    }
    None
}

#[test]
fn larger_archives(rt: HostRuntime) {
    assert_eq!(rt; wrong_measure(rt.alloc(), MEASURES), None);
}
