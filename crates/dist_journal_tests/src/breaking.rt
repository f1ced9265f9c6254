//! What moved clusters break.
use crate::journals::{archive_of, is_followed};
use dist_archive::Archive;
use dist_cert::{Claim, Claims, Pairs};
use dist_journal::{Broken, BrokenList, broken};
use std::alloc::Global;

/// Three clusters: a and b, c, and e.
const STANZAS: &str =
    "Package: a\nVersion: 1\n\nPackage: b\nVersion: 1\nSource: a\nDepends: c (>= 2), a (>= 3)\n\nPackage: c\nVersion: 1\n
Package: e\nVersion: 1\n";

/// What a row shows, a journal, the pairs of each claim, and the packages and clusters that are wanted.
type Row = (
    &'static str,
    &'static str,
    &'static [&'static [(u32, u32)]],
    &'static [(u32, u32)],
);

/// Of cluster 0, whose classes are below 3, 3 and above, and cluster 1, whose classes are below 2, 2 and above.
const ROWS: &[Row] = &[
    (
        "nothing has moved",
        "",
        &[&[], &[(1, 1)], &[], &[(0, 1)]],
        &[],
    ),
    (
        "a version of the class",
        "= upload c 2\nPackage: c\nVersion: 2\n",
        &[&[], &[(1, 1)], &[], &[(0, 1), (1, 0), (1, 1)]],
        &[(1, 1), (3, 1)],
    ),
    (
        "a version of another class",
        "= upload c 3\nPackage: c\nVersion: 3\n",
        &[&[], &[(1, 1)], &[], &[(1, 0), (1, 2)]],
        &[(3, 1)],
    ),
    (
        "clusters rise before packages",
        "= upload c 2\nPackage: c\nVersion: 2\n\n= upload a 3\nPackage: b\nVersion: 3\n\nPackage: a\nVersion: 3\n",
        &[
            &[(1, 1)],
            &[(1, 1)],
            &[(0, 1)],
            &[(0, 1), (1, 1), (1, 1), (9, 9)],
        ],
        &[(3, 0), (3, 1)],
    ),
    (
        "a package that is gone is not broken",
        "= removal e\n= upload c 2\nPackage: c\nVersion: 2\n",
        &[&[(1, 1)], &[(1, 1)], &[], &[(1, 1)]],
        &[(0, 1), (1, 1)],
    ),
    (
        "a cluster without one of its names has not moved",
        "= upload a 3\nPackage: a\nVersion: 3\n",
        &[&[], &[], &[(0, 1)], &[(0, 1)]],
        &[],
    ),
    (
        "nor one of which a package was removed",
        "= removal a\n",
        &[&[], &[], &[(0, 0), (0, 1), (0, 2)], &[]],
        &[],
    ),
];

/// Adds pairs.
fn add_pairs(all: &mut Pairs, pairs: &[(u32, u32)]) -> Option<()> {
    for pair in pairs {
        all.push(*pair).ok()?;
    }
    Some(())
}

/// A claim with these pairs.
fn claim_of(alloc: Global, pairs: &[(u32, u32)]) -> Option<Claim> {
    let mut by = Pairs::new(alloc);
    if add_pairs(&mut by, pairs).is_some() {
        Some(Claim::Challenged(by, Pairs::new(alloc)))
    } else {
        drop(by);
        None
    }
}

/// Adds a claim with these pairs.
fn add_claim(alloc: Global, claims: &mut Claims, pairs: &[(u32, u32)]) -> bool {
    match claim_of(alloc, pairs) {
        Some(claim) => claims.push(claim).is_ok(),
        None => false,
    }
}

/// Adds claims with these pairs.
fn add_claims(alloc: Global, claims: &mut Claims, all: &[&[(u32, u32)]]) -> bool {
    for pairs in all {
        if !add_claim(alloc, claims, pairs) {
            return false;
        }
    }
    true
}

/// Whether a list has exactly these packages, each by its cluster.
fn is_list(list: &BrokenList, wanted: &[(u32, u32)]) -> bool {
    if list.len() != wanted.len() {
        return false;
    }
    for place in 0..wanted.len() {
        let (package_, cluster) = wanted[place];
        if place >= list.len() || *list.get(place) != (Broken { package_, cluster }) {
            return false;
        }
    }
    true
}

/// Whether exactly these packages are broken, each by its cluster.
fn are_broken(alloc: Global, archive: &Archive, claims: &Claims, wanted: &[(u32, u32)]) -> bool {
    if claims.len() != archive.space().package_count() as usize {
        return false;
    }
    match broken(alloc, archive, claims) {
        Ok(list) => {
            let so = is_list(&list, wanted);
            drop(list);
            so
        }
        Err(_) => false,
    }
}

/// Whether these packages are broken by claims with these pairs.
fn breaks(
    alloc: Global,
    archive: &Archive,
    pairs: &[&[(u32, u32)]],
    wanted: &[(u32, u32)],
) -> bool {
    let mut claims = Claims::new(alloc);
    let so = add_claims(alloc, &mut claims, pairs) && are_broken(alloc, archive, &claims, wanted);
    drop(claims);
    so
}

/// Whether a row's journal is followed, and breaks what it tells.
fn is_so(alloc: Global, row: &Row) -> bool {
    let Some(mut archive) = archive_of(alloc, STANZAS) else {
        return false;
    };
    let so = is_followed(alloc, &mut archive, row.1.as_bytes())
        && breaks(alloc, &archive, row.2, row.3);
    drop(archive);
    so
}

/// What the first row shows that breaks something else.
fn wrong_row(alloc: Global, rows: &[Row]) -> Option<&'static str> {
    for row in rows {
        if !is_so(alloc, row) {
            return Some(row.0);
        }
    }
    None
}

#[test]
fn moved_clusters_break_packages(rt: HostRuntime) {
    assert_eq!(rt; wrong_row(rt.alloc(), ROWS), None);
}
