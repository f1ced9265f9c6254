//! Values from outside: the order as `dpkg --compare-versions` answers it (1.21.22), and refusals by the grammar.
use crate::hold;
use dist_version::{
    Version, VersionError, equal_is_neither_below, order_is_total, rebuilds_are_taken_off,
    texts_are_exact, versions_are_dense, weights_decide,
};
use std::alloc::Global;
use std::cmp::Ordering;

/// Two versions, and the order of the first to the second.
type Pair = (&'static str, Ordering, &'static str);

const ORDER: &[Pair] = &[
    ("1.0~~", Ordering::Less, "1.0~"),
    ("1.0~", Ordering::Less, "1.0"),
    ("1.0", Ordering::Equal, "1.0-0"),
    ("1.0", Ordering::Less, "1.0a"),
    ("1.0a", Ordering::Less, "1.0+"),
    ("1.9", Ordering::Less, "1.10"),
    ("0:1", Ordering::Equal, "1"),
    ("9", Ordering::Less, "1:0"),
    ("007", Ordering::Equal, "7"),
    (
        "999999999999999999999999999999999999999",
        Ordering::Less,
        "1000000000000000000000000000000000000000",
    ),
    ("0", Ordering::Equal, "0-0"),
    ("0-0", Ordering::Equal, "0-00"),
    ("0~", Ordering::Less, "0"),
    ("0-0~", Ordering::Less, "0"),
    ("0-~", Ordering::Less, "0-0"),
    ("0-~", Ordering::Less, "0"),
    ("1-~a", Ordering::Less, "1-a"),
    ("1-1", Ordering::Greater, "1-1~"),
    ("1-1~", Ordering::Greater, "1-1~~"),
    ("1~rc1-1", Ordering::Less, "1-0"),
    ("1.0~rc1", Ordering::Less, "1.0~rc2"),
    ("1.0~rc1", Ordering::Greater, "1.0~beta"),
    ("1.0~a", Ordering::Less, "1.0~+"),
    ("1.0~", Ordering::Less, "1.0~a"),
    ("a", Ordering::Less, "b"),
    ("a", Ordering::Less, "+"),
    ("a", Ordering::Less, "."),
    ("z", Ordering::Less, "+"),
    ("Z", Ordering::Less, "a"),
    ("A", Ordering::Less, "a"),
    ("1a", Ordering::Less, "1."),
    ("1.", Ordering::Greater, "1+"),
    ("1+", Ordering::Greater, "1-1"),
    ("1.a", Ordering::Less, "1.+"),
    ("+", Ordering::Less, "."),
    ("1.0-1", Ordering::Less, "1.0-1.1"),
    ("1.0-1", Ordering::Less, "1.0-1+b1"),
    ("1.0-1+b1", Ordering::Less, "1.0-1+b2"),
    ("1.0-1+b9", Ordering::Less, "1.0-1+b10"),
    ("1.0-1", Ordering::Greater, "1.0-1~bpo12+1"),
    ("1.0-1~bpo12+1", Ordering::Greater, "1.0-1~bpo11+1"),
    ("2:1", Ordering::Less, "10:0"),
    ("00:1", Ordering::Equal, "1"),
    ("1:1", Ordering::Equal, "01:1"),
    ("1:1", Ordering::Equal, "1:1-0"),
    ("0:0", Ordering::Equal, "0"),
    ("2147483647:1", Ordering::Greater, "0:9"),
    ("2147483647:1", Ordering::Greater, "2147483646:2"),
    ("1:1:1", Ordering::Greater, "1:1.1"),
    ("1:1:0", Ordering::Equal, "1:1:00"),
    ("1:a:1", Ordering::Greater, "1:a1"),
    ("1.00", Ordering::Equal, "1.0"),
    ("1.01", Ordering::Equal, "1.1"),
    ("1.010", Ordering::Equal, "1.10"),
    ("1.0", Ordering::Greater, "1"),
    ("1.", Ordering::Greater, "1"),
    ("1.a", Ordering::Greater, "1.0a"),
    ("1.0.0", Ordering::Greater, "1.0"),
    ("1..0", Ordering::Greater, "1.0"),
    ("1.2.3-4-5", Ordering::Less, "1.2.3-4-6"),
    ("1-2-3", Ordering::Greater, "1-2"),
    ("1-2", Ordering::Less, "1-2-0"),
    ("1-0", Ordering::Less, "1-0-0"),
    ("10", Ordering::Greater, "9"),
    ("010", Ordering::Greater, "9"),
    ("1a2", Ordering::Less, "1a10"),
    ("1a02", Ordering::Equal, "1a2"),
    ("a1", Ordering::Greater, "a~1"),
    ("a", Ordering::Greater, "a~"),
    ("a0", Ordering::Equal, "a"),
    ("a00", Ordering::Equal, "a0"),
    ("a-0", Ordering::Equal, "a"),
    ("~", Ordering::Less, "0"),
    ("~", Ordering::Less, "a"),
    ("~~", Ordering::Less, "~"),
    ("~1", Ordering::Greater, "~"),
    ("1.0+dfsg", Ordering::Greater, "1.0"),
    ("1.0+dfsg-1", Ordering::Greater, "1.0-1"),
    ("1.0+dfsg", Ordering::Less, "1.0.1"),
    ("1.0+dfsg", Ordering::Greater, "1.0a"),
    ("1.18.36ubuntu0~3", Ordering::Less, "1.18.36ubuntu0"),
    ("20080514-1", Ordering::Less, "20080514.1-1"),
    ("1.3.dfsg-12", Ordering::Less, "1.3.dfsg.1-1"),
    ("4.0~pre1", Ordering::Less, "4.0"),
    ("3.0.0~20200101", Ordering::Greater, "3.0.0~20191231"),
    ("0-0-0", Ordering::Greater, "0-0"),
    ("1-1.", Ordering::Greater, "1-1"),
    ("1-a", Ordering::Greater, "1-1"),
    ("1-.", Ordering::Greater, "1-a"),
];

/// Long runs of zeros, which are taken off beforehand, and of digits and letters, which are walked no further than the other version goes.
const LONG_RUNS: &[Pair] = &[
    ("1.2", Ordering::Less, "1.000000000000000003"),
    (
        "1.2",
        Ordering::Equal,
        "1.00000000000000000000000000000000000000002",
    ),
    (
        "1.000000000000000001",
        Ordering::Equal,
        "1.0000000000000000000000000000001",
    ),
    ("1.00000000000000009", Ordering::Equal, "1.9"),
    ("1.00000000000000000", Ordering::Equal, "1."),
    ("1.00000000000000000", Ordering::Equal, "1.0"),
    ("1.00000000000000000a", Ordering::Less, "1.a"),
    ("00000000000000000000a", Ordering::Less, "a"),
    ("00000000000000000000a", Ordering::Equal, "0a"),
    ("00000000000000000000", Ordering::Equal, "0"),
    ("a00000000000000000000b", Ordering::Equal, "a0b"),
    ("a00000000000000000000b", Ordering::Less, "ab"),
    ("1.00000000000000000010", Ordering::Greater, "1.9"),
    ("1.00000000000000000010~", Ordering::Less, "1.10"),
    ("1-000000000000000002", Ordering::Less, "1-10"),
    ("1-00000000000000000", Ordering::Equal, "1"),
    ("1-00000000000000000~", Ordering::Less, "1"),
    (
        "2:1.000000000000000000001-000000000000000000003",
        Ordering::Equal,
        "2:1.1-3",
    ),
    ("000000000000000000002:1", Ordering::Equal, "2:1"),
    (
        "1+000000000000000000001-1",
        Ordering::Less,
        "1+01-000000000000000000002",
    ),
    (
        "1111111111111111111111111111111111111111",
        Ordering::Greater,
        "111111111111111111111111111111111111111",
    ),
    (
        "1111111111111111111111111111111111111111a",
        Ordering::Greater,
        "1111111111111111111111111111111111111111",
    ),
    (
        "1111111111111111111111111111112111111111",
        Ordering::Greater,
        "1111111111111111111111111111111111111111",
    ),
    (
        "1.1111111111111111111111111111111111111111",
        Ordering::Greater,
        "1.2",
    ),
    (
        "1.20000000000000000000000000000000000000000",
        Ordering::Greater,
        "1.20",
    ),
    (
        "1.200000000000000000000000000000000000000001",
        Ordering::Less,
        "1.200000000000000000000000000000000000000002",
    ),
    (
        "1aaaaaaaaaaaaaaaaaaaaaaaaaaaaaaaaaaaaaaaa",
        Ordering::Greater,
        "1aaaaaaaaaaaaaaaaaaaaaaaaaaaaaaaaaaaaaaa",
    ),
    (
        "1aaaaaaaaaaaaaaaaaaaaaaaaaaaaaaaaaaaaaaab",
        Ordering::Greater,
        "1aaaaaaaaaaaaaaaaaaaaaaaaaaaaaaaaaaaaaaaa",
    ),
    (
        "1aaaaaaaaaaaaaaaaaaaaaaaaaaaaaaaaaaaaaaaa",
        Ordering::Less,
        "1b",
    ),
    (
        "1a~~~~~~~~~~~~~~~~~~~~~~~~~~~~~~~~~~~~~~~~",
        Ordering::Less,
        "1a",
    ),
    (
        "1~~~~~~~~~~~~~~~~~~~~~~~~~~~~~~~~~~~~~~~~",
        Ordering::Less,
        "1~~~~~~~~~~~~~~~~~~~~~~~~~~~~~~~~~~~~~~~",
    ),
    (
        "1.000000000000000005.000000000000000006",
        Ordering::Equal,
        "1.5.6",
    ),
    (
        "1.000000000000000005.000000000000000006",
        Ordering::Less,
        "1.5.0000000000000000007",
    ),
];

/// The version of a text that is one.
fn read(alloc: Global, text: &str) -> Option<Version> {
    Version::read(alloc, text.as_bytes()).ok()
}

/// The order of two versions, where both ways agree.
fn agreed_order(first: &Version, second: &Version) -> Option<Ordering> {
    let order = first.compare(second);
    if second.compare(first) == order.reverse() {
        Some(order)
    } else {
        None
    }
}

/// The order of a version to that of a text, where both ways agree.
fn order_to(alloc: Global, first: &Version, second: &str) -> Option<Ordering> {
    let second = read(alloc, second)?;
    let order = agreed_order(first, &second);
    drop(second);
    order
}

/// The order of the versions of two texts, where both ways agree.
fn order_of(alloc: Global, first: &str, second: &str) -> Option<Ordering> {
    let first = read(alloc, first)?;
    let order = order_to(alloc, &first, second);
    drop(first);
    order
}

/// The first of the pair that is not in its order.
fn wrong_order(alloc: Global, pairs: &[Pair]) -> Option<&'static str> {
    for (first, order, second) in pairs {
        if order_of(alloc, first, second) != Some(*order) {
            return Some(first);
        }
    }
    None
}

#[test]
fn compares_as_dpkg_does(rt: HostRuntime) {
    hold(&rt, wrong_order(rt.alloc(), ORDER));
}

#[test]
fn compares_long_runs_as_dpkg_does(rt: HostRuntime) {
    hold(&rt, wrong_order(rt.alloc(), LONG_RUNS));
}

/// A text, and its first fault.
type Faulty = (&'static str, VersionError);

const FAULTY: &[Faulty] = &[
    ("", VersionError::Empty),
    (":", VersionError::BadEpoch),
    (":1", VersionError::BadEpoch),
    ("a:1", VersionError::BadEpoch),
    ("1 :", VersionError::BadEpoch),
    ("-1:", VersionError::BadEpoch),
    ("99999999999999999999x:", VersionError::BadEpoch),
    ("2147483648:1", VersionError::EpochTooLarge),
    ("18446744073709551617:-", VersionError::EpochTooLarge),
    ("1:", VersionError::EmptyUpstream),
    ("-1", VersionError::EmptyUpstream),
    ("-", VersionError::EmptyUpstream),
    ("1:-_", VersionError::EmptyUpstream),
    ("1-", VersionError::EmptyRevision),
    ("1_-", VersionError::EmptyRevision),
    ("1_2", VersionError::BadByte(1)),
    ("0:1_2-_", VersionError::BadByte(3)),
    ("1-2-3_", VersionError::BadByte(5)),
    ("1-2:", VersionError::BadEpoch),
    ("1:1-2:3", VersionError::BadByte(5)),
    (" 1", VersionError::BadByte(0)),
    ("1\u{e9}", VersionError::BadByte(1)),
];

/// The first fault of a text.
fn refusal_of(alloc: Global, text: &str) -> Option<VersionError> {
    match Version::read(alloc, text.as_bytes()) {
        Ok(version) => {
            drop(version);
            None
        }
        Err(error) => Some(error),
    }
}

/// The first text that has another fault.
fn wrong_fault(alloc: Global, rows: &[Faulty]) -> Option<&'static str> {
    for (text, fault) in rows {
        if refusal_of(alloc, text) != Some(*fault) {
            return Some(text);
        }
    }
    None
}

#[test]
fn refuses_by_the_first_fault(rt: HostRuntime) {
    hold(&rt, wrong_fault(rt.alloc(), FAULTY));
}

/// A text, and its epoch, its upstream version and its revision, where it has one.
type Spelled = (&'static str, u32, &'static str, Option<&'static str>);

const SPELLED: &[Spelled] = &[
    ("02147483647:1:0-1-3+b1", 2147483647, "1:0-1", Some("3+b1")),
    ("~", 0, "~", None),
];

/// Whether a revision is this one, where there is one.
fn is_revision(revision: Option<&[u8]>, expected: Option<&str>) -> bool {
    match (revision, expected) {
        (Some(revision), Some(expected)) => revision == expected.as_bytes(),
        (None, None) => true,
        _ => false,
    }
}

/// Whether a version has a row's text and parts.
fn is_spelled(version: &Version, row: &Spelled) -> bool {
    version.text() == row.0.as_bytes()
        && version.epoch() == row.1
        && version.upstream() == row.2.as_bytes()
        && is_revision(version.revision(), row.3)
}

/// Whether a version and another one have a row's text and parts, and are one in both orders.
fn are_one(version: &Version, copy: &Version, row: &Spelled) -> bool {
    is_spelled(version, row)
        && is_spelled(copy, row)
        && *copy == *version
        && copy.compare(version) == Ordering::Equal
}

/// Whether a version and its copy have a row's text and parts, and are one in both orders.
fn is_kept(version: &Version, row: &Spelled) -> bool {
    match version.try_clone() {
        Ok(copy) => {
            let so = are_one(version, &copy, row);
            drop(copy);
            so
        }
        Err(_) => false,
    }
}

/// Whether the version of a row's text is as the row says.
fn is_read(alloc: Global, row: &Spelled) -> bool {
    match read(alloc, row.0) {
        Some(version) => {
            let so = is_kept(&version, row);
            drop(version);
            so
        }
        None => false,
    }
}

/// The first text that is read otherwise.
fn wrong_reading(alloc: Global, rows: &[Spelled]) -> Option<&'static str> {
    for row in rows {
        if !is_read(alloc, row) {
            return Some(row.0);
        }
    }
    None
}

#[test]
fn keeps_text_and_parts(rt: HostRuntime) {
    hold(&rt, wrong_reading(rt.alloc(), SPELLED));
}

/// Two texts, and whether they are the same bytes.
type Same = (&'static str, &'static str, bool);

const SAME: &[Same] = &[("1.0", "1.0", true), ("1.0", "1.0-0", false)];

/// Whether a version has the same text as that of a text.
fn is_same(alloc: Global, first: &Version, second: &str) -> Option<bool> {
    let second = read(alloc, second)?;
    let same = *first == second;
    drop(second);
    Some(same)
}

/// Whether the versions of two texts have the same text.
fn are_same(alloc: Global, first: &str, second: &str) -> Option<bool> {
    let first = read(alloc, first)?;
    let same = is_same(alloc, &first, second);
    drop(first);
    same
}

/// The second of the first two that are told otherwise.
fn wrong_sameness(alloc: Global, rows: &[Same]) -> Option<&'static str> {
    for (first, second, same) in rows {
        if are_same(alloc, first, second) != Some(*same) {
            return Some(second);
        }
    }
    None
}

#[test]
fn equal_texts_are_the_same_bytes(rt: HostRuntime) {
    hold(&rt, wrong_sameness(rt.alloc(), SAME));
}

/// How a version is made of another one.
#[derive(Clone, Copy)]
enum Way {
    After(usize),
    Below,
    WithoutRebuild,
}

/// A version's text, a way, and the text of the version that is made, where one is.
type Made = (&'static str, Way, Option<&'static str>);

const BETWEEN: &[Made] = &[
    ("1", Way::After(4), Some("1-0A~~~~")),
    ("1-0A", Way::After(4), Some("1-0A0A~~~~")),
    ("1", Way::After(usize::MAX), None),
    ("1", Way::Below, Some("~~")),
];

const REBUILDS: &[Made] = &[
    ("1-2+b3", Way::WithoutRebuild, Some("1-2")),
    ("1+b2+b3", Way::WithoutRebuild, Some("1+b2")),
    ("1+b", Way::WithoutRebuild, Some("1+b")),
];

/// The version that is made of another one.
fn made(version: &Version, way: Way) -> Option<Version> {
    match way {
        Way::After(tildes) => version.after(tildes).ok(),
        Way::Below => version.below().ok(),
        Way::WithoutRebuild => version.without_rebuild().ok(),
    }
}

/// Whether a version is given, and has this text.
fn has_text(version: &Version, text: Option<&str>) -> bool {
    match text {
        Some(text) => version.text() == text.as_bytes(),
        None => false,
    }
}

/// Whether what is made of a version is as a row says.
fn makes(version: &Version, row: &Made) -> bool {
    match made(version, row.1) {
        Some(other) => {
            let so = has_text(&other, row.2);
            drop(other);
            so
        }
        None => row.2.is_none(),
    }
}

/// Whether what is made of the version of a row's text is as the row says.
fn is_made(alloc: Global, row: &Made) -> bool {
    match read(alloc, row.0) {
        Some(version) => {
            let so = makes(&version, row);
            drop(version);
            so
        }
        None => false,
    }
}

/// The first text of whose version another one is made.
fn wrong_making(alloc: Global, rows: &[Made]) -> Option<&'static str> {
    for row in rows {
        if !is_made(alloc, row) {
            return Some(row.0);
        }
    }
    None
}

#[test]
fn finds_versions_in_between(rt: HostRuntime) {
    hold(&rt, wrong_making(rt.alloc(), BETWEEN));
}

#[test]
fn takes_rebuilds_off(rt: HostRuntime) {
    hold(&rt, wrong_making(rt.alloc(), REBUILDS));
}

#[test]
fn the_laws_hold() {
    texts_are_exact();
    weights_decide();
    order_is_total();
    equal_is_neither_below();
    versions_are_dense();
    rebuilds_are_taken_off();
}
