//! Worked rows: steps that are taken, and what they leave.
use crate::archives::{Row, Told, wrong_row};
use dist_archive::{challenges_hold_after_steps, futures_are_reached, steps_reach_futures};

/// Two packages of one source, and one that stands alone.
const PAIR: &str =
    "Package: a\nVersion: 1\nSource: s\n\nPackage: b\nVersion: 1\nSource: s\n\nPackage: p\nVersion: 1\n";

/// A library that provides its interface at its own version, and a menu.
const LIBRARY: &str = "Package: libx\nVersion: 1\nProvides: menu, abi (= 1), old (= 0)\n";

const TAKEN: &[Row] = &[
    (
        "the archive begins as the repository",
        PAIR,
        &[],
        &[("a", "1"), ("b", "1"), ("p", "1")],
    ),
    (
        "a whole cluster moves",
        PAIR,
        &[(
            Told::Upload(
                "a",
                "2",
                "Package: a\nVersion: 2\n\nPackage: b\nVersion: 2\n",
            ),
            None,
        )],
        &[("a", "2"), ("b", "2"), ("p", "1")],
    ),
    (
        "a member that is not uploaded goes",
        PAIR,
        &[(Told::Upload("b", "2", "Package: b\nVersion: 2\n"), None)],
        &[("b", "2"), ("p", "1")],
    ),
    (
        "an upload of no package takes the cluster away",
        PAIR,
        &[(Told::Upload("a", "2", ""), None)],
        &[("p", "1")],
    ),
    (
        "a removed member comes again with a later upload, in any text of the version",
        PAIR,
        &[
            (Told::Removal("a"), None),
            (Told::Upload("b", "2", "Package: b\nVersion: 2\n"), None),
            (
                Told::Upload(
                    "a",
                    "2.5",
                    "Package: a\nVersion: 0:2.5\n\nPackage: b\nVersion: 2.05\n",
                ),
                None,
            ),
        ],
        &[("a", "0:2.5"), ("b", "2.05"), ("p", "1")],
    ),
    (
        "an entry goes with its package, or is left out",
        LIBRARY,
        &[
            (
                Told::Upload(
                    "libx",
                    "2",
                    "Package: libx\nVersion: 2\nProvides: abi (= 2)\n",
                ),
                None,
            ),
            (
                Told::Upload(
                    "libx",
                    "3",
                    "Package: libx\nVersion: 3\nProvides: menu, abi (= 0:3), old (= 0)\n",
                ),
                None,
            ),
        ],
        &[("libx", "3")],
    ),
    (
        "all else of a new version is free",
        PAIR,
        &[(
            Told::Upload(
                "p",
                "2",
                "Package: p\nVersion: 2\nSource: other (7)\nEssential: yes\nDepends: nothing\nConflicts: a\n",
            ),
            None,
        )],
        &[("a", "1"), ("b", "1"), ("p", "2")],
    ),
    (
        "a package of a new name comes, goes and comes",
        PAIR,
        &[
            (Told::NewName("Package: foo\nVersion: 1\n"), None),
            (Told::Removal("foo"), None),
            (
                Told::NewName("Package: foo\nVersion: 0\nDepends: a\n"),
                None,
            ),
        ],
        &[("a", "1"), ("b", "1"), ("foo", "0"), ("p", "1")],
    ),
    (
        "a block of all architectures, and one of the repository's",
        "Package: a\nVersion: 1\nArchitecture: amd64\n",
        &[
            (
                Told::Upload("a", "2", "Package: a\nVersion: 2\nArchitecture: all\n"),
                None,
            ),
            (
                Told::NewName("Package: n\nVersion: 1\nArchitecture: amd64\n"),
                None,
            ),
        ],
        &[("a", "2"), ("n", "1")],
    ),
];

#[test]
fn steps_are_taken(rt: HostRuntime) {
    assert_eq!(rt; wrong_row(rt.alloc(), TAKEN), None);
}

#[test]
fn the_laws_hold() {
    challenges_hold_after_steps();
    futures_are_reached();
    steps_reach_futures();
}
