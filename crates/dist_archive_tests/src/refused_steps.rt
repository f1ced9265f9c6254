//! Worked rows: each refusal, after which the archive is as before.
use crate::archives::{Row, Told, wrong_row};
use dist_archive::StepError;

/// Two packages of one source, and one that provides a name.
const PAIR: &str =
    "Package: a\nVersion: 1\nSource: s\n\nPackage: b\nVersion: 1\nSource: s\n\nPackage: p\nVersion: 1\nProvides: m\n";

const ALL: &[(&str, &str)] = &[("a", "1"), ("b", "1"), ("p", "1")];

const LIBRARY: &str = "Package: libx\nVersion: 1\nProvides: menu, abi (= 1)\n";

const REFUSED: &[Row] = &[
    (
        "a block of another architecture comes first",
        "Package: a\nVersion: 1\nArchitecture: amd64\n",
        &[
            (
                Told::Upload("a", "1", "Package: x\nVersion: 1\nArchitecture: i386\n"),
                Some(StepError::OtherArchitecture),
            ),
            (
                Told::NewName("Package: a\nVersion: 1\nArchitecture: i386\n"),
                Some(StepError::OtherArchitecture),
            ),
        ],
        &[("a", "1")],
    ),
    (
        "a repository without architecture takes no block that has one",
        PAIR,
        &[(
            Told::NewName("Package: n\nVersion: 1\nArchitecture: amd64\n"),
            Some(StepError::OtherArchitecture),
        )],
        ALL,
    ),
    (
        "a version that is not above the top",
        PAIR,
        &[(
            Told::Upload("a", "0:1", "Package: x\nVersion: 1\n"),
            Some(StepError::NotAbove),
        )],
        ALL,
    ),
    (
        "a version above the top that is not above what is held",
        PAIR,
        &[
            (Told::Upload("a", "3", "Package: b\nVersion: 3\n"), None),
            (
                Told::Upload("a", "3", "Package: a\nVersion: 3\n"),
                Some(StepError::NotAbove),
            ),
            (
                Told::Upload("a", "2", "Package: a\nVersion: 2\n"),
                Some(StepError::NotAbove),
            ),
        ],
        &[("b", "3"), ("p", "1")],
    ),
    (
        "what is held no more is no bound, but the top is",
        PAIR,
        &[
            (Told::Upload("a", "3", "Package: b\nVersion: 3\n"), None),
            (Told::Removal("b"), None),
            (
                Told::Upload("a", "1", "Package: a\nVersion: 1\n"),
                Some(StepError::NotAbove),
            ),
            (Told::Upload("a", "2", "Package: a\nVersion: 2\n"), None),
        ],
        &[("a", "2"), ("p", "1")],
    ),
    (
        "a package of another cluster, and one of no cluster",
        PAIR,
        &[
            (
                Told::Upload(
                    "a",
                    "2",
                    "Package: a\nVersion: 2\n\nPackage: p\nVersion: 3\n",
                ),
                Some(StepError::NotMember(1)),
            ),
            (
                Told::Upload("a", "2", "Package: n\nVersion: 2\n"),
                Some(StepError::NotMember(0)),
            ),
        ],
        ALL,
    ),
    (
        "a package at another version",
        PAIR,
        &[(
            Told::Upload(
                "a",
                "2",
                "Package: a\nVersion: 2\n\nPackage: b\nVersion: 1\n",
            ),
            Some(StepError::NotAtVersion(1)),
        )],
        ALL,
    ),
    (
        "the first bad package decides",
        PAIR,
        &[(
            Told::Upload(
                "a",
                "2",
                "Package: b\nVersion: 3\n\nPackage: x\nVersion: 2\n",
            ),
            Some(StepError::NotAtVersion(0)),
        )],
        ALL,
    ),
    (
        "two versions of a name are not both at the step's",
        PAIR,
        &[(
            Told::Upload(
                "a",
                "2",
                "Package: a\nVersion: 2\n\nPackage: a\nVersion: 3\n",
            ),
            Some(StepError::NotAtVersion(1)),
        )],
        ALL,
    ),
    (
        "an entry that stays at the old version, and one that is new",
        LIBRARY,
        &[
            (
                Told::Upload(
                    "libx",
                    "2",
                    "Package: libx\nVersion: 2\nProvides: abi (= 1)\n",
                ),
                Some(StepError::WrongProvides(0)),
            ),
            (
                Told::Upload("libx", "2", "Package: libx\nVersion: 2\nProvides: abi\n"),
                Some(StepError::WrongProvides(0)),
            ),
            (
                Told::Upload(
                    "libx",
                    "2",
                    "Package: libx\nVersion: 2\nProvides: abi (= 2), menu\n",
                ),
                Some(StepError::WrongProvides(0)),
            ),
            (
                Told::Upload(
                    "libx",
                    "2",
                    "Package: libx\nVersion: 2\nProvides: menu, menu\n",
                ),
                Some(StepError::WrongProvides(0)),
            ),
        ],
        &[("libx", "1")],
    ),
    (
        "a removal of what is not held",
        PAIR,
        &[
            (Told::Removal("p"), None),
            (Told::Removal("p"), Some(StepError::NotHeld)),
            (Told::Removal("n"), Some(StepError::NotHeld)),
            (Told::Removal("m"), Some(StepError::NotHeld)),
        ],
        &[("a", "1"), ("b", "1")],
    ),
    (
        "a new name of no package, and of two",
        PAIR,
        &[
            (Told::NewName(""), Some(StepError::NotOne)),
            (
                Told::NewName("Package: a\nVersion: 2\n\nPackage: n\nVersion: 1\n"),
                Some(StepError::NotOne),
            ),
        ],
        ALL,
    ),
    (
        "a name of the repository, even where nothing is held of it",
        PAIR,
        &[
            (Told::Removal("p"), None),
            (
                Told::NewName("Package: p\nVersion: 1\nProvides: m\n"),
                Some(StepError::NameTaken),
            ),
        ],
        &[("a", "1"), ("b", "1")],
    ),
    (
        "a new name that is held",
        PAIR,
        &[
            (Told::NewName("Package: n\nVersion: 1\n"), None),
            (
                Told::NewName("Package: n\nVersion: 2\n"),
                Some(StepError::NameTaken),
            ),
        ],
        &[("a", "1"), ("b", "1"), ("n", "1"), ("p", "1")],
    ),
    (
        "a name that is provided, even where its provider is not held",
        PAIR,
        &[
            (Told::Removal("p"), None),
            (
                Told::NewName("Package: m\nVersion: 1\nProvides: x\n"),
                Some(StepError::NameVirtual),
            ),
        ],
        &[("a", "1"), ("b", "1")],
    ),
    (
        "a package of a new name that provides something",
        PAIR,
        &[(
            Told::NewName("Package: n\nVersion: 1\nProvides: x\n"),
            Some(StepError::HasProvides),
        )],
        ALL,
    ),
    (
        "an entry that is not usable provides no name",
        "Package: a\nVersion: 1\nArchitecture: amd64\nProvides: m:i386\n",
        &[(Told::NewName("Package: m\nVersion: 1\n"), None)],
        &[("a", "1"), ("m", "1")],
    ),
];

#[test]
fn steps_are_refused(rt: HostRuntime) {
    assert_eq!(rt; wrong_row(rt.alloc(), REFUSED), None);
}
