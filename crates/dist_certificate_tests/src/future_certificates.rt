//! Certificates that are judged by futures, of outdated packages and of challenges, which are accepted with all their claims.
use crate::accepted::{Accepted, wrong_verdict};
use dist_cert::CertKind::{Challenged, Outdated};
use dist_samples::{LIBRARY, Said};

/// Over the library and p, which needs it below a version. Variable 1 says that the archive is as it is; 2 and 3 are the packages
/// as they are; the library's classes are 4, 6 and 8, and its new versions 5, 7 and 9; those of p are 10 and 11.
///
/// The library is challenged by nothing, and p by the library's second and third class.
pub(crate) const BROKEN: &str =
    "distfuture-certificate 1 challenged plain 10000 2 11 16\nq 1 2\nm 1 2\nc 1 1 0 0\nq 1 3\nm 1 2 3\nq 3 4\nm 3 4 5\nq 3 6\nf 6 12 5 1\nq 3 8\nf 8 12 5 2\nc 2 2 3 0 1 2 1 3 0\ne\n";

/// Package a, which needs an older b than the newest one, and b at two versions. Of the two newest ones a is 2 and b is 3.
pub(crate) const OLD: &str =
    "Package: a\nVersion: 1\nDepends: b (<< 2)\n\nPackage: b\nVersion: 1\n\nPackage: b\nVersion: 2\n";

/// Package a is outdated, and b is not.
pub(crate) const STALE: &str =
    "distfuture-certificate 1 outdated plain 10000 2 7 7\nq 2\nf 5\no 1\nq 3\nm 1 3\na 2 1\ne\n";

/// An essential package, and p, which is in conflict with it at each version that is known or may come.
pub(crate) const ESSENTIAL: &str =
    "Package: base\nVersion: 1\nEssential: yes\n\nPackage: p\nVersion: 1\nConflicts: base\n";

/// Something of the essential name is in each future, and p is not.
pub(crate) const SHUT_OUT: &str =
    "distfuture-certificate 1 outdated essential 10000 2 7 9\nm 1 2\na 1 1\nq 3\nf 5 6 9\no 2\ne\n";

/// An essential package, and p, which is in conflict with its later versions from one on.
pub(crate) const MOVING: &str =
    "Package: base\nVersion: 1\nEssential: yes\n\nPackage: p\nVersion: 1\nConflicts: base (>= 2)\n";

/// The essential package has to be there, so its second and third class challenge p.
pub(crate) const CROWDED: &str =
    "distfuture-certificate 1 challenged essential 10000 2 11 18\nm 1 2\nc 1 1 0 0\nm 1 2 3\nm 3 4 5\nq 3 6\nf 6 1 5 12 13 18\nq 3 8\nf 8 2 5 12 13 18\nc 2 2 3 0 1 2 1 3 0\ne\n";

/// Package a, which needs b or c as they are, b, which needs c, and c and d. So a needs c, which is found only by assuming that
/// it is not there.
pub(crate) const FOUR: &str =
    "Package: a\nVersion: 1\nDepends: b (= 1) | c (= 1)\n\nPackage: b\nVersion: 1\nDepends: c (= 1)\n\nPackage: c\nVersion: 1\n\nPackage: d\nVersion: 1\n";

/// One derived line leaves it undecided whether d at its class challenges a.
pub(crate) const MARKED: &str =
    "distfuture-certificate 1 challenged plain 1 4 13 14\nm 1 2 4 5\nq 2 10\nf 5 10 9\nq 2 12\nd 4 -2 0 9 10\nu\nc 1 1 0 3 1 0 4 1\nm 1 3 4\nq 3 10\nf 5 10\nc 2 2 0 3 1 0\nm 1 4\nc 3 3 0 0\nm 1 5\nc 4 4 0 0\ne\n";

/// One derived line leaves it undecided whether a is outdated.
pub(crate) const DOUBTED: &str =
    "distfuture-certificate 1 outdated plain 1 4 13 14\nq 2\nd 4 -2 0 9 10\nu\ny 1\nm 1 3 4\na 2 1\na 3 1\nm 1 5\na 4 2\ne\n";

const ACCEPTED: &[Accepted] = &[
    Accepted {
        stanzas: LIBRARY,
        text: BROKEN,
        kind: Challenged,
        essential: false,
        said: &[
            Said::Challenged(&[], &[]),
            Said::Challenged(&[(0, 1), (0, 2)], &[]),
        ],
    },
    Accepted {
        stanzas: OLD,
        text: STALE,
        kind: Outdated,
        essential: false,
        said: &[Said::Outdated, Said::Alive],
    },
    // What p needs may be a new version.
    Accepted {
        stanzas: LIBRARY,
        text: "distfuture-certificate 1 outdated plain 10000 2 11 16\nq 2\nm 2\na 1 1\nm 3 4 5\na 2 2\ne\n",
        kind: Outdated,
        essential: false,
        said: &[Said::Alive, Said::Alive],
    },
    // Without essential packages the modes are alike.
    Accepted {
        stanzas: LIBRARY,
        text: "distfuture-certificate 1 challenged essential 10000 2 11 16\nm 1 2\nc 1 1 0 0\nm 1 2 3\nm 3 4 5\nq 3 6\nf 6 12 5 1\nq 3 8\nf 8 12 5 2\nc 2 2 0 1 2 1 3 0\ne\n",
        kind: Challenged,
        essential: true,
        said: &[
            Said::Challenged(&[], &[]),
            Said::Challenged(&[(0, 1), (0, 2)], &[]),
        ],
    },
    // In each future something of the essential name is there at mode essential alone, and p is in conflict with it.
    Accepted {
        stanzas: ESSENTIAL,
        text: SHUT_OUT,
        kind: Outdated,
        essential: true,
        said: &[Said::Alive, Said::Outdated],
    },
    Accepted {
        stanzas: ESSENTIAL,
        text: "distfuture-certificate 1 outdated plain 10000 2 7 8\nm 1 2\na 1 1\nm 1 3\na 2 2\ne\n",
        kind: Outdated,
        essential: false,
        said: &[Said::Alive, Said::Alive],
    },
    Accepted {
        stanzas: ESSENTIAL,
        text: "distfuture-certificate 1 challenged essential 10000 2 7 9\nm 1 2\nc 1 1 0 0\nq 1 3\nf 5 6 9\nx 2\ne\n",
        kind: Challenged,
        essential: true,
        said: &[Said::Challenged(&[], &[]), Said::Uninstallable],
    },
    // At mode plain p can be there without the essential package, and then nothing of it challenges p.
    Accepted {
        stanzas: MOVING,
        text: CROWDED,
        kind: Challenged,
        essential: true,
        said: &[
            Said::Challenged(&[], &[]),
            Said::Challenged(&[(0, 1), (0, 2)], &[]),
        ],
    },
    Accepted {
        stanzas: MOVING,
        text: "distfuture-certificate 1 challenged plain 10000 2 11 17\nm 1 2\nc 1 1 0 0\nm 1 3\nc 2 2 0 0\ne\n",
        kind: Challenged,
        essential: false,
        said: &[Said::Challenged(&[], &[]), Said::Challenged(&[], &[])],
    },
    // A name that is not there today may come.
    Accepted {
        stanzas: "Package: p\nVersion: 1\nDepends: foo\n",
        text: "distfuture-certificate 1 outdated plain 10000 1 5 5\nm 2 5\na 1 1\ne\n",
        kind: Outdated,
        essential: false,
        said: &[Said::Alive],
    },
    Accepted {
        stanzas: "Package: p\nVersion: 1\nDepends: foo\n",
        text: "distfuture-certificate 1 challenged plain 10000 1 5 5\nq 1 2\nf 5 3\nx 1\ne\n",
        kind: Challenged,
        essential: false,
        said: &[Said::Uninstallable],
    },
    // No packages, at both kinds.
    Accepted {
        stanzas: "",
        text: "distfuture-certificate 1 outdated plain 10000 0 1 0\ne\n",
        kind: Outdated,
        essential: false,
        said: &[],
    },
    Accepted {
        stanzas: "",
        text: "distfuture-certificate 1 challenged essential 10000 0 1 0\ne\n",
        kind: Challenged,
        essential: true,
        said: &[],
    },
    // A package of which it is left undecided whether it is outdated, and a pair that is.
    Accepted {
        stanzas: FOUR,
        text: DOUBTED,
        kind: Outdated,
        essential: false,
        said: &[Said::Unknown, Said::Alive, Said::Alive, Said::Alive],
    },
    Accepted {
        stanzas: FOUR,
        text: MARKED,
        kind: Challenged,
        essential: false,
        said: &[
            Said::Challenged(&[(2, 0)], &[(3, 0)]),
            Said::Challenged(&[(2, 0)], &[]),
            Said::Challenged(&[], &[]),
            Said::Challenged(&[], &[]),
        ],
    },
];

#[test]
fn certificates_on_futures_are_accepted(rt: HostRuntime) {
    assert_eq!(rt; wrong_verdict(rt.alloc(), ACCEPTED), None);
}
