//! Stanzas of a few packages, and a certificate over some of them.

/// Package a, which depends on b, and b.
pub const TWO: &str = "Package: a\nVersion: 1\nDepends: b\n\nPackage: b\nVersion: 1\n";

/// Package a, and b, which is essential.
pub const PAIR: &str = "Package: a\nVersion: 1\n\nPackage: b\nVersion: 1\nEssential: yes\n";

/// The certificate of a, which depends on b, and b.
pub const TEN: &str =
    "distfuture-certificate 1 strong plain 10000 2 2 1\nq 1\nm 1 2\nq 1 -2\nf 1\ns 1 1 0 2 0\nq 2\nm 2\ns 2 2 0 0\ne\n";

/// A library, and p, which needs it below a version.
pub const LIBRARY: &str =
    "Package: libx\nVersion: 1\n\nPackage: p\nVersion: 1\nDepends: libx (<< 2)\n";

/// A certificate over it: later versions of the library at and above the bound break the program.
pub const CHALLENGES: &str =
    "distfuture-certificate 1 challenged plain 10000 2 11 16\nq 1 2\nm 1 2\nc 1 1 0 0\nq 1 3\nm 1 2 3\nq 3 4\nm 3 4 5\nq 3 6\nf 6 12 5 1\nq 3 8\nf 8 12 5 2\nc 2 2 3 0 1 2 1 3 0\ne\n";

/// A stanza of Debian 12.
pub const PYTHON: &str =
    "Package: python3\nSource: python3-defaults (3.11.2-1)\nVersion: 3.11.2-1+b1\nArchitecture: amd64\nReplaces: python3-minimal (<< 3.1.2-2)\nProvides: python3-profiler\nDepends: python3.11:any (>= 3.11.2-1~),\n libpython3-stdlib (= 3.11.2-1+b1)\nPre-Depends: python3-minimal (= 3.11.2-1+b1)\nTag: devel::interpreter,\n implemented-in::c";
