//! Worked rows of `steps`: plans, packages that keep a later archive from being a future, and faults of each file.
use crate::hold;
use dist_app::Status;
use dist_outside::What;
use dist_samples::LIBRARY;
use dist_top_rows::steps_rows::{MISFIT, MOVED, STOPPED};
use dist_top_rows::{Failing, NOTHING, Row, Table, first_wrong};

/// Two packages of one source.
const PAIR: &str = "Package: a\nVersion: 1\nSource: s\n\nPackage: b\nVersion: 1\nSource: s\n";

const PLANS: &[Row] = &[
    MOVED,
    // Nothing changed, and PACKAGES is its own later file.
    Row {
        list: LIBRARY,
        out: "",
        ..MOVED
    },
    Row {
        words: &["steps", "packages", "packages"],
        out: "",
        ..MOVED
    },
    // All go, one by one.
    Row {
        list: "",
        out: "removal libx\nremoval p\n",
        ..MOVED
    },
    Row {
        packages: "",
        list: "Package: b\nVersion: 1\n\nPackage: a\nVersion: 2\n",
        out: "new a=2\nnew b=1\n",
        ..MOVED
    },
    // The names of an upload stand in one line, and its version is the first one's, in its own text.
    Row {
        packages: PAIR,
        list: "Package: b\nVersion: 2\n\nPackage: a\nVersion: 0:2\n",
        out: "upload a=1 at 0:2: a, b\n",
        ..MOVED
    },
    // Of the versions of a name the newest counts, in both files.
    Row {
        packages: "Package: a\nVersion: 2\n\nPackage: a\nVersion: 1\n",
        list: "Package: a\nVersion: 1\nDepends: b\n\nPackage: a\nVersion: 3\n",
        out: "upload a=2 at 3: a\n",
        ..MOVED
    },
];

const MISFITS: &[Row] = &[
    MISFIT,
    Row {
        list: "Package: libx\nVersion: 0\n\nPackage: foo\nVersion: 1\n",
        out: "not a future at libx=0\n",
        ..MISFIT
    },
    Row {
        packages: PAIR,
        list: "Package: a\nVersion: 2\n\nPackage: b\nVersion: 3\n",
        out: "not a future at b=3\n",
        ..MISFIT
    },
];

const ARCHITECTURES: &[Row] = &[
    // The first package tells that the architecture is another one.
    Row {
        packages: "Package: a\nVersion: 1\nArchitecture: amd64\n",
        list: "Package: b\nVersion: 1\nArchitecture: i386\n\nPackage: a\nVersion: 1\nArchitecture: all\n",
        out: "not a future at a=1\n",
        ..MISFIT
    },
    Row {
        packages: "Package: a\nVersion: 1\n",
        list: "Package: a\nVersion: 1\nArchitecture: amd64\n",
        out: "not a future at a=1\n",
        ..MISFIT
    },
    Row {
        packages: "Package: a\nVersion: 1\nArchitecture: all\n",
        list: "Package: a\nVersion: 2\nArchitecture: amd64\n",
        out: "not a future at a=2\n",
        ..MISFIT
    },
    Row {
        packages: "Package: a\nVersion: 1\nArchitecture: amd64\n",
        list: "Package: a\nVersion: 2\nArchitecture: amd64\n",
        out: "upload a=1 at 2: a\n",
        ..MOVED
    },
    Row {
        packages: "Package: a\nVersion: 1\nArchitecture: amd64\n",
        list: "Package: a\nVersion: 2\n",
        out: "upload a=1 at 2: a\n",
        ..MOVED
    },
];

const STOPS: &[Row] = &[
    // Lines are those of the file that has the fault, and PACKAGES comes first.
    Row {
        list: "Package: libx\nVersion: 2\n\nno colon\n",
        status: Status::BadPackages,
        err: "distfuture: bad packages at line 4: NoColon\n",
        ..STOPPED
    },
    Row {
        packages: "no colon\n",
        list: "\nno colon\n",
        status: Status::BadPackages,
        err: "distfuture: bad packages at line 1: NoColon\n",
        ..STOPPED
    },
    Row {
        at_most: Some((What::Bytes, 60)),
        status: Status::TooLarge,
        err: "distfuture: too large: Bytes\n",
        ..STOPPED
    },
    Row {
        packages: "Package: a\nVersion: 1\n",
        list: LIBRARY,
        at_most: Some((What::Bytes, 60)),
        status: Status::TooLarge,
        err: "distfuture: too large: Bytes\n",
        ..STOPPED
    },
    Row {
        at_most: Some((What::Stanzas, 1)),
        status: Status::TooLarge,
        err: "distfuture: too large: Stanzas\n",
        ..STOPPED
    },
    Row {
        packages: "Package: a\nVersion: 1\n",
        at_most: Some((What::Stanzas, 1)),
        status: Status::TooLarge,
        err: "distfuture: too large: Stanzas\n",
        ..STOPPED
    },
    // The space of PACKAGES is made before LATER is read.
    Row {
        list: "no colon\n",
        at_most: Some((What::Variables, 3)),
        status: Status::TooLarge,
        err: "distfuture: too large: Variables\n",
        ..STOPPED
    },
    Row {
        words: &["steps", "missing", "list"],
        status: Status::ReadFault,
        err: "distfuture: read fault\n",
        ..STOPPED
    },
    Row {
        words: &["steps", "packages", "missing"],
        status: Status::ReadFault,
        err: "distfuture: read fault\n",
        ..STOPPED
    },
    Row {
        failing: Failing { out: 2, ..NOTHING },
        status: Status::WriteFault,
        out: "upload lib",
        err: "distfuture: write fault\n",
        ..STOPPED
    },
];

const TABLES: &[Table] = &[
    ("plans are told", PLANS),
    ("a package that does not fit is told", MISFITS),
    ("another architecture is told", ARCHITECTURES),
    ("stops are told", STOPS),
];

#[test]
fn steps_are_told(rt: HostRuntime) {
    hold(&rt, first_wrong(rt.alloc(), TABLES));
}
