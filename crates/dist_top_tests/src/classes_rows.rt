//! Worked rows of `classes`: whole reports.
use crate::classes_reports::{
    ALONE_REPORT, ANY_REPORT, CUT_REPORT, NEAR_REPORT, NEW_NAME_REPORT, NO_NAMES_REPORT,
    PYTHON_REPORT, TOGETHER_REPORT,
};
use crate::hold;
use dist_app::Status;
use dist_outside::What;
use dist_samples::PYTHON;
use dist_top_rows::classes_rows::{BAD_STANZA, CUT, NONE, STOPPED};
use dist_top_rows::{Failing, NOTHING, Row, Table, first_wrong};

const CUTS: &[Row] = &[
    NONE,
    CUT,
    Row {
        packages: "Package: a\nVersion: 1\nArchitecture: all\n
Package: p\nVersion: 1\nArchitecture: all\nDepends: a (<< 1-0A)\n",
        out: NEAR_REPORT,
        ..NONE
    },
    Row {
        packages: "Package: a\nVersion: 1\nArchitecture: all\nConflicts: b (>> 2)\n
Package: b\nSource: a (1)\nVersion: 1+b1\nArchitecture: all\n",
        out: TOGETHER_REPORT,
        ..NONE
    },
];

const NAMES: &[Row] = &[
    Row {
        packages: "Package: p\nVersion: 1\nArchitecture: all\nDepends: foo (<< 1)\n",
        out: NEW_NAME_REPORT,
        ..NONE
    },
    // Of the versions of a name the newest counts, and what an older one depends on does not.
    Row {
        packages: "Package: p\nVersion: 1\nDepends: bar\n\nPackage: p\nVersion: 2\nDepends: foo\n",
        out: ANY_REPORT,
        ..NONE
    },
    Row {
        packages: "Package: p\nVersion: 1\nDepends: foo\n",
        out: ALONE_REPORT,
        ..NONE
    },
];

const ARCHIVE_STANZA: Row = Row {
    packages: PYTHON,
    out: PYTHON_REPORT,
    ..NONE
};

const DEPENDENCIES: &[Row] = &[
    // Names come from dependencies, and bounds from conflicts too.
    Row {
        packages: "Package: p\nVersion: 1\nConflicts: foo\n",
        out: NO_NAMES_REPORT,
        ..NONE
    },
    Row {
        packages: "Package: p\nVersion: 1\nDepends: foo\nConflicts: foo (<< 2)\n",
        out: CUT_REPORT,
        ..NONE
    },
    // Qualifiers are those of the file.
    Row {
        packages: "Package: p\nVersion: 1\nArchitecture: amd64\nDepends: foo:amd64 (<< 2)\n",
        out: CUT_REPORT,
        ..NONE
    },
    Row {
        packages: "Package: p\nVersion: 1\nArchitecture: amd64\nDepends: foo:i386 (<< 2)\n",
        out: NO_NAMES_REPORT,
        ..NONE
    },
];

const STOPS: &[Row] = &[
    Row {
        at_most: Some((What::Bytes, 10)),
        err: "distfuture: too large: Bytes\n",
        ..STOPPED
    },
    Row {
        at_most: Some((What::Stanzas, 1)),
        err: "distfuture: too large: Stanzas\n",
        ..STOPPED
    },
    Row {
        words: &["classes", "missing"],
        status: Status::ReadFault,
        err: "distfuture: read fault\n",
        ..STOPPED
    },
    BAD_STANZA,
    Row {
        failing: Failing { out: 2, ..NOTHING },
        status: Status::WriteFault,
        out: "report: \"c",
        err: "distfuture: write fault\n",
        ..STOPPED
    },
];

const TABLES: &[Table] = &[
    ("bounds cut classes", CUTS),
    ("new names are told", NAMES),
    ("an archive stanza is told", &[ARCHIVE_STANZA]),
    ("names come from dependencies", DEPENDENCIES),
    ("stops are told", STOPS),
];

#[test]
fn classes_are_reported(rt: HostRuntime) {
    hold(&rt, first_wrong(rt.alloc(), TABLES));
}
