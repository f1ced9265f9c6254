//! Worked rows: each fault, at its line, after which the steps before it stand made.
use crate::journals::{Row, wrong_row};
use dist_archive::StepError::{
    HasProvides, NameTaken, NameVirtual, NotAbove, NotAtVersion, NotHeld, NotMember, NotOne,
    OtherArchitecture, WrongProvides,
};
use dist_journal::FollowError::{Bad, TooMany};
use dist_journal::JournalFault::{BadBlock, BadStep, Refused, Stray, UnknownName};
use dist_samples::LIBRARY;

const BOTH: &[(&str, &str)] = &[("libx", "1"), ("p", "1")];

const FORMS: &[Row] = &[
    (
        "a line before the first step line",
        "\n \nPackage: foo\nVersion: 1\n= removal x y\n",
        Err(Bad(3, Stray)),
        BOTH,
    ),
    (
        "an equals sign alone is no step line",
        "=\n= removal p\n",
        Err(Bad(1, Stray)),
        BOTH,
    ),
    (
        "a line behind a removal, before what the archive says of it",
        "= removal p\n\n= removal p\n\nx\n",
        Err(Bad(5, Stray)),
        &[("libx", "1")],
    ),
    (
        "a carriage return is no blank",
        "= removal p\n\r\n",
        Err(Bad(2, Stray)),
        BOTH,
    ),
    (
        "a carriage return belongs to the last word",
        "= new\r\nPackage: foo\nVersion: 1\n",
        Err(Bad(1, BadStep)),
        BOTH,
    ),
    (
        "no step has two spaces between its words",
        "= removal  p\n",
        Err(Bad(1, BadStep)),
        BOTH,
    ),
    (
        "nor one at its end",
        "= removal p\n= new \n",
        Err(Bad(2, BadStep)),
        &[("libx", "1")],
    ),
    (
        "nor two at its beginning",
        "=  new\n",
        Err(Bad(1, BadStep)),
        BOTH,
    ),
    ("words of no step", "= \n", Err(Bad(1, BadStep)), BOTH),
    (
        "a name that is none, of a removal",
        "= removal ?\n",
        Err(Bad(1, BadStep)),
        BOTH,
    ),
    (
        "a version that is none, before a name that is unknown",
        "= upload nobody 1_2\n",
        Err(Bad(1, BadStep)),
        BOTH,
    ),
    (
        "an upload of five words",
        "= upload libx 2 3\n",
        Err(Bad(1, BadStep)),
        BOTH,
    ),
    (
        "a name that no package has, before what is wrong with the block",
        "= removal libx\n= upload abi 2\nx\n",
        Err(Bad(2, UnknownName)),
        &[("p", "1")],
    ),
    (
        "a block that is no Packages file, before what the archive says of the step",
        "= upload libx 1\nPackage: libx\nVersion: 1\n\nPackage: p\nDepends: q\n= new\n",
        Err(Bad(5, BadBlock)),
        BOTH,
    ),
    (
        "more stanzas than a block may have, before a fault of the third",
        "= removal p\n= new\nPackage: a\nVersion: 1\n\nPackage: a\nVersion: 1\n\nx\n",
        Err(TooMany),
        &[("libx", "1")],
    ),
];

const REFUSALS: &[Row] = &[
    (
        "a block of another architecture",
        "= new\nPackage: a\nVersion: 1\nArchitecture: i386\n",
        Err(Bad(1, Refused(OtherArchitecture))),
        BOTH,
    ),
    (
        "a version that is not above",
        "= upload libx 1\nPackage: libx\nVersion: 1\n",
        Err(Bad(1, Refused(NotAbove))),
        BOTH,
    ),
    (
        "a package of another cluster",
        "= upload libx 2\nPackage: p\nVersion: 2\n",
        Err(Bad(1, Refused(NotMember(0)))),
        BOTH,
    ),
    (
        "a package at another version",
        "\n= upload libx 2\nPackage: libx\nVersion: 3\n",
        Err(Bad(2, Refused(NotAtVersion(0)))),
        BOTH,
    ),
    (
        "entries that the member did not have",
        "= upload libx 2\nPackage: libx\nVersion: 2\nProvides: abi\n\n= new\nPackage: foo\nVersion: 1\n",
        Err(Bad(1, Refused(WrongProvides(0)))),
        BOTH,
    ),
    (
        "a removal for the second time",
        "= removal p\n= removal p\n",
        Err(Bad(2, Refused(NotHeld))),
        &[("libx", "1")],
    ),
    (
        "a new name of two packages",
        "= new\nPackage: a\nVersion: 1\n\nPackage: b\nVersion: 1\n",
        Err(Bad(1, Refused(NotOne))),
        BOTH,
    ),
    (
        "a new name of none",
        "= new\n\n= removal p\n",
        Err(Bad(1, Refused(NotOne))),
        BOTH,
    ),
    (
        "a new name that a package has",
        "= new\nPackage: p\nVersion: 2\n",
        Err(Bad(1, Refused(NameTaken))),
        BOTH,
    ),
    (
        "a new name that provides something",
        "= new\nPackage: a\nVersion: 1\nProvides: x\n",
        Err(Bad(1, Refused(HasProvides))),
        BOTH,
    ),
];

const PROVIDED: &str = "Package: p\nVersion: 1\nProvides: m\n";

const REFUSED: &[Row] = &[(
    "a new name that is provided",
    "= removal p\n\n= new\nPackage: m\nVersion: 1\n",
    Err(Bad(3, Refused(NameVirtual))),
    &[],
)];

#[test]
fn faults_are_told_at_their_lines(rt: HostRuntime) {
    assert_eq!(rt; wrong_row(rt.alloc(), LIBRARY, FORMS), None);
}

#[test]
fn refusals_are_told_at_the_step_line(rt: HostRuntime) {
    assert_eq!(rt; wrong_row(rt.alloc(), LIBRARY, REFUSALS), None);
    assert_eq!(rt; wrong_row(rt.alloc(), PROVIDED, REFUSED), None);
}
