//! Worked rows of `follow`: journals and what they leave, each fault of one, and faults of the other files.
use dist_app::Status;
use dist_outside::What;
use dist_top_rows::check_rows::{BAD_LINE, MAYBE_CHALLENGED, MAYBE_OUTDATED, TEN};
use dist_top_rows::follow_rows::{BAD_JOURNAL, FOLLOWED, NOT_ABOVE, STOPPED};
use dist_top_rows::{Failing, NOTHING, Row, Table, first_wrong};
use std::test::Fail;

const JOURNALS: [Row; 8] = [
    FOLLOWED,
    Row {
        list: "",
        out: "steps 0\npackages 2\n",
        ..FOLLOWED
    },
    // A version of the class behind the bound breaks the program as well; it is told as it is written in the stanza.
    Row {
        list: "= upload libx 3\nPackage: libx\nVersion: 0:3\n",
        out: "steps 1\npackages 2\nbroken p=1 by libx=1 at 0:3\n",
        ..FOLLOWED
    },
    // A version below the bound breaks nothing; of two uploads the later one counts.
    Row {
        list: "= upload libx 1.5\nPackage: libx\nVersion: 1.5\n",
        out: "steps 1\npackages 2\n",
        ..FOLLOWED
    },
    Row {
        list: "= upload libx 1.5\nPackage: libx\nVersion: 1.5\n\n= upload libx 2\nPackage: libx\nVersion: 2\n",
        out: "steps 2\npackages 2\nbroken p=1 by libx=1 at 2\n",
        ..FOLLOWED
    },
    // Nothing is told of a package that has moved itself, nor of one that went, nor by a cluster that is not whole.
    Row {
        list: "= upload libx 2\nPackage: libx\nVersion: 2\n\n= upload p 2\nPackage: p\nVersion: 2\n",
        out: "steps 2\npackages 2\n",
        ..FOLLOWED
    },
    Row {
        list: "= removal p\n= upload libx 2\nPackage: libx\nVersion: 2\n",
        out: "steps 2\npackages 1\n",
        ..FOLLOWED
    },
    Row {
        list: "= upload libx 2\n",
        out: "steps 1\npackages 1\n",
        ..FOLLOWED
    },
];

const FOLLOW: &[&str] = &["follow", "packages", "cert", "list"];

/// A journal that moves two packages.
const MOVE_TWO: &str =
    "= upload d 2\nPackage: d\nVersion: 2\n\n= upload c 2\nPackage: c\nVersion: 2\n";

const CERTIFICATES: [Row; 4] = [
    // The status is 0 also where claims are left undecided, of which nothing is told. Lines go by clusters, and then by packages.
    Row {
        words: FOLLOW,
        list: MOVE_TWO,
        status: Status::Done,
        out: "steps 2\npackages 4\nbroken a=1 by c=1 at 2\nbroken b=1 by c=1 at 2\n",
        ..MAYBE_CHALLENGED
    },
    // Claims of the other kinds tell of nothing that is broken.
    Row {
        words: FOLLOW,
        list: MOVE_TWO,
        status: Status::Done,
        out: "steps 2\npackages 4\n",
        ..MAYBE_OUTDATED
    },
    Row {
        words: FOLLOW,
        list: "= upload b 2\nPackage: b\nVersion: 2\n",
        out: "steps 1\npackages 2\n",
        ..TEN
    },
    // A journal starts from the newest versions.
    Row {
        packages: "Package: a\nVersion: 1\n\nPackage: a\nVersion: 2\n",
        cert: Some(
            "distfuture-certificate 1 strong plain 10000 2 2 1\nq 1\nm 1\ns 1 1 0 0\nq 2\nm 2\ns 2 2 0 0\ne\n",
        ),
        list: "= upload a 3\nPackage: a\nVersion: 3\n",
        out: "steps 1\npackages 1\n",
        ..FOLLOWED
    },
];

/// An architecture, a source of two packages, and a name that one of them provides.
const SOURCE: &str =
    "Package: a\nVersion: 1\nArchitecture: amd64\nSource: s\nProvides: m\n\nPackage: b\nVersion: 1\nArchitecture: amd64\nSource: s\n";

/// What a bad journal over it comes to, but for the line on `err`.
const BAD_SOURCE_JOURNAL: Row = Row {
    packages: SOURCE,
    cert: Some(
        "distfuture-certificate 1 strong plain 10000 2 2 0\nq 1\nm 1 2\nq 1 -2\nm 1\ns 1 1 2 0 0\nq 2\nq 2 -1\nm 2\ns 2 1 3 0 0\ne\n",
    ),
    ..BAD_JOURNAL
};

const FAULTS: [Row; 17] = [
    NOT_ABOVE,
    Row {
        list: "= removal p\n= removal p\n",
        err: "distfuture: bad journal at line 2: NotHeld\n",
        ..BAD_JOURNAL
    },
    Row {
        list: "= upload libx 2\nPackage: libx\nVersion: 2\nProvides: abi\n\n= new\nPackage: foo\nVersion: 1\n",
        err: "distfuture: bad journal at line 1: WrongProvides\n",
        ..BAD_JOURNAL
    },
    Row {
        list: "\nPackage: foo\n",
        err: "distfuture: bad journal at line 2: Stray\n",
        ..BAD_JOURNAL
    },
    Row {
        list: "= removal p\n\nx\n",
        err: "distfuture: bad journal at line 3: Stray\n",
        ..BAD_JOURNAL
    },
    Row {
        list: "= remove p\n",
        err: "distfuture: bad journal at line 1: BadStep\n",
        ..BAD_JOURNAL
    },
    Row {
        list: "\n= upload foo 2\n",
        err: "distfuture: bad journal at line 2: UnknownName\n",
        ..BAD_JOURNAL
    },
    Row {
        list: "= new\nPackage: foo\n\nno colon\n",
        err: "distfuture: bad journal at line 2: BadBlock\n",
        ..BAD_JOURNAL
    },
    Row {
        list: "= new\nPackage: foo\nVersion: 1\nArchitecture: amd64\n",
        err: "distfuture: bad journal at line 1: OtherArchitecture\n",
        ..BAD_JOURNAL
    },
    Row {
        list: "= upload libx 2\nPackage: p\nVersion: 2\n",
        err: "distfuture: bad journal at line 1: NotMember\n",
        ..BAD_JOURNAL
    },
    Row {
        list: "= upload libx 2\nPackage: libx\nVersion: 3\n",
        err: "distfuture: bad journal at line 1: NotAtVersion\n",
        ..BAD_JOURNAL
    },
    Row {
        list: "= new\n",
        err: "distfuture: bad journal at line 1: NotOne\n",
        ..BAD_JOURNAL
    },
    Row {
        list: "= removal p\n= new\nPackage: p\nVersion: 2\n",
        err: "distfuture: bad journal at line 2: NameTaken\n",
        ..BAD_JOURNAL
    },
    Row {
        list: "= new\nPackage: foo\nVersion: 1\nProvides: x\n",
        err: "distfuture: bad journal at line 1: HasProvides\n",
        ..BAD_JOURNAL
    },
    Row {
        list: "= new\nPackage: m\nVersion: 1\n",
        err: "distfuture: bad journal at line 1: NameVirtual\n",
        ..BAD_SOURCE_JOURNAL
    },
    // A cluster goes by any of its names, and moves as a whole: what is left of it is at one version.
    Row {
        list: "= upload b 2\nPackage: a\nVersion: 2\nSource: s\nProvides: m\n\nPackage: b\nVersion: 3\nSource: s\n",
        err: "distfuture: bad journal at line 1: NotAtVersion\n",
        ..BAD_SOURCE_JOURNAL
    },
    // The top is not all that a version has to be above.
    Row {
        list: "= upload libx 3\nPackage: libx\nVersion: 3\n\n= upload libx 2\nPackage: libx\nVersion: 2\n",
        err: "distfuture: bad journal at line 5: NotAbove\n",
        ..BAD_JOURNAL
    },
];

/// What a run that passes a number comes to, but for the line on `err`.
const TOO_LARGE: Row = Row {
    status: Status::TooLarge,
    ..STOPPED
};

const STOPS: [Row; 11] = [
    // PACKAGES comes first, then CERT, and a fault of CERT is told as `check` tells it.
    Row {
        packages: "no colon\n",
        cert: Some("x\n"),
        status: Status::BadPackages,
        err: "distfuture: bad packages at line 1: NoColon\n",
        ..STOPPED
    },
    Row {
        cert: Some("x\n"),
        list: "x\n",
        status: Status::CertificateRefused,
        err: "distfuture: certificate refused at line 1: BadHeader\n",
        ..STOPPED
    },
    Row {
        words: FOLLOW,
        list: "x\n",
        ..BAD_LINE
    },
    // A certificate of the present is judged before there are variables of futures.
    Row {
        words: FOLLOW,
        list: "x\n",
        at_most: Some((What::Variables, 3)),
        status: Status::TooLarge,
        out: "",
        err: "distfuture: too large: Variables\n",
        ..TEN
    },
    Row {
        list: "x\n",
        at_most: Some((What::Variables, 3)),
        err: "distfuture: too large: Variables\n",
        ..TOO_LARGE
    },
    Row {
        at_most: Some((What::Bytes, 65)),
        err: "distfuture: too large: Bytes\n",
        ..TOO_LARGE
    },
    // A block of more stanzas than the limit, behind a step that is made, and before a fault that comes later.
    Row {
        list: "= removal p\n= new\nPackage: a\nVersion: 1\n\nPackage: b\nVersion: 1\n\nPackage: c\nVersion: 1\n= x\n",
        at_most: Some((What::Stanzas, 2)),
        err: "distfuture: too large: Stanzas\n",
        ..TOO_LARGE
    },
    Row {
        words: &["follow", "packages", "cert", "missing"],
        status: Status::ReadFault,
        err: "distfuture: read fault\n",
        ..STOPPED
    },
    Row {
        words: &["follow", "packages", "missing", "list"],
        status: Status::ReadFault,
        err: "distfuture: read fault\n",
        ..STOPPED
    },
    Row {
        words: &["follow", "missing", "cert", "list"],
        status: Status::ReadFault,
        err: "distfuture: read fault\n",
        ..STOPPED
    },
    Row {
        failing: Failing { out: 2, ..NOTHING },
        status: Status::WriteFault,
        out: "steps 2\npa",
        err: "distfuture: write fault\n",
        ..STOPPED
    },
];

const TABLES: [Table; 4] = [
    ("journals are followed", &JOURNALS),
    ("certificates of all kinds are taken", &CERTIFICATES),
    ("faults of journals are told", &FAULTS),
    ("stops are told", &STOPS),
];

#[test]
fn follow_is_told(rt: HostRuntime) -> Result<(), Fail> {
    assert_eq!(rt; first_wrong(rt.alloc(), &TABLES)?, None);
    Ok(())
}
