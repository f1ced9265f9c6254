//! Files, and their repository or their first fault.
use dist_package::{
    Fault, Kind, PackagesError, RelationField, each_text_is_answered, kinds_carry_no_memory,
    packages_are_exact, packages_are_spelled, read_packages, relations_take_bytes,
};
use dist_relation::RelationError;
use dist_version::VersionError;
use std::alloc::Global;

/// A file, and its first fault.
#[derive(Clone, Copy)]
struct Faulty {
    text: &'static str,
    line: u64,
    kind: Kind,
}

/// At least one file for each kind of fault, and files that show which of several faults is the first.
const FAULTY: &[Faulty] = &[
    Faulty {
        text: "Package: a\nVersion: 1\nDescription\n",
        line: 3,
        kind: Kind::NoColon,
    },
    Faulty {
        text: "Package: a\n#: 1\n",
        line: 2,
        kind: Kind::BadFieldName,
    },
    Faulty {
        text: "\n Package: a\n",
        line: 2,
        kind: Kind::OrphanContinuation,
    },
    Faulty {
        text: "Package: a\nVersion: 1\npackage: a\n",
        line: 3,
        kind: Kind::DoubleField,
    },
    Faulty {
        text: "\nVersion: 1\n",
        line: 2,
        kind: Kind::NoPackage,
    },
    Faulty {
        text: "Version: 1_\nPackage: a b\n",
        line: 2,
        kind: Kind::BadPackageName,
    },
    Faulty {
        text: "Package:\nVersion: 1\n",
        line: 1,
        kind: Kind::BadPackageName,
    },
    Faulty {
        text: "Source: ()\nPackage: a\n",
        line: 1,
        kind: Kind::NoVersion,
    },
    Faulty {
        text: "Package: a\nSource: ()\nVersion: 1_2\n",
        line: 3,
        kind: Kind::BadVersionText(VersionError::BadByte(1)),
    },
    Faulty {
        text: "Package: a\nVersion:\n",
        line: 2,
        kind: Kind::BadVersionText(VersionError::Empty),
    },
    Faulty {
        text: "Package: a\nVersion: 1\nArchitecture: a b\nSource: s (1) x\n",
        line: 4,
        kind: Kind::BadSource,
    },
    Faulty {
        text: "Package: a\nVersion: 1\nSource: s (1\n",
        line: 3,
        kind: Kind::BadSource,
    },
    Faulty {
        text: "Package: a\nVersion: 1\nSource: s ()\n",
        line: 3,
        kind: Kind::BadSource,
    },
    Faulty {
        text: "Package: a\nVersion: 1\nSource:\n",
        line: 3,
        kind: Kind::BadSource,
    },
    Faulty {
        text: "Package: a\nVersion: 1\nDepends: |\nArchitecture: a b\n",
        line: 4,
        kind: Kind::BadArchitecture,
    },
    Faulty {
        text: "Package: a\nVersion: 1\nArchitecture: i386\n\nPackage: b\nVersion: 1\nArchitecture: amd64\n",
        line: 7,
        kind: Kind::TwoArchitectures,
    },
    Faulty {
        text: "Package: a\nVersion: 1\nDepends: |\nPre-Depends: b (\n",
        line: 4,
        kind: Kind::Relation(RelationField::PreDepends, RelationError::BadOp(3)),
    },
    Faulty {
        text: "Package: a\nVersion: 1\nBreaks: a |\nDepends: a (= 1_2)\n",
        line: 4,
        kind: Kind::Relation(
            RelationField::Depends,
            RelationError::BadVersion(5, VersionError::BadByte(1)),
        ),
    },
    Faulty {
        text: "Package: a\nVersion: 1\nProvides: |\nBreaks: a b\nConflicts: a | b\n",
        line: 5,
        kind: Kind::Relation(RelationField::Conflicts, RelationError::BarNotAllowed(2)),
    },
    Faulty {
        text: "Package: a\nVersion: 1\nProvides: |\nBreaks: a b\n",
        line: 4,
        kind: Kind::Relation(RelationField::Breaks, RelationError::Trailing(2)),
    },
    Faulty {
        text: "Package: a\nVersion: 1\nProvides: a (>= 1)\n",
        line: 3,
        kind: Kind::Relation(RelationField::Provides, RelationError::OpInProvides(3)),
    },
    Faulty {
        text: "Package: a\nVersion: 1\nProvides: a (= 1\n",
        line: 3,
        kind: Kind::Relation(RelationField::Provides, RelationError::Unclosed(6)),
    },
    Faulty {
        text: "Package: a\nVersion: 1\nDepends: a, :\n",
        line: 3,
        kind: Kind::Relation(RelationField::Depends, RelationError::BadName(3)),
    },
    Faulty {
        text: "Package: a\nVersion: 1.0\n\nPackage: a\nVersion: 1.0-0\n",
        line: 4,
        kind: Kind::Clash(1),
    },
    Faulty {
        text: "Package: a\nVersion: 1\n\nPackage: a\nVersion: 1\n\nPackage: a\nVersion: 1\nDepends: b\n",
        line: 7,
        kind: Kind::Clash(1),
    },
    Faulty {
        text: "Package: a\nVersion: 1\n\nPackage: b\n\nPackage: c\nVersion\n",
        line: 4,
        kind: Kind::NoVersion,
    },
];

/// How many packages a file has, or why it is refused.
fn packages(alloc: Global, text: &str, stanzas: u32) -> Result<u32, PackagesError> {
    match read_packages(alloc, text.as_bytes(), stanzas) {
        Ok(repository) => {
            let count = repository.len();
            drop(repository);
            Ok(count)
        }
        Err(error) => Err(error),
    }
}

/// Whether a file has the fault of its row.
fn has_fault(alloc: Global, row: &Faulty) -> bool {
    let fault = Fault {
        line: row.line,
        kind: row.kind,
    };
    packages(alloc, row.text, 200_000) == Err(PackagesError::Bad(fault))
}

/// The place of the first row whose file has another fault, or none.
fn first_without_fault(alloc: Global, rows: &[Faulty]) -> Option<usize> {
    for place in 0..rows.len() {
        if !has_fault(alloc, &rows[place]) {
            return Some(place);
        }
    }
    None
}

#[test]
fn first_faults(rt: HostRuntime) {
    assert_eq!(rt; first_without_fault(rt.alloc(), FAULTY), None);
}

/// A file of at most so many stanzas, and how many packages it has or why it is refused.
#[derive(Clone, Copy)]
struct Counted {
    text: &'static str,
    stanzas: u32,
    packages: Result<u32, PackagesError>,
}

/// One package, written twice.
const TWICE: &str =
    "Package: a\nVersion: 1.0\n\nPackage: a\nVersion: 1.0\nArchitecture: amd64\nTag: x\n";

const COUNTED: &[Counted] = &[
    Counted {
        text: TWICE,
        stanzas: 2,
        packages: Ok(1),
    },
    Counted {
        text: TWICE,
        stanzas: 1,
        packages: Err(PackagesError::TooMany),
    },
    Counted {
        text: "",
        stanzas: 0,
        packages: Ok(0),
    },
    Counted {
        text: "\n\na\n",
        stanzas: 0,
        packages: Err(PackagesError::TooMany),
    },
];

/// The place of the first row that counts otherwise, or none.
fn first_miscounted(alloc: Global, rows: &[Counted]) -> Option<usize> {
    for place in 0..rows.len() {
        let row = rows[place];
        if packages(alloc, row.text, row.stanzas) != row.packages {
            return Some(place);
        }
    }
    None
}

#[test]
fn stanzas_are_counted(rt: HostRuntime) {
    assert_eq!(rt; first_miscounted(rt.alloc(), COUNTED), None);
}

#[test]
fn the_laws_hold() {
    kinds_carry_no_memory();
    packages_are_exact();
    each_text_is_answered();
    packages_are_spelled();
    relations_take_bytes();
}
