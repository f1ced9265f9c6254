//! Rows of which calls fail in turn.
use dist_app::Status;
use dist_top_rows::{
    After, Row, check_explain_rows, check_rows, classes_rows, essential_rows, explain_rows,
    follow_rows, futures_rows, health_rows, repair_rows, steps_rows, strong_rows, trial_rows,
};

/// A row of which calls fail in turn, and how many of its first calls of the desk read.
#[derive(Clone, Copy)]
pub(crate) struct Walk {
    pub(crate) name: &'static str,
    pub(crate) reads: u32,
    pub(crate) row: Row,
}

/// More than any row has.
const ALL: u32 = u32::MAX;

/// Rows that print an answer.
pub(crate) const ANSWERED: &[Walk] = &[
    // A start, reads of seven bytes, the last perhaps of fewer, and one that comes to the end. Then the certificate is made.
    Walk {
        name: "strong",
        reads: 12,
        row: futures_rows::STRONG,
    },
    Walk {
        name: "outdated",
        reads: 12,
        row: futures_rows::OUTDATED,
    },
    Walk {
        name: "challenged",
        reads: 12,
        row: futures_rows::CHALLENGED,
    },
    Walk {
        name: "strong --essential",
        reads: 15,
        row: essential_rows::STRONG,
    },
    Walk {
        name: "outdated --essential",
        reads: 15,
        row: essential_rows::OUTDATED,
    },
    Walk {
        name: "challenged --essential",
        reads: 15,
        row: essential_rows::CHALLENGED,
    },
    Walk {
        name: "explain",
        reads: 12,
        row: explain_rows::EXPLAINED,
    },
    Walk {
        name: "repair",
        reads: 12,
        row: repair_rows::REPAIRED,
    },
    // Commands that only read, and one that calls no desk.
    Walk {
        name: "check of strong",
        reads: ALL,
        row: check_rows::TEN,
    },
    Walk {
        name: "check of outdated",
        reads: ALL,
        row: check_rows::OUTDATED,
    },
    Walk {
        name: "check of challenged",
        reads: ALL,
        row: check_rows::CHALLENGED,
    },
    Walk {
        name: "check of strong --essential",
        reads: ALL,
        row: essential_rows::CHECK_STRONG,
    },
    Walk {
        name: "check of outdated --essential",
        reads: ALL,
        row: essential_rows::CHECK_OUTDATED,
    },
    Walk {
        name: "check of challenged --essential",
        reads: ALL,
        row: essential_rows::CHECK_CHALLENGED,
    },
    Walk {
        name: "check-explain",
        reads: ALL,
        row: check_explain_rows::EXPLAINED,
    },
    Walk {
        name: "check-repair",
        reads: ALL,
        row: repair_rows::CHECKED,
    },
    Walk {
        name: "health",
        reads: ALL,
        row: health_rows::UNMET,
    },
    Walk {
        name: "classes",
        reads: ALL,
        row: classes_rows::CUT,
    },
    Walk {
        name: "steps",
        reads: ALL,
        row: steps_rows::MOVED,
    },
    Walk {
        name: "follow",
        reads: ALL,
        row: follow_rows::FOLLOWED,
    },
    Walk {
        name: "try",
        reads: 0,
        row: trial_rows::TRIAL,
    },
];

/// A line that is no field, behind two that are.
const NO_COLON: Row = Row {
    packages: "Package: a\nVersion: 1\nDescription\n",
    status: Status::BadPackages,
    out: "",
    err: "distfuture: bad packages at line 3: NoColon\n",
    after: After::AsBefore,
    ..futures_rows::STRONG
};

/// Rows that write a line to `err`.
pub(crate) const REFUSED: &[Walk] = &[
    Walk {
        name: "strong",
        reads: 0,
        row: NO_COLON,
    },
    Walk {
        name: "outdated",
        reads: 0,
        row: Row {
            words: &["outdated", "packages", "cert"],
            ..NO_COLON
        },
    },
    Walk {
        name: "challenged",
        reads: 0,
        row: Row {
            words: &["challenged", "packages", "cert"],
            ..NO_COLON
        },
    },
    Walk {
        name: "challenged --essential",
        reads: 0,
        row: Row {
            words: &["challenged", "packages", "cert", "--essential"],
            ..NO_COLON
        },
    },
    Walk {
        name: "check",
        reads: 0,
        row: Row {
            words: &["check", "packages", "cert"],
            ..NO_COLON
        },
    },
    Walk {
        name: "health",
        reads: 0,
        row: Row {
            words: &["health", "packages", "list"],
            ..NO_COLON
        },
    },
    Walk {
        name: "classes",
        reads: 0,
        row: Row {
            words: &["classes", "packages"],
            ..NO_COLON
        },
    },
    Walk {
        name: "steps",
        reads: 0,
        row: Row {
            words: &["steps", "packages", "list"],
            ..NO_COLON
        },
    },
    Walk {
        name: "follow",
        reads: 0,
        row: Row {
            words: &["follow", "packages", "cert", "list"],
            ..NO_COLON
        },
    },
    Walk {
        name: "explain",
        reads: 0,
        row: Row {
            words: &["explain", "packages", "cert", "--package", "a=1"],
            ..NO_COLON
        },
    },
    Walk {
        name: "check-explain",
        reads: 0,
        row: Row {
            words: &["check-explain", "packages", "cert"],
            ..NO_COLON
        },
    },
    Walk {
        name: "repair",
        reads: 0,
        row: Row {
            words: &["repair", "packages", "cert", "--package", "a=1"],
            ..NO_COLON
        },
    },
    Walk {
        name: "check-repair",
        reads: 0,
        row: Row {
            words: &["check-repair", "packages", "cert"],
            ..NO_COLON
        },
    },
    // Lines of other kinds of refusals, of which one is told when the certificate is begun.
    Walk {
        name: "strong, too large",
        reads: 0,
        row: strong_rows::CUT_SHORT,
    },
    Walk {
        name: "check of strong, refused",
        reads: 0,
        row: check_rows::BAD_LINE,
    },
    Walk {
        name: "check of challenged, refused",
        reads: 0,
        row: check_rows::BEYOND,
    },
    Walk {
        name: "explain, no such package",
        reads: 0,
        row: explain_rows::NO_SUCH_PACKAGE,
    },
    Walk {
        name: "check-explain, refused",
        reads: 0,
        row: check_explain_rows::INCOMPLETE,
    },
    Walk {
        name: "check-repair, refused",
        reads: 0,
        row: repair_rows::INCOMPLETE,
    },
    Walk {
        name: "health, a bad dependency",
        reads: 0,
        row: health_rows::BAD_DEPENDS,
    },
    Walk {
        name: "follow, a bad journal",
        reads: 0,
        row: follow_rows::NOT_ABOVE,
    },
    Walk {
        name: "try, too large",
        reads: 0,
        row: trial_rows::STOPPED,
    },
];
