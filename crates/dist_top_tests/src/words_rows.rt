//! Words that are no command, and a command.
use crate::hold;
use dist_top_rows::words_rows::{COMMAND, NO_COMMAND};
use dist_top_rows::{Row, Table, first_wrong};

const NO_COMMANDS: &[Row] = &[
    Row {
        words: &[],
        ..NO_COMMAND
    },
    NO_COMMAND,
    Row {
        words: &["health", "packages", "list", "--limit", "3"],
        ..NO_COMMAND
    },
    Row {
        words: &["try", "--size", "3"],
        ..NO_COMMAND
    },
    Row {
        words: &["check", "packages", "list", "--essential"],
        ..NO_COMMAND
    },
    Row {
        words: &["check-explain", "packages"],
        ..NO_COMMAND
    },
    Row {
        words: &["check-explain", "packages", "list", "--limit", "3"],
        ..NO_COMMAND
    },
    Row {
        words: &["explain", "packages", "list"],
        ..NO_COMMAND
    },
    Row {
        words: &[
            "explain",
            "packages",
            "list",
            "--package=a=1",
            "--essential",
        ],
        ..NO_COMMAND
    },
    Row {
        words: &["explain", "packages", "list", "--package=a=1", "--most=1"],
        ..NO_COMMAND
    },
    Row {
        words: &["strong", "packages", "list", "--package=a=1"],
        ..NO_COMMAND
    },
    Row {
        words: &["health", "packages"],
        ..NO_COMMAND
    },
    Row {
        words: &["heal", "packages", "list"],
        ..NO_COMMAND
    },
    Row {
        words: &["classes"],
        ..NO_COMMAND
    },
    Row {
        words: &["classes", "packages", "list"],
        ..NO_COMMAND
    },
    Row {
        words: &["steps", "packages"],
        ..NO_COMMAND
    },
    Row {
        words: &["steps", "packages", "list", "--essential"],
        ..NO_COMMAND
    },
    Row {
        words: &["follow", "packages", "list"],
        ..NO_COMMAND
    },
    Row {
        words: &["follow", "packages", "cert", "list", "--limit", "3"],
        ..NO_COMMAND
    },
];

const TABLES: &[Table] = &[
    ("words are a command", &[COMMAND]),
    ("words are refused", NO_COMMANDS),
];

#[test]
fn words_are_a_command_or_refused(rt: HostRuntime) {
    hold(&rt, first_wrong(rt.alloc(), TABLES));
}
