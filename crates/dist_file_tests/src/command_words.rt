//! The words of each command, and words that are of none.
use dist_cert::CertKind;
use dist_samples::words_of;
use dist_words::{
    Command, ExplainWords, FollowFiles, RepairWords, SweepWords, WordsError, command_of,
};
use std::alloc::Global;

/// What is read of words: the kind and the options of a sweep of the files f and g, or the options of a command on the package
/// that is named a=1, or another command of these files, or of f alone, or the size and the seed of a trial.
#[derive(Clone, Copy, PartialEq, Eq)]
enum Told {
    Sweep(CertKind, u32, bool),
    Health,
    Classes,
    Check,
    CheckExplain,
    Explain(u32),
    CheckRepair,
    Repair(u32, u32),
    Steps,
    Follow,
    Try(u32, u32),
    Refused,
}

/// What is told, where the files are the given ones.
fn told_if(are_given: bool, told: Told) -> Option<Told> {
    if are_given { Some(told) } else { None }
}

/// Whether two files are f and g.
fn are_both(one: &str, other: &str) -> bool {
    one == "f" && other == "g"
}

/// What is read of a sweep.
fn sweep_of(read: &SweepWords<'_>) -> Option<Told> {
    told_if(
        are_both(read.packages, read.cert),
        Told::Sweep(read.kind, read.limit, read.essential),
    )
}

/// What is read of `explain`.
fn explanation_of(read: &ExplainWords<'_>) -> Option<Told> {
    told_if(
        are_both(read.packages, read.cert) && read.named == "a=1",
        Told::Explain(read.limit),
    )
}

/// What is read of `repair`.
fn repair_of(read: &RepairWords<'_>) -> Option<Told> {
    told_if(
        are_both(read.packages, read.cert) && read.named == "a=1",
        Told::Repair(read.most, read.limit),
    )
}

/// Whether the three files of a journal are f, g and h.
fn are_three(files: &FollowFiles<'_>) -> bool {
    are_both(files.packages, files.cert) && files.journal == "h"
}

/// What is read of a command, where its files are f and g.
fn read_of(command: &Command<'_>) -> Option<Told> {
    match command {
        Command::Sweep(read) => sweep_of(read),
        Command::Health(files) => told_if(are_both(files.packages, files.list), Told::Health),
        Command::Classes(file) => told_if(*file == "f", Told::Classes),
        Command::Check(files) => told_if(are_both(files.packages, files.cert), Told::Check),
        Command::CheckExplain(files) => {
            told_if(are_both(files.packages, files.cert), Told::CheckExplain)
        }
        Command::Explain(read) => explanation_of(read),
        Command::CheckRepair(files) => {
            told_if(are_both(files.packages, files.cert), Told::CheckRepair)
        }
        Command::Repair(read) => repair_of(read),
        Command::Steps(files) => told_if(are_both(files.packages, files.later), Told::Steps),
        Command::Follow(files) => told_if(are_three(files), Told::Follow),
        Command::Try(sizes) => Some(Told::Try(sizes.size, sizes.seed)),
    }
}

/// What is read of words of a command or of none.
fn read_words(alloc: Global, words: &[String]) -> Option<Told> {
    match command_of(alloc, words) {
        Ok(command) => read_of(&command),
        Err(WordsError::BadWords) => Some(Told::Refused),
        Err(WordsError::NoMemory) => None,
    }
}

/// What is read of words.
fn read(alloc: Global, list: &[&str]) -> Option<Told> {
    match words_of(alloc, list) {
        Ok(words) => {
            let read = read_words(alloc, &words);
            drop(words);
            read
        }
        Err(_) => None,
    }
}

/// Words, and what is read of them.
type Row = (&'static [&'static str], Told);

const COMMANDS: &[Row] = &[
    (
        &["strong", "f", "g"],
        Told::Sweep(CertKind::Strong, 10_000, false),
    ),
    (
        &["strong", "f", "g", "--limit=3"],
        Told::Sweep(CertKind::Strong, 3, false),
    ),
    (
        &[
            "--essential",
            "--limit",
            "1000000",
            "strong",
            "f",
            "--",
            "g",
        ],
        Told::Sweep(CertKind::Strong, 1_000_000, true),
    ),
    (
        &["outdated", "f", "g"],
        Told::Sweep(CertKind::Outdated, 10_000, false),
    ),
    (
        &["challenged", "f", "g", "--essential", "--limit=3"],
        Told::Sweep(CertKind::Challenged, 3, true),
    ),
    (&["health", "f", "g"], Told::Health),
    (&["check-explain", "f", "g"], Told::CheckExplain),
    (&["check-repair", "f", "g"], Told::CheckRepair),
    (
        &["explain", "f", "g", "--package", "a=1"],
        Told::Explain(10_000),
    ),
    (
        &["--package=a=1", "--limit=3", "explain", "f", "g"],
        Told::Explain(3),
    ),
    (
        &["repair", "f", "g", "--package=a=1"],
        Told::Repair(8, 10_000),
    ),
    (
        &["repair", "f", "--package", "a=1", "--most", "0", "g"],
        Told::Repair(0, 10_000),
    ),
    (
        &[
            "repair",
            "f",
            "g",
            "--package=a=1",
            "--limit=1000000",
            "--most=64",
        ],
        Told::Repair(64, 1_000_000),
    ),
    (&["classes", "f"], Told::Classes),
    (&["check", "f", "g"], Told::Check),
    (&["steps", "f", "g"], Told::Steps),
    (&["follow", "f", "g", "h"], Told::Follow),
    (&["try", "--seed", "0", "--size", "2"], Told::Try(2, 0)),
];

/// The place of the first row whose words are read otherwise.
fn wrong_command(alloc: Global, rows: &[Row]) -> Option<usize> {
    for place in 0..rows.len() {
        let (list, wanted) = rows[place];
        if read(alloc, list) != Some(wanted) {
            return Some(place);
        }
    }
    None
}

#[test]
fn commands_are_read(rt: HostRuntime) {
    assert_eq!(rt; wrong_command(rt.alloc(), COMMANDS), None);
}

const OTHERS: &[&[&str]] = &[
    &[],
    &["strong", "f"],
    &["health", "f", "g", "--limit", "3"],
    &["try", "--size", "3"],
    &["classes", "f", "g"],
    &["check", "f", "g", "--essential"],
    &["check", "f", "g", "--limit=3"],
    &["strong", "f", "g", "--size", "3"],
    &["strong", "f", "g", "--seed", "3"],
    &["strong", "f", "g", "--limit", "0"],
    &["strong", "f", "g", "--limit", "1000001"],
    &["strong", "f", "g", "--limit", "ten"],
    &["strong", "f", "g", "--limit", "1", "--limit", "2"],
    &["strong", "f", "g", "--lim", "3"],
    &["strong", "f", "g", "h"],
    &["strongly", "f", "g"],
    &["outdated", "f"],
    &["challenged", "f", "g", "--size", "3"],
    &["outdated", "f", "g", "--limit", "0"],
    &["steps", "f"],
    &["steps", "f", "g", "--limit", "3"],
    &["follow", "f", "g"],
    &["follow", "f", "g", "h", "i"],
    &["follow", "f", "g", "h", "--essential"],
    // A package is needed, once, and with its text.
    &["explain", "f", "g"],
    &["repair", "f", "g"],
    &["repair", "f", "g", "--most", "3"],
    &["explain", "f", "g", "--package"],
    &["explain", "f", "g", "a=1"],
    &["explain", "f", "g", "--package=a=1", "--package=a=1"],
    // Two files.
    &["explain", "f", "--package", "a=1"],
    &["explain", "f", "g", "h", "--package", "a=1"],
    &["repair", "f", "--package", "a=1"],
    &["repair", "f", "g", "h", "--package", "a=1"],
    // Options of other commands.
    &["explain", "f", "g", "--package=a=1", "--most=8"],
    &["explain", "f", "g", "--package=a=1", "--essential"],
    &["explain", "f", "g", "--package=a=1", "--size=1"],
    &["explain", "f", "g", "--package=a=1", "--seed=0"],
    &["repair", "f", "g", "--package=a=1", "--essential"],
    &["repair", "f", "g", "--package=a=1", "--size=1"],
    &["repair", "f", "g", "--package=a=1", "--seed=0"],
    &["strong", "f", "g", "--package=a=1"],
    &["outdated", "f", "g", "--most=8"],
    &["check", "f", "g", "--package=a=1"],
    &["check-explain", "f", "g", "--package=a=1"],
    &["check-repair", "f", "g", "--most=8"],
    &["health", "f", "g", "--package=a=1"],
    &["classes", "f", "--most=8"],
    &["steps", "f", "g", "--package=a=1"],
    &["follow", "f", "g", "h", "--most=8"],
    &["try", "--seed=0", "--size=2", "--package=a=1"],
    &["try", "--seed=0", "--size=2", "--most=8"],
    // Numbers out of their bounds, twice, or none.
    &["explain", "f", "g", "--package=a=1", "--limit=0"],
    &["repair", "f", "g", "--package=a=1", "--limit=1000001"],
    &["repair", "f", "g", "--package=a=1", "--most=65"],
    &["repair", "f", "g", "--package=a=1", "--most=-1"],
    &["repair", "f", "g", "--package=a=1", "--most=x"],
    &["repair", "f", "g", "--package=a=1", "--most"],
    &["repair", "f", "g", "--package=a=1", "--most=1", "--most=1"],
    &["--help"],
];

/// The place of the first words that are not refused.
fn taken_words(alloc: Global, rows: &[&[&str]]) -> Option<usize> {
    for place in 0..rows.len() {
        if read(alloc, rows[place]) != Some(Told::Refused) {
            return Some(place);
        }
    }
    None
}

#[test]
fn other_words_are_refused(rt: HostRuntime) {
    assert_eq!(rt; taken_words(rt.alloc(), OTHERS), None);
}
