//! Trials.
use crate::hold;
use dist_top_rows::trial_rows::{STOPPED, TRIAL};
use dist_top_rows::{Row, Table, first_wrong};

// A larger one, which comes to the same each time.
const LARGER: Row = Row {
    words: &["try", "--size", "60", "--seed", "1"],
    out: "size 60\nstrong 41\nuninstallable 13\noutdated 2\nchallenged 8\nundecided 0\naccepted 3\n",
    ..TRIAL
};

const TABLES: &[Table] = &[
    ("a trial is told", &[TRIAL, LARGER, LARGER]),
    ("a number is kept", &[STOPPED]),
];

#[test]
fn trials_are_told(rt: HostRuntime) {
    hold(&rt, first_wrong(rt.alloc(), TABLES));
}
