//! A row: what the top call is run on, and what it must come to.
use dist_app::Status;
use dist_outside::What;

/// The numbers of the call of the desk and of the writes to `out` and `err` that fail, from 1, or 0 for none.
#[derive(Clone, Copy)]
pub struct Failing {
    pub desk: u64,
    pub out: u64,
    pub err: u64,
}

pub const NOTHING: Failing = Failing {
    desk: 0,
    out: 0,
    err: 0,
};

/// What the file `cert` is to be afterwards: as it was, a text with this front, or this text.
#[derive(Clone, Copy)]
pub enum After {
    AsBefore,
    Begins(&'static str),
    Is(&'static str),
}

/// What the top call is run on: words, the files `packages`, `list` and perhaps `cert`, the stated limits but perhaps for one,
/// and what fails. Then what it must come to; the files `packages` and `list` must be as before.
#[derive(Clone, Copy)]
pub struct Row {
    pub words: &'static [&'static str],
    pub packages: &'static str,
    pub list: &'static str,
    pub cert: Option<&'static str>,
    pub at_most: Option<(What, u32)>,
    pub failing: Failing,
    pub status: Status,
    pub out: &'static str,
    pub err: &'static str,
    pub after: After,
}

/// A row of an empty set of no packages, which is healthy.
pub const EMPTY: Row = Row {
    words: &["health", "packages", "list"],
    packages: "",
    list: "",
    cert: None,
    at_most: None,
    failing: NOTHING,
    status: Status::Done,
    out: "healthy\n",
    err: "",
    after: After::AsBefore,
};

/// Rows under the name of what they show.
pub type Table = (&'static str, &'static [Row]);
