//! Rows of the sweeps over a library and p, which needs it below a version, that several crates of tests take.
use crate::{After, EMPTY, Row, strong_rows};
use dist_samples::LIBRARY;

/// At every version that there is p needs the library.
pub const STRONG: Row = Row {
    packages: LIBRARY,
    out: "report: \"strong\"
limit: 10000
packages: 2
uninstallable: []
strong:
  - package: \"p=1\"
    on:
      - \"libx=1\"
impact:
  - package: \"libx=1\"
    of:
      - \"p=1\"
undecided: []
undecided_pairs: []
",
    after: After::Begins("distfuture-certificate 1 strong plain 10000 2 2 1\n"),
    ..strong_rows::NONE
};

/// What p needs may be a new version.
pub const OUTDATED: Row = Row {
    words: &["outdated", "packages", "cert"],
    packages: LIBRARY,
    cert: Some("old\n"),
    out: "report: \"outdated\"
limit: 10000
packages: 2
outdated: []
undecided: []
",
    after: After::Begins("distfuture-certificate 1 outdated plain 10000 2 11 16\n"),
    ..EMPTY
};

/// Later versions of the library at and above a bound break p.
pub const CHALLENGED: Row = Row {
    words: &["challenged", "packages", "cert"],
    out: "report: \"challenged\"
limit: 10000
packages: 2
uninstallable: []
challenged:
  - cluster: \"libx=1\"
    class: \"= 2\"
    example: \"2\"
    breaks:
      - \"p=1\"
  - cluster: \"libx=1\"
    class: \">> 2\"
    example: \"2-0A\"
    breaks:
      - \"p=1\"
undecided: []
undecided_classes: []
",
    after: After::Begins("distfuture-certificate 1 challenged plain 10000 2 11 16\n"),
    ..OUTDATED
};
