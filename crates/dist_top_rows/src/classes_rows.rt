//! Rows of `classes` that several crates of tests take.
use crate::{EMPTY, Row};
use dist_app::Status;

/// No packages.
pub const NONE: Row = Row {
    words: &["classes", "packages"],
    out: "report: \"classes\"\npackages: 0\nclusters: []\nnames: []\n",
    ..EMPTY
};

/// A package, and one that depends on it below one version or from another on.
const BOUNDS: &str = "Package: libx\nVersion: 1.0-1\nArchitecture: all\n
Package: p\nVersion: 1\nArchitecture: all\nDepends: libx (<< 2.0) | libx (>= 3)\n";

/// A dependency with two bounds cuts five classes.
const BOUNDS_REPORT: &str = "report: \"classes\"
packages: 2
clusters:
  - cluster: \"libx=1.0-1\"
    source: \"libx\"
    top: \"1.0-1\"
    members:
      - \"libx=1.0-1\"
    classes:
      - class: \">> 1.0-1, << 2.0\"
        example: \"1.0-1A~~~\"
      - class: \"= 2.0\"
        example: \"2.0\"
      - class: \">> 2.0, << 3\"
        example: \"2.0-0A~\"
      - class: \"= 3\"
        example: \"3\"
      - class: \">> 3\"
        example: \"3-0A\"
  - cluster: \"p=1\"
    source: \"p\"
    top: \"1\"
    members:
      - \"p=1\"
    classes:
      - class: \">> 1\"
        example: \"1-0A\"
names: []
";

/// A dependency with two bounds.
pub const CUT: Row = Row {
    packages: BOUNDS,
    out: BOUNDS_REPORT,
    ..NONE
};

/// What a number that is passed comes to, but for the line on `err`.
pub const STOPPED: Row = Row {
    status: Status::TooLarge,
    out: "",
    ..CUT
};

/// A line that is no field.
pub const BAD_STANZA: Row = Row {
    packages: "no colon\n",
    status: Status::BadPackages,
    err: "distfuture: bad packages at line 1: NoColon\n",
    ..STOPPED
};
