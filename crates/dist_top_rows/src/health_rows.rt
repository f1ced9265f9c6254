//! Rows of `health` that several crates of tests take.
use crate::{EMPTY, Row};
use dist_app::Status;

/// A package without relations.
pub const ONE: &str = "Package: a\nVersion: 1\n";

/// A dependency with a bound, on a name that is provided without a version.
const NEEDS: &str =
    "Package: p\nVersion: 1\nDepends: x (>= 1)\n\nPackage: y\nVersion: 1\nProvides: x\n";

/// What a set that is not healthy comes to, but for the line on `out`.
pub const NOT_HEALTHY: Row = Row {
    status: Status::NotHealthy,
    ..EMPTY
};

/// A dependency that nothing in the set meets.
pub const UNMET: Row = Row {
    packages: NEEDS,
    list: "p 1\ny 1\n",
    out: "unmet p=1: x (>= 1)\n",
    ..NOT_HEALTHY
};

/// What a bad Packages file comes to, but for the line on `err`.
pub const BAD_PACKAGES: Row = Row {
    status: Status::BadPackages,
    out: "",
    ..EMPTY
};

/// What a bad list comes to, but for the line on `err`.
pub const BAD_LIST: Row = Row {
    packages: ONE,
    status: Status::BadList,
    out: "",
    ..EMPTY
};

/// A version that is none, in a dependency.
pub const BAD_DEPENDS: Row = Row {
    packages: "Package: a\nVersion: 1\nDepends: b,\n c (= 1_2)\n",
    err: "distfuture: bad packages at line 3: BadVersion BadByte in Depends at 9\n",
    ..BAD_PACKAGES
};

/// A line with a word too many.
pub const BAD_THIRD_LINE: Row = Row {
    list: "\na 1\na  1 x\n",
    err: "distfuture: bad list at line 3\n",
    ..BAD_LIST
};
