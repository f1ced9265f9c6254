//! Worked rows: journals that are followed to their end.
use crate::journals::{Row, wrong_row};
use dist_samples::LIBRARY;

const FOLLOWED: &[Row] = &[
    (
        "an empty journal has no step",
        "",
        Ok(0),
        &[("libx", "1"), ("p", "1")],
    ),
    (
        "blank lines are no step",
        "\n \n\t\n",
        Ok(0),
        &[("libx", "1"), ("p", "1")],
    ),
    (
        "an upload and a new name",
        "= upload libx 2\nPackage: libx\nVersion: 2\n\n= new\nPackage: foo\nVersion: 1\n",
        Ok(2),
        &[("foo", "1"), ("libx", "2"), ("p", "1")],
    ),
    (
        "the last line may lack its end, and blank lines stand anywhere between steps",
        "\n\n= removal p\n \n\t\n\n= new\n\n\nPackage: foo\nVersion: 1",
        Ok(2),
        &[("foo", "1"), ("libx", "1")],
    ),
    (
        "an upload of no package takes the cluster away, and its version may be any text",
        "= upload libx 0:2\n= upload p 2\nPackage: p\nVersion: 0:2\n",
        Ok(2),
        &[("p", "0:2")],
    ),
    (
        "a removal of a package of a new name",
        "= new\nPackage: foo\nVersion: 1\n= removal foo\n= removal libx",
        Ok(3),
        &[("p", "1")],
    ),
    (
        "a package that stands twice in a block counts once",
        "= new\nPackage: foo\nVersion: 1\n\nPackage: foo\nVersion: 1\n",
        Ok(1),
        &[("foo", "1"), ("libx", "1"), ("p", "1")],
    ),
    (
        "a field may go on in a line that begins with a space and an equals sign",
        "= new\nPackage: foo\nVersion: 1\nDescription: x\n = y\n",
        Ok(1),
        &[("foo", "1"), ("libx", "1"), ("p", "1")],
    ),
];

#[test]
fn journals_are_followed(rt: HostRuntime) {
    assert_eq!(rt; wrong_row(rt.alloc(), LIBRARY, FOLLOWED), None);
}
