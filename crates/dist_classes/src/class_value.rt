//! A class of versions, and its text.
ghost use Rattle.std.specs.Prelude.{◌≡◌, ◌++◌, OnOk, OnErr};
ghost use Rattle.dist_relation.specs.WrittenPrivate.{Extends};
ghost use Rattle.dist_classes.specs.ClassList.{class_text};

use dist_version::Version;
use std::alloc::AllocError;

/// Versions that no atom of a repository tells apart.
#[derive(Debug, Drop)]
pub enum Class {
    /// Those that are equal to a version.
    Point(Version),
    /// Those above a version and below another one.
    Between(Version, Version),
    /// Those above a version.
    Above(Version),
    /// Those below a version.
    Below(Version),
    /// All.
    Any,
}

/// Adds an operator, a space and a version.
fn print_bound(operator: &[u8], version: &Version, out: &mut Vec<u8>) -> Result<(), AllocError>
    ensures ok { OnOk result (out.new.items ≡ out.old.items ++ (operator.now ++ version.now)) }
    ensures err { OnErr result (Extends out.old.items out.new.items) }
{
    out.extend_from_slice(operator)?;
    out.extend_from_slice(version.text())?;
    Ok(())
}

/// Adds the text of a class, perhaps a front of it alone after an `Err`.
fn print_parts(class: &Class, out: &mut Vec<u8>) -> Result<(), AllocError>
    ensures ok { OnOk result (out.new.items ≡ out.old.items ++ class_text class.now) }
    ensures err { OnErr result (Extends out.old.items out.new.items) }
{
    match class {
        Class::Point(version) => print_bound(b"= ", version, out),
        Class::Between(low, high) => {
            print_bound(b">> ", low, out)?;
            print_bound(b", << ", high, out)
        }
        Class::Above(low) => print_bound(b">> ", low, out),
        Class::Below(high) => print_bound(b"<< ", high, out),
        Class::Any => Ok(out.extend_from_slice(b"any")?),
    }
}

/// Adds the text of a class at the end of `out`. After an `Err` `out` is as before.
pub fn print_class(class: &Class, out: &mut Vec<u8>) -> Result<(), AllocError>
    ensures text { OnOk result (out.new.items ≡ out.old.items ++ class_text class.now) }
    ensures err { OnErr result (out.new.items ≡ out.old.items) }
{
    let length = out.len();
    let printed = print_parts(class, out);
    if printed.is_err() {
        out.truncate(length);
    }
    printed
}
