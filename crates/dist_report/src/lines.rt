//! The lines that reports are made of: a key with a string, a key with a list, a package of a list, a list of packages.
ghost use Rattle.std.specs.Prelude.{◌≡◌, ◌++◌, OnErr, OnOk};
ghost use Rattle.dist_base.specs.Front.{IsFrontOf};
ghost use Rattle.dist_cluster.specs.Partition.{least};
ghost use Rattle.dist_report.specs.Lines.{key_line, listed, string_line};
ghost use Rattle.dist_report.specs.PackageText.{cluster_text, label, package_line};

use crate::explained_lines::write_label_at;
use crate::labels::Labels;
use dist_repo::Package;
use dist_space::Space;
use std::alloc::AllocError;

/// Adds a string in double quotes, behind what stands before it, and the line's end.
pub(crate) fn write_string(out: &mut Vec<u8>, before: &[u8], text: &[u8]) -> Result<(), AllocError>
    ensures { OnOk result (out.new.items ≡ out.old.items ++ string_line before.now text.now) }
{
    out.extend_from_slice(before)?;
    out.push(b'"')?;
    out.extend_from_slice(text)?;
    out.extend_from_slice(b"\"\n")?;
    Ok(())
}

/// Adds the line of a key that has a list.
pub(crate) fn write_key(out: &mut Vec<u8>, key: &[u8], is_empty: bool) -> Result<(), AllocError>
    ensures { OnOk result (out.new.items ≡ out.old.items ++ key_line key.now is_empty) }
{
    out.extend_from_slice(key)?;
    let end: &[u8] = if is_empty { b" []\n" } else { b"\n" };
    out.extend_from_slice(end)?;
    Ok(())
}

/// Adds a package as `name=version`, perhaps a front of it alone after an `Err`.
fn write_label(package: &Package, out: &mut Vec<u8>) -> Result<(), AllocError>
    ensures text { OnOk result (out.new.items ≡ out.old.items ++ label «package».now) }
    ensures front { OnErr result (IsFrontOf out.new.items out.old.items) }
{
    out.extend_from_slice(package.name.bytes())?;
    out.push(b'=')?;
    out.extend_from_slice(package.version.text())?;
    Ok(())
}

/// Adds a package as `name=version`. After an `Err` `out` is as before.
pub fn print_label(package: &Package, out: &mut Vec<u8>) -> Result<(), AllocError>
    ensures text { OnOk result (out.new.items ≡ out.old.items ++ label «package».now) }
    ensures err { OnErr result (out.new.items ≡ out.old.items) }
{
    let length = out.len();
    let printed = write_label(package, out);
    if printed.is_err() {
        out.truncate(length);
    }
    printed
}

/// The member of a cluster that stands first.
fn least_of(members: &[u32]) -> u32
    ensures { result ≡ least members.now }
{
    match members.first() {
        Some(member) => *member,
        None => 0,
    }
}

/// Adds a cluster by its member that stands first, or nothing where no cluster has the number.
pub fn print_cluster(space: &Space, cluster: u32, out: &mut Vec<u8>) -> Result<(), AllocError>
    ensures { OnOk result (out.new.items ≡ out.old.items ++ cluster_text space.now cluster) }
{
    let clusters = space.clusters();
    if cluster < clusters.len() {
        write_label_at(out, space.repo(), least_of(clusters.members(cluster)))
    } else {
        Ok(())
    }
}

/// Adds the package of a number, or an empty string where there is none.
pub(crate) fn write_numbered(
    out: &mut Vec<u8>,
    labels: &Labels,
    before: &[u8],
    number: u32,
) -> Result<(), AllocError>
    ensures { OnOk result (out.new.items ≡ out.old.items ++ package_line before.now labels.now.packages number) }
{
    write_string(out, before, labels.text(number))
}

/// Adds a list of packages, by their numbers, behind its key.
pub(crate) fn write_packages(
    out: &mut Vec<u8>,
    labels: &Labels,
    key: &[u8],
    before: &[u8],
    numbers: &[u32],
) -> Result<(), AllocError>
    ensures { OnOk result (out.new.items ≡ out.old.items ++ listed key.now (package_line before.now labels.now.packages) numbers.now) }
{
    write_key(out, key, numbers.is_empty())?;
    for number in numbers {
        write_numbered(out, labels, before, *number)?;
    }
    Ok(())
}
