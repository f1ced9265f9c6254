//! What is told of a journal that was followed.
ghost use Rattle.std.specs.Prelude.{◌≡◌, ◌++◌, IfOk, OnOk, length, slice_get, []};
ghost use Rattle.std.specs.Option.{option_map_or};
ghost use Rattle.dist_report.specs.PackageText.{label};
ghost use Rattle.dist_history.specs.FollowText.{broken_text, broken_texts, counts_text, held_version, version_of_name};

use dist_archive::Archive;
use dist_journal::{Broken, BrokenList};
use dist_report::{print_cluster, print_label};
use dist_space::Space;
use itoa::Buffer;
use std::alloc::{AllocError, Global};

/// The numbers of the steps that were made and of the packages that are held.
pub fn counts_text(alloc: Global, steps: u32, archive: &Archive) -> Result<Vec<u8>, AllocError>
    ensures { IfOk result (λ text. text.items ≡ counts_text steps (length archive.now.packages)) }
{
    let mut buffer = Buffer::new();
    let mut out = Vec::from_slice(alloc, b"steps ")?;
    out.extend_from_slice(buffer.format(steps).as_bytes())?;
    out.extend_from_slice(b"\npackages ")?;
    out.extend_from_slice(buffer.format(archive.len()).as_bytes())?;
    out.push(b'\n')?;
    Ok(out)
}

/// Adds a package of the repository by its number, or nothing where no package has the number.
fn write_package(out: &mut Vec<u8>, space: &Space, number: u32) -> Result<(), AllocError>
    ensures { OnOk result (out.new.items ≡ out.old.items ++ option_map_or label (slice_get space.now.repository.packages number) []) }
{
    if number < space.package_count() {
        print_label(space.package(number), out)
    } else {
        Ok(())
    }
}

/// Adds the version of the package that is held of a name, or nothing.
fn write_version_of(out: &mut Vec<u8>, archive: &Archive, name: &[u8]) -> Result<(), AllocError>
    ensures { OnOk result (out.new.items ≡ out.old.items ++ version_of_name archive.now.packages name.now) }
{
    archive.keeps_invariant();
    match archive.held(name) {
        Some(package) => {
            out.extend_from_slice(package.version.text())?;
            Ok(())
        }
        None => Ok(()),
    }
}

/// Adds the version of what is held of the name of a cluster's member that stands first, or nothing.
fn write_held_version(out: &mut Vec<u8>, archive: &Archive, cluster: u32) -> Result<(), AllocError>
    ensures { OnOk result (out.new.items ≡ out.old.items ++ held_version archive.now.space archive.now.packages cluster) }
{
    let space = archive.space();
    let clusters = space.clusters();
    if cluster < clusters.len() {
        space.keeps_invariant();
        let members = clusters.members(cluster);
        write_version_of(out, archive, space.package(members[0]).name.bytes())
    } else {
        Ok(())
    }
}

/// Adds the line of a package that a cluster breaks.
fn write_broken(out: &mut Vec<u8>, archive: &Archive, broken: &Broken) -> Result<(), AllocError>
    ensures { OnOk result (out.new.items ≡ out.old.items ++ broken_text archive.now.space archive.now.packages broken.now) }
{
    out.extend_from_slice(b"broken ")?;
    write_package(out, archive.space(), broken.package_)?;
    out.extend_from_slice(b" by ")?;
    print_cluster(archive.space(), broken.cluster, out)?;
    out.extend_from_slice(b" at ")?;
    write_held_version(out, archive, broken.cluster)?;
    out.push(b'\n')?;
    Ok(())
}

/// Adds the lines of packages that moved clusters break.
pub fn write_broken_list(
    out: &mut Vec<u8>,
    archive: &Archive,
    list: &BrokenList,
) -> Result<(), AllocError>
    ensures { OnOk result (out.new.items ≡ out.old.items ++ broken_texts archive.now.space archive.now.packages list.now) }
{
    for place in 0..list.len() {
        write_broken(out, archive, list.get(place))?;
    }
    Ok(())
}
