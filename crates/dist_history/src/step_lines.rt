//! The line of each step.
ghost use Rattle.std.specs.Prelude.{◌≡◌, ◌++◌, ◌==◌, [], OnOk, codes, if◌then◌else◌};
ghost use Rattle.dist_archive.specs.declared.step.Step.TheVariants as kinds;
ghost use Rattle.dist_history.specs.PlanText.{first_text, names_text, step_text};

use dist_archive::Step;
use dist_relation::Name;
use dist_repo::Repository;
use dist_report::{print_cluster, print_label};
use dist_space::Space;
use dist_version::Version;
use std::alloc::AllocError;

/// Adds a name, behind a comma and a space where it is not the first.
fn write_name(out: &mut Vec<u8>, is_first: bool, name: &Name) -> Result<(), AllocError>
    ensures { OnOk result (out.new.items ≡ out.old.items ++ ((if is_first then [] else codes ", ") ++ name.now)) }
{
    let before: &[u8] = if is_first { b"" } else { b", " };
    out.extend_from_slice(before)?;
    out.extend_from_slice(name.bytes())?;
    Ok(())
}

/// Adds the names of the packages of a block.
fn write_names(out: &mut Vec<u8>, block: &Repository) -> Result<(), AllocError>
    ensures { OnOk result (out.new.items ≡ out.old.items ++ names_text block.now.packages) }
{
    for number in 0..block.len() {
        write_name(out, number == 0, &block.package(number).name)?;
    }
    Ok(())
}

/// Adds the first package of a block, or nothing where it has none.
fn write_first(out: &mut Vec<u8>, block: &Repository) -> Result<(), AllocError>
    ensures { OnOk result (out.new.items ≡ out.old.items ++ first_text block.now.packages) }
{
    if block.len() > 0 {
        print_label(block.package(0), out)
    } else {
        Ok(())
    }
}

/// Adds the line of an upload.
fn write_upload(
    out: &mut Vec<u8>,
    space: &Space,
    cluster: u32,
    version: &Version,
    block: &Repository,
) -> Result<(), AllocError>
    ensures { OnOk result (out.new.items ≡ out.old.items ++ step_text space.now (kinds.Upload cluster version.now block.now)) }
{
    out.extend_from_slice(b"upload ")?;
    print_cluster(space, cluster, out)?;
    out.extend_from_slice(b" at ")?;
    out.extend_from_slice(version.text())?;
    out.extend_from_slice(b": ")?;
    write_names(out, block)?;
    out.push(b'\n')?;
    Ok(())
}

/// Adds the line of a removal.
fn write_removal(out: &mut Vec<u8>, space: &Space, name: &Name) -> Result<(), AllocError>
    ensures { OnOk result (out.new.items ≡ out.old.items ++ step_text space.now (kinds.Removal name.now)) }
{
    out.extend_from_slice(b"removal ")?;
    out.extend_from_slice(name.bytes())?;
    out.push(b'\n')?;
    Ok(())
}

/// Adds the line of a new name.
fn write_new_name(out: &mut Vec<u8>, space: &Space, block: &Repository) -> Result<(), AllocError>
    ensures { OnOk result (out.new.items ≡ out.old.items ++ step_text space.now (kinds.NewName block.now)) }
{
    out.extend_from_slice(b"new ")?;
    write_first(out, block)?;
    out.push(b'\n')?;
    Ok(())
}

/// Adds the line of a step.
pub(crate) fn write_step(out: &mut Vec<u8>, space: &Space, step: &Step) -> Result<(), AllocError>
    ensures { OnOk result (out.new.items ≡ out.old.items ++ step_text space.now step.now) }
{
    match step {
        Step::Upload(cluster, version, block) => write_upload(out, space, *cluster, version, block),
        Step::Removal(name) => write_removal(out, space, name),
        Step::NewName(block) => write_new_name(out, space, block),
    }
}
