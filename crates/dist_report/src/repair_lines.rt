//! The text that tells how many clusters must move for a package.
ghost use Rattle.std.specs.Prelude.{◌≡◌, ◌++◌, ◌<◌, ◌≤◌, [], IfOk, IfSome, OnOk, codes, decimal, if◌then◌else◌, length};
ghost use Rattle.dist_clause.specs.Formula.{value_of};
ghost use Rattle.dist_space.specs.Space.{cluster_classes};
ghost use Rattle.dist_report.specs.RepairText.{HasValues, class_under, cluster_move, move_line, move_lines, plan_lines, repair_lines, repair_text, upper_lines};

use crate::explained_lines::write_label_at;
use crate::lines::print_cluster;
use dist_clause::Assignment;
use dist_repair::Repair;
use dist_space::{Meaning, Space};
use itoa::Buffer;
use std::alloc::{AllocError, Global};

/// The class that is true of a cluster, if one is.
fn class_under(space: &Space, values: &Assignment, cluster: u32) -> Option<u32>
    requires { length space.now.meanings ≤ length values.now }
    ensures value { result ≡ class_under space.now (value_of values.now) cluster }
    ensures within { IfSome result (λ class. class < length (cluster_classes space.now cluster)) }
{
    for class in 0..space.class_count(cluster) {
        if values.value(space.variable(&Meaning::At(cluster, class))) {
            return Some(class);
        }
    }
    None
}

/// Adds the line of a cluster that moves to a class.
fn write_move(out: &mut Vec<u8>, space: &Space, cluster: u32, class: u32) -> Result<(), AllocError>
    requires { class < length (cluster_classes space.now cluster) }
    ensures { OnOk result (out.new.items ≡ out.old.items ++ move_line space.now cluster class) }
{
    out.extend_from_slice(b"move ")?;
    print_cluster(space, cluster, out)?;
    out.extend_from_slice(b" to ")?;
    let example = space.example(cluster, class).make(*out.allocator())?;
    out.extend_from_slice(example.text())?;
    out.push(b'\n')?;
    Ok(())
}

/// Adds the line of a cluster, if a class of it is true.
fn write_cluster_move(
    out: &mut Vec<u8>,
    space: &Space,
    values: &Assignment,
    cluster: u32,
) -> Result<(), AllocError>
    requires { length space.now.meanings ≤ length values.now }
    ensures { OnOk result (out.new.items ≡ out.old.items ++ cluster_move space.now (value_of values.now) cluster) }
{
    match class_under(space, values, cluster) {
        Some(class) => write_move(out, space, cluster, class),
        None => Ok(()),
    }
}

/// Adds the lines of the clusters that move.
fn write_moves(out: &mut Vec<u8>, space: &Space, values: &Assignment) -> Result<(), AllocError>
    requires { length space.now.meanings ≤ length values.now }
    ensures { OnOk result (out.new.items ≡ out.old.items ++ move_lines space.now values.now) }
{
    for cluster in 0..space.clusters().len() {
        write_cluster_move(out, space, values, cluster)?;
    }
    Ok(())
}

/// Adds words, a number and the line's end.
fn write_number(out: &mut Vec<u8>, words: &[u8], number: u32) -> Result<(), AllocError>
    ensures { OnOk result (out.new.items ≡ out.old.items ++ (words.now ++ (decimal number ++ codes "\n"))) }
{
    let mut buffer = Buffer::new();
    out.extend_from_slice(words)?;
    out.extend_from_slice(buffer.format(number).as_bytes())?;
    out.push(b'\n')?;
    Ok(())
}

/// Adds words and a number, and the lines of the clusters that move.
fn write_plan(
    out: &mut Vec<u8>,
    space: &Space,
    words: &[u8],
    number: u32,
    values: &Assignment,
) -> Result<(), AllocError>
    requires { length space.now.meanings ≤ length values.now }
    ensures { OnOk result (out.new.items ≡ out.old.items ++ plan_lines space.now words.now number values.now) }
{
    write_number(out, words, number)?;
    write_moves(out, space, values)
}

/// Adds the upper bound, if there is one.
fn write_upper(
    out: &mut Vec<u8>,
    space: &Space,
    upper: &Option<(u32, Assignment)>,
) -> Result<(), AllocError>
    requires { IfSome upper.now (λ one. length space.now.meanings ≤ length one.1) }
    ensures { OnOk result (out.new.items ≡ out.old.items ++ upper_lines space.now upper.now) }
{
    match upper {
        Some((number, values)) => write_plan(out, space, b"at most ", *number, values),
        None => Ok(()),
    }
}

/// Adds the line that a number is undecided, where it is.
fn write_undecided(out: &mut Vec<u8>, undecided: bool) -> Result<(), AllocError>
    ensures { OnOk result (out.new.items ≡ out.old.items ++ (if undecided then codes "undecided\n" else [])) }
{
    if undecided {
        out.extend_from_slice(b"undecided\n")?;
    }
    Ok(())
}

/// Adds what is answered.
fn write_repair(out: &mut Vec<u8>, space: &Space, repair: &Repair) -> Result<(), AllocError>
    requires { HasValues space.now repair.now }
    ensures { OnOk result (out.new.items ≡ out.old.items ++ repair_lines space.now repair.now) }
{
    match repair {
        Repair::Outdated => out.extend_from_slice(b"outdated\n"),
        Repair::Least(number, values) => write_plan(out, space, b"least ", *number, values),
        Repair::AtLeast(lower, undecided, upper) => {
            write_number(out, b"at least ", *lower)?;
            write_undecided(out, *undecided)?;
            write_upper(out, space, upper)
        }
    }
}

/// The text that tells how many clusters must move for a package.
///
/// Its time is linear in the classes of the clusters, but for finding their variables.
pub fn repair_text(
    alloc: Global,
    space: &Space,
    package: u32,
    repair: &Repair,
) -> Result<Vec<u8>, AllocError>
    requires package { «package» < length space.now.repository.packages }
    requires values { HasValues space.now repair.now }
    ensures { IfOk result (λ text. text.items ≡ repair_text space.now «package» repair.now) }
{
    let mut out = b"package ".to_vec(alloc)?;
    write_label_at(&mut out, space.repo(), package)?;
    out.push(b'\n')?;
    write_repair(&mut out, space, repair)?;
    Ok(out)
}
