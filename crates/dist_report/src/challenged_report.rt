//! The report of challenges. The claims' pairs are put into lists by the place of their class, each once, and the lists
//! that aren't empty are told.
ghost use Rattle.std.specs.Prelude.{◌≡◌, ◌++◌, ◌<◌, ◌^◌, ℕ, [], All, IfOk, OnOk, Some, length, slice_get, slice_index_or};
ghost use Rattle.std.specs.List.{flat_map};
ghost use Rattle.dist_classes.specs.ClassList.{HasVersions};
ghost use Rattle.dist_report.specs.ChallengedReport.{IsChallengedText, broken_by, broken_lines, class_pairs};
ghost use Rattle.dist_report.specs.ClaimPartsPrivate.{key_of, pairs_of};
ghost use Rattle.dist_report.specs.ClassTablePrivate.{AreKept, HasClass, kept_classes, kept_lines, place_lines};

use crate::claim_parts::{Listing, Part, claim_pairs, opened, write_part};
use crate::class_table::{ClassRow, ClassTable, class_table};
use crate::classes_report::write_class;
use crate::impact::{no_numbers, note_all, numbers_at, with_some};
use crate::labels::Labels;
use crate::lines::{write_key, write_numbered, write_packages};
use dist_cert::{Claims, Numbers};
use dist_classes::Class;
use std::alloc::{AllocError, Global};

/// For each class the packages in whose lists of one kind its pair is.
fn broken(
    alloc: Global,
    claims: &Claims,
    row: &ClassRow,
    kind: Listing,
) -> Result<Vec<Numbers>, AllocError>
    requires { length claims.now < 2 ^ 32 }
    ensures length { IfOk result (λ lists. length lists.items ≡ length row.now) }
    ensures few { IfOk result (λ lists. length lists.items < 2 ^ 32) }
    ensures each { IfOk result (λ lists. (place : ℕ) (pair : ℕ × ℕ) → slice_get row.now place ≡ Some pair → slice_index_or lists.items place [] ≡ broken_by (pairs_of kind) claims.now pair) }
{
    let mut lists = no_numbers(alloc, row.len())?;
    for number in 0..claims.len() {
        let places = row.places_of(alloc, claim_pairs(claims.get(number), kind))?;
        note_all(&mut lists, number as u32, &places)?;
    }
    Ok(lists)
}

/// Adds a class behind its cluster's least member, and the packages that it breaks.
fn write_broken(
    alloc: Global,
    out: &mut Vec<u8>,
    labels: &Labels,
    members: &[u32],
    class: &Class,
    broken: &[u32],
) -> Result<(), AllocError>
    requires some { 0 < length members.now }
    requires versions { HasVersions class.now }
    ensures { OnOk result (out.new.items ≡ out.old.items ++ broken_lines labels.now.packages members.now broken.now class.now) }
{
    write_numbered(out, labels, b"  - cluster: ", members[0])?;
    write_class(alloc, out, b"    class: ", b"    example: ", class)?;
    write_packages(out, labels, b"    breaks:", b"      - ", broken)?;
    Ok(())
}

/// Adds the class of a pair, and the packages that it breaks.
fn write_pair(
    alloc: Global,
    out: &mut Vec<u8>,
    labels: &Labels,
    table: &ClassTable,
    pair: (u32, u32),
    broken: &[u32],
) -> Result<(), AllocError>
    requires kept { AreKept labels.now table.now.clusters table.now.classes.items }
    requires class { HasClass table.now.classes.items pair }
    ensures { OnOk result (out.new.items ≡ out.old.items ++ kept_lines labels.now.packages table.now.clusters.members table.now.classes.items broken.now pair) }
{
    let (cluster, number) = pair;
    let members = table.clusters.members(cluster);
    let class = table.classes[cluster as usize].get(number as usize);
    write_broken(alloc, out, labels, members, class, broken)
}

/// Adds classes, by their places, each with the packages that it breaks.
fn write_places(
    alloc: Global,
    out: &mut Vec<u8>,
    labels: &Labels,
    table: &ClassTable,
    lists: &[Numbers],
    places: &[u32],
) -> Result<(), AllocError>
    requires kept { AreKept labels.now table.now.clusters table.now.classes.items }
    requires row { table.now.row ≡ class_pairs table.now.classes.items }
    requires length { length lists.now ≡ length table.now.row }
    requires within { All (λ place. place < length lists.now) places.now }
    ensures { OnOk result (out.new.items ≡ out.old.items ++ flat_map (place_lines labels.now.packages table.now.clusters.members table.now.classes.items table.now.row lists.now) places.now) }
{
    for place in places {
        let pair = table.row.get(*place);
        write_pair(alloc, out, labels, table, pair, numbers_at(lists, *place))?;
    }
    Ok(())
}

/// The key of the classes that break packages.
fn key_of(kind: Listing) -> &'static [u8]
    ensures { result.now ≡ key_of kind }
{
    match kind {
        Listing::Claimed => b"challenged:",
        Listing::Undecided => b"undecided_classes:",
    }
}

/// Adds the classes that break some package by the lists of one kind.
fn write_classes_told(
    alloc: Global,
    out: &mut Vec<u8>,
    labels: &Labels,
    claims: &Claims,
    table: &ClassTable,
    kind: Listing,
) -> Result<(), AllocError>
    requires few { length claims.now < 2 ^ 32 }
    requires kept { AreKept labels.now table.now.clusters table.now.classes.items }
    requires row { table.now.row ≡ class_pairs table.now.classes.items }
    ensures { OnOk result (out.new.items ≡ out.old.items ++ kept_classes kind labels.now.packages table.now.clusters.members table.now.classes.items claims.now) }
{
    let lists = broken(alloc, claims, &table.row, kind)?;
    let places = with_some(alloc, &lists)?;
    write_key(out, key_of(kind), places.is_empty())?;
    write_places(alloc, out, labels, table, &lists, &places)?;
    Ok(())
}

/// The report of claims of challenges.
pub(crate) fn challenged_text(
    alloc: Global,
    labels: &Labels,
    limit: u32,
    claims: &Claims,
) -> Result<Vec<u8>, AllocError>
    requires { length claims.now < 2 ^ 32 }
    ensures { IfOk result (λ text. IsChallengedText labels.now limit claims.now text.items) }
{
    let repo = labels.repo();
    let table = class_table(alloc, repo)?;
    let mut out = opened(alloc, repo, b"challenged", limit, 0)?;
    write_part(
        alloc,
        &mut out,
        labels,
        claims,
        b"uninstallable:",
        Part::NotInstallable,
    )?;
    write_classes_told(alloc, &mut out, labels, claims, &table, Listing::Claimed)?;
    write_part(
        alloc,
        &mut out,
        labels,
        claims,
        b"undecided:",
        Part::NotKnown,
    )?;
    write_classes_told(alloc, &mut out, labels, claims, &table, Listing::Undecided)?;
    Ok(out)
}
