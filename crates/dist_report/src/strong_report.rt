//! The report of strong dependencies. The text is one vector, and each of its lists one walk over the packages.
ghost use Rattle.std.specs.Prelude.{◌≡◌, ◌++◌, ◌<◌, ◌^◌, [], All, IfOk, OnOk, length, slice_index_or, codes};
ghost use Rattle.dist_report.specs.ClaimParts.{packages_with};
ghost use Rattle.dist_report.specs.ClaimPartsPrivate.{is_part, list_at};
ghost use Rattle.dist_report.specs.declared.claim_parts.Part.TheVariants.{With};
ghost use Rattle.dist_report.specs.Lines.{listed};
ghost use Rattle.dist_report.specs.StrongReport.{entry_lines, impact_at, strong_lines, with_impact};

use crate::claim_parts::{Listing, Part, claim_list, opened, told, write_part};
use crate::impact::{numbers_at, turned, with_some};
use crate::labels::Labels;
use crate::lines::{write_key, write_numbered, write_packages};
use crate::room::strong_room;
use dist_cert::{Claims, Numbers};
use std::alloc::{AllocError, Global};

/// Adds a package and the packages of its list.
fn write_entry(
    out: &mut Vec<u8>,
    labels: &Labels,
    key: &[u8],
    number: u32,
    list: &[u32],
) -> Result<(), AllocError>
    ensures { OnOk result (out.new.items ≡ out.old.items ++ entry_lines labels.now.packages key.now number list.now) }
{
    write_numbered(out, labels, b"  - package: ", number)?;
    write_packages(out, labels, key, b"      - ", list)?;
    Ok(())
}

/// Adds packages, each with its list of one kind.
fn write_lists(
    out: &mut Vec<u8>,
    labels: &Labels,
    claims: &Claims,
    key: &[u8],
    kind: Listing,
    numbers: &[u32],
) -> Result<(), AllocError>
    requires within { All (λ p. p < length claims.now) numbers.now }
    ensures { OnOk result (out.new.items ≡ out.old.items ++ listed key.now (λ p. entry_lines labels.now.packages (codes "    on:") p (list_at kind claims.now p)) numbers.now) }
{
    write_key(out, key, numbers.is_empty())?;
    for number in numbers {
        let list = claim_list(claims.get(*number as usize), kind);
        write_entry(out, labels, b"    on:", *number, list)?;
    }
    Ok(())
}

/// Adds the lists of one kind that aren't empty, each behind its package.
fn write_dependences(
    alloc: Global,
    out: &mut Vec<u8>,
    labels: &Labels,
    claims: &Claims,
    key: &[u8],
    kind: Listing,
) -> Result<(), AllocError>
    requires { length claims.now < 2 ^ 32 }
    ensures { OnOk result (out.new.items ≡ out.old.items ++ listed key.now (λ p. entry_lines labels.now.packages (codes "    on:") p (list_at kind claims.now p)) (packages_with (is_part (With kind)) claims.now)) }
{
    let numbers = told(alloc, claims, Part::With(kind))?;
    write_lists(out, labels, claims, key, kind, &numbers)?;
    Ok(())
}

/// Adds packages, each with the list at its place.
fn write_turned(
    out: &mut Vec<u8>,
    labels: &Labels,
    lists: &[Numbers],
    numbers: &[u32],
) -> Result<(), AllocError>
    requires { All (λ q. q < length lists.now) numbers.now }
    ensures { OnOk result (out.new.items ≡ out.old.items ++ listed (codes "impact:") (λ q. entry_lines labels.now.packages (codes "    of:") q (slice_index_or lists.now q [])) numbers.now) }
{
    write_key(out, b"impact:", numbers.is_empty())?;
    for number in numbers {
        let list = numbers_at(lists, *number);
        write_entry(out, labels, b"    of:", *number, list)?;
    }
    Ok(())
}

/// Adds the packages on which others depend strongly, each with those.
fn write_impact(
    alloc: Global,
    out: &mut Vec<u8>,
    labels: &Labels,
    claims: &Claims,
) -> Result<(), AllocError>
    requires { length claims.now < 2 ^ 32 }
    ensures { OnOk result (out.new.items ≡ out.old.items ++ listed (codes "impact:") (λ q. entry_lines labels.now.packages (codes "    of:") q (impact_at claims.now q)) (with_impact claims.now)) }
{
    let lists = turned(alloc, claims)?;
    let numbers = with_some(alloc, &lists)?;
    write_turned(out, labels, &lists, &numbers)?;
    Ok(())
}

/// The report of claims of strong dependencies.
pub(crate) fn strong_text(
    alloc: Global,
    labels: &Labels,
    limit: u32,
    claims: &Claims,
) -> Result<Vec<u8>, AllocError>
    requires { length claims.now < 2 ^ 32 }
    ensures { IfOk result (λ text. text.items ≡ strong_lines labels.now.packages limit claims.now) }
{
    let repo = labels.repo();
    let room = strong_room(alloc, repo, claims)?;
    let mut out = opened(alloc, repo, b"strong", limit, room)?;
    write_part(
        alloc,
        &mut out,
        labels,
        claims,
        b"uninstallable:",
        Part::NotInstallable,
    )?;
    write_dependences(
        alloc,
        &mut out,
        labels,
        claims,
        b"strong:",
        Listing::Claimed,
    )?;
    write_impact(alloc, &mut out, labels, claims)?;
    write_part(
        alloc,
        &mut out,
        labels,
        claims,
        b"undecided:",
        Part::NotKnown,
    )?;
    write_dependences(
        alloc,
        &mut out,
        labels,
        claims,
        b"undecided_pairs:",
        Listing::Undecided,
    )?;
    Ok(out)
}
