//! What the reports of claims share: what their parts take of the claims, the lines before the first list, and the lists of
//! packages.
ghost use Rattle.std.specs.Prelude.{◌≡◌, ◌++◌, ◌<◌, ◌^◌, IfOk, OnOk, length};
ghost use Rattle.dist_report.specs.ClaimParts.{opening_lines, packages_with, told_packages};
ghost use Rattle.dist_report.specs.ClaimPartsPrivate.{is_part, list_of, pairs_of};

use crate::labels::Labels;
use crate::lines::{write_packages, write_string};
use dist_cert::{Claim, Claims};
use dist_repo::Repository;
use itoa::Buffer;
use std::alloc::{AllocError, Global};

/// The two lists of a claim.
#[derive(Clone, Copy)]
pub(crate) enum Listing {
    Claimed,
    Undecided,
}

/// The packages that a part of a report tells.
#[derive(Clone, Copy)]
pub(crate) enum Part {
    NotInstallable,
    OutOfDate,
    NotKnown,
    /// Those whose list of this kind isn't empty.
    With(Listing),
}

/// The packages in a list of a claim.
pub(crate) fn claim_list(claim: &Claim, kind: Listing) -> &[u32]
    ensures { result.now ≡ list_of kind claim.now }
{
    match (claim, kind) {
        (Claim::Strong(on, _), Listing::Claimed) => on.as_slice(),
        (Claim::Strong(_, undecided), Listing::Undecided) => undecided.as_slice(),
        _ => &[],
    }
}

/// The pairs in a list of a claim.
pub(crate) fn claim_pairs(claim: &Claim, kind: Listing) -> &[(u32, u32)]
    ensures { result.now ≡ pairs_of kind claim.now }
{
    match (claim, kind) {
        (Claim::Challenged(by, _), Listing::Claimed) => by.as_slice(),
        (Claim::Challenged(_, undecided), Listing::Undecided) => undecided.as_slice(),
        _ => &[],
    }
}

/// Whether a part tells the package of a claim.
fn is_told(claim: &Claim, part: Part) -> bool
    ensures { result ≡ is_part part claim.now }
{
    match part {
        Part::NotInstallable => matches!(claim, Claim::Uninstallable),
        Part::OutOfDate => matches!(claim, Claim::Outdated),
        Part::NotKnown => matches!(claim, Claim::Unknown),
        Part::With(kind) => !claim_list(claim, kind).is_empty(),
    }
}

/// The packages that a part tells.
pub(crate) fn told(alloc: Global, claims: &Claims, part: Part) -> Result<Vec<u32>, AllocError>
    requires { length claims.now < 2 ^ 32 }
    ensures { IfOk result (λ numbers. numbers.items ≡ packages_with (is_part part) claims.now) }
{
    let mut numbers = Vec::new(alloc);
    for number in 0..claims.len() {
        if is_told(claims.get(number), part) {
            numbers.push(number as u32)?;
        }
    }
    Ok(numbers)
}

/// The lines before the first list of a report of this kind, in a vector with so much room.
pub(crate) fn opened(
    alloc: Global,
    repo: &Repository,
    kind: &[u8],
    limit: u32,
    room: usize,
) -> Result<Vec<u8>, AllocError>
    ensures { IfOk result (λ out. out.items ≡ opening_lines kind.now repo.now.packages limit) }
{
    let mut out = Vec::with_capacity(alloc, room)?;
    let mut buffer = Buffer::new();
    write_string(&mut out, b"report: ", kind)?;
    out.extend_from_slice(b"limit: ")?;
    out.extend_from_slice(buffer.format(limit).as_bytes())?;
    out.extend_from_slice(b"\npackages: ")?;
    out.extend_from_slice(buffer.format(repo.len()).as_bytes())?;
    out.push(b'\n')?;
    Ok(out)
}

/// Adds the packages that a part tells.
pub(crate) fn write_part(
    alloc: Global,
    out: &mut Vec<u8>,
    labels: &Labels,
    claims: &Claims,
    key: &[u8],
    part: Part,
) -> Result<(), AllocError>
    requires { length claims.now < 2 ^ 32 }
    ensures { OnOk result (out.new.items ≡ out.old.items ++ told_packages key.now (is_part part) labels.now.packages claims.now) }
{
    let numbers = told(alloc, claims, part)?;
    write_packages(out, labels, key, b"  - ", &numbers)?;
    Ok(())
}
