//! A package with more installations than a claim may name: `strong` and `check` by the top call.

use crate::commands::{add_number, checked_certificate};
use std::alloc::{AllocError, Global};
use std::test::Fail;

/// How many pairs of packages there are. A claim may name the latest 1,024 installations.
const PAIRS: u32 = 1_100;

/// What both commands tell: each package is installable, and needs no other.
const REPORT: &str = "report: \"strong\"
limit: 10000
packages: 2201
uninstallable: []
strong: []
impact: []
undecided: []
undecided_pairs: []
";

/// Adds the two packages of a pair, of which the first goes with no other first one, and that one of them is needed.
fn add_pair(text: &mut Vec<u8>, needed: &mut Vec<u8>, number: u32) -> Result<(), AllocError> {
    add_number(text, b"Package: x", number)?;
    text.extend_from_slice(b"\nVersion: 1\nProvides: x\nConflicts: x\n\n")?;
    add_number(text, b"Package: y", number)?;
    text.extend_from_slice(b"\nVersion: 1\n\n")?;
    let before: &[u8] = if number == 1 { b"x" } else { b", x" };
    add_number(needed, before, number)?;
    add_number(needed, b" | y", number)
}

/// Adds the pairs of packages, and p, which needs one of each.
fn add_packages(text: &mut Vec<u8>, needed: &mut Vec<u8>) -> Result<(), AllocError> {
    for number in 1..=PAIRS {
        add_pair(text, needed, number)?;
    }
    text.extend_from_slice(b"Package: p\nVersion: 1\nDepends: ")?;
    text.extend_from_slice(needed)?;
    text.push(b'\n')?;
    Ok(())
}

/// The pairs of packages, and p, which needs one of each.
fn packages(alloc: Global) -> Result<Vec<u8>, AllocError> {
    let mut text = Vec::new(alloc);
    let mut needed = Vec::new(alloc);
    let added = add_packages(&mut text, &mut needed);
    drop(needed);
    match added {
        Ok(()) => Ok(text),
        Err(error) => {
            drop(text);
            Err(error)
        }
    }
}

/// How many installations a certificate has before the first claim, which is that on p.
fn first_group(certificate: &[u8]) -> usize {
    let mut count = 0usize;
    for line in certificate.split(|byte| *byte == b'\n') {
        if line.starts_with(b"s ") {
            return count;
        }
        if line.starts_with(b"m") {
            count = count.saturating_add(1);
        }
    }
    0
}

/// How many installations p has in its group, where `strong` and `check` both tell the report.
fn installations_of(alloc: Global) -> Result<Option<usize>, AllocError> {
    let packages = packages(alloc)?;
    let certificate = checked_certificate(alloc, &packages, "strong", REPORT);
    drop(packages);
    match certificate? {
        Some(certificate) => {
            let count = first_group(&certificate);
            drop(certificate);
            Ok(Some(count))
        }
        None => Ok(None),
    }
}

/// All pairs have their second package, or all but one, each in turn.
#[test]
fn more_installations_than_a_claim_may_name(rt: HostRuntime) -> Result<(), Fail> {
    assert_eq!(rt; installations_of(rt.alloc())?, Some(1_101));
    Ok(())
}
