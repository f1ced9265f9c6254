//! Packages whose installations use more clusters than a claim goes through: `challenged` and `check` by the top call.

use crate::commands::{add_number, checked_certificate};
use std::alloc::{AllocError, Global};
use std::test::Fail;

/// The packages are p1000 to p2499, of which each but the last needs the next one. A claim goes through the pairs of an installation
/// that uses 1,024 clusters at most.
const FIRST: u32 = 1_000;

const LAST: u32 = 2_499;

/// More bytes than the certificate has, and fewer than with an installation for each package that needs more than 1,024 others.
const MOST_BYTES: usize = 200_000;

/// What both commands tell: no upload challenges a package.
const REPORT: &str = "report: \"challenged\"
limit: 10000
packages: 1500
uninstallable: []
challenged: []
undecided: []
undecided_classes: []
";

/// Adds the packages.
fn add_packages(text: &mut Vec<u8>) -> Result<(), AllocError> {
    for number in FIRST..LAST {
        add_number(text, b"Package: p", number)?;
        add_number(text, b"\nVersion: 1\nDepends: p", number + 1)?;
        text.extend_from_slice(b"\n\n")?;
    }
    add_number(text, b"Package: p", LAST)?;
    text.extend_from_slice(b"\nVersion: 1\n")
}

/// The packages.
fn packages(alloc: Global) -> Result<Vec<u8>, AllocError> {
    let mut text = Vec::new(alloc);
    match add_packages(&mut text) {
        Ok(()) => Ok(text),
        Err(error) => {
            drop(text);
            Err(error)
        }
    }
}

/// How many bytes the certificate of `challenged` has, where that and `check` both tell the report.
fn certificate_length(alloc: Global) -> Result<Option<usize>, AllocError> {
    let packages = packages(alloc)?;
    let certificate = checked_certificate(alloc, &packages, "challenged", REPORT);
    drop(packages);
    match certificate? {
        Some(certificate) => {
            let length = certificate.len();
            drop(certificate);
            Ok(Some(length))
        }
        None => Ok(None),
    }
}

#[test]
fn one_large_installation_does_for_many_packages(rt: HostRuntime) -> Result<(), Fail> {
    let length = certificate_length(rt.alloc())?;
    assert_eq!(rt; length.is_some_and(|bytes| bytes < MOST_BYTES), true);
    Ok(())
}
