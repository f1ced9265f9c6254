//! Reports of claims of each kind, whole.
use dist_cert::{CertKind, Claim, Claims, Header, Items};
use dist_repo::Repository;
use dist_report::{reports_are_one, some_has_mark, text};
use dist_samples::{Said, repository};
use std::alloc::Global;

/// A claim of packages.
fn strong(alloc: Global, on: &[u32], undecided: &[u32]) -> Option<Claim> {
    match on.to_vec(alloc) {
        Ok(on) => match undecided.to_vec(alloc) {
            Ok(undecided) => Some(Claim::Strong(Items::from_vec(on), Items::from_vec(undecided))),
            Err(_) => {
                drop(on);
                None
            }
        },
        Err(_) => None,
    }
}

/// A claim of pairs.
fn challenged(alloc: Global, by: &[(u32, u32)], undecided: &[(u32, u32)]) -> Option<Claim> {
    match by.to_vec(alloc) {
        Ok(by) => match undecided.to_vec(alloc) {
            Ok(undecided) => Some(Claim::Challenged(
                Items::from_vec(by),
                Items::from_vec(undecided),
            )),
            Err(_) => {
                drop(by);
                None
            }
        },
        Err(_) => None,
    }
}

/// The claim of constant lists.
fn claim(alloc: Global, said: &Said) -> Option<Claim> {
    match said {
        Said::Uninstallable => Some(Claim::Uninstallable),
        Said::Unknown => Some(Claim::Unknown),
        Said::Strong(on, undecided) => strong(alloc, on, undecided),
        Said::Outdated => Some(Claim::Outdated),
        Said::Alive => Some(Claim::Alive),
        Said::Challenged(by, undecided) => challenged(alloc, by, undecided),
    }
}

/// Adds the claim of constant lists.
fn add_claim(alloc: Global, claims: &mut Claims, said: &Said) -> bool {
    match claim(alloc, said) {
        Some(claim) => claims.push(claim).is_ok(),
        None => false,
    }
}

/// Adds the claims of constant lists.
fn add_claims(alloc: Global, claims: &mut Claims, said: &[Said]) -> bool {
    for one in said {
        if !add_claim(alloc, claims, one) {
            return false;
        }
    }
    true
}

/// What is claimed of the packages of some stanzas, whether something is left undecided, and the report.
struct Row {
    kind: CertKind,
    stanzas: &'static str,
    said: &'static [Said],
    marked: bool,
    report: &'static str,
}

const ROWS: &[Row] = &[
    // A diamond.
    Row {
        kind: CertKind::Strong,
        stanzas: "Package: a\nVersion: 1\nDepends: b | c\n\nPackage: b\nVersion: 1\nDepends: d\n\nPackage: c\nVersion: 1\nDepends: d\n\nPackage: d\nVersion: 1\n",
        said: &[
            Said::Strong(&[3], &[]),
            Said::Strong(&[3], &[]),
            Said::Strong(&[3], &[]),
            Said::Strong(&[], &[]),
        ],
        marked: false,
        report: "report: \"strong\"
limit: 10000
packages: 4
uninstallable: []
strong:
  - package: \"a=1\"
    on:
      - \"d=1\"
  - package: \"b=1\"
    on:
      - \"d=1\"
  - package: \"c=1\"
    on:
      - \"d=1\"
impact:
  - package: \"d=1\"
    of:
      - \"a=1\"
      - \"b=1\"
      - \"c=1\"
undecided: []
undecided_pairs: []
",
    },
    // Claims of each letter, with marks.
    Row {
        kind: CertKind::Strong,
        stanzas: "Package: a\nVersion: 1\nDepends: e\n\nPackage: b\nVersion: 1\n\nPackage: c\nVersion: 1\nDepends: d\n\nPackage: d\nVersion: 1\n",
        said: &[
            Said::Uninstallable,
            Said::Unknown,
            Said::Strong(&[], &[3]),
            Said::Strong(&[], &[]),
        ],
        marked: true,
        report: "report: \"strong\"
limit: 10000
packages: 4
uninstallable:
  - \"a=1\"
strong: []
impact: []
undecided:
  - \"b=1\"
undecided_pairs:
  - package: \"c=1\"
    on:
      - \"d=1\"
",
    },
    // Claims of other kinds are told nowhere.
    Row {
        kind: CertKind::Strong,
        stanzas: "Package: a\nVersion: 1\n\nPackage: b\nVersion: 1\n",
        said: &[Said::Outdated, Said::Challenged(&[(0, 0)], &[])],
        marked: false,
        report: "report: \"strong\"
limit: 10000
packages: 2
uninstallable: []
strong: []
impact: []
undecided: []
undecided_pairs: []
",
    },
    Row {
        kind: CertKind::Outdated,
        stanzas: "Package: a\nVersion: 1\n\nPackage: b\nVersion: 2\n\nPackage: c\nVersion: 3\n\nPackage: d\nVersion: 4\n",
        said: &[Said::Outdated, Said::Alive, Said::Unknown, Said::Outdated],
        marked: true,
        report: "report: \"outdated\"
limit: 10000
packages: 4
outdated:
  - \"a=1\"
  - \"d=4\"
undecided:
  - \"c=3\"
",
    },
    Row {
        kind: CertKind::Outdated,
        stanzas: "",
        said: &[],
        marked: false,
        report: "report: \"outdated\"
limit: 10000
packages: 0
outdated: []
undecided: []
",
    },
    // Later versions of a library at and above a bound break the program that needs it below.
    Row {
        kind: CertKind::Challenged,
        stanzas: "Package: libx\nVersion: 1\n\nPackage: p\nVersion: 1\nDepends: libx (<< 2)\n",
        said: &[
            Said::Challenged(&[], &[]),
            Said::Challenged(&[(0, 1), (0, 2)], &[]),
        ],
        marked: false,
        report: "report: \"challenged\"
limit: 10000
packages: 2
uninstallable: []
challenged:
  - cluster: \"libx=1\"
    class: \"= 2\"
    example: \"2\"
    breaks:
      - \"p=1\"
  - cluster: \"libx=1\"
    class: \">> 2\"
    example: \"2-0A\"
    breaks:
      - \"p=1\"
undecided: []
undecided_classes: []
",
    },
    // A cluster of two members, pairs out of order and twice, and pairs of no class; all is undecided of one package.
    Row {
        kind: CertKind::Challenged,
        stanzas: "Package: a\nVersion: 1+b1\nSource: s (1)\nDepends: b (<< 2.0) | foo\n\nPackage: c\nVersion: 1\nDepends: a\n\nPackage: b\nVersion: 1\nSource: s\n\nPackage: d\nVersion: 1\n",
        said: &[
            Said::Uninstallable,
            Said::Unknown,
            Said::Challenged(
                &[(0, 2), (0, 0), (0, 0), (5, 0), (0, 3), (1, 1)],
                &[(0, 1), (1, 0), (4_294_967_295, 4_294_967_295)],
            ),
            Said::Challenged(&[(0, 2)], &[]),
        ],
        marked: true,
        report: "report: \"challenged\"
limit: 10000
packages: 4
uninstallable:
  - \"a=1+b1\"
challenged:
  - cluster: \"a=1+b1\"
    class: \">> 1+b1, << 2.0\"
    example: \"1+b1-0A~~~\"
    breaks:
      - \"c=1\"
  - cluster: \"a=1+b1\"
    class: \">> 2.0\"
    example: \"2.0-0A\"
    breaks:
      - \"c=1\"
      - \"d=1\"
undecided:
  - \"b=1\"
undecided_classes:
  - cluster: \"a=1+b1\"
    class: \"= 2.0\"
    example: \"2.0\"
    breaks:
      - \"c=1\"
  - cluster: \"c=1\"
    class: \">> 1\"
    example: \"1-0A\"
    breaks:
      - \"c=1\"
",
    },
    Row {
        kind: CertKind::Challenged,
        stanzas: "",
        said: &[],
        marked: false,
        report: "report: \"challenged\"
limit: 10000
packages: 0
uninstallable: []
challenged: []
undecided: []
undecided_classes: []
",
    },
];

/// Whether claims on a repository are reported as a row says.
fn is_reported(alloc: Global, repository: &Repository, claims: &Claims, row: &Row) -> bool {
    let header = Header {
        kind: row.kind,
        limit: 10_000,
        packages: 0,
        variables: 0,
        clauses: 0,
        essential: false,
    };
    match text(alloc, repository, &header, claims) {
        Ok(report) => {
            let same = report.as_slice() == row.report.as_bytes();
            drop(report);
            same
        }
        Err(_) => false,
    }
}

/// Whether a row over its repository is told as it stands.
fn is_told_of(alloc: Global, repository: &Repository, row: &Row) -> bool {
    let mut claims = Claims::new(alloc);
    let told = add_claims(alloc, &mut claims, row.said)
        && is_reported(alloc, repository, &claims, row)
        && some_has_mark(&claims) == row.marked;
    drop(claims);
    told
}

/// Whether a row is told as it stands.
fn is_told(alloc: Global, row: &Row) -> bool {
    match repository(alloc, row.stanzas) {
        Some(repository) => {
            let told = is_told_of(alloc, &repository, row);
            drop(repository);
            told
        }
        None => false,
    }
}

/// The first report that is told otherwise.
fn wrong_report(alloc: Global, rows: &[Row]) -> Option<&'static str> {
    for row in rows {
        if !is_told(alloc, row) {
            return Some(row.report);
        }
    }
    None
}

#[test]
fn claims_are_told(rt: HostRuntime) {
    assert_eq!(rt; wrong_report(rt.alloc(), ROWS), None);
}

#[test]
fn reports_are_lawful() {
    reports_are_one();
}
