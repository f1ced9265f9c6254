//! Worked rows: whole reports of classes, the label of a package, and the lines of health.
ghost use Rattle.dist_report.specs.HealthText.{HasText};

use dist_now::Health;
use dist_repo::Repository;
use dist_report::{
    classes_text, classes_texts_are_one, health_text, print_label, strings_are_plain,
};
use dist_samples::repository;
use std::alloc::Global;

const MEMBERS: &str =
    "Package: a\nVersion: 1+b1\nSource: s (1)\nDepends: b (<< 2.0) | foo\n\nPackage: b\nVersion: 1\nSource: s\n";

const REPORT: &str = "report: \"classes\"
packages: 2
clusters:
  - cluster: \"a=1+b1\"
    source: \"s\"
    top: \"1+b1\"
    members:
      - \"a=1+b1\"
      - \"b=1\"
    classes:
      - class: \">> 1+b1, << 2.0\"
        example: \"1+b1-0A~~~\"
      - class: \"= 2.0\"
        example: \"2.0\"
      - class: \">> 2.0\"
        example: \"2.0-0A\"
names:
  - name: \"foo\"
    classes:
      - class: \"any\"
        example: \"0\"
";

const NO_PACKAGES: &str = "report: \"classes\"
packages: 0
clusters: []
names: []
";

/// Whether the report of the classes of at most 100 packages is this text.
fn classes_are(alloc: Global, repo: &Repository, expected: &str) -> bool {
    if repo.len() > 100 {
        return false;
    }
    match classes_text(alloc, repo) {
        Ok(text) => {
            let same = text.as_slice() == expected.as_bytes();
            drop(text);
            same
        }
        Err(_) => false,
    }
}

/// Whether the report of some stanzas is this text.
fn report_is(alloc: Global, stanzas: &str, expected: &str) -> bool {
    match repository(alloc, stanzas) {
        Some(repo) => {
            let so = classes_are(alloc, &repo, expected);
            drop(repo);
            so
        }
        None => false,
    }
}

#[test]
fn a_report_is_written(rt: HostRuntime) {
    assert!(rt; report_is(rt.alloc(), MEMBERS, REPORT));
}

#[test]
fn nothing_is_told_of_no_packages(rt: HostRuntime) {
    assert!(rt; report_is(rt.alloc(), "", NO_PACKAGES));
}

/// Two versions of one package.
const VERSIONS: &str = "Package: a\nVersion: 1\nSource: s\n\nPackage: a\nVersion: 2\nSource: s\n";

/// Whether the label of the first package is this text.
fn label_is(alloc: Global, repo: &Repository, expected: &str) -> bool {
    let mut out = Vec::new(alloc);
    let so = repo.len() > 0
        && print_label(repo.package(0), &mut out).is_ok()
        && out.as_slice() == expected.as_bytes();
    drop(out);
    so
}

/// Whether the label of the first of two versions is this text.
fn first_label_is(alloc: Global, expected: &str) -> bool {
    match repository(alloc, VERSIONS) {
        Some(repo) => {
            let so = label_is(alloc, &repo, expected);
            drop(repo);
            so
        }
        None => false,
    }
}

#[test]
fn a_label_is_printed(rt: HostRuntime) {
    assert!(rt; first_label_is(rt.alloc(), "a=1"));
}

/// Whether the line of a health is this text.
fn health_is(alloc: Global, repo: &Repository, health: &Health, expected: &str) -> bool
    requires { HasText repo.now.packages health.now }
{
    match health_text(alloc, repo, health) {
        Ok(line) => {
            let same = line.as_slice() == expected.as_bytes();
            drop(line);
            same
        }
        Err(_) => false,
    }
}

/// Whether each health of two versions has its line.
fn healths_are(alloc: Global, repo: &Repository) -> bool {
    repo.len() == 2
        && health_is(alloc, repo, &Health::Healthy, "healthy\n")
        && health_is(
            alloc,
            repo,
            &Health::TwoVersions(0, 1),
            "two versions a=1 a=2\n",
        )
        && health_is(alloc, repo, &Health::Conflict(0, 1), "conflict a=1 a=2\n")
}

/// Whether each health of the two versions has its line.
fn healths_are_told(alloc: Global) -> bool {
    match repository(alloc, VERSIONS) {
        Some(repo) => {
            let so = healths_are(alloc, &repo);
            drop(repo);
            so
        }
        None => false,
    }
}

#[test]
fn a_health_is_told(rt: HostRuntime) {
    assert!(rt; healths_are_told(rt.alloc()));
}

#[test]
fn laws_hold(_rt: HostRuntime) {
    classes_texts_are_one();
    strings_are_plain();
}
