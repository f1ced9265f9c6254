//! What the repository of a file answers: worked rows, and cases of Debian Policy 7.1 to 7.5.
ghost use Rattle.std.specs.Prelude.{◌<◌, length};

use dist_relation::Atom;
use dist_repo::{Package, Repository, each_stands_once, latest_is_one};
use dist_samples::{PYTHON, repository};
use dist_version::Version;
use std::alloc::{AllocError, Global};

/// Two versions of a, and b.
const THREE: &str =
    "Package: b\nVersion: 1\n\nPackage: a\nVersion: 2\n\nPackage: a\nVersion: 1.0\n";

/// Package a depends on one thing and conflicts with another, b provides x, and c provides x for another architecture.
const LINKED: &str =
    "Package: a\nVersion: 1\nDepends: z, c | x (>= 1)\nConflicts: y, b\n\nPackage: b\nVersion: 1\nProvides: x\n\nPackage: c\nVersion: 1\nProvides: x:i386\n";

/// What is to hold of a repository.
#[derive(Clone, Copy)]
enum Fact {
    /// The package of a name and a version has this number, or there is none.
    Number(&'static str, &'static str, Option<u32>),
    /// A name has these providers.
    Providers(&'static str, &'static [u32]),
    /// The alternative of the first package at a place of an item has these providers.
    OfAlternative(usize, usize, &'static [u32]),
    /// The conflict atom of the first package at a place has these providers.
    OfConflict(usize, &'static [u32]),
    /// It is within the stated size and for no architecture, and has so many packages. Each name has one version, or not.
    Shape(u32, bool),
    /// There are so many newest versions, and the first of them is the package of this number.
    Newest(u32, u32),
    /// The package of the stanza of Debian 12 is the only one.
    Python,
    /// A question has this answer.
    Answer(Question, bool),
}

/// A question to the repository of a, which provides x, and of y, both of version 1.
#[derive(Clone, Copy)]
enum Question {
    /// Whether the first atom of a's Depends matches y, on amd64.
    Matches,
    /// Whether the qualifier of the first atom of a's Depends is usable, on amd64.
    Usable,
    /// Whether a and y are in conflict, for no architecture.
    Conflict,
}

/// The providers of an alternative of the first package, where it is there.
fn of_alternative<'r>(repository: &'r Repository, item: usize, place: usize) -> Option<&'r [u32]> {
    if repository.len() == 0 || item >= repository.package(0).depends.len() {
        return None;
    }
    let alternatives = repository.package(0).depends.get(item);
    if place >= alternatives.len() {
        return None;
    }
    Some(repository.providers(alternatives.get(place).name.bytes()))
}

/// The providers of a conflict atom of the first package, where it is there.
fn of_conflict<'r>(repository: &'r Repository, place: usize) -> Option<&'r [u32]> {
    if repository.len() == 0 || place >= repository.package(0).conflicts.len() {
        return None;
    }
    let atom = repository.package(0).conflicts.get(place);
    Some(repository.providers(atom.name.bytes()))
}

/// Whether a repository finds a package by this number.
fn is_found(
    repository: &Repository,
    alloc: Global,
    key: (&str, &str),
    number: Option<u32>,
) -> bool {
    match Version::read(alloc, key.1.as_bytes()) {
        Ok(version) => {
            let found = repository.find(key.0.as_bytes(), &version);
            drop(version);
            found == number
        }
        Err(_) => false,
    }
}

/// Whether a repository is within the stated size and for no architecture, with so many packages, of each name one or not.
fn has_shape(repository: &Repository, packages: u32, flat: bool) -> bool {
    repository.is_within_size()
        && repository.architecture().is_none()
        && repository.len() == packages
        && repository.is_flat() == flat
}

/// Whether a package and the copy of another are equal.
fn is_copy(package: &Package, other: &Package) -> bool {
    match other.try_clone() {
        Ok(copy) => {
            let same = copy == *package;
            drop(copy);
            same
        }
        Err(_) => false,
    }
}

/// Whether a repository has so many packages, of each name one, and begins with the package of a number of another.
fn begins_with(newest: &Repository, packages: u32, all: &Repository, number: u32) -> bool {
    has_shape(newest, packages, true)
        && newest.len() > 0
        && number < all.len()
        && is_copy(all.package(number), newest.package(0))
}

/// Whether there are so many newest versions, and the first of them is the package of a number.
fn has_newest(repository: &Repository, packages: u32, number: u32) -> bool {
    match repository.latest() {
        Ok(newest) => {
            let begins = begins_with(&newest, packages, repository, number);
            drop(newest);
            begins
        }
        Err(_) => false,
    }
}

/// Whether a package is that of the stanza.
fn is_python(package: &Package) -> bool {
    package.source.bytes() == b"python3-defaults".as_slice()
        && package.source_version.text() == b"3.11.2-1".as_slice()
        && package.depends.len() == 3
        && package.provides.len() == 1
        && !package.essential
}

/// Whether a repository is for amd64.
fn is_for_amd64(repository: &Repository) -> bool {
    match repository.architecture() {
        Some(architecture) => architecture.bytes() == b"amd64".as_slice(),
        None => false,
    }
}

/// Whether the package of the stanza is the only one of a repository.
fn has_python_alone(repository: &Repository) -> bool {
    repository.len() == 1 && is_python(repository.package(0)) && is_for_amd64(repository)
}

/// The first atom of what a package depends on.
fn first_atom<'p>(package: &'p Package) -> Option<&'p Atom> {
    if package.depends.len() == 0 {
        return None;
    }
    let alternatives = package.depends.get(0);
    if alternatives.len() == 0 {
        return None;
    }
    Some(alternatives.get(0))
}

/// Whether two packages are in conflict, if each of them says so of the other, and a package isn't with itself.
fn conflict(repository: &Repository, first: &Package, second: &Package) -> Option<bool> {
    let answer = repository.conflict(first, second);
    if repository.conflict(second, first) != answer || repository.conflict(first, first) {
        return None;
    }
    Some(answer)
}

/// Whether an atom matches y, if both calls that tell it agree.
fn matches_y(repository: &Repository, atom: &Atom) -> Option<bool>
    requires { 1 < length repository.now.packages }
{
    let answer = repository.matches(atom, repository.package(1));
    let is_found = repository
        .matched(atom)
        .iter()
        .any(|offer| offer.number == 1);
    if is_found != answer {
        return None;
    }
    Some(answer)
}

/// The answer of a repository.
fn answer(repository: &Repository, question: Question) -> Option<bool> {
    if repository.len() < 2 {
        return None;
    }
    let (a, y) = (repository.package(0), repository.package(1));
    match question {
        Question::Matches => matches_y(repository, first_atom(a)?),
        Question::Usable => Some(repository.usable(&first_atom(a)?.qualifier)),
        Question::Conflict => conflict(repository, a, y),
    }
}

/// Whether a fact holds of a repository.
fn holds(alloc: Global, repository: &Repository, fact: Fact) -> bool {
    match fact {
        Fact::Number(name, version, number) => is_found(repository, alloc, (name, version), number),
        Fact::Providers(name, numbers) => repository.providers(name.as_bytes()) == numbers,
        Fact::OfAlternative(item, place, numbers) => {
            of_alternative(repository, item, place) == Some(numbers)
        }
        Fact::OfConflict(place, numbers) => of_conflict(repository, place) == Some(numbers),
        Fact::Shape(packages, flat) => has_shape(repository, packages, flat),
        Fact::Newest(packages, number) => has_newest(repository, packages, number),
        Fact::Python => has_python_alone(repository),
        Fact::Answer(question, expected) => answer(repository, question) == Some(expected),
    }
}

/// Whether a fact holds of the repository of a file.
fn holds_of(alloc: Global, text: &str, fact: Fact) -> bool {
    match repository(alloc, text) {
        Some(repository) => {
            let told = holds(alloc, &repository, fact);
            drop(repository);
            told
        }
        None => false,
    }
}

/// A file, and what is to hold of its repository.
type Stated = (&'static str, Fact);

/// The place of the first row whose fact does not hold, or none.
fn first_wrong(alloc: Global, rows: &[Stated]) -> Option<usize> {
    for place in 0..rows.len() {
        let (text, fact) = rows[place];
        if !holds_of(alloc, text, fact) {
            return Some(place);
        }
    }
    None
}

const NUMBERS: &[Stated] = &[
    (THREE, Fact::Number("a", "1.0-0", Some(0))),
    (THREE, Fact::Number("b", "2", None)),
];

const PROVIDERS: &[Stated] = &[
    (THREE, Fact::Providers("a", &[0, 1])),
    (LINKED, Fact::OfAlternative(1, 0, &[2])),
    (LINKED, Fact::OfAlternative(1, 1, &[1])),
    (LINKED, Fact::OfConflict(0, &[])),
    (LINKED, Fact::OfConflict(1, &[1])),
];

const WHOLES: &[Stated] = &[
    (THREE, Fact::Shape(3, false)),
    (THREE, Fact::Newest(2, 1)),
    (LINKED, Fact::Shape(3, true)),
    (PYTHON, Fact::Python),
];

#[test]
fn versions_of_a_name(rt: HostRuntime) {
    assert_eq!(rt; first_wrong(rt.alloc(), NUMBERS), None);
}

#[test]
fn providers_of_names_and_atoms(rt: HostRuntime) {
    assert_eq!(rt; first_wrong(rt.alloc(), PROVIDERS), None);
}

#[test]
fn newest_versions_and_whole_repositories(rt: HostRuntime) {
    assert_eq!(rt; first_wrong(rt.alloc(), WHOLES), None);
}

/// An atom that a depends on or conflicts with, what y provides, and the answer.
type Row = (&'static str, &'static str, bool);

const MATCHES: &[Row] = &[
    ("y", "", true),
    ("y (>> 1)", "", false),
    ("y (= 0:1-0)", "", true),
    ("y:any", "", true),
    ("y:native", "", true),
    ("y:amd64", "", true),
    ("y:i386", "", false),
    ("x", "", false),
    ("x", "x", true),
    ("x (>= 1)", "x", false),
    ("x (>= 1)", "x (= 1)", true),
    ("x (<< 1)", "x (= 1), x (= 0.9)", true),
    ("x", "x:amd64", true),
    ("x", "x:i386", false),
];

const USABLE: &[Row] = &[
    ("x", "", true),
    ("x:any", "", true),
    ("x:native", "", true),
    ("x:amd64", "", true),
    ("x:all", "", false),
    ("x:i386", "", false),
];

const CONFLICTS: &[Row] = &[
    ("y", "", true),
    ("y (<< 1)", "", false),
    ("y:i386", "", false),
    ("x", "", false),
    ("x", "x", true),
    ("x (>= 1)", "x", false),
    ("x (>= 1)", "x (= 2)", true),
];

/// The file of a row: a and y, for amd64 or for no architecture.
fn text_of(alloc: Global, question: Question, row: &Row) -> Result<String, AllocError> {
    let (architecture, field) = match question {
        Question::Conflict => ("all", "Conflicts"),
        _ => ("amd64", "Depends"),
    };
    let (atom, provides, _) = *row;
    format!(in alloc;
        "Package: a\nVersion: 1\nArchitecture: {architecture}\nProvides: x\n{field}: {atom}\n\nPackage: y\nVersion: 1\nProvides: {provides}\n"
    )
}

/// Whether a row is answered as it says.
fn is_answered(alloc: Global, question: Question, row: &Row) -> bool {
    match text_of(alloc, question, row) {
        Ok(text) => {
            let told = holds_of(alloc, text.as_str(), Fact::Answer(question, row.2));
            drop(text);
            told
        }
        Err(_) => false,
    }
}

/// The place of the first row that is answered otherwise, or none.
fn first_answered_otherwise(alloc: Global, question: Question, rows: &[Row]) -> Option<usize> {
    for place in 0..rows.len() {
        if !is_answered(alloc, question, &rows[place]) {
            return Some(place);
        }
    }
    None
}

#[test]
fn matches(rt: HostRuntime) {
    assert_eq!(rt;
        first_answered_otherwise(rt.alloc(), Question::Matches, MATCHES),
        None
    );
}

#[test]
fn usable(rt: HostRuntime) {
    assert_eq!(rt;
        first_answered_otherwise(rt.alloc(), Question::Usable, USABLE),
        None
    );
}

#[test]
fn conflicts(rt: HostRuntime) {
    assert_eq!(rt;
        first_answered_otherwise(rt.alloc(), Question::Conflict, CONFLICTS),
        None
    );
}

#[test]
fn the_laws_hold() {
    each_stands_once();
    latest_is_one();
}
