//! Values from outside: rows worked by hand from the grammar, and values of Debian 12's Packages file.
use crate::hold;
use dist_relation::{
    Alternatives, Atoms, Items, Name, Provides, RelationError, faults_come, items_take_bytes,
    print_alternatives, read_atoms, read_depends, read_provides, satisfies, values_are_exact,
};
use dist_version::{Version, VersionError};
use std::alloc::Global;

/// Values that stand in Debian 12, which are canonical as they stand.
const CANONICAL: &str = "\
ocaml-nox | java-compiler | c-compiler | c++-compiler | ruby | gprolog | valac | fp-compiler | rhino | guile | python3 | lua | golang | php\n\
fonts-dejavu-core | ttf-bitstream-vera | fonts-liberation | fonts-liberation2 | fonts-croscore | fonts-freefont-otf | fonts-freefont-ttf | fonts-urw-base35 | fonts-texgyre\n\
iceape-browser | iceweasel | icecat | mozilla | firefox | mozilla-firefox | www-browser | sensible-utils\n\
guile-2.2:any (= 2.2.7+1-9)\n\
erlang-edoc:any\n\
binutils-x86-64-linux-gnu:any (>= 2.30-2)\n\
libmodule-pluggable-perl | perl:any (<< 5.17.0)\n\
perl:any (>> 5.8.0) | libmime-base64-perl\n\
python3:any | python3-minimal:any\n\
gcc-s390x-linux-gnu (>= 4:10.2) | gcc:s390x\n\
g++-aarch64-linux-gnu (>= 4:10.2) | g++:arm64\n\
g++-x86-64-linux-gnu (>= 4:10.2) | g++:amd64\n\
libc6-x32:i386\n\
libwine-dev (= 8.0~repack-4) | libwine-dev:i386 (= 8.0~repack-4)\n\
drbl (>> 2.30.5-1~)\n\
python3-paste (>> 3)\n\
itrans (<= 5.3-10)\n\
runit-systemd (<= 2.1.2-36)\n\
bind-dnsutils (<< 1:9.13.6~)\n\
libsm-dev (<< 2:1.2.1)\n\
gcc-arm-linux-gnueabi (>= 4:10.2) | gcc:armel\n\
librust-syn-1+derive-dev (>= 1.0.48-~~)\n\
librust-tinyvec-1+alloc-dev (>= 1.5-~~)\n\
objc++-compiler-arc-linux-gnu\n\
libn32stdc++-12-dev-mips-cross (>= 12.2.0-14cross5)\n\
tk\n\
librust-plist-1.3.1+enable-unstable-features-that-may-break-with-minor-version-bumps-dev (= 1.3.1-1)\n\
vorbis-tools (>= 1.0beta4-1) | lame | flac | speex | musepack-tools | opus-tools\n\
389-ds-base-libs (= 2.3.1+dfsg1-1+deb12u1)\n\
2to3\n\
python3-types-zxcvbn (= 4.4)\n\
php-facedetect (<< 1.1.0-19-g135c72a-10~)\n\
libboxfort (<< 0.0.0-git20200808-ac0507b-1)\n\
snapd (<< 2.44.3+20.04~)\n\
openuniverse (<< 1.0beta3-7)\n\
python3-numpy (>= 1:1.22.0), python3-numpy-abi9, python3 (<< 3.12), python3 (>= 3.11~), python3:any\n\
libc6 (>= 2.34), libgcc-s1 (>= 3.0), libstdc++6 (>= 5.2), zlib1g (>= 1:1.1.4)\n\
debconf (>= 0.5) | debconf-2.0, init-system-helpers (>= 1.54~)\n\
python3-pkg-resources, python3-colorama | python3 (<< 3.5), python3-colorama | python3 (>> 3.5), python3-future, python3-mando (>= 0.6), python3:any\n\
base-files (<< 11.1) | linux-headers-amd64 | linux-headers-arm64 | linux-headers-generic\n";

/// Adds the canonical text of items, with commas between them.
fn print_items(out: &mut Vec<u8>, items: &Items) -> Option<()> {
    for place in 0..items.len() {
        if place > 0 {
            out.extend_from_slice(b", ").ok()?;
        }
        print_alternatives(items.get(place), out).ok()?;
    }
    Some(())
}

/// Adds the canonical text of a Depends value.
fn print_value(alloc: Global, out: &mut Vec<u8>, value: &[u8]) -> bool {
    match read_depends(alloc, value) {
        Ok(items) => {
            let printed = print_items(out, &items).is_some();
            drop(items);
            printed
        }
        Err(_) => false,
    }
}

/// Whether the canonical text of a Depends value is this.
fn prints(alloc: Global, value: &str, canonical: &str) -> bool {
    let mut out = Vec::new(alloc);
    let so = print_value(alloc, &mut out, value.as_bytes())
        && out.as_slice() == canonical.as_bytes();
    drop(out);
    so
}

/// The first value that prints otherwise.
fn wrong_print(alloc: Global, values: &'static str) -> Option<&'static str> {
    for value in values.lines() {
        if !prints(alloc, value, value) {
            return Some(value);
        }
    }
    None
}

#[test]
fn debian_values_print_back(rt: HostRuntime) {
    hold(&rt, wrong_print(rt.alloc(), CANONICAL));
}

/// Values, and their canonical texts.
const SPELLINGS: &[(&str, &str)] = &[
    ("", ""),
    (" \n\t", ""),
    (",, a ,", "a"),
    ("a,b", "a, b"),
    ("a(>=1)", "a (>= 1)"),
    ("a ( < 1 )", "a (<= 1)"),
    ("a (> 1)|b", "a (>= 1) | b"),
    (
        "python3.11:any (>= 3.11.2-1~),\n libpython3-stdlib (= 3.11.2-1+b1)",
        "python3.11:any (>= 3.11.2-1~), libpython3-stdlib (= 3.11.2-1+b1)",
    ),
    ("a\n |\n b:i386\t(<<\n0:1)\n,", "a | b:i386 (<< 0:1)"),
];

/// The first value that, or whose canonical text, prints otherwise.
fn wrong_spelling(alloc: Global, rows: &[(&'static str, &'static str)]) -> Option<&'static str> {
    for (value, canonical) in rows {
        if !prints(alloc, value, canonical) || !prints(alloc, canonical, canonical) {
            return Some(value);
        }
    }
    None
}

#[test]
fn other_spellings_print_canonical(rt: HostRuntime) {
    hold(&rt, wrong_spelling(rt.alloc(), SPELLINGS));
}

/// A value, and its first fault.
type Faulty = (&'static str, RelationError);

const DEPENDS_FAULTS: &[Faulty] = &[
    ("a (>= 1", RelationError::Unclosed(7)),
    ("a (>= 1 x)", RelationError::Unclosed(8)),
    ("a || b", RelationError::BadName(3)),
    ("_a", RelationError::BadName(0)),
    ("a:", RelationError::BadName(2)),
    ("a: any", RelationError::BadName(2)),
    ("a |", RelationError::BadName(3)),
    ("| a", RelationError::BadName(0)),
    ("a (>= 1),b |, c", RelationError::BadName(12)),
    ("a (1)", RelationError::BadOp(3)),
    ("a (", RelationError::BadOp(3)),
    ("a ( == 1)", RelationError::BadOp(4)),
    ("a b", RelationError::Trailing(2)),
    ("a\n b", RelationError::Trailing(3)),
    ("a :any", RelationError::Trailing(2)),
    ("a:any:b", RelationError::Trailing(5)),
    ("a (>= 1) (<< 2)", RelationError::Trailing(9)),
    ("a [amd64]", RelationError::Trailing(2)),
    (
        "a (= 1_2)",
        RelationError::BadVersion(5, VersionError::BadByte(1)),
    ),
    ("a (>=)", RelationError::BadVersion(5, VersionError::Empty)),
    (
        "b, a (>= :1)",
        RelationError::BadVersion(9, VersionError::BadEpoch),
    ),
];

const ATOMS_FAULTS: &[Faulty] = &[
    ("a | b", RelationError::BarNotAllowed(2)),
    ("a, b (>= 1) | c", RelationError::BarNotAllowed(12)),
    ("a ||", RelationError::BarNotAllowed(2)),
];

const PROVIDES_FAULTS: &[Faulty] = &[
    ("a (>= 1)", RelationError::OpInProvides(3)),
    ("a (= 1), b (<< 2)", RelationError::OpInProvides(12)),
    ("a (== 1)", RelationError::BadOp(3)),
    ("a | b", RelationError::BarNotAllowed(2)),
];

/// The first fault of a Depends value.
fn fault_of_depends(alloc: Global, value: &str) -> Option<RelationError> {
    match read_depends(alloc, value.as_bytes()) {
        Ok(items) => {
            drop(items);
            None
        }
        Err(error) => Some(error),
    }
}

/// The first fault of a Conflicts value.
fn fault_of_atoms(alloc: Global, value: &str) -> Option<RelationError> {
    match read_atoms(alloc, value.as_bytes()) {
        Ok(atoms) => {
            drop(atoms);
            None
        }
        Err(error) => Some(error),
    }
}

/// The first fault of a Provides value.
fn fault_of_provides(alloc: Global, value: &str) -> Option<RelationError> {
    match read_provides(alloc, value.as_bytes()) {
        Ok(provides) => {
            drop(provides);
            None
        }
        Err(error) => Some(error),
    }
}

/// The first Depends value with another fault.
fn wrong_depends(alloc: Global, rows: &[Faulty]) -> Option<&'static str> {
    for (value, error) in rows {
        if fault_of_depends(alloc, value) != Some(*error) {
            return Some(value);
        }
    }
    None
}

/// The first Conflicts value with another fault.
fn wrong_atoms(alloc: Global, rows: &[Faulty]) -> Option<&'static str> {
    for (value, error) in rows {
        if fault_of_atoms(alloc, value) != Some(*error) {
            return Some(value);
        }
    }
    None
}

/// The first Provides value with another fault.
fn wrong_provides(alloc: Global, rows: &[Faulty]) -> Option<&'static str> {
    for (value, error) in rows {
        if fault_of_provides(alloc, value) != Some(*error) {
            return Some(value);
        }
    }
    None
}

#[test]
fn faults_have_their_places(rt: HostRuntime) {
    hold(&rt, wrong_depends(rt.alloc(), DEPENDS_FAULTS));
}

#[test]
fn conflicts_and_provides_allow_less(rt: HostRuntime) {
    hold(&rt, wrong_atoms(rt.alloc(), ATOMS_FAULTS));
    hold(&rt, wrong_provides(rt.alloc(), PROVIDES_FAULTS));
}

/// A text, and whether it is a name.
type Named = (&'static str, bool);

const NAMES: &[Named] = &[
    ("a", true),
    ("libstdc++6", true),
    ("2to3", true),
    ("A9+-._", true),
    ("", false),
    ("-a", false),
    ("a b", false),
    ("a:any", false),
    ("a,", false),
];

/// Whether a copy of a name has this text.
fn is_kept(name: &Name, text: &str) -> bool {
    match name.try_clone() {
        Ok(copy) => {
            let so = copy.bytes() == text.as_bytes();
            drop(copy);
            so
        }
        Err(_) => false,
    }
}

/// Whether a text is read as a name where it is one.
fn is_named(alloc: Global, row: &Named) -> bool {
    match Name::read(alloc, row.0.as_bytes()) {
        Ok(name) => {
            let so = row.1 && is_kept(&name, row.0);
            drop(name);
            so
        }
        Err(error) => !row.1 && error == RelationError::BadName(0),
    }
}

/// The first text that is read otherwise.
fn wrong_name(alloc: Global, rows: &[Named]) -> Option<&'static str> {
    for row in rows {
        if !is_named(alloc, row) {
            return Some(row.0);
        }
    }
    None
}

#[test]
fn names_are_read(rt: HostRuntime) {
    hold(&rt, wrong_name(rt.alloc(), NAMES));
}

/// A version, a value, and whether the version meets the bound of the value's first atom.
type Met = (&'static str, &'static str, bool);

const BOUNDS: &[Met] = &[
    ("1", "a (<< 1)", false),
    ("1~", "a (<< 1)", true),
    ("1", "a (< 1)", true),
    ("1", "a (<= 1)", true),
    ("1.0-0", "a (= 1.0)", true),
    ("1.1", "a (= 1.0)", false),
    ("1", "a (> 1)", true),
    ("1", "a (>= 2)", false),
    ("2", "a (>> 1)", true),
    ("0:2", "a (>> 2)", false),
];

/// Whether a version meets the bound of the first atom, where it has one.
fn meets_first(version: &Version, atoms: &Atoms) -> Option<bool> {
    if atoms.len() == 0 {
        return None;
    }
    match &atoms.get(0).bound {
        None => None,
        Some(bound) => Some(satisfies(version, bound)),
    }
}

/// Whether a version meets the bound of the value's first atom, where it has one.
fn meets_value(alloc: Global, version: &Version, value: &str) -> Option<bool> {
    let atoms = read_atoms(alloc, value.as_bytes()).ok()?;
    let met = meets_first(version, &atoms);
    drop(atoms);
    met
}

/// The same of the version of a text.
fn meets(alloc: Global, version: &str, value: &str) -> Option<bool> {
    let version = Version::read(alloc, version.as_bytes()).ok()?;
    let met = meets_value(alloc, &version, value);
    drop(version);
    met
}

/// The first value whose bound is told otherwise.
fn wrong_bound(alloc: Global, rows: &[Met]) -> Option<&'static str> {
    for (version, value, answer) in rows {
        if meets(alloc, version, value) != Some(*answer) {
            return Some(value);
        }
    }
    None
}

#[test]
fn bounds_are_met(rt: HostRuntime) {
    hold(&rt, wrong_bound(rt.alloc(), BOUNDS));
}

/// Whether the third of three items has three alternatives, the second of them e, and these can be copied.
fn ends_with_e(items: &Items) -> bool {
    items.len() == 3 && has_e(items.get(2)) && are_copied(items.get(2))
}

/// Whether there are three alternatives, the second of them e.
fn has_e(alternatives: &Alternatives) -> bool {
    alternatives.len() == 3 && alternatives.get(1).name.bytes() == b"e".as_slice()
}

/// Whether there are three atoms, the last of them c.
fn ends_with_c(atoms: &Atoms) -> bool {
    atoms.len() == 3 && atoms.get(2).name.bytes() == b"c".as_slice()
}

/// Whether the first of two entries has a version, and the second has none.
fn has_one_version(provides: &Provides) -> bool {
    provides.len() == 2 && provides.get(0).version.is_some() && provides.get(1).version.is_none()
}

/// The items of a value with those of another one behind them.
fn joined_items(alloc: Global, first: &[u8], second: &[u8]) -> Option<Items> {
    let mut items = read_depends(alloc, first).ok()?;
    if add_items(alloc, &mut items, second).is_some() {
        Some(items)
    } else {
        drop(items);
        None
    }
}

/// Puts the items of a value behind others.
fn add_items(alloc: Global, items: &mut Items, value: &[u8]) -> Option<()> {
    items.append(read_depends(alloc, value).ok()?).ok()
}

/// The atoms of a value with those of another one behind them.
fn joined_atoms(alloc: Global, first: &[u8], second: &[u8]) -> Option<Atoms> {
    let mut atoms = read_atoms(alloc, first).ok()?;
    if add_atoms(alloc, &mut atoms, second).is_some() {
        Some(atoms)
    } else {
        drop(atoms);
        None
    }
}

/// Puts the atoms of a value behind others.
fn add_atoms(alloc: Global, atoms: &mut Atoms, value: &[u8]) -> Option<()> {
    atoms.append(read_atoms(alloc, value).ok()?).ok()
}

/// Whether a copy of alternatives has as many.
fn are_copied(alternatives: &Alternatives) -> bool {
    match alternatives.try_clone() {
        Ok(copy) => {
            let so = copy.len() == alternatives.len();
            drop(copy);
            so
        }
        Err(_) => false,
    }
}

/// Whether a copy of items ends with the alternatives of e.
fn copy_ends_with_e(items: &Items) -> bool {
    match items.try_clone() {
        Ok(copy) => {
            let so = ends_with_e(&copy);
            drop(copy);
            so
        }
        Err(_) => false,
    }
}

/// Whether items are joined and copied.
fn are_items_joined(alloc: Global) -> bool {
    match joined_items(alloc, b"a | b, c", b"d | e | f") {
        Some(items) => {
            let so = copy_ends_with_e(&items);
            drop(items);
            so
        }
        None => false,
    }
}

/// Whether a copy of atoms ends with c.
fn copy_ends_with_c(atoms: &Atoms) -> bool {
    match atoms.try_clone() {
        Ok(copy) => {
            let so = ends_with_c(&copy);
            drop(copy);
            so
        }
        Err(_) => false,
    }
}

/// Whether atoms are joined and copied.
fn are_atoms_joined(alloc: Global) -> bool {
    match joined_atoms(alloc, b"a, b (>= 1)", b"c:any (= 2)") {
        Some(atoms) => {
            let so = copy_ends_with_c(&atoms);
            drop(atoms);
            so
        }
        None => false,
    }
}

/// Whether a copy of entries has the version of the first alone.
fn copy_has_one_version(provides: &Provides) -> bool {
    match provides.try_clone() {
        Ok(copy) => {
            let so = has_one_version(&copy);
            drop(copy);
            so
        }
        Err(_) => false,
    }
}

/// Whether entries are copied.
fn are_provides_copied(alloc: Global) -> bool {
    match read_provides(alloc, b"a (= 1), b") {
        Ok(provides) => {
            let so = copy_has_one_version(&provides);
            drop(provides);
            so
        }
        Err(_) => false,
    }
}

#[test]
fn lists_are_joined_and_copied(rt: HostRuntime) {
    assert!(rt; are_items_joined(rt.alloc()));
    assert!(rt; are_atoms_joined(rt.alloc()));
    assert!(rt; are_provides_copied(rt.alloc()));
}

/// Values, and whether they are equal to a first one.
const EQUAL: &[(&str, bool)] = &[
    ("a|b:any (> 1),c,", true),
    ("a | b:any (>= 1-0), c", false),
    ("a | b (>= 1), c", false),
    ("a | b:any (>= 1)", false),
];

/// Whether items are equal to those of a value.
fn are_equal_to(alloc: Global, items: &Items, value: &str) -> Option<bool> {
    let other = read_depends(alloc, value.as_bytes()).ok()?;
    let equal = *items == other;
    drop(other);
    Some(equal)
}

/// Whether the items of two values are equal.
fn are_equal(alloc: Global, first: &str, second: &str) -> Option<bool> {
    let items = read_depends(alloc, first.as_bytes()).ok()?;
    let equal = are_equal_to(alloc, &items, second);
    drop(items);
    equal
}

/// Whether entries are equal to their copy.
fn equal_their_copy(provides: &Provides) -> bool {
    match provides.try_clone() {
        Ok(copy) => {
            let so = *provides == copy;
            drop(copy);
            so
        }
        Err(_) => false,
    }
}

/// The same of the entries of a value.
fn are_provides_equal(alloc: Global, value: &str) -> bool {
    match read_provides(alloc, value.as_bytes()) {
        Ok(provides) => {
            let so = equal_their_copy(&provides);
            drop(provides);
            so
        }
        Err(_) => false,
    }
}

/// Whether atoms are equal to their copy.
fn atoms_equal_their_copy(atoms: &Atoms) -> bool {
    match atoms.try_clone() {
        Ok(copy) => {
            let so = *atoms == copy;
            drop(copy);
            so
        }
        Err(_) => false,
    }
}

/// The same of the atoms of a value.
fn are_atoms_equal(alloc: Global, value: &str) -> bool {
    match read_atoms(alloc, value.as_bytes()) {
        Ok(atoms) => {
            let so = atoms_equal_their_copy(&atoms);
            drop(atoms);
            so
        }
        Err(_) => false,
    }
}

/// The first value that is told otherwise.
fn wrong_equality(alloc: Global, rows: &[(&'static str, bool)]) -> Option<&'static str> {
    for (value, equal) in rows {
        if are_equal(alloc, "a | b:any (>= 1), c", value) != Some(*equal) {
            return Some(value);
        }
    }
    None
}

#[test]
fn values_are_equal_by_their_texts(rt: HostRuntime) {
    hold(&rt, wrong_equality(rt.alloc(), EQUAL));
    assert!(rt; are_provides_equal(rt.alloc(), "a (= 1)"));
    assert!(rt; are_atoms_equal(rt.alloc(), "a (<< 1)"));
}

#[test]
fn the_laws_hold() {
    values_are_exact();
    faults_come();
    items_take_bytes();
}
