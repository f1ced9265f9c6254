//! Whether a package is a new version of another one, by what it provides.
ghost use Rattle.std.specs.Bool.{OnTrue};
ghost use Rattle.std.specs.Prelude.{◌≡◌, ◌≤◌, ◌↔◌, ◌∷◌, IfSome, IsSomeAnd, IsTrue, List, drop, length};
ghost use Rattle.dist_relation.specs.declared.atom.Provide.{Provide};
ghost use Rattle.dist_version.specs.Spelling.{IsVersion};
ghost use Rattle.dist_classes.specs.NewVersion.{IsAt, IsCarried, IsNewOf};
ghost use Rattle.dist_archive.specs.CarriedPrivate.{CanCarry, IsCarriedFrom, IsVersionCarried};

use crate::entry_places::guess;
use dist_relation::{Provide, Provides};
use dist_repo::Package;
use dist_version::Version;

/// Whether an entry has a version that is equal to this one.
fn is_at(entry: &Provide, version: &Version) -> bool
    ensures value { IsTrue result ↔ IsAt entry.now version.now }
    ensures spelled { OnTrue result (IsSomeAnd entry.now.version IsVersion) }
{
    match &entry.version {
        Some(own) => {
            own.keeps_invariant();
            own.compare(version).is_eq()
        }
        None => false,
    }
}

/// Whether two entries have the same name and qualifier.
fn are_named_alike(entry: &Provide, other: &Provide) -> bool
    ensures { IsTrue result ↔ ((other.now.name ≡ entry.now.name) × (other.now.qualifier ≡ entry.now.qualifier)) }
{
    other.name == entry.name && other.qualifier == entry.qualifier
}

/// Whether the version of an entry of a package of one version is carried to the other version as that of another entry.
fn is_version_carried(old: &Version, new: &Version, entry: &Provide, carried: &Provide) -> bool
    ensures { IsTrue result ↔ IsVersionCarried old.now new.now entry.now carried.now }
{
    if is_at(entry, old) {
        is_at(carried, new)
    } else {
        carried.version == entry.version
    }
}

/// Whether an entry of a package of one version is carried to the other version as this one.
fn is_carried(old: &Version, new: &Version, entry: &Provide, carried: &Provide) -> bool
    ensures { IsTrue result ↔ IsCarried old.now new.now entry.now carried.now }
{
    are_named_alike(entry, carried) && is_version_carried(old, new, entry, carried)
}

/// The place behind an entry that was looked for, where this one is carried to it, or else that place itself.
fn next_place(
    old: &Version,
    new: &Version,
    entry: &Provide,
    carried: &Provides,
    place: usize,
) -> usize
    requires { place ≤ length carried.now }
    ensures within { result ≤ length carried.now }
    ensures same { (entries : List Provide) → CanCarry old.now new.now (entry.now ∷ entries) (drop place carried.now)
        ↔ CanCarry old.now new.now entries (drop result carried.now) }
{
    if place >= carried.len() {
        return place;
    }
    if !is_carried(old, new, entry, carried.get(place)) {
        return place;
    }
    place + 1
}

/// Whether entries are some of others, in their order, each carried. Of the others the first that fits is taken each time.
fn are_carried(old: &Version, new: &Version, entries: &Provides, carried: &Provides) -> bool
    ensures { IsTrue result ↔ CanCarry old.now new.now entries.now carried.now }
{
    let mut place = 0;
    for number in 0..entries.len() {
        place = next_place(old, new, entries.get(number), carried, place);
    }
    place == carried.len()
}

/// The place behind the entry that is carried as this one, where a guess from a place on finds it.
fn place_behind(
    old: &Package,
    new: &Version,
    carried: &Provide,
    places: &[u32],
    from: usize,
) -> Option<usize>
    requires { from ≤ length old.now.provides }
    ensures { IfSome result (λ behind. IsCarriedFrom old.now.version new.now old.now.provides carried.now from behind) }
{
    let place = guess(places, old, new, carried, from)?;
    if place < from || place >= old.provides.len() {
        return None;
    }
    if !is_carried(&old.version, new, old.provides.get(place), carried) {
        return None;
    }
    Some(place + 1)
}

/// Whether guesses find for each entry of a new version one that is carried as it, in their order.
fn are_found(old: &Package, new: &Package, places: &[u32]) -> bool
    ensures { OnTrue result (CanCarry old.now.version new.now.version old.now.provides new.now.provides) }
{
    let mut from = 0;
    for number in 0..new.provides.len() {
        match place_behind(old, &new.version, new.provides.get(number), places, from) {
            Some(behind) => from = behind,
            None => return false,
        }
    }
    true
}

/// Whether a package is a new version of another one. Guesses by the places of its entries may find those that are carried; where they
/// don't, all of its entries are walked.
pub(crate) fn is_new_of(old: &Package, new: &Package, places: &[u32]) -> bool
    ensures { IsTrue result ↔ IsNewOf old.now new.now }
{
    new.version.keeps_invariant();
    new.name == old.name
        && (are_found(old, new, places)
            || are_carried(&old.version, &new.version, &old.provides, &new.provides))
}
