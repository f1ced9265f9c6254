//! Where the entries of packages that have many are found: a guess for each entry of a new version, which is tested. So a new version of such a
//! package costs what it brings.
use dist_relation::{Provide, Qualifier};
use dist_repo::{Package, Repository};
use dist_version::Version;
use std::alloc::{AllocError, Global};
use std::collections::BTreeMap;

/// Packages with fewer entries are not looked into so: their entries are walked.
const MANY: usize = 16;

/// What entries are looked for by: the name, the qualifier, and the version's text, but for one that moves; and then the place.
#[derive(Clone, Copy, PartialEq, Eq, PartialOrd, Ord)]
struct EntryKey<'a> {
    name: &'a [u8],
    qualifier: Option<&'a [u8]>,
    version: Option<&'a [u8]>,
    place: u32,
}

/// What an entry is looked for by, where those at this version move.
fn key_of<'a>(entry: &'a Provide, moving: &Version, place: u32) -> EntryKey<'a> {
    let version = match &entry.version {
        Some(version) if !version.compare(moving).is_eq() => Some(version.text()),
        _ => None,
    };
    let qualifier = match &entry.qualifier {
        Qualifier::Named(name) => Some(name.bytes()),
        Qualifier::Plain => None,
    };
    EntryKey {
        name: entry.name.bytes(),
        qualifier,
        version,
        place,
    }
}

/// The keys of the entries of a package, in order.
fn keys_of(alloc: Global, package: &Package) -> Result<Vec<EntryKey<'_>>, AllocError> {
    let mut keys = Vec::new(alloc);
    for place in 0..package.provides.len() {
        if place < u32::MAX as usize {
            let entry = package.provides.get(place);
            keys.push(key_of(entry, &package.version, place as u32))?;
        }
    }
    keys.sort()?;
    Ok(keys)
}

/// The places of the entries of a package, in the order of their keys.
fn places_of(alloc: Global, package: &Package) -> Result<Vec<u32>, AllocError> {
    let keys = keys_of(alloc, package)?;
    let mut places = Vec::new(alloc);
    for key in &keys {
        places.push(key.place)?;
    }
    Ok(places)
}

/// The places of the entries of each package with many, in the order of their keys, by the number of the package.
#[derive(Drop)]
pub(crate) struct EntryPlaces {
    packages: BTreeMap<u32, Vec<u32>>,
}

impl EntryPlaces {
    /// The places of a repository's entries.
    pub(crate) fn new(alloc: Global, repo: &Repository) -> Result<EntryPlaces, AllocError> {
        let mut packages = BTreeMap::new(alloc);
        for number in 0..repo.len() {
            let package = repo.package(number);
            if package.provides.len() > MANY {
                packages.insert(number, places_of(alloc, package)?)?;
            }
        }
        Ok(EntryPlaces { packages })
    }

    /// The places of the entries of a package. There are none where they are few.
    pub(crate) fn of(&self, number: u32) -> &[u32] {
        match self.packages.get(&number) {
            Some(places) => places,
            None => &[],
        }
    }
}

/// The first place with a key that is not below this one.
fn first_from(places: &[u32], old: &Package, sought: &EntryKey) -> Option<usize> {
    let mut low = 0;
    let mut high = places.len();
    while low < high {
        let middle = low + (high - low) / 2;
        let place = places[middle];
        if place as usize >= old.provides.len() {
            return None;
        }
        let entry = old.provides.get(place as usize);
        if key_of(entry, &old.version, place) < *sought {
            low = middle + 1;
        } else {
            high = middle;
        }
    }
    if low < places.len() {
        Some(places[low] as usize)
    } else {
        None
    }
}

/// A guess at the place, from this one on, of the entry that is carried to a new version as this one.
pub(crate) fn guess(
    places: &[u32],
    old: &Package,
    new: &Version,
    carried: &Provide,
    from: usize,
) -> Option<usize> {
    let at = u32::try_from(from).ok()?;
    first_from(places, old, &key_of(carried, new, at))
}
