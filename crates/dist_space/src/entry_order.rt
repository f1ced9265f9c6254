//! The entries of Provides of each package in the order of their names, so that those of one name are found by halving. Those of a
//! name stand in the order of their versions, so that those that an atom matches alike are found so too.
ghost use Rattle.std.specs.Prelude.{◌≡◌, ◌<◌, ◌≤◌, ◌^◌, ◌↔◌, ℕ, true, Contains, IfOk, List, OnOk, Option, [], length, slice_index};
ghost use Rattle.std.specs.List.{slice_range};
ghost use Rattle.std.specs.List.Sorted.{IsSortedBy};
ghost use Rattle.std.specs.Option.{option_cmp, option_copied};
ghost use Rattle.std.specs.Cmp.Lexicographic.{slice_cmp};
ghost use Rattle.std.specs.Ordering.{is_le, is_lt, nat_cmp};
ghost use Rattle.dist_version.specs.Order.{version_cmp};
ghost use Rattle.dist_space.specs.EntryOrder.{AreEntryOrders, AreInNameOrder, IsEntryOrder, are_alike, are_alike_to, entry_cmp, name_at, rank_at, stand_alike, use_cmp, version_at, versions_alike};

use crate::frame::Frame;
use dist_base::Flat;
use dist_relation::{Bound, Provides};
use dist_repo::Package;
use dist_version::Version;
use std::alloc::{AllocError, Global};
use std::cmp::Ordering;

/// The name of the entry at a place, which is empty past the last one.
fn entry_name(provides: &Provides, place: u32) -> &[u8]
    ensures { result.now ≡ name_at provides.now place }
{
    if (place as usize) < provides.len() {
        provides.get(place as usize).name.bytes()
    } else {
        &[]
    }
}

/// 1 for an entry that is not usable, and 0 for others.
fn rank_of(frame: &Frame, provides: &Provides, place: u32) -> u32
    ensures { result ≡ rank_at frame.now.repository.architecture provides.now place }
{
    if (place as usize) >= provides.len() {
        return 0;
    }
    if frame.usable(&provides.get(place as usize).qualifier) {
        0
    } else {
        1
    }
}

/// The version of the entry at a place, if it has one.
fn version_of(provides: &Provides, place: u32) -> Option<&Version>
    ensures { option_copied result ≡ version_at provides.now place }
{
    if (place as usize) < provides.len() {
        provides.get(place as usize).version.as_ref()
    } else {
        None
    }
}

/// The order of two versions, each of which may be missing.
fn compare_versions(first: Option<&Version>, second: Option<&Version>) -> Ordering
    ensures { result ≡ option_cmp version_cmp (option_copied first.entry) (option_copied second.entry) }
{
    match (first, second) {
        (None, None) => Ordering::Equal,
        (None, Some(_)) => Ordering::Less,
        (Some(_), None) => Ordering::Greater,
        (Some(version), Some(other)) => version.compare(other),
    }
}

/// The order of two entries of a name: the usable ones come first, and of these those without a version.
fn compare_use(frame: &Frame, provides: &Provides, first: u32, second: u32) -> Ordering
    ensures { result ≡ use_cmp frame.now.repository.architecture provides.now first second }
{
    let order = rank_of(frame, provides, first).cmp(&rank_of(frame, provides, second));
    if order.is_ne() {
        return order;
    }
    compare_versions(version_of(provides, first), version_of(provides, second))
}

/// The order of two entries: by name, and those of a name by use and version.
fn compare_entries(frame: &Frame, provides: &Provides, first: u32, second: u32) -> Ordering
    ensures { result ≡ entry_cmp frame.now.repository.architecture provides.now first second }
{
    let order = entry_name(provides, first).cmp(entry_name(provides, second));
    if order.is_ne() {
        return order;
    }
    compare_use(frame, provides, first, second)
}

/// Whether the name of an entry stands before another one.
fn is_before(provides: &Provides, place: u32, name: &[u8]) -> bool
    ensures { result ≡ is_lt (slice_cmp nat_cmp (name_at provides.now place) name.now) }
{
    entry_name(provides, place).cmp(name).is_lt()
}

/// Whether the name of an entry is another one or stands before it.
fn is_up_to(provides: &Provides, place: u32, name: &[u8]) -> bool
    ensures { result ≡ is_le (slice_cmp nat_cmp (name_at provides.now place) name.now) }
{
    entry_name(provides, place).cmp(name).is_le()
}

/// Writes the places of all entries.
fn write_places(provides: &Provides, places: &mut Vec<u32>) -> Result<(), AllocError>
    requires { length provides.now < 2 ^ 32 }
    ensures { OnOk result ((j : ℕ) → Contains places.new.items j ↔ (j < length provides.now)) }
{
    places.clear();
    for place in 0..provides.len() {
        places.push(place as u32)?;
    }
    Ok(())
}

/// Writes the places of all entries in order.
fn write_order(frame: &Frame, provides: &Provides, places: &mut Vec<u32>) -> Result<(), AllocError>
    requires { length provides.now < 2 ^ 32 }
    ensures { OnOk result (IsEntryOrder frame.now.repository.architecture provides.now places.new.items) }
{
    write_places(provides, places)?;
    places.sort_unstable_by(|first, second| compare_entries(frame, provides, *first, *second));
    Ok(())
}

/// Adds the entries of each package in order to an empty list, with a list for those of one package.
fn push_orders(
    frame: &Frame,
    places: &mut Vec<u32>,
    orders: &mut Flat<u32>,
) -> Result<(), AllocError>
    requires { orders.old ≡ [] }
    ensures { OnOk result (AreEntryOrders frame.now.repository orders.new) }
{
    for number in 0..frame.package_count() {
        write_order(frame, &frame.package(number).provides, places)?;
        orders.push(places)?;
    }
    Ok(())
}

/// The entries of each package in order.
pub(crate) fn entry_orders(alloc: Global, frame: &Frame) -> Result<Flat<u32>, AllocError>
    ensures { IfOk result (AreEntryOrders frame.now.repository) }
{
    let mut orders = Flat::new(alloc);
    let mut places = Vec::new(alloc);
    let pushed = push_orders(frame, &mut places, &mut orders);
    drop(places);
    match pushed {
        Ok(()) => Ok(orders),
        Err(error) => {
            drop(orders);
            Err(error)
        }
    }
}

/// Where the places of the entries of a name begin among places in order, and where they end.
fn span_of(provides: &Provides, order: &[u32], name: &[u8]) -> (usize, usize)
    requires { AreInNameOrder provides.now order.now }
    ensures rising { result.0 ≤ result.1 }
    ensures within { result.1 ≤ length order.now }
    ensures named { (j : ℕ) → Contains (slice_range order.now result.0 result.1) j ↔ (Contains order.now j × (name_at provides.now j ≡ name.now)) }
{
    let start = order.partition_point(|place| is_before(provides, *place, name));
    let end = order.partition_point(|place| is_up_to(provides, *place, name));
    (start, end)
}

/// Of the places of entries in order those of a name.
pub(crate) fn named<'a>(provides: &Provides, order: &'a [u32], name: &[u8]) -> &'a [u32]
    requires { AreInNameOrder provides.now order.now }
    ensures named { (j : ℕ) → Contains result.now j ↔ (Contains order.now j × (name_at provides.now j ≡ name.now)) }
    ensures in_order { (architecture : Option (List ℕ)) → IsEntryOrder architecture provides.now order.now
        → IsSortedBy (λ i j. is_lt (use_cmp architecture provides.now i j)) result.now }
{
    let (start, end) = span_of(provides, order, name);
    &order[start..end]
}

/// Whether two versions stand to a third one as each other.
fn stand_alike(third: &Version, first: &Version, second: &Version) -> bool
    ensures { result ≡ stand_alike third.now first.now second.now }
{
    first.compare(third) == second.compare(third)
}

/// Whether two versions stand alike to that of a bound, if there is one.
fn are_alike_to(bound: &Option<Bound>, first: &Version, second: &Version) -> bool
    ensures { result ≡ are_alike_to bound.now first.now second.now }
{
    match bound {
        Some(bound) => stand_alike(&bound.version, first, second),
        None => true,
    }
}

/// Whether two versions, each of which may be missing, stand alike to that of their package and to that of a bound.
fn versions_alike(
    bound: &Option<Bound>,
    own: &Version,
    first: Option<&Version>,
    second: Option<&Version>,
) -> bool
    ensures { result ≡ versions_alike bound.now own.now (option_copied first.entry) (option_copied second.entry) }
{
    match (first, second) {
        (None, None) => true,
        (Some(version), Some(other)) => {
            stand_alike(own, version, other) && are_alike_to(bound, version, other)
        }
        (None, Some(_)) | (Some(_), None) => false,
    }
}

/// Whether two entries of a package are both usable or both not, and their versions stand alike.
fn are_alike(
    frame: &Frame,
    package: &Package,
    bound: &Option<Bound>,
    first: u32,
    second: u32,
) -> bool
    ensures { result ≡ are_alike frame.now.repository.architecture bound.now «package».now.version «package».now.provides first second }
{
    let provides = &package.provides;
    rank_of(frame, provides, first) == rank_of(frame, provides, second)
        && versions_alike(
            bound,
            &package.version,
            version_of(provides, first),
            version_of(provides, second),
        )
}

/// How many entries of a name in order stand as the first one does.
pub(crate) fn alike_count(
    frame: &Frame,
    package: &Package,
    bound: &Option<Bound>,
    places: &[u32],
) -> usize
    requires { IsSortedBy (λ i j. is_lt (use_cmp frame.now.repository.architecture «package».now.provides i j)) places.now }
    ensures within { result ≤ length places.now }
    ensures some { 0 < length places.now → 0 < result }
    ensures alike { (k : ℕ) → k < result → are_alike frame.now.repository.architecture bound.now «package».now.version «package».now.provides (slice_index places.now 0) (slice_index places.now k) ≡ true }
{
    match places {
        [first, ..] => {
            places.partition_point(|place| are_alike(frame, package, bound, *first, *place))
        }
        [] => 0,
    }
}
