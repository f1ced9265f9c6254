//! What packages offer of a name: each its own name, and its usable entries of Provides. In the order of their versions those
//! that meet a bound stand together.
ghost use Rattle.std.specs.Prelude.{◌≡◌, ◌++◌, OnOk, slice_get};
ghost use Rattle.std.specs.Option.{option_cmp, option_copied};
ghost use Rattle.dist_version.specs.Order.{version_cmp};
ghost use Rattle.dist_repo.specs.Offers.{version_in, version_of, IsOrderOf};
ghost use Rattle.dist_repo.specs.TallyPrivate.{AreNumbersOf};

use crate::key::Key;
use crate::package::Package;
use dist_version::Version;
use std::alloc::AllocError;
use std::cmp::Ordering;

/// A package, and where it offers a name: at an entry of its Provides, or at their end by its own name.
#[derive(Clone, Copy, Debug, Default)]
pub struct Offer {
    pub number: u32,
    pub(crate) place: u32,
}

/// The version that a package offers at a place.
fn version_at(package: &Package, place: u32) -> Option<&Version>
    ensures { option_copied result ≡ version_in «package».now (slice_get «package».now.provides place) }
{
    let place = place as usize;
    if place < package.provides.len() {
        return package.provides.get(place).version.as_ref();
    }
    Some(&package.version)
}

/// The version of an offer.
pub(crate) fn version_of(packages: &[Key], offer: Offer) -> Option<&Version>
    ensures { option_copied result ≡ version_of packages.now offer }
{
    match packages.get(offer.number as usize) {
        Some(key) => version_at(key.package(), offer.place),
        None => None,
    }
}

/// The order of the versions of two offers. One without a version comes first.
fn compare_offers(packages: &[Key], first: Offer, second: Offer) -> Ordering
    ensures { result ≡ option_cmp version_cmp (version_of packages.now first) (version_of packages.now second) }
{
    match (version_of(packages, first), version_of(packages, second)) {
        (None, None) => Ordering::Equal,
        (None, Some(_)) => Ordering::Less,
        (Some(_), None) => Ordering::Greater,
        (Some(version), Some(other)) => version.compare(other),
    }
}

/// Writes offers of two lists in the order of their versions.
pub(crate) fn write_order(
    packages: &[Key],
    offers: &[Offer],
    others: &[Offer],
    ordered: &mut Vec<Offer>,
) -> Result<(), AllocError>
    ensures { OnOk result (IsOrderOf packages.now ordered.new.items (offers.now ++ others.now)) }
{
    ordered.clear();
    ordered.extend_from_slice(offers)?;
    ordered.extend_from_slice(others)?;
    ordered.sort_unstable_by(|first, second| compare_offers(packages, *first, *second));
    Ok(())
}

/// Writes the packages of offers, rising, each once.
pub(crate) fn write_numbers(offers: &[Offer], numbers: &mut Vec<u32>) -> Result<(), AllocError>
    ensures { OnOk result (AreNumbersOf numbers.new.items offers.now) }
{
    numbers.clear();
    for offer in offers {
        numbers.push(offer.number)?;
    }
    numbers.sort_unstable();
    numbers.dedup();
    Ok(())
}
