//! Rising lists of numbers, as lines name them.
ghost use Rattle.std.specs.Prelude.{◌≡◌, ◌==◌, ◌↔◌, ◌&&◌, ℕ, IfOk, IsTrue, OnOk, Some, filter, nat_le, not};
ghost use Rattle.std.specs.List.{list_all, list_any};
ghost use Rattle.std.specs.Option.{ForSome};
ghost use Rattle.dist_cert.specs.Rising.{AreRising, is_among};
ghost use Rattle.dist_check_group.specs.Common.{narrowed};

use dist_cert::{Items, Numbers};
use std::alloc::{AllocError, Global};

/// So many numbers are kept before repeated ones among them are looked for.
const MANY: usize = 1 << 16;

/// Whether each number is below the next one.
pub fn is_rising(numbers: &[u32]) -> bool
    ensures { IsTrue result ↔ AreRising numbers.now }
{
    for place in 1..numbers.len() {
        if numbers[place - 1] >= numbers[place] {
            return false;
        }
    }
    true
}

/// Whether rising numbers have this one.
pub fn has(numbers: &[u32], number: u32) -> bool
    requires { AreRising numbers.now }
    ensures { result ≡ is_among numbers.now number }
{
    numbers.binary_search(&number).is_ok()
}

/// Whether rising numbers have all of some others.
pub(crate) fn has_all(numbers: &[u32], others: &[u32]) -> bool
    requires { AreRising numbers.now }
    ensures { result ≡ list_all (is_among numbers.now) others.now }
{
    others.iter().all(|other| has(numbers, *other))
}

/// Whether rising numbers have one of some others.
pub(crate) fn has_any(numbers: &[u32], others: &[u32]) -> bool
    requires { AreRising numbers.now }
    ensures { result ≡ list_any (is_among numbers.now) others.now }
{
    others.iter().any(|other| has(numbers, *other))
}

/// Keeps those of rising numbers that other rising numbers have.
pub(crate) fn keep_common(kept: &mut Vec<u32>, others: &[u32])
    requires { AreRising others.now }
    ensures { kept.new.items ≡ filter (is_among others.now) kept.old.items }
{
    kept.retain(|number| has(others, *number));
}

/// Whether all numbers are other ones than this, and none is above the last one.
pub(crate) fn are_others(numbers: &[u32], number: u32, last: u32) -> bool
    ensures { result ≡ list_all (λ other. not (other == number) && nat_le other last) numbers.now }
{
    numbers
        .iter()
        .all(|other| *other != number && *other <= last)
}

/// Puts numbers in their order, each once.
pub(crate) fn put_in_order(numbers: &mut Vec<u32>)
    ensures rising { AreRising numbers.new.items }
    ensures same { (q : ℕ) → is_among numbers.new.items q ≡ is_among numbers.old.items q }
{
    numbers.sort_unstable();
    numbers.dedup();
}

/// Puts numbers in order, each once, where they are more than a limit, so that numbers that come again and again take no
/// more memory than they would once. Answers the next limit.
pub(crate) fn thin(numbers: &mut Vec<u32>, limit: usize) -> usize
    ensures { (q : ℕ) → is_among numbers.new.items q ≡ is_among numbers.old.items q }
{
    if numbers.len() <= limit {
        return limit;
    }
    put_in_order(numbers);
    numbers.len().saturating_mul(2).max(MANY)
}

/// The numbers that are common, and among the others too.
fn narrow(alloc: Global, common: Option<Numbers>, others: &[u32]) -> Result<Numbers, AllocError>
    requires others { AreRising others.now }
    requires common { ForSome common AreRising }
    ensures value { IfOk result (λ kept. kept ≡ narrowed common others.now) }
    ensures rising { IfOk result AreRising }
{
    match common {
        None => Ok(Items::from_vec(others.to_vec(alloc)?)),
        Some(common) => {
            let mut kept = common.into_vec();
            keep_common(&mut kept, others);
            Ok(Items::from_vec(kept))
        }
    }
}

/// Narrows what is common by the others. After want of memory nothing is common.
pub(crate) fn narrow_in(
    alloc: Global,
    common: &mut Option<Numbers>,
    others: &[u32],
) -> Result<(), AllocError>
    requires others { AreRising others.now }
    requires common { ForSome common.old AreRising }
    ensures value { OnOk result (common.new ≡ Some (narrowed common.old others.now)) }
    ensures rising { ForSome common.new AreRising }
{
    let kept = narrow(alloc, common.take(), others)?;
    drop(common.replace(kept));
    Ok(())
}
