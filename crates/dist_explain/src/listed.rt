//! Rising lists of numbers: what they have, and what one of them lacks of another.
ghost use Rattle.std.specs.Prelude.{◌↔◌, ◌+◌, ℕ, Contains, IsTrue, MatchOption, OnOk};
ghost use Rattle.dist_cert.specs.Rising.{AreRising};
ghost use Rattle.dist_explain.specs.Answered.{IsOnlyMissing};
ghost use Rattle.dist_explain.specs.ListedPrivate.{HasAllBehind, HasOneMore, IsNoneMissing};

use dist_check_group::has;
use std::alloc::AllocError;

/// Whether a list has the number behind an offset.
pub(crate) fn has_behind(list: &[u32], offset: u32, number: u32) -> bool
    requires { AreRising list.now }
    ensures { IsTrue result ↔ Contains list.now (offset + number) }
{
    match offset.checked_add(number) {
        Some(sum) => has(list, sum),
        None => false,
    }
}

/// Whether a list has so many numbers, from 1, behind an offset.
pub(crate) fn has_all_behind(list: &[u32], offset: u32, count: u32) -> bool
    requires { AreRising list.now }
    ensures { IsTrue result ↔ HasAllBehind list.now offset count }
{
    for place in 0..count {
        if !has_behind(list, offset, place + 1) {
            return false;
        }
    }
    true
}

/// The one of some numbers that is not in a list, where each stands behind an offset, if it is the only one. It looks no further
/// than the second that is not.
pub(crate) fn only_missing(numbers: &[u32], offset: u32, list: &[u32]) -> Option<u32>
    requires numbers { AreRising numbers.now }
    requires list { AreRising list.now }
    ensures { MatchOption result (IsNoneMissing numbers.now offset list.now) (IsOnlyMissing numbers.now offset list.now) }
{
    let mut found = None;
    for number in numbers {
        if !has_behind(list, offset, *number) {
            if found.is_some() {
                return None;
            }
            found = Some(*number);
        }
    }
    found
}

/// Puts a number into a list, where it is not there yet.
pub(crate) fn put(numbers: &mut Vec<u32>, number: u32) -> Result<(), AllocError>
    requires { AreRising numbers.old.items }
    ensures rising { AreRising numbers.new.items }
    ensures more { OnOk result (HasOneMore numbers.old.items numbers.new.items number) }
{
    if let Err(place) = numbers.binary_search(&number) {
        numbers.insert(place, number)?;
    }
    Ok(())
}

/// Puts numbers in their order, each once.
pub fn put_in_order(numbers: &mut Vec<u32>)
    ensures rising { AreRising numbers.new.items }
    ensures same { (one : ℕ) → Contains numbers.new.items one ↔ Contains numbers.old.items one }
{
    numbers.sort_unstable();
    numbers.dedup();
}
