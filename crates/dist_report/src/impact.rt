//! The strong dependencies turned round: for each package those that depend on it. Each listed pair is looked at once.
ghost use Rattle.std.specs.Prelude.{◌≡◌, ◌<◌, ◌^◌, ℕ, [], All, IfOk, OnOk, filter, length, replicate, slice_index_or, slice_set};
ghost use Rattle.std.specs.List.{range_with_len};
ghost use Rattle.dist_cert.specs.Rising.{is_among};
ghost use Rattle.dist_report.specs.ClaimPartsPrivate.{ended_by, ends_with, noted};
ghost use Rattle.dist_report.specs.ClaimParts.{has_some};
ghost use Rattle.dist_report.specs.StrongReport.{impact_at};

use crate::claim_parts::{Listing, claim_list};
use dist_cert::{Claims, Numbers};
use std::alloc::{AllocError, Global};

/// Whether a list's last number is this one.
fn is_at_end(numbers: &[u32], number: u32) -> bool
    ensures { result ≡ ends_with numbers.now number }
{
    match numbers.last() {
        Some(last) => *last == number,
        None => false,
    }
}

/// Puts a package into the list of another one, at its end, if there is such a list and it isn't there.
fn note(lists: &mut Vec<Numbers>, on: u32, number: u32) -> Result<(), AllocError>
    ensures { OnOk result (lists.new.items ≡ slice_set lists.old.items on (ended_by (slice_index_or lists.old.items on []) number)) }
{
    if on as usize >= lists.len() || is_at_end(lists[on as usize].as_slice(), number) {
        return Ok(());
    }
    lists[on as usize].push(number)
}

/// Puts a package into the lists of those on which it depends. So far they have lower packages alone.
pub(crate) fn note_all(lists: &mut Vec<Numbers>, number: u32, on: &[u32]) -> Result<(), AllocError>
    requires { All (λ list. All (λ p. p < number) list) lists.old.items }
    ensures length { OnOk result (length lists.new.items ≡ length lists.old.items) }
    ensures each { OnOk result ((q : ℕ) → q < length lists.old.items → slice_index_or lists.new.items q [] ≡ noted number (is_among on.now q) (slice_index_or lists.old.items q [])) }
{
    for q in on {
        note(lists, *q, number)?;
    }
    Ok(())
}

/// Lists without numbers, so many.
pub(crate) fn no_numbers(alloc: Global, count: usize) -> Result<Vec<Numbers>, AllocError>
    ensures { IfOk result (λ lists. lists.items ≡ replicate count []) }
{
    let mut lists = Vec::new(alloc);
    for _ in 0..count {
        lists.push(Numbers::new(alloc))?;
    }
    Ok(lists)
}

/// For the package of each claim those that depend strongly on it.
pub(crate) fn turned(alloc: Global, claims: &Claims) -> Result<Vec<Numbers>, AllocError>
    requires { length claims.now < 2 ^ 32 }
    ensures length { IfOk result (λ lists. length lists.items ≡ length claims.now) }
    ensures each { IfOk result (λ lists. (q : ℕ) → q < length claims.now → slice_index_or lists.items q [] ≡ impact_at claims.now q) }
{
    let mut lists = no_numbers(alloc, claims.len())?;
    for number in 0..claims.len() {
        let on = claim_list(claims.get(number), Listing::Claimed);
        note_all(&mut lists, number as u32, on)?;
    }
    Ok(lists)
}

/// The list of a package.
pub(crate) fn numbers_at(lists: &[Numbers], number: u32) -> &[u32]
    requires { number < length lists.now }
    ensures { result.now ≡ slice_index_or lists.now number [] }
{
    lists[number as usize].as_slice()
}

/// Whether a list isn't empty.
fn has_numbers(list: &[u32]) -> bool
    ensures { result ≡ has_some list.now }
{
    !list.is_empty()
}

/// The packages whose lists aren't empty.
pub(crate) fn with_some(alloc: Global, lists: &[Numbers]) -> Result<Vec<u32>, AllocError>
    requires { length lists.now < 2 ^ 32 }
    ensures { IfOk result (λ numbers. numbers.items ≡ filter (λ q. has_some (slice_index_or lists.now q [])) (range_with_len 0 (length lists.now))) }
{
    let mut numbers = Vec::new(alloc);
    for number in 0..lists.len() as u32 {
        if has_numbers(numbers_at(lists, number)) {
            numbers.push(number)?;
        }
    }
    Ok(numbers)
}
