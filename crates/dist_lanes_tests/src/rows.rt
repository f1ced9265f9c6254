//! Rows whose true places are the multiples of a number, and rows with one true place.
ghost use Rattle.std.specs.Prelude.{◌≡◌, ◌<◌, IfSome, length};

use dist_lanes::Row;
use std::alloc::Global;

/// Lengths round the end of a word, of seven, eight, nine and sixteen words, and one with a word behind the last eight.
const LENGTHS: [usize; 18] = [
    0, 1, 63, 64, 65, 447, 448, 449, 511, 512, 513, 575, 576, 577, 1_023, 1_024, 1_025, 1_027,
];

/// The first multiple of a step at or behind a place and before an end.
pub(crate) fn multiple(place: usize, step: usize, end: usize) -> Option<usize>
    requires { 0 < step }
{
    let over = place % step;
    let next = if over == 0 {
        place
    } else {
        place.checked_add(step - over)?
    };
    if next < end { Some(next) } else { None }
}

/// How many multiples of a step stand before an end.
fn multiples(step: usize, end: usize) -> usize
    requires { 0 < step }
{
    end.div_ceil(step)
}

/// A row whose true places are the multiples of a step.
fn row_of(alloc: Global, places: usize, step: usize) -> Option<Row>
    requires { 0 < step }
    ensures { IfSome result (λ row. length row ≡ places) }
{
    let mut row = Row::new(alloc, places).ok()?;
    for place in 0..places {
        if place % step == 0 {
            row.set(place, true);
        }
    }
    Some(row)
}

/// Whether exactly the multiples of a step are true, by each call that tells of one row.
fn has_multiples(row: &Row, step: usize) -> bool
    requires { 0 < step }
{
    for place in 0..row.len() {
        let next = multiple(place, step, row.len());
        if row.get(place) != (next == Some(place)) || row.next_true(place) != next {
            return false;
        }
    }
    row.count_ones() == multiples(step, row.len())
        && row.is_empty() == (row.len() == 0)
        && row.next_true(row.len()).is_none()
}

/// Whether the multiples of 3 and those of 2 have those of 6 in common.
fn have_sixth_in_common(row: &mut Row, thirds: &Row, seconds: &Row) -> bool
    requires thirds { length row.old ≡ length thirds.now }
    requires seconds { length row.old ≡ length seconds.now }
{
    row.copy_from(thirds);
    let copied = has_multiples(row, 3);
    row.and_into(seconds);
    copied && has_multiples(row, 6) && is_within(row, thirds) && is_within(row, seconds)
}

/// Whether a row of the multiples of 6 is told apart from one of those of a number that divides 6.
fn is_within(row: &Row, other: &Row) -> bool
    requires { length row.now ≡ length other.now }
{
    row.is_subset(other)
        && row.meets(other) == (row.len() > 0)
        && other.is_subset(row) == (row.len() <= 1)
}

/// Whether every place is true after one call, and none after another.
fn is_filled(row: &mut Row) -> bool {
    row.fill(true);
    let filled = has_multiples(row, 1);
    row.fill(false);
    filled && row.is_empty() && row.count_ones() == 0 && row.next_true(0).is_none()
}

/// Whether rows of a length do all that is said here.
fn is_kept(alloc: Global, places: usize) -> Option<bool> {
    let thirds = row_of(alloc, places, 3)?;
    let seconds = row_of(alloc, places, 2)?;
    let mut row = Row::new(alloc, places).ok()?;
    let is_new = row.len() == places && row.is_empty();
    Some(
        is_new
            && has_multiples(&thirds, 3)
            && has_multiples(&seconds, 2)
            && have_sixth_in_common(&mut row, &thirds, &seconds)
            && is_filled(&mut row),
    )
}

#[test]
fn rows_are_kept_at_every_length(rt: HostRuntime) {
    for places in LENGTHS {
        assert_eq!(rt; is_kept(rt.alloc(), places), Some(true));
    }
}

/// Whether the one true place of both rows is seen.
fn are_same(row: &Row, other: &Row) -> bool
    requires { length row.now ≡ length other.now }
{
    row.meets(other) && row.is_subset(other) && row.count_ones() == 1
}

/// Whether the one true place of a row is not seen in another, that has none.
fn are_apart(row: &Row, empty: &Row) -> bool
    requires { length row.now ≡ length empty.now }
{
    !row.meets(empty) && !row.is_subset(empty) && empty.is_subset(row) && empty.is_empty()
}

/// Whether the last place of a row, behind its last eight words, is seen.
fn last_place_is_seen(alloc: Global) -> Option<bool> {
    let mut row = Row::new(alloc, 1_027).ok()?;
    let mut other = Row::new(alloc, 1_027).ok()?;
    row.set(1_026, true);
    other.set(1_026, true);
    let same = are_same(&row, &other);
    other.set(1_026, false);
    let apart = are_apart(&row, &other);
    Some(same && apart && row.next_true(0) == Some(1_026) && other.next_true(0).is_none())
}

#[test]
fn one_place_behind_the_last_eight_words(rt: HostRuntime) {
    assert_eq!(rt; last_place_is_seen(rt.alloc()), Some(true));
}
