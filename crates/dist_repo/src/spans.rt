//! The packages of a name among packages in order, found by halving.
ghost use Rattle.std.specs.Prelude.{◌≡◌, true, false};
ghost use Rattle.dist_repo.specs.Order.{IsInOrder};
ghost use Rattle.dist_repo.specs.Prefix.{IsPrefixOf};
ghost use Rattle.dist_repo.specs.SpansPrivate.{comes_before, IsEdge, IsEdgeWithin, IsSpan};

use crate::guesses::next_look;
use crate::key::Key;
use crate::prefix::prefix_of;
use std::cmp::Ordering;

/// Whether a name that stands so to another one is before the first of that name, or if `past` before the end of those.
fn comes_before(past: bool, order: Ordering) -> bool
    ensures { result ≡ comes_before past order }
{
    if past { order.is_le() } else { order.is_lt() }
}

/// Where the packages of a name begin, or if `past` where they end, at one of some places.
fn edge_within(
    packages: &[Key],
    name: &[u8],
    prefix: u128,
    past: bool,
    guess: usize,
    start: usize,
    end: usize,
) -> usize
    requires in_order { IsInOrder packages.now }
    requires prefix { IsPrefixOf prefix name.now }
    requires within { IsEdgeWithin packages.now name.now past start end }
    ensures { IsEdge packages.now name.now past result }
{
    let mut low = start;
    let mut high = end;
    while low < high {
        let middle = next_look(guess, low, high);
        if comes_before(past, packages[middle].compare_name(prefix, name)) {
            low = middle + 1;
        } else {
            high = middle;
        }
    }
    low
}

/// A place at which the packages of a name have ended, where they begin at one. Most names have one package.
fn end_above(packages: &[Key], name: &[u8], prefix: u128, start: usize) -> usize
    requires in_order { IsInOrder packages.now }
    requires prefix { IsPrefixOf prefix name.now }
    requires start { IsEdge packages.now name.now false start }
    ensures { IsEdgeWithin packages.now name.now true start result }
{
    if packages.len() - start < 2 {
        return packages.len();
    }
    if comes_before(true, packages[start + 1].compare_name(prefix, name)) {
        return packages.len();
    }
    start + 1
}

/// Where the packages of a name begin and end, with a guess at the beginning.
pub(crate) fn span_of(packages: &[Key], name: &[u8], guess: usize) -> (usize, usize)
    requires { IsInOrder packages.now }
    ensures { IsSpan packages.now name.now result.0 result.1 }
{
    let prefix = prefix_of(name);
    let start = edge_within(packages, name, prefix, false, guess, 0, packages.len());
    let above = end_above(packages, name, prefix, start);
    let end = edge_within(packages, name, prefix, true, start, start, above);
    (start, end)
}
