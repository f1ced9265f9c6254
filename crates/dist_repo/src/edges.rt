//! The offers that meet a bound, among those of a name in the order of their versions: found by halving.
ghost use Rattle.std.specs.Prelude.{◌≡◌, ◌≤◌, ◌↔◌, true, false, Contains, IsSomeAnd, length};
ghost use Rattle.std.specs.List.Sorted.{IsPartitionPoint};
ghost use Rattle.dist_relation.specs.Satisfies.{Satisfies};
ghost use Rattle.dist_repo.specs.EdgesPrivate.{comes_before, end_of, is_before, standing, start_of, StandsBetween};
ghost use Rattle.dist_repo.specs.Offers.{version_of, AreInVersionOrder, Meets};
ghost use Rattle.dist_repo.specs.declared.offers.Offer.{Offer};

use crate::key::Key;
use crate::offers::{Offer, version_of};
use dist_relation::{Bound, Op};
use dist_version::Version;
use std::cmp::Ordering;

/// Where some of the offers begin or end, by a version.
#[derive(Clone, Copy)]
enum Edge {
    /// Where those with a version begin.
    Versioned,
    /// Where those of the version begin.
    From,
    /// Where those of the version end.
    Past,
    /// Behind all.
    End,
}

/// How the version of an offer stands to another one.
fn standing(packages: &[Key], offer: Offer, version: &Version) -> Option<Ordering>
    ensures { result ≡ standing packages.now version.now offer }
{
    match version_of(packages, offer) {
        Some(offered) => Some(offered.compare(version)),
        None => None,
    }
}

/// Whether a version that stands so to that of an edge is before the edge.
fn comes_before(edge: Edge, order: Ordering) -> bool
    ensures { result ≡ comes_before edge order }
{
    match edge {
        Edge::Versioned => false,
        Edge::From => order.is_lt(),
        Edge::Past => order.is_le(),
        Edge::End => true,
    }
}

/// Whether an offer that stands so to the version of an edge is before the edge.
fn is_before(edge: Edge, standing: Option<Ordering>) -> bool
    ensures { result ≡ is_before edge standing }
{
    match standing {
        None => true,
        Some(order) => comes_before(edge, order),
    }
}

/// The place of an edge.
fn place_of(packages: &[Key], offers: &[Offer], edge: Edge, version: &Version) -> usize
    requires { AreInVersionOrder packages.now offers.now }
    ensures within { result ≤ length offers.now }
    ensures splits { IsPartitionPoint (λ offer. is_before edge (standing packages.now version.now offer) ≡ true)
        (λ offer. is_before edge (standing packages.now version.now offer) ≡ false) offers.now result }
{
    offers.partition_point(|offer| is_before(edge, standing(packages, *offer, version)))
}

/// Where the offers that meet a bound begin.
fn start_of(op: Op) -> Edge
    ensures { result ≡ start_of op }
{
    match op {
        Op::Lt | Op::Le => Edge::Versioned,
        Op::Eq | Op::Ge => Edge::From,
        Op::Gt => Edge::Past,
    }
}

/// Where the offers that meet a bound end.
fn end_of(op: Op) -> Edge
    ensures { result ≡ end_of op }
{
    match op {
        Op::Lt => Edge::From,
        Op::Le | Op::Eq => Edge::Past,
        Op::Ge | Op::Gt => Edge::End,
    }
}

/// The offers at some places.
fn between(offers: &[Offer], start: usize, end: usize) -> &[Offer]
    requires { end ≤ length offers.now }
    ensures { (offer : Offer) → Contains result.now offer ↔ StandsBetween offers.now start end offer }
{
    if start < end {
        &offers[start..end]
    } else {
        &[]
    }
}

/// Of the offers of a name those that meet a bound.
fn within<'a>(packages: &[Key], offers: &'a [Offer], bound: &Bound) -> &'a [Offer]
    requires { AreInVersionOrder packages.now offers.now }
    ensures { (offer : Offer) → Contains result.now offer
        ↔ (Contains offers.now offer × IsSomeAnd (version_of packages.now offer) (λ version. Satisfies version bound.now)) }
{
    let start = place_of(packages, offers, start_of(bound.op), &bound.version);
    let end = place_of(packages, offers, end_of(bound.op), &bound.version);
    between(offers, start, end)
}

/// Of the offers of a name those that meet a bound, or all where there is none.
pub(crate) fn meeting<'a>(
    packages: &[Key],
    offers: &'a [Offer],
    bound: &Option<Bound>,
) -> &'a [Offer]
    requires { AreInVersionOrder packages.now offers.now }
    ensures { (offer : Offer) → Contains result.now offer ↔ (Contains offers.now offer × Meets (version_of packages.now offer) bound.now) }
{
    match bound {
        Some(bound) => within(packages, offers, bound),
        None => offers,
    }
}
