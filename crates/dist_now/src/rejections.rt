//! Which packages reject one another: pairs of numbers, the lesser one first, of packages of which a conflict atom of one
//! matches the other. They are looked for at some lesser numbers at a time, so that no file asks for much more memory
//! than the clauses themselves may take.
ghost use Rattle.std.specs.Prelude.{◌≡◌, ◌≢◌, ◌<◌, ◌≤◌, ◌+◌, ◌↔◌, ℕ, false, Any, Contains, IfOk, IfSome, IsTrue, None, OnOk, Some, length, slice_get};
ghost use Rattle.std.specs.List.Sorted.{IsNonDecreasingBy};
ghost use Rattle.dist_asked.specs.AskedPlaces.{AreEnough};
ghost use Rattle.dist_repo.specs.Match.{IsUsable, Matches};
ghost use Rattle.dist_repo.specs.PackageList.{IsPackageAnd};
ghost use Rattle.dist_repo.specs.Providers.{AreProviders, IsProvider};
ghost use Rattle.dist_now.specs.GatheringPrivate.{Adds, AreSplitAt, IsPairFor, IsPairIn, IsPairOf, IsPairWithin, IsPairWith, IsRejectingPair, Rejects};

use crate::numbers::{matches_provider, place_from};
use dist_asked::AskedPlaces;
use dist_relation::Atom;
use dist_repo::{Offer, Package, Repository};
use std::alloc::{AllocError, Global};

/// How many pairs are kept at a time, unless they all have one lesser number.
const ROOM: usize = 2_000_000;

/// Numbers from one up to another.
#[derive(Clone, Copy)]
pub(crate) struct Span {
    start: u32,
    end: u32,
}

impl Span {
    /// Whether the first number of a pair is in it.
    fn has(self, pair: (u32, u32)) -> bool
        ensures { IsTrue result ↔ IsPairIn self.start self.end pair }
    {
        self.start <= pair.0 && pair.0 < self.end
    }

    /// Whether it has more than one number.
    fn is_wide(self) -> bool
        ensures { IsTrue result ↔ (self.start + 1 < self.end) }
    {
        self.start < self.end && self.end - self.start > 1
    }
}

/// Pairs in the order of their first numbers, where the next ones begin, and at how many numbers they are to be looked for.
#[derive(Drop)]
pub(crate) struct NextPairs {
    pub(crate) pairs: Vec<(u32, u32)>,
    pub(crate) end: u32,
    pub(crate) width: u32,
}

/// Two different numbers, the lesser one first.
fn pair_of(first: u32, second: u32) -> (u32, u32)
    requires { first ≢ second }
    ensures { IsPairOf first second result }
{
    if first < second {
        (first, second)
    } else {
        (second, first)
    }
}

/// Adds the pair of a package and another one, if it is looked for.
fn add_pair(
    number: u32,
    other: u32,
    span: Span,
    pairs: &mut Vec<(u32, u32)>,
) -> Result<(), AllocError>
    ensures { OnOk result (Adds pairs.old.items pairs.new.items (IsPairFor span.start span.end number other)) }
{
    if other == number {
        return Ok(());
    }
    let pair = pair_of(number, other);
    if !span.has(pair) {
        return Ok(());
    }
    pairs.push(pair)?;
    Ok(())
}

/// Adds the pair of a package and another one, if an atom matches that and the pair is looked for.
fn add_match(
    repo: &Repository,
    number: u32,
    atom: &Atom,
    other: u32,
    span: Span,
    pairs: &mut Vec<(u32, u32)>,
) -> Result<(), AllocError>
    requires usable { IsUsable repo.now.architecture atom.now.qualifier }
    requires provider { IsPackageAnd repo.now.packages other (IsProvider repo.now.architecture atom.now.name) }
    ensures { OnOk result (Adds pairs.old.items pairs.new.items (IsPairWithin repo.now span.start span.end number other (Matches repo.now.architecture atom.now))) }
{
    if !matches_provider(repo, atom, other) {
        return Ok(());
    }
    add_pair(number, other, span, pairs)
}

/// Adds the pairs of a package and those of some offers.
fn add_offered(
    number: u32,
    offers: &[Offer],
    span: Span,
    pairs: &mut Vec<(u32, u32)>,
) -> Result<(), AllocError>
    ensures { OnOk result (Adds pairs.old.items pairs.new.items (λ pair. Any (λ offer. IsPairFor span.start span.end number offer.number pair) offers.now)) }
{
    for offer in offers {
        add_pair(number, offer.number, span, pairs)?;
    }
    Ok(())
}

/// Whether so many offers cost no more than to try the providers at some places, each of which may have many entries.
fn cost_no_more(
    repo: &Repository,
    atom: &Atom,
    providers: &[u32],
    from: usize,
    to: usize,
    offers: usize,
) -> bool
    requires providers { AreProviders repo.now atom.now.name providers.now }
    requires to { to ≤ length providers.now }
{
    let mut cost = to.saturating_sub(from);
    if offers <= cost {
        return true;
    }
    for place in from..to {
        cost = cost.saturating_add(repo.package(providers[place]).provides.len());
    }
    offers <= cost
}

/// Adds the pairs of a package and the others that an atom matches: by the offers that it matches, or by the providers of its
/// name in the span, whichever cost less.
fn add_matched(
    repo: &Repository,
    number: u32,
    atom: &Atom,
    span: Span,
    pairs: &mut Vec<(u32, u32)>,
) -> Result<(), AllocError>
    ensures { OnOk result (Adds pairs.old.items pairs.new.items (λ pair. IsPairIn span.start span.end pair × IsPairWith repo.now number (Matches repo.now.architecture atom.now) pair)) }
{
    if !repo.usable(&atom.qualifier) {
        return Ok(());
    }
    let providers = repo.providers(atom.name.bytes());
    // Of the providers before these, and behind them, no pair has a first number of the span.
    let from = place_from(providers, span.start);
    let to = if number < span.end {
        providers.len()
    } else {
        place_from(providers, span.end)
    };
    let offers = repo.matched(atom);
    if cost_no_more(repo, atom, providers, from, to, offers.len()) {
        return add_offered(number, offers, span, pairs);
    }
    for place in from..to {
        add_match(repo, number, atom, providers[place], span, pairs)?;
    }
    Ok(())
}

/// Adds the pairs of a package and the others that it rejects, by the places of its conflict atoms that are asked. Answers whether
/// there was room for them.
fn add_asked(
    repo: &Repository,
    number: u32,
    package: &Package,
    asked: &AskedPlaces,
    span: Span,
    pairs: &mut Vec<(u32, u32)>,
) -> Result<bool, AllocError>
    requires { AreEnough «package».now.conflicts asked.now }
    ensures whole { IfOk result (λ whole. IsTrue whole → Adds pairs.old.items pairs.new.items (λ pair. IsPairIn span.start span.end pair × IsPairWith repo.now number (Rejects repo.now «package».now) pair)) }
    ensures wide { IfOk result (λ whole. whole ≡ false → span.start + 1 < span.end) }
{
    for place in 0..package.conflicts.len() {
        let atom = package.conflicts.get(place);
        if asked.has(place) {
            add_matched(repo, number, atom, span, pairs)?;
        }
        if pairs.len() > ROOM && span.is_wide() {
            return Ok(false);
        }
    }
    Ok(true)
}

/// Adds the pairs of a package and the others that it rejects. Answers whether there was room for them.
fn add_rejected(
    repo: &Repository,
    number: u32,
    package: &Package,
    span: Span,
    pairs: &mut Vec<(u32, u32)>,
) -> Result<bool, AllocError>
    requires { slice_get repo.now.packages number ≡ Some «package».now }
    ensures whole { IfOk result (λ whole. IsTrue whole → Adds pairs.old.items pairs.new.items (λ pair. IsPairIn span.start span.end pair × IsPairWith repo.now number (Rejects repo.now «package».now) pair)) }
    ensures wide { IfOk result (λ whole. whole ≡ false → span.start + 1 < span.end) }
{
    let asked = repo.asked_conflicts(number);
    add_asked(repo, number, package, asked, span, pairs)
}

/// The pairs of all packages that reject one another, with first numbers of a span and in their order; none where there
/// was no room for them.
fn rejections(
    alloc: Global,
    repo: &Repository,
    span: Span,
) -> Result<Option<Vec<(u32, u32)>>, AllocError>
    ensures exact { IfOk result (λ found. IfSome found (λ pairs. (pair : ℕ × ℕ) → Contains pairs.items pair ↔ (IsPairIn span.start span.end pair × IsRejectingPair repo.now pair))) }
    ensures in_order { IfOk result (λ found. IfSome found (λ pairs. IsNonDecreasingBy (λ pair. pair.0) pairs.items)) }
    ensures wide { IfOk result (λ found. found ≡ None → span.start + 1 < span.end) }
{
    let mut pairs = Vec::new(alloc);
    // The pairs of a package have no greater first number than its own.
    for number in span.start..repo.len() {
        if !add_rejected(repo, number, repo.package(number), span, &mut pairs)? {
            return Ok(None);
        }
    }
    pairs.sort_unstable_by_key(|pair| pair.0);
    Ok(Some(pairs))
}

/// At how many numbers the next pairs are looked for, after those that were found at some.
fn next_width(width: u32, found: usize) -> u32 {
    if found < ROOM / 2 {
        width.saturating_mul(2)
    } else {
        width
    }
}

/// The pairs with first numbers from one on: at so many numbers, or as many as there is room for.
pub(crate) fn next_rejections(
    alloc: Global,
    repo: &Repository,
    start: u32,
    width: u32,
) -> Result<NextPairs, AllocError>
    requires { start < length repo.now.packages }
    ensures later { IfOk result (λ next. start < next.end) }
    ensures within { IfOk result (λ next. next.end ≤ length repo.now.packages) }
    ensures exact { IfOk result (λ next. (pair : ℕ × ℕ) → Contains next.pairs.items pair ↔ (IsPairIn start next.end pair × IsRejectingPair repo.now pair)) }
    ensures in_order { IfOk result (λ next. IsNonDecreasingBy (λ pair. pair.0) next.pairs.items) }
{
    let mut end = start.saturating_add(width.max(1)).min(repo.len());
    'halving: loop {
        match rejections(alloc, repo, Span { start, end })? {
            Some(pairs) => {
                let width = next_width(end - start, pairs.len());
                return Ok(NextPairs { pairs, end, width });
            }
            None => end = start + (end - start) / 2,
        }
    }
}

/// Adds the second numbers of the pairs with a first number, which begin at a place. Answers where they end.
pub(crate) fn add_partners(
    pairs: &[(u32, u32)],
    number: u32,
    start: usize,
    numbers: &mut Vec<u32>,
) -> Result<usize, AllocError>
    requires in_order { IsNonDecreasingBy (λ pair. pair.0) pairs.now }
    requires split { AreSplitAt pairs.now number start }
    ensures adds { OnOk result (Adds numbers.old.items numbers.new.items (λ k. Contains pairs.now (number, k))) }
    ensures split { IfOk result (λ end. AreSplitAt pairs.now (number + 1) end) }
{
    let mut place = start;
    while place < pairs.len() && pairs[place].0 == number {
        numbers.push(pairs[place].1)?;
        place += 1;
    }
    Ok(place)
}
