//! What is looked up for a claim on challenges: once for the claim, so that each test of it is a halving. A claim that is
//! right lists nearly all that it must, so few clusters are left to be looked for in the installations that it names. Of
//! these the small ones come first: the smallest one tells which clusters may be used, where the group has no installation.
//! Where that is a large one, what other large ones don't use is left out by words. Each cluster that a test asks for is looked
//! up in large ones, and a small one is walked where there are some.
ghost use Rattle.std.specs.Prelude.{◌≡◌, ◌==◌, ◌&&◌, ◌↔◌, ℕ, true, Contains, IfOk, OnOk, filter, length, map, not};
ghost use Rattle.dist_cert.specs.Rising.{AreRising, is_among};
ghost use Rattle.dist_check_group.specs.Layout.{at_class, used};
ghost use Rattle.dist_check_group.specs.Window.{members_at};
ghost use Rattle.dist_check_group.specs.Challenge.{first_used, is_held, use_each};
ghost use Rattle.dist_check_group.specs.MarksPrivate.{is_marked};
ghost use Rattle.dist_check_group.specs.FoundPrivate.{FoundView, IsFoundFor, is_asked, may_ask};

use crate::challenge::{ChallengeClaim, leaves_out};
use crate::cover::used_by;
use crate::group::Group;
use crate::held::{Asked, held_by_one};
use crate::kept::{Kept, keep_those_of};
use crate::layout::Layout;
use crate::marks::Marks;
use crate::numbers::{has, keep_common, put_in_order};
use crate::rules::small_first;
use crate::window::Window;
use std::alloc::{AllocError, Global};
use std::marker::Model;

/// Clusters that all of a claim's installations use, what one of them holds of the variables that a test may ask for, and the
/// variables of the claim's pairs.
#[derive(Drop)]
pub(crate) struct Found {
    used: Vec<u32>,
    held: Marks,
    by: Vec<u32>,
    undecided: Vec<u32>,
}

impl Model for Found {
    ghost use Rattle.dist_cert.specs.Rising.{AreRising};
    ghost use Rattle.dist_check_group.specs.FoundPrivate.{FoundView};

    ghost Value = { FoundView };

    ghost view = { λ f. record { used = f.used.items; held = f.held; by = f.by.items; undecided = f.undecided.items } };

    ghost invariant = { λ f. AreRising f.used.items × AreRising f.by.items × AreRising f.undecided.items };
}

impl Found {
    /// What is looked up for a claim.
    pub(crate) fn new(
        alloc: Global,
        window: &Window,
        group: &Group,
        claim: &ChallengeClaim<'_>,
    ) -> Result<Found, AllocError>
        ensures { IfOk result (IsFoundFor window.now.layout window.now group.now.cover claim.now.variable claim.now.named.now claim.now.by.now claim.now.undecided.now) }
    {
        let named = small_first(alloc, window, claim.named)?;
        let found = Found::by_names(alloc, window, group, claim, &named);
        drop(named);
        found
    }

    /// The same, where the installations that the claim names are given, each once.
    fn by_names(
        alloc: Global,
        window: &Window,
        group: &Group,
        claim: &ChallengeClaim<'_>,
        named: &[u32],
    ) -> Result<Found, AllocError>
        requires { (q : ℕ) → Contains named.now q ↔ Contains claim.now.named.now q }
        ensures { IfOk result (IsFoundFor window.now.layout window.now group.now.cover claim.now.variable claim.now.named.now claim.now.by.now claim.now.undecided.now) }
    {
        let first = first_used(alloc, window, group, named)?;
        let mut found = Found::listed(alloc, window, group, claim, named, &first)?;
        match used_by_all(alloc, window, &found, claim.variable, named, first) {
            Ok(used) => {
                found.set_used(used);
                Ok(found)
            }
            Err(error) => {
                drop(found);
                Err(error)
            }
        }
    }

    /// The same without the clusters, where those that all installations use are among the first ones.
    fn listed(
        alloc: Global,
        window: &Window,
        group: &Group,
        claim: &ChallengeClaim<'_>,
        named: &[u32],
        first: &[u32],
    ) -> Result<Found, AllocError>
        ensures held { IfOk result (λ found. (v : ℕ) → may_ask window.now.layout found.undecided first.now v ≡ true
            → is_marked found.held v ≡ is_held window.now.layout window.now group.now.cover named.now v) }
        ensures by { IfOk result (λ found. (v : ℕ) → is_among found.by v ≡ is_among (map (at_class window.now.layout) claim.now.by.now) v) }
        ensures undecided { IfOk result (λ found. (v : ℕ) → is_among found.undecided v ≡ is_among (map (at_class window.now.layout) claim.now.undecided.now) v) }
    {
        let layout = window.layout();
        let by = variables_of(alloc, layout, claim.by)?;
        let undecided = variables_of(alloc, layout, claim.undecided)?;
        let asked = Asked {
            undecided: &undecided,
            clusters: first,
        };
        let held = held_by_one(alloc, window, group, named, &asked)?;
        Ok(Found {
            used: Vec::new(alloc),
            held,
            by,
            undecided,
        })
    }

    /// Sets the clusters.
    fn set_used(&mut self, used: Vec<u32>)
        requires { AreRising used.items }
        ensures { self.new ≡ record self.old { used = used.items } }
    {
        self.used = used;
    }

    /// The clusters that all installations use, of those that a test asks for.
    pub(crate) fn used(&self) -> &[u32]
        ensures { result.now ≡ self.now.used }
    {
        &self.used
    }

    /// Whether a cluster is one of these.
    pub(crate) fn uses(&self, cluster: u32) -> bool
        ensures { result ≡ is_among self.now.used cluster }
    {
        has(&self.used, cluster)
    }

    /// Whether one of the installations holds a variable.
    pub(crate) fn holds(&self, variable: u32) -> bool
        ensures { result ≡ is_marked self.now.held variable }
    {
        self.held.has(variable)
    }

    /// Whether a variable is that of a pair that challenges.
    pub(crate) fn challenges(&self, variable: u32) -> bool
        ensures { result ≡ is_among self.now.by variable }
    {
        has(&self.by, variable)
    }

    /// Whether a pair is undecided.
    fn has_undecided(&self) -> bool
        ensures { result ≡ not (length self.now.undecided == 0) }
    {
        !self.undecided.is_empty()
    }

    /// Whether a variable is that of an undecided pair.
    pub(crate) fn is_undecided(&self, variable: u32) -> bool
        ensures { result ≡ is_among self.now.undecided variable }
    {
        has(&self.undecided, variable)
    }
}

/// Whether a test asks for a cluster.
fn is_asked(layout: &Layout, found: &Found, variable: u32, cluster: u32) -> bool
    ensures { result ≡ is_asked layout.now found.now variable cluster }
{
    found.has_undecided() || leaves_out(layout, found, variable, cluster)
}

/// Keeps the clusters that a test asks for.
fn keep_asked(layout: &Layout, found: &Found, variable: u32, kept: &mut Vec<u32>)
    ensures { kept.new.items ≡ filter (is_asked layout.now found.now variable) kept.old.items }
{
    kept.retain(|cluster| is_asked(layout, found, variable, *cluster));
}

/// Keeps the clusters that the installation of a number uses.
fn keep_used(
    alloc: Global,
    window: &Window,
    number: u32,
    kept: &mut Vec<u32>,
) -> Result<(), AllocError>
    ensures { OnOk result (kept.new.items ≡ filter (is_among (used window.now.layout (members_at window.now number))) kept.old.items) }
{
    if kept.is_empty() {
        return Ok(());
    }
    if let Some(clusters) = window.used(number) {
        keep_those_of(kept, clusters);
        return Ok(());
    }
    let used = used_by_one(alloc, window, number)?;
    keep_common(kept, &used);
    Ok(())
}

/// Keeps the clusters that all installations that are named use.
fn keep_used_by_each(
    alloc: Global,
    window: &Window,
    named: &[u32],
    kept: &mut Vec<u32>,
) -> Result<(), AllocError>
    ensures { OnOk result (kept.new.items ≡ filter (use_each window.now.layout window.now named.now) kept.old.items) }
{
    for number in named {
        keep_used(alloc, window, *number, kept)?;
    }
    Ok(())
}

/// The clusters that the installation of a number uses.
fn used_by_one(alloc: Global, window: &Window, number: u32) -> Result<Vec<u32>, AllocError>
    ensures value { IfOk result (λ found. (c : ℕ) → is_among found.items c ≡ is_among (used window.now.layout (members_at window.now number)) c) }
    ensures rising { IfOk result (λ found. AreRising found.items) }
{
    let members = window.members(alloc, number)?;
    used_by(alloc, window.layout(), &members)
}

/// Keeps the clusters that the installation of a number uses, where it tells them.
fn narrow_by(alloc: Global, window: &Window, number: u32, kept: &mut Kept) -> Result<(), AllocError>
    ensures { OnOk result ((c : ℕ) → (is_among kept.new c && is_among (used window.now.layout (members_at window.now number)) c)
        ≡ (is_among kept.old c && is_among (used window.now.layout (members_at window.now number)) c)) }
{
    match window.used(number) {
        Some(clusters) => {
            kept.narrow(alloc, clusters)?;
            Ok(())
        }
        None => Ok(()),
    }
}

/// The same of all that are named.
fn narrow_by_each(
    alloc: Global,
    window: &Window,
    named: &[u32],
    kept: &mut Kept,
) -> Result<(), AllocError>
    ensures { OnOk result ((c : ℕ) → (is_among kept.new c && use_each window.now.layout window.now named.now c)
        ≡ (is_among kept.old c && use_each window.now.layout window.now named.now c)) }
{
    for number in named {
        narrow_by(alloc, window, *number, kept)?;
    }
    Ok(())
}

/// The clusters that the installation of a number uses, but for some that one of the large installations that are named does not
/// use, where it is a large one itself.
fn used_by_first(
    alloc: Global,
    window: &Window,
    number: u32,
    named: &[u32],
) -> Result<Vec<u32>, AllocError>
    ensures value { IfOk result (λ found. (c : ℕ) → (is_among found.items c && use_each window.now.layout window.now named.now c)
        ≡ (is_among (used window.now.layout (members_at window.now number)) c && use_each window.now.layout window.now named.now c)) }
    ensures rising { IfOk result (λ found. AreRising found.items) }
{
    let Some(clusters) = window.used(number) else {
        return used_by_one(alloc, window, number);
    };
    let mut kept = clusters.copied(alloc)?;
    narrow_by_each(alloc, window, named, &mut kept)?;
    Ok(kept.listed(alloc)?)
}

/// The clusters that one of the claim's installations uses, narrowed by those of the group. Each that all use is there.
fn first_used(
    alloc: Global,
    window: &Window,
    group: &Group,
    named: &[u32],
) -> Result<Vec<u32>, AllocError>
    ensures value { IfOk result (λ found. (c : ℕ) → (is_among found.items c && use_each window.now.layout window.now named.now c)
        ≡ (is_among (first_used window.now.layout window.now group.now.cover.used named.now) c && use_each window.now.layout window.now named.now c)) }
    ensures rising { IfOk result (λ found. AreRising found.items) }
{
    if let Some(clusters) = group.used() {
        return Ok(clusters.to_vec(alloc)?);
    }
    match named.first() {
        Some(number) => used_by_first(alloc, window, *number, named),
        None => Ok(Vec::new(alloc)),
    }
}

/// Of the clusters that one of the claim's installations uses those that all of them use, and that a test asks for.
fn used_by_all(
    alloc: Global,
    window: &Window,
    found: &Found,
    variable: u32,
    named: &[u32],
    first: Vec<u32>,
) -> Result<Vec<u32>, AllocError>
    requires { AreRising first.items }
    ensures value { IfOk result (λ used. (c : ℕ) → is_among used.items c
        ≡ ((is_among first.items c && use_each window.now.layout window.now named.now c) && is_asked window.now.layout found.now variable c)) }
    ensures rising { IfOk result (λ used. AreRising used.items) }
{
    let mut used = first;
    keep_asked(window.layout(), found, variable, &mut used);
    keep_used_by_each(alloc, window, named, &mut used)?;
    Ok(used)
}

/// The variables that put the clusters of pairs at their classes.
fn at_classes(alloc: Global, layout: &Layout, pairs: &[(u32, u32)]) -> Result<Vec<u32>, AllocError>
    ensures { IfOk result (λ found. found.items ≡ map (at_class layout.now) pairs.now) }
{
    let mut found = Vec::new(alloc);
    for pair in pairs {
        found.push(layout.at_class(*pair))?;
    }
    Ok(found)
}

/// The same, in order.
fn variables_of(
    alloc: Global,
    layout: &Layout,
    pairs: &[(u32, u32)],
) -> Result<Vec<u32>, AllocError>
    ensures value { IfOk result (λ found. (v : ℕ) → is_among found.items v ≡ is_among (map (at_class layout.now) pairs.now) v) }
    ensures rising { IfOk result (λ found. AreRising found.items) }
{
    let mut found = at_classes(alloc, layout, pairs)?;
    put_in_order(&mut found);
    Ok(found)
}
