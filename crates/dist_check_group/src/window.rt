//! The latest installations, by their numbers.
ghost use Rattle.std.specs.Prelude.{◌≡◌, ◌+◌, ◌-◌, ◌<◌, ◌≤◌, ◌^◌, [], ◌∷◌, ◌++◌, ℕ, All, IfOk, IfSome, None, OnErr, OnOk, drop, if◌then◌else◌, length, map, nat_le, slice_get};
ghost use Rattle.std.specs.Option.{option_copied};
ghost use Rattle.dist_cert.specs.declared.TheConstants.{REACH};
ghost use Rattle.dist_cert.specs.Rising.{AreRising, is_among};
ghost use Rattle.dist_check_group.specs.Layout.{used};
ghost use Rattle.dist_check_group.specs.Window.{WindowView, has_member, kept_at, latest, members_at};
ghost use Rattle.dist_check_group.specs.WindowPrivate.{TellsUsed, members_of};

use crate::cover::used_by;
use crate::kept::Kept;
use crate::layout::Layout;
use dist_cert::{CertKind, Numbers, REACH};
use std::alloc::{AllocError, Global};
use std::collections::VecDeque;
use std::marker::Model;

/// An installation, and perhaps the clusters that it uses.
#[derive(Drop)]
pub(crate) struct Installation {
    members: Kept,
    used: Option<Kept>,
}

/// The latest installations, as many as a claim may reach back. They are numbered from 1.
#[derive(Drop)]
pub struct Window {
    kept: VecDeque<Installation>,
    /// How many installations there were.
    count: u64,
    /// What the variables stand for.
    layout: Layout,
    /// The last variable.
    last: u32,
    /// The last cluster of one.
    last_cluster: u32,
}

impl Model for Window {
    ghost use Rattle.std.specs.Prelude.{◌≤◌, All, length, map};
    ghost use Rattle.dist_cert.specs.declared.TheConstants.{REACH};
    ghost use Rattle.dist_check_group.specs.Window.{WindowView};
    ghost use Rattle.dist_check_group.specs.WindowPrivate.{TellsUsed, members_of};

    ghost Value = { WindowView };

    ghost view = { λ w. record { kept = map members_of w.kept.items; count = w.count; layout = w.layout } };

    ghost invariant = { λ w. (length w.kept.items ≤ w.count) × (length w.kept.items ≤ REACH) × All (TellsUsed w.layout) w.kept.items };
}

impl Window {
    /// No installations, of variables up to a last one.
    pub fn new(alloc: Global, last: u32, layout: Layout) -> Window
        ensures { result ≡ record { kept = []; count = 0; layout = layout } }
    {
        let last_cluster = layout.last_cluster();
        Window {
            kept: VecDeque::new(alloc),
            count: 0,
            layout,
            last,
            last_cluster,
        }
    }

    /// What the variables stand for.
    pub fn layout(&self) -> &Layout
        ensures { result.now ≡ self.now.layout }
    {
        &self.layout
    }

    /// Adds an installation as the latest one.
    pub fn add(&mut self, alloc: Global, members: Numbers) -> Result<(), AllocError>
        requires count { self.old.count + 1 < 2 ^ 64 }
        requires rising { AreRising members }
        ensures { OnOk result (self.new ≡ record self.old { kept = latest (self.old.kept ++ members ∷ []); count = self.old.count + 1 }) }
    {
        let members = Kept::new(alloc, members.into_vec(), self.last)?;
        let installation = with_used(alloc, &self.layout, self.last_cluster, members)?;
        keep(&mut self.kept, installation)?;
        self.count += 1;
        Ok(())
    }

    /// The members of the installation of a number, where it is one of the latest.
    pub(crate) fn get(&self, number: u32) -> Option<&Kept>
        ensures { option_copied result ≡ kept_at self.now number }
    {
        match find(&self.kept, self.count, number) {
            Some(installation) => Some(&installation.members),
            None => None,
        }
    }

    /// The same as a list, and no members where it is not.
    pub(crate) fn members(&self, alloc: Global, number: u32) -> Result<Vec<u32>, AllocError>
        ensures value { IfOk result (λ members. members.items ≡ members_at self.now number) }
        ensures rising { IfOk result (λ members. AreRising members.items) }
    {
        match self.get(number) {
            Some(members) => members.listed(alloc),
            None => Ok(Vec::new(alloc)),
        }
    }

    /// Rising numbers as those of an installation are kept.
    pub(crate) fn keep(&self, alloc: Global, numbers: Vec<u32>) -> Result<Kept, AllocError>
        requires { AreRising numbers.items }
        ensures { IfOk result (λ kept. kept ≡ numbers.items) }
    {
        Kept::new(alloc, numbers, self.last)
    }

    /// How many members it has.
    pub(crate) fn size(&self, number: u32) -> usize {
        match self.get(number) {
            Some(members) => members.size(),
            None => 0,
        }
    }

    /// Whether the installation of a number is one of the latest and has the variable.
    pub fn has(&self, number: u32, variable: u32) -> bool
        ensures { result ≡ has_member (kept_at self.now number) variable }
    {
        match self.get(number) {
            Some(members) => members.has(variable),
            None => false,
        }
    }

    /// The clusters that the installation of a number uses, where it tells them.
    pub(crate) fn used(&self, number: u32) -> Option<&Kept>
        ensures { IfSome result (λ clusters. (c : ℕ) → is_among clusters.now c ≡ is_among (used self.now.layout (members_at self.now number)) c) }
    {
        match find(&self.kept, self.count, number) {
            Some(installation) => clusters_of(&self.layout, installation),
            None => None,
        }
    }
}

/// Adds an installation, and leaves as many of the latest ones as a claim may reach back.
fn keep(kept: &mut VecDeque<Installation>, installation: Installation) -> Result<(), AllocError>
    requires { length kept.old.items ≤ REACH }
    ensures ok { OnOk result (kept.new.items ≡ drop (length kept.old.items + 1 - REACH) (kept.old.items ++ installation ∷ [])) }
    ensures err { OnErr result (kept.new.items ≡ kept.old.items) }
{
    kept.push_back(installation)?;
    if kept.len() > REACH {
        kept.pop_front();
    }
    Ok(())
}

/// The installation of a number, where it is one of these latest ones.
fn find(installations: &VecDeque<Installation>, count: u64, number: u32) -> Option<&Installation>
    requires { length installations.now.items ≤ count }
    ensures { option_copied result ≡ (if nat_le number (count - length installations.now.items) then None else slice_get installations.now.items
        (number - (count - length installations.now.items) - 1)) }
{
    let forgotten = count - installations.len() as u64;
    if u64::from(number) <= forgotten {
        return None;
    }
    installations.get((u64::from(number) - forgotten - 1) as usize)
}

/// An installation, with the clusters that it uses, up to a last one, where a claim may ask for them and its members are many.
fn with_used(
    alloc: Global,
    layout: &Layout,
    last: u32,
    members: Kept,
) -> Result<Installation, AllocError>
    ensures members { IfOk result (λ installation. members_of installation ≡ members) }
    ensures used { IfOk result (TellsUsed layout.now) }
{
    if !members.is_row() || layout.kind() != CertKind::Challenged {
        return Ok(Installation {
            members,
            used: None,
        });
    }
    let used = used_of(alloc, layout, last, &members)?;
    Ok(Installation {
        members,
        used: Some(used),
    })
}

/// The clusters that the members of an installation are of, up to a last one.
fn used_of(alloc: Global, layout: &Layout, last: u32, members: &Kept) -> Result<Kept, AllocError>
    ensures { IfOk result (λ found. (c : ℕ) → is_among found c ≡ is_among (used layout.now members.now) c) }
{
    let listed = members.listed(alloc)?;
    let found = used_by(alloc, layout, &listed)?;
    Ok(Kept::new(alloc, found, last)?)
}

/// The clusters that an installation uses, where it tells them.
fn clusters_of<'a>(layout: &Layout, installation: &'a Installation) -> Option<&'a Kept>
    requires { TellsUsed layout.now installation.now }
    ensures { IfSome result (λ clusters. (c : ℕ) → is_among clusters.now c ≡ is_among (used layout.now (members_of installation.now)) c) }
{
    match &installation.used {
        Some(clusters) => Some(clusters),
        None => None,
    }
}
