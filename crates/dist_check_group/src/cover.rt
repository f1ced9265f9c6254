//! What a group's installations use and hold.
ghost use Rattle.std.specs.Prelude.{◌≡◌, ◌++◌, [], ℕ, None, IfOk, IfSome, OnOk};
ghost use Rattle.std.specs.Option.{ForSome, option_copied};
ghost use Rattle.dist_cert.specs.Rising.{AreRising, is_among};
ghost use Rattle.dist_check_group.specs.Layout.{non_packages, used};
ghost use Rattle.dist_check_group.specs.Cover.{Gathers};

use crate::layout::Layout;
use crate::numbers::{has, narrow_in, put_in_order, thin};
use dist_cert::Numbers;
use std::alloc::{AllocError, Global};
use std::marker::Model;

/// Of the installations that count the clusters that all of them use, if there are any, and what one of them holds besides
/// packages.
#[derive(Drop)]
pub(crate) struct Cover {
    used: Option<Numbers>,
    held: Vec<u32>,
    /// When repeated ones among what is held are next looked for.
    limit: usize,
}

impl Model for Cover {
    ghost use Rattle.std.specs.Option.{ForSome};
    ghost use Rattle.dist_cert.specs.Rising.{AreRising};
    ghost use Rattle.dist_check_group.specs.Cover.{CoverView};

    ghost Value = { CoverView };

    ghost view = { λ c. record { used = c.used; held = c.held.items } };

    ghost invariant = { λ c. ForSome c.used AreRising };
}

impl Cover {
    /// Of no installation.
    pub(crate) fn new(alloc: Global) -> Cover
        ensures { result ≡ record { used = None; held = [] } }
    {
        Cover {
            used: None,
            held: Vec::new(alloc),
            limit: 0,
        }
    }

    /// Adds an installation, which counts where it has the variable.
    pub(crate) fn add(
        &mut self,
        alloc: Global,
        layout: &Layout,
        variable: u32,
        members: &[u32],
    ) -> Result<(), AllocError>
        requires { AreRising members.now }
        ensures { OnOk result (Gathers layout.now variable members.now self.old self.new) }
    {
        if !has(members, variable) {
            return Ok(());
        }
        let used = used_by(alloc, layout, members)?;
        narrow_in(alloc, &mut self.used, &used)?;
        drop(used);
        add_held(layout, members, &mut self.held)?;
        let limit = thin(&mut self.held, self.limit);
        self.limit = limit;
        Ok(())
    }

    /// The clusters that all of them use, if there are any.
    pub(crate) fn used(&self) -> Option<&[u32]>
        ensures value { option_copied result ≡ self.now.used }
        ensures rising { IfSome result (λ clusters. AreRising clusters.now) }
    {
        match &self.used {
            Some(clusters) => Some(clusters.as_slice()),
            None => None,
        }
    }

    /// What one of them holds, in no order.
    pub(crate) fn held(&self) -> &[u32]
        ensures { result.now ≡ self.now.held }
    {
        &self.held
    }

    /// Forgets all.
    pub(crate) fn clear(&mut self)
        ensures { self.new ≡ record { used = None; held = [] } }
    {
        self.used = None;
        self.held.clear();
        self.limit = 0;
    }
}

/// The clusters of which an installation has a package.
fn clusters_of(alloc: Global, layout: &Layout, members: &[u32]) -> Result<Vec<u32>, AllocError>
    ensures { IfOk result (λ found. found.items ≡ used layout.now members.now) }
{
    let mut found = Vec::new(alloc);
    for member in members {
        if layout.is_package(*member) {
            found.push(layout.cluster_of(*member))?;
        }
    }
    Ok(found)
}

/// The clusters of which an installation has a package, in their order, each once.
pub(crate) fn used_by(
    alloc: Global,
    layout: &Layout,
    members: &[u32],
) -> Result<Vec<u32>, AllocError>
    ensures value { IfOk result (λ found. (c : ℕ) → is_among found.items c ≡ is_among (used layout.now members.now) c) }
    ensures rising { IfOk result (λ found. AreRising found.items) }
{
    let mut found = clusters_of(alloc, layout, members)?;
    put_in_order(&mut found);
    Ok(found)
}

/// Adds the members of an installation that are no packages.
fn add_held(layout: &Layout, members: &[u32], held: &mut Vec<u32>) -> Result<(), AllocError>
    ensures { OnOk result (held.new.items ≡ held.old.items ++ non_packages layout.now members.now) }
{
    for member in members {
        if layout.is_package(*member) {
            continue;
        }
        held.push(*member)?;
    }
    Ok(())
}
