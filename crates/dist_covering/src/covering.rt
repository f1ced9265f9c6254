//! Which pairs of a cluster and a class the latest installations cover. A pair is given by the variable that its cluster is at its class.
ghost use Rattle.std.specs.Prelude.{◌≡◌, ◌+◌, ◌^◌, ◌<◌, ◌≤◌, [], not, true, All, IfOk, IfSome, IsTrue, OnOk, filter, length};
ghost use Rattle.dist_clause.specs.Formula.{value_of};
ghost use Rattle.dist_sweep.specs.Window.{kept_at};
ghost use Rattle.dist_cert.specs.Form.{AreFromOne};
ghost use Rattle.dist_cert.specs.Rising.{AreRising, is_among};
ghost use Rattle.dist_space.specs.Space.{IsSpace};
ghost use Rattle.dist_covering.specs.OpenPairs.{IsKept, IsTodayWith, Lasts, covered_by, used_by};
ghost use Rattle.dist_covering.specs.Covering.{IsAdded};

use crate::recent::{LATEST, Recent};
use crate::used::{Used, pair_at, used_clusters};
use circular_buffer::HeapCircularBuffer;
use dist_cert::REACH;
use dist_clause::Assignment;
use dist_space::Space;
use dist_sweep::Window;
use std::alloc::{AllocError, Global};
use std::marker::Model;

/// The clusters that each of the latest installations uses.
#[derive(Drop)]
pub struct Covering {
    pub(crate) alloc: Global,
    pub(crate) space: Space,
    /// Clusters from 1, rising, for each installation that a claim may reach.
    uses: HeapCircularBuffer<Used>,
    /// Which installations may have a package.
    pub(crate) recent: Recent,
}

impl Model for Covering {
    ghost use Rattle.std.specs.Prelude.{◌≡◌, All};
    ghost use Rattle.dist_cert.specs.declared.TheConstants.{REACH};
    ghost use Rattle.dist_cert.specs.Form.{AreFromOne};
    ghost use Rattle.dist_cert.specs.Rising.{AreRising};
    ghost use Rattle.dist_covering.specs.Covering.{CoveringView};

    ghost Value = { CoveringView };

    ghost view = { λ c. record { space = c.space; uses = c.uses.items } };

    ghost invariant = { λ c. (c.uses.capacity ≡ REACH) × All AreRising c.uses.items × All AreFromOne c.uses.items };
}

/// Whether a claim may still name an installation, once so many more came.
pub(crate) fn lasts(window: &Window, more: usize, number: u32) -> bool
    ensures { IsTrue result → Lasts window.now more number }
{
    more < REACH && window.count() as usize + more < number as usize + REACH
}

/// Whether a number is that of a kept installation with a variable.
pub(crate) fn is_with(window: &Window, number: u32, present: u32) -> bool
    requires from_one { 1 ≤ present }
    requires upto { present ≤ window.now.variables }
    ensures kept { IsTrue result → IsKept window.now number }
    ensures has { IsTrue result → value_of (kept_at window.now number) present ≡ true }
    ensures low { IsTrue result → 1 ≤ number }
{
    number <= window.count()
        && window.count() - number < window.len()
        && window.has(number, present)
}

/// Whether a number is that of a kept installation of today with a variable.
pub fn is_today(window: &Window, number: u32, present: u32) -> bool
    requires from_one { 1 ≤ present }
    requires upto { present ≤ window.now.variables }
    ensures { IsTrue result → IsTodayWith window.now present number }
{
    is_with(window, number, present) && window.has(number, 1)
}

/// Room for the latest installations, for so many packages.
fn known_of(alloc: Global, packages: u32) -> Result<(HeapCircularBuffer<Used>, Recent), AllocError>
    ensures none { IfOk result (λ known. known.0.items ≡ []) }
    ensures capacity { IfOk result (λ known. known.0.capacity ≡ REACH) }
{
    let recent = Recent::new(alloc, packages.saturating_add(1))?;
    match HeapCircularBuffer::with_capacity(alloc, REACH) {
        Ok(uses) => Ok((uses, recent)),
        Err(error) => {
            drop(recent);
            Err(error)
        }
    }
}

impl Covering {
    /// For a certificate without installations, on the futures of the space.
    pub fn new(alloc: Global, space: Space) -> Result<Covering, AllocError>
        ensures { IfOk result (λ covering. covering ≡ record { space = space; uses = [] }) }
    {
        match known_of(alloc, space.package_count()) {
            Ok((uses, recent)) => Ok(Covering {
                alloc,
                space,
                uses,
                recent,
            }),
            Err(error) => {
                drop(space);
                Err(error)
            }
        }
    }

    /// The space, with few packages.
    pub fn space(&self) -> &Space
        ensures value { result.now ≡ self.now.space }
        ensures is_space { IsSpace self.now.space }
        ensures few { length self.now.space.repository.packages < 2 ^ 32 }
    {
        self.space.keeps_invariant();
        &self.space
    }

    /// The space is one, with fewer packages than 32 bits can number. Does nothing.
    pub fn keeps_invariant(&self)
        ensures space { IsSpace self.now.space }
        ensures packages { length self.now.space.repository.packages < 2 ^ 32 }
    {
        self.space();
    }

    /// Adds an installation as the latest one.
    pub fn add(&mut self, window: &mut Window, values: Assignment) -> Result<(), AllocError>
        requires values { length values ≡ length self.old.space.meanings }
        requires variables { length values ≡ window.old.variables }
        ensures added { OnOk result (IsAdded self.old self.new window.old window.new values) }
        ensures space { self.new.space ≡ self.old.space }
    {
        let used = used_clusters(self.alloc, &self.space, &values)?;
        self.recent
            .note_all(&values, window.count().saturating_add(1));
        window.add(values)?;
        self.uses.push_back(used);
        Ok(())
    }

    /// The clusters that an installation uses.
    #[tactic(auto, using(crate::proofs::UsedSteps::none_at))]
    pub fn used_by(&self, window: &Window, number: u32) -> &[u32]
        requires { IsKept window.now number }
        ensures value { result.now ≡ used_by self.now window.now number }
        ensures rising { AreRising result.now }
        ensures from_one { AreFromOne result.now }
    {
        let first = window.count() - window.len() + 1;
        match self.uses.get((number - first) as usize) {
            Some(used) => used.as_slice(),
            None => &[],
        }
    }

    /// Whether an installation uses the cluster of this number from 1.
    #[tactic(auto, using(crate::proofs::UsedSteps::none_at))]
    fn uses(&self, window: &Window, number: u32, cluster: u32) -> bool
        requires { IsKept window.now number }
        ensures { result ≡ is_among (used_by self.now window.now number) cluster }
    {
        let first = window.count() - window.len() + 1;
        match self.uses.get((number - first) as usize) {
            Some(used) => used.has(cluster),
            None => false,
        }
    }

    /// Whether an installation covers a pair.
    fn covers(&self, window: &Window, number: u32, at: u32) -> bool
        requires kept { IsKept window.now number }
        requires variables { window.now.variables ≡ length self.now.space.meanings }
        requires from_one { 1 ≤ at }
        requires upto { at ≤ length self.now.space.meanings }
        ensures { result ≡ covered_by self.now window.now number at }
    {
        window.has(number, at) || !self.uses(window, number, pair_at(&self.space, at).0)
    }

    /// The pairs of some that an installation does not cover.
    pub(crate) fn left_by(
        &self,
        window: &Window,
        number: u32,
        ats: &[u32],
    ) -> Result<Vec<u32>, AllocError>
        requires kept { IsKept window.now number }
        requires variables { window.now.variables ≡ length self.now.space.meanings }
        requires inside { All (λ at. (1 ≤ at) × (at ≤ length self.now.space.meanings)) ats.now }
        ensures { IfOk result (λ left. left.items ≡ filter (λ at. not (covered_by self.now window.now number at)) ats.now) }
    {
        let mut left = Vec::new(self.alloc);
        for at in ats {
            let uncovered = !self.covers(window, number, *at);
            if uncovered {
                left.push(*at)?;
            }
        }
        Ok(left)
    }

    /// An installation of today with a variable, of the latest ones: one that uses few clusters, or else any.
    pub fn today_in(&self, window: &Window, present: u32) -> Option<u32>
        requires variables { window.now.variables ≡ length self.now.space.meanings }
        requires from_one { 1 ≤ present }
        requires upto { present ≤ length self.now.space.meanings }
        ensures { IfSome result (IsTodayWith window.now present) }
    {
        let mut found = None;
        for back in 0..LATEST {
            let number = self.recent.latest(present, back, true);
            if is_today(window, number, present) {
                if self.used_by(window, number).len() <= REACH {
                    return Some(number);
                }
                if found.is_none() {
                    found = Some(number);
                }
            }
        }
        found
    }
}
