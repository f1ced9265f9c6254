//! What the claim on a challenged package names, and which pairs it asks for: by a known installation of today, or by one that was
//! found.
//!
//! A claim names an installation of today with its package. Where a known one uses many clusters, their pairs are not gone through: an
//! installation that is found for one of the first pairs mostly uses few clusters, and covers the pairs of all others.
ghost use Rattle.std.specs.Prelude.{◌≡◌, ◌+◌, ◌-◌, ◌<◌, ◌≤◌, false, true, IfOk, IfSome, OnOk, length, slice_index};
ghost use Rattle.dist_covering.specs.Group.{group_of};
ghost use Rattle.dist_covering.specs.OpenPairs.{IsKept, IsPlan, IsTodayWith};
ghost use Rattle.dist_covering.specs.Planning.{IsFirst, IsFound, IsStart, IsTakenUp};

use crate::covering::{Covering, is_today, lasts};
use crate::group::Group;
use dist_cert::REACH;
use dist_sweep::Window;
use std::alloc::AllocError;

/// How many clusters of a large installation give the pairs that are asked for first.
const FIRST_CLUSTERS: usize = 16;

/// The installation to start with, where the latest one is of today: the one before, if it is of this claim too, and else that of today.
fn start_of(window: &Window, earlier: u32) -> u32
    requires { earlier < window.now.count }
    ensures { IsStart window.now earlier result }
{
    let today = window.count();
    if today - earlier > 1 {
        today - 1
    } else {
        today
    }
}

impl Covering {
    /// The installations, besides that of today, that strike pairs of those that today's and the one to start with leave open, and
    /// the pairs that are open still.
    fn plan(
        &self,
        window: &Window,
        package: u32,
        present: u32,
        today: u32,
        start: u32,
    ) -> Result<(Vec<u32>, Vec<u32>), AllocError>
        requires numbered { 1 ≤ «package» }
        requires today { IsKept window.now today }
        requires kept { IsKept window.now start }
        requires variables { window.now.variables ≡ length self.now.space.meanings }
        requires from_one { 1 ≤ present }
        requires upto { present ≤ length self.now.space.meanings }
        ensures { IfOk result (λ both. IsPlan self.now window.now present (slice_index self.now.space.cluster_of («package» - 1)) today start 0 both.0.items both.1.items) }
    {
        let mut ats = self.candidates(window, start, today, package)?;
        let named = self.strike(window, present, today, &mut ats)?;
        Ok((named, ats))
    }

    /// Plans a group by a known installation of today, which it is to name, and one to start with; answers false, and leaves the
    /// group, where a claim could not name that of today until the last question.
    fn take_up(
        &self,
        window: &Window,
        group: &mut Group,
        today: u32,
        start: u32,
    ) -> Result<bool, AllocError>
        requires numbered { 1 ≤ group.old.claimed }
        requires today { IsKept window.now today }
        requires kept { IsKept window.now start }
        requires variables { window.now.variables ≡ length self.now.space.meanings }
        requires from_one { 1 ≤ group.old.present }
        requires upto { group.old.present ≤ length self.now.space.meanings }
        ensures taken { IfOk result (λ taken. taken ≡ true → IsTakenUp self.now window.now group.old group.new today start) }
        ensures left { IfOk result (λ taken. taken ≡ false → group.new ≡ group.old) }
    {
        let (named, open) = self.plan(window, group.claimed(), group.present(), today, start)?;
        if !lasts(window, open.len(), today) {
            return Ok(false);
        }
        let mut named = named;
        named.push(today)?;
        group.plan(self.alloc, named, &open)?;
        Ok(true)
    }

    /// The group of a claim by a known installation of today, where that uses few clusters and a claim could name it until its last
    /// question.
    pub fn known_group(
        &self,
        window: &Window,
        package: u32,
        present: u32,
        today: u32,
    ) -> Result<Option<Group>, AllocError>
        requires numbered { 1 ≤ «package» }
        requires today { IsKept window.now today }
        requires variables { window.now.variables ≡ length self.now.space.meanings }
        requires from_one { 1 ≤ present }
        requires upto { present ≤ length self.now.space.meanings }
        ensures { IfOk result (λ known. IfSome known (λ group. IsTakenUp self.now window.now (group_of «package» present) group today today)) }
    {
        // It would leave too many pairs.
        if self.used_by(window, today).len() > REACH {
            return Ok(None);
        }
        let mut group = Group::new(self.alloc, package, present);
        if self.take_up(window, &mut group, today, today)? {
            return Ok(Some(group));
        }
        Ok(None)
    }

    /// The group of some of the pairs that a known installation of today leaves open, where a claim could name that until the last of
    /// them.
    pub fn first_group(
        &self,
        window: &Window,
        package: u32,
        present: u32,
        today: u32,
    ) -> Result<Option<Group>, AllocError>
        requires numbered { 1 ≤ «package» }
        requires today { IsKept window.now today }
        requires variables { window.now.variables ≡ length self.now.space.meanings }
        ensures { IfOk result (λ first. IfSome first (λ group. IsFirst self.now window.now (group_of «package» present) group today)) }
    {
        let clusters = self.used_by(window, today).len().min(FIRST_CLUSTERS);
        let open = self.open_among(window, today, package, clusters)?;
        if !lasts(window, open.len(), today) {
            return Ok(None);
        }
        let mut named = Vec::new(self.alloc);
        named.push(today)?;
        let mut group = Group::new(self.alloc, package, present);
        group.plan(self.alloc, named, &open)?;
        Ok(Some(group))
    }

    /// Plans a group by a known installation of today and the one that was found for it, where one was; answers false, and leaves
    /// the group, where a claim could not name that of today.
    pub fn take_up_behind(
        &self,
        window: &Window,
        group: &mut Group,
        earlier: u32,
        today: u32,
    ) -> Result<bool, AllocError>
        requires numbered { 1 ≤ group.old.claimed }
        requires kept { earlier < window.now.count → IsKept window.now window.now.count }
        requires variables { window.now.variables ≡ length self.now.space.meanings }
        requires from_one { 1 ≤ group.old.present }
        requires upto { group.old.present ≤ length self.now.space.meanings }
        ensures found { IfOk result (λ taken. taken ≡ true → earlier < window.now.count) }
        ensures today { IfOk result (λ taken. taken ≡ true → IsTodayWith window.now group.old.present today) }
        ensures taken { IfOk result (λ taken. taken ≡ true → IsTakenUp self.now window.now group.old group.new today window.now.count) }
        ensures left { IfOk result (λ taken. taken ≡ false → group.new ≡ group.old) }
    {
        let latest = window.count();
        if latest > earlier && is_today(window, today, group.present()) {
            return self.take_up(window, group, today, latest);
        }
        Ok(false)
    }

    /// Plans a group by the latest installation, which is of today, and by the one before where that was found for it too.
    pub fn plan_found(
        &self,
        window: &Window,
        group: &mut Group,
        earlier: u32,
    ) -> Result<(), AllocError>
        requires numbered { 1 ≤ group.old.claimed }
        requires found { earlier < window.now.count }
        requires kept { IsKept window.now window.now.count }
        requires before { earlier + 1 < window.now.count → IsKept window.now (window.now.count - 1) }
        requires variables { window.now.variables ≡ length self.now.space.meanings }
        requires from_one { 1 ≤ group.old.present }
        requires upto { group.old.present ≤ length self.now.space.meanings }
        ensures { OnOk result (IsFound self.now window.now group.old group.new earlier) }
    {
        let today = window.count();
        let start = start_of(window, earlier);
        let (named, open) = self.plan(window, group.claimed(), group.present(), today, start)?;
        group.plan(self.alloc, named, &open)?;
        Ok(())
    }
}
