//! The variables of a counter, and how many there are.
ghost use Rattle.std.specs.Prelude.{◌≡◌, ◌+◌, ◌*◌, ◌<◌, ◌≤◌};
ghost use Rattle.dist_base.specs.declared.TheConstants.{MAX_VARIABLES};
ghost use Rattle.dist_repair.specs.Counters.{counted_variables, counter_of, moved, more};

use dist_space::Space;
use std::marker::Model;

/// A counter of clusters that move, up to a most. Its variables stand behind a last one.
#[derive(Debug, Drop)]
pub(crate) struct Counter {
    pub(crate) last: u32,
    pub(crate) clusters: u32,
    pub(crate) most: u32,
}

impl Model for Counter {
    ghost use Rattle.dist_repair.specs.Counters.{Counter};

    ghost Value = { Counter };

    ghost view = { λ c. record { last = c.last; clusters = c.clusters; most = c.most } };
}

impl Counter {
    /// The counter of a space's clusters.
    pub(crate) fn of(space: &Space, most: u32) -> Counter
        ensures { result ≡ counter_of space.now most }
    {
        Counter {
            last: space.variables(),
            clusters: space.clusters().len(),
            most,
        }
    }

    /// How many variables there are with those of the counter.
    pub(crate) fn variables(&self) -> u64
        requires { self.now.most ≤ 64 }
        ensures { result ≡ counted_variables self.now }
    {
        let clusters = u64::from(self.clusters);
        u64::from(self.last) + clusters + clusters * (u64::from(self.most) + 1)
    }

    /// How many clusters it counts.
    pub(crate) fn clusters(&self) -> u32
        ensures { result ≡ self.now.clusters }
    {
        self.clusters
    }

    /// The most that it counts to.
    pub(crate) fn most(&self) -> u32
        ensures { result ≡ self.now.most }
    {
        self.most
    }

    /// The variable that says that a cluster has moved.
    pub(crate) fn moved(&self, cluster: u32) -> u32
        requires cluster { cluster < self.now.clusters }
        requires variables { counted_variables self.now ≤ MAX_VARIABLES }
        ensures value { result ≡ moved self.now cluster }
        ensures in_range { result ≤ counted_variables self.now }
    {
        self.last + cluster + 1
    }

    /// The variable that says that more than so many of the clusters up to one have moved.
    pub(crate) fn more(&self, cluster: u32, number: u32) -> u32
        requires cluster { cluster < self.now.clusters }
        requires number { number ≤ self.now.most }
        requires variables { counted_variables self.now ≤ MAX_VARIABLES }
        ensures value { result ≡ more self.now cluster number }
        ensures in_range { result ≤ counted_variables self.now }
    {
        self.last + self.clusters + cluster * (self.most + 1) + number + 1
    }
}
