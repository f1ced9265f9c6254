//! Clusters as they are found: the members and the top of each, and for each member its cluster.
ghost use Rattle.std.specs.Prelude.{◌≡◌, ◌↔◌, ◌<◌, ℕ, Any, Contains, Some, length, slice_get};
ghost use Rattle.dist_cluster.specs.Partition.{IsIn};

use dist_base::Flat;
use dist_version::Version;
use std::marker::Model;

/// Clusters in order, numbered from 0: the numbers of the members of each, and its top.
#[derive(Drop)]
pub struct Clusters {
    pub(crate) members: Flat<u32>,
    pub(crate) tops: Vec<Version>,
    /// For each member the number of its cluster.
    pub(crate) cluster_of: Vec<u32>,
}

impl Model for Clusters {
    ghost use Rattle.dist_cluster.specs.Found.{IsListed};
    ghost use Rattle.dist_cluster.specs.Top.{ClusterList};

    ghost Value = { ClusterList };

    ghost view = { λ c. record { members = c.members; tops = c.tops.items } };

    ghost invariant = { λ c. IsListed c.members c.tops.items c.cluster_of.items };
}

impl Clusters {
    /// How many clusters there are.
    pub fn len(&self) -> u32
        ensures { result ≡ length self.now.members }
    {
        self.members.len() as u32
    }

    /// The numbers of the members of a cluster, rising.
    pub fn members(&self, cluster: u32) -> &[u32]
        requires { cluster < length self.now.members }
        ensures { slice_get self.now.members cluster ≡ Some result.now }
    {
        self.members.get(cluster as usize)
    }

    /// The greatest version of a cluster's members.
    pub fn top(&self, cluster: u32) -> &Version
        requires { cluster < length self.now.members }
        ensures { slice_get self.now.tops cluster ≡ Some result.now }
    {
        &self.tops[cluster as usize]
    }

    /// The number of the cluster that has a member.
    pub fn cluster_of(&self, member: u32) -> u32
        requires { Any (λ cluster. Contains cluster member) self.now.members }
        ensures { (c : ℕ) → IsIn self.now.members c member ↔ (c ≡ result) }
    {
        self.cluster_of[member as usize]
    }
}
