//! Which members of each cluster an archive may hold: all of them, or those that the latest upload brought. So an upload looks at what it takes
//! away and at what it brings, however many members the cluster has.
ghost use Rattle.std.specs.Prelude.{◌≡◌, ◌<◌, IfOk, Some, length, replicate, slice_get, slice_set};
ghost use Rattle.dist_archive.specs.MembersPrivate.{may_hold};
ghost use Rattle.dist_archive.specs.declared.members.Members.{Members};
ghost use Rattle.dist_archive.specs.declared.members.Members.TheVariants as among;

use std::alloc::{AllocError, Global};
use std::marker::Model;

/// Which members of one cluster may be held.
#[derive(Drop)]
pub(crate) enum Members {
    /// Each of them.
    Every,
    /// Those that the latest upload brought.
    Brought(Vec<u32>),
}

/// Which members of each cluster may be held, by the numbers of clusters.
#[derive(Drop)]
pub(crate) struct Held {
    clusters: Vec<Members>,
}

impl Model for Held {
    ghost use Rattle.std.specs.Prelude.{List};
    ghost use Rattle.dist_archive.specs.declared.members.Members.{Members};

    ghost Value = { List Members };

    ghost view = { λ h. h.clusters.items };
}

impl Held {
    /// All members of each cluster may be held.
    pub(crate) fn new(alloc: Global, clusters: u32) -> Result<Held, AllocError>
        ensures { IfOk result (λ held. held ≡ replicate clusters among.Every) }
    {
        let mut all = Vec::new(alloc);
        for _number in 0..clusters {
            all.push(Members::Every)?;
        }
        Ok(Held { clusters: all })
    }

    /// The numbers of the members of a cluster that may be held. All of its members are given.
    pub(crate) fn of<'a>(&'a self, cluster: u32, members: &'a [u32]) -> &'a [u32]
        requires { cluster < length self.now }
        ensures { (m : Members) → slice_get self.now cluster ≡ Some m → result.now ≡ may_hold members.now m }
    {
        match &self.clusters[cluster as usize] {
            Members::Every => members,
            Members::Brought(numbers) => numbers,
        }
    }

    /// From now on no members of a cluster may be held but these.
    pub(crate) fn put(&mut self, cluster: u32, numbers: Vec<u32>)
        requires { cluster < length self.old }
        ensures { self.new ≡ slice_set self.old cluster (among.Brought numbers) }
    {
        self.clusters[cluster as usize] = Members::Brought(numbers);
    }
}
