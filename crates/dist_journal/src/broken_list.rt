//! Packages that clusters break, each with its cluster, in order.
ghost use Rattle.std.specs.Prelude.{◌≡◌, ◌<◌, IfOk, OnOk, Some, length, slice_get};
ghost use Rattle.dist_journal.specs.PairsPrivate.{Adds, IsListOf};

use std::alloc::{AllocError, Global};
use std::collections::BTreeSet;
use std::marker::Model;

/// A package that a cluster breaks, and the cluster, by their numbers.
#[derive(Clone, Copy, Debug, PartialEq, Eq)]
pub struct Broken {
    pub package_: u32,
    pub cluster: u32,
}

/// Packages that clusters break.
#[derive(Debug, Drop)]
pub struct BrokenList {
    list: Vec<Broken>,
}

impl Model for BrokenList {
    ghost use Rattle.std.specs.Prelude.{List};
    ghost use Rattle.dist_journal.specs.declared.broken_list.Broken.{Broken};

    ghost Value = { List Broken };

    ghost view = { λ b. b.list.items };
}

impl BrokenList {
    /// How many there are.
    pub fn len(&self) -> usize
        ensures { result ≡ length self.now }
    {
        self.list.len()
    }

    /// The package and the cluster at a place, from 0.
    pub fn get(&self, place: usize) -> &Broken
        requires { place < length self.now }
        ensures { slice_get self.now place ≡ Some result.now }
    {
        &self.list[place]
    }
}

/// Notes a cluster with a package.
pub(crate) fn note(
    found: &mut BTreeSet<(u32, u32)>,
    cluster: u32,
    number: u32,
) -> Result<(), AllocError>
    ensures { OnOk result (Adds found.old.keys found.new.keys (λ pair. (cluster, number) ≡ pair)) }
{
    found.insert((cluster, number))?;
    Ok(())
}

/// The clusters and packages of a set, in its order.
pub(crate) fn listed(alloc: Global, found: &BTreeSet<(u32, u32)>) -> Result<BrokenList, AllocError>
    ensures { IfOk result (IsListOf found.now.keys) }
{
    let keys = found.iter();
    let mut list = Vec::new(alloc);
    for key in keys {
        list.push(Broken {
            package_: key.1,
            cluster: key.0,
        })?;
    }
    Ok(BrokenList { list })
}
