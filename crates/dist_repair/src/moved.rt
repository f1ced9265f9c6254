//! Installations: their truth values, and the clusters that have moved in them.
ghost use Rattle.std.specs.Prelude.{◌≡◌, ◌⊎◌, ◌↔◌, ◌≤◌, ℕ, Any, Contains, IfOk, OnOk, Some};
ghost use Rattle.dist_cert.specs.Form.{AreFromOne};
ghost use Rattle.dist_subject.specs.Present.{truth_of};
ghost use Rattle.dist_repair.specs.Answered.{moved_in};
ghost use Rattle.dist_repair.specs.NotesPrivate.{IsClassOf};

use dist_clause::Assignment;
use dist_space::{Meaning, Space};
use std::alloc::{AllocError, Global};

/// The truth values of variables, of which those listed are true.
pub(crate) fn values_of(
    alloc: Global,
    variables: u32,
    members: &[u32],
) -> Result<Assignment, AllocError>
    requires { AreFromOne members.now }
    ensures { IfOk result (λ values. values ≡ truth_of variables members.now) }
{
    let mut values = Assignment::new(alloc, variables)?;
    for member in members {
        if *member <= variables {
            values.set(*member, true);
        }
    }
    Ok(values)
}

/// The cluster of which a variable is a class, if it is one.
fn cluster_of(space: &Space, variable: u32) -> Option<u32>
    requires { 1 ≤ variable }
    ensures { (cluster : ℕ) → IsClassOf space.now variable cluster ↔ (result ≡ Some cluster) }
{
    if variable > space.variables() {
        return None;
    }
    match space.meaning(variable) {
        Meaning::At(cluster, _) => Some(cluster),
        _ => None,
    }
}

/// Puts the cluster of which a variable is a class behind others, if it is one.
fn push_cluster(space: &Space, variable: u32, clusters: &mut Vec<u32>) -> Result<(), AllocError>
    requires { 1 ≤ variable }
    ensures { OnOk result ((cluster : ℕ) → Contains clusters.new.items cluster
        ↔ (Contains clusters.old.items cluster ⊎ IsClassOf space.now variable cluster)) }
{
    match cluster_of(space, variable) {
        Some(cluster) => Ok(clusters.push(cluster)?),
        None => Ok(()),
    }
}

/// The clusters of the classes in an installation.
fn clusters_in(alloc: Global, space: &Space, members: &[u32]) -> Result<Vec<u32>, AllocError>
    requires { AreFromOne members.now }
    ensures { IfOk result (λ clusters. (cluster : ℕ) → Contains clusters.items cluster
        ↔ Any (λ variable. IsClassOf space.now variable cluster) members.now) }
{
    let mut clusters = Vec::new(alloc);
    for member in members {
        push_cluster(space, *member, &mut clusters)?;
    }
    Ok(clusters)
}

/// Of how many clusters a class is true in an installation. It costs the members.
pub(crate) fn moved_in(alloc: Global, space: &Space, members: &[u32]) -> Result<u32, AllocError>
    requires { AreFromOne members.now }
    ensures { IfOk result (λ count. count ≡ moved_in space.now members.now) }
{
    let mut clusters = clusters_in(alloc, space, members)?;
    clusters.sort_unstable();
    clusters.dedup();
    // There are no more of them than there are clusters.
    Ok(clusters.len().min(space.clusters().len() as usize) as u32)
}
