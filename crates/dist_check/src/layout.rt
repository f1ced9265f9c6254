//! What a checker keeps of the variables of a space.
ghost use Rattle.std.specs.Prelude.{◌≡◌, ◌≢◌, ◌+◌, ◌<◌, ◌≤◌, ◌∷◌, List, IfOk, length, map, slice_index};
ghost use Rattle.std.specs.List.{range_with_len};
ghost use Rattle.dist_clause.specs.Formula.{Literal};
ghost use Rattle.dist_subject.specs.Later.{later_matter};
ghost use Rattle.dist_check.specs.LaysOut.{LaysOut};
ghost use Rattle.dist_check.specs.LayoutPrivate.{HasOwner, class_variables, owner_of};

use dist_base::Flat;
use dist_cert::CertKind;
use dist_check_group::Layout;
use dist_space::{Meaning, Space, packages_come_first};
use std::alloc::{AllocError, Global};

/// The number from 1 of the cluster of a package.
fn cluster_from_one(space: &Space, member: u32) -> u32
    requires { member < length space.now.repository.packages }
    ensures { result ≡ slice_index space.now.cluster_of member + 1 }
{
    space.keeps_invariant();
    space.cluster_of(member) + 1
}

/// The number from 1 of the cluster of which a variable is a package, as it is or new, or 0.
fn owner(space: &Space, variable: u32) -> u32
    requires from_one { 1 ≤ variable }
    requires in_range { variable ≤ length space.now.meanings }
    ensures { HasOwner space.now variable result }
{
    match space.meaning(variable) {
        Meaning::Present(member) => cluster_from_one(space, member),
        Meaning::New(member, _) => cluster_from_one(space, member),
        Meaning::Now | Meaning::At(_, _) | Meaning::Kept(_, _, _) | Meaning::Fresh(_, _) => 0,
    }
}

/// The cluster of each variable, behind a first place that is of none.
fn owners(alloc: Global, space: &Space) -> Result<Vec<u32>, AllocError>
    ensures { IfOk result (λ owners. owners.items ≡ 0 ∷ map (owner_of space.now) space.now.meanings) }
{
    let mut owners = Vec::new(alloc);
    owners.push(0)?;
    for place in 0..space.variables() {
        owners.push(owner(space, place + 1))?;
    }
    Ok(owners)
}

/// The variables of a cluster's classes.
fn class_variables(alloc: Global, space: &Space, cluster: u32) -> Result<Vec<u32>, AllocError>
    ensures { IfOk result (λ variables. variables.items ≡ class_variables space.now cluster) }
{
    let mut variables = Vec::new(alloc);
    for class in 0..space.class_count(cluster) {
        variables.push(space.variable(&Meaning::At(cluster, class)))?;
    }
    Ok(variables)
}

/// Those of each cluster.
fn classes(alloc: Global, space: &Space) -> Result<Flat<u32>, AllocError>
    ensures { IfOk result (λ classes. classes
        ≡ map (class_variables space.now) (range_with_len 0 (length space.now.clusters.members))) }
{
    let mut classes = Flat::new(alloc);
    for cluster in 0..space.clusters().len() {
        let variables = class_variables(alloc, space, cluster)?;
        classes.push(variables.as_slice())?;
    }
    Ok(classes)
}

/// The layout of the variables of a space. It takes a step for each variable and each class.
pub(crate) fn layout_of(alloc: Global, space: &Space, kind: CertKind) -> Result<Layout, AllocError>
    requires { kind ≢ CertKind.Strong }
    ensures kind { IfOk result (λ layout. layout.kind ≡ kind) }
    ensures lays_out { IfOk result (λ layout. (inputs : List (List Literal))
        → LaysOut (later_matter space.now inputs) layout) }
{
    packages_come_first();
    space.keeps_invariant();
    let owners = owners(alloc, space)?;
    let classes = classes(alloc, space)?;
    Ok(Layout::new(kind, owners, classes))
}
