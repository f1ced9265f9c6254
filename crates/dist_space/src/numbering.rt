//! The meanings of the variables, in order, up to a limit on their number.
ghost use Rattle.std.specs.Prelude.{◌≡◌, ◌<◌, ◌≤◌, ◌+◌, ◌^◌, ◌∷◌, [], All, IfErr, OnOk, IfOk, Some, length, map, slice_get};
ghost use Rattle.std.specs.List.{flat_map};
ghost use Rattle.dist_space.specs.NumberingPrivate.{below, class_part, cluster_part, entries_part, entry_part, fresh_part, meanings_of, member_part};
ghost use Rattle.dist_space.specs.Kept.{IsExtended, IsFull};
ghost use Rattle.dist_space.specs.declared.meaning.Meaning.TheVariants as meaning;

use crate::errors::SpaceError;
use crate::frame::Frame;
use crate::meaning::Meaning;
use dist_relation::Qualifier;
use dist_repo::Package;
use std::alloc::Global;

/// Adds a meaning.
fn add(meanings: &mut Vec<Meaning>, limit: u32, meaning: Meaning) -> Result<(), SpaceError>
    requires { length meanings.old.items ≤ limit }
    ensures ok { OnOk result (IsExtended limit meanings.old.items (meaning ∷ []) meanings.new.items) }
    ensures err { IfErr result (IsFull limit (length meanings.old.items + length (meaning ∷ []))) }
{
    if meanings.len() >= limit as usize {
        return Err(SpaceError::TooManyVariables);
    }
    match meanings.push(meaning) {
        Ok(()) => Ok(()),
        Err(_) => Err(SpaceError::NoMemory),
    }
}

/// Adds an entry of a member's new version, if it is usable.
fn add_entry(
    frame: &Frame,
    kept: Meaning,
    qualifier: &Qualifier,
    meanings: &mut Vec<Meaning>,
    limit: u32,
) -> Result<(), SpaceError>
    requires { length meanings.old.items ≤ limit }
    ensures ok { OnOk result (IsExtended limit meanings.old.items (entry_part frame.now.repository.architecture qualifier.now kept) meanings.new.items) }
    ensures err { IfErr result (IsFull limit (length meanings.old.items + length (entry_part frame.now.repository.architecture qualifier.now kept))) }
{
    if frame.usable(qualifier) {
        return add(meanings, limit, kept);
    }
    Ok(())
}

/// Adds the usable entries of a member's new version.
fn add_entries(
    frame: &Frame,
    member: u32,
    package: &Package,
    class: u32,
    meanings: &mut Vec<Meaning>,
    limit: u32,
) -> Result<(), SpaceError>
    requires member { slice_get frame.now.repository.packages member ≡ Some «package».now }
    requires few_entries { length «package».now.provides < 2 ^ 32 }
    requires within { length meanings.old.items ≤ limit }
    ensures ok { OnOk result (IsExtended limit meanings.old.items (entries_part frame.now class member) meanings.new.items) }
    ensures err { IfErr result (IsFull limit (length meanings.old.items + length (entries_part frame.now class member))) }
{
    for place in 0..package.provides.len() {
        let kept = Meaning::Kept(member, class, place as u32);
        add_entry(
            frame,
            kept,
            &package.provides.get(place).qualifier,
            meanings,
            limit,
        )?;
    }
    Ok(())
}

/// Adds a member's new version and its usable entries.
fn add_member(
    frame: &Frame,
    member: u32,
    class: u32,
    meanings: &mut Vec<Meaning>,
    limit: u32,
) -> Result<(), SpaceError>
    requires member { member < length frame.now.repository.packages }
    requires within { length meanings.old.items ≤ limit }
    ensures ok { OnOk result (IsExtended limit meanings.old.items (member_part frame.now class member) meanings.new.items) }
    ensures err { IfErr result (IsFull limit (length meanings.old.items + length (member_part frame.now class member))) }
{
    add(meanings, limit, Meaning::New(member, class))?;
    add_entries(frame, member, frame.package(member), class, meanings, limit)
}

/// Adds the new versions of the members of a cluster, for a class.
fn add_members(
    frame: &Frame,
    members: &[u32],
    class: u32,
    meanings: &mut Vec<Meaning>,
    limit: u32,
) -> Result<(), SpaceError>
    requires members { All (λ member. member < length frame.now.repository.packages) members.now }
    requires within { length meanings.old.items ≤ limit }
    ensures ok { OnOk result (IsExtended limit meanings.old.items (flat_map (member_part frame.now class) members.now) meanings.new.items) }
    ensures err { IfErr result (IsFull limit (length meanings.old.items + length (flat_map (member_part frame.now class) members.now))) }
{
    for member in members {
        add_member(frame, *member, class, meanings, limit)?;
    }
    Ok(())
}

/// Adds a class of a cluster, and the new versions of the members.
fn add_class(
    frame: &Frame,
    cluster: u32,
    class: u32,
    meanings: &mut Vec<Meaning>,
    limit: u32,
) -> Result<(), SpaceError>
    requires cluster { cluster < length frame.now.clusters.members }
    requires within { length meanings.old.items ≤ limit }
    ensures ok { OnOk result (IsExtended limit meanings.old.items (class_part frame.now cluster class) meanings.new.items) }
    ensures err { IfErr result (IsFull limit (length meanings.old.items + length (class_part frame.now cluster class))) }
{
    add(meanings, limit, Meaning::At(cluster, class))?;
    add_members(frame, frame.members(cluster), class, meanings, limit)
}

/// Adds the classes of a cluster.
fn add_cluster(
    frame: &Frame,
    cluster: u32,
    meanings: &mut Vec<Meaning>,
    limit: u32,
) -> Result<(), SpaceError>
    requires cluster { cluster < length frame.now.clusters.members }
    requires within { length meanings.old.items ≤ limit }
    ensures ok { OnOk result (IsExtended limit meanings.old.items (cluster_part frame.now cluster) meanings.new.items) }
    ensures err { IfErr result (IsFull limit (length meanings.old.items + length (cluster_part frame.now cluster))) }
{
    for class in 0..frame.class_count(cluster) {
        add_class(frame, cluster, class, meanings, limit)?;
    }
    Ok(())
}

/// Adds all clusters.
fn add_clusters(frame: &Frame, meanings: &mut Vec<Meaning>, limit: u32) -> Result<(), SpaceError>
    requires { length meanings.old.items ≤ limit }
    ensures ok { OnOk result (IsExtended limit meanings.old.items (flat_map (cluster_part frame.now) (below (length frame.now.clusters.members))) meanings.new.items) }
    ensures err { IfErr result (IsFull limit (length meanings.old.items + length (flat_map (cluster_part frame.now) (below (length frame.now.clusters.members))))) }
{
    for cluster in 0..frame.cluster_count() {
        add_cluster(frame, cluster, meanings, limit)?;
    }
    Ok(())
}

/// Adds the classes of a new name.
fn add_name(
    frame: &Frame,
    name: u32,
    meanings: &mut Vec<Meaning>,
    limit: u32,
) -> Result<(), SpaceError>
    requires name { name < length frame.now.names }
    requires within { length meanings.old.items ≤ limit }
    ensures ok { OnOk result (IsExtended limit meanings.old.items (fresh_part frame.now name) meanings.new.items) }
    ensures err { IfErr result (IsFull limit (length meanings.old.items + length (fresh_part frame.now name))) }
{
    for class in 0..frame.name_class_count(name) {
        add(meanings, limit, Meaning::Fresh(name, class))?;
    }
    Ok(())
}

/// Adds all new names.
fn add_names(frame: &Frame, meanings: &mut Vec<Meaning>, limit: u32) -> Result<(), SpaceError>
    requires { length meanings.old.items ≤ limit }
    ensures ok { OnOk result (IsExtended limit meanings.old.items (flat_map (fresh_part frame.now) (below (length frame.now.names))) meanings.new.items) }
    ensures err { IfErr result (IsFull limit (length meanings.old.items + length (flat_map (fresh_part frame.now) (below (length frame.now.names))))) }
{
    for name in 0..frame.name_count() {
        add_name(frame, name, meanings, limit)?;
    }
    Ok(())
}

/// Adds the packages of the repository as they are.
fn add_packages(frame: &Frame, meanings: &mut Vec<Meaning>, limit: u32) -> Result<(), SpaceError>
    requires { length meanings.old.items ≤ limit }
    ensures ok { OnOk result (IsExtended limit meanings.old.items (map meaning.Present (below (length frame.now.repository.packages))) meanings.new.items) }
    ensures err { IfErr result (IsFull limit (length meanings.old.items + length (map meaning.Present (below (length frame.now.repository.packages))))) }
{
    for number in 0..frame.package_count() {
        add(meanings, limit, Meaning::Present(number))?;
    }
    Ok(())
}

/// The meanings of all variables, or that there are more than the limit.
pub(crate) fn number_meanings(
    alloc: Global,
    frame: &Frame,
    limit: u32,
) -> Result<Vec<Meaning>, SpaceError>
    ensures ok { IfOk result (λ meanings. IsExtended limit [] (meanings_of frame.now) meanings.items) }
    ensures err { IfErr result (IsFull limit (length (meanings_of frame.now))) }
{
    let mut meanings = Vec::new(alloc);
    add(&mut meanings, limit, Meaning::Now)?;
    add_packages(frame, &mut meanings, limit)?;
    add_clusters(frame, &mut meanings, limit)?;
    add_names(frame, &mut meanings, limit)?;
    Ok(meanings)
}
