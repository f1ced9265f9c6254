//! The plan of a later archive in which all fits.
ghost use Rattle.std.specs.Prelude.{◌≡◌, ◌+◌, ◌<◌, ◌≤◌, ◌∷◌, [], All, Contains, IfOk, IsOk, MatchResult, None, OnOk, length};
ghost use Rattle.dist_repo.specs.Order.{IsFlat, IsInOrder};
ghost use Rattle.dist_repo.specs.declared.package.Package.{Package};
ghost use Rattle.dist_future.specs.Future.{IsTaken};
ghost use Rattle.dist_archive.specs.FoundPrivate.{AllFit, AreChecked, IsFound};
ghost use Rattle.dist_archive.specs.PlanningPrivate.{AreBrought, AreMembers, ArePushed, HoldsMore, IsPushed};
ghost use Rattle.dist_archive.specs.Reach.{AreNewNames, AreParts, AreRemovals, HasLater, IsPart, IsPlan};
ghost use Rattle.dist_archive.specs.Steps.{IsHeld, IsOfCluster};
ghost use Rattle.dist_archive.specs.declared.step.Step.TheVariants as kinds;

use crate::finding::{is_named, number_named};
use crate::fitting::Found;
use crate::plan::{Plan, ReachError};
use crate::step::Step;
use dist_repo::{AddError, Added, Builder, Package, Repository};
use dist_space::Space;
use std::alloc::{AllocError, Global};

/// Whether a builder took a package.
fn told(added: Result<Added, AddError>) -> Result<(), AllocError>
    ensures { OnOk result (IsOk added) }
{
    match added {
        Ok(_) => Ok(()),
        Err(_) => Err(AllocError),
    }
}

/// Puts a package into a block. Packages of one name do not come twice, so none clashes.
fn keep(builder: &mut Builder, fresh: Package) -> Result<(), AllocError>
    requires { length builder.old < 4294967295 }
    ensures holds { OnOk result (HoldsMore builder.old builder.new (λ n. fresh ≡ n)) }
    ensures few { length builder.new ≤ length builder.old + 1 }
{
    let added = builder.add(fresh, 0);
    told(added)
}

/// Puts a copy of a package into a block.
fn put(builder: &mut Builder, fresh: &Package) -> Result<(), AllocError>
    requires { length builder.old < 4294967295 }
    ensures holds { OnOk result (HoldsMore builder.old builder.new (λ n. fresh.now ≡ n)) }
    ensures few { length builder.new ≤ length builder.old + 1 }
{
    keep(builder, fresh.try_clone()?)
}

/// The block of one package.
fn block_of_one(alloc: Global, fresh: &Package) -> Result<Repository, AllocError>
    ensures { IfOk result (λ block. block ≡ record { architecture = None; packages = fresh.now ∷ [] }) }
{
    let mut builder = Builder::new(alloc);
    put(&mut builder, fresh)?;
    builder.finish(None)
}

/// Puts a copy of the package of the later archive that has a name into a block, if there is one.
fn put_named(builder: &mut Builder, later: &Repository, name: &[u8]) -> Result<(), AllocError>
    requires few { length builder.old < 4294967295 }
    requires flat { IsFlat later.now.packages }
    ensures holds { OnOk result (HoldsMore builder.old builder.new (λ n. Contains later.now.packages n × (n.name ≡ name.now))) }
    ensures few { length builder.new ≤ length builder.old + 1 }
{
    match number_named(later, name) {
        Some(number) => put(builder, later.package(number)),
        None => Ok(()),
    }
}

/// The block of what the later archive has of the names of some members.
fn block_of(
    alloc: Global,
    space: &Space,
    later: &Repository,
    members: &[u32],
) -> Result<Repository, AllocError>
    requires members { AreMembers space.now.repository members.now }
    requires flat { IsFlat later.now.packages }
    ensures architecture { IfOk result (λ block. block.architecture ≡ None) }
    ensures in_order { IfOk result (λ block. IsInOrder block.packages) }
    ensures brings { IfOk result (λ block. AreBrought space.now.repository later.now.packages members.now block.packages) }
{
    space.keeps_invariant();
    let mut builder = Builder::new(alloc);
    for member in members {
        put_named(&mut builder, later, space.package(*member).name.bytes())?;
    }
    builder.finish(None)
}

/// Puts the upload of a cluster behind other steps.
fn push_upload(
    alloc: Global,
    space: &Space,
    later: &Repository,
    cluster: u32,
    steps: &mut Vec<Step>,
) -> Result<(), AllocError>
    requires in_range { cluster < length space.now.clusters.members }
    requires flat { IsFlat later.now.packages }
    requires some { (c : Package) → IsOfCluster space.now cluster c → HasLater space.now.repository later.now.packages c }
    ensures { OnOk result (ArePushed steps.old.items steps.new.items (IsPart space.now later.now.packages cluster)) }
{
    space.keeps_invariant();
    let block = block_of(alloc, space, later, space.clusters().members(cluster))?;
    let version = block.package(0).version.try_clone()?;
    steps.push(Step::Upload(cluster, version, block))?;
    Ok(())
}

/// Puts the removal of a package behind other steps, if the later archive does not have its name.
fn push_removal(
    later: &Repository,
    member: &Package,
    steps: &mut Vec<Step>,
) -> Result<(), AllocError>
    ensures { OnOk result (IsPushed (¬ IsHeld later.now.packages member.now.name) (λ step. step ≡ kinds.Removal member.now.name)
        steps.old.items steps.new.items) }
{
    if is_named(later, member.name.bytes()) {
        return Ok(());
    }
    steps.push(Step::Removal(member.name.try_clone()?))?;
    Ok(())
}

/// Puts the removals of those members behind other steps whose names the later archive does not have.
fn push_removals(
    space: &Space,
    later: &Repository,
    members: &[u32],
    steps: &mut Vec<Step>,
) -> Result<(), AllocError>
    requires { All (λ m. m < length space.now.repository.packages) members.now }
    ensures { OnOk result (ArePushed steps.old.items steps.new.items (AreRemovals space.now.repository later.now.packages members.now)) }
{
    for member in members {
        push_removal(later, space.package(*member), steps)?;
    }
    Ok(())
}

/// Puts the removals of a cluster of which nothing is later behind other steps.
fn push_missing(
    space: &Space,
    later: &Repository,
    cluster: u32,
    steps: &mut Vec<Step>,
) -> Result<(), AllocError>
    requires in_range { cluster < length space.now.clusters.members }
    requires none { (c : Package) → IsOfCluster space.now cluster c → ¬ HasLater space.now.repository later.now.packages c }
    ensures { OnOk result (ArePushed steps.old.items steps.new.items (IsPart space.now later.now.packages cluster)) }
{
    space.keeps_invariant();
    push_removals(space, later, space.clusters().members(cluster), steps)
}

/// Puts the steps for a cluster behind other steps.
fn push_part(
    alloc: Global,
    space: &Space,
    later: &Repository,
    cluster: u32,
    found: Found,
    steps: &mut Vec<Step>,
) -> Result<(), AllocError>
    requires in_range { cluster < length space.now.clusters.members }
    requires flat { IsFlat later.now.packages }
    requires fits { AllFit space.now.repository later.now.packages (length later.now.packages) }
    requires found { (c : Package) → IsOfCluster space.now cluster c
        → IsFound space.now.repository later.now.packages (length later.now.packages) c found }
    ensures { OnOk result (ArePushed steps.old.items steps.new.items (IsPart space.now later.now.packages cluster)) }
{
    space.keeps_invariant();
    match found {
        Found::New(_) => push_upload(alloc, space, later, cluster, steps),
        Found::Nothing => push_missing(space, later, cluster, steps),
        Found::Kept => push_missing(space, later, cluster, steps),
    }
}

/// The steps for all clusters.
fn steps_of_clusters(
    alloc: Global,
    space: &Space,
    later: &Repository,
    founds: &[Found],
) -> Result<Vec<Step>, AllocError>
    requires flat { IsFlat later.now.packages }
    requires checked { AreChecked space.now later.now.packages (length later.now.packages) founds.now }
    ensures { IfOk result (λ steps. AreParts space.now later.now.packages (length space.now.clusters.members) steps.items) }
{
    let mut steps = Vec::new(alloc);
    for cluster in 0..space.clusters().len() {
        push_part(
            alloc,
            space,
            later,
            cluster,
            founds[cluster as usize],
            &mut steps,
        )?;
    }
    Ok(steps)
}

/// Puts the step that brings a package behind other steps, if its name is none of the repository's.
fn push_name(
    alloc: Global,
    space: &Space,
    fresh: &Package,
    steps: &mut Vec<Step>,
) -> Result<(), AllocError>
    ensures { OnOk result (IsPushed (¬ IsTaken space.now.repository fresh.now.name)
        (λ step. step ≡ kinds.NewName (record { architecture = None; packages = fresh.now ∷ [] })) steps.old.items steps.new.items) }
{
    if is_named(space.repo(), fresh.name.bytes()) {
        return Ok(());
    }
    steps.push(Step::NewName(block_of_one(alloc, fresh)?))?;
    Ok(())
}

/// Puts the steps for new names behind other steps.
fn push_names(
    alloc: Global,
    space: &Space,
    later: &Repository,
    steps: &mut Vec<Step>,
) -> Result<(), AllocError>
    ensures { OnOk result (ArePushed steps.old.items steps.new.items (AreNewNames space.now.repository later.now.packages)) }
{
    for place in 0..later.len() {
        push_name(alloc, space, later.package(place), steps)?;
    }
    Ok(())
}

/// The plan of a later archive in which all fits.
pub(crate) fn plan_of(
    alloc: Global,
    space: &Space,
    later: &Repository,
    founds: &[Found],
) -> Result<Plan, ReachError>
    requires flat { IsFlat later.now.packages }
    requires checked { AreChecked space.now later.now.packages (length later.now.packages) founds.now }
    ensures { MatchResult result (IsPlan space.now later.now.packages) (λ error. error ≡ ReachError.NoMemory) }
{
    let mut steps = steps_of_clusters(alloc, space, later, founds)?;
    push_names(alloc, space, later, &mut steps)?;
    Ok(Plan { steps })
}
