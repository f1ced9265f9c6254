//! What one of a claim's installations holds, of the variables that the claim's tests may ask for. A small installation is
//! walked, and a large one is compared with what is asked for and was not found before, by words where both are rows.
ghost use Rattle.std.specs.Prelude.{◌≡◌, ◌==◌, ◌&&◌, ◌||◌, ◌++◌, ℕ, true, IfOk, OnOk, not};
ghost use Rattle.std.specs.List.{list_any};
ghost use Rattle.dist_cert.specs.Rising.{AreRising, is_among};
ghost use Rattle.dist_check_group.specs.Layout.{classes_of, is_package, non_packages};
ghost use Rattle.dist_check_group.specs.Window.{members_at};
ghost use Rattle.dist_check_group.specs.Challenge.{is_held};
ghost use Rattle.dist_check_group.specs.MarksPrivate.{is_marked};
ghost use Rattle.dist_check_group.specs.FoundPrivate.{is_wanted, may_ask};

use crate::group::Group;
use crate::kept::Kept;
use crate::layout::Layout;
use crate::marks::Marks;
use crate::numbers::put_in_order;
use crate::window::Window;
use std::alloc::{AllocError, Global};

/// A list of members is long where it has more than so many for each variable that may be asked for.
const MEMBERS_PER_VARIABLE: usize = 16;

/// Besides the variable of today the tests ask for those of the undecided pairs, and of classes of the clusters.
#[derive(Clone, Copy)]
pub(crate) struct Asked<'a> {
    pub(crate) undecided: &'a [u32],
    pub(crate) clusters: &'a [u32],
}

/// Adds some numbers to others.
fn add_all(numbers: &mut Vec<u32>, others: &[u32]) -> Result<(), AllocError>
    ensures { OnOk result (numbers.new.items ≡ numbers.old.items ++ others.now) }
{
    for other in others {
        numbers.push(*other)?;
    }
    Ok(())
}

/// Adds the variables of the classes of some clusters.
fn add_classes(
    layout: &Layout,
    clusters: &[u32],
    variables: &mut Vec<u32>,
) -> Result<(), AllocError>
    ensures { OnOk result ((v : ℕ) → is_among variables.new.items v
        ≡ (is_among variables.old.items v || list_any (λ cluster. is_among (classes_of layout.now cluster) v) clusters.now)) }
{
    for cluster in clusters {
        add_all(variables, layout.classes_of(*cluster))?;
    }
    Ok(())
}

/// The variables that may be asked for, in their order.
fn asked_variables(
    alloc: Global,
    layout: &Layout,
    asked: &Asked<'_>,
) -> Result<Vec<u32>, AllocError>
    ensures each { IfOk result (λ variables. (v : ℕ) → is_among variables.items v ≡ may_ask layout.now asked.now.undecided.now asked.now.clusters.now v) }
    ensures rising { IfOk result (λ variables. AreRising variables.items) }
{
    let mut variables = Vec::new(alloc);
    variables.push(1)?;
    add_all(&mut variables, asked.undecided)?;
    add_classes(layout, asked.clusters, &mut variables)?;
    put_in_order(&mut variables);
    Ok(variables)
}

/// Marks a member, unless it is a package.
fn mark(layout: &Layout, member: u32, held: &mut Marks) -> Result<(), AllocError>
    ensures { OnOk result ((v : ℕ) → is_marked held.new v
        ≡ (((v == member) && not (is_package layout.now member)) || is_marked held.old v)) }
{
    if layout.is_package(member) {
        return Ok(());
    }
    held.add(member)?;
    Ok(())
}

/// Marks the members of an installation that are no packages.
fn mark_all(layout: &Layout, members: &[u32], held: &mut Marks) -> Result<(), AllocError>
    ensures { OnOk result ((v : ℕ) → is_marked held.new v ≡ (is_marked held.old v || is_among (non_packages layout.now members.now) v)) }
{
    for member in members {
        mark(layout, *member, held)?;
    }
    Ok(())
}

/// Leaves out some numbers.
fn leave_out_all(wanted: &mut Kept, numbers: &[u32])
    requires { AreRising numbers.now }
    ensures { (v : ℕ) → is_among wanted.new v ≡ (is_among wanted.old v && not (is_among numbers.now v)) }
{
    if let Some(first) = numbers.first() {
        wanted.leave_out(*first, numbers);
    }
}

/// Marks those of the wanted variables that are among these members. They are wanted no longer.
fn mark_wanted(
    alloc: Global,
    layout: &Layout,
    members: &Kept,
    wanted: &mut Kept,
    held: &mut Marks,
) -> Result<(), AllocError>
    ensures marked { OnOk result ((v : ℕ) → is_marked held.new v
        ≡ (is_marked held.old v || ((is_among wanted.old v && is_among members.now v) && not (is_package layout.now v)))) }
    ensures left { OnOk result ((v : ℕ) → is_among wanted.new v ≡ (is_among wanted.old v && not (is_among wanted.old v && is_among members.now v))) }
{
    if !wanted.may_meet(members) {
        return Ok(());
    }
    let mut common = wanted.copied(alloc)?;
    common.narrow(alloc, members)?;
    let found = common.listed(alloc)?;
    leave_out_all(wanted, &found);
    mark_all(layout, &found, held)?;
    Ok(())
}

/// Marks what an installation holds besides packages: all of it, or what is wanted where its members are a row, or more than
/// the limit.
fn mark_held(
    alloc: Global,
    layout: &Layout,
    members: &Kept,
    limit: usize,
    wanted: &mut Kept,
    held: &mut Marks,
) -> Result<(), AllocError>
    ensures told { OnOk result ((v : ℕ) → is_wanted layout.now wanted.old held.old v ≡ true
        → is_marked held.new v ≡ (is_marked held.old v || is_among (non_packages layout.now members.now) v)) }
    ensures still { OnOk result ((v : ℕ) → is_wanted layout.now wanted.old held.old v ≡ true → is_wanted layout.now wanted.new held.new v ≡ true) }
{
    if members.is_row() || members.size() > limit {
        mark_wanted(alloc, layout, members, wanted, held)?;
        return Ok(());
    }
    let listed = members.listed(alloc)?;
    mark_all(layout, &listed, held)?;
    Ok(())
}

/// The same of the installation of a number.
fn mark_number(
    alloc: Global,
    window: &Window,
    number: u32,
    limit: usize,
    wanted: &mut Kept,
    held: &mut Marks,
) -> Result<(), AllocError>
    ensures told { OnOk result ((v : ℕ) → is_wanted window.now.layout wanted.old held.old v ≡ true
        → is_marked held.new v ≡ (is_marked held.old v || is_among (non_packages window.now.layout (members_at window.now number)) v)) }
    ensures still { OnOk result ((v : ℕ) → is_wanted window.now.layout wanted.old held.old v ≡ true → is_wanted window.now.layout wanted.new held.new v ≡ true) }
{
    let Some(members) = window.get(number) else {
        return Ok(());
    };
    mark_held(alloc, window.layout(), members, limit, wanted, held)?;
    Ok(())
}

/// Marks what the installations that are named hold besides packages.
fn mark_named(
    alloc: Global,
    window: &Window,
    named: &[u32],
    limit: usize,
    wanted: &mut Kept,
    held: &mut Marks,
) -> Result<(), AllocError>
    ensures { OnOk result ((v : ℕ) → is_wanted window.now.layout wanted.old held.old v ≡ true
        → is_marked held.new v
        ≡ (is_marked held.old v || list_any (λ number. is_among (non_packages window.now.layout (members_at window.now number)) v) named.now)) }
{
    for number in named {
        mark_number(alloc, window, *number, limit, wanted, held)?;
    }
    Ok(())
}

/// What one of the claim's installations holds besides packages, of what may be asked for. Each installation is named once.
pub(crate) fn held_by_one(
    alloc: Global,
    window: &Window,
    group: &Group,
    named: &[u32],
    asked: &Asked<'_>,
) -> Result<Marks, AllocError>
    ensures { IfOk result (λ held. (v : ℕ) → may_ask window.now.layout asked.now.undecided.now asked.now.clusters.now v ≡ true
        → is_marked held v ≡ is_held window.now.layout window.now group.now.cover named.now v) }
{
    let layout = window.layout();
    let mut held = Marks::new(alloc, layout.bound())?;
    held.add_all(group.held())?;
    let variables = asked_variables(alloc, layout, asked)?;
    let limit = variables.len().saturating_mul(MEMBERS_PER_VARIABLE);
    let mut wanted = window.keep(alloc, variables)?;
    mark_named(alloc, window, named, limit, &mut wanted, &mut held)?;
    Ok(held)
}
