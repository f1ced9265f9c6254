//! The clauses of a space, made in their order, so that the first limit that they pass ends the work.
ghost use Rattle.std.specs.Prelude.{◌≡◌, ◌≤◌, IfErr, IfOk, OnOk};
ghost use Rattle.dist_base.specs.declared.TheConstants.{MAX_CLAUSES, MAX_LITERALS};
ghost use Rattle.dist_base.specs.Answers.{IsExactly};
ghost use Rattle.dist_clause.specs.ClauseList.{IsWithinLimits};
ghost use Rattle.dist_clause.specs.declared.clause_set.PushError.TheVariants.{TooManyClauses, TooManyLiterals, NoMemory};
ghost use Rattle.dist_space_clauses.specs.Ends.{AreEndsOf};
ghost use Rattle.dist_space_clauses.specs.GatheringPrivate.{HaveCounts, IsCauseAt, IsGroupsFront, IsWholeSet};
ghost use Rattle.dist_space_clauses.specs.Moving.{AreMovers};
ghost use Rattle.dist_space_clauses.specs.SpaceClauses.{IsDemand};
ghost use Rattle.dist_space_clauses.specs.SpaceSet.{IsCause, IsSetOf, PassesClauses, PassesLiterals};

use crate::clause_text::Scratch;
use crate::ends::FutureEnds;
use crate::essential::push_names;
use crate::groups::{Group, push_group};
use crate::movers::{Movers, movers_of};
use dist_base::{MAX_CLAUSES, MAX_LITERALS};
use dist_clause::{ClauseSet, PushError};
use dist_now::Partners;
use dist_space::Space;
use std::alloc::{AllocError, Global};

/// Adds the clauses that say what a future is, but for those of the archive of today.
fn push_future<'a>(
    space: &'a Space,
    movers: &Movers<'a>,
    partners: &mut Partners,
    scratch: &mut Scratch,
    set: &mut ClauseSet,
) -> Result<(), PushError>
    requires movers { AreMovers space.now.repository movers.now }
    requires partners { partners.old ≡ space.now.repository }
    requires front { IsGroupsFront space.now 1 set.old set.old }
    ensures partners { partners.new ≡ partners.old }
    ensures ok { OnOk result (IsGroupsFront space.now 4 set.old set.new) }
    ensures err { IfErr result (IsCauseAt space.now set.old) }
{
    push_group(space, Group::Classes, movers, partners, scratch, set)?;
    push_group(space, Group::Versions, movers, partners, scratch, set)?;
    push_group(space, Group::Names, movers, partners, scratch, set)
}

/// Adds the clauses that say what a healthy installation is, but for essential names.
fn push_healthy<'a>(
    space: &'a Space,
    movers: &Movers<'a>,
    partners: &mut Partners,
    scratch: &mut Scratch,
    set: &mut ClauseSet,
) -> Result<(), PushError>
    requires movers { AreMovers space.now.repository movers.now }
    requires partners { partners.old ≡ space.now.repository }
    requires front { IsGroupsFront space.now 4 set.old set.old }
    ensures partners { partners.new ≡ partners.old }
    ensures ok { OnOk result (IsGroupsFront space.now 6 set.old set.new) }
    ensures err { IfErr result (IsCauseAt space.now set.old) }
{
    push_group(space, Group::Items, movers, partners, scratch, set)?;
    push_group(space, Group::Conflicts, movers, partners, scratch, set)
}

/// Adds the clauses of mode plain, and tells where their groups end.
fn push_plain<'a>(
    space: &'a Space,
    movers: &Movers<'a>,
    partners: &mut Partners,
    scratch: &mut Scratch,
    set: &mut ClauseSet,
) -> Result<FutureEnds, PushError>
    requires movers { AreMovers space.now.repository movers.now }
    requires partners { partners.old ≡ space.now.repository }
    requires front { IsGroupsFront space.now 1 set.old set.old }
    ensures partners { partners.new ≡ partners.old }
    ensures ok { OnOk result (IsGroupsFront space.now 7 set.old set.new) }
    ensures ends { IfOk result (HaveCounts space.now) }
    ensures err { IfErr result (IsCauseAt space.now set.old) }
{
    push_future(space, movers, partners, scratch, set)?;
    let early = set.len();
    push_healthy(space, movers, partners, scratch, set)?;
    let today = set.len();
    push_group(space, Group::Today, movers, partners, scratch, set)?;
    let after = set.len();
    Ok(FutureEnds {
        early,
        today,
        after,
    })
}

/// Adds the clauses of mode plain, for which it finds what may match by new versions.
fn push_found(
    alloc: Global,
    space: &Space,
    scratch: &mut Scratch,
    set: &mut ClauseSet,
) -> Result<FutureEnds, PushError>
    requires front { IsGroupsFront space.now 1 set.old set.old }
    ensures ok { OnOk result (IsGroupsFront space.now 7 set.old set.new) }
    ensures ends { IfOk result (HaveCounts space.now) }
    ensures err { IfErr result (IsCauseAt space.now set.old) }
{
    let repo = space.repo();
    match movers_of(alloc, repo) {
        Ok(movers) => {
            let mut partners = Partners::new(alloc, repo);
            let pushed = push_plain(space, &movers, &mut partners, scratch, set);
            drop(partners);
            drop(movers);
            pushed
        }
        Err(AllocError) => Err(PushError::NoMemory),
    }
}

/// Adds the clauses of essential names, if the space is at mode essential.
fn push_required(space: &Space, scratch: &mut Scratch, set: &mut ClauseSet) -> Result<(), PushError>
    requires front { IsGroupsFront space.now 7 set.old set.old }
    ensures ok { OnOk result (IsWholeSet space.now set.old set.new) }
    ensures err { IfErr result (IsCauseAt space.now set.old) }
{
    if space.essential() {
        return push_names(space, scratch, set);
    }
    Ok(())
}

/// Adds all clauses, and tells where the groups of mode plain end.
fn push_all(
    alloc: Global,
    space: &Space,
    scratch: &mut Scratch,
    set: &mut ClauseSet,
) -> Result<FutureEnds, PushError>
    requires front { IsGroupsFront space.now 1 set.old set.old }
    ensures ok { OnOk result (IsWholeSet space.now set.old set.new) }
    ensures ends { IfOk result (AreEndsOf space.now set.new.clauses) }
    ensures err { IfErr result (IsCauseAt space.now set.old) }
{
    let ends = push_found(alloc, space, scratch, set)?;
    push_required(space, scratch, set)?;
    Ok(ends)
}

/// The clauses of a space with the ends of their groups, or the limit that they pass first.
fn made_clauses(
    alloc: Global,
    space: &Space,
    clauses: u32,
    literals: u32,
) -> Result<(ClauseSet, FutureEnds), PushError>
    requires clauses { clauses ≤ MAX_CLAUSES }
    requires literals { literals ≤ MAX_LITERALS }
    ensures ok { IfOk result (λ made. IsSetOf space.now (IsDemand space.now) clauses literals made.0) }
    ensures ends { IfOk result (λ made. AreEndsOf space.now made.0.clauses made.1) }
    ensures within { IfOk result (λ made. IsWithinLimits made.0) }
    ensures err { IfErr result (IsCause space.now clauses literals) }
{
    let mut set = ClauseSet::new(alloc, space.variables(), clauses, literals);
    let mut scratch = Scratch::new(alloc);
    let pushed = push_all(alloc, space, &mut scratch, &mut set);
    drop(scratch);
    match pushed {
        Ok(ends) => {
            set.keeps_invariant();
            Ok((set, ends))
        }
        Err(error) => {
            drop(set);
            Err(error)
        }
    }
}

/// The clauses of a space, as `clauses_of` makes them, and where the groups end that say what a future is.
pub fn clauses_with_ends(
    alloc: Global,
    space: &Space,
    clauses: u32,
    literals: u32,
) -> Result<(ClauseSet, FutureEnds), PushError>
    requires clauses { clauses ≤ MAX_CLAUSES }
    requires literals { literals ≤ MAX_LITERALS }
    ensures ok { IfOk result (λ made. IsSetOf space.now (IsDemand space.now) clauses literals made.0) }
    ensures ends { IfOk result (λ made. AreEndsOf space.now made.0.clauses made.1) }
    ensures too_many_clauses { IsExactly NoMemory result TooManyClauses (PassesClauses space.now clauses literals) }
    ensures too_many_literals { IsExactly NoMemory result TooManyLiterals (PassesLiterals space.now clauses literals) }
{
    space.keeps_invariant();
    made_clauses(alloc, space, clauses, literals)
}

/// The clauses of a space, with a limit on their number and one on the number of their literals.
pub fn clauses_of(
    alloc: Global,
    space: &Space,
    clauses: u32,
    literals: u32,
) -> Result<ClauseSet, PushError>
    requires clauses { clauses ≤ MAX_CLAUSES }
    requires literals { literals ≤ MAX_LITERALS }
    ensures ok { IfOk result (IsSetOf space.now (IsDemand space.now) clauses literals) }
    ensures too_many_clauses { IsExactly NoMemory result TooManyClauses (PassesClauses space.now clauses literals) }
    ensures too_many_literals { IsExactly NoMemory result TooManyLiterals (PassesLiterals space.now clauses literals) }
{
    space.keeps_invariant();
    let (set, _ends) = made_clauses(alloc, space, clauses, literals)?;
    Ok(set)
}
