//! The claim on one package, with the questions that it needs before it.
ghost use Rattle.std.specs.Prelude.{◌≡◌, ◌+◌, ◌^◌, ◌<◌, ◌≤◌, [], ◌∷◌, ◌++◌, Any, IfErr, IfOk, OnOk, length, true};
ghost use Rattle.circular_buffer.specs.Buffer.{keep_last};
ghost use Rattle.dist_clause.specs.Formula.{value_of};
ghost use Rattle.dist_outside.specs.Files.{IsWriting};
ghost use Rattle.dist_cert.specs.declared.TheConstants.{REACH};
ghost use Rattle.dist_cert.specs.Accepted.{claim_in, from_zero};
ghost use Rattle.dist_cert.specs.ClaimRules.{yes};
ghost use Rattle.dist_cert.specs.Form.{AreFromOne, KeepsRules};
ghost use Rattle.dist_strong.specs.ClaimingPrivate.{IsStrongLine, StrongClaims, StrongMore, StrongStops, StrongSuits};
ghost use Rattle.dist_strong.specs.Group.{HasNoCandidate, new_group};
ghost use Rattle.dist_line_write.specs.Script.{Grows};
ghost use Rattle.dist_strong.specs.SettlingPrivate.{Fits, SettleStops};

use crate::group::Group;
use crate::settling::ask_candidates;
use dist_cert::{CertRecord, Claim, Items, Numbers};
use dist_clause::Assignment;
use dist_line_write::Asker;
use dist_outside::{Desk, WorkError, file_grows};
use dist_sweep::{Reply, Window, ask};
use std::alloc::{AllocError, Global};

/// The question of a package.
fn alone(alloc: Global, package: u32) -> Result<Vec<(u32, bool)>, AllocError>
    ensures { IfOk result (λ words. words.items ≡ yes «package» ∷ []) }
{
    let mut words = Vec::new(alloc);
    words.push((package, true))?;
    Ok(words)
}

/// The numbers, each less by one.
fn from_zero(alloc: Global, numbers: &[u32]) -> Result<Numbers, AllocError>
    requires { AreFromOne numbers.now }
    ensures { IfOk result (λ less. less ≡ from_zero numbers.now) }
{
    let mut less = Vec::new(alloc);
    for number in numbers {
        less.push(*number - 1)?;
    }
    Ok(Items::from_vec(less))
}

/// The line of the claim on strong dependencies, and what it claims.
fn strong_line(
    alloc: Global,
    window: &Window,
    group: &Group,
) -> Result<(CertRecord, Claim), AllocError>
    requires from_one { 1 ≤ group.now.claimed }
    requires upto { group.now.claimed ≤ group.now.variables }
    requires variables { window.now.variables ≡ group.now.variables }
    requires some { Any (λ values. value_of values group.now.claimed ≡ true) window.now.kept }
    ensures line { IfOk result (λ both. IsStrongLine window.now group.now both.0) }
    ensures form { IfOk result (λ both. KeepsRules both.0) }
    ensures claim { IfOk result (λ both. claim_in both.0 ≡ both.1 ∷ []) }
    ensures small { window.now.count < 2 ^ 32 }
{
    let named = window.numbers_with(alloc, group.claimed())?;
    let on = group.needed(alloc)?;
    let left = group.left(alloc, window)?;
    let claim = Claim::Strong(from_zero(alloc, &on)?, from_zero(alloc, &left)?);
    let step = CertRecord::Strong(
        group.claimed(),
        Items::from_vec(named),
        Items::from_vec(on),
        Items::from_vec(left),
    );
    Ok((step, claim))
}

/// Puts the claim on strong dependencies, once no candidate is left.
fn put_strong<D: Desk>(
    alloc: Global,
    asker: &mut Asker,
    window: &Window,
    group: &Group,
    desk: &mut D,
) -> Result<Claim, WorkError>
    requires writing { IsWriting (D.view desk.old).mode }
    requires fits { Fits asker.old window.now group.now }
    requires done { HasNoCandidate window.now group.now }
    ensures ok { IfOk result (StrongMore (D.view desk.old) (D.view desk.new) asker.old asker.new window.now window.now group.now) }
    ensures err { IfErr result (SettleStops (D.view desk.old) (D.view desk.new) asker.old window.now group.now) }
    ensures limit { asker.new.limit ≡ asker.old.limit }
    ensures variables { asker.new.log.variables ≡ asker.old.log.variables }
    ensures grows { Grows (D.view desk.old) (D.view desk.new) }
{
    file_grows();
    asker.keeps_invariant();
    let (step, claim) = strong_line(alloc, window, group)?;
    asker.put(desk, &step)?;
    Ok(claim)
}

/// Asks for each candidate of a group and puts its claim.
fn claim_group<D: Desk>(
    alloc: Global,
    asker: &mut Asker,
    window: &mut Window,
    group: &mut Group,
    desk: &mut D,
) -> Result<Claim, WorkError>
    requires writing { IsWriting (D.view desk.old).mode }
    requires fits { Fits asker.old window.old group.old }
    ensures ok { IfOk result (StrongMore (D.view desk.old) (D.view desk.new) asker.old asker.new window.old window.new group.old) }
    ensures err { IfErr result (SettleStops (D.view desk.old) (D.view desk.new) asker.old window.old group.old) }
    ensures suits { OnOk result (StrongSuits asker.new window.new group.old.claimed) }
    ensures variables { OnOk result (window.new.variables ≡ window.old.variables) }
    ensures grows { Grows (D.view desk.old) (D.view desk.new) }
{
    file_grows();
    ask_candidates(alloc, asker, window, group, desk)?;
    put_strong(alloc, asker, window, group, desk)
}

/// The group of a claim with its first installation, which is the latest of all.
fn first_group(
    alloc: Global,
    window: &mut Window,
    package: u32,
    values: Assignment,
) -> Result<Group, AllocError>
    requires { length values ≡ window.old.variables }
    ensures group { IfOk result (λ kept. kept ≡ new_group «package» window.old.variables values) }
    ensures window { OnOk result (window.new ≡ record window.old { kept = keep_last REACH (window.old.kept ++ values ∷ []); count = window.old.count + 1 }) }
{
    let group = Group::new(alloc, package, &values, window.variables())?;
    window.add(values)?;
    Ok(group)
}

/// Asks all that the claim on a package needs and puts its lines, the claim last.
pub(crate) fn settle<D: Desk>(
    alloc: Global,
    asker: &mut Asker,
    window: &mut Window,
    desk: &mut D,
    package: u32,
) -> Result<Claim, WorkError>
    requires writing { IsWriting (D.view desk.old).mode }
    requires suits { StrongSuits asker.old window.old «package» }
    ensures ok { IfOk result (StrongClaims «package» (D.view desk.old) (D.view desk.new) asker.old asker.new window.old window.new) }
    ensures err { IfErr result (StrongStops «package» (D.view desk.old) (D.view desk.new) asker.old window.old) }
    ensures suits { OnOk result (StrongSuits asker.new window.new «package») }
    ensures variables { OnOk result (window.new.variables ≡ window.old.variables) }
    ensures grows { Grows (D.view desk.old) (D.view desk.new) }
{
    file_grows();
    asker.keeps_invariant();
    let question = alone(alloc, package)?;
    match ask(asker, desk, &question, &[], None)? {
        Reply::Found(values) => {
            let mut group = first_group(alloc, window, package, values)?;
            claim_group(alloc, asker, window, &mut group, desk)
        }
        Reply::Refuted => {
            asker.put(desk, &CertRecord::NotInstallable(package))?;
            Ok(Claim::Uninstallable)
        }
        Reply::Undecided => {
            asker.put(desk, &CertRecord::Unknown(package))?;
            Ok(Claim::Unknown)
        }
    }
}
