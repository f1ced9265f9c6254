//! The group of a claim: each package that may be strongly needed is asked for once.
ghost use Rattle.std.specs.Prelude.{◌≡◌, IfErr, IfOk, OnOk};
ghost use Rattle.dist_outside.specs.Files.{IsWriting};
ghost use Rattle.dist_line_write.specs.Script.{Grows};
ghost use Rattle.dist_strong.specs.Candidates.{AreCandidates};
ghost use Rattle.dist_strong.specs.Group.{HasNoCandidate, IsCandidate};
ghost use Rattle.dist_strong.specs.SettlingPrivate.{Fits, IsFurther, SettleMore, SettleStops, without};

use crate::candidates::Candidates;
use crate::group::Group;
use dist_line_write::Asker;
use dist_outside::{Desk, WorkError, file_grows};
use dist_sweep::{Reply, Window, ask};
use std::alloc::{AllocError, Global};

/// The question of a package without another one.
fn without(alloc: Global, package: u32, other: u32) -> Result<Vec<(u32, bool)>, AllocError>
    ensures { IfOk result (λ words. words.items ≡ without «package» other) }
{
    let mut words = Vec::new(alloc);
    words.push((package, true))?;
    words.push((other, false))?;
    Ok(words)
}

/// Asks for the package of the claim without a candidate. What is found leaves other candidates out where it can, so that they need
/// no question.
fn ask_without<D: Desk>(
    asker: &mut Asker,
    window: &mut Window,
    group: &mut Group,
    candidates: &mut Candidates,
    desk: &mut D,
    other: u32,
) -> Result<(), WorkError>
    requires writing { IsWriting (D.view desk.old).mode }
    requires fits { Fits asker.old window.old group.old }
    requires candidate { IsCandidate window.old group.old other }
    requires candidates { AreCandidates window.old group.old candidates.old }
    ensures ok { OnOk result (SettleMore (D.view desk.old) (D.view desk.new) asker.old asker.new window.old window.new group.old group.new) }
    ensures err { IfErr result (SettleStops (D.view desk.old) (D.view desk.new) asker.old window.old group.old) }
    ensures further { OnOk result (IsFurther group.old group.new other) }
    ensures candidates { OnOk result (AreCandidates window.new group.new candidates.new) }
    ensures fits { OnOk result (Fits asker.new window.new group.new) }
    ensures grows { Grows (D.view desk.old) (D.view desk.new) }
{
    file_grows();
    let question = without(candidates.alloc(), group.claimed(), other)?;
    match ask(asker, desk, &question, &[], Some(candidates.row()))? {
        Reply::Found(values) => {
            candidates.add(window, group, values)?;
            Ok(())
        }
        Reply::Refuted => {
            candidates.strike(other);
            group.refute(other);
            Ok(())
        }
        Reply::Undecided => {
            candidates.strike(other);
            group.leave(other);
            Ok(())
        }
    }
}

/// Asks for each candidate once, until none is left.
pub(crate) fn ask_candidates<D: Desk>(
    alloc: Global,
    asker: &mut Asker,
    window: &mut Window,
    group: &mut Group,
    desk: &mut D,
) -> Result<(), WorkError>
    requires writing { IsWriting (D.view desk.old).mode }
    requires fits { Fits asker.old window.old group.old }
    ensures ok { OnOk result (SettleMore (D.view desk.old) (D.view desk.new) asker.old asker.new window.old window.new group.old group.new) }
    ensures err { IfErr result (SettleStops (D.view desk.old) (D.view desk.new) asker.old window.old group.old) }
    ensures done { OnOk result (HasNoCandidate window.new group.new) }
    ensures fits { OnOk result (Fits asker.new window.new group.new) }
    ensures variables { OnOk result (group.new.variables ≡ group.old.variables) }
    ensures grows { Grows (D.view desk.old) (D.view desk.new) }
{
    file_grows();
    let variables = window.variables();
    let mut candidates = Candidates::of(alloc, window, group)?;
    let mut last = 0;
    'candidates: while let Some(other) = candidates.next(variables, last) {
        ask_without(asker, window, group, &mut candidates, desk, other)?;
        last = other;
    }
    Ok(())
}
