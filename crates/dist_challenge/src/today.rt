//! Asks for an installation of today with the package of a claim.
ghost use Rattle.std.specs.Prelude.{◌≡◌, ◌≤◌, IfErr, IfOk, IfSome, length};
ghost use Rattle.dist_outside.specs.Files.{IsWriting};
ghost use Rattle.dist_line_write.specs.Asking.{IsOver};
ghost use Rattle.dist_line_write.specs.Script.{Grows};
ghost use Rattle.dist_sweep.specs.Asking.{AskMore, AskStops, Holds};
ghost use Rattle.dist_covering.specs.OpenPairs.{IsTodayWith};
ghost use Rattle.dist_challenge.specs.GroupPrivate.{together};

use crate::asking::ask_both;
use crate::challenged_claimant::ChallengedClaimant;
use dist_cert::REACH;
use dist_clause::Assignment;
use dist_covering::is_today;
use dist_line_write::Asker;
use dist_outside::{Desk, WorkError, file_grows};
use dist_sweep::{Reply, Window};
use std::alloc::AllocError;

/// The latest installation of today.
fn latest_today(window: &Window) -> Option<u32>
    requires { 1 ≤ window.now.variables }
    ensures { IfSome result (IsTodayWith window.now 1) }
{
    for back in 0..window.len() {
        let number = window.count() - back;
        if is_today(window, number, 1) {
            return Some(number);
        }
    }
    None
}

impl ChallengedClaimant {
    /// A guess at an installation of today with a package: the latest one with this package and some behind it added, where that uses
    /// many clusters and has not got the package. So where each package needs only those before, as in a chain, one installation does
    /// for many. What is guessed is tested before it is believed.
    fn guess(&mut self, window: &Window, present: u32) -> Result<Vec<u32>, AllocError>
        requires variables { window.now.variables ≡ length self.old.covering.space.meanings }
        requires from_one { 1 ≤ present }
        requires upto { present ≤ length self.old.covering.space.meanings }
        ensures { self.new.covering ≡ self.old.covering }
    {
        let mut trues = Vec::new(self.alloc);
        let latest = match latest_today(window) {
            Some(latest) => latest,
            None => return Ok(trues),
        };
        let large = self.covering.used_by(window, latest).len() > REACH;
        let packages = self.ahead.next(large);
        if packages == 0 || !large || window.has(latest, present) {
            return Ok(trues);
        }
        let last = present
            .saturating_add(packages - 1)
            .min(self.covering.space().package_count().saturating_add(1));
        for before in 0..window.variables() {
            let variable = before + 1;
            if window.has(latest, variable) || (present <= variable && variable <= last) {
                trues.push(variable)?;
            }
        }
        Ok(trues)
    }

    /// Whether all these variables are true.
    fn has_all(&self, values: &Assignment, variables: &[u32]) -> bool
        requires { length values.now ≡ length self.now.covering.space.meanings }
    {
        let all = self.covering.space().variables();
        for variable in variables {
            if *variable == 0 || *variable > all || !values.value(*variable) {
                return false;
            }
        }
        true
    }

    /// Asks for an installation of today with a package.
    pub(crate) fn ask_today<D: Desk>(
        &mut self,
        asker: &mut Asker,
        window: &Window,
        desk: &mut D,
        present: u32,
    ) -> Result<Reply, WorkError>
        requires writing { IsWriting (D.view desk.old).mode }
        requires limit { 1 ≤ asker.old.limit }
        requires question { IsOver asker.old.log.variables (together 1 present) }
        requires all { asker.old.log.variables ≡ length self.old.covering.space.meanings }
        requires variables { window.now.variables ≡ length self.old.covering.space.meanings }
        ensures ok { IfOk result (AskMore (D.view desk.old) (D.view desk.new) asker.old asker.new (together 1 present)) }
        ensures err { IfErr result (AskStops asker.old (together 1 present) (D.view desk.old) (D.view desk.new)) }
        ensures holds { IfOk result (Holds asker.old.log.variables (together 1 present)) }
        ensures variables { asker.new.log.variables ≡ asker.old.log.variables }
        ensures limit { asker.new.limit ≡ asker.old.limit }
        ensures same { self.new.covering ≡ self.old.covering }
        ensures grows { Grows (D.view desk.old) (D.view desk.new) }
    {
        file_grows();
        let guess = self.guess(window, present)?;
        let reply = ask_both(self.alloc, asker, desk, 1, present, &guess)?;
        if !guess.is_empty() {
            let right = match &reply {
                Reply::Found(values) => self.has_all(values, &guess),
                _ => false,
            };
            self.ahead.note_guess(right);
        }
        Ok(reply)
    }
}
