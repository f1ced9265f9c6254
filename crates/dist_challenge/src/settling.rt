//! The group of a claim: each pair that is left is asked for once.
ghost use Rattle.std.specs.Prelude.{◌≡◌, ◌≤◌, ◌∷◌, [], ◌++◌, IfErr, OnOk, false, length, true};
ghost use Rattle.dist_outside.specs.Files.{IsWriting};
ghost use Rattle.dist_line_write.specs.Script.{Grows};
ghost use Rattle.dist_challenge.specs.GroupPrivate.{FitsGroup, SettleMore, SettleStops};
ghost use Rattle.dist_challenge.specs.GroupPrivate.{IsNextCount};

use crate::asking::ask_both;
use crate::challenged_claimant::ChallengedClaimant;
use dist_covering::Group;
use dist_line_write::Asker;
use dist_outside::{Desk, WorkError, file_grows};
use dist_subject::pairs_are_of_the_space;
use dist_sweep::{Reply, Window};

impl ChallengedClaimant {
    /// Asks for the package of the claim at a pair, the last one of those that were left.
    fn ask_pair<D: Desk>(
        &mut self,
        asker: &mut Asker,
        window: &mut Window,
        desk: &mut D,
        group: &mut Group,
        at: u32,
    ) -> Result<(), WorkError>
        requires writing { IsWriting (D.view desk.old).mode }
        requires fits { FitsGroup asker.old window.old self.old.covering (record group.old { left = group.old.left ++ at ∷ [] }) }
        ensures ok { OnOk result (SettleMore (D.view desk.old) (D.view desk.new) asker.old asker.new window.old window.new self.old.covering self.new.covering
            (record group.old { left = group.old.left ++ at ∷ [] }) group.new) }
        ensures err { IfErr result (SettleStops (D.view desk.old) (D.view desk.new) asker.old window.old self.old.covering
            (record group.old { left = group.old.left ++ at ∷ [] })) }
        ensures fits { OnOk result (FitsGroup asker.new window.new self.new.covering group.new) }
        ensures fewer { OnOk result (length group.new.left ≤ length group.old.left) }
        ensures claimed { OnOk result (group.new.claimed ≡ group.old.claimed) }
        ensures latest { OnOk result (IsNextCount window.old window.new) }
        ensures space { self.new.covering.space ≡ self.old.covering.space }
        ensures grows { Grows (D.view desk.old) (D.view desk.new) }
    {
        file_grows();
        pairs_are_of_the_space();
        self.covering.keeps_invariant();
        match ask_both(self.alloc, asker, desk, group.present(), at, &[])? {
            Reply::Found(values) => {
                self.covering.add(window, values)?;
                self.covering.strike_latest(window, group)?;
                Ok(())
            }
            Reply::Refuted => {
                group.note_refuted(at)?;
                Ok(())
            }
            Reply::Undecided => {
                group.note_undecided(at)?;
                Ok(())
            }
        }
    }

    /// Asks for each pair that is left, until none is, or, with `until_found`, until an installation is found.
    pub(crate) fn ask_pairs<D: Desk>(
        &mut self,
        asker: &mut Asker,
        window: &mut Window,
        desk: &mut D,
        group: &mut Group,
        until_found: bool,
    ) -> Result<(), WorkError>
        requires writing { IsWriting (D.view desk.old).mode }
        requires fits { FitsGroup asker.old window.old self.old.covering group.old }
        ensures ok { OnOk result (SettleMore (D.view desk.old) (D.view desk.new) asker.old asker.new window.old window.new self.old.covering self.new.covering group.old group.new) }
        ensures err { IfErr result (SettleStops (D.view desk.old) (D.view desk.new) asker.old window.old self.old.covering group.old) }
        ensures done { OnOk result (until_found ≡ false → group.new.left ≡ []) }
        ensures latest { OnOk result (until_found ≡ true → IsNextCount window.old window.new) }
        ensures fits { OnOk result (FitsGroup asker.new window.new self.new.covering group.new) }
        ensures claimed { OnOk result (group.new.claimed ≡ group.old.claimed) }
        ensures space { self.new.covering.space ≡ self.old.covering.space }
        ensures grows { Grows (D.view desk.old) (D.view desk.new) }
    {
        file_grows();
        let before = window.count();
        'pairs: while let Some(at) = group.next() {
            self.ask_pair(asker, window, desk, group, at)?;
            if until_found && window.count() > before {
                break 'pairs;
            }
        }
        Ok(())
    }
}
