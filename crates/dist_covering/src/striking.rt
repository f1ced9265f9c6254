//! How installations strike open pairs.
ghost use Rattle.std.specs.Prelude.{◌≡◌, ◌≢◌, ◌+◌, ◌-◌, ◌≤◌, ◌∷◌, [], ℕ, All, IfOk, IsTrue, OnOk, length, true};
ghost use Rattle.dist_clause.specs.Formula.{value_of};
ghost use Rattle.dist_covering.specs.OpenPairs.{AreOpen, IsKept, IsPlan};
ghost use Rattle.dist_covering.specs.Planning.{IsStruck};
ghost use Rattle.dist_sweep.specs.Window.{kept_at};

use crate::covering::{Covering, is_with, lasts};
use crate::group::Group;
use crate::recent::LATEST;
use dist_sweep::Window;
use std::alloc::AllocError;

/// How many known installations in a row are tried that strike no pair of a claim. A try costs as much as there are pairs, and
/// what a known installation does not strike is asked for.
const VAIN: u32 = 8;

/// How many installations in a row struck no pair, one more that did or did not.
fn vain_after(struck: bool, vain: u32) -> u32
    ensures struck { IsTrue struck → result ≡ 0 }
    ensures within { result ≤ vain + 1 }
{
    if struck { 0 } else { vain.saturating_add(1) }
}

impl Covering {
    /// Lets an installation strike the pairs that it covers, where a claim may then name it as long as pairs are left; answers
    /// whether it did.
    fn strike_by(
        &self,
        window: &Window,
        number: u32,
        named: &mut Vec<u32>,
        ats: &mut Vec<u32>,
    ) -> Result<bool, AllocError>
        requires kept { IsKept window.now number }
        requires variables { window.now.variables ≡ length self.now.space.meanings }
        requires inside { All (λ at. (1 ≤ at) × (at ≤ length self.now.space.meanings)) ats.old.items }
        ensures plan { OnOk result ((present own today start : ℕ) → value_of (kept_at window.now number) present ≡ true → number ≢ today
            → IsPlan self.now window.now present own today start number named.old.items ats.old.items
            → IsPlan self.now window.now present own today start (number - 1) named.new.items ats.new.items) }
        ensures inside { OnOk result (All (λ at. (1 ≤ at) × (at ≤ length self.now.space.meanings)) ats.new.items) }
    {
        window.keeps_invariant();
        let left = self.left_by(window, number, ats)?;
        if left.len() < ats.len() && lasts(window, left.len(), number) {
            named.push(number)?;
            *ats = left;
            return Ok(true);
        }
        Ok(false)
    }

    /// Lets the latest installations with a variable strike pairs, the latest first, until none is left or many in a row struck none.
    /// Those that did are told.
    pub(crate) fn strike(
        &self,
        window: &Window,
        present: u32,
        today: u32,
        ats: &mut Vec<u32>,
    ) -> Result<Vec<u32>, AllocError>
        requires variables { window.now.variables ≡ length self.now.space.meanings }
        requires from_one { 1 ≤ present }
        requires upto { present ≤ length self.now.space.meanings }
        requires inside { All (λ at. (1 ≤ at) × (at ≤ length self.now.space.meanings)) ats.old.items }
        ensures { IfOk result (λ named. (own start : ℕ) → AreOpen self.now window.now own (start ∷ today ∷ []) ats.old.items
            → IsPlan self.now window.now present own today start 0 named.items ats.new.items) }
    {
        let mut named = Vec::new(self.alloc);
        let mut vain = 0;
        let mut bound = window.count();
        'known: for back in 0..LATEST {
            let number = self.recent.latest(present, back, false);
            if ats.is_empty() || vain >= VAIN {
                break;
            }
            if number != today && number <= bound && is_with(window, number, present) {
                let struck = self.strike_by(window, number, &mut named, ats)?;
                vain = vain_after(struck, vain);
                bound = number - 1;
            }
        }
        Ok(named)
    }

    /// Lets the latest installation strike pairs of a group.
    pub fn strike_latest(&self, window: &Window, group: &mut Group) -> Result<(), AllocError>
        requires kept { IsKept window.now window.now.count }
        requires variables { window.now.variables ≡ length self.now.space.meanings }
        requires left { All (λ at. (1 ≤ at) × (at ≤ length self.now.space.meanings)) group.old.left }
        requires undecided { All (λ at. (1 ≤ at) × (at ≤ length self.now.space.meanings)) group.old.undecided }
        ensures { OnOk result (IsStruck self.now window.now group.old group.new) }
    {
        let latest = window.count();
        let left = self.left_by(window, latest, group.left())?;
        let undecided = self.left_by(window, latest, group.undecided())?;
        group.keep(left, undecided);
        Ok(())
    }
}
