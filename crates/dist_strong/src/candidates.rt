//! Which packages a group has still to be asked for.
ghost use Rattle.std.specs.Prelude.{◌≡◌, ◌-◌, ◌≤◌, ◌↔◌, ℕ, IfOk, IfSome, None, OnOk, false, length, slice_set, true};
ghost use Rattle.dist_clause.specs.Formula.{value_of};
ghost use Rattle.dist_strong.specs.Candidates.{AreCandidates};
ghost use Rattle.dist_strong.specs.Group.{IsNarrowed};
ghost use Rattle.dist_sweep.specs.Window.{added};

use crate::group::Group;
use dist_clause::Assignment;
use dist_sweep::{Window, and_into, copy_from, next_true};
use std::alloc::{AllocError, Global};
use std::marker::Model;

/// The candidates of a group, one bit for each package: each installation strikes some by whole words, and each question one.
#[derive(Drop)]
pub(crate) struct Candidates {
    alloc: Global,
    row: Assignment,
}

impl Model for Candidates {
    ghost use Rattle.std.specs.Prelude.{Bool, List};

    ghost Value = { List Bool };

    ghost view = { λ c. c.row };
}

/// Strikes those that are true in another row.
fn strike_all(row: &mut Assignment, others: &Assignment, variables: u32)
    requires row { length row.old ≡ variables }
    requires others { length others.now ≡ variables }
    ensures size { length row.new ≡ variables }
    ensures each { (q : ℕ) → 1 ≤ q → q ≤ variables
        → (value_of row.new q ≡ true) ↔ ((value_of row.old q ≡ true) × (value_of others.now q ≡ false)) }
{
    let mut last = 0;
    'others: while last < variables {
        match next_true(others, variables, last + 1) {
            Some(other) => {
                row.set(other, false);
                last = other;
            }
            None => last = variables,
        }
    }
}

impl Group {
    /// Makes the row of its candidates afresh.
    fn write_row(&self, window: &Window, row: &mut Assignment)
        requires size { length row.old ≡ self.now.variables }
        requires window { window.now.variables ≡ self.now.variables }
        requires from_one { 1 ≤ self.now.claimed }
        requires upto { self.now.claimed ≤ self.now.variables }
        ensures { AreCandidates window.now self.now row.new }
    {
        copy_from(row, &self.common, self.variables);
        window.narrow(self.claimed, row);
        row.set(self.claimed, false);
        strike_all(row, &self.refuted, self.variables);
        strike_all(row, &self.undecided, self.variables);
    }
}

impl Candidates {
    /// The candidates of a group.
    pub(crate) fn of(
        alloc: Global,
        window: &Window,
        group: &Group,
    ) -> Result<Candidates, AllocError>
        requires window { window.now.variables ≡ group.now.variables }
        requires from_one { 1 ≤ group.now.claimed }
        requires upto { group.now.claimed ≤ group.now.variables }
        ensures { IfOk result (AreCandidates window.now group.now) }
    {
        let mut row = Assignment::new(alloc, window.variables())?;
        group.write_row(window, &mut row);
        Ok(Candidates { alloc, row })
    }

    pub(crate) fn alloc(&self) -> Global {
        self.alloc
    }

    /// The candidates, true in a row of all packages.
    pub(crate) fn row(&self) -> &Assignment
        ensures { result.now ≡ self.now }
    {
        &self.row
    }

    /// The next candidate behind the one that was asked for last, or the first one where none is behind it.
    pub(crate) fn next(&self, variables: u32, last: u32) -> Option<u32>
        requires { length self.now ≡ variables }
        ensures some { IfSome result (λ q. (1 ≤ q) × (q ≤ variables) × (value_of self.now q ≡ true)) }
        ensures none { result ≡ None → (q : ℕ) → 1 ≤ q → q ≤ variables → value_of self.now q ≡ false }
    {
        let behind = next_true(&self.row, variables, last.saturating_add(1));
        if behind.is_some() {
            return behind;
        }
        next_true(&self.row, variables, 1)
    }

    /// Strikes one that was asked for.
    pub(crate) fn strike(&mut self, other: u32)
        requires from_one { 1 ≤ other }
        requires upto { other ≤ length self.old }
        ensures { self.new ≡ slice_set self.old (other - 1) false }
    {
        self.row.set(other, false);
    }

    /// Adds an installation with the package of the claim to the window and to the group. One that the window gives up for it
    /// may have struck packages that are candidates then.
    pub(crate) fn add(
        &mut self,
        window: &mut Window,
        group: &mut Group,
        values: Assignment,
    ) -> Result<(), AllocError>
        requires values { length values ≡ group.old.variables }
        requires window { window.old.variables ≡ group.old.variables }
        requires from_one { 1 ≤ group.old.claimed }
        requires upto { group.old.claimed ≤ group.old.variables }
        requires has { value_of values group.old.claimed ≡ true }
        requires candidates { AreCandidates window.old group.old self.old }
        ensures rest { group.new ≡ record group.old { common = group.new.common } }
        ensures size { length group.new.common ≡ group.old.variables }
        ensures both { IsNarrowed group.old.variables group.old.common values group.new.common }
        ensures window { OnOk result (window.new ≡ added window.old values) }
        ensures candidates { OnOk result (AreCandidates window.new group.new self.new) }
    {
        let afresh = window.gives_up(group.claimed());
        group.add(&values);
        and_into(&mut self.row, &values, window.variables());
        window.add(values)?;
        if afresh {
            group.write_row(window, &mut self.row);
        }
        Ok(())
    }
}
