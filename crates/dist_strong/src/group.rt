//! What is kept of the group of a claim.
ghost use Rattle.std.specs.Prelude.{◌≡◌, ◌-◌, ◌≤◌, ◌↔◌, IfOk, IsTrue, length, slice_set, true};
ghost use Rattle.dist_strong.specs.Group.{AreLeft, GroupView, IsLeft, IsNarrowed, new_group};
ghost use Rattle.dist_line_write.specs.Words.{true_variables};

use dist_clause::Assignment;
use dist_line_write::true_variables;
use dist_sweep::{Window, and_into, copy_from, next_true};
use std::alloc::{AllocError, Global};
use std::marker::Model;

/// The package of the claim, what all installations of its group have, and the packages without which it was asked for.
#[derive(Drop)]
pub(crate) struct Group {
    pub(crate) claimed: u32,
    pub(crate) variables: u32,
    pub(crate) common: Assignment,
    pub(crate) refuted: Assignment,
    pub(crate) undecided: Assignment,
}

impl Model for Group {
    ghost use Rattle.std.specs.Prelude.{◌≡◌, length};
    ghost use Rattle.dist_strong.specs.Group.{GroupView};

    ghost Value = { GroupView };

    ghost view = { λ g. record { claimed = g.claimed; variables = g.variables; common = g.common; refuted = g.refuted; undecided = g.undecided } };

    ghost invariant = { λ g. (length g.common ≡ g.variables) × (length g.refuted ≡ g.variables) × (length g.undecided ≡ g.variables) };
}

impl Group {
    /// The group of a claim on a package, with its first installation.
    pub(crate) fn new(
        alloc: Global,
        package: u32,
        values: &Assignment,
        variables: u32,
    ) -> Result<Group, AllocError>
        requires { length values.now ≡ variables }
        ensures { IfOk result (λ g. g ≡ new_group «package» variables values.now) }
    {
        let mut common = Assignment::new(alloc, variables)?;
        copy_from(&mut common, values, variables);
        Ok(Group {
            claimed: package,
            variables,
            common,
            refuted: Assignment::new(alloc, variables)?,
            undecided: Assignment::new(alloc, variables)?,
        })
    }

    /// The package of the claim.
    pub(crate) fn claimed(&self) -> u32
        ensures { result ≡ self.now.claimed }
    {
        self.claimed
    }

    /// Adds an installation.
    pub(crate) fn add(&mut self, values: &Assignment)
        requires { length values.now ≡ self.old.variables }
        ensures rest { self.new ≡ record self.old { common = self.new.common } }
        ensures size { length self.new.common ≡ self.old.variables }
        ensures both { IsNarrowed self.old.variables self.old.common values.now self.new.common }
    {
        and_into(&mut self.common, values, self.variables);
    }

    /// Notes that the package is refuted without another one.
    pub(crate) fn refute(&mut self, other: u32)
        requires from_one { 1 ≤ other }
        requires upto { other ≤ self.old.variables }
        ensures { self.new ≡ record self.old { refuted = slice_set self.old.refuted (other - 1) true } }
    {
        self.refuted.set(other, true);
    }

    /// Notes that it is undecided whether the package goes without another one.
    pub(crate) fn leave(&mut self, other: u32)
        requires from_one { 1 ≤ other }
        requires upto { other ≤ self.old.variables }
        ensures { self.new ≡ record self.old { undecided = slice_set self.old.undecided (other - 1) true } }
    {
        self.undecided.set(other, true);
    }

    /// The packages without which the package of the claim was refuted, rising.
    pub(crate) fn needed(&self, alloc: Global) -> Result<Vec<u32>, AllocError>
        ensures { IfOk result (λ needed. needed.items ≡ true_variables self.now.refuted) }
    {
        true_variables(alloc, &self.refuted, self.variables)
    }

    /// The packages that stayed undecided and are in all installations of the claim, rising.
    pub(crate) fn left(&self, alloc: Global, window: &Window) -> Result<Vec<u32>, AllocError>
        requires from_one { 1 ≤ self.now.claimed }
        requires upto { self.now.claimed ≤ self.now.variables }
        requires variables { window.now.variables ≡ self.now.variables }
        ensures { IfOk result (λ left. AreLeft window.now self.now left.items) }
    {
        let mut left = Vec::new(alloc);
        let mut last = 0;
        'others: while last < self.variables {
            match next_true(&self.undecided, self.variables, last + 1) {
                Some(other) => {
                    if self.is_left(window, other) {
                        left.push(other)?;
                    }
                    last = other;
                }
                None => last = self.variables,
            }
        }
        Ok(left)
    }

    /// Whether a package stayed undecided and is in all installations of the claim.
    fn is_left(&self, window: &Window, other: u32) -> bool
        requires from_one { 1 ≤ self.now.claimed }
        requires upto { self.now.claimed ≤ self.now.variables }
        requires variables { window.now.variables ≡ self.now.variables }
        requires other_from_one { 1 ≤ other }
        requires other_upto { other ≤ self.now.variables }
        ensures { IsTrue result ↔ IsLeft window.now self.now other }
    {
        self.undecided.value(other)
            && self.common.value(other)
            && window.each_has(self.claimed, other)
    }
}
