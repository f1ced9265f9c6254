//! What is kept of the group of a claim on a challenged package.
ghost use Rattle.std.specs.Prelude.{◌≡◌, ◌++◌, [], ◌∷◌, filter, IfOk, IfSome, None, OnOk};
ghost use Rattle.dist_cert.specs.Rising.{AreRising, is_among};
ghost use Rattle.dist_covering.specs.Group.{AreOrdered, IsOrdered, IsPlanned, group_of, is_unasked};

use std::alloc::{AllocError, Global};
use std::marker::Model;

/// The package of a claim, what it is to name, and its pairs: those to be asked for, and those that were asked for and are listed.
#[derive(Drop)]
pub struct Group {
    claimed: u32,
    /// The variable of the package.
    present: u32,
    named: Vec<u32>,
    /// Pairs to be asked for, the last one first.
    left: Vec<u32>,
    refuted: Vec<u32>,
    undecided: Vec<u32>,
}

/// Puts numbers in their order, each once.
fn put_in_order(numbers: &mut Vec<u32>)
    ensures { AreOrdered numbers.old.items numbers.new.items }
{
    numbers.sort_unstable();
    numbers.dedup();
}

/// Whether rising numbers have this one.
fn has(numbers: &[u32], number: u32) -> bool
    requires { AreRising numbers.now }
    ensures { result ≡ is_among numbers.now number }
{
    numbers.binary_search(&number).is_ok()
}

impl Model for Group {
    ghost use Rattle.dist_covering.specs.Group.{GroupView};

    ghost Value = { GroupView };

    ghost view = { λ g. record {
      claimed = g.claimed;
      present = g.present;
      named = g.named.items;
      left = g.left.items;
      refuted = g.refuted.items;
      undecided = g.undecided.items;
    } };
}

impl Group {
    /// The group of a claim for which nothing was asked.
    pub fn new(alloc: Global, claimed: u32, present: u32) -> Group
        ensures { result ≡ group_of claimed present }
    {
        Group {
            claimed,
            present,
            named: Vec::new(alloc),
            left: Vec::new(alloc),
            refuted: Vec::new(alloc),
            undecided: Vec::new(alloc),
        }
    }

    /// Those of some pairs that were not asked for.
    fn unasked(&self, alloc: Global, pairs: &[u32]) -> Result<Vec<u32>, AllocError>
        requires refuted { AreRising self.now.refuted }
        requires undecided { AreRising self.now.undecided }
        ensures { IfOk result (λ left. left.items ≡ filter (is_unasked self.now) pairs.now) }
    {
        let mut left = Vec::new(alloc);
        for at in pairs {
            if !has(&self.undecided, *at) && !has(&self.refuted, *at) {
                left.push(*at)?;
            }
        }
        Ok(left)
    }

    /// Those of some pairs that are undecided.
    fn undecided_among(&self, alloc: Global, pairs: &[u32]) -> Result<Vec<u32>, AllocError>
        requires { AreRising self.now.undecided }
        ensures { IfOk result (λ left. left.items ≡ filter (is_among self.now.undecided) pairs.now) }
    {
        let mut left = Vec::new(alloc);
        for at in pairs {
            if has(&self.undecided, *at) {
                left.push(*at)?;
            }
        }
        Ok(left)
    }

    /// Sets what is to be named. Of the pairs that are open then, those that were asked for are refuted or undecided, and the
    /// others are to be asked for.
    pub(crate) fn plan(
        &mut self,
        alloc: Global,
        named: Vec<u32>,
        pairs: &[u32],
    ) -> Result<(), AllocError>
        ensures { OnOk result (IsPlanned named.items pairs.now self.old self.new) }
    {
        self.put_in_order();
        self.named = named;
        self.left = self.unasked(alloc, pairs)?;
        self.undecided = self.undecided_among(alloc, pairs)?;
        Ok(())
    }

    /// Puts the pairs that were asked for in their order.
    pub fn put_in_order(&mut self)
        ensures { IsOrdered self.old self.new }
    {
        put_in_order(&mut self.refuted);
        put_in_order(&mut self.undecided);
    }

    /// The package of the claim.
    pub fn claimed(&self) -> u32
        ensures { result ≡ self.now.claimed }
    {
        self.claimed
    }

    /// The pairs at which the package was refuted.
    pub fn refuted(&self) -> &[u32]
        ensures { result.now ≡ self.now.refuted }
    {
        &self.refuted
    }

    /// The pairs that stayed undecided.
    pub fn undecided(&self) -> &[u32]
        ensures { result.now ≡ self.now.undecided }
    {
        &self.undecided
    }

    /// The pairs that are to be asked for.
    pub(crate) fn left(&self) -> &[u32]
        ensures { result.now ≡ self.now.left }
    {
        &self.left
    }

    /// The installations that the claim is to name.
    pub fn named(&self) -> &[u32]
        ensures { result.now ≡ self.now.named }
    {
        &self.named
    }

    /// Puts the pairs that are left, and the undecided ones, in place of those before.
    pub(crate) fn keep(&mut self, left: Vec<u32>, undecided: Vec<u32>)
        ensures { self.new ≡ record self.old { left = left.items; undecided = undecided.items } }
    {
        self.left = left;
        self.undecided = undecided;
    }

    /// The variable of the package.
    pub fn present(&self) -> u32
        ensures { result ≡ self.now.present }
    {
        self.present
    }

    /// Takes the next pair to be asked for.
    pub fn next(&mut self) -> Option<u32>
        ensures some { IfSome result (λ at. self.old ≡ record self.new { left = self.new.left ++ at ∷ [] }) }
        ensures none { result ≡ None → self.new.left ≡ [] }
        ensures same { result ≡ None → self.new ≡ self.old }
    {
        self.left.pop()
    }

    /// Notes that the package is refuted at a pair.
    pub fn note_refuted(&mut self, at: u32) -> Result<(), AllocError>
        ensures { OnOk result (self.new ≡ record self.old { refuted = self.old.refuted ++ at ∷ [] }) }
    {
        self.refuted.push(at)?;
        Ok(())
    }

    /// Notes that it is undecided whether the package goes with a pair.
    pub fn note_undecided(&mut self, at: u32) -> Result<(), AllocError>
        ensures { OnOk result (self.new ≡ record self.old { undecided = self.old.undecided ++ at ∷ [] }) }
    {
        self.undecided.push(at)?;
        Ok(())
    }
}
