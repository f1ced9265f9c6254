//! What a log keeps between two tests of newness.

ghost use Rattle.std.specs.Prelude.{◌≡◌, ◌≤◌, ℕ, false, List, [], IfOk, IsTrue};
ghost use Rattle.dist_clause.specs.Formula.{Literal};
ghost use Rattle.dist_derive.specs.WatchesPrivate.{IsGrounded, IsStanding};

use crate::true_literals::TrueLiterals;
use crate::watches::Watches;
use dist_clause::Lit;
use std::alloc::{AllocError, Global};
use std::marker::Model;
use std::mem;

/// True literals in the order in which they became true, and watches by which the clauses are found that make more true.
/// First come those that the clauses give by themselves (the ground), then those that they give under the assumptions of
/// the last question. A test adds its own behind these and lets them go again.
#[derive(Drop)]
pub(crate) struct Watching {
    /// Else nothing is known of the rest.
    pub(crate) is_made: bool,
    pub(crate) watches: Watches,
    pub(crate) literals: TrueLiterals,
    /// So many literals are the ground.
    pub(crate) ground: usize,
    /// So many clauses are taken in there.
    pub(crate) grounded: u32,
    pub(crate) assumptions: Vec<Lit>,
    /// So many clauses are taken in under the assumptions.
    pub(crate) taken: u32,
    /// How many literals there were when some were last let go.
    pub(crate) peak: usize,
    /// How many literals were made by assumptions taken alone, and how many above those of other questions.
    alone: u64,
    above: u64,
}

impl Model for Watching {
    ghost use Rattle.dist_derive.specs.WatchesPrivate.{WatchingState};

    ghost Value = { WatchingState };

    ghost view = { λ a. record {
      is_made = a.is_made;
      watches = a.watches;
      literals = a.literals;
      ground = a.ground;
      grounded = a.grounded;
      assumptions = a.assumptions.items;
      taken = a.taken;
    } };
}

impl Watching {
    /// None. It takes no memory.
    pub(crate) fn empty(alloc: Global) -> Watching
        ensures { result.is_made ≡ false }
    {
        Watching {
            is_made: false,
            watches: Watches::empty(alloc),
            literals: TrueLiterals::empty(alloc),
            ground: 0,
            grounded: 0,
            assumptions: Vec::new(alloc),
            taken: 0,
            peak: 0,
            alone: 0,
            above: 0,
        }
    }

    /// The one with no clause taken in.
    pub(crate) fn make(alloc: Global, variables: u32) -> Result<Watching, AllocError>
        ensures standing { IfOk result (λ watching. (clauses : List (List Literal)) → IsStanding clauses variables watching) }
        ensures nothing { IfOk result (λ watching. watching.grounded ≡ 0) }
    {
        let watches = Watches::make(alloc, variables)?;
        let literals = TrueLiterals::new(alloc, variables)?;
        Ok(Watching {
            is_made: true,
            watches,
            literals,
            ground: 0,
            grounded: 0,
            assumptions: Vec::new(alloc),
            taken: 0,
            peak: 0,
            alone: 0,
            above: 0,
        })
    }

    /// Takes it out. None stays.
    pub(crate) fn take(&mut self, alloc: Global) -> Watching
        ensures result { result ≡ self.old }
        ensures none { self.new.is_made ≡ false }
    {
        mem::replace(self, Watching::empty(alloc))
    }

    /// Puts another one in its place.
    pub(crate) fn put(&mut self, other: Watching)
        ensures { self.new ≡ other }
    {
        drop(mem::replace(self, other));
    }

    /// Whether these are the assumptions.
    pub(crate) fn is_under(&self, assumptions: &[Lit]) -> bool
        ensures { IsTrue result → self.now.assumptions ≡ assumptions.now }
    {
        self.assumptions.as_slice() == assumptions
    }

    /// Whether it stands under other assumptions, with no more than the first `last` clauses, and going on above such ones has
    /// not cost more so far than taking assumptions alone.
    pub(crate) fn may_rise(&self, assumptions: &[Lit], last: u32) -> bool
        ensures made { IsTrue result → IsTrue self.now.is_made }
        ensures taken { IsTrue result → self.now.taken ≤ last }
    {
        self.is_made
            && self.taken <= last
            && !self.assumptions.is_empty()
            && !self.is_under(assumptions)
            && self.above <= self.alone
    }

    /// How many literals are true.
    pub(crate) fn count(&self) -> usize {
        self.literals.len()
    }

    /// Notes what the assumptions gave, where they were taken alone.
    pub(crate) fn note_alone(&mut self)
        ensures { self.new ≡ self.old }
    {
        let count = self.literals.len().saturating_sub(self.ground);
        self.alone = self.alone.saturating_add(count as u64);
    }

    /// Notes what came above so many literals, where some were let go since.
    pub(crate) fn note_above(&mut self, before: usize)
        ensures { self.new ≡ self.old }
    {
        let count = self.peak.saturating_sub(before);
        self.above = self.above.saturating_add(count as u64);
    }

    /// Lets the assumptions go.
    pub(crate) fn to_ground(&mut self)
        ensures standing { (clauses : List (List Literal)) (variables : ℕ) → IsGrounded clauses variables self.old
            → IsStanding clauses variables self.new }
        ensures grounded { self.new.grounded ≡ self.old.grounded }
        ensures taken { self.new.taken ≡ self.old.grounded }
        ensures none { self.new.assumptions ≡ [] }
    {
        let peak = self.literals.len();
        self.peak = peak;
        self.literals.truncate(self.ground);
        self.ground = self.literals.len();
        self.assumptions.clear();
        self.taken = self.grounded;
    }

    /// What the clauses that are taken in give alone is the ground from now on.
    pub(crate) fn set_ground(&mut self)
        requires { self.old.assumptions ≡ [] }
        ensures standing { (clauses : List (List Literal)) (variables : ℕ) → IsStanding clauses variables self.old
            → IsStanding clauses variables self.new }
        ensures none { self.new.assumptions ≡ [] }
        ensures taken { self.new.taken ≡ self.old.taken }
    {
        self.ground = self.literals.len();
        self.grounded = self.taken;
    }
}
