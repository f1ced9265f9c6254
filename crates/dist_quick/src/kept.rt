//! What follows from a question's first assumption, kept for the next question that begins with it.

use crate::forward::{Mark, State};
use crate::hub::{Heaviest, NONE};
use crate::needs::Needs;
use crate::trail::Truth;
use dist_clause::Lit;
use dist_derive::Log;
use std::alloc::{AllocError, Global};

/// How far a state had come.
#[derive(Clone, Copy, Debug)]
struct Stage {
    mark: Mark,
    /// How many of the roots it had looked at.
    roots: usize,
}

/// The consequences of a first assumption are many where they settle this part of all variables.
const LARGE_PART: usize = 64;

/// So many clauses more are looked at then for each variable that is settled.
const LOOKS: usize = 32;

/// Where nothing is true.
const START: Stage = Stage {
    mark: Mark {
        literals: 0,
        open: 0,
    },
    roots: 0,
};

/// A state in which a first assumption's consequences stand, and below them those of a hub that it needs. New roots are looked
/// at where they stand: all that the state has come to stays as it is.
#[derive(Debug, Drop)]
pub(crate) struct Kept {
    pub(crate) state: State,
    /// What the roots alone give, and the number of a clause that is false by them.
    base: Stage,
    broken: Option<u32>,
    /// The hub that was dear to look at, and how far its consequences go where they are there.
    heaviest: Heaviest,
    at_hub: Option<Stage>,
    /// How first assumptions need the hub.
    pub(crate) needs: Needs,
    /// The first assumption of which the consequences are there, how far they go, and the number of a clause that is false by them.
    first: Option<Lit>,
    end: Stage,
    refuted: Option<u32>,
    /// From where the question goes on.
    start: Stage,
}

impl Kept {
    pub(crate) fn new(alloc: Global, variables: u32) -> Result<Kept, AllocError> {
        Ok(Kept {
            state: State::new(alloc, variables)?,
            base: START,
            broken: None,
            heaviest: NONE,
            at_hub: None,
            needs: Needs::new(alloc, variables)?,
            first: None,
            end: START,
            refuted: None,
            start: START,
        })
    }

    /// Whether the consequences of the first one of these assumptions are there.
    pub(crate) fn is_of(&self, assumptions: &[Lit]) -> bool {
        match (self.first, assumptions.first()) {
            (Some(kept), Some(first)) => kept == *first,
            _ => false,
        }
    }

    /// How much is kept: the literals that a first assumption made true, and those that were looked at for a hub.
    pub(crate) fn len(&self) -> usize {
        let literals = if self.first.is_some() {
            self.end.mark.literals
        } else {
            0
        };
        if self.at_hub.is_some() {
            return literals.saturating_add(self.heaviest.cost);
        }
        literals
    }

    /// Looks how the first one of these assumptions needs the hub; answers whether it does and the hub's consequences are there.
    pub(crate) fn find_hub_of(
        &mut self,
        log: &Log,
        assumptions: &[Lit],
    ) -> Result<bool, AllocError> {
        match (assumptions.first(), self.heaviest.hub) {
            (Some(first), Some(hub)) => {
                Ok(self.needs.find(log, *first, hub)? && self.at_hub.is_some())
            }
            _ => {
                self.needs.find_none();
                Ok(false)
            }
        }
    }

    /// Makes the assumptions true, and what follows from them; answers the number of a clause that is false then.
    pub(crate) fn assume(
        &mut self,
        log: &Log,
        roots: &[u32],
        assumptions: &[Lit],
    ) -> Result<Option<u32>, AllocError> {
        let Some((first, rest)) = assumptions.split_first() else {
            self.first = None;
            self.needs.leave_path();
            return self.begin(log, roots);
        };
        let conflict = if self.is_of(assumptions) {
            self.go_on(log, roots)?
        } else {
            self.begin_with(log, roots, *first)?
        };
        if conflict.is_some() || rest.is_empty() {
            return Ok(conflict);
        }
        self.add(log, rest)
    }

    /// What follows from the roots alone.
    fn begin(&mut self, log: &Log, roots: &[u32]) -> Result<Option<u32>, AllocError> {
        self.go_back(self.base);
        self.at_hub = None;
        if self.broken.is_none() && self.base.roots < roots.len() {
            self.broken = self.look_at_new(log, roots)?;
            self.base = self.stage(roots);
            self.start = self.base;
        }
        Ok(self.broken)
    }

    /// What follows from the first assumption alone.
    fn begin_with(
        &mut self,
        log: &Log,
        roots: &[u32],
        first: Lit,
    ) -> Result<Option<u32>, AllocError> {
        self.first = None;
        self.state.heaviest = NONE;
        let mut conflict = self.begin_below(log, roots, first)?;
        if conflict.is_none() {
            conflict = self.add(log, &[first])?;
        }
        if conflict.is_none() {
            conflict = self.look_back(log)?;
        }
        self.choose_hub();
        self.keep(roots);
        self.first = Some(first);
        self.refuted = conflict;
        Ok(conflict)
    }

    /// What stands below the first assumption: the hub that it needs, or else what the roots give.
    fn begin_below(
        &mut self,
        log: &Log,
        roots: &[u32],
        first: Lit,
    ) -> Result<Option<u32>, AllocError> {
        if self.needs.are_from(first) && self.begin_at_hub(log, roots)? {
            self.needs.take_path()?;
            return Ok(None);
        }
        self.needs.leave_path();
        self.begin(log, roots)
    }

    /// What follows from the hub; answers whether that is no conflict and more than the roots give.
    fn begin_at_hub(&mut self, log: &Log, roots: &[u32]) -> Result<bool, AllocError> {
        if let Some(stage) = self.at_hub
            && stage.roots == roots.len()
        {
            self.go_back(stage);
            return Ok(true);
        }
        let Some(hub) = self.heaviest.hub else {
            return Ok(false);
        };
        let mut conflict = self.begin(log, roots)?;
        if self.state.trail.truth(hub) != Truth::Unset {
            self.heaviest = NONE;
            return Ok(false);
        }
        if conflict.is_none() {
            conflict = self.add(log, &[hub])?;
        }
        if conflict.is_none() {
            conflict = self.look_back(log)?;
        }
        if conflict.is_some() {
            self.heaviest = NONE;
            return Ok(false);
        }
        self.start = self.stage(roots);
        self.at_hub = Some(self.start);
        Ok(true)
    }

    /// Takes what was heaviest to look at for the hub of later questions, unless the one that is there is heavier.
    fn choose_hub(&mut self) {
        let found = self.state.heaviest;
        let is_heavier = self.at_hub.is_none() || found.cost > self.heaviest.cost;
        if found.hub.is_some() && is_heavier {
            self.heaviest = found;
            self.at_hub = None;
        }
    }

    /// The same where it is there, but for what new roots give.
    fn go_on(&mut self, log: &Log, roots: &[u32]) -> Result<Option<u32>, AllocError> {
        self.go_back(self.end);
        if self.refuted.is_none() && self.end.roots < roots.len() {
            self.refuted = self.look_at_new(log, roots)?;
            self.keep(roots);
        }
        Ok(self.refuted)
    }

    /// Where the first assumption settles many variables, looks also at clauses in which these stand and are false, some for
    /// each. So decisions need not find out what is impossible under it, again in each question.
    fn look_back(&mut self, log: &Log) -> Result<Option<u32>, AllocError> {
        let start = self.start.mark.literals;
        let settled = self.state.trail.len().saturating_sub(start);
        if settled < log.variables() as usize / LARGE_PART {
            return Ok(None);
        }
        self.state
            .look_back(log, start, settled.saturating_mul(LOOKS))
    }

    /// Keeps all that is true now.
    fn keep(&mut self, roots: &[u32]) {
        self.end = self.stage(roots);
        self.start = self.end;
    }

    /// Looks at the roots behind those that were looked at before the start; answers the number of one that is false.
    fn look_at_new(&mut self, log: &Log, roots: &[u32]) -> Result<Option<u32>, AllocError> {
        for number in roots.iter().skip(self.start.roots) {
            if self.state.take(log, *number)? {
                return Ok(Some(*number));
            }
        }
        self.state.settle(log)
    }

    /// Makes assumptions true, and what follows; answers the number of a clause that is false then.
    fn add(&mut self, log: &Log, assumptions: &[Lit]) -> Result<Option<u32>, AllocError> {
        for literal in assumptions {
            match self.state.trail.truth(*literal) {
                Truth::True => {}
                Truth::False => return Ok(Some(self.state.trail.reason(literal.variable()))),
                Truth::Unset => self.state.trail.set(*literal, 0)?,
            }
        }
        self.state.settle(log)
    }

    /// Takes all back that came behind a stage.
    fn go_back(&mut self, stage: Stage) {
        self.state.undo_to(stage.mark);
        self.start = stage;
    }

    /// How far the state has come, where it has looked at these roots.
    fn stage(&self, roots: &[u32]) -> Stage {
        Stage {
            mark: self.state.mark(),
            roots: roots.len(),
        }
    }
}
