//! How an assumption needs a hub: itself, or through packages that need one another.

use crate::clauses::clause_of;
use dist_clause::Lit;
use dist_derive::Log;
use std::alloc::{AllocError, Global};

/// So many clauses are looked at for the way to a hub.
const LOOKS: usize = 256;

/// A variable that is needed, and the clause of two literals that says so.
#[derive(Clone, Copy, Debug)]
pub(crate) struct Need {
    pub(crate) literal: Lit,
    /// 0: it is the assumption.
    pub(crate) clause: u32,
    /// The place of what needs it, among those that were found.
    by: usize,
}

/// Room for the way from an assumption to a hub.
#[derive(Debug, Drop)]
pub(crate) struct Needs {
    /// What the assumption needs, the nearest first, as far as it was looked for.
    found: Vec<Need>,
    seen: Vec<bool>,
    /// The assumption whose way to the hub was found: the hub is the last one of those.
    from: Option<Lit>,
    /// The way on which the consequences stand that are kept, behind its assumption and up to the hub.
    path: Vec<Need>,
}

impl Needs {
    pub(crate) fn new(alloc: Global, variables: u32) -> Result<Needs, AllocError> {
        let seen = vec![in alloc; false; variables as usize + 1]?;
        Ok(Needs {
            found: Vec::new(alloc),
            seen,
            from: None,
            path: Vec::new(alloc),
        })
    }

    /// The way on which the consequences stand that are kept.
    pub(crate) fn path(&self) -> &[Need] {
        &self.path
    }

    /// Whether the way of an assumption was found.
    pub(crate) fn are_from(&self, first: Lit) -> bool {
        match self.from {
            Some(from) => from == first,
            None => false,
        }
    }

    /// Looks for the way of an assumption to a hub; answers whether it is found.
    pub(crate) fn find(&mut self, log: &Log, first: Lit, hub: Lit) -> Result<bool, AllocError> {
        self.from = None;
        self.found.clear();
        let found = self.search(log, first, hub);
        self.forget_seen();
        let found = found?;
        if found {
            self.from = Some(first);
        }
        Ok(found)
    }

    /// No way is found.
    pub(crate) fn find_none(&mut self) {
        self.from = None;
    }

    fn search(&mut self, log: &Log, first: Lit, hub: Lit) -> Result<bool, AllocError> {
        let mut left = LOOKS;
        self.note(first, 0, 0)?;
        if first == hub {
            return Ok(true);
        }
        for place in 0..LOOKS {
            let Some(need) = self.found.get(place).copied() else {
                break;
            };
            if self.note_needs(log, need.literal, place, hub, &mut left)? {
                return Ok(true);
            }
        }
        Ok(false)
    }

    /// Notes what the variable at a place needs; answers whether the hub is among it.
    fn note_needs(
        &mut self,
        log: &Log,
        literal: Lit,
        place: usize,
        hub: Lit,
        left: &mut usize,
    ) -> Result<bool, AllocError> {
        let mut next = log.latest_with(literal.negated());
        for _ in 0..*left {
            let Some(link) = log.link(next) else {
                break;
            };
            next = link.next;
            *left = left.saturating_sub(1);
            if let Some(needed) = needed_by(clause_of(log, link.number), literal) {
                self.note(needed, link.number, place)?;
                if needed == hub {
                    return Ok(true);
                }
            }
        }
        Ok(false)
    }

    /// Notes a variable, once.
    fn note(&mut self, literal: Lit, clause: u32, by: usize) -> Result<(), AllocError> {
        if let Some(seen) = self.seen.get_mut(literal.variable() as usize)
            && !*seen
        {
            *seen = true;
            self.found.push(Need {
                literal,
                clause,
                by,
            })?;
        }
        Ok(())
    }

    fn forget_seen(&mut self) {
        for need in &self.found {
            if let Some(seen) = self.seen.get_mut(need.literal.variable() as usize) {
                *seen = false;
            }
        }
    }

    /// Takes the way that was found for that on which the consequences stand.
    pub(crate) fn take_path(&mut self) -> Result<(), AllocError> {
        self.path.clear();
        let mut place = self.found.len().saturating_sub(1);
        for _ in 0..self.found.len() {
            let Some(need) = self.found.get(place).copied() else {
                break;
            };
            if need.clause == 0 {
                break;
            }
            let by = need.by;
            self.path.push(need)?;
            place = by;
        }
        self.path.reverse();
        Ok(())
    }

    /// The consequences stand on no way.
    pub(crate) fn leave_path(&mut self) {
        self.path.clear();
    }
}

/// The variable that a true literal needs by a clause, if this has two literals.
fn needed_by(clause: &[Lit], literal: Lit) -> Option<Lit> {
    let needed = match clause {
        [one, other] if *one == literal.negated() => *other,
        [one, other] if *other == literal.negated() => *one,
        _ => return None,
    };
    if needed.positive() {
        Some(needed)
    } else {
        None
    }
}
