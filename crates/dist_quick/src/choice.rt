//! Which alternative of an open clause is decided.

use crate::clauses::clause_of;
use crate::open::Open;
use crate::shunned::Shunned;
use crate::trail::{Trail, Truth};
use dist_clause::Lit;
use dist_derive::Log;

/// Behind all that are shunned.
const UNSHUNNED: u64 = 1 << 63;

/// Ahead of those that are the last of all.
const NOT_LAST: u64 = 1 << 32;

/// More uses than these don't count.
const USES: u32 = 1 << 30;

/// How early an alternative is tried: the higher its variable the earlier. Behind all others those that are shunned: the more open
/// clauses they make true the earlier, of these the ones that are not to be the last, and of these the lower ones.
fn rank(literal: Lit, open: &Open, shunned: &Shunned<'_>) -> u64 {
    let variable = literal.variable();
    if !shunned.has(variable) {
        return u64::from(variable) | UNSHUNNED;
    }
    let early = if shunned.is_last(variable) {
        0
    } else {
        NOT_LAST
    };
    u64::from(open.count_uses(variable).min(USES)) << 33 | early | u64::from(u32::MAX - variable)
}

/// So many alternatives of a long clause are looked at for one that is not shunned.
const ALTERNATIVES: usize = 32;

/// The alternative of a long clause that is tried first: the last unset literal that is not shunned, where it is among the last
/// ones, or else the last unset literal.
pub(crate) fn last_unset(clause: &[Lit], trail: &Trail, shunned: &Shunned<'_>) -> Option<Lit> {
    let mut last = None;
    let mut left = ALTERNATIVES;
    for literal in clause.iter().rev() {
        if trail.truth(*literal) != Truth::Unset {
            continue;
        }
        if !shunned.has(literal.variable()) {
            return Some(*literal);
        }
        last = last.or(Some(*literal));
        left = left.saturating_sub(1);
        if left == 0 {
            break;
        }
    }
    last
}

/// The alternative that is tried first, of those that are unset.
pub(crate) fn first_unset(
    log: &Log,
    trail: &Trail,
    open: &Open,
    number: u32,
    shunned: &Shunned<'_>,
) -> Option<Lit> {
    let mut best = None;
    let mut highest = 0;
    for literal in clause_of(log, number) {
        if trail.truth(*literal) == Truth::Unset {
            let rank = rank(*literal, open, shunned);
            if rank > highest {
                highest = rank;
                best = Some(*literal);
            }
        }
    }
    best
}
