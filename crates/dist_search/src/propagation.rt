//! Unit propagation by watched literals, within a cone.
//!
//! The true literals are taken in the order in which they became true, each with the clauses that are found by its negation. A
//! clause that gives a literal outside the cone is left alone: such a literal has no value in this question, and a clause that
//! reaches there has a negative literal outside, which no model has to make false.

ghost use Rattle.std.specs.Prelude.{◌≡◌, ◌<◌, ◌≤◌, ◌^◌, length, take, slice_index, Contains, IfOk, IfSome, IfNone, IsTrue};
ghost use Rattle.dist_clause.specs.ClauseList.{clause_at};
ghost use Rattle.dist_derive.specs.Propagation.{AllFalse};
ghost use Rattle.dist_derive.specs.Follows.{IsNumberOf};
ghost use Rattle.dist_clause.specs.Formula.{Literal};
ghost use Rattle.dist_derive.specs.Watches.{AreWatchesOf, HasOther, HasTrueOne, list_of, pair_of};
ghost use Rattle.dist_search.specs.Guard.{AreGuarded, Advances};
ghost use Rattle.dist_search.specs.GuardPrivate.{IsTaking, GoesOn, IsConflict, Looks};

use crate::trail::Trail;
use dist_clause::Lit;
use dist_derive::{Log, Truth, VariableSet, Watches};
use std::alloc::AllocError;

/// Takes all true literals, and makes true what clauses give; answers the number of a clause that is false then, if there is one.
/// After want of memory nothing is known of the watches.
pub(crate) fn propagate(
    log: &Log,
    cone: &VariableSet,
    watches: &mut Watches,
    trail: &mut Trail,
) -> Result<Option<u32>, AllocError>
    requires same_variables { trail.old.variables ≡ log.now.variables }
    requires cone_variables { cone.now.variables ≡ log.now.variables }
    requires watches { AreWatchesOf watches.old log.now.clauses }
    requires guarded { AreGuarded watches.old log.now.clauses cone.now.members trail.old.literals
        (take trail.old.head trail.old.literals) }
    ensures advances { IfOk result (λ found. Advances log.now.clauses cone.now.members watches.old watches.new trail.old trail.new) }
    ensures settled { IfOk result (λ found. IfNone found (AreGuarded watches.new log.now.clauses cone.now.members trail.new.literals
        trail.new.literals)) }
    ensures taken { IfOk result (λ found. IfNone found (trail.new.head ≡ length trail.new.literals)) }
    ensures conflict { IfOk result (λ found. IfSome found (λ number. IsNumberOf log.now.clauses number
        × AllFalse trail.new.literals (clause_at log.now.clauses number))) }
    ensures same_variables { trail.new.variables ≡ trail.old.variables }
{
    trail.keeps_invariant();
    while let Some(literal) = trail.take_next() {
        trail.keeps_invariant();
        if let Some(number) = take_literal(log, cone, watches, trail, literal)? {
            return Ok(Some(number));
        }
    }
    Ok(None)
}

/// Looks at the clauses that are found by the negation of the literal that was taken last; answers the number of one that is false.
fn take_literal(
    log: &Log,
    cone: &VariableSet,
    watches: &mut Watches,
    trail: &mut Trail,
    taken: Lit,
) -> Result<Option<u32>, AllocError>
    requires same_variables { trail.old.variables ≡ log.now.variables }
    requires cone_variables { cone.now.variables ≡ log.now.variables }
    requires watches { AreWatchesOf watches.old log.now.clauses }
    requires taking { IsTaking watches.old log.now.clauses cone.now.members trail.old taken }
    ensures goes_on { IfOk result (λ found. GoesOn log.now.clauses cone.now.members watches.old watches.new trail.old trail.new) }
    ensures guarded { IfOk result (λ found. IfNone found (AreGuarded watches.new log.now.clauses cone.now.members trail.new.literals
        (take trail.new.head trail.new.literals))) }
    ensures conflict { IfOk result (λ found. IfSome found (λ number. IsConflict log.now.clauses trail.new.literals number)) }
    ensures same_variables { trail.new.variables ≡ trail.old.variables }
{
    trail.keeps_invariant();
    let literal = taken.negated();
    let mut place = 0;
    while let Some(number) = watches.number_at(literal, place) {
        if is_blocked(log, watches, trail, literal, place, number) {
            trail.keeps_invariant();
            place += 1;
            continue;
        }
        if !look_again(log, cone, watches, trail, number, literal)? {
            return Ok(Some(number));
        }
        place = watches.pass(literal, place, number);
    }
    Ok(None)
}

/// Whether a clause, found at a place in a literal's list, has a blocker that is true: then it is not read.
fn is_blocked(
    log: &Log,
    watches: &Watches,
    trail: &Trail,
    literal: Lit,
    place: usize,
    number: u32,
) -> bool
    requires same_variables { trail.now.variables ≡ log.now.variables }
    requires watches { AreWatchesOf watches.now log.now.clauses }
    requires within { place < length (list_of watches.now literal) }
    requires number { number ≡ slice_index (list_of watches.now literal) place }
    ensures blocked { IsTrue result → HasTrueOne trail.now.literals (clause_at log.now.clauses number) }
    ensures short { length (list_of watches.now literal) < 2 ^ 64 }
{
    log.keeps_invariant();
    let blocker = watches.blocker(literal, place);
    trail.trues().is_true(blocker)
}

/// Looks at a clause where it is found by a literal that is false now; answers whether it is not false. It is not read where its
/// other watched literal lies outside the cone.
fn look_again(
    log: &Log,
    cone: &VariableSet,
    watches: &mut Watches,
    trail: &mut Trail,
    number: u32,
    literal: Lit,
) -> Result<bool, AllocError>
    requires same_variables { trail.old.variables ≡ log.now.variables }
    requires cone_variables { cone.now.variables ≡ log.now.variables }
    requires watches { AreWatchesOf watches.old log.now.clauses }
    ensures looks { IfOk result (λ fine. Looks log.now.clauses cone.now.members number literal watches.old watches.new
        trail.old trail.new fine) }
    ensures same_variables { trail.new.variables ≡ trail.old.variables }
{
    log.keeps_invariant();
    trail.keeps_invariant();
    if number == 0 || number > log.len() {
        return Ok(true);
    }
    let Some(other) = watches.other(number, literal) else {
        return Ok(true);
    };
    if !cone.contains(other.variable()) {
        return Ok(true);
    }
    look(log, cone, watches, trail, number, other)
}

/// Looks at a clause, whose one watched literal is false, by the other one: finds it by a third one that is not false, or makes
/// the other one true; answers whether the clause is not false.
fn look(
    log: &Log,
    cone: &VariableSet,
    watches: &mut Watches,
    trail: &mut Trail,
    number: u32,
    first: Lit,
) -> Result<bool, AllocError>
    requires same_variables { trail.old.variables ≡ log.now.variables }
    requires cone_variables { cone.now.variables ≡ log.now.variables }
    requires watches { AreWatchesOf watches.old log.now.clauses }
    requires from_one { 1 ≤ number }
    requires to_last { number ≤ length log.now.clauses }
    requires member { Contains (clause_at log.now.clauses number) first }
    requires within_cone { Contains cone.now.members first.variable }
    requires found { (l : Literal) × HasOther (pair_of watches.old number) l first }
    ensures looks { (l : Literal) → HasOther (pair_of watches.old number) l first → IfOk result (λ fine. Looks log.now.clauses
        cone.now.members number l watches.old watches.new trail.old trail.new fine) }
    ensures same_variables { trail.new.variables ≡ trail.old.variables }
{
    log.keeps_invariant();
    trail.keeps_invariant();
    let truth = trail.trues().status(first);
    if let Truth::True = truth {
        return Ok(true);
    }
    let clause = log.clause(number);
    let start = watches.place(number);
    if let Some(found) = trail.trues().free_from(clause, first, start) {
        watches.note_place(number, found.0);
        watches.move_to(number, first, found.1)?;
        return Ok(true);
    }
    if let Truth::False = truth {
        return Ok(false);
    }
    trail.push(first, number);
    Ok(true)
}
