//! The order in which the atoms of a list are gone through: those of one name, qualifier and operator stand together, the widest
//! first. What is asked rests on no order, so no clause speaks of it: it costs time alone.
use dist_relation::{Atom, Bound, Op, Qualifier};
use std::cmp::Ordering;

/// A number of its own for each operator.
fn rank_of(op: Op) -> u8 {
    match op {
        Op::Lt => 1,
        Op::Le => 2,
        Op::Eq => 3,
        Op::Ge => 4,
        Op::Gt => 5,
    }
}

fn compare_qualifiers(one: &Qualifier, other: &Qualifier) -> Ordering {
    match (one, other) {
        (Qualifier::Plain, Qualifier::Plain) => Ordering::Equal,
        (Qualifier::Plain, Qualifier::Named(_)) => Ordering::Less,
        (Qualifier::Named(_), Qualifier::Plain) => Ordering::Greater,
        (Qualifier::Named(name), Qualifier::Named(other)) => name.bytes().cmp(other.bytes()),
    }
}

/// By operator, and then by version: the greatest first where the bound is from above.
fn compare_given(one: &Bound, other: &Bound) -> Ordering {
    let by_op = rank_of(one.op).cmp(&rank_of(other.op));
    if by_op.is_ne() {
        return by_op;
    }
    match one.op {
        Op::Lt | Op::Le => other.version.compare(&one.version),
        Op::Eq | Op::Ge | Op::Gt => one.version.compare(&other.version),
    }
}

fn compare_bounds(one: &Option<Bound>, other: &Option<Bound>) -> Ordering {
    match (one, other) {
        (None, None) => Ordering::Equal,
        (None, Some(_)) => Ordering::Less,
        (Some(_), None) => Ordering::Greater,
        (Some(one), Some(other)) => compare_given(one, other),
    }
}

/// By name, then by qualifier, and then by bound.
pub(crate) fn compare(one: &Atom, other: &Atom) -> Ordering {
    let by_name = one.name.bytes().cmp(other.name.bytes());
    if by_name.is_ne() {
        return by_name;
    }
    let by_qualifier = compare_qualifiers(&one.qualifier, &other.qualifier);
    if by_qualifier.is_ne() {
        return by_qualifier;
    }
    compare_bounds(&one.bound, &other.bound)
}
