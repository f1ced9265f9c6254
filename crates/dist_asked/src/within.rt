//! Whether an atom allows no more than another one.
ghost use Rattle.std.specs.Prelude.{◌≡◌, IsTrue};
ghost use Rattle.dist_asked.specs.Within.{IsBoundWithin, IsWithin, MeetsToo};
ghost use Rattle.dist_asked.specs.PlacedPrivate.{carries_over};

use dist_relation::{Atom, Bound, Op};
use std::cmp::Ordering;

/// Whether what meets a bound meets another one by the same operator, by the order of their versions.
fn carries_over(op: Op, order: Ordering) -> bool
    ensures { result ≡ carries_over op order }
{
    match op {
        Op::Lt | Op::Le => order.is_le(),
        Op::Eq => order.is_eq(),
        Op::Ge | Op::Gt => order.is_ge(),
    }
}

/// Whether the bounds have one operator, and each version that meets the first meets the second.
fn meets_too(bound: &Bound, other: &Bound) -> bool
    ensures { IsTrue result → MeetsToo bound.now other.now }
{
    bound.op == other.op && carries_over(bound.op, bound.version.compare(&other.version))
}

/// The same of bounds that may be missing.
fn is_bound_within(bound: &Option<Bound>, other: &Option<Bound>) -> bool
    ensures { IsTrue result → IsBoundWithin bound.now other.now }
{
    match (bound, other) {
        (None, None) => true,
        (None, Some(_)) => false,
        (Some(_), None) => true,
        (Some(bound), Some(other)) => meets_too(bound, other),
    }
}

/// Whether an atom has the name and the qualifier of another one, and a bound that allows no more.
pub(crate) fn is_within(atom: &Atom, other: &Atom) -> bool
    ensures { IsTrue result → IsWithin atom.now other.now }
{
    atom.name == other.name
        && atom.qualifier == other.qualifier
        && is_bound_within(&atom.bound, &other.bound)
}
