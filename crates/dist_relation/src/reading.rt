//! The readers of an atom's parts, from left to right. Each gives what it read and the rest of the text.
ghost use Rattle.std.specs.Prelude.{◌≡◌, length};
ghost use Rattle.dist_relation.specs.ReadingPrivate.{Gives, name_at, qualifier_at, head_at, operator_of, operator_at, version_at, closing_at, bound_at, maybe_bound_at, end_at, atom_at};

use crate::atom::{Atom, Bound, Kind, Op, Qualifier};
use crate::bytes::{skip_space, split_name, split_operator, split_word};
use crate::error::{Fault, Problem, ReadError};
use crate::name::Name;
use dist_version::{Version, VersionError};
use std::alloc::Global;

/// The problem at the front of this text.
fn fault(problem: Problem, text: &[u8]) -> ReadError
    ensures { result ≡ ReadError.Fault (record { problem = problem; left = length text.now }) }
{
    ReadError::Fault(Fault {
        problem,
        left: text.len(),
    })
}

/// A name at the front.
#[tactic(auto, unfolding(crate::specs::ReadingPrivate::name_at))]
fn name_of(alloc: Global, text: &[u8]) -> Result<(Name, &[u8]), ReadError>
    ensures { Gives (λ x. (x.0, x.1.now)) result (name_at text.now) }
{
    match text {
        [first, ..] if first.is_ascii_alphanumeric() => {
            let (name, rest) = split_name(text);
            Ok((Name::from_bytes(alloc, name)?, rest))
        }
        _ => Err(fault(Problem::BadName, text)),
    }
}

/// A colon and a qualifier, where a colon stands at the front.
#[tactic(auto, unfolding(crate::specs::ReadingPrivate::qualifier_at))]
fn qualifier_of(alloc: Global, text: &[u8]) -> Result<(Qualifier, &[u8]), ReadError>
    ensures { Gives (λ x. (x.0, x.1.now)) result (qualifier_at text.now) }
{
    match text {
        [b':', after @ ..] => {
            let (name, rest) = name_of(alloc, after)?;
            Ok((Qualifier::Named(name), rest))
        }
        _ => Ok((Qualifier::Plain, text)),
    }
}

/// White space, a name, and perhaps a qualifier.
#[tactic(auto, unfolding(crate::specs::ReadingPrivate::head_at))]
fn head_of(alloc: Global, text: &[u8]) -> Result<(Name, Qualifier, &[u8]), ReadError>
    ensures { Gives (λ x. (x.0, x.1, x.2.now)) result (head_at text.now) }
{
    let (name, rest) = name_of(alloc, skip_space(text))?;
    let (qualifier, rest) = qualifier_of(alloc, rest)?;
    Ok((name, qualifier, rest))
}

/// The operator that these bytes are. The obsolete `<` and `>` stand for `<=` and `>=`.
fn op_of(operator: &[u8]) -> Option<Op>
    ensures { result ≡ operator_of operator.now }
{
    match operator {
        [b'<'] => Some(Op::Le),
        [b'='] => Some(Op::Eq),
        [b'>'] => Some(Op::Ge),
        [b'<', b'<'] => Some(Op::Lt),
        [b'<', b'='] => Some(Op::Le),
        [b'>', b'='] => Some(Op::Ge),
        [b'>', b'>'] => Some(Op::Gt),
        _ => None,
    }
}

/// An operator at the front, which values of this kind have.
#[tactic(auto, unfolding(crate::specs::ReadingPrivate::operator_at))]
fn operator_at(kind: Kind, text: &[u8]) -> Result<(Op, &[u8]), ReadError>
    ensures { Gives (λ x. (x.0, x.1.now)) result (operator_at kind text.now) }
{
    let (operator, rest) = split_operator(text);
    match op_of(operator) {
        None => Err(fault(Problem::BadOp, text)),
        Some(op) if kind.allows(op) => Ok((op, rest)),
        Some(_) => Err(fault(Problem::OpInProvides, text)),
    }
}

/// A version at the front, up to a byte that ends one.
#[tactic(auto, unfolding(crate::specs::ReadingPrivate::version_at))]
fn version_of(alloc: Global, text: &[u8]) -> Result<(Version, &[u8]), ReadError>
    ensures { Gives (λ x. (x.0, x.1.now)) result (version_at text.now) }
{
    let (word, rest) = split_word(text);
    match Version::read(alloc, word) {
        Ok(version) => Ok((version, rest)),
        Err(VersionError::NoMemory) => Err(ReadError::NoMemory),
        Err(error) => Err(fault(Problem::BadVersion(error), text)),
    }
}

/// What follows a closing parenthesis and white space.
#[tactic(auto, unfolding(crate::specs::ReadingPrivate::closing_at))]
fn after_closing(text: &[u8]) -> Result<&[u8], ReadError>
    ensures { Gives (λ x. x.now) result (closing_at text.now) }
{
    match text {
        [b')', after @ ..] => Ok(skip_space(after)),
        _ => Err(fault(Problem::Unclosed, text)),
    }
}

/// A bound, behind its opening parenthesis.
#[tactic(auto, unfolding(crate::specs::ReadingPrivate::bound_at))]
fn bound_of(alloc: Global, kind: Kind, text: &[u8]) -> Result<(Bound, &[u8]), ReadError>
    ensures { Gives (λ x. (x.0, x.1.now)) result (bound_at kind text.now) }
{
    let (op, rest) = operator_at(kind, skip_space(text))?;
    let (version, rest) = version_of(alloc, skip_space(rest))?;
    let rest = after_closing(skip_space(rest))?;
    Ok((Bound { op, version }, rest))
}

/// A bound, where an opening parenthesis stands at the front.
#[tactic(auto, unfolding(crate::specs::ReadingPrivate::maybe_bound_at))]
fn maybe_bound_of(
    alloc: Global,
    kind: Kind,
    text: &[u8],
) -> Result<(Option<Bound>, &[u8]), ReadError>
    ensures { Gives (λ x. (x.0, x.1.now)) result (maybe_bound_at kind text.now) }
{
    match text {
        [b'(', after @ ..] => {
            let (bound, rest) = bound_of(alloc, kind, after)?;
            Ok((Some(bound), rest))
        }
        _ => Ok((None, text)),
    }
}

/// What follows an atom: the end, a comma, or a bar where alternatives are allowed.
#[tactic(auto, unfolding(crate::specs::ReadingPrivate::end_at))]
fn check_end(kind: Kind, text: &[u8]) -> Result<(), ReadError>
    ensures { Gives (λ _. text.now) result (end_at kind text.now) }
{
    match text {
        [] | [b',', ..] => Ok(()),
        [b'|', ..] if kind.allows_bar() => Ok(()),
        [b'|', ..] => Err(fault(Problem::BarNotAllowed, text)),
        _ => Err(fault(Problem::Trailing, text)),
    }
}

/// An atom and the white space round it.
#[tactic(auto, unfolding(crate::specs::ReadingPrivate::atom_at))]
pub(crate) fn atom_of(alloc: Global, kind: Kind, text: &[u8]) -> Result<(Atom, &[u8]), ReadError>
    ensures { Gives (λ x. (x.0, x.1.now)) result (atom_at kind text.now) }
{
    let (name, qualifier, rest) = head_of(alloc, text)?;
    let (bound, rest) = maybe_bound_of(alloc, kind, skip_space(rest))?;
    check_end(kind, rest)?;
    Ok((
        Atom {
            name,
            qualifier,
            bound,
        },
        rest,
    ))
}
