//! Which relations a question is on.
ghost use Rattle.std.specs.Prelude.{◌≡◌, ◌↔◌, ◌+◌, ◌++◌, ◌<◌, ◌^◌, ◌∷◌, [], All, Contains, IfOk, IsTrue, OnOk};
ghost use Rattle.std.specs.List.{range_with_len};
ghost use Rattle.dist_cert.specs.Rising.{AreRising};
ghost use Rattle.dist_explain.specs.Answered.{IsOfRelation};
ghost use Rattle.dist_explain_search.specs.SearchPrivate.{others_of, question_of};

use dist_check_group::has;
use dist_explain::Asked;
use std::alloc::{AllocError, Global};

/// The numbers of so many relations.
pub(crate) fn all_numbers(alloc: Global, count: u32) -> Result<Vec<u32>, AllocError>
    ensures { IfOk result (λ numbers. numbers.items ≡ range_with_len 1 count) }
{
    let mut numbers = Vec::new(alloc);
    for place in 0..count {
        numbers.push(place + 1)?;
    }
    Ok(numbers)
}

/// The numbers but for one.
pub(crate) fn all_but(alloc: Global, numbers: &[u32], one: u32) -> Result<Vec<u32>, AllocError>
    ensures { IfOk result (λ others. others.items ≡ others_of numbers.now one) }
{
    let mut others = Vec::new(alloc);
    for number in numbers {
        if *number != one {
            others.push(*number)?;
        }
    }
    Ok(others)
}

/// Whether a number is one of the core and none of those that are done.
pub(crate) fn is_open(core: &[u32], done: &[u32], one: u32) -> bool
    requires { AreRising core.now }
    ensures { IsTrue result ↔ (Contains core.now one × (¬ Contains done.now one)) }
{
    has(core, one) && !done.contains(&one)
}

/// Adds a number.
pub(crate) fn add(numbers: &mut Vec<u32>, number: u32) -> Result<(), AllocError>
    ensures { OnOk result (numbers.new.items ≡ numbers.old.items ++ number ∷ []) }
{
    numbers.push(number)?;
    Ok(())
}

/// Some numbers and others behind them.
pub(crate) fn joined(alloc: Global, first: &[u32], others: &[u32]) -> Result<Vec<u32>, AllocError>
    ensures { IfOk result (λ both. both.items ≡ first.now ++ others.now) }
{
    let mut both = first.to_vec(alloc)?;
    both.extend_from_slice(others)?;
    Ok(both)
}

/// The question of the package and some relations.
pub(crate) fn question_of(
    alloc: Global,
    asked: &Asked,
    numbers: &[u32],
) -> Result<Vec<(u32, bool)>, AllocError>
    requires range { All (IsOfRelation asked.now) numbers.now }
    requires fits { asked.now.packages + asked.now.relations < 2 ^ 32 }
    ensures { IfOk result (λ question. question.items ≡ question_of asked.now numbers.now) }
{
    let mut question = Vec::new(alloc);
    question.push((asked.number, true))?;
    for number in numbers {
        question.push((asked.packages + *number, true))?;
    }
    Ok(question)
}
