//! Assignments copied, joined, and walked from one true variable to the next.
ghost use Rattle.std.specs.Prelude.{◌≡◌, ◌<◌, IfSome, length};

use crate::rows::multiple;
use dist_clause::Assignment;
use std::alloc::Global;

/// An assignment whose true variables are the multiples of a step.
fn assigned(alloc: Global, variables: u32, step: u32) -> Option<Assignment>
    requires { 0 < step }
    ensures { IfSome result (λ values. length values ≡ variables) }
{
    let mut values = Assignment::new(alloc, variables).ok()?;
    for variable in 1..=variables {
        if variable % step == 0 {
            values.set(variable, true);
        }
    }
    Some(values)
}

/// Whether exactly the multiples of a step are true, one by one and by the walk.
fn has_multiples(values: &Assignment, variables: u32, step: u32) -> bool
    requires step { 0 < step }
    requires variables { length values.now ≡ variables }
{
    for variable in 1..=variables {
        let next = multiple(variable as usize, step as usize, variables as usize + 1);
        if values.value(variable) != (next == Some(variable as usize)) {
            return false;
        }
        if values.next_true(variable).map(|v| v as usize) != next {
            return false;
        }
    }
    values.next_true(0) == values.next_true(1)
}

/// Whether the multiples of 3 and those of 2 have those of 6 in common.
fn are_joined(alloc: Global, variables: u32) -> Option<bool> {
    let thirds = assigned(alloc, variables, 3)?;
    let seconds = assigned(alloc, variables, 2)?;
    let mut values = Assignment::new(alloc, variables).ok()?;
    values.copy_from(&thirds);
    let copied = has_multiples(&values, variables, 3);
    values.and_into(&seconds);
    Some(copied && has_multiples(&values, variables, 6))
}

#[test]
fn assignments_are_joined(rt: HostRuntime) {
    for variables in [0u32, 1, 64, 65, 1_027] {
        assert_eq!(rt; are_joined(rt.alloc(), variables), Some(true));
    }
}
