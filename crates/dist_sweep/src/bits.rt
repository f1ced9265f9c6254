//! The true variables of assignments, and conjunctions of two.
ghost use Rattle.std.specs.Prelude.{◌≡◌, ◌<◌, ◌≤◌, ◌&&◌, ℕ, false, true, IfNone, IfSome, length};
ghost use Rattle.dist_clause.specs.Formula.{value_of};

use dist_clause::Assignment;

/// The first true variable from a number on.
pub fn next_true(values: &Assignment, variables: u32, from: u32) -> Option<u32>
    requires { length values.now ≡ variables }
    ensures some { IfSome result (λ v. (1 ≤ v) × (from ≤ v) × (v ≤ length values.now) × (value_of values.now v ≡ true)
        × ((w : ℕ) → 1 ≤ w → from ≤ w → w < v → value_of values.now w ≡ false)) }
    ensures none { IfNone result ((w : ℕ) → 1 ≤ w → from ≤ w → w ≤ length values.now → value_of values.now w ≡ false) }
{
    values.next_true(from)
}

/// Gives each variable the value that it has in another assignment.
pub fn copy_from(target: &mut Assignment, values: &Assignment, variables: u32)
    requires target { length target.old ≡ variables }
    requires values { length values.now ≡ variables }
    ensures { target.new ≡ values.now }
{
    target.copy_from(values);
}

/// Leaves true what is true in both.
pub fn and_into(target: &mut Assignment, values: &Assignment, variables: u32)
    requires target { length target.old ≡ variables }
    requires values { length values.now ≡ variables }
    ensures same { length target.new ≡ length target.old }
    ensures both { (v : ℕ) → 1 ≤ v → v ≤ length target.old → value_of target.new v ≡ (value_of target.old v && value_of values.now v) }
{
    target.and_into(values);
}
