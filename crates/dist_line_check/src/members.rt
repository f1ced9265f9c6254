//! The variables of an installation as a set, in which each is found by its place.
ghost use Rattle.std.specs.Prelude.{◌≡◌, ◌≤◌, [], All};
ghost use Rattle.dist_cert.specs.Rising.{is_among};
ghost use Rattle.dist_derive.specs.VariableSet.{GivesTrue};

use dist_derive::VariableSet;

/// Puts listed variables into an empty set.
pub(crate) fn fill(set: &mut VariableSet, listed: &[u32])
    requires empty { set.old.members ≡ [] }
    requires in_range { All (λ v. (1 ≤ v) × (v ≤ set.old.variables)) listed.now }
    ensures same_variables { set.new.variables ≡ set.old.variables }
    ensures trues { GivesTrue (is_among listed.now) set.new.members }
{
    for variable in listed {
        set.include(*variable);
    }
}
