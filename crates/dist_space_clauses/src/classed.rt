//! What has classes that do not hold together: a cluster, and a new name.
ghost use Rattle.std.specs.Prelude.{◌≡◌, ◌≢◌, ◌≤◌, ◌<◌, ℕ, MatchOption, length};
ghost use Rattle.dist_base.specs.declared.TheConstants.{MAX_VARIABLES};
ghost use Rattle.dist_space_clauses.specs.GroupsPrivate.{class_of, classes_of};
ghost use Rattle.dist_space.specs.Space.{variable_of};

use dist_space::{Meaning, Space};

/// Whose classes they are.
#[derive(Clone, Copy)]
pub(crate) enum Classed {
    Cluster,
    Name,
}

impl Classed {
    /// How many classes the one of a number has.
    pub(crate) fn class_count(self, space: &Space, number: u32) -> u32
        ensures { result ≡ length (classes_of space.now self number) }
    {
        match self {
            Classed::Cluster => space.class_count(number),
            Classed::Name => space.name_class_count(number),
        }
    }

    /// The variable of a class of the one of a number.
    pub(crate) fn variable(self, space: &Space, number: u32, class: u32) -> u32
        requires { class < length (classes_of space.now self number) }
        ensures value { result ≡ variable_of space.now (class_of self number class) }
        ensures from_one { 1 ≤ result }
        ensures stated { result ≤ MAX_VARIABLES }
    {
        match self {
            Classed::Cluster => space.variable(&Meaning::At(number, class)),
            Classed::Name => space.variable(&Meaning::Fresh(number, class)),
        }
    }

    /// Whose class a meaning is, and which.
    pub(crate) fn class_of(self, meaning: Meaning) -> Option<(u32, u32)>
        ensures { MatchOption result ((number class : ℕ) → meaning ≢ class_of self number class) (λ found. meaning ≡ class_of self found.0 found.1) }
    {
        match (self, meaning) {
            (Classed::Cluster, Meaning::At(number, class)) => Some((number, class)),
            (Classed::Name, Meaning::Fresh(number, class)) => Some((number, class)),
            _ => None,
        }
    }
}
