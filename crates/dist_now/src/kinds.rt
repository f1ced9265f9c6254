//! The kinds of fault, in the order in which they are looked for.

/// What is wrong with an installation. Packages are given by their numbers, and items by their places, both from 0.
#[derive(Clone, Copy, Debug, PartialEq, Eq)]
pub enum Health {
    Healthy,
    /// Two members of one name.
    TwoVersions(u32, u32),
    /// A member, and an item of its dependencies that no member meets.
    Unmet(u32, u32),
    /// Two members in conflict.
    Conflict(u32, u32),
    /// An essential package whose name no member has.
    EssentialMissing(u32),
}
