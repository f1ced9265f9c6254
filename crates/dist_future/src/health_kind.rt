//! The kinds of fault, in the order in which they are looked for.

/// What is wrong with an assignment. Variables are given from 1, places of items and numbers of packages from 0.
#[derive(Clone, Copy, Debug, PartialEq, Eq)]
pub enum FutureHealth {
    Healthy,
    /// Two variables that exclude each other, or one and what it needs.
    NotAFuture(u32, u32),
    /// The variable of a package as it is today, and an item of it that nothing meets.
    Unmet(u32, u32),
    /// The variables of a package as it is today and of what it is in conflict with.
    Conflict(u32, u32),
    /// An essential package whose name nothing that is installed has.
    EssentialMissing(u32),
}
