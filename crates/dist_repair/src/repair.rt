//! What is answered of a package.
use dist_clause::Assignment;

/// How many clusters must move so that a package can be installed. With a number stand the truth values of the variables, in
/// which so many clusters have a class that is true.
#[derive(Debug, Drop)]
pub enum Repair {
    /// It can't be installed, however many move.
    Outdated,
    /// So many are enough, and fewer are not.
    Least(u32, Assignment),
    /// Fewer are not enough; whether the number is undecided; and a number that is enough, if one is known.
    AtLeast(u32, bool, Option<(u32, Assignment)>),
}
