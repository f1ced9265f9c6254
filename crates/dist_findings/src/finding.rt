//! What lines find.
use dist_cert::{Literals, Numbers};

/// What a line finds.
#[derive(Debug, Drop)]
pub enum Finding {
    /// A question that is closed as refuted, by its assumptions.
    Refuted(Literals),
    /// A question that is closed as undecided.
    LeftUndecided(Literals),
    /// An installation, by its true variables, which rise.
    Installed(Numbers),
}
