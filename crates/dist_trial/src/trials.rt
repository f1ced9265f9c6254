//! What is told of a trial.

/// A trial that was carried out.
#[derive(Debug, Drop)]
pub struct Trial {
    /// The lines of its summary.
    pub summary: Vec<u8>,
    /// Whether something is left undecided.
    pub undecided: bool,
}
