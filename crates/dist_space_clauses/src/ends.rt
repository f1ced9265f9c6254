//! Where groups of a space's clauses end.

/// How many clauses stand up to the ends of three groups. Those up to `early` and those from there on behind `today` up to `after`
/// say what a future is; the others say what is installed in it.
#[derive(Clone, Copy, Debug, PartialEq, Eq)]
pub struct FutureEnds {
    /// In groups 1 to 3. Items and conflicts begin behind them.
    pub early: u32,
    /// In groups 1 to 5. The clauses of the archive of today begin behind them.
    pub today: u32,
    /// In groups 1 to 6. The clauses of essential names begin behind them.
    pub after: u32,
}
