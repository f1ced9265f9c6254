//! What a search chooses: the order of decisions, with the value of each, and when to begin again from the assumptions.
//!
//! Nothing here has a contract but that it is safe and ends. A search tests what it is given, so that these choices may change
//! without a proof; what they cost and save is measured.
#![tactic(auto)]

mod order;
mod restarts;

pub use order::Order;
pub use restarts::{Due, Restarts};
