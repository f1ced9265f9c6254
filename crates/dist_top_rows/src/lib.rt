//! Rows of the top call on memory desks: what it is run on, what it must come to, how a row runs, and the rows that several crates
//! of tests share. For tests alone.
#![tactic(auto)]

pub mod check_explain_rows;
pub mod check_rows;
pub mod classes_rows;
pub mod essential_rows;
pub mod explain_rows;
pub mod follow_rows;
pub mod futures_rows;
pub mod health_rows;
pub mod repair_rows;
mod row;
mod running;
pub mod steps_rows;
pub mod strong_rows;
pub mod trial_rows;
pub mod words_rows;

pub use row::{After, EMPTY, Failing, NOTHING, Row, Table};
pub use running::{Ended, SINK_STEP, Wrong, carried_out, desk_of, first_wrong, wrong_in, wrong_of};
