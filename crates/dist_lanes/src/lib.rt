//! Rows of bits, 64 places in a word, taken eight words at a time where two rows are compared or joined.
//!
//! A row is seen as the list of its truth values, and each call says what it means for that list, at every length. The bits
//! of the last word behind the last place are false, so no call masks them.
#![tactic(auto)]

mod row;
mod words;

pub use row::Row;
