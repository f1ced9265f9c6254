//! Clauses, derived lines, and the search behind a question. Tests alone.
#![tactic(auto)]

#[cfg(test)]
mod clause_index;
#[cfg(test)]
mod clauses;
#[cfg(test)]
mod derived_lines;
#[cfg(test)]
mod questions;
