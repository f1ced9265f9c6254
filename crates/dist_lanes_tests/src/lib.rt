//! Rows of bits at lengths round a word and eight words, and assignments over them. Tests alone.
#![tactic(auto)]

#[cfg(test)]
mod assignments;
#[cfg(test)]
mod rows;
