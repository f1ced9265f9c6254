//! The lines of certificates, read and written, and the rules of a claim and of a line. Tests alone.
#![tactic(auto)]

#[cfg(test)]
mod claim_rules;
#[cfg(test)]
mod line_faults;
#[cfg(test)]
mod line_lists;
#[cfg(test)]
mod line_texts;
#[cfg(test)]
mod states;
