//! Whole files, Packages, LIST and made archives, and what they go through: desks and sinks in memory and of the system, lists kept
//! flat, and the words of the command line. Tests alone.
#![tactic(auto)]

#[cfg(test)]
mod archives;
#[cfg(test)]
mod command_words;
#[cfg(test)]
mod desks;
#[cfg(test)]
mod files;
#[cfg(test)]
mod flat_lists;
#[cfg(test)]
mod lists;
