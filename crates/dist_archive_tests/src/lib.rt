//! Archives of a few packages: what steps leave, why they are refused, and the plans of later archives. Tests alone.
#![tactic(auto)]

#[cfg(test)]
mod archives;
#[cfg(test)]
mod plans;
#[cfg(test)]
mod refused_steps;
#[cfg(test)]
mod steps;
