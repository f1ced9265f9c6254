//! Whole certificates over repositories of a few stanzas: which are accepted, and why the others are refused. Tests alone.
#![tactic(auto)]

#[cfg(test)]
mod accepted;
#[cfg(test)]
mod faults;
#[cfg(test)]
mod future_certificates;
#[cfg(test)]
mod future_faults;
#[cfg(test)]
mod limits;
