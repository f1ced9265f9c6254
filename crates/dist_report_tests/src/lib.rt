//! Reports, whole, over repositories of a few stanzas. Tests alone.
#![tactic(auto)]

#[cfg(test)]
mod claim_reports;
#[cfg(test)]
mod explained;
#[cfg(test)]
mod reports;
