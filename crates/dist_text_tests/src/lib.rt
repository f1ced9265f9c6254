//! Values that are read from text: versions, relations, and the stanzas of control texts. Tests alone.
#![tactic(auto)]

#[cfg(test)]
use std::process::Abort;

#[cfg(test)]
mod control_texts;
#[cfg(test)]
mod relations;
#[cfg(test)]
mod versions;

/// Ends the run where a row is wrong, and tells it.
#[cfg(test)]
fn hold(rt: &impl Abort, wrong: Option<&str>) {
    if let Some(row) = wrong {
        assert!(rt; false, "{row}");
    }
}
