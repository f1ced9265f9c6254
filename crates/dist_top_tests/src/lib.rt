//! The top call on memory desks: a file of rows for each command, each status, and want of memory. Tests alone.
#![tactic(auto)]

#[cfg(test)]
use dist_top_rows::Wrong;
#[cfg(test)]
use std::alloc::AllocError;
#[cfg(test)]
use std::process::Abort;

#[cfg(test)]
mod check_explain_rows;
#[cfg(test)]
mod check_rows;
#[cfg(test)]
mod classes_reports;
#[cfg(test)]
mod classes_rows;
#[cfg(test)]
mod essential_rows;
#[cfg(test)]
mod explain_rows;
#[cfg(test)]
mod follow_rows;
#[cfg(test)]
mod fronts;
#[cfg(test)]
mod futures_rows;
#[cfg(test)]
mod health_rows;
#[cfg(test)]
mod memory_rows;
#[cfg(test)]
mod repair_rows;
#[cfg(test)]
mod status_rows;
#[cfg(test)]
mod steps_rows;
#[cfg(test)]
mod strong_rows;
#[cfg(test)]
mod trial_rows;
#[cfg(test)]
mod words_rows;

/// Ends the run where a row of some tables is wrong, and tells it.
#[cfg(test)]
fn hold(rt: &impl Abort, wrong: Result<Option<Wrong>, AllocError>) {
    match wrong {
        Ok(None) => {}
        Ok(Some(wrong)) => assert!(rt; false, "{}, row {}: {}", wrong.table, wrong.row, wrong.what),
        Err(_) => assert!(rt; false, "no memory"),
    }
}
