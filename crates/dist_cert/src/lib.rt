//! Certificates as text: the records of their lines, their writer and their reader, and when a text is accepted.
//!
//! Acceptance is defined over plain data (`specs/Accepted.antt`), for all kinds at once; sweeps and the checker put in theirs.
//! A reader keeps one line, and its numbers once; a writer one line. A change of a form changes `docs/CERTIFICATES.md`.
#![tactic(auto)]

mod clear_forms;
mod decoding;
mod examples;
mod faults;
mod first_lines;
mod forms;
mod laws;
mod line_text;
mod lines;
mod lists;
mod loose_words;
mod pieces;
mod reading;
mod records;
mod rules;
mod spelling;
mod writing;

pub use clear_forms::forms_are_clear;
pub use examples::{edits_are_refused, examples_are_accepted};
pub use faults::{CertCause, CertFault, ReadCertError};
pub use first_lines::{first_line_numbers, first_line_text};
pub use laws::{one_form, reader_is_exact, written_is_read};
pub use lists::{Claims, Items, Literals, Numbers, Pairs};
pub use reading::Reader;
pub use records::{CertKind, CertRecord, Claim, Header};
pub use writing::Writer;

/// How many installations a claim may reach back.
pub const REACH: usize = 1_024;
