//! Control text (Debian Policy 5.1): stanzas of fields, read as slices of the text.
//!
//! A reader hands out the stanzas of a text one by one, each line looked at once by `memchr`; no byte is copied. A stanza of
//! many fields costs no square: a mark for each name says that no earlier field can have it. A stanza with a fault ends the
//! reading for good.
#![tactic(auto)]

mod error;
mod field;
mod field_list;
mod laws;
mod line;
mod marks;
mod names;
mod reader;

pub use error::ControlError;
pub use field::trimmed;
pub use field_list::{Field, Fields, Stanza};
pub use laws::{one_list_or_fault, one_reading_or_fault, values_take_bytes};
pub use line::split_line;
pub use reader::Stanzas;
