//! How files are judged line by line, whatever their first lines say: the first fault of a text, its one verdict, and where a
//! reader of it stops. The promises are laws over texts of any kind of file.
#![tactic(auto)]

mod faults;

pub use faults::bad_heading;
