//! Reports: the texts that tell what was found, in YAML 1.2.
//!
//! Each text is one vector and a few walks over the claims. No string needs an escape, which is a law.
#![tactic(auto)]

mod challenged_report;
mod claim_parts;
mod class_table;
mod classes_report;
mod explained_lines;
mod health_line;
mod impact;
mod labels;
mod laws;
mod lines;
mod marks;
mod outdated_report;
mod repair_lines;
mod report_text;
mod room;
mod strong_report;

pub use classes_report::classes_text;
pub use explained_lines::explained_text;
pub use health_line::health_text;
pub use laws::{classes_texts_are_one, reports_are_one, strings_are_plain};
pub use lines::{print_cluster, print_label};
pub use marks::some_has_mark;
pub use repair_lines::repair_text;
pub use report_text::text;
