//! The history of an archive as it is told: the lines of a plan, the line that says why there is none, and the lines of a journal
//! that was followed.
//!
//! The texts are defined in `specs/PlanText.antt` and `specs/FollowText.antt`. Each is written into one vector, in one walk.
#![tactic(auto)]

mod followed;
mod laws;
mod step_lines;
mod texts;

pub use followed::{counts_text, write_broken_list};
pub use laws::{challenged_packages_need_the_cluster, missing_packages_mend_nothing};
pub use texts::{misfit_text, plan_text};
