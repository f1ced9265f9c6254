//! Archives that change by steps, one after another, from a flat repository on: uploads of source clusters, removals, and
//! packages of new names.
//!
//! The steps are defined in `specs/Steps.antt`, and the reasons to refuse one in `specs/Refusals.antt`. What an archive holds is
//! always a future of its repository. Names are found by halving and in an ordered map; a step costs what it brings and
//! what it takes away, whatever the sizes of the archive and of the cluster that it names. Packages that stay are not copied.
#![tactic(auto)]

mod archive;
mod bringing;
mod carried;
mod entry_places;
mod finding;
mod fitting;
mod laws;
mod members;
mod moved;
mod new_names;
mod plan;
mod planning;
mod reaching;
mod slots;
mod step;
mod uploads;

pub use archive::{Archive, start};
pub use laws::{
    challenges_hold_after_steps, clusters_are_whole, futures_are_reached, lists_of_steps_grow,
    steps_have_one_answer, steps_reach_futures,
};
pub use plan::{Plan, ReachError};
pub use reaching::reach;
pub use step::{Step, StepError};
pub use uploads::has_other_architecture;
