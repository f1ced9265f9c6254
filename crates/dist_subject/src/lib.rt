//! What certificates are judged by: the packages as they are and the clauses of the present, or the futures of the packages and
//! the clauses of their space. The writer of certificates, their checker and the top call cite these definitions.
#![tactic(auto)]

mod inputs;
mod laws;
mod limit_laws;
mod pair_laws;

pub use inputs::{LaterInputs, later_inputs, present_inputs, too_large};
pub use laws::{bases_are_one, futures_are_of_the_packages, models_are_healthy};
pub use limit_laws::first_numbers_are_one;
pub use pair_laws::pairs_are_of_the_space;
