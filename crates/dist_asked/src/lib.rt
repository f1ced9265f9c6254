//! Which places of a list of atoms have to be asked: each of the other atoms allows no more than one of these. Of many bounds
//! on one name one for each operator is enough, and of those for one version one for each version; so what is asked of a list
//! does not cost the product of its atoms and of what each of them matches.
#![tactic(auto)]

mod order;
mod placed;
mod places;
mod within;

pub use places::AskedPlaces;
