//! The solver and the quick phase, each of their answers and lines tested: pigeons in holes, worked rows, and small clause sets
//! compared with trying all assignments. Tests alone.
#![tactic(auto)]

#[cfg(test)]
mod again;
#[cfg(test)]
mod answers;
#[cfg(test)]
mod literals;
#[cfg(test)]
mod pigeons;
#[cfg(test)]
mod quick;
#[cfg(test)]
mod rows;
#[cfg(test)]
mod shunned;
#[cfg(test)]
mod small_sets;
#[cfg(test)]
mod tested;
