//! The futures of small repositories: their variables, their clauses, and what an assignment stands for. Tests alone.
#![tactic(auto)]

#[cfg(test)]
mod assignments;
#[cfg(test)]
mod counters;
#[cfg(test)]
mod future_clauses;
#[cfg(test)]
mod future_health;
#[cfg(test)]
mod repairs;
#[cfg(test)]
mod spaces;
#[cfg(test)]
mod variables;
