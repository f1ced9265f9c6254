//! What is answered of small repositories: matches, conflicts, providers, what is asked of lists, health, the clauses of the
//! present and their selectors, files of explanations, clusters and classes. Tests alone.
#![tactic(auto)]

#[cfg(test)]
mod asked;
#[cfg(test)]
mod builder;
#[cfg(test)]
mod classes;
#[cfg(test)]
mod clusters;
#[cfg(test)]
mod explanations;
#[cfg(test)]
mod health;
#[cfg(test)]
mod present_clauses;
#[cfg(test)]
mod repositories;
#[cfg(test)]
mod selectors;
