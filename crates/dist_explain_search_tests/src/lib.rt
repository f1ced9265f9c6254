//! Explanations of packages of small repositories, searched for and then checked. Tests alone.
#![tactic(auto)]

#[cfg(test)]
mod explanations;
