//! Sweeps over small repositories, and whole trials. Tests alone.
#![tactic(auto)]

#[cfg(test)]
mod sweeps;
#[cfg(test)]
mod trials;
