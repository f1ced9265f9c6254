//! The search for an explanation: few relations that keep a package from being installed, each shown to be needed.
//!
//! The first question is on all relations. Where it is refuted, the core are those of the refutation by units that names the
//! fewest (`costs.rt`, a guess), or else those that its hints name. Then one relation of the core after another is left out: an
//! installation shows that it is needed, and a refutation makes the core smaller by its own hints. An installation counts only
//! behind the last refutation, so each relation of the last core is left out once more: about twice as many questions as the core
//! has relations, each as long as the core. What is found is noted as the checker notes it (dist_explain), so that the file is
//! accepted with the answer.
#![tactic(auto)]

mod costs;
mod file;
mod hinted;
mod questions;
mod search;

pub use file::explain;
