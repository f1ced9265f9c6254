//! The quick phase of a question: a guess at its answer, which nobody has to trust.
//!
//! Nearly all questions about an archive are settled without one conflict below a decision. So clauses are looked at only
//! where all variables that they negate are true, a decision takes one alternative of a clause that none makes true yet, and
//! after a few conflicts that no unit clauses explain the guess is given up. What it costs is what it touches: what follows from
//! the first assumption stays while the next questions have the same one, of two first assumptions (`kept.rt`), and an open
//! clause is looked at again where an alternative of it became false (`open.rt`). Below it stays what follows from a hub, which many
//! first assumptions need (`hub.rt`), themselves or through other packages (`needs.rt`).
//!
//! Who asks tests the guess before it leaves: a model by the clauses that its true variables are negated in, a refutation by its
//! hints. Therefore it is proved here that each call is safe and ends, and nothing else; what is tried first may change freely.
#![tactic(auto)]

mod backward;
mod choice;
mod clauses;
mod descent;
mod forward;
mod hub;
mod kept;
mod long;
mod needs;
mod open;
mod question;
mod shunned;
mod trail;

pub use question::{Guess, Quick};
pub use shunned::Shunning;
