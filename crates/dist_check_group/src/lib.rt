//! What a checker keeps of the latest installations and of a claim's group, and the rules of a claim on strong
//! dependencies or on challenges.
//!
//! Small installations are rising lists, looked up by halving, and large ones rows of bits, compared by words: what all of a
//! claim's installations have, which clusters they use, and what one of them holds. Of what they share only that is looked for
//! which the claim does not list. A claim on challenges costs its lists, the classes of the clusters that the group's
//! installations use, or else the smallest one that it names, and a bit for each variable. Where that one is a row too, it costs
//! the classes of those clusters alone that all rows use. Each one that it names costs its members, or a word for 64 variables
//! and 64 clusters where it is a row. There is no other walk over all clusters, variables or packages: a cluster that is left is
//! looked for among the members of small installations first, and among the clusters of large ones.
#![tactic(auto)]

mod challenge;
mod closed;
mod cover;
mod found;
mod group;
mod held;
mod kept;
mod layout;
mod marks;
mod number_set;
mod numbers;
mod rules;
mod window;

pub use challenge::{ChallengeClaim, judge_challenge};
pub use group::Group;
pub use layout::Layout;
pub use numbers::{has, is_rising};
pub use rules::{StrongClaim, judge_rules};
pub use window::Window;
