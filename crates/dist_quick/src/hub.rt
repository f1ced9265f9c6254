//! A hub: a package that the first assumptions of many questions need, and of which all that it asks for is dear to look at.

use dist_clause::Lit;

/// From so many literals in the clauses that negate it a variable is dear.
const DEAR: usize = 1024;

/// The true variable whose clauses have most literals, of those that were looked at.
#[derive(Clone, Copy, Debug)]
pub(crate) struct Heaviest {
    pub(crate) hub: Option<Lit>,
    pub(crate) cost: usize,
}

/// None that is dear.
pub(crate) const NONE: Heaviest = Heaviest {
    hub: None,
    cost: DEAR,
};

impl Heaviest {
    /// The heavier one of this and of a literal with so many literals in its clauses.
    pub(crate) fn or(self, literal: Lit, cost: usize) -> Heaviest {
        if cost > self.cost {
            Heaviest {
                hub: Some(literal),
                cost,
            }
        } else {
            self
        }
    }
}
