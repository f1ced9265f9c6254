//! Two values, of which the second may not have been made: then the first is given up too.
ghost use Rattle.std.specs.Prelude.{◌≡◌, Ok, IfOk};

use std::alloc::AllocError;

/// A value beside another one.
#[derive(Drop)]
pub(crate) struct Pair<A, B> {
    pub(crate) first: A,
    pub(crate) second: B,
}

/// A value beside one that takes memory. A caller that may stop between two values would have an end of its own for each.
pub(crate) fn beside<A: Drop, B: Drop>(
    first: A,
    second: Result<B, AllocError>,
) -> Result<Pair<A, B>, AllocError>
    ensures first { IfOk result (λ pair. pair.first ≡ first) }
    ensures second { IfOk result (λ pair. second ≡ Ok pair.second) }
{
    match second {
        Ok(second) => Ok(Pair { first, second }),
        Err(error) => {
            drop(first);
            Err(error)
        }
    }
}
