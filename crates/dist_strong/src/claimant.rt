//! The claims of a strong sweep, as dist_sweep asks for them.
ghost use Rattle.std.specs.Prelude.{◌≤◌};

use crate::claiming::settle;
use dist_cert::Claim;
use dist_line_write::Asker;
use dist_outside::{Desk, WorkError};
use dist_sweep::{Claimant, Window};
use std::alloc::Global;

/// Makes the claims on strong dependencies. Between them it keeps nothing.
#[derive(Drop)]
pub(crate) struct StrongClaimant {
    pub(crate) alloc: Global,
}

impl Claimant for StrongClaimant {
    ghost use Rattle.dist_strong.specs.SettlingPrivate.{IsOfStrong};

    ghost keeps = { λ g before s. IsOfStrong g };

    ghost fits = { λ s n p. p ≤ n };

    fn settle<D: Desk>(
        &mut self,
        asker: &mut Asker,
        window: &mut Window,
        desk: &mut D,
        package: u32,
    ) -> Result<Claim, WorkError> {
        settle(self.alloc, asker, window, desk, package)
    }
}
