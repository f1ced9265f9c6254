//! What a kind of sweep does.
ghost use Rattle.std.specs.Prelude.{◌≡◌, ℕ, List, IfErr, IfOk, OnOk};
ghost use Rattle.dist_outside.specs.Files.{IsWriting};
ghost use Rattle.dist_cert.specs.declared.records.CertRecord.{CertRecord};
ghost use Rattle.dist_sweep.specs.Claiming.{ClaimMore, ClaimStops, Suits};
ghost use Rattle.dist_line_write.specs.Script.{Grows};
ghost use Rattle.dist_sweep.specs.Script.{Setting};

use crate::window::Window;
use dist_cert::Claim;
use dist_line_write::Asker;
use dist_outside::{Desk, WorkError};

/// Makes the claims of a sweep, one package after another.
pub trait Claimant {
    /// What it keeps besides questions and installations is what the lines before hold.
    ghost keeps: { Setting → List CertRecord → Self → Type 0 };

    /// Where there are so many variables, it can claim the package of this number.
    ghost fits: { Self → ℕ → ℕ → Type 0 };

    /// Asks all that the claim on a package needs and puts its lines, the claim last.
    fn settle<D: Desk>(
        &mut self,
        asker: &mut Asker,
        window: &mut Window,
        desk: &mut D,
        package: u32,
    ) -> Result<Claim, WorkError>
        requires writing { IsWriting (D.view desk.old).mode }
        requires suits { Suits asker.old window.old «package» }
        requires fits { fits self.old asker.old.log.variables «package» }
        ensures ok { IfOk result (ClaimMore keeps «package» (D.view desk.old) (D.view desk.new) asker.old asker.new window.old window.new self.old self.new) }
        ensures err { IfErr result (ClaimStops keeps «package» (D.view desk.old) (D.view desk.new) asker.old window.old self.old) }
        ensures suits { OnOk result (Suits asker.new window.new «package») }
        ensures variables { OnOk result (window.new.variables ≡ window.old.variables) }
        ensures still { (n p : ℕ) → fits self.old n p → fits self.new n p }
        ensures grows { Grows (D.view desk.old) (D.view desk.new) };
}
