//! Questions on two variables.
ghost use Rattle.std.specs.Prelude.{◌≡◌, ◌≤◌, [], ◌∷◌, IfErr, IfOk};
ghost use Rattle.dist_outside.specs.Files.{IsWriting};
ghost use Rattle.dist_cert.specs.ClaimRules.{yes};
ghost use Rattle.dist_line_write.specs.Asking.{IsOver};
ghost use Rattle.dist_line_write.specs.Script.{Grows};
ghost use Rattle.dist_sweep.specs.Asking.{AskMore, AskStops, Holds};
ghost use Rattle.dist_challenge.specs.GroupPrivate.{together};

use dist_line_write::Asker;
use dist_outside::{Desk, WorkError, file_grows};
use dist_sweep::{Reply, ask};
use std::alloc::{AllocError, Global};

/// The question of two variables.
fn both(alloc: Global, variable: u32, other: u32) -> Result<Vec<(u32, bool)>, AllocError>
    ensures { IfOk result (λ words. words.items ≡ yes variable ∷ yes other ∷ []) }
{
    let mut words = Vec::new(alloc);
    words.push((variable, true))?;
    words.push((other, true))?;
    Ok(words)
}

/// Asks for two variables together, where a guess at the installation may be tried first: the variables that are true in it, perhaps.
pub(crate) fn ask_both<D: Desk>(
    alloc: Global,
    asker: &mut Asker,
    desk: &mut D,
    variable: u32,
    other: u32,
    guess: &[u32],
) -> Result<Reply, WorkError>
    requires writing { IsWriting (D.view desk.old).mode }
    requires limit { 1 ≤ asker.old.limit }
    requires question { IsOver asker.old.log.variables (together variable other) }
    ensures ok { IfOk result (AskMore (D.view desk.old) (D.view desk.new) asker.old asker.new (together variable other)) }
    ensures err { IfErr result (AskStops asker.old (together variable other) (D.view desk.old) (D.view desk.new)) }
    ensures holds { IfOk result (Holds asker.old.log.variables (together variable other)) }
    ensures variables { asker.new.log.variables ≡ asker.old.log.variables }
    ensures limit { asker.new.limit ≡ asker.old.limit }
    ensures grows { Grows (D.view desk.old) (D.view desk.new) }
{
    file_grows();
    let question = both(alloc, variable, other)?;
    ask(asker, desk, &question, guess, None)
}
