//! What is told of a repair.
ghost use Rattle.std.specs.Prelude.{◌≡◌, IfOk};
ghost use Rattle.dist_repair.specs.Verdicts.{AcceptedSays, is_undecided};
ghost use Rattle.dist_repair.specs.declared.verdict.RepairHeader.{RepairHeader};
ghost use Rattle.dist_report.specs.RepairText.{repair_text};
ghost use Rattle.dist_commands.specs.CheckRepair.{repaired_status};

use crate::answer::Answer;
use crate::claims::marked_status;
use dist_repair::Repair;
use dist_report::repair_text;
use dist_space::Space;
use std::alloc::{AllocError, Global};

/// Whether a number is said to be undecided.
fn is_undecided(repair: &Repair) -> bool
    ensures { result ≡ is_undecided repair.now }
{
    match repair {
        Repair::AtLeast(_, undecided, _) => *undecided,
        Repair::Outdated | Repair::Least(_, _) => false,
    }
}

/// The text of what is answered of a package, with its status.
pub(crate) fn tell_repair(
    alloc: Global,
    space: &Space,
    package: u32,
    repair: &Repair,
) -> Result<Answer, AllocError>
    requires { (h : RepairHeader) × (h.«package» ≡ «package») × AcceptedSays space.now h repair.now }
    ensures status { IfOk result (λ answer. answer.status ≡ repaired_status repair.now) }
    ensures text { IfOk result (λ answer. answer.text.items ≡ repair_text space.now «package» repair.now) }
{
    let text = repair_text(alloc, space, package, repair)?;
    Ok(Answer {
        status: marked_status(is_undecided(repair)),
        text,
    })
}
