//! What is told of a later archive: the plan that leads to it, or what does not fit.
ghost use Rattle.std.specs.Prelude.{◌≡◌, IfOk};
ghost use Rattle.dist_history.specs.PlanText.{misfit_text, plan_text};

use crate::step_lines::write_step;
use dist_archive::Plan;
use dist_repo::Package;
use dist_report::print_label;
use dist_space::Space;
use std::alloc::{AllocError, Global};

/// The text of a plan, whose clusters are those of the space.
pub fn plan_text(alloc: Global, space: &Space, plan: &Plan) -> Result<Vec<u8>, AllocError>
    ensures { IfOk result (λ text. text.items ≡ plan_text space.now plan.now) }
{
    let mut out = Vec::new(alloc);
    for place in 0..plan.len() {
        write_step(&mut out, space, plan.get(place))?;
    }
    Ok(out)
}

/// The line that names a package that does not fit in a later archive.
pub fn misfit_text(alloc: Global, package: &Package) -> Result<Vec<u8>, AllocError>
    ensures { IfOk result (λ text. text.items ≡ misfit_text «package».now) }
{
    let mut out = Vec::from_slice(alloc, b"not a future at ")?;
    print_label(package, &mut out)?;
    out.push(b'\n')?;
    Ok(out)
}
