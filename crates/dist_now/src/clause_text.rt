//! The literals of clauses over the packages of a repository.
ghost use Rattle.std.specs.Prelude.{◌≡◌, ◌<◌, ◌++◌, All, OnOk, map};
ghost use Rattle.dist_base.specs.declared.TheConstants.{MAX_VARIABLES};
ghost use Rattle.dist_now.specs.PresentClauses.{installed, not_installed};

use dist_base::MAX_VARIABLES;
use dist_clause::Lit;
use std::alloc::AllocError;

/// That the package of a number is installed.
fn installed(number: u32) -> Lit
    requires { number < MAX_VARIABLES }
    ensures { result ≡ installed number }
{
    Lit::new(number + 1, true)
}

/// That the package of a number is not installed.
pub(crate) fn not_installed(number: u32) -> Lit
    requires { number < MAX_VARIABLES }
    ensures { result ≡ not_installed number }
{
    Lit::new(number + 1, false)
}

/// Adds the literals that packages are installed.
pub(crate) fn add_installed(clause: &mut Vec<Lit>, numbers: &[u32]) -> Result<(), AllocError>
    requires { All (λ k. k < MAX_VARIABLES) numbers.now }
    ensures { OnOk result (clause.new.items ≡ clause.old.items ++ map installed numbers.now) }
{
    for number in numbers {
        clause.push(installed(*number))?;
    }
    Ok(())
}
