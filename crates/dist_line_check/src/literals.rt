//! The literals of a line as those of a clause.
ghost use Rattle.std.specs.Prelude.{◌≡◌, ◌≤◌, All, OnOk, map};
ghost use Rattle.dist_base.specs.declared.TheConstants.{MAX_VARIABLES};
ghost use Rattle.dist_clause.specs.Formula.{negation};
ghost use Rattle.dist_cert.specs.Groups.{clause_of};

use dist_base::MAX_VARIABLES;
use dist_clause::Lit;
use std::alloc::AllocError;

/// Writes the clause of some literals.
pub(crate) fn write_clause(
    clause: &mut Vec<Lit>,
    literals: &[(u32, bool)],
) -> Result<(), AllocError>
    requires { All (λ l. (1 ≤ l.0) × (l.0 ≤ MAX_VARIABLES)) literals.now }
    ensures { OnOk result (clause.new.items ≡ clause_of literals.now) }
{
    clause.clear();
    for literal in literals {
        clause.push(Lit::new(literal.0, literal.1))?;
    }
    Ok(())
}

/// Writes the clause of the negations of some literals.
pub(crate) fn write_negated(
    clause: &mut Vec<Lit>,
    literals: &[(u32, bool)],
) -> Result<(), AllocError>
    requires { All (λ l. (1 ≤ l.0) × (l.0 ≤ MAX_VARIABLES)) literals.now }
    ensures { OnOk result (clause.new.items ≡ map negation (clause_of literals.now)) }
{
    clause.clear();
    for literal in literals {
        clause.push(Lit::new(literal.0, !literal.1))?;
    }
    Ok(())
}
