//! Limits that are lower than the stated ones.
ghost use Rattle.std.specs.Prelude.{◌≤◌};
ghost use Rattle.dist_base.specs.declared.TheConstants.{
  MAX_BYTES,
  MAX_CERTIFICATE,
  MAX_CLAUSES,
  MAX_LINE_LITERALS,
  MAX_LINES,
  MAX_LITERALS,
  MAX_RECORD_LINE,
  MAX_STANZAS,
  MAX_VARIABLES,
};

use dist_outside::{Limits, What};

/// The stated limits but for one, which is at most this.
pub fn limited(what: What, number: u32) -> Limits
    ensures bytes { result.bytes ≤ MAX_BYTES }
    ensures stanzas { result.stanzas ≤ MAX_STANZAS }
    ensures variables { result.variables ≤ MAX_VARIABLES }
    ensures clauses { result.clauses ≤ MAX_CLAUSES }
    ensures literals { result.literals ≤ MAX_LITERALS }
    ensures lines { result.lines ≤ MAX_LINES }
    ensures line_literals { result.line_literals ≤ MAX_LINE_LITERALS }
    ensures certificate { result.certificate ≤ MAX_CERTIFICATE }
    ensures record_line { result.record_line ≤ MAX_RECORD_LINE }
{
    let mut limits = Limits::stated();
    match what {
        What::Bytes => limits.bytes = limits.bytes.min(u64::from(number)),
        What::Stanzas => limits.stanzas = limits.stanzas.min(number),
        What::Variables => limits.variables = limits.variables.min(number),
        What::Clauses => limits.clauses = limits.clauses.min(number),
        What::Literals => limits.literals = limits.literals.min(number),
        What::Lines => limits.lines = limits.lines.min(number),
        What::LineLiterals => limits.line_literals = limits.line_literals.min(number),
        What::Certificate => limits.certificate = limits.certificate.min(u64::from(number)),
        What::RecordLine => limits.record_line = limits.record_line.min(u64::from(number)),
    }
    limits
}
