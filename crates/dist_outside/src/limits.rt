//! The limits of the program.
ghost use Rattle.std.specs.Prelude.{◌≡◌};

use dist_base::{
    MAX_BYTES, MAX_CERTIFICATE, MAX_CLAUSES, MAX_LINE_LITERALS, MAX_LINES, MAX_LITERALS,
    MAX_RECORD_LINE, MAX_STANZAS, MAX_VARIABLES,
};

/// The most that a run takes in or makes. Each field is a number of things, or of bytes.
#[derive(Clone, Copy, Debug, PartialEq, Eq)]
pub struct Limits {
    /// Bytes of a Packages file, and of a list.
    pub bytes: u64,
    /// Stanzas, doubles included.
    pub stanzas: u32,
    /// Variables of a space.
    pub variables: u32,
    /// Input clauses.
    pub clauses: u32,
    /// Literals of input clauses.
    pub literals: u32,
    /// Derived lines.
    pub lines: u32,
    /// Literals of derived lines.
    pub line_literals: u32,
    /// Bytes of a certificate.
    pub certificate: u64,
    /// Bytes of one certificate line, its line feed included.
    pub record_line: u64,
}

impl Limits {
    /// The stated limits, which no run passes.
    pub fn stated() -> Limits
        ensures { result ≡ record {
          bytes = MAX_BYTES;
          stanzas = MAX_STANZAS;
          variables = MAX_VARIABLES;
          clauses = MAX_CLAUSES;
          literals = MAX_LITERALS;
          lines = MAX_LINES;
          line_literals = MAX_LINE_LITERALS;
          certificate = MAX_CERTIFICATE;
          record_line = MAX_RECORD_LINE;
        } }
    {
        Limits {
            bytes: MAX_BYTES,
            stanzas: MAX_STANZAS,
            variables: MAX_VARIABLES,
            clauses: MAX_CLAUSES,
            literals: MAX_LITERALS,
            lines: MAX_LINES,
            line_literals: MAX_LINE_LITERALS,
            certificate: MAX_CERTIFICATE,
            record_line: MAX_RECORD_LINE,
        }
    }
}
