//! What holds of control text itself, apart from any call.
ghost use Rattle.std.specs.Prelude.{ℕ, ◌≤◌, List, length, sum_by};
ghost use Rattle.dist_control.specs.ControlText.{IsExactStanza, IsExactText};
ghost use Rattle.dist_control.specs.Fields.{fields_from, value_bytes};
ghost use Rattle.dist_control.specs.RawStanza.{RawStanza, raw_stanzas};

/// Each raw stanza has exactly one reading or exactly one first fault, and never both.
pub fn one_reading_or_fault()
    ensures { (raw : RawStanza) → IsExactStanza raw }
{}

/// Each text has exactly one list of stanzas or exactly one first fault, and never both.
pub fn one_list_or_fault()
    ensures { (text : List ℕ) → IsExactText text }
{}

/// The values of the fields of all stanzas have together at most the bytes of the text.
pub fn values_take_bytes()
    ensures { (text : List ℕ) → sum_by (λ raw. value_bytes (fields_from raw.line raw.lines)) (raw_stanzas text) ≤ length text }
{}
