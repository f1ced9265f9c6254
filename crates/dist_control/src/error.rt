//! Why a text is no control text.
use thiserror::Error;

/// Why a reader of stanzas gives no stanza, with the number of the line at fault.
#[derive(Clone, Copy, Debug, PartialEq, Eq, Error)]
pub enum ControlError {
    /// A field line has no colon.
    #[error("a field line has no colon")]
    NoColon(u64),
    /// What stands before the first colon of a field line is no field name.
    #[error("bad field name")]
    BadFieldName(u64),
    /// A stanza begins with a continuation line.
    #[error("a continuation line begins a stanza")]
    OrphanContinuation(u64),
    /// An earlier field of the stanza has the same name.
    #[error("two fields have one name")]
    DoubleField(u64),
    /// There is no memory for the stanza's fields.
    #[error("out of memory")]
    NoMemory,
}
