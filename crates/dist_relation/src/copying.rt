//! Second values, with memory of their own.
ghost use Rattle.std.specs.Prelude.{◌≡◌, IfOk};

use crate::lists::Alternatives;
use crate::name::Name;
use dist_version::Version;
use std::alloc::AllocError;

/// Something of which another can be made.
pub trait TryClone: Drop {
    /// The same, with memory of its own.
    fn try_clone(&self) -> Result<Self, AllocError>
        ensures { IfOk result (λ copy. copy ≡ self.now) };
}

impl TryClone for Name {
    fn try_clone(&self) -> Result<Name, AllocError> {
        Name::try_clone(self)
    }
}

impl TryClone for Version {
    fn try_clone(&self) -> Result<Version, AllocError> {
        Version::try_clone(self)
    }
}

impl TryClone for Alternatives {
    fn try_clone(&self) -> Result<Alternatives, AllocError> {
        Alternatives::try_clone(self)
    }
}

impl<T: TryClone> TryClone for Option<T> {
    fn try_clone(&self) -> Result<Option<T>, AllocError> {
        match self {
            None => Ok(None),
            Some(value) => Ok(Some(value.try_clone()?)),
        }
    }
}

/// The same values, with memory of their own.
pub(crate) fn clone_all<T: TryClone>(values: &Vec<T>) -> Result<Vec<T>, AllocError>
    ensures { IfOk result (λ copies. copies.items ≡ values.now.items) }
{
    let mut copies = Vec::with_capacity(*values.allocator(), values.len())?;
    for value in values {
        copies.push(value.try_clone()?)?;
    }
    Ok(copies)
}
