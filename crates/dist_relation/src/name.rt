//! Names of packages and of qualifiers.
ghost use Rattle.std.specs.Prelude.{◌≡◌, ◌↔◌, ℕ, List, IsTrue, IfOk, bytes_eq};
ghost use Rattle.dist_base.specs.Answers.{Answers};
ghost use Rattle.dist_relation.specs.Bytes.{IsName, ReadsName};
ghost use Rattle.dist_relation.specs.Faults.{IsNoName};

use crate::bytes::is_name;
use crate::error::RelationError;
use smallvec::SmallVec;
use std::alloc::{AllocError, Global};
use std::marker::Model;

/// A name, seen as its bytes: a letter or a digit, and then letters, digits and `+ - . _`.
#[derive(Debug, Drop)]
pub struct Name {
    /// Four of five names of an archive have at most 24 bytes, and take no memory of their own.
    bytes: SmallVec<u8, 24>,
}

impl Model for Name {
    ghost use Rattle.std.specs.Prelude.{ℕ, List};
    ghost use Rattle.dist_relation.specs.Bytes.{IsName};

    ghost Value = { List ℕ };

    ghost view = { λ name. name.bytes.items };

    ghost invariant = { λ name. IsName name.bytes.items };
}

impl Name {
    /// Reads a name from exactly these bytes.
    pub fn read(alloc: Global, bytes: &[u8]) -> Result<Name, RelationError>
        ensures { Answers (ReadsName bytes.now) (IsNoName bytes.now) RelationError.NoMemory result }
    {
        if !is_name(bytes) {
            return Err(RelationError::BadName(0));
        }
        Ok(Name::from_bytes(alloc, bytes)?)
    }

    /// The name that these bytes are.
    pub(crate) fn from_bytes(alloc: Global, bytes: &[u8]) -> Result<Name, AllocError>
        requires { IsName bytes.now }
        ensures { IfOk result (λ name. name ≡ bytes.now) }
    {
        Ok(Name {
            bytes: SmallVec::from_slice(alloc, bytes)?,
        })
    }

    /// The bytes, as they were read.
    pub fn bytes(&self) -> &[u8]
        ensures value { result.now ≡ self.now }
        ensures name { IsName self.now }
    {
        self.bytes.as_slice()
    }

    /// The same name, with bytes of its own.
    pub fn try_clone(&self) -> Result<Name, AllocError>
        ensures { IfOk result (λ name. name ≡ self.now) }
    {
        Name::from_bytes(*self.bytes.allocator(), self.bytes())
    }
}

/// Names that are the same bytes.
impl PartialEq for Name {
    ghost use Rattle.std.specs.Prelude.{bytes_eq};
    ghost use Rattle.std.specs.Cmp.{partial_equiv_from_equiv};
    ghost use Rattle.std.specs.Cmp.Lexicographic.{nat_list_eq_equiv};

    ghost eq = { bytes_eq };

    ghost laws = { partial_equiv_from_equiv nat_list_eq_equiv };

    fn eq(&self, other: &Name) -> bool
        ensures value { result ≡ bytes_eq self.now other.now }
        ensures same { IsTrue result ↔ (self.now ≡ other.now) }
    {
        self.bytes() == other.bytes()
    }
}

impl Eq for Name {
    ghost use Rattle.std.specs.Cmp.Lexicographic.{nat_list_eq_equiv};

    ghost laws = { nat_list_eq_equiv };
}
