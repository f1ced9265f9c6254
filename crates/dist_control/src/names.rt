//! The names of fields in lower case, in an order: a stanza of very many fields is no attack.
ghost use Rattle.std.specs.Prelude.{◌≡◌, ◌||◌, [], not, ℕ, List, IfOk, OnOk, map};
ghost use Rattle.std.specs.List.{list_any};
ghost use Rattle.std.specs.Str.{bytes_eq};
ghost use Rattle.dist_control.specs.Fields.{folded};

use std::alloc::{AllocError, Global};
use std::collections::BTreeSet;
use std::marker::Model;

/// Names in lower case.
#[derive(Drop)]
pub(crate) struct NameSet {
    names: BTreeSet<Vec<u8>>,
}

impl Model for NameSet {
    ghost use Rattle.std.specs.Prelude.{List, ℕ, map};

    ghost Value = { List (List ℕ) };

    ghost view = { λ set. map (λ name. name.items) set.names.keys };
}

/// A name in lower case.
fn lowered(alloc: Global, name: &[u8]) -> Result<Vec<u8>, AllocError>
    ensures { IfOk result (λ lowered. lowered.items ≡ folded name.now) }
{
    let mut lowered = Vec::from_slice(alloc, name)?;
    lowered.as_mut_slice().make_ascii_lowercase();
    Ok(lowered)
}

impl NameSet {
    /// No names.
    pub(crate) fn new(alloc: Global) -> NameSet
        ensures { result ≡ [] }
    {
        NameSet {
            names: BTreeSet::new(alloc),
        }
    }

    /// Whether this name was new: it is one of the set's from now on.
    pub(crate) fn insert(&mut self, alloc: Global, name: &[u8]) -> Result<bool, AllocError>
        ensures added { IfOk result (λ added. added ≡ not (list_any (bytes_eq (folded name.now)) self.old)) }
        ensures names { OnOk result ((other : List ℕ) → list_any (bytes_eq other) self.new
            ≡ (bytes_eq other (folded name.now) || list_any (bytes_eq other) self.old)) }
    {
        let name = lowered(alloc, name)?;
        let added = self.names.insert(name)?;
        Ok(added)
    }
}
