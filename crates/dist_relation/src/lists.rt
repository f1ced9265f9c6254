//! Lists of what relations have, each over a `Vec`.
ghost use Rattle.std.specs.Prelude.{◌≡◌, ◌↔◌, ◌<◌, ◌++◌, ◌∷◌, List, Some, IsTrue, length, slice_get, IfOk, OnOk, OnErr};
ghost use Rattle.std.specs.Cmp.Lexicographic.{pointwise};
ghost use Rattle.dist_relation.specs.EqualityPrivate.{atom_eq, provide_eq};

use crate::atom::{Atom, Provide};
use crate::copying::{TryClone, clone_all};
use std::alloc::AllocError;
use std::marker::Model;

/// The alternatives of one dependency, at least one. Most have no other, and so take no memory for a list.
#[derive(Debug, Drop)]
pub struct Alternatives {
    first: Atom,
    others: Vec<Atom>,
}

impl Model for Alternatives {
    ghost use Rattle.std.specs.Prelude.{List, ◌∷◌};
    ghost use Rattle.dist_relation.specs.declared.atom.Atom.{Atom};

    ghost Value = { List Atom };

    ghost view = { λ list. list.first ∷ list.others.items };
}

impl Alternatives {
    /// The item of these atoms.
    pub(crate) fn from_atoms(first: Atom, others: Vec<Atom>) -> Alternatives
        ensures { result ≡ first ∷ others.items }
    {
        Alternatives { first, others }
    }

    /// The first, and those behind it.
    pub(crate) fn parts(&self) -> (&Atom, &[Atom])
        ensures { self.now ≡ result.0.now ∷ result.1.now }
    {
        (&self.first, self.others.as_slice())
    }

    /// At least one.
    pub fn len(&self) -> usize
        ensures value { result ≡ length self.now }
        ensures some { 0 < length self.now }
    {
        self.others.len() + 1
    }

    /// The one at a place, from 0.
    pub fn get(&self, place: usize) -> &Atom
        requires { place < length self.now }
        ensures { slice_get self.now place ≡ Some result.now }
    {
        if place == 0 {
            return &self.first;
        }
        &self.others[place - 1]
    }

    /// The same alternatives, with memory of their own.
    pub fn try_clone(&self) -> Result<Alternatives, AllocError>
        ensures { IfOk result (λ list. list ≡ self.now) }
    {
        Ok(Alternatives {
            first: self.first.try_clone()?,
            others: clone_all(&self.others)?,
        })
    }
}

/// What a relation field lists, in its order.
#[derive(Debug, Drop)]
pub struct Entries<T> {
    entries: Vec<T>,
}

/// Dependencies, of each of which one alternative is wanted.
pub type Items = Entries<Alternatives>;

/// Atoms, as those of a Conflicts field.
pub type Atoms = Entries<Atom>;

/// Entries of a Provides field.
pub type Provides = Entries<Provide>;

impl<T> Model for Entries<T> {
    ghost use Rattle.std.specs.Prelude.{List};

    ghost Value = { List T };

    ghost view = { λ list. list.entries.items };
}

impl<T> Entries<T> {
    /// The list of these.
    pub(crate) fn from_vec(entries: Vec<T>) -> Entries<T>
        ensures { result ≡ entries.items }
    {
        Entries { entries }
    }

    /// How many there are.
    pub fn len(&self) -> usize
        ensures { result ≡ length self.now }
    {
        self.entries.len()
    }

    /// The one at a place, from 0.
    pub fn get(&self, place: usize) -> &T
        requires { place < length self.now }
        ensures { slice_get self.now place ≡ Some result.now }
    {
        &self.entries[place]
    }
}

impl<T: Drop> Entries<T> {
    /// Adds those of another list at the end. After an `Err` this list is unchanged, and the other is given up.
    pub fn append(&mut self, more: Entries<T>) -> Result<(), AllocError>
        ensures ok { OnOk result (self.new ≡ self.old ++ more) }
        ensures err { OnErr result (self.new ≡ self.old) }
    {
        // Most packages have one of the two fields alone.
        if self.entries.is_empty() {
            *self = more;
            return Ok(());
        }
        let mut more = more.entries;
        self.entries.reserve_exact(more.len())?;
        self.entries.append(&mut more)
    }
}

impl<T: TryClone> Entries<T> {
    /// The same list, with memory of its own.
    pub fn try_clone(&self) -> Result<Entries<T>, AllocError>
        ensures { IfOk result (λ list. list ≡ self.now) }
    {
        Ok(Entries {
            entries: clone_all(&self.entries)?,
        })
    }
}

impl PartialEq for Alternatives {
    ghost use Rattle.std.specs.Cmp.{partial_equiv_from_equiv};
    ghost use Rattle.std.specs.Cmp.Lexicographic.{pointwise};
    ghost use Rattle.dist_relation.specs.EqualityPrivate.{atom_eq, equivalence, atoms_decide};

    ghost eq = { pointwise atom_eq };

    ghost laws = { partial_equiv_from_equiv (equivalence atoms_decide) };

    fn eq(&self, other: &Alternatives) -> bool
        ensures value { result ≡ pointwise atom_eq self.now other.now }
        ensures same { IsTrue result ↔ (self.now ≡ other.now) }
    {
        self.first == other.first && self.others == other.others
    }
}

impl Eq for Alternatives {
    ghost use Rattle.dist_relation.specs.EqualityPrivate.{equivalence, atoms_decide};

    ghost laws = { equivalence atoms_decide };
}

impl PartialEq for Items {
    ghost use Rattle.std.specs.Cmp.{partial_equiv_from_equiv};
    ghost use Rattle.std.specs.Cmp.Lexicographic.{pointwise};
    ghost use Rattle.dist_relation.specs.EqualityPrivate.{atom_eq, equivalence, items_decide};

    ghost eq = { pointwise (pointwise atom_eq) };

    ghost laws = { partial_equiv_from_equiv (equivalence items_decide) };

    fn eq(&self, other: &Items) -> bool
        ensures value { result ≡ pointwise (pointwise atom_eq) self.now other.now }
        ensures same { IsTrue result ↔ (self.now ≡ other.now) }
    {
        self.entries == other.entries
    }
}

impl Eq for Items {
    ghost use Rattle.dist_relation.specs.EqualityPrivate.{equivalence, items_decide};

    ghost laws = { equivalence items_decide };
}

impl PartialEq for Atoms {
    ghost use Rattle.std.specs.Cmp.{partial_equiv_from_equiv};
    ghost use Rattle.std.specs.Cmp.Lexicographic.{pointwise};
    ghost use Rattle.dist_relation.specs.EqualityPrivate.{atom_eq, equivalence, atoms_decide};

    ghost eq = { pointwise atom_eq };

    ghost laws = { partial_equiv_from_equiv (equivalence atoms_decide) };

    fn eq(&self, other: &Atoms) -> bool
        ensures value { result ≡ pointwise atom_eq self.now other.now }
        ensures same { IsTrue result ↔ (self.now ≡ other.now) }
    {
        self.entries == other.entries
    }
}

impl Eq for Atoms {
    ghost use Rattle.dist_relation.specs.EqualityPrivate.{equivalence, atoms_decide};

    ghost laws = { equivalence atoms_decide };
}

impl PartialEq for Provides {
    ghost use Rattle.std.specs.Cmp.{partial_equiv_from_equiv};
    ghost use Rattle.std.specs.Cmp.Lexicographic.{pointwise};
    ghost use Rattle.dist_relation.specs.EqualityPrivate.{provide_eq, equivalence, provides_decide};

    ghost eq = { pointwise provide_eq };

    ghost laws = { partial_equiv_from_equiv (equivalence provides_decide) };

    fn eq(&self, other: &Provides) -> bool
        ensures value { result ≡ pointwise provide_eq self.now other.now }
        ensures same { IsTrue result ↔ (self.now ≡ other.now) }
    {
        self.entries == other.entries
    }
}

impl Eq for Provides {
    ghost use Rattle.dist_relation.specs.EqualityPrivate.{equivalence, provides_decide};

    ghost laws = { equivalence provides_decide };
}
