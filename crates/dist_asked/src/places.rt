//! The places of a list of atoms that have to be asked.
ghost use Rattle.std.specs.Prelude.{◌≡◌, ◌↔◌, [], false, Contains, IfOk, IsTrue, List};
ghost use Rattle.dist_asked.specs.AskedPlaces.{AreEnough, IsPlaceAsked};
ghost use Rattle.dist_relation.specs.declared.atom.Atom.{Atom};

use crate::placed::{marks_of, placed_in_field, placed_in_item};
use dist_relation::{Alternatives, Atoms};
use std::alloc::{AllocError, Global};
use std::marker::Model;

/// All places of lists of so few atoms are asked, which costs less than to look for the wide ones.
const FEW: usize = 8;

/// Which places of a list of atoms have to be asked. There are no marks where all have to.
#[derive(Drop)]
pub struct AskedPlaces {
    marks: Vec<bool>,
}

impl Model for AskedPlaces {
    ghost use Rattle.std.specs.Prelude.{Bool, List};

    ghost Value = { List Bool };

    ghost view = { λ asked. asked.marks.items };
}

impl AskedPlaces {
    /// All places of any list.
    pub fn all(alloc: Global) -> AskedPlaces
        ensures all { result ≡ [] }
        ensures enough { (atoms : List Atom) → AreEnough atoms result }
    {
        AskedPlaces {
            marks: Vec::new(alloc),
        }
    }

    /// Those of an item.
    pub fn in_item(alloc: Global, item: &Alternatives) -> Result<AskedPlaces, AllocError>
        ensures { IfOk result (AreEnough item.now) }
    {
        if item.len() <= FEW {
            return Ok(AskedPlaces::all(alloc));
        }
        let mut placed = placed_in_item(alloc, item)?;
        let marks = marks_of(alloc, item.len(), &mut placed)?;
        Ok(AskedPlaces { marks })
    }

    /// Those of a field that lists atoms.
    pub fn in_field(alloc: Global, atoms: &Atoms) -> Result<AskedPlaces, AllocError>
        ensures { IfOk result (AreEnough atoms.now) }
    {
        if atoms.len() <= FEW {
            return Ok(AskedPlaces::all(alloc));
        }
        let mut placed = placed_in_field(alloc, atoms)?;
        let marks = marks_of(alloc, atoms.len(), &mut placed)?;
        Ok(AskedPlaces { marks })
    }

    /// Whether some place does not have to be asked.
    pub fn leaves_out(&self) -> bool
        ensures { IsTrue result ↔ Contains self.now false }
    {
        self.marks.as_slice().contains(&false)
    }

    /// Whether a place has to be asked.
    pub fn has(&self, place: usize) -> bool
        ensures { IsTrue result ↔ IsPlaceAsked self.now place }
    {
        place >= self.marks.len() || self.marks[place]
    }
}
