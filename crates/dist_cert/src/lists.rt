//! The lists of which records and claims are made.
ghost use Rattle.std.specs.Prelude.{◌≡◌, ◌<◌, [], ◌∷◌, ◌++◌, length, Some, slice_get, OnOk, OnErr};

use crate::records::Claim;
use std::alloc::{AllocError, Global};
use std::marker::Model;

/// A list of items that are copied.
#[derive(Debug, Drop)]
pub struct Items<T> {
    items: Vec<T>,
}

/// Numbers of variables, clauses, packages or installations.
pub type Numbers = Items<u32>;

/// Clusters, each with a class of it.
pub type Pairs = Items<(u32, u32)>;

/// Variables, each with its truth value, which is true where the literal is positive.
pub type Literals = Items<(u32, bool)>;

impl<T> Model for Items<T> {
    ghost use Rattle.std.specs.Prelude.{List};

    ghost Value = { List T };

    ghost view = { λ list. list.items.items };
}

impl<T> Items<T> {
    /// No items.
    pub fn new(alloc: Global) -> Items<T>
        ensures { result ≡ [] }
    {
        Items {
            items: Vec::new(alloc),
        }
    }

    /// The items of a vector.
    pub fn from_vec(items: Vec<T>) -> Items<T>
        ensures { result ≡ items.items }
    {
        Items { items }
    }

    /// The vector of the items.
    pub fn into_vec(self) -> Vec<T>
        ensures { result.items ≡ self }
    {
        self.items
    }

    /// The items as a slice.
    pub fn as_slice(&self) -> &[T]
        ensures { result.now ≡ self.now }
    {
        &self.items
    }

    /// How many items there are.
    pub fn len(&self) -> usize
        ensures { result ≡ length self.now }
    {
        self.items.len()
    }
}

impl<T: Copy> Items<T> {
    /// Adds an item as the last one.
    pub fn push(&mut self, item: T) -> Result<(), AllocError>
        ensures ok { OnOk result (self.new ≡ self.old ++ item ∷ []) }
        ensures err { OnErr result (self.new ≡ self.old) }
    {
        self.items.push(item)?;
        Ok(())
    }

    /// The item at a place, from 0.
    pub fn get(&self, place: usize) -> T
        requires { place < length self.now }
        ensures { slice_get self.now place ≡ Some result }
    {
        self.items[place]
    }
}

/// Claims, one for each package.
#[derive(Debug, Drop)]
pub struct Claims {
    claims: Vec<Claim>,
}

impl Model for Claims {
    ghost use Rattle.std.specs.Prelude.{List};
    ghost use Rattle.dist_cert.specs.declared.records.Claim.{Claim};

    ghost Value = { List Claim };

    ghost view = { λ list. list.claims.items };
}

impl Claims {
    /// No claims.
    pub fn new(alloc: Global) -> Claims
        ensures { result ≡ [] }
    {
        Claims {
            claims: Vec::new(alloc),
        }
    }

    /// Adds a claim as the last one.
    pub fn push(&mut self, claim: Claim) -> Result<(), AllocError>
        ensures ok { OnOk result (self.new ≡ self.old ++ claim ∷ []) }
        ensures err { OnErr result (self.new ≡ self.old) }
    {
        self.claims.push(claim)?;
        Ok(())
    }

    /// How many claims there are.
    pub fn len(&self) -> usize
        ensures { result ≡ length self.now }
    {
        self.claims.len()
    }

    /// The claim of a package, from 0.
    pub fn get(&self, place: usize) -> &Claim
        requires { place < length self.now }
        ensures { slice_get self.now place ≡ Some result.now }
    {
        &self.claims[place]
    }
}
