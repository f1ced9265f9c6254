//! Lists kept one after another in a single vector, with the place where each of them ends.
ghost use Rattle.std.specs.Prelude.{◌≡◌, ◌+◌, ◌^◌, ◌<◌, [], ◌∷◌, ◌++◌, length, slice_index_or, OnOk, OnErr};
ghost use Rattle.dist_base.specs.Pieces.{pieces, total, AddsPiece, AreEnds, begin_of};

use std::alloc::{AllocError, Global};
use std::marker::Model;

/// A list of lists. Each is kept behind the one before it, and a list costs four bytes beside its items.
#[derive(Debug, Drop)]
pub struct Flat<T> {
    items: Vec<T>,
    /// For each list the place in `items` where it ends.
    ends: Vec<u32>,
}

impl<T> Model for Flat<T> {
    ghost use Rattle.std.specs.Prelude.{List, length};
    ghost use Rattle.dist_base.specs.Pieces.{pieces, AreEnds};

    ghost Value = { List (List T) };

    ghost view = { λ flat. pieces 0 flat.ends.items flat.items.items };

    ghost invariant = { λ flat. AreEnds 0 flat.ends.items (length flat.items.items) };
}

impl<T> Flat<T> {
    /// No lists.
    pub fn new(alloc: Global) -> Flat<T>
        ensures { result ≡ [] }
    {
        Flat {
            items: Vec::new(alloc),
            ends: Vec::new(alloc),
        }
    }

    /// How many lists there are.
    pub fn len(&self) -> usize
        ensures { result ≡ length self.now }
    {
        self.ends.len()
    }

    /// How many items all lists have together.
    pub fn total(&self) -> usize
        ensures { result ≡ total self.now }
    {
        self.items.len()
    }

    /// The list at a place, from 0.
    pub fn get(&self, place: usize) -> &[T]
        requires { place < length self.now }
        ensures { result.now ≡ slice_index_or self.now place [] }
    {
        list_at(&self.items, &self.ends, place)
    }
}

impl<T: Copy> Flat<T> {
    /// Adds a list as the last one. More than 4,294,967,295 items in all are want of memory too.
    pub fn push(&mut self, list: &[T]) -> Result<(), AllocError>
        ensures ok { OnOk result (self.new ≡ self.old ++ list.now ∷ []) }
        ensures err { OnErr result (self.new ≡ self.old) }
    {
        if list.len() > u32::MAX as usize || self.items.len() > u32::MAX as usize - list.len() {
            return Err(AllocError);
        }
        add_list(&mut self.items, &mut self.ends, list)
    }
}

/// Adds a list at the end of lists that are kept one after another.
fn add_list<T: Copy>(items: &mut Vec<T>, ends: &mut Vec<u32>, list: &[T]) -> Result<(), AllocError>
    requires { length items.old.items + length list.now < 2 ^ 32 }
    ensures ok { OnOk result (AddsPiece items.old.items ends.old.items list.now items.new.items ends.new.items) }
    ensures err_items { OnErr result (items.new.items ≡ items.old.items) }
    ensures err_ends { OnErr result (ends.new.items ≡ ends.old.items) }
{
    let end = (items.len() + list.len()) as u32;
    // Room for the end comes first, so that after a refusal nothing has changed.
    ends.reserve(1)?;
    items.extend_from_slice(list)?;
    // There is room for it, so this takes no memory.
    let _ = ends.push(end);
    Ok(())
}

/// The list at a place of lists that are kept one after another.
fn list_at<'a, T>(items: &'a [T], ends: &[u32], place: usize) -> &'a [T]
    requires ends { AreEnds 0 ends.now (length items.now) }
    requires place { place < length ends.now }
    ensures { result.now ≡ slice_index_or (pieces 0 ends.now items.now) place [] }
{
    let start = start_of(ends, place);
    let end = ends[place] as usize;
    &items[start..end]
}

/// Where the list at a place begins: where the one before it ends.
fn start_of(ends: &[u32], place: usize) -> usize
    requires { place < length ends.now }
    ensures { result ≡ begin_of 0 ends.now place }
{
    if place == 0 {
        0
    } else {
        ends[place - 1] as usize
    }
}
