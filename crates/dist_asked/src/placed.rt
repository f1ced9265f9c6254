//! The atoms of a list with their places, and the marks of those that are to be asked.
ghost use Rattle.std.specs.Prelude.{◌≡◌, ◌<◌, ◌≤◌, ℕ, IfOk, IsTrue, length};
ghost use Rattle.dist_asked.specs.AskedPlaces.{IsPlaceAsked};
ghost use Rattle.dist_asked.specs.PlacedPrivate.{AreAllOf, AreMarked, ArePlacedBelow, IsMarkedAt, IsWiderAt};
ghost use Rattle.dist_asked.specs.Within.{IsWithin};

use crate::{order, within};
use dist_relation::{Alternatives, Atom, Atoms};
use std::alloc::{AllocError, Global};
use std::cmp::Ordering;
use std::marker::Model;

/// An atom, and its place in a list.
#[derive(Drop)]
pub(crate) struct Placed<'a> {
    atom: &'a Atom,
    place: usize,
}

impl<'a> Model for Placed<'a> {
    ghost use Rattle.dist_asked.specs.PlacedPrivate.{PlacedAtom};

    ghost Value = { PlacedAtom };

    ghost view = { λ placed. record { atom = placed.atom.now; place = placed.place } };
}

impl<'a> Placed<'a> {
    fn new(atom: &'a Atom, place: usize) -> Placed<'a>
        ensures { result ≡ record { atom = atom.now; place = place } }
    {
        Placed { atom, place }
    }

    fn place(&self) -> usize
        ensures { result ≡ self.now.place }
    {
        self.place
    }

    /// Whether its atom allows no more than another one.
    fn is_within(&self, other: &Placed<'_>) -> bool
        ensures { IsTrue result → IsWithin self.now.atom other.now.atom }
    {
        within::is_within(self.atom, other.atom)
    }

    fn compare(&self, other: &Placed<'_>) -> Ordering {
        order::compare(self.atom, other.atom)
    }
}

/// The atoms of an item with their places.
pub(crate) fn placed_in_item<'a>(
    alloc: Global,
    item: &'a Alternatives,
) -> Result<Vec<Placed<'a>>, AllocError>
    ensures { IfOk result (λ placed. AreAllOf item.now placed.items) }
{
    let mut placed = Vec::new(alloc);
    for place in 0..item.len() {
        let atom = item.get(place);
        placed.push(Placed::new(atom, place))?;
    }
    Ok(placed)
}

/// The atoms of a field with their places.
pub(crate) fn placed_in_field<'a>(
    alloc: Global,
    atoms: &'a Atoms,
) -> Result<Vec<Placed<'a>>, AllocError>
    ensures { IfOk result (λ placed. AreAllOf atoms.now placed.items) }
{
    let mut placed = Vec::new(alloc);
    for place in 0..atoms.len() {
        let atom = atoms.get(place);
        placed.push(Placed::new(atom, place))?;
    }
    Ok(placed)
}

/// Marks the next atom, unless it is within the one that was marked last. Answers which one was marked last now.
fn mark_next(placed: &[Placed<'_>], last: usize, next: usize, marks: &mut Vec<bool>) -> usize
    requires last { last ≤ next }
    requires next { next < length placed.now }
    requires below { ArePlacedBelow placed.now (length marks.old.items) }
    requires marked { last < next → IsMarkedAt placed.now marks.old.items last }
    ensures last { result ≤ next }
    ensures same { length marks.new.items ≡ length marks.old.items }
    ensures kept { (place : ℕ) → IsPlaceAsked marks.old.items place → IsPlaceAsked marks.new.items place }
    ensures marked { IsMarkedAt placed.now marks.new.items result }
    ensures wider { IsWiderAt placed.now result next }
{
    if last < next && placed[next].is_within(&placed[last]) {
        return last;
    }
    let place = placed[next].place();
    marks[place] = true;
    next
}

/// Marks the first atom, and then each that is not within the one that was marked last.
fn mark(placed: &[Placed<'_>], marks: &mut Vec<bool>)
    requires { ArePlacedBelow placed.now (length marks.old.items) }
    ensures { AreMarked placed.now marks.new.items }
{
    let mut last = 0;
    for next in 0..placed.len() {
        last = mark_next(placed, last, next, marks);
    }
}

/// Which of so many places are asked, where the atoms are all that stand there. They are put into the order in which one is
/// followed by those within it.
pub(crate) fn marks_of(
    alloc: Global,
    count: usize,
    placed: &mut Vec<Placed<'_>>,
) -> Result<Vec<bool>, AllocError>
    requires { ArePlacedBelow placed.old.items count }
    ensures { IfOk result (λ marks. AreMarked placed.old.items marks.items) }
{
    placed.sort_unstable_by(|one, other| one.compare(other));
    let mut marks = vec![in alloc; false; count]?;
    mark(placed, &mut marks);
    Ok(marks)
}
