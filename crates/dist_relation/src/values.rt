//! Whole values: entries with commas between them.
ghost use Rattle.std.specs.Option.{option_to_list};
ghost use Rattle.std.specs.Prelude.{◌≤◌, ◌∷◌, [], ℕ, List, Result};
ghost use Rattle.dist_base.specs.Ascii.{bar};
ghost use Rattle.dist_base.specs.Answers.{Answers};
ghost use Rattle.dist_relation.specs.declared.error.Fault.{Fault};
ghost use Rattle.dist_relation.specs.Grammar.{ReadsDepends, ReadsAtoms, ReadsProvides};
ghost use Rattle.dist_relation.specs.Faults.{FirstDependsFault, FirstAtomsFault, FirstProvidesFault};
ghost use Rattle.dist_relation.specs.ReadingPrivate.{Gives, GivesOnto, Shortens, alternatives_at, others_at, provide_at, piece_at, items_of};

use crate::atom::{Atom, Kind, Provide};
use crate::bytes::{after_byte, skip_space};
use crate::error::{ReadError, RelationError};
use crate::lists::{Alternatives, Atoms, Items, Provides};
use crate::reading::atom_of;
use std::alloc::Global;

/// What stands between the commas of a value.
pub(crate) trait Entry: Drop {
    ghost reading: { List ℕ → Result (Self × List ℕ) Fault };

    /// Reads an entry at the front of a text, and puts it behind the others. It is large, so it is not handed back first.
    fn read_onto<'a>(
        alloc: Global,
        text: &'a [u8],
        entries: &mut Vec<Self>,
    ) -> Result<&'a [u8], ReadError>
        ensures { GivesOnto (λ x. x ∷ []) (λ rest. rest.now) entries.old.items entries.new.items result (reading text.now) };
}

/// Reads white space alone, or an entry, which it puts behind the others.
#[tactic(auto, unfolding(crate::specs::ReadingPrivate::piece_at))]
fn read_piece<'a, T: Entry>(
    alloc: Global,
    text: &'a [u8],
    entries: &mut Vec<T>,
) -> Result<&'a [u8], ReadError>
    ensures { GivesOnto option_to_list (λ rest. rest.now) entries.old.items entries.new.items result (piece_at T.reading text.now) }
{
    match skip_space(text) {
        rest @ ([] | [b',', ..]) => Ok(rest),
        _ => T::read_onto(alloc, text, entries),
    }
}

/// Room for as many entries as a value's commas part, so that it is taken once; for 64 at most, since commas are cheap, and
/// for none where there is no text.
fn room_for(value: &[u8]) -> usize
    ensures { result ≤ 64 }
{
    if value.is_empty() {
        return 0;
    }
    // Each byte is looked at once and without a branch, which is faster than to find one comma after the other.
    let commas = value.iter().fold(0usize, |commas, byte| {
        commas.wrapping_add(usize::from(*byte == b','))
    });
    commas.min(63) + 1
}

/// The entries of a value.
pub(crate) fn entries_of<T: Entry>(alloc: Global, value: &[u8]) -> Result<Vec<T>, ReadError>
    requires { Shortens T.reading }
    ensures { Gives (λ v. v.items) result (items_of T.reading value.now) }
{
    let mut entries = Vec::with_capacity(alloc, room_for(value))?;
    let mut text = value;
    loop {
        let rest = read_piece(alloc, text, &mut entries)?;
        match after_byte(rest, b',') {
            Some(tail) => text = tail,
            None => {
                // The list is kept: it gives back what commas with no entry behind them took.
                entries.shrink_to_fit();
                return Ok(entries);
            }
        }
    }
}

/// Atoms with bars between them, at least one.
fn atoms_of(alloc: Global, text: &[u8]) -> Result<(Vec<Atom>, &[u8]), ReadError>
    ensures { Gives (λ x. (x.0.items, x.1.now)) result (alternatives_at text.now) }
{
    let mut atoms = Vec::with_capacity(alloc, 1)?;
    let mut text = text;
    loop {
        let (atom, rest) = atom_of(alloc, Kind::Depends, text)?;
        atoms.push(atom)?;
        match after_byte(rest, b'|') {
            Some(tail) => text = tail,
            None => {
                atoms.shrink_to_fit();
                return Ok((atoms, rest));
            }
        }
    }
}

/// The atoms behind a bar, if one follows.
fn others_of(alloc: Global, text: &[u8]) -> Result<(Vec<Atom>, &[u8]), ReadError>
    ensures { Gives (λ x. (x.0.items, x.1.now)) result (others_at bar alternatives_at text.now) }
{
    match after_byte(text, b'|') {
        Some(tail) => atoms_of(alloc, tail),
        None => Ok((Vec::new(alloc), text)),
    }
}

/// An entry of Provides: an atom whose bound is a version.
#[tactic(auto, unfolding(crate::specs::ReadingPrivate::provide_at))]
fn provide_of(alloc: Global, text: &[u8]) -> Result<(Provide, &[u8]), ReadError>
    ensures { Gives (λ x. (x.0, x.1.now)) result (provide_at text.now) }
{
    let (atom, rest) = atom_of(alloc, Kind::Provides, text)?;
    let Atom {
        name,
        qualifier,
        bound,
    } = atom;
    let provide = Provide {
        name,
        qualifier,
        version: bound.map(|bound| bound.version),
    };
    Ok((provide, rest))
}

impl Entry for Alternatives {
    ghost use Rattle.dist_relation.specs.ReadingPrivate.{alternatives_at};

    ghost reading = { alternatives_at };

    fn read_onto<'a>(
        alloc: Global,
        text: &'a [u8],
        entries: &mut Vec<Self>,
    ) -> Result<&'a [u8], ReadError> {
        let (first, rest) = atom_of(alloc, Kind::Depends, text)?;
        let (others, rest) = others_of(alloc, rest)?;
        entries.push(Alternatives::from_atoms(first, others))?;
        Ok(rest)
    }
}

impl Entry for Atom {
    ghost use Rattle.dist_relation.specs.declared.atom.Kind.TheVariants.{Conflicts};
    ghost use Rattle.dist_relation.specs.ReadingPrivate.{atom_at};

    ghost reading = { atom_at Conflicts };

    fn read_onto<'a>(
        alloc: Global,
        text: &'a [u8],
        entries: &mut Vec<Self>,
    ) -> Result<&'a [u8], ReadError> {
        let (atom, rest) = atom_of(alloc, Kind::Conflicts, text)?;
        entries.push(atom)?;
        Ok(rest)
    }
}

impl Entry for Provide {
    ghost use Rattle.dist_relation.specs.ReadingPrivate.{provide_at};

    ghost reading = { provide_at };

    fn read_onto<'a>(
        alloc: Global,
        text: &'a [u8],
        entries: &mut Vec<Self>,
    ) -> Result<&'a [u8], ReadError> {
        let (provide, rest) = provide_of(alloc, text)?;
        entries.push(provide)?;
        Ok(rest)
    }
}

/// Reads the value of a Depends or Pre-Depends field: alternatives with commas between them (Debian Policy 7.1).
pub fn read_depends(alloc: Global, value: &[u8]) -> Result<Items, RelationError>
    ensures { Answers (ReadsDepends value.now) (FirstDependsFault value.now) RelationError.NoMemory result }
{
    match entries_of::<Alternatives>(alloc, value) {
        Ok(entries) => Ok(Items::from_vec(entries)),
        Err(error) => Err(error.in_value(value.len())),
    }
}

/// Reads the value of a Conflicts or Breaks field: atoms with commas between them.
pub fn read_atoms(alloc: Global, value: &[u8]) -> Result<Atoms, RelationError>
    ensures { Answers (ReadsAtoms value.now) (FirstAtomsFault value.now) RelationError.NoMemory result }
{
    match entries_of::<Atom>(alloc, value) {
        Ok(entries) => Ok(Atoms::from_vec(entries)),
        Err(error) => Err(error.in_value(value.len())),
    }
}

/// Reads the value of a Provides field: names with commas between them, each perhaps with a version behind `=`.
pub fn read_provides(alloc: Global, value: &[u8]) -> Result<Provides, RelationError>
    ensures { Answers (ReadsProvides value.now) (FirstProvidesFault value.now) RelationError.NoMemory result }
{
    match entries_of::<Provide>(alloc, value) {
        Ok(entries) => Ok(Provides::from_vec(entries)),
        Err(error) => Err(error.in_value(value.len())),
    }
}
