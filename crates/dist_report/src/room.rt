//! How much room the report of strong dependencies takes, counted before it is written, so that its text never moves. It is
//! a guess: nothing rests on it.

use crate::claim_parts::{Listing, claim_list};
use dist_cert::{Claim, Claims};
use dist_repo::Repository;
use std::alloc::{AllocError, Global};

/// At most so many bytes of a line stand beside a label.
const BESIDE_LABEL: usize = 16;

/// At most so many lines with its label has a package by itself, each with a line behind it: one in each list.
const OWN_LINES: usize = 4;

/// At most so many bytes stand before the lists and in the lines of their keys.
const KEYS: usize = 256;

/// For each package how long a line with its label is.
fn line_lengths(alloc: Global, repo: &Repository) -> Result<Vec<usize>, AllocError> {
    let mut lengths = Vec::with_capacity(alloc, repo.len() as usize)?;
    for number in 0..repo.len() {
        let package = repo.package(number);
        let label = package
            .name
            .bytes()
            .len()
            .saturating_add(package.version.text().len());
        lengths.push(label.saturating_add(BESIDE_LABEL))?;
    }
    Ok(lengths)
}

/// The length of the line of a package; that of an empty one, where there is no such package.
fn length_of(lengths: &[usize], number: usize) -> usize {
    lengths.get(number).copied().unwrap_or(BESIDE_LABEL)
}

/// The room for the lines of a list, and for those of its package in the lists of the others.
fn room_of(lengths: &[usize], own: usize, list: &[u32]) -> usize {
    let mut room = own.saturating_mul(list.len());
    for number in list {
        room = room.saturating_add(length_of(lengths, *number as usize));
    }
    room
}

/// The room for what a claim tells.
fn claim_room(lengths: &[usize], number: usize, claim: &Claim) -> usize {
    let own = length_of(lengths, number);
    own.saturating_mul(OWN_LINES)
        .saturating_add(room_of(lengths, own, claim_list(claim, Listing::Claimed)))
        .saturating_add(room_of(lengths, own, claim_list(claim, Listing::Undecided)))
}

/// At most so many bytes the report has.
pub(crate) fn strong_room(
    alloc: Global,
    repo: &Repository,
    claims: &Claims,
) -> Result<usize, AllocError> {
    let lengths = line_lengths(alloc, repo)?;
    let mut room = KEYS;
    for number in 0..claims.len() {
        room = room.saturating_add(claim_room(&lengths, number, claims.get(number)));
    }
    Ok(room)
}
