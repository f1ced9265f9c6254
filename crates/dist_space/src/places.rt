//! Guesses of the places of variables. Nothing is promised of a guess: whoever takes one looks there first. Halving alone would
//! look at some eighteen meanings of a whole archive for each variable.
use crate::meaning::Meaning;
use std::alloc::{AllocError, Global};

/// Where classes and new versions stand, as they were seen when the variables were made.
#[derive(Drop)]
pub(crate) struct Places {
    /// For each cluster the place of its first class.
    clusters: Vec<u32>,
    /// For each package how far behind the class of its cluster its new version stands.
    members: Vec<u32>,
}

/// The number at a place, or 0.
fn number_at(numbers: &[u32], place: u32) -> u32 {
    *numbers.get(place as usize).unwrap_or(&0)
}

/// So many zeros.
fn zeros(alloc: Global, count: u32) -> Result<Vec<u32>, AllocError> {
    let mut numbers = Vec::new(alloc);
    for _place in 0..count {
        numbers.push(0)?;
    }
    Ok(numbers)
}

impl Places {
    /// Notes where a member's first new version stands, behind the last cluster that was noted.
    fn note_member(&mut self, place: u32, member: u32) {
        let cluster = *self.clusters.last().unwrap_or(&0);
        if let Some(behind) = self.members.get_mut(member as usize) {
            *behind = place.wrapping_sub(cluster);
        }
    }

    /// Notes where a meaning stands.
    fn note(&mut self, place: u32, meaning: &Meaning) -> Result<(), AllocError> {
        match *meaning {
            Meaning::At(_, 0) => self.clusters.push(place)?,
            Meaning::New(member, 0) => self.note_member(place, member),
            _ => {}
        }
        Ok(())
    }

    /// Notes where all meanings stand.
    fn note_all(&mut self, meanings: &[Meaning]) -> Result<(), AllocError> {
        let mut place = 0u32;
        for meaning in meanings {
            self.note(place, meaning)?;
            place = place.wrapping_add(1);
        }
        Ok(())
    }

    /// Goes through the meanings of all variables.
    pub(crate) fn of(
        alloc: Global,
        packages: u32,
        meanings: &[Meaning],
    ) -> Result<Places, AllocError> {
        let members = zeros(alloc, packages)?;
        let mut places = Places {
            clusters: Vec::new(alloc),
            members,
        };
        match places.note_all(meanings) {
            Ok(()) => Ok(places),
            Err(error) => {
                drop(places);
                Err(error)
            }
        }
    }

    /// Where a class of a cluster stands, of so many: each takes as much room as the others.
    pub(crate) fn of_class(&self, cluster: u32, class: u32, classes: u32) -> u32 {
        let first = number_at(&self.clusters, cluster);
        if class == 0 {
            return first;
        }
        let next = number_at(&self.clusters, cluster.wrapping_add(1));
        let room = next.wrapping_sub(first).checked_div(classes).unwrap_or(0);
        first.wrapping_add(room.wrapping_mul(class))
    }

    /// How far a member's new version stands behind the class of its cluster.
    pub(crate) fn behind(&self, member: u32) -> u32 {
        number_at(&self.members, member)
    }
}
