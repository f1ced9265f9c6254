//! The place of a meaning among the variables, by the keys that order them.
ghost use Rattle.std.specs.Prelude.{◌≡◌, ◌≤◌, ◌<◌, ◌-◌, ◌^◌, ◌↔◌, ℕ, [], IsTrue, Some, length, slice_get, slice_index, slice_index_or};
ghost use Rattle.std.specs.Cmp.Lexicographic.{slice_cmp};
ghost use Rattle.std.specs.List.Sorted.{IsStrictlySortedBy};
ghost use Rattle.std.specs.Ordering.{is_lt, nat_cmp};
ghost use Rattle.std.specs.declared.cmp.Ordering.TheVariants.{Less};
ghost use Rattle.dist_base.specs.declared.TheConstants.{MAX_VARIABLES};
ghost use Rattle.dist_space.specs.Space.{IsMeaning, key_of, variable_of};

use crate::meaning::Meaning;
use crate::space::Space;
use dist_classes::Names;
use dist_relation::Name;
use std::marker::Model;

/// A key has at most five numbers.
#[derive(Drop)]
struct Key {
    parts: [u32; 5],
    len: usize,
}

impl Model for Key {
    ghost use Rattle.std.specs.Prelude.{◌≤◌, ℕ, List, take};

    ghost Value = { List ℕ };

    ghost view = { λ k. take k.len k.parts };

    ghost invariant = { λ k. k.len ≤ 5 };
}

impl Key {
    fn as_slice(&self) -> &[u32]
        ensures { result.now ≡ self.now }
    {
        &self.parts[..self.len]
    }
}

impl Space {
    /// The number of the cluster of a package.
    pub fn cluster_of(&self, member: u32) -> u32
        ensures { result ≡ slice_index self.now.cluster_of member }
    {
        *self.frame.cluster_of.get(member as usize).unwrap_or(&0)
    }

    /// The key of a meaning.
    fn key(&self, meaning: &Meaning) -> Key
        ensures { result ≡ key_of self.now meaning.now }
    {
        match *meaning {
            Meaning::Now => Key {
                parts: [0, 0, 0, 0, 0],
                len: 1,
            },
            Meaning::Present(number) => Key {
                parts: [1, number, 0, 0, 0],
                len: 2,
            },
            Meaning::At(cluster, class) => Key {
                parts: [2, cluster, class, 0, 0],
                len: 3,
            },
            Meaning::New(member, class) => Key {
                parts: [2, self.cluster_of(member), class, member, 0],
                len: 4,
            },
            Meaning::Kept(member, class, entry) => Key {
                parts: [2, self.cluster_of(member), class, member, entry],
                len: 5,
            },
            Meaning::Fresh(name, class) => Key {
                parts: [3, name, class, 0, 0],
                len: 3,
            },
        }
    }

    /// Whether a meaning's variable comes before that of another one.
    fn stands_before(&self, first: &Meaning, second: &Meaning) -> bool
        ensures { result ≡ is_lt (slice_cmp nat_cmp (key_of self.now first.now) (key_of self.now second.now)) }
    {
        self.key(first).as_slice() < self.key(second).as_slice()
    }

    /// Where a meaning is looked for first.
    fn guess(&self, meaning: &Meaning) -> u32 {
        match *meaning {
            Meaning::Present(number) => number.wrapping_add(1),
            Meaning::At(cluster, class) => self.class_guess(cluster, class),
            Meaning::New(member, class) => self.new_guess(member, class),
            Meaning::Kept(member, class, entry) => {
                let new = self.new_guess(member, class);
                new.wrapping_add(1).wrapping_add(entry)
            }
            Meaning::Now | Meaning::Fresh(_, _) => 0,
        }
    }

    fn class_guess(&self, cluster: u32, class: u32) -> u32 {
        let classes = self.class_count(cluster);
        self.places.of_class(cluster, class, classes)
    }

    fn new_guess(&self, member: u32, class: u32) -> u32 {
        let at = self.class_guess(self.cluster_of(member), class);
        at.wrapping_add(self.places.behind(member))
    }

    /// Whether the meaning at a place is this one.
    fn is_at(&self, place: u32, meaning: &Meaning) -> bool
        ensures { IsTrue result ↔ (slice_get self.now.meanings place ≡ Some meaning.now) }
    {
        match self.meanings.get(place as usize) {
            Some(other) => *other == *meaning,
            None => false,
        }
    }

    /// The place of a meaning, found by halving where it isn't where it is looked for first.
    fn place(&self, meaning: &Meaning) -> u32
        requires { IsMeaning self.now meaning.now }
        ensures { slice_get self.now.meanings result ≡ Some meaning.now }
    {
        let guess = self.guess(meaning);
        if self.is_at(guess, meaning) {
            return guess;
        }
        let meanings = self.meanings.as_slice();
        meanings.partition_point(|other| self.stands_before(other, meaning)) as u32
    }

    /// The variable of a meaning.
    pub fn variable(&self, meaning: &Meaning) -> u32
        requires { IsMeaning self.now meaning.now }
        ensures value { result ≡ variable_of self.now meaning.now }
        ensures from_one { 1 ≤ result }
        ensures in_range { result ≤ length self.now.meanings }
        ensures stated { result ≤ MAX_VARIABLES }
        ensures back { slice_get self.now.meanings (result - 1) ≡ Some meaning.now }
    {
        self.keeps_invariant();
        self.place(meaning) + 1
    }

    /// The number of a new name.
    pub fn find_name(&self, name: &Name) -> Option<u32>
        ensures { (x : ℕ) → (result ≡ Some x) ↔ (slice_get self.now.names x ≡ Some name.now) }
    {
        place_of(&self.frame.names, name)
    }
}

/// Whether the name at a place stands before another one.
fn name_stands_before(names: &Names, place: u32, name: &Name) -> bool
    requires { place < length names.now }
    ensures { IsTrue result ↔ (slice_cmp nat_cmp (slice_index_or names.now place []) name.now ≡ Less) }
{
    names.get(place as usize).bytes().cmp(name.bytes()).is_lt()
}

/// The place of a name among names in order, found by halving.
fn place_of(names: &Names, name: &Name) -> Option<u32>
    requires rising { IsStrictlySortedBy (slice_cmp nat_cmp) names.now }
    requires few { length names.now < 2 ^ 32 }
    ensures { (x : ℕ) → (result ≡ Some x) ↔ (slice_get names.now x ≡ Some name.now) }
{
    let mut start = 0;
    let mut end = names.len() as u32;
    while start < end {
        let middle = start + (end - start) / 2;
        if name_stands_before(names, middle, name) {
            start = middle + 1;
        } else {
            end = middle;
        }
    }
    if (start as usize) < names.len() && *names.get(start as usize) == *name {
        Some(start)
    } else {
        None
    }
}
