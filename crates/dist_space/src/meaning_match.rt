//! Whether an atom matches what a variable means.
ghost use Rattle.std.specs.Prelude.{◌↔◌, IsTrue};
ghost use Rattle.dist_space.specs.Space.{IsMatchedBy, IsMeaning};
ghost use Rattle.dist_space.specs.declared.meaning.Meaning.TheVariants as meaning;

use crate::bounds::{matches_moved, meets_bound};
use crate::meaning::Meaning;
use crate::space::Space;
use dist_relation::Atom;

impl Space {
    fn new_matches(&self, atom: &Atom, member: u32, class: u32) -> bool
        requires { IsMeaning self.now (meaning.New member class) }
        ensures { IsTrue result ↔ IsMatchedBy self.now atom.now (meaning.New member class) }
    {
        self.package(member).name == atom.name
            && meets_bound(atom, &self.example(self.cluster_of(member), class))
    }

    fn kept_matches(&self, atom: &Atom, member: u32, class: u32, entry: u32) -> bool
        requires { IsMeaning self.now (meaning.Kept member class entry) }
        ensures { IsTrue result ↔ IsMatchedBy self.now atom.now (meaning.Kept member class entry) }
    {
        let package = self.package(member);
        let entry = package.provides.get(entry as usize);
        let example = self.example(self.cluster_of(member), class);
        matches_moved(self.repo(), atom, entry, &package.version, &example)
    }

    fn fresh_matches(&self, atom: &Atom, name: u32, class: u32) -> bool
        requires { IsMeaning self.now (meaning.Fresh name class) }
        ensures { IsTrue result ↔ IsMatchedBy self.now atom.now (meaning.Fresh name class) }
    {
        *self.frame.names.get(name as usize) == atom.name
            && meets_bound(atom, &self.name_example(name, class))
    }

    /// Whether an atom, if it is usable, matches what a variable means.
    pub fn matches(&self, atom: &Atom, meaning: &Meaning) -> bool
        requires { IsMeaning self.now meaning.now }
        ensures { IsTrue result ↔ IsMatchedBy self.now atom.now meaning.now }
    {
        match *meaning {
            Meaning::Now | Meaning::At(_, _) => false,
            Meaning::Present(number) => self.repo().matches(atom, self.package(number)),
            Meaning::New(member, class) => self.new_matches(atom, member, class),
            Meaning::Kept(member, class, entry) => self.kept_matches(atom, member, class, entry),
            Meaning::Fresh(name, class) => self.fresh_matches(atom, name, class),
        }
    }
}
