//! What a variable of the space says.
ghost use Rattle.std.specs.Prelude.{◌↔◌, IsTrue};
ghost use Rattle.dist_space.specs.Space.{IsChange};

/// Packages, clusters, classes and new names are given by their numbers from 0, and an entry by its place in its member's
/// Provides.
#[derive(Clone, Copy, Debug, PartialEq, Eq)]
pub enum Meaning {
    /// The archive is as it is today.
    Now,
    /// The package of the repository is installed.
    Present(u32),
    /// The cluster is at a version of the class.
    At(u32, u32),
    /// The new version of the member, of the class, is installed.
    New(u32, u32),
    /// That new version is installed, and has kept an entry.
    Kept(u32, u32, u32),
    /// The package of the new name, of the class, is installed.
    Fresh(u32, u32),
}

impl Meaning {
    /// Whether it is a class of a cluster or of a new name.
    pub fn is_change(&self) -> bool
        ensures { IsTrue result ↔ IsChange self.now }
    {
        matches!(self, Meaning::At(_, _) | Meaning::Fresh(_, _))
    }
}
