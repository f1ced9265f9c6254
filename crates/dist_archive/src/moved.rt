//! Which clusters an archive has moved.
ghost use Rattle.std.specs.Prelude.{◌≡◌, ◌↔◌, ◌<◌, ℕ, List, All, IfSome, IsTrue, MatchOption, length};
ghost use Rattle.std.specs.declared.cmp.Ordering.TheVariants.{Equal};
ghost use Rattle.dist_version.specs.Order.{version_cmp};
ghost use Rattle.dist_future.specs.Future.{IsTaken};
ghost use Rattle.dist_archive.specs.Moved.{IsClusterNamed, IsLeastHeld, IsMovedTo};
ghost use Rattle.dist_archive.specs.MovedPrivate.{IsHeldAt};

use crate::archive::Archive;
use crate::finding::number_named;
use crate::uploads::is_above_top;
use dist_version::Version;

impl Archive {
    /// The number of the cluster of the package of the repository that has a name. It takes no memory.
    pub fn cluster_named(&self, name: &[u8]) -> Option<u32>
        ensures named { MatchOption result (¬ IsTaken self.now.space.repository name.now)
            (IsClusterNamed self.now.space name.now) }
        ensures within { IfSome result (λ cluster. cluster < length self.now.space.clusters.members) }
    {
        let space = self.space();
        space.keeps_invariant();
        let number = number_named(space.repo(), name)?;
        Some(space.clusters().cluster_of(number))
    }

    /// Whether what is held of the name of a package of the repository has an equal version, if something is held.
    fn is_held_at(&self, member: u32, version: &Version) -> bool
        requires { member < length self.now.space.repository.packages }
        ensures { IsTrue result ↔ IsHeldAt self.now member version.now }
    {
        match self.at(member) {
            Some(held) => held.version.compare(version).is_eq(),
            None => false,
        }
    }

    /// Whether the names of some packages of the repository are all held at equal versions.
    fn are_held_at(&self, members: &[u32], version: &Version) -> bool
        requires { All (λ member. member < length self.now.space.repository.packages) members.now }
        ensures { IsTrue result ↔ All (λ member. IsHeldAt self.now member version.now) members.now }
    {
        for member in members {
            if !self.is_held_at(*member, version) {
                return false;
            }
        }
        true
    }

    /// The version above its top at which all names of a cluster are held, if there is one: that of the least member. It takes
    /// no memory.
    pub fn moved(&self, cluster: u32) -> Option<&Version>
        requires { cluster < length self.now.space.clusters.members }
        ensures exactly { MatchOption result ((version : List ℕ) → ¬ IsMovedTo self.now.space self.now.packages cluster version)
            (λ version. IsMovedTo self.now.space self.now.packages cluster version.now
            × IsLeastHeld self.now.space self.now.packages cluster version.now) }
        ensures one { IfSome result (λ found. (version : List ℕ) → IsMovedTo self.now.space self.now.packages cluster version
            → version_cmp found.now version ≡ Equal) }
    {
        let space = self.space();
        space.keeps_invariant();
        let members = space.clusters().members(cluster);
        let Some(least) = self.at(members[0]) else {
            return None;
        };
        least.version.keeps_invariant();
        if !is_above_top(space, cluster, &least.version) {
            return None;
        }
        if !self.are_held_at(members, &least.version) {
            return None;
        }
        Some(&least.version)
    }
}
