//! The pairs that known installations leave open.
ghost use Rattle.std.specs.Prelude.{◌≡◌, ◌≢◌, ◌+◌, ◌-◌, ◌<◌, ◌≤◌, ◌∷◌, [], ℕ, All, Contains, IfOk, OnOk, length, slice_index};
ghost use Rattle.dist_covering.specs.OpenPairs.{AreGathered, AreOpen, IsGathering, IsKept, used_by};
ghost use Rattle.dist_covering.specs.Used.{pair_at};

use crate::covering::Covering;
use dist_space::Meaning;
use dist_sweep::Window;
use std::alloc::AllocError;

impl Covering {
    /// Adds the pairs of a cluster that an installation does not have.
    fn add_classes(
        &self,
        window: &Window,
        number: u32,
        cluster: u32,
        ats: &mut Vec<u32>,
    ) -> Result<(), AllocError>
        requires kept { IsKept window.now number }
        requires variables { window.now.variables ≡ length self.now.space.meanings }
        requires used { Contains (used_by self.now window.now number) (cluster + 1) }
        ensures { OnOk result ((own : ℕ) → cluster ≢ own → AreGathered self.now window.now own number ats.old.items
            → All (λ at. cluster + 1 < (pair_at self.now.space at).0) ats.old.items
            → IsGathering self.now window.now own number cluster 0 ats.old.items ats.new.items) }
    {
        self.keeps_invariant();
        let classes = self.space.class_count(cluster);
        for back in 0..classes {
            let at = self
                .space
                .variable(&Meaning::At(cluster, classes - 1 - back));
            if !window.has(number, at) {
                ats.push(at)?;
            }
        }
        Ok(())
    }

    /// The pairs that an installation does not cover, of the first so many of the clusters that it uses but that of the package.
    pub(crate) fn open_among(
        &self,
        window: &Window,
        number: u32,
        package: u32,
        clusters: usize,
    ) -> Result<Vec<u32>, AllocError>
        requires numbered { 1 ≤ «package» }
        requires kept { IsKept window.now number }
        requires variables { window.now.variables ≡ length self.now.space.meanings }
        requires clusters { clusters ≤ length (used_by self.now window.now number) }
        ensures some { IfOk result (λ ats. AreGathered self.now window.now (slice_index self.now.space.cluster_of («package» - 1)) number ats.items) }
        ensures all { clusters ≡ length (used_by self.now window.now number)
            → IfOk result (λ ats. AreOpen self.now window.now (slice_index self.now.space.cluster_of («package» - 1)) (number ∷ []) ats.items) }
    {
        self.keeps_invariant();
        let own = self.space.cluster_of(package - 1);
        let used = self.used_by(window, number);
        let mut ats = Vec::new(self.alloc);
        for back in 0..clusters {
            let cluster = used[clusters - 1 - back] - 1;
            if cluster != own {
                self.add_classes(window, number, cluster, &mut ats)?;
            }
        }
        Ok(ats)
    }

    /// All pairs, of clusters but that of the package, that neither of two installations covers.
    pub(crate) fn candidates(
        &self,
        window: &Window,
        start: u32,
        today: u32,
        package: u32,
    ) -> Result<Vec<u32>, AllocError>
        requires numbered { 1 ≤ «package» }
        requires kept { IsKept window.now start }
        requires today { IsKept window.now today }
        requires variables { window.now.variables ≡ length self.now.space.meanings }
        ensures { IfOk result (λ ats. AreOpen self.now window.now (slice_index self.now.space.cluster_of («package» - 1)) (start ∷ today ∷ []) ats.items) }
    {
        let ats = self.open_among(window, start, package, self.used_by(window, start).len())?;
        if start == today {
            return Ok(ats);
        }
        self.left_by(window, today, &ats)
    }
}
