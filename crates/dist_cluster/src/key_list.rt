//! The packages of which clusters are made: the name and version of the source, and the version of each.
ghost use Rattle.std.specs.Prelude.{◌≡◌, ◌++◌, ◌∷◌, [], List, IfOk, OnOk, OnErr};
ghost use Rattle.dist_version.specs.Between.{without_rebuild_text};
ghost use Rattle.dist_cluster.specs.Relation.{Member};
ghost use Rattle.dist_cluster.specs.TotalLaws.{member_cmp};

use dist_version::Version;
use std::alloc::{AllocError, Global};
use std::cmp::Ordering;
use std::marker::Model;

/// What clusters know of one package. Its version without rebuild suffix is found once and kept.
#[derive(Drop)]
pub(crate) struct Entry {
    source: Vec<u8>,
    source_version: Version,
    version: Version,
    base: Version,
}

impl Model for Entry {
    ghost use Rattle.dist_version.specs.Between.{without_rebuild_text};
    ghost use Rattle.dist_cluster.specs.Relation.{Member};
    ghost use Rattle.std.specs.Prelude.{◌≡◌};

    ghost Value = { Member };

    ghost view = { λ e. record { source = e.source.items; source_version = e.source_version; version = e.version } };

    ghost invariant = { λ e. e.base ≡ without_rebuild_text e.version };
}

impl Entry {
    /// Copies of what is known.
    fn new(
        alloc: Global,
        source: &[u8],
        source_version: &Version,
        version: &Version,
    ) -> Result<Entry, AllocError>
        ensures { IfOk result (λ entry. entry ≡ record { source = source.now; source_version = source_version.now; version = version.now }) }
    {
        Ok(Entry {
            source: Vec::from_slice(alloc, source)?,
            source_version: source_version.try_clone()?,
            version: version.try_clone()?,
            base: version.without_rebuild()?,
        })
    }

    /// The package's own version, rebuild suffix included.
    pub(crate) fn version(&self) -> &Version
        ensures { result.now ≡ self.now.version }
    {
        &self.version
    }

    /// The order in which members of one cluster are tied.
    pub(crate) fn compare(&self, other: &Entry) -> Ordering
        ensures { result ≡ member_cmp self.now other.now }
    {
        let order = self.source.as_slice().cmp(other.source.as_slice());
        if order.is_ne() {
            return order;
        }
        let order = self.source_version.compare(&other.source_version);
        if order.is_ne() {
            return order;
        }
        self.base.compare(&other.base)
    }
}

/// Packages in a row, seen as a list of what clusters know of each. Copies are kept.
#[derive(Drop)]
pub struct Keys {
    alloc: Global,
    entries: Vec<Entry>,
}

impl Model for Keys {
    ghost use Rattle.std.specs.Prelude.{List};
    ghost use Rattle.dist_cluster.specs.Relation.{Member};

    ghost Value = { List Member };

    ghost view = { λ keys. keys.entries.items };
}

impl Keys {
    /// No packages.
    pub fn new(alloc: Global) -> Keys
        ensures { result ≡ [] }
    {
        Keys {
            alloc,
            entries: Vec::new(alloc),
        }
    }

    /// Adds a package as the last one, by the name and version of its source and its own version.
    pub fn add(
        &mut self,
        source: &[u8],
        source_version: &Version,
        version: &Version,
    ) -> Result<(), AllocError>
        ensures ok { OnOk result (self.new
            ≡ self.old ++ (record { source = source.now; source_version = source_version.now; version = version.now }) ∷ []) }
        ensures err { OnErr result (self.new ≡ self.old) }
    {
        let entry = Entry::new(self.alloc, source, source_version, version)?;
        self.entries.push(entry)?;
        Ok(())
    }

    /// What clusters know of each package.
    pub(crate) fn entries(&self) -> &[Entry]
        ensures { result.now ≡ self.now }
    {
        self.entries.as_slice()
    }
}

/// A package as a key of a map, in which those of one cluster are one key.
#[derive(Drop)]
pub(crate) struct ClusterKey<'a> {
    entry: &'a Entry,
}

impl<'a> Model for ClusterKey<'a> {
    ghost use Rattle.dist_cluster.specs.Relation.{Member};

    ghost Value = { Member };

    ghost view = { λ key. key.entry.now };
}

impl<'a> ClusterKey<'a> {
    /// The key of this package.
    pub(crate) fn new(entry: &'a Entry) -> ClusterKey<'a>
        ensures { result ≡ entry.now }
    {
        ClusterKey { entry }
    }
}

impl Ord for ClusterKey<'_> {
    ghost use Rattle.dist_cluster.specs.TotalLaws.{member_cmp, member_total};
    ghost use Rattle.std.proofs.Common.{refl};

    ghost cmp = { member_cmp };

    ghost total = { member_total };

    ghost matches_partial_cmp = { λ _ _. refl };

    ghost matches_eq = { λ _ _. refl };

    fn cmp(&self, other: &Self) -> Ordering {
        self.entry.compare(other.entry)
    }
}

impl PartialOrd for ClusterKey<'_> {
    ghost use Rattle.std.specs.Cmp.{partial_order_from_total};
    ghost use Rattle.std.specs.Ordering.{as_partial_cmp};
    ghost use Rattle.dist_cluster.specs.TotalLaws.{member_cmp, member_total};

    ghost partial_cmp = { as_partial_cmp member_cmp };

    ghost laws = { partial_order_from_total member_total };

    fn partial_cmp(&self, other: &Self) -> Option<Ordering> {
        Some(self.cmp(other))
    }
}

impl PartialEq for ClusterKey<'_> {
    ghost use Rattle.std.specs.Cmp.{eq_by_cmp_equiv, partial_equiv_from_equiv};
    ghost use Rattle.std.specs.Ordering.{eq_by_cmp};
    ghost use Rattle.dist_cluster.specs.TotalLaws.{member_cmp, member_total};

    ghost eq = { eq_by_cmp member_cmp };

    ghost laws = { partial_equiv_from_equiv (eq_by_cmp_equiv member_total) };

    fn eq(&self, other: &Self) -> bool {
        self.cmp(other).is_eq()
    }
}

impl Eq for ClusterKey<'_> {
    ghost use Rattle.std.specs.Cmp.{eq_by_cmp_equiv};
    ghost use Rattle.dist_cluster.specs.TotalLaws.{member_total};

    ghost laws = { eq_by_cmp_equiv member_total };
}
