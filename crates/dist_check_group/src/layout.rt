//! What the variables of a certificate stand for.
ghost use Rattle.std.specs.Prelude.{◌≡◌, [], length};
ghost use Rattle.dist_check_group.specs.Layout.{LayoutView, at_class, classes_of, cluster_of, is_package};

use dist_base::{Flat, MAX_VARIABLES};
use dist_cert::CertKind;
use std::alloc::Global;
use std::marker::Model;

/// The kind of a certificate, the cluster of each variable, and the variables of each cluster's classes.
#[derive(Drop)]
pub struct Layout {
    kind: CertKind,
    /// The first place is of no variable.
    clusters: Vec<u32>,
    classes: Flat<u32>,
}

impl Model for Layout {
    ghost use Rattle.dist_check_group.specs.Layout.{LayoutView};

    ghost Value = { LayoutView };

    ghost view = { λ l. record { kind = l.kind; cluster_of = l.clusters.items; classes = l.classes } };
}

impl Layout {
    /// Where the variables are the packages as they are: no cluster has a class.
    pub fn present(alloc: Global) -> Layout
        ensures { result ≡ record { kind = CertKind.Strong; cluster_of = []; classes = [] } }
    {
        Layout {
            kind: CertKind::Strong,
            clusters: Vec::new(alloc),
            classes: Flat::new(alloc),
        }
    }

    /// Of futures: the cluster of each variable, where it is a package, and for each cluster the variables of its classes.
    pub fn new(kind: CertKind, clusters: Vec<u32>, classes: Flat<u32>) -> Layout
        ensures { result ≡ record { kind = kind; cluster_of = clusters.items; classes = classes } }
    {
        Layout {
            kind,
            clusters,
            classes,
        }
    }

    /// The kind of the certificate.
    pub fn kind(&self) -> CertKind
        ensures { result ≡ self.now.kind }
    {
        self.kind
    }

    /// The greatest cluster of a variable.
    pub(crate) fn last_cluster(&self) -> u32 {
        match self.clusters.iter().max() {
            Some(cluster) => *cluster,
            None => 0,
        }
    }

    /// How many clusters there are.
    pub(crate) fn len(&self) -> usize
        ensures { result ≡ length self.now.classes }
    {
        self.classes.len()
    }

    /// A number above the variables, for tables that have a place for each.
    pub(crate) fn bound(&self) -> u32 {
        self.clusters.len().min(MAX_VARIABLES as usize + 1) as u32
    }

    /// The cluster of which a variable is a package, or 0.
    pub(crate) fn cluster_of(&self, variable: u32) -> u32
        ensures { result ≡ cluster_of self.now variable }
    {
        match self.clusters.get(variable as usize) {
            Some(cluster) => *cluster,
            None => 0,
        }
    }

    /// Whether a variable is a package.
    pub(crate) fn is_package(&self, variable: u32) -> bool
        ensures { result ≡ is_package self.now variable }
    {
        self.cluster_of(variable) != 0
    }

    /// The variables that put a cluster at one of its classes.
    pub(crate) fn classes_of(&self, cluster: u32) -> &[u32]
        ensures { result.now ≡ classes_of self.now cluster }
    {
        let place = cluster.saturating_sub(1) as usize;
        if place >= self.classes.len() {
            return &[];
        }
        self.classes.get(place)
    }

    /// The variable that puts a cluster at a class.
    pub(crate) fn at_class(&self, pair: (u32, u32)) -> u32
        ensures { result ≡ at_class self.now pair }
    {
        let classes = self.classes_of(pair.0);
        match classes.get(pair.1.saturating_sub(1) as usize) {
            Some(variable) => *variable,
            None => 0,
        }
    }
}
