//! What is kept of the group of a claim.
ghost use Rattle.std.specs.Prelude.{◌≡◌, IfSome, OnOk};
ghost use Rattle.std.specs.Option.{ForSome, option_copied};
ghost use Rattle.dist_check_group.specs.Closed.{Closes};
ghost use Rattle.dist_check_group.specs.Common.{common_with};
ghost use Rattle.dist_check_group.specs.Group.{GroupView, Grows, empty_group};
ghost use Rattle.dist_cert.specs.Rising.{AreRising};

use crate::closed::Closed;
use crate::cover::Cover;
use crate::layout::Layout;
use crate::numbers::{has, narrow_in};
use dist_cert::{CertKind, Numbers};
use std::alloc::{AllocError, Global};
use std::marker::Model;

/// The closed questions of a group, and of its installations what a claim of the kind asks: what is common to them, or
/// what they use and hold.
#[derive(Drop)]
pub struct Group {
    pub(crate) refuted: Closed,
    pub(crate) undecided: Closed,
    common: Option<Numbers>,
    cover: Cover,
}

impl Model for Group {
    ghost use Rattle.dist_check_group.specs.Group.{GroupView};
    ghost use Rattle.std.specs.Option.{ForSome};
    ghost use Rattle.dist_cert.specs.Rising.{AreRising};

    ghost Value = { GroupView };

    ghost view = { λ g. record { refuted = g.refuted; undecided = g.undecided; common = g.common; cover = g.cover } };

    ghost invariant = { λ g. ForSome g.common AreRising };
}

impl Group {
    /// An empty group.
    pub fn new(alloc: Global) -> Group
        ensures { result ≡ empty_group }
    {
        Group {
            refuted: Closed::new(alloc),
            undecided: Closed::new(alloc),
            common: None,
            cover: Cover::new(alloc),
        }
    }

    /// Adds an installation, which counts where it has the variable of the claim's package.
    pub fn add_installation(
        &mut self,
        alloc: Global,
        layout: &Layout,
        variable: u32,
        members: &[u32],
    ) -> Result<(), AllocError>
        requires { AreRising members.now }
        ensures { OnOk result (Grows layout.now.kind layout.now variable members.now self.old self.new) }
    {
        match layout.kind() {
            CertKind::Strong => self.narrow_common(alloc, variable, members),
            CertKind::Outdated => Ok(()),
            CertKind::Challenged => self.cover.add(alloc, layout, variable, members),
        }
    }

    /// Narrows what is common by an installation, which counts where it has the variable.
    fn narrow_common(
        &mut self,
        alloc: Global,
        variable: u32,
        members: &[u32],
    ) -> Result<(), AllocError>
        requires { AreRising members.now }
        ensures { OnOk result (self.new ≡ record self.old { common = common_with variable members.now self.old.common }) }
    {
        if has(members, variable) {
            narrow_in(alloc, &mut self.common, members)?;
        }
        Ok(())
    }

    /// Adds a question that was refuted, where a claim on the package of the variable may name it.
    pub fn add_refuted(
        &mut self,
        kind: CertKind,
        variable: u32,
        question: &[(u32, bool)],
    ) -> Result<(), AllocError>
        ensures closes { OnOk result (Closes kind variable question.now self.old.refuted self.new.refuted) }
        ensures rest { OnOk result (self.new ≡ record self.old { refuted = self.new.refuted }) }
    {
        self.refuted.add(kind, variable, question)
    }

    /// Adds a question that was closed as undecided, where a claim on the package of the variable may name it.
    pub fn add_undecided(
        &mut self,
        kind: CertKind,
        variable: u32,
        question: &[(u32, bool)],
    ) -> Result<(), AllocError>
        ensures closes { OnOk result (Closes kind variable question.now self.old.undecided self.new.undecided) }
        ensures rest { OnOk result (self.new ≡ record self.old { undecided = self.new.undecided }) }
    {
        self.undecided.add(kind, variable, question)
    }

    /// The packages that are in all installations that count, if there are any.
    pub(crate) fn common(&self) -> Option<&[u32]>
        ensures value { option_copied result ≡ self.now.common }
        ensures rising { IfSome result (λ common. AreRising common.now) }
    {
        match &self.common {
            Some(common) => Some(common.as_slice()),
            None => None,
        }
    }

    /// The clusters that all installations that count use, if there are any.
    pub(crate) fn used(&self) -> Option<&[u32]>
        ensures value { option_copied result ≡ self.now.cover.used }
        ensures rising { IfSome result (λ clusters. AreRising clusters.now) }
    {
        self.cover.used()
    }

    /// What one of the installations that count holds besides packages, in no order.
    pub(crate) fn held(&self) -> &[u32]
        ensures { result.now ≡ self.now.cover.held }
    {
        self.cover.held()
    }

    /// Whether the claim's own question was refuted.
    pub fn is_refuted(&self) -> bool
        ensures { result ≡ self.now.refuted.alone }
    {
        self.refuted.has_alone()
    }

    /// Whether the claim's own question was closed as undecided.
    pub fn is_undecided(&self) -> bool
        ensures { result ≡ self.now.undecided.alone }
    {
        self.undecided.has_alone()
    }

    /// Forgets all.
    pub fn clear(&mut self)
        ensures { self.new ≡ empty_group }
    {
        self.refuted.clear();
        self.undecided.clear();
        self.common = None;
        self.cover.clear();
    }
}
