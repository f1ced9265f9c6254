//! What is noted of the lines before a line: what is told of the next claim, and what a line makes of it.
ghost use Rattle.std.specs.Prelude.{◌≡◌, ◌&&◌, ◌+◌, ◌<◌, ◌≤◌, ◌^◌, [], ◌∷◌, false, true, IfOk, OnOk};
ghost use Rattle.dist_base.specs.declared.TheConstants.{MAX_VARIABLES};
ghost use Rattle.dist_cert.specs.Form.{KeepsRules};
ghost use Rattle.dist_cert.specs.Rising.{AreRising};
ghost use Rattle.dist_check_group.specs.Layout.{present};
ghost use Rattle.dist_check_group.specs.Window.{has_member, kept_at};
ghost use Rattle.dist_check_group.specs.Group.{TellsRules, empty_group};
ghost use Rattle.dist_check_group.specs.Challenge.{TellsChallenge};
ghost use Rattle.dist_check_state.specs.State.{Allows, Answers, Installs, Tells, TellsClaim, TellsListed, after_claim, after_line, holds_alive, holds_outdated, holds_uninstallable, is_challenged, is_next, is_outdated, is_strong};

use crate::from_zero::{from_zero, pairs_from_zero};
use crate::judging::{is_next, judge_claim, judge_end};
use crate::kinds::{is_challenged, is_outdated, is_strong, present};
use dist_cert::{CertCause, CertKind, CertRecord, Claim, Claims, Literals, Numbers};
use dist_check_group::{
    ChallengeClaim, Group, Layout, StrongClaim, Window, judge_challenge, judge_rules,
};
use std::alloc::{AllocError, Global};
use std::marker::Model;

/// What is noted of the lines before a line.
#[derive(Drop)]
pub struct State {
    packages: u32,
    window: Window,
    /// The package of the next claim.
    next: u32,
    group: Group,
    claims: Claims,
}

impl Model for State {
    ghost use Rattle.std.specs.Prelude.{◌+◌, ◌≤◌};
    ghost use Rattle.dist_base.specs.declared.TheConstants.{MAX_VARIABLES};
    ghost use Rattle.dist_check_state.specs.State.{StateView};

    ghost Value = { StateView };

    ghost view = { λ s. record {
      packages = s.packages;
      layout = s.window.layout;
      window = s.window;
      next = s.next;
      group = s.group;
      claims = s.claims;
    } };

    ghost invariant = { λ s. (s.packages ≤ MAX_VARIABLES) × (s.next ≤ s.packages + 1) };
}

impl State {
    /// Before the first line behind the header. Each package has a variable.
    pub fn new(alloc: Global, packages: u32, variables: u32, layout: Layout) -> State
        requires { packages ≤ MAX_VARIABLES }
        ensures { result ≡ record {
          packages = packages;
          layout = layout;
          window = record { kept = []; count = 0; layout = layout };
          next = 1;
          group = empty_group;
          claims = [];
        } }
    {
        State {
            packages,
            window: Window::new(alloc, variables, layout),
            next: 1,
            group: Group::new(alloc),
            claims: Claims::new(alloc),
        }
    }

    /// The claims.
    pub fn into_claims(self) -> Claims
        ensures { result ≡ self.claims }
    {
        self.claims
    }

    /// The first fault of a claim or of the end, if there is one. Of other lines it tells none.
    pub fn judge(&self, alloc: Global, step: &CertRecord) -> Result<Option<CertCause>, AllocError>
        requires form { KeepsRules step.now }
        ensures { IfOk result (Tells self.now step.now) }
    {
        match step {
            CertRecord::NotInstallable(package) => {
                Ok(self.judge_claim(*package, self.holds_uninstallable()))
            }
            CertRecord::Unknown(package) => {
                Ok(self.judge_claim(*package, self.group.is_undecided()))
            }
            CertRecord::Strong(package, named, on, undecided) => self.judge_strong(
                alloc,
                &StrongClaim {
                    package: *package,
                    named: named.as_slice(),
                    on: on.as_slice(),
                    undecided: undecided.as_slice(),
                },
            ),
            CertRecord::Outdated(package) => Ok(self.judge_claim(*package, self.holds_outdated())),
            CertRecord::Alive(package, number) => Ok(self.judge_alive(*package, *number)),
            CertRecord::Challenged(package, named, by, undecided) => self.judge_challenged(
                alloc,
                *package,
                named.as_slice(),
                by.as_slice(),
                undecided.as_slice(),
            ),
            CertRecord::End => Ok(judge_end(self.next, self.packages)),
            CertRecord::Question(_)
            | CertRecord::Derived(_, _)
            | CertRecord::Refuted(_)
            | CertRecord::Installation(_)
            | CertRecord::Undecided => Ok(None),
        }
    }

    /// The kind of the certificate.
    fn kind(&self) -> CertKind
        ensures { result ≡ self.now.layout.kind }
    {
        self.window.layout().kind()
    }

    /// The variable of the package of the next claim.
    fn next_variable(&self) -> u32
        ensures { result ≡ present self.now.layout.kind self.now.next }
    {
        present(self.kind(), self.next)
    }

    /// Of a claim on a package, which holds or does not.
    fn judge_claim(&self, package: u32, holds: bool) -> Option<CertCause>
        ensures { TellsClaim (is_next self.now.next self.now.packages «package») holds result }
    {
        judge_claim(is_next(self.next, self.packages, package), holds)
    }

    /// Whether a claim that the package is not installable holds.
    fn holds_uninstallable(&self) -> bool
        ensures { result ≡ holds_uninstallable self.now }
    {
        !is_outdated(self.kind()) && self.group.is_refuted()
    }

    /// Whether a claim that the package is outdated holds.
    fn holds_outdated(&self) -> bool
        ensures { result ≡ holds_outdated self.now }
    {
        is_outdated(self.kind()) && self.group.is_refuted()
    }

    /// Whether the installation of a number has a variable, and claims are of kind outdated.
    fn holds_alive(&self, variable: u32, number: u32) -> bool
        ensures { result ≡ (is_outdated self.now.layout.kind && has_member (kept_at self.now.window number) variable) }
    {
        is_outdated(self.kind()) && self.window.has(number, variable)
    }

    /// Of a claim that a package is not outdated.
    fn judge_alive(&self, package: u32, number: u32) -> Option<CertCause>
        ensures { TellsClaim (is_next self.now.next self.now.packages «package») (holds_alive self.now «package» number) result }
    {
        if !is_next(self.next, self.packages, package) {
            return Some(CertCause::OutOfOrder);
        }
        judge_claim(true, self.holds_alive(self.next_variable(), number))
    }

    /// Of a claim on strong dependencies.
    fn judge_strong(
        &self,
        alloc: Global,
        claim: &StrongClaim<'_>,
    ) -> Result<Option<CertCause>, AllocError>
        ensures { IfOk result (TellsListed (is_next self.now.next self.now.packages claim.now.package) (is_strong self.now.layout.kind)
            (TellsRules self.now.window self.now.group self.now.packages claim.now.package claim.now.named.now claim.now.on.now claim.now.undecided.now)) }
    {
        if !is_next(self.next, self.packages, claim.package) {
            return Ok(Some(CertCause::OutOfOrder));
        }
        if !is_strong(self.kind()) {
            return Ok(Some(CertCause::WrongClaim));
        }
        judge_rules(alloc, &self.window, &self.group, self.packages, claim)
    }

    /// Of a claim on challenges.
    fn judge_challenged(
        &self,
        alloc: Global,
        package: u32,
        named: &[u32],
        by: &[(u32, u32)],
        undecided: &[(u32, u32)],
    ) -> Result<Option<CertCause>, AllocError>
        ensures { IfOk result (TellsListed (is_next self.now.next self.now.packages «package») (is_challenged self.now.layout.kind)
            (TellsChallenge self.now.layout self.now.window self.now.group (present self.now.layout.kind «package») named.now by.now undecided.now)) }
    {
        if !is_next(self.next, self.packages, package) {
            return Ok(Some(CertCause::OutOfOrder));
        }
        if !is_challenged(self.kind()) {
            return Ok(Some(CertCause::WrongClaim));
        }
        let claim = ChallengeClaim {
            variable: self.next_variable(),
            named,
            by,
            undecided,
        };
        judge_challenge(alloc, &self.window, &self.group, &claim)
    }

    /// Notes a claim or the end, which has no fault. Other lines change nothing.
    pub fn take(&mut self, step: CertRecord) -> Result<(), AllocError>
        requires form { KeepsRules step }
        requires allowed { Allows self.old step }
        ensures { OnOk result (self.new ≡ after_line self.old step) }
    {
        match step {
            CertRecord::NotInstallable(_) => self.claim(Claim::Uninstallable),
            CertRecord::Unknown(_) => self.claim(Claim::Unknown),
            CertRecord::Strong(_, named, on, undecided) => {
                drop(named);
                self.claim(Claim::Strong(from_zero(on), from_zero(undecided)))
            }
            CertRecord::Outdated(_) => self.claim(Claim::Outdated),
            CertRecord::Alive(_, _) => self.claim(Claim::Alive),
            CertRecord::Challenged(_, named, by, undecided) => {
                drop(named);
                self.claim(Claim::Challenged(pairs_from_zero(by), pairs_from_zero(undecided)))
            }
            CertRecord::Question(_)
            | CertRecord::Derived(_, _)
            | CertRecord::Refuted(_)
            | CertRecord::Installation(_)
            | CertRecord::Undecided
            | CertRecord::End => Ok(()),
        }
    }

    /// Notes that a question is refuted.
    pub fn add_refuted(&mut self, question: Literals) -> Result<(), AllocError>
        ensures { OnOk result (Answers self.old question true self.new) }
    {
        let kind = self.kind();
        let variable = self.next_variable();
        self.group.add_refuted(kind, variable, question.as_slice())
    }

    /// Notes that a question is left undecided.
    pub fn add_undecided(&mut self, question: Literals) -> Result<(), AllocError>
        ensures { OnOk result (Answers self.old question false self.new) }
    {
        let kind = self.kind();
        let variable = self.next_variable();
        self.group
            .add_undecided(kind, variable, question.as_slice())
    }

    /// Notes an installation.
    pub fn add_installation(&mut self, alloc: Global, variables: Numbers) -> Result<(), AllocError>
        requires rising { AreRising variables }
        requires count { self.old.window.count + 1 < 2 ^ 64 }
        ensures { OnOk result (Installs self.old variables self.new) }
    {
        let variable = self.next_variable();
        let layout = self.window.layout();
        self.group
            .add_installation(alloc, layout, variable, variables.as_slice())?;
        self.window.add(alloc, variables)
    }

    /// Ends the group with a claim on the next package.
    fn claim(&mut self, claim: Claim) -> Result<(), AllocError>
        requires { self.old.next ≤ self.old.packages }
        ensures { OnOk result (self.new ≡ after_claim self.old (claim ∷ [])) }
    {
        self.claims.push(claim)?;
        self.group.clear();
        self.next += 1;
        Ok(())
    }
}
