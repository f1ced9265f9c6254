//! The claims on challenged packages.
ghost use Rattle.std.specs.Prelude.{◌≡◌, ◌+◌, ◌-◌, ◌^◌, ◌<◌, ◌≤◌, [], ◌∷◌, All, IfErr, IfOk, OnOk, length, map, slice_index};
ghost use Rattle.dist_cert.specs.Accepted.{claim_in, pairs_from_zero};
ghost use Rattle.dist_cert.specs.Form.{AreFromOne, ArePairs, KeepsRules};
ghost use Rattle.dist_outside.specs.Files.{IsWriting};
ghost use Rattle.dist_cert.specs.Rising.{AreRising};
ghost use Rattle.dist_sweep.specs.Claiming.{ClaimMore, ClaimStops, Suits};
ghost use Rattle.dist_line_write.specs.Script.{Grows};
ghost use Rattle.dist_space.specs.Space.{variable_of};
ghost use Rattle.dist_space.specs.declared.meaning.Meaning.TheVariants.{Present};
ghost use Rattle.dist_challenge.specs.ChallengedPrivate.{KeepsChallenged};
ghost use Rattle.dist_challenge.specs.BegunPrivate.{BegunMore, BegunStops};
ghost use Rattle.dist_covering.specs.Planning.{IsFirst};
ghost use Rattle.dist_covering.specs.Group.{group_of};
ghost use Rattle.dist_challenge.specs.GroupPrivate.{ChallengeMore, ChallengeStops, FitsBegun, FitsGroup, challenged_line, names_of};
ghost use Rattle.dist_covering.specs.OpenPairs.{IsKept, IsPairVariable, IsTodayWith};
ghost use Rattle.dist_sweep.specs.Futures.{FitsSpace};
ghost use Rattle.dist_covering.specs.Used.{pair_at};
ghost use Rattle.dist_challenge.specs.GroupPrivate.{AreSmallPairs};

use crate::ahead::Ahead;
use dist_cert::{CertRecord, Claim, Items, Numbers};
use dist_covering::{Covering, Group, pair_at};
use dist_line_write::Asker;
use dist_outside::{Desk, WorkError, file_grows};
use dist_space::{Meaning, Space};
use dist_subject::pairs_are_of_the_space;
use dist_sweep::{Claimant, Reply, Window};
use std::alloc::{AllocError, Global};

/// Makes the claims on challenged packages. Between them it keeps the clusters that each of the latest installations uses.
#[derive(Drop)]
pub(crate) struct ChallengedClaimant {
    pub(crate) alloc: Global,
    pub(crate) covering: Covering,
    pub(crate) ahead: Ahead,
}

/// The pairs of some variables.
fn pairs_of(alloc: Global, space: &Space, ats: &[u32]) -> Result<Vec<(u32, u32)>, AllocError>
    requires { All (λ at. (1 ≤ at) × (at ≤ length space.now.meanings)) ats.now }
    ensures value { IfOk result (λ pairs. pairs.items ≡ map (pair_at space.now) ats.now) }
    ensures small { IfOk result (λ pairs. AreSmallPairs pairs.items) }
{
    let mut pairs = Vec::new(alloc);
    for at in ats {
        pairs.push(pair_at(space, *at))?;
    }
    Ok(pairs)
}

/// The pairs, each with numbers less by one.
fn from_zero(alloc: Global, pairs: &[(u32, u32)]) -> Result<Vec<(u32, u32)>, AllocError>
    requires { ArePairs pairs.now }
    ensures { IfOk result (λ less. less.items ≡ pairs_from_zero pairs.now) }
{
    let mut less = Vec::new(alloc);
    for pair in pairs {
        less.push((pair.0 - 1, pair.1 - 1))?;
    }
    Ok(less)
}

/// The installations that a claim names.
fn names_of(alloc: Global, window: &Window, named: &[u32]) -> Result<Numbers, AllocError>
    ensures { IfOk result (λ names. names ≡ names_of window.now named.now) }
{
    let mut names = Vec::new(alloc);
    if named.is_empty() {
        names.push(window.count())?;
    }
    names.extend_from_slice(named)?;
    Ok(Items::from_vec(names))
}

/// The line of the claim of a group, and what it claims.
fn challenged_line(
    alloc: Global,
    space: &Space,
    window: &Window,
    group: &Group,
) -> Result<(CertRecord, Claim), AllocError>
    requires from_one { 1 ≤ group.now.claimed }
    requires named { AreFromOne group.now.named }
    requires some { length group.now.named ≡ 0 → 1 ≤ window.now.count }
    requires refuted { All (IsPairVariable space.now (slice_index space.now.cluster_of (group.now.claimed - 1))) group.now.refuted }
    requires undecided { All (IsPairVariable space.now (slice_index space.now.cluster_of (group.now.claimed - 1))) group.now.undecided }
    ensures line { IfOk result (λ both. both.0 ≡ challenged_line space.now window.now group.now) }
    ensures form { IfOk result (λ both. KeepsRules both.0) }
    ensures claim { IfOk result (λ both. claim_in both.0 ≡ both.1 ∷ []) }
    ensures small { window.now.count < 2 ^ 32 }
    ensures refuted { IfOk result (λ both. AreSmallPairs (map (pair_at space.now) group.now.refuted)) }
    ensures undecided { IfOk result (λ both. AreSmallPairs (map (pair_at space.now) group.now.undecided)) }
{
    window.keeps_invariant();
    let claimed = group.claimed();
    let refuted = pairs_of(alloc, space, group.refuted())?;
    let undecided = pairs_of(alloc, space, group.undecided())?;
    let by = from_zero(alloc, &refuted)?;
    let left = from_zero(alloc, &undecided)?;
    let named = names_of(alloc, window, group.named())?;
    let claim = Claim::Challenged(Items::from_vec(by), Items::from_vec(left));
    let step = CertRecord::Challenged(
        claimed,
        named,
        Items::from_vec(refuted),
        Items::from_vec(undecided),
    );
    Ok((step, claim))
}

impl ChallengedClaimant {
    /// A claimant for a certificate without installations, on the futures of the space.
    pub(crate) fn new(alloc: Global, space: Space) -> Result<ChallengedClaimant, AllocError>
        ensures { IfOk result (λ claimant. claimant.covering ≡ record { space = space; uses = [] }) }
    {
        let covering = Covering::new(alloc, space)?;
        Ok(ChallengedClaimant {
            alloc,
            covering,
            ahead: Ahead::new(),
        })
    }

    /// The variable of a package.
    fn variable(&self, package: u32) -> u32
        requires from_one { 1 ≤ «package» }
        requires upto { «package» ≤ length self.now.covering.space.repository.packages }
        ensures value { result ≡ variable_of self.now.covering.space (Present («package» - 1)) }
        ensures from_one { 1 ≤ result }
        ensures in_range { result ≤ length self.now.covering.space.meanings }
    {
        self.covering
            .space()
            .variable(&Meaning::Present(package - 1))
    }

    /// Puts the claim of a group of which no pair is left to be asked for.
    fn put_challenged<D: Desk>(
        &self,
        asker: &mut Asker,
        window: &Window,
        desk: &mut D,
        group: &Group,
    ) -> Result<Claim, WorkError>
        requires writing { IsWriting (D.view desk.old).mode }
        requires fits { FitsGroup asker.old window.now self.now.covering group.now }
        requires done { group.now.left ≡ [] }
        requires rising { AreRising group.now.refuted × AreRising group.now.undecided }
        ensures ok { IfOk result (ChallengeMore (D.view desk.old) (D.view desk.new) asker.old asker.new window.now window.now self.now.covering self.now.covering group.now) }
        ensures err { IfErr result (ChallengeStops (D.view desk.old) (D.view desk.new) asker.old window.now self.now.covering group.now) }
        ensures limit { asker.new.limit ≡ asker.old.limit }
        ensures variables { asker.new.log.variables ≡ asker.old.log.variables }
        ensures grows { Grows (D.view desk.old) (D.view desk.new) }
    {
        file_grows();
        pairs_are_of_the_space();
        let (step, claim) = challenged_line(self.alloc, self.covering.space(), window, group)?;
        asker.put(desk, &step)?;
        Ok(claim)
    }

    /// Asks for the pairs of a group and puts its claim.
    fn claim_group<D: Desk>(
        &mut self,
        asker: &mut Asker,
        window: &mut Window,
        desk: &mut D,
        group: &mut Group,
    ) -> Result<Claim, WorkError>
        requires writing { IsWriting (D.view desk.old).mode }
        requires fits { FitsGroup asker.old window.old self.old.covering group.old }
        ensures ok { IfOk result (ChallengeMore (D.view desk.old) (D.view desk.new) asker.old asker.new window.old window.new self.old.covering self.new.covering group.old) }
        ensures err { IfErr result (ChallengeStops (D.view desk.old) (D.view desk.new) asker.old window.old self.old.covering group.old) }
        ensures suits { OnOk result (Suits asker.new window.new group.old.claimed) }
        ensures variables { OnOk result (window.new.variables ≡ window.old.variables) }
        ensures space { self.new.covering.space ≡ self.old.covering.space }
        ensures grows { Grows (D.view desk.old) (D.view desk.new) }
    {
        file_grows();
        self.ask_pairs(asker, window, desk, group, false)?;
        group.put_in_order();
        self.put_challenged(asker, window, desk, group)
    }

    /// Asks for an installation of today with the package of a group and puts the claim.
    fn claim_by_today<D: Desk>(
        &mut self,
        asker: &mut Asker,
        window: &mut Window,
        desk: &mut D,
        group: &mut Group,
        earlier: u32,
    ) -> Result<Claim, WorkError>
        requires writing { IsWriting (D.view desk.old).mode }
        requires fits { FitsBegun asker.old window.old self.old.covering group.old }
        requires own { (earlier ≤ window.old.count) × (window.old.count ≤ earlier + 1) }
        requires kept { earlier < window.old.count → IsKept window.old window.old.count }
        ensures ok { IfOk result (BegunMore (D.view desk.old) (D.view desk.new) asker.old asker.new window.old window.new self.old.covering self.new.covering group.old earlier) }
        ensures err { IfErr result (BegunStops (D.view desk.old) (D.view desk.new) asker.old window.old self.old.covering group.old earlier) }
        ensures suits { OnOk result (Suits asker.new window.new group.old.claimed) }
        ensures variables { OnOk result (window.new.variables ≡ window.old.variables) }
        ensures space { self.new.covering.space ≡ self.old.covering.space }
        ensures grows { Grows (D.view desk.old) (D.view desk.new) }
    {
        file_grows();
        pairs_are_of_the_space();
        self.covering.keeps_invariant();
        let package = group.claimed();
        match self.ask_today(asker, window, desk, group.present())? {
            Reply::Found(values) => {
                self.covering.add(window, values)?;
                self.covering.plan_found(window, group, earlier)?;
                self.claim_group(asker, window, desk, group)
            }
            Reply::Refuted => {
                asker.put(desk, &CertRecord::NotInstallable(package))?;
                Ok(Claim::Uninstallable)
            }
            Reply::Undecided => {
                asker.put(desk, &CertRecord::Unknown(package))?;
                Ok(Claim::Unknown)
            }
        }
    }

    /// Asks for the first pairs of a group until an installation is found, which mostly uses few clusters, and puts its claim by that
    /// and a known installation of today.
    fn claim_by_first<D: Desk>(
        &mut self,
        asker: &mut Asker,
        window: &mut Window,
        desk: &mut D,
        group: &mut Group,
        today: u32,
    ) -> Result<Claim, WorkError>
        requires writing { IsWriting (D.view desk.old).mode }
        requires suits { Suits asker.old window.old group.old.claimed }
        requires fits { FitsSpace self.old.covering.space asker.old.log.variables group.old.claimed }
        requires present { group.old.present ≡ variable_of self.old.covering.space (Present (group.old.claimed - 1)) }
        requires today { IsTodayWith window.old group.old.present today }
        requires first { IsFirst self.old.covering window.old (group_of group.old.claimed group.old.present) group.old today }
        ensures ok { IfOk result (ClaimMore KeepsChallenged group.old.claimed (D.view desk.old) (D.view desk.new) asker.old asker.new window.old window.new self.old.covering self.new.covering) }
        ensures err { IfErr result (ClaimStops KeepsChallenged group.old.claimed (D.view desk.old) (D.view desk.new) asker.old window.old self.old.covering) }
        ensures suits { OnOk result (Suits asker.new window.new group.old.claimed) }
        ensures variables { OnOk result (window.new.variables ≡ window.old.variables) }
        ensures space { self.new.covering.space ≡ self.old.covering.space }
        ensures grows { Grows (D.view desk.old) (D.view desk.new) }
    {
        file_grows();
        pairs_are_of_the_space();
        self.covering.keeps_invariant();
        let earlier = window.count();
        window.keeps_invariant();
        self.ask_pairs(asker, window, desk, group, true)?;
        let taken = self.covering.take_up_behind(window, group, earlier, today)?;
        if taken {
            return self.claim_group(asker, window, desk, group);
        }
        self.claim_by_today(asker, window, desk, group, earlier)
    }

    /// Claims a package by a known installation of today, where there is one.
    fn claim_known<D: Desk>(
        &mut self,
        asker: &mut Asker,
        window: &mut Window,
        desk: &mut D,
        package: u32,
        present: u32,
        today: u32,
    ) -> Result<Claim, WorkError>
        requires writing { IsWriting (D.view desk.old).mode }
        requires suits { Suits asker.old window.old «package» }
        requires fits { FitsSpace self.old.covering.space asker.old.log.variables «package» }
        requires present { present ≡ variable_of self.old.covering.space (Present («package» - 1)) }
        requires today { IsTodayWith window.old present today }
        ensures ok { IfOk result (ClaimMore KeepsChallenged «package» (D.view desk.old) (D.view desk.new) asker.old asker.new window.old window.new self.old.covering self.new.covering) }
        ensures err { IfErr result (ClaimStops KeepsChallenged «package» (D.view desk.old) (D.view desk.new) asker.old window.old self.old.covering) }
        ensures suits { OnOk result (Suits asker.new window.new «package») }
        ensures variables { OnOk result (window.new.variables ≡ window.old.variables) }
        ensures space { self.new.covering.space ≡ self.old.covering.space }
        ensures grows { Grows (D.view desk.old) (D.view desk.new) }
    {
        file_grows();
        pairs_are_of_the_space();
        self.covering.keeps_invariant();
        window.keeps_invariant();
        if let Some(mut group) = self.covering.known_group(window, package, present, today)? {
            return self.claim_group(asker, window, desk, &mut group);
        }
        match self.covering.first_group(window, package, present, today)? {
            Some(mut group) => self.claim_by_first(asker, window, desk, &mut group, today),
            None => self.claim_found(asker, window, desk, package, present),
        }
    }

    /// Claims a package by an installation of today that is asked for.
    fn claim_found<D: Desk>(
        &mut self,
        asker: &mut Asker,
        window: &mut Window,
        desk: &mut D,
        package: u32,
        present: u32,
    ) -> Result<Claim, WorkError>
        requires writing { IsWriting (D.view desk.old).mode }
        requires suits { Suits asker.old window.old «package» }
        requires fits { FitsSpace self.old.covering.space asker.old.log.variables «package» }
        requires present { present ≡ variable_of self.old.covering.space (Present («package» - 1)) }
        ensures ok { IfOk result (ClaimMore KeepsChallenged «package» (D.view desk.old) (D.view desk.new) asker.old asker.new window.old window.new self.old.covering self.new.covering) }
        ensures err { IfErr result (ClaimStops KeepsChallenged «package» (D.view desk.old) (D.view desk.new) asker.old window.old self.old.covering) }
        ensures suits { OnOk result (Suits asker.new window.new «package») }
        ensures variables { OnOk result (window.new.variables ≡ window.old.variables) }
        ensures space { self.new.covering.space ≡ self.old.covering.space }
        ensures grows { Grows (D.view desk.old) (D.view desk.new) }
    {
        let earlier = window.count();
        let mut group = Group::new(self.alloc, package, present);
        self.claim_by_today(asker, window, desk, &mut group, earlier)
    }

    /// Claims a package by a known installation of today, or asks for one.
    fn claim<D: Desk>(
        &mut self,
        asker: &mut Asker,
        window: &mut Window,
        desk: &mut D,
        package: u32,
    ) -> Result<Claim, WorkError>
        requires writing { IsWriting (D.view desk.old).mode }
        requires suits { Suits asker.old window.old «package» }
        requires fits { FitsSpace self.old.covering.space asker.old.log.variables «package» }
        ensures ok { IfOk result (ClaimMore KeepsChallenged «package» (D.view desk.old) (D.view desk.new) asker.old asker.new window.old window.new self.old.covering self.new.covering) }
        ensures err { IfErr result (ClaimStops KeepsChallenged «package» (D.view desk.old) (D.view desk.new) asker.old window.old self.old.covering) }
        ensures suits { OnOk result (Suits asker.new window.new «package») }
        ensures variables { OnOk result (window.new.variables ≡ window.old.variables) }
        ensures space { self.new.covering.space ≡ self.old.covering.space }
        ensures grows { Grows (D.view desk.old) (D.view desk.new) }
    {
        self.covering.keeps_invariant();
        let present = self.variable(package);
        match self.covering.today_in(window, present) {
            Some(today) => self.claim_known(asker, window, desk, package, present, today),
            None => self.claim_found(asker, window, desk, package, present),
        }
    }
}

impl Claimant for ChallengedClaimant {
    ghost use Rattle.dist_challenge.specs.ChallengedPrivate.{KeepsChallenged};
    ghost use Rattle.dist_sweep.specs.Futures.{FitsSpace};

    ghost keeps = { λ g before c. KeepsChallenged g before c.covering };

    ghost fits = { λ c n p. FitsSpace c.covering.space n p };

    fn settle<D: Desk>(
        &mut self,
        asker: &mut Asker,
        window: &mut Window,
        desk: &mut D,
        package: u32,
    ) -> Result<Claim, WorkError> {
        self.claim(asker, window, desk, package)
    }
}
