//! The claims on outdated packages.
ghost use Rattle.std.specs.Prelude.{◌≡◌, ◌+◌, ◌-◌, ◌^◌, ◌<◌, ◌≤◌, [], ◌∷◌, ◌++◌, IfErr, IfOk, IfSome, OnOk, length, replicate};
ghost use Rattle.circular_buffer.specs.Buffer.{keep_last};
ghost use Rattle.dist_cert.specs.ClaimRules.{yes};
ghost use Rattle.dist_cert.specs.declared.TheConstants.{REACH};
ghost use Rattle.dist_outside.specs.Files.{IsWriting};
ghost use Rattle.dist_space.specs.Space.{IsSpace, variable_of};
ghost use Rattle.dist_space.specs.declared.meaning.Meaning.TheVariants.{Present};
ghost use Rattle.dist_sweep.specs.Claiming.{ClaimMore, ClaimStops, Suits};
ghost use Rattle.dist_line_write.specs.Script.{Grows};
ghost use Rattle.dist_sweep.specs.Futures.{FitsSpace};
ghost use Rattle.dist_outdated.specs.OutdatedPrivate.{AreNoted, IsNextHeld, IsReached, KeepsOutdated};

use dist_cert::{CertRecord, Claim, REACH};
use dist_clause::Assignment;
use dist_line_write::Asker;
use dist_outside::{Desk, WorkError, file_grows};
use dist_space::{Meaning, Space, packages_come_first};
use dist_sweep::{Claimant, Reply, Window, ask, next_true};
use std::alloc::{AllocError, Global};
use std::marker::Model;

/// Makes the claims on outdated packages. Between them it keeps for each package the latest installation that holds it.
#[derive(Drop)]
pub(crate) struct OutdatedClaimant {
    alloc: Global,
    space: Space,
    /// Installations by their numbers from 1, or 0 where there is none.
    latest: Vec<u32>,
}

impl Model for OutdatedClaimant {
    ghost use Rattle.std.specs.Prelude.{◌≡◌, length};
    ghost use Rattle.dist_outdated.specs.OutdatedPrivate.{OutdatedView};

    ghost Value = { OutdatedView };

    ghost view = { λ c. record { space = c.space; latest = c.latest.items } };

    ghost invariant = { λ c. length c.latest.items ≡ length c.space.repository.packages };
}

/// The first package, from this one on, that some values hold, or the number of all packages where none is held. The packages
/// stand behind the first variable, in their order.
fn next_held(space: &Space, values: &Assignment, member: u32) -> u32
    requires values { length values.now ≡ length space.now.meanings }
    requires member { member ≤ length space.now.repository.packages }
    ensures { IsNextHeld space.now values.now member result }
{
    packages_come_first();
    let packages = space.package_count();
    if member == packages {
        return packages;
    }
    match next_true(values, space.variables(), member + 2) {
        Some(variable) => packages.min(variable - 2),
        None => packages,
    }
}

/// Notes the number of an installation for each package that it holds.
fn note(space: &Space, latest: &mut [u32], values: &Assignment, number: u32)
    requires values { length values.now ≡ length space.now.meanings }
    requires latest { length latest.old ≡ length space.now.repository.packages }
    ensures { AreNoted space.now (length space.now.repository.packages) values.now number latest.old latest.new }
{
    let packages = space.package_count();
    let mut member = next_held(space, values, 0);
    'members: while member < packages {
        latest[member as usize] = number;
        member = next_held(space, values, member + 1);
    }
}

/// The question of a variable.
fn alone(alloc: Global, variable: u32) -> Result<Vec<(u32, bool)>, AllocError>
    ensures { IfOk result (λ words. words.items ≡ yes variable ∷ []) }
{
    let mut words = Vec::new(alloc);
    words.push((variable, true))?;
    Ok(words)
}

/// The number of the next installation. Where there is none, that is want of memory.
fn next_number(window: &Window) -> Result<u32, AllocError>
    ensures { IfOk result (λ number. number ≡ window.now.count + 1) }
{
    let count = window.count();
    if count == u32::MAX {
        return Err(AllocError);
    }
    Ok(count + 1)
}

impl OutdatedClaimant {
    /// A claimant for a certificate without installations, on the futures of the space.
    pub(crate) fn new(alloc: Global, space: Space) -> Result<OutdatedClaimant, AllocError>
        ensures { IfOk result (λ claimant. claimant ≡ record { space = space; latest = replicate (length space.repository.packages) 0 }) }
    {
        match vec![in alloc; 0u32; space.package_count() as usize] {
            Ok(latest) => Ok(OutdatedClaimant {
                alloc,
                space,
                latest,
            }),
            Err(error) => {
                drop(space);
                Err(error)
            }
        }
    }

    /// The latest installation with a package, where a claim may reach it.
    fn reached(&self, window: &Window, package: u32) -> Option<u32>
        requires from_one { 1 ≤ «package» }
        requires upto { «package» ≤ length self.now.space.repository.packages }
        ensures { IfSome result (IsReached self.now window.now «package») }
    {
        let number = self.latest[package as usize - 1];
        if number >= 1 && (window.count() as usize) < number as usize + REACH {
            Some(number)
        } else {
            None
        }
    }

    /// Adds an installation as the latest one and notes it. Its number is told.
    fn add(&mut self, window: &mut Window, values: Assignment) -> Result<u32, AllocError>
        requires values { length values ≡ length self.old.space.meanings }
        requires variables { length values ≡ window.old.variables }
        ensures number { IfOk result (λ number. number ≡ window.old.count + 1) }
        ensures noted { OnOk result (AreNoted self.old.space (length self.old.space.repository.packages) values (window.old.count + 1) self.old.latest self.new.latest) }
        ensures window { OnOk result (window.new ≡ record window.old { kept = keep_last REACH (window.old.kept ++ values ∷ []); count = window.old.count + 1 }) }
        ensures space { self.new.space ≡ self.old.space }
    {
        let number = next_number(window)?;
        note(&self.space, &mut self.latest, &values, number);
        window.add(values)?;
        Ok(number)
    }

    /// The variable of a package.
    fn variable(&self, package: u32) -> u32
        requires from_one { 1 ≤ «package» }
        requires upto { «package» ≤ length self.now.space.repository.packages }
        ensures value { result ≡ variable_of self.now.space (Present («package» - 1)) }
        ensures from_one { 1 ≤ result }
        ensures in_range { result ≤ length self.now.space.meanings }
        ensures space { IsSpace self.now.space }
        ensures few { length self.now.space.repository.packages < 2 ^ 32 }
    {
        self.space.keeps_invariant();
        self.space.variable(&Meaning::Present(package - 1))
    }

    /// Asks for a package and puts its claim.
    fn ask<D: Desk>(
        &mut self,
        asker: &mut Asker,
        window: &mut Window,
        desk: &mut D,
        package: u32,
    ) -> Result<Claim, WorkError>
        requires writing { IsWriting (D.view desk.old).mode }
        requires suits { Suits asker.old window.old «package» }
        requires fits { FitsSpace self.old.space asker.old.log.variables «package» }
        ensures ok { IfOk result (ClaimMore KeepsOutdated «package» (D.view desk.old) (D.view desk.new) asker.old asker.new window.old window.new self.old self.new) }
        ensures err { IfErr result (ClaimStops KeepsOutdated «package» (D.view desk.old) (D.view desk.new) asker.old window.old self.old) }
        ensures suits { OnOk result (Suits asker.new window.new «package») }
        ensures variables { OnOk result (window.new.variables ≡ window.old.variables) }
        ensures space { self.new.space ≡ self.old.space }
        ensures grows { Grows (D.view desk.old) (D.view desk.new) }
    {
        file_grows();
        let variable = self.variable(package);
        let question = alone(self.alloc, variable)?;
        match ask(asker, desk, &question, &[], None)? {
            Reply::Found(values) => {
                let number = self.add(window, values)?;
                asker.put(desk, &CertRecord::Alive(package, number))?;
                Ok(Claim::Alive)
            }
            Reply::Refuted => {
                asker.put(desk, &CertRecord::Outdated(package))?;
                Ok(Claim::Outdated)
            }
            Reply::Undecided => {
                asker.put(desk, &CertRecord::Unknown(package))?;
                Ok(Claim::Unknown)
            }
        }
    }

    /// Claims a package by the installation that is known, or asks for it.
    fn claim<D: Desk>(
        &mut self,
        asker: &mut Asker,
        window: &mut Window,
        desk: &mut D,
        package: u32,
    ) -> Result<Claim, WorkError>
        requires writing { IsWriting (D.view desk.old).mode }
        requires suits { Suits asker.old window.old «package» }
        requires fits { FitsSpace self.old.space asker.old.log.variables «package» }
        ensures ok { IfOk result (ClaimMore KeepsOutdated «package» (D.view desk.old) (D.view desk.new) asker.old asker.new window.old window.new self.old self.new) }
        ensures err { IfErr result (ClaimStops KeepsOutdated «package» (D.view desk.old) (D.view desk.new) asker.old window.old self.old) }
        ensures suits { OnOk result (Suits asker.new window.new «package») }
        ensures variables { OnOk result (window.new.variables ≡ window.old.variables) }
        ensures space { self.new.space ≡ self.old.space }
        ensures grows { Grows (D.view desk.old) (D.view desk.new) }
    {
        match self.reached(window, package) {
            Some(number) => {
                asker.put(desk, &CertRecord::Alive(package, number))?;
                Ok(Claim::Alive)
            }
            None => self.ask(asker, window, desk, package),
        }
    }
}

impl Claimant for OutdatedClaimant {
    ghost use Rattle.dist_outdated.specs.OutdatedPrivate.{KeepsOutdated};
    ghost use Rattle.dist_sweep.specs.Futures.{FitsSpace};

    ghost keeps = { λ g before c. KeepsOutdated g before c };

    ghost fits = { λ c n p. FitsSpace c.space n p };

    fn settle<D: Desk>(
        &mut self,
        asker: &mut Asker,
        window: &mut Window,
        desk: &mut D,
        package: u32,
    ) -> Result<Claim, WorkError> {
        self.claim(asker, window, desk, package)
    }
}
