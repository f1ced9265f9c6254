//! Removals, and packages of new names.
ghost use Rattle.std.specs.Bool.{OnFalse, OnTrue};
ghost use Rattle.std.specs.Prelude.{◌≡◌, ◌≢◌, ◌⊎◌, ◌↔◌, ◌+◌, ◌<◌, ◌∷◌, [], IfErr, IsTrue, MatchResult, OnErr, OnOk, Some, length, slice_get};
ghost use Rattle.dist_repo.specs.declared.package.Package.{Package};
ghost use Rattle.dist_future.specs.Future.{IsFuture, IsProvided, IsTaken};
ghost use Rattle.dist_archive.specs.AnswersPrivate.{IsNeverRefused, IsOnlyRefusal};
ghost use Rattle.dist_archive.specs.BringingPrivate.{IsFree, IsFreeBlock};
ghost use Rattle.dist_archive.specs.Refusals.{IsNameFault, RefusesName, RefusesRemoval};
ghost use Rattle.dist_archive.specs.Steps.{BringsName, IsHeld, Removes};

use crate::archive::Archive;
use crate::finding::{is_named, number_named};
use crate::slots::Slot;
use crate::step::StepError;
use crate::uploads::has_other_architecture;
use dist_repo::{Package, Repository};

/// Whether an entry of the repository provides a name that no package of it has.
pub(crate) fn is_provided(repo: &Repository, name: &[u8]) -> bool
    requires { ¬ IsTaken repo.now name.now }
    ensures { IsTrue result ↔ IsProvided repo.now name.now }
{
    repo.providers(name).first().is_some()
}

impl Archive {
    /// Whether a package of the repository has a name, or one that is held.
    fn is_in_use(&self, name: &[u8]) -> bool
        ensures { IsTrue result ↔ (IsTaken self.now.space.repository name.now ⊎ IsHeld self.now.packages name.now) }
    {
        is_named(self.space().repo(), name) || self.holds(name)
    }

    /// What is wrong with the package of a new name.
    fn check_name(&self, fresh: &Package) -> Result<(), StepError>
        ensures { MatchResult result (λ _. IsFree self.now.space.repository self.now.packages fresh.now)
            (IsNameFault self.now.space.repository self.now.packages fresh.now) }
    {
        fresh.version.keeps_invariant();
        let name = fresh.name.bytes();
        if self.is_in_use(name) {
            return Err(StepError::NameTaken);
        }
        if is_provided(self.space().repo(), name) {
            return Err(StepError::NameVirtual);
        }
        if fresh.provides.len() > 0 {
            return Err(StepError::HasProvides);
        }
        Ok(())
    }

    /// What is wrong with the block of a new name.
    fn check_block(&self, block: &Repository) -> Result<(), StepError>
        ensures { MatchResult result (λ _. IsFreeBlock self.now.space.repository self.now.packages block.now)
            (RefusesName self.now.space.repository self.now.packages block.now) }
    {
        if has_other_architecture(self.space().repo(), block) {
            return Err(StepError::OtherArchitecture);
        }
        if block.len() != 1 {
            return Err(StepError::NotOne);
        }
        self.check_name(block.package(0))
    }

    /// Takes the package of a new name.
    pub(crate) fn bring(&mut self, block: &Repository) -> Result<(), StepError>
        requires { length self.old.packages + length block.now.packages < 4294967295 }
        ensures space { self.new.space ≡ self.old.space }
        ensures made { OnOk result ((p : Package) × (block.now.packages ≡ p ∷ []) × BringsName self.old.space.repository p self.old.packages self.new.packages) }
        ensures err { OnErr result (self.new ≡ self.old) }
        ensures refused { IfErr result (λ error. error ≢ StepError.NoMemory
            → IsOnlyRefusal (RefusesName self.old.space.repository self.old.packages block.now) error) }
        ensures accepted { OnOk result (IsNeverRefused (RefusesName self.old.space.repository self.old.packages block.now)) }
        ensures future { IsFuture self.new.space.repository self.new.packages }
    {
        self.check_block(block)?;
        self.names.insert(block.package(0))?;
        Ok(())
    }

    /// Takes the package away that is held of the name of a package of the repository, and says whether there was one.
    fn remove_own(&mut self, number: u32) -> bool
        requires { number < length self.old.space.repository.packages }
        ensures space { self.new.space ≡ self.old.space }
        ensures there { (p : Package) → slice_get self.old.space.repository.packages number ≡ Some p → IsTrue result ↔ IsHeld self.old.packages p.name }
        ensures made { (p : Package) → slice_get self.old.space.repository.packages number ≡ Some p
            → OnTrue result (Removes p.name self.old.packages self.new.packages) }
        ensures same { OnFalse result (self.new ≡ self.old) }
    {
        if !self.slots.get(number).is_filled() {
            return false;
        }
        self.slots.put(number, Slot::Gone);
        true
    }

    /// Takes the package of a new name away, and says whether there was one.
    fn remove_new(&mut self, name: &[u8]) -> bool
        requires { ¬ IsTaken self.old.space.repository name.now }
        ensures space { self.new.space ≡ self.old.space }
        ensures there { IsTrue result ↔ IsHeld self.old.packages name.now }
        ensures made { OnTrue result (Removes name.now self.old.packages self.new.packages) }
        ensures same { OnFalse result (self.new ≡ self.old) }
    {
        if !self.holds(name) {
            return false;
        }
        self.names.remove(name);
        true
    }

    /// Takes a package away.
    pub(crate) fn remove(&mut self, name: &[u8]) -> Result<(), StepError>
        ensures space { self.new.space ≡ self.old.space }
        ensures made { OnOk result (Removes name.now self.old.packages self.new.packages) }
        ensures err { OnErr result (self.new ≡ self.old) }
        ensures refused { IfErr result (IsOnlyRefusal (RefusesRemoval self.old.packages name.now)) }
        ensures accepted { OnOk result (IsNeverRefused (RefusesRemoval self.old.packages name.now)) }
    {
        let there = match number_named(self.space.repo(), name) {
            Some(number) => self.remove_own(number),
            None => self.remove_new(name),
        };
        if !there {
            return Err(StepError::NotHeld);
        }
        Ok(())
    }
}
