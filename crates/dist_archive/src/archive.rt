//! An archive: what it holds, and how it takes a step.
ghost use Rattle.std.specs.Prelude.{◌≡◌, ◌≢◌, ◌↔◌, ◌+◌, ◌<◌, IfErr, IfOk, IsTrue, OnErr, OnOk, Some, length, slice_get};
ghost use Rattle.std.specs.Option.{option_copied};
ghost use Rattle.dist_base.specs.Answers.{IsExactly};
ghost use Rattle.dist_repo.specs.declared.package.Package.{Package};
ghost use Rattle.dist_future.specs.Future.{IsFuture};
ghost use Rattle.dist_archive.specs.Archive.{IsHeldAs, IsInRange, brought};
ghost use Rattle.dist_archive.specs.Refusals.{Refuses};
ghost use Rattle.dist_archive.specs.AnswersPrivate.{IsNeverRefused, IsOnlyRefusal};
ghost use Rattle.dist_archive.specs.Steps.{IsHeld, Makes};
ghost use Rattle.dist_archive.specs.declared.step.StepError.{StepError};

use crate::entry_places::EntryPlaces;
use crate::finding::number_named;
use crate::members::Held;
use crate::new_names::NewNames;
use crate::slots::{Slot, Slots};
use crate::step::{Step, StepError};
use dist_repo::Package;
use dist_space::Space;
use std::alloc::{AllocError, Global};
use std::marker::Model;

/// The packages that are held of a repository's names and of new ones. The repository stands in its space.
#[derive(Drop)]
pub struct Archive {
    pub(crate) alloc: Global,
    pub(crate) space: Space,
    pub(crate) slots: Slots,
    pub(crate) names: NewNames,
    pub(crate) held: Held,
    pub(crate) places: EntryPlaces,
}

impl Model for Archive {
    ghost use Rattle.std.specs.Prelude.{◌++◌};
    ghost use Rattle.dist_archive.specs.Archive.{ArchiveView};
    ghost use Rattle.dist_archive.specs.MembersPrivate.{IsArchive};
    ghost use Rattle.dist_archive.specs.SlotsPrivate.{standing};

    ghost Value = { ArchiveView };

    ghost view = { λ a. record { space = a.space; packages = standing a.space.repository.packages a.slots ++ a.names } };

    ghost invariant = { λ a. IsArchive a.space a.slots a.names a.held };
}

/// An archive that holds the packages of a space's repository. After a refusal the space is given up.
pub fn start(alloc: Global, space: Space) -> Result<Archive, AllocError>
    ensures { IfOk result (λ archive. archive ≡ record { space = space; packages = space.repository.packages }) }
{
    space.keeps_invariant();
    let slots = Slots::new(alloc, space.package_count())?;
    let held = Held::new(alloc, space.clusters().len())?;
    let places = EntryPlaces::new(alloc, space.repo())?;
    Ok(Archive {
        alloc,
        space,
        slots,
        names: NewNames::new(alloc),
        held,
        places,
    })
}

/// A step is given up once it was taken or refused.
fn let_go(_step: Step) {}

impl Archive {
    /// The space of the repository that the archive came from.
    pub fn space(&self) -> &Space
        ensures { result.now ≡ self.now.space }
    {
        &self.space
    }

    /// The package of a name that is held. It takes no memory.
    pub fn held(&self, name: &[u8]) -> Option<&Package>
        ensures { (p : Package) → (option_copied result ≡ Some p) ↔ IsHeldAs self.now.packages name.now p }
    {
        match number_named(self.space.repo(), name) {
            Some(number) => self.at(number),
            None => self.names.get(name),
        }
    }

    /// Whether a package of a name is held.
    pub(crate) fn holds(&self, name: &[u8]) -> bool
        ensures { IsTrue result ↔ IsHeld self.now.packages name.now }
    {
        self.held(name).is_some()
    }

    /// How many packages are held.
    pub fn len(&self) -> u32
        ensures value { result ≡ length self.now.packages }
        ensures future { IsFuture self.now.space.repository self.now.packages }
    {
        self.slots.filled() + self.names.len() as u32
    }

    /// What is held is a future. Does nothing.
    pub fn keeps_invariant(&self)
        ensures { IsFuture self.now.space.repository self.now.packages }
    {
        self.len();
    }

    /// The package that is held of the name of a package of the repository.
    pub(crate) fn at(&self, number: u32) -> Option<&Package>
        requires { number < length self.now.space.repository.packages }
        ensures { (p n : Package) → slice_get self.now.space.repository.packages number ≡ Some p
            → (option_copied result ≡ Some n) ↔ IsHeldAs self.now.packages p.name n }
    {
        match self.slots.get(number) {
            Slot::Kept => Some(self.space.package(number)),
            Slot::Gone => None,
            Slot::New(copy) => Some(copy),
        }
    }

    /// Takes one step. After a refusal the archive is as before and the step given up.
    pub fn apply(&mut self, step: Step) -> Result<(), StepError>
        requires in_range { IsInRange self.old.space step }
        requires few { length self.old.packages + brought step < 4294967295 }
        ensures space { self.new.space ≡ self.old.space }
        ensures ok { OnOk result (Makes self.old.space step self.old.packages self.new.packages) }
        ensures err { OnErr result (self.new ≡ self.old) }

        // Want of memory apart, each refusal comes exactly where its reason is the first to hold.
        ensures refused { (error : StepError) → IsExactly StepError.NoMemory result error (Refuses self.old.space self.old.packages step error) }
        ensures future { IsFuture self.new.space.repository self.new.packages }
    {
        let done = self.take(&step);
        let_go(step);
        self.keeps_invariant();
        done
    }

    /// Takes one step, or says why it is refused.
    fn take(&mut self, step: &Step) -> Result<(), StepError>
        requires in_range { IsInRange self.old.space step.now }
        requires few { length self.old.packages + brought step.now < 4294967295 }
        ensures space { self.new.space ≡ self.old.space }
        ensures ok { OnOk result (Makes self.old.space step.now self.old.packages self.new.packages) }
        ensures err { OnErr result (self.new ≡ self.old) }
        ensures refused { IfErr result (λ error. error ≢ StepError.NoMemory → IsOnlyRefusal (Refuses self.old.space self.old.packages step.now) error) }
        ensures accepted { OnOk result (IsNeverRefused (Refuses self.old.space self.old.packages step.now)) }
    {
        match step {
            Step::Upload(cluster, version, block) => self.upload(*cluster, version, block),
            Step::Removal(name) => self.remove(name.bytes()),
            Step::NewName(block) => self.bring(block),
        }
    }
}
