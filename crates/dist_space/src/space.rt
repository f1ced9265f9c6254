//! The space of the futures of a repository.
ghost use Rattle.std.specs.Prelude.{◌≡◌, ◌≤◌, ◌<◌, ◌-◌, ◌^◌, ◌↔◌, ℕ, [], Contains, IfErr, IfOk, Some, length, slice_get, slice_index};
ghost use Rattle.dist_base.specs.declared.TheConstants.{MAX_PACKAGES, MAX_VARIABLES};
ghost use Rattle.dist_base.specs.Answers.{IsExactly};
ghost use Rattle.dist_repo.specs.Order.{IsFlat};
ghost use Rattle.dist_repo.specs.Size.{IsWithinSize};
ghost use Rattle.dist_space.specs.EntryOrder.{AreEntryOrders, AreInUseOrder, AreMatchedAlike, IsEntryNamed};
ghost use Rattle.dist_space.specs.Kept.{IsExtended, IsFull};
ghost use Rattle.dist_space.specs.NumberingPrivate.{meanings_of};
ghost use Rattle.dist_space.specs.Space.{IsMeaningOf, IsMeaning, IsSpace, cluster_classes, example_at, fresh_classes, variable_of};
ghost use Rattle.dist_space.specs.SpaceOf.{HasMoreVariables, IsSpaceOf};

use crate::entry_order::{alike_count, entry_orders, named};
use crate::errors::SpaceError;
use crate::frame::Frame;
use crate::meaning::Meaning;
use crate::numbering::number_meanings;
use crate::places::Places;
use crate::space_laws::spaces_are_one;
use dist_base::Flat;
use dist_classes::{ClassExample, Classes, Names};
use dist_cluster::Clusters;
use dist_relation::{Atom, Name};
use dist_repo::{Package, Repository};
use std::alloc::{AllocError, Global};
use std::marker::Model;

/// A flat repository, the classes to which its clusters may move, and what each variable means. It is kept at mode essential
/// or plain.
#[derive(Drop)]
pub struct Space {
    pub(crate) frame: Frame,
    /// The variable of a number, from 1, has the meaning at the place before.
    pub(crate) meanings: Vec<Meaning>,
    pub(crate) places: Places,
    /// For each package the places of its entries of Provides, in order.
    entries: Flat<u32>,
}

impl Model for Space {
    ghost use Rattle.dist_space.specs.EntryOrder.{AreEntryOrders};
    ghost use Rattle.dist_space.specs.Kept.{IsWhole};
    ghost use Rattle.dist_space.specs.Space.{SpaceView};

    ghost Value = { SpaceView };

    ghost view = { λ s. record {
      repository = s.frame.repository;
      essential = s.frame.essential;
      clusters = s.frame.clusters;
      cluster_of = s.frame.cluster_of;
      classes = s.frame.classes;
      names = s.frame.names;
      name_classes = s.frame.name_classes;
      meanings = s.meanings.items;
    } };

    ghost invariant = { λ s. IsWhole (record {
      repository = s.frame.repository;
      essential = s.frame.essential;
      clusters = s.frame.clusters;
      cluster_of = s.frame.cluster_of;
      classes = s.frame.classes;
      names = s.frame.names;
      name_classes = s.frame.name_classes;
      meanings = s.meanings.items;
    }) × AreEntryOrders s.frame.repository s.entries };
}

/// Guesses of places, and the entries of each package in order.
#[derive(Drop)]
struct Tables {
    places: Places,
    entries: Flat<u32>,
}

/// Finds both.
fn tables_of(alloc: Global, frame: &Frame, meanings: &[Meaning]) -> Result<Tables, AllocError>
    ensures { IfOk result (λ tables. AreEntryOrders frame.now.repository tables.entries) }
{
    let places = Places::of(alloc, frame.package_count(), meanings)?;
    match entry_orders(alloc, frame) {
        Ok(entries) => Ok(Tables { places, entries }),
        Err(error) => {
            drop(places);
            Err(error)
        }
    }
}

/// What each variable means, and the tables of a space.
#[derive(Drop)]
struct Numbered {
    meanings: Vec<Meaning>,
    tables: Tables,
}

/// Numbers the variables of a space.
fn number_all(alloc: Global, frame: &Frame, variables: u32) -> Result<Numbered, SpaceError>
    ensures ok { IfOk result (λ found. IsExtended variables [] (meanings_of frame.now) found.meanings.items) }
    ensures entries { IfOk result (λ found. AreEntryOrders frame.now.repository found.tables.entries) }
    ensures err { IfErr result (IsFull variables (length (meanings_of frame.now))) }
{
    let meanings = number_meanings(alloc, frame, variables)?;
    match tables_of(alloc, frame, &meanings) {
        Ok(tables) => Ok(Numbered { meanings, tables }),
        Err(_) => {
            drop(meanings);
            Err(SpaceError::NoMemory)
        }
    }
}

/// The space of a flat repository, which is kept in it, at mode essential or plain. After an `Err` the repository is given up.
pub fn space_of(
    alloc: Global,
    repo: Repository,
    essential: bool,
    variables: u32,
) -> Result<Space, SpaceError>
    requires flat { IsFlat repo.packages }
    requires within_size { IsWithinSize repo }
    requires variables { variables ≤ MAX_VARIABLES }
    ensures ok { IfOk result (λ space. IsSpaceOf repo essential space) }
    ensures within { IfOk result (λ space. length space.meanings ≤ variables) }
    ensures too_many { IsExactly SpaceError.NoMemory result SpaceError.TooManyVariables (HasMoreVariables repo essential variables) }
{
    // What this call tells is that no other space has another number of variables.
    spaces_are_one();
    let frame = Frame::new(alloc, repo, essential)?;
    match number_all(alloc, &frame, variables) {
        Ok(numbered) => Ok(Space {
            frame,
            meanings: numbered.meanings,
            places: numbered.tables.places,
            entries: numbered.tables.entries,
        }),
        Err(error) => {
            drop(frame);
            Err(error)
        }
    }
}

impl Space {
    /// The repository, which is flat and within the stated sizes.
    pub fn repo(&self) -> &Repository
        ensures value { result.now ≡ self.now.repository }
        ensures flat { IsFlat self.now.repository.packages }
        ensures within_size { IsWithinSize self.now.repository }
    {
        &self.frame.repo
    }

    /// Whether the space is at mode essential.
    pub fn essential(&self) -> bool
        ensures { result ≡ self.now.essential }
    {
        self.frame.essential
    }

    /// The clusters of the repository's packages.
    pub fn clusters(&self) -> &Clusters
        ensures { result.now ≡ self.now.clusters }
    {
        &self.frame.clusters
    }

    /// The new names.
    pub fn names(&self) -> &Names
        ensures { result.now ≡ self.now.names }
    {
        &self.frame.names
    }

    /// The classes of a cluster.
    pub fn classes(&self, cluster: u32) -> &Classes
        requires { cluster < length self.now.clusters.members }
        ensures { result.now ≡ cluster_classes self.now cluster }
    {
        self.frame.classes[cluster as usize].classes()
    }

    /// The classes of a new name.
    pub fn name_classes(&self, name: u32) -> &Classes
        requires { name < length self.now.names }
        ensures { result.now ≡ fresh_classes self.now name }
    {
        self.frame.name_classes[name as usize].classes()
    }

    /// How many variables there are.
    pub fn variables(&self) -> u32
        ensures value { result ≡ length self.now.meanings }
        ensures stated { result ≤ MAX_VARIABLES }
        ensures space { IsSpace self.now }
    {
        self.meanings.len() as u32
    }

    /// It is a space. It has at most as many variables and packages as may be, and fewer clusters than 32 bits can number.
    /// Does nothing.
    pub fn keeps_invariant(&self)
        ensures space { IsSpace self.now }
        ensures variables { length self.now.meanings ≤ MAX_VARIABLES }
        ensures packages { length self.now.repository.packages ≤ MAX_PACKAGES }
        ensures clusters { length self.now.clusters.members < 2 ^ 32 }
    {
        self.variables();
        self.repo();
        self.clusters().len();
    }

    /// What a variable means; the first one has the number 1.
    pub fn meaning(&self, variable: u32) -> Meaning
        requires from_one { 1 ≤ variable }
        requires in_range { variable ≤ length self.now.meanings }
        ensures value { slice_get self.now.meanings (variable - 1) ≡ Some result }
        ensures is_meaning { IsMeaning self.now result }
        ensures back { variable_of self.now result ≡ variable }
        ensures of { IsMeaningOf self.now variable result }
    {
        self.meanings[variable as usize - 1]
    }

    /// How many classes a cluster has. There are none of a number past the last cluster.
    pub fn class_count(&self, cluster: u32) -> u32
        ensures { result ≡ length (cluster_classes self.now cluster) }
    {
        match self.frame.classes.get(cluster as usize) {
            Some(classes) => classes.len(),
            None => 0,
        }
    }

    /// A cluster has fewer classes than 32 bits can number. Does nothing.
    pub fn classes_are_few(&self, cluster: u32)
        ensures { length (cluster_classes self.now cluster) < 2 ^ 32 }
    {
        self.class_count(cluster);
    }

    /// How many classes a new name has. There are none of a number past the last name.
    pub fn name_class_count(&self, name: u32) -> u32
        ensures { result ≡ length (fresh_classes self.now name) }
    {
        match self.frame.name_classes.get(name as usize) {
            Some(classes) => classes.len(),
            None => 0,
        }
    }

    /// How many packages there are.
    pub fn package_count(&self) -> u32
        ensures { result ≡ length self.now.repository.packages }
    {
        self.frame.package_count()
    }

    /// The package of a number. Together the packages of a repository have fewer entries than 32 bits can number.
    pub fn package(&self, number: u32) -> &Package
        requires { number < length self.now.repository.packages }
        ensures value { slice_get self.now.repository.packages number ≡ Some result.now }
        ensures few_entries { length result.now.provides < 2 ^ 32 }
    {
        self.frame.package(number)
    }

    /// The places of those entries of Provides of a package that have a name.
    pub fn entries_named(&self, member: u32, name: &Name) -> &[u32]
        requires { member < length self.now.repository.packages }
        ensures named { (j : ℕ) → Contains result.now j ↔ IsEntryNamed self.now.repository.packages member name.now j }
        ensures in_order { AreInUseOrder self.now.repository member result.now }
    {
        let provides = &self.frame.package(member).provides;
        named(provides, self.entries.get(member as usize), name.bytes())
    }

    /// How many entries of the name of an atom, from the first one on, the atom matches as it does the first one, whatever the
    /// new version of their package.
    pub fn alike_count(&self, member: u32, atom: &Atom, places: &[u32]) -> usize
        requires member { member < length self.now.repository.packages }
        requires named { (j : ℕ) → Contains places.now j → IsEntryNamed self.now.repository.packages member atom.now.name j }
        requires in_order { AreInUseOrder self.now.repository member places.now }
        ensures within { result ≤ length places.now }
        ensures some { 0 < length places.now → 0 < result }
        ensures alike { (class k : ℕ) → k < result → AreMatchedAlike self.now atom.now member class (slice_index places.now 0) (slice_index places.now k) }
    {
        alike_count(&self.frame, self.frame.package(member), &atom.bound, places)
    }

    /// The example of a class of a cluster.
    pub fn example(&self, cluster: u32, class: u32) -> ClassExample<'_>
        requires { class < length (cluster_classes self.now cluster) }
        ensures { result ≡ example_at (cluster_classes self.now cluster) class }
    {
        self.frame.classes[cluster as usize].example(class)
    }

    /// The example of a class of a new name.
    pub fn name_example(&self, name: u32, class: u32) -> ClassExample<'_>
        requires { class < length (fresh_classes self.now name) }
        ensures { result ≡ example_at (fresh_classes self.now name) class }
    {
        self.frame.name_classes[name as usize].example(class)
    }
}
