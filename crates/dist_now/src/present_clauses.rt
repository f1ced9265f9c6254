//! The clauses of the present, made in their order, so that the first limit that they pass ends the work. The time goes
//! into the providers of the names in atoms, and into the literals that are written.
ghost use Rattle.std.specs.Prelude.{◌≡◌, ◌+◌, ◌<◌, ◌≤◌, ◌↔◌, ◌∷◌, ℕ, false, true, All, Contains, IfErr, IfOk, OnOk, Some, slice_get, length, map};
ghost use Rattle.std.specs.List.Sorted.{IsNonDecreasingBy, IsStrictlyIncreasing};
ghost use Rattle.dist_base.specs.declared.TheConstants.{MAX_CLAUSES, MAX_LITERALS, MAX_PACKAGES, MAX_VARIABLES};
ghost use Rattle.dist_base.specs.Answers.{IsExactly};
ghost use Rattle.dist_clause.specs.ClauseList.{IsWithinLimits};
ghost use Rattle.dist_clause.specs.declared.clause_set.PushError.TheVariants.{TooManyClauses, TooManyLiterals, NoMemory};
ghost use Rattle.dist_now.specs.GatheringPrivate.{AreSplitAt, IsCauseAt, IsEssentialSet, IsFront, IsLastEssential, IsNamedFront, IsPairIn, IsPlainSet, IsRejectingPair};
ghost use Rattle.dist_now.specs.Members.{IsItemAt};
ghost use Rattle.dist_now.specs.PresentClauses.{Apart, Item, Required, IsClauseFor, IsDemand, installed, not_installed};
ghost use Rattle.dist_now.specs.PresentSet.{IsCause, IsSetOf, PassesClauses, PassesLiterals};

use crate::clause_text::{add_installed, not_installed};
use crate::essentials::{has_essential_before, last_essential};
use crate::numbers::{add_versions, gather_meeting, gather_named, put_in_order};
use crate::rejections::{add_partners, next_rejections};
use dist_base::{MAX_CLAUSES, MAX_LITERALS, MAX_PACKAGES, MAX_VARIABLES};
use dist_clause::{ClauseSet, Lit, PushError};
use dist_relation::{Alternatives, Name};
use dist_repo::{Package, Repository};
use std::alloc::{AllocError, Global};

/// Vectors that are used again for each clause.
#[derive(Drop)]
struct Scratch {
    numbers: Vec<u32>,
    clause: Vec<Lit>,
}

impl Scratch {
    /// Empty vectors.
    fn new(alloc: Global) -> Scratch {
        Scratch {
            numbers: Vec::new(alloc),
            clause: Vec::new(alloc),
        }
    }

    /// Writes the clause of an item: without its package, or with one of those that meet it.
    fn write_item(&mut self, number: u32) -> Result<(), AllocError>
        requires number { number < MAX_VARIABLES }
        requires numbers { All (λ k. k < MAX_VARIABLES) self.old.numbers.items }
        ensures { OnOk result (self.new.clause.items ≡ not_installed number ∷ map installed self.old.numbers.items) }
    {
        self.clause.clear();
        self.clause.push(not_installed(number))?;
        add_installed(&mut self.clause, &self.numbers)
    }

    /// Gathers the packages of a name and writes its clause: with one of them.
    fn write_name(&mut self, repo: &Repository, name: &Name) -> Result<(), AllocError>
        requires { length repo.now.packages ≤ MAX_PACKAGES }
        ensures { OnOk result (IsClauseFor repo.now (Required name.now) self.new.clause.items) }
    {
        gather_named(repo, name, &mut self.numbers)?;
        self.clause.clear();
        add_installed(&mut self.clause, &self.numbers)
    }
}

/// Adds the clause of the item at a place of a package, unless the package meets it itself.
fn push_item(
    repo: &Repository,
    number: u32,
    place: usize,
    alternatives: &Alternatives,
    scratch: &mut Scratch,
    set: &mut ClauseSet,
) -> Result<(), PushError>
    requires packages { length repo.now.packages ≤ MAX_PACKAGES }
    requires item { IsItemAt repo.now.packages number place alternatives.now }
    requires front { IsFront repo.now (Item number place) set.old set.old }
    ensures ok { OnOk result (IsFront repo.now (Item number (place + 1)) set.old set.new) }
    ensures err { IfErr result (IsCauseAt repo.now false set.old) }
{
    let asked = repo.asked_alternatives(number, place);
    if let Err(AllocError) = gather_meeting(repo, alternatives, asked, &mut scratch.numbers) {
        return Err(PushError::NoMemory);
    }
    if scratch.numbers.as_slice().contains(&number) {
        return Ok(());
    }
    if let Err(AllocError) = scratch.write_item(number) {
        return Err(PushError::NoMemory);
    }
    set.push(&scratch.clause)
}

/// Adds the clauses of a package's items.
fn push_items_of(
    repo: &Repository,
    number: u32,
    package: &Package,
    scratch: &mut Scratch,
    set: &mut ClauseSet,
) -> Result<(), PushError>
    requires packages { length repo.now.packages ≤ MAX_PACKAGES }
    requires number { slice_get repo.now.packages number ≡ Some «package».now }
    requires front { IsFront repo.now (Item number 0) set.old set.old }
    ensures ok { OnOk result (IsFront repo.now (Item (number + 1) 0) set.old set.new) }
    ensures err { IfErr result (IsCauseAt repo.now false set.old) }
{
    for place in 0..package.depends.len() {
        push_item(
            repo,
            number,
            place,
            package.depends.get(place),
            scratch,
            set,
        )?;
    }
    Ok(())
}

/// Adds the clauses of all items.
fn push_items(
    repo: &Repository,
    scratch: &mut Scratch,
    set: &mut ClauseSet,
) -> Result<(), PushError>
    requires packages { length repo.now.packages ≤ MAX_PACKAGES }
    requires front { IsFront repo.now (Item 0 0) set.old set.old }
    ensures ok { OnOk result (IsFront repo.now (Apart 0 0) set.old set.new) }
    ensures err { IfErr result (IsCauseAt repo.now false set.old) }
{
    for number in 0..repo.len() {
        push_items_of(repo, number, repo.package(number), scratch, set)?;
    }
    Ok(())
}

/// Adds the clauses of a package and each of the later ones that it must be apart from.
fn push_pairs_of(
    repo: &Repository,
    first: u32,
    seconds: &[u32],
    set: &mut ClauseSet,
) -> Result<(), PushError>
    requires packages { length repo.now.packages ≤ MAX_PACKAGES }
    requires rising { IsStrictlyIncreasing seconds.now }
    requires exact { (second : ℕ) → Contains seconds.now second ↔ IsDemand repo.now false (Apart first second) }
    requires front { IsFront repo.now (Apart first 0) set.old set.old }
    ensures ok { OnOk result (IsFront repo.now (Apart (first + 1) 0) set.old set.new) }
    ensures err { IfErr result (IsCauseAt repo.now false set.old) }
{
    for second in seconds {
        set.push(&[not_installed(first), not_installed(*second)])?;
    }
    Ok(())
}

/// Gathers the later packages that a package must be apart from: those of its name, and those that one of the pairs from a
/// place on has beside it. Answers where the pairs of the next package begin.
fn gather_apart(
    repo: &Repository,
    first: u32,
    pairs: &[(u32, u32)],
    start: usize,
    numbers: &mut Vec<u32>,
) -> Result<usize, AllocError>
    requires first { first < length repo.now.packages }
    requires exact { (second : ℕ) → Contains pairs.now (first, second) ↔ IsRejectingPair repo.now (first, second) }
    requires in_order { IsNonDecreasingBy (λ pair. pair.0) pairs.now }
    requires split { AreSplitAt pairs.now first start }
    ensures rising { OnOk result (IsStrictlyIncreasing numbers.new.items) }
    ensures exact { OnOk result ((second : ℕ) → Contains numbers.new.items second ↔ IsDemand repo.now false (Apart first second)) }
    ensures split { IfOk result (λ end. AreSplitAt pairs.now (first + 1) end) }
{
    repo.keeps_invariant();
    numbers.clear();
    add_versions(repo, first, repo.package(first), numbers)?;
    let end = add_partners(pairs, first, start, numbers)?;
    put_in_order(numbers);
    Ok(end)
}

/// Adds the clauses of the pairs with first numbers from one up to another.
fn push_pairs_from(
    repo: &Repository,
    from: u32,
    to: u32,
    pairs: &[(u32, u32)],
    numbers: &mut Vec<u32>,
    set: &mut ClauseSet,
) -> Result<(), PushError>
    requires packages { length repo.now.packages ≤ MAX_PACKAGES }
    requires rising { from ≤ to }
    requires within { to ≤ length repo.now.packages }
    requires exact { (pair : ℕ × ℕ) → Contains pairs.now pair ↔ (IsPairIn from to pair × IsRejectingPair repo.now pair) }
    requires in_order { IsNonDecreasingBy (λ pair. pair.0) pairs.now }
    requires front { IsFront repo.now (Apart from 0) set.old set.old }
    ensures ok { OnOk result (IsFront repo.now (Apart to 0) set.old set.new) }
    ensures err { IfErr result (IsCauseAt repo.now false set.old) }
{
    let mut start = 0;
    for first in from..to {
        match gather_apart(repo, first, pairs, start, numbers) {
            Ok(end) => start = end,
            Err(AllocError) => return Err(PushError::NoMemory),
        }
        push_pairs_of(repo, first, numbers, set)?;
    }
    Ok(())
}

/// Adds the clauses of all pairs.
fn push_pairs(
    alloc: Global,
    repo: &Repository,
    numbers: &mut Vec<u32>,
    set: &mut ClauseSet,
) -> Result<(), PushError>
    requires packages { length repo.now.packages ≤ MAX_PACKAGES }
    requires front { IsFront repo.now (Apart 0 0) set.old set.old }
    ensures ok { OnOk result (IsPlainSet repo.now set.old set.new) }
    ensures err { IfErr result (IsCauseAt repo.now false set.old) }
{
    let end = repo.len();
    let mut first = 0;
    let mut width = end;
    while first < end {
        let next = match next_rejections(alloc, repo, first, width) {
            Ok(next) => next,
            Err(AllocError) => return Err(PushError::NoMemory),
        };
        push_pairs_from(repo, first, next.end, &next.pairs, numbers, set)?;
        first = next.end;
        width = next.width;
    }
    Ok(())
}

/// Adds the clauses of mode plain.
fn push_plain(
    alloc: Global,
    repo: &Repository,
    scratch: &mut Scratch,
    set: &mut ClauseSet,
) -> Result<(), PushError>
    requires packages { length repo.now.packages ≤ MAX_PACKAGES }
    requires front { IsFront repo.now (Item 0 0) set.old set.old }
    ensures ok { OnOk result (IsPlainSet repo.now set.old set.new) }
    ensures err { IfErr result (IsCauseAt repo.now false set.old) }
{
    push_items(repo, scratch, set)?;
    push_pairs(alloc, repo, &mut scratch.numbers, set)
}

/// Adds the clause of the name of a package, if the package is the first essential one of its name.
fn push_name(
    repo: &Repository,
    number: u32,
    package: &Package,
    last: Option<u32>,
    scratch: &mut Scratch,
    set: &mut ClauseSet,
) -> Result<(), PushError>
    requires packages { length repo.now.packages ≤ MAX_PACKAGES }
    requires number { slice_get repo.now.packages number ≡ Some «package».now }
    requires last { IsLastEssential repo.now number last }
    requires front { IsNamedFront repo.now number set.old set.old }
    ensures ok { OnOk result (IsNamedFront repo.now (number + 1) set.old set.new) }
    ensures err { IfErr result (IsCauseAt repo.now true set.old) }
{
    repo.keeps_invariant();
    if !package.essential || has_essential_before(repo, last, number, package) {
        return Ok(());
    }
    if let Err(AllocError) = scratch.write_name(repo, &package.name) {
        return Err(PushError::NoMemory);
    }
    set.push(&scratch.clause)
}

/// Adds the clauses of the names of essential packages.
fn push_names(
    repo: &Repository,
    scratch: &mut Scratch,
    set: &mut ClauseSet,
) -> Result<(), PushError>
    requires packages { length repo.now.packages ≤ MAX_PACKAGES }
    requires plain { IsPlainSet repo.now set.old set.old }
    ensures ok { OnOk result (IsEssentialSet repo.now set.old set.new) }
    ensures err { IfErr result (IsCauseAt repo.now true set.old) }
{
    let mut last = None;
    for number in 0..repo.len() {
        let package = repo.package(number);
        push_name(repo, number, package, last, scratch, set)?;
        last = last_essential(repo, last, number, package);
    }
    Ok(())
}

/// The clauses of the present, or the limit that they pass first.
fn made_clauses(
    alloc: Global,
    repo: &Repository,
    essential: bool,
    clauses: u32,
    literals: u32,
) -> Result<ClauseSet, PushError>
    requires packages { length repo.now.packages ≤ MAX_PACKAGES }
    requires clauses { clauses ≤ MAX_CLAUSES }
    requires literals { literals ≤ MAX_LITERALS }
    ensures ok { IfOk result (IsSetOf repo.now (IsDemand repo.now essential) clauses literals) }
    ensures within { IfOk result IsWithinLimits }
    ensures err { IfErr result (IsCause repo.now essential clauses literals) }
{
    let mut set = ClauseSet::new(alloc, repo.len(), clauses, literals);
    let mut scratch = Scratch::new(alloc);
    push_plain(alloc, repo, &mut scratch, &mut set)?;
    if essential {
        push_names(repo, &mut scratch, &mut set)?;
    }
    set.keeps_invariant();
    Ok(set)
}

/// The clauses of the present over the packages of a repository, at mode essential or plain, with a limit on their number
/// and one on the number of their literals. The package of a number has the variable one above it.
pub fn clauses_of(
    alloc: Global,
    repo: &Repository,
    essential: bool,
    clauses: u32,
    literals: u32,
) -> Result<ClauseSet, PushError>
    requires packages { length repo.now.packages ≤ MAX_PACKAGES }
    requires clauses { clauses ≤ MAX_CLAUSES }
    requires literals { literals ≤ MAX_LITERALS }
    ensures ok { IfOk result (IsSetOf repo.now (IsDemand repo.now essential) clauses literals) }
    ensures too_many_clauses { IsExactly NoMemory result TooManyClauses (PassesClauses repo.now essential clauses literals) }
    ensures too_many_literals { IsExactly NoMemory result TooManyLiterals (PassesLiterals repo.now essential clauses literals) }
{
    made_clauses(alloc, repo, essential, clauses, literals)
}
