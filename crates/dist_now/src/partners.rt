//! For a package those behind it that are in conflict with it, found by what conflict atoms match. The pairs are kept at some
//! numbers at a time, so it is to be asked of rising numbers.
ghost use Rattle.std.specs.Prelude.{◌≡◌, ◌<◌, ◌≤◌, OnOk, length};
ghost use Rattle.std.specs.List.Sorted.{IsNonDecreasingBy};
ghost use Rattle.dist_asked.specs.Asked.{Adds};
ghost use Rattle.dist_now.specs.GatheringPrivate.{ArePairsIn, AreSplitAt};
ghost use Rattle.dist_now.specs.Partners.{IsPartner};

use crate::rejections::{add_partners, next_rejections};
use dist_repo::Repository;
use std::alloc::{AllocError, Global};
use std::marker::Model;

/// Pairs whose first numbers are from `start` up to `end`, and at how many numbers the next ones are looked for.
#[derive(Drop)]
struct KeptPairs {
    pairs: Vec<(u32, u32)>,
    start: u32,
    end: u32,
    width: u32,
}

/// For each package those behind it that are in conflict with it.
#[derive(Drop)]
pub struct Partners<'a> {
    repo: &'a Repository,
    kept: KeptPairs,
}

impl<'a> Model for Partners<'a> {
    ghost use Rattle.dist_repo.specs.PackageList.{PackageList};
    ghost use Rattle.dist_now.specs.GatheringPrivate.{ArePairsIn};

    ghost Value = { PackageList };

    ghost view = { λ p. p.repo.now };

    ghost invariant = { λ p. ArePairsIn p.repo.now p.kept.start p.kept.end p.kept.pairs.items };
}

/// Looks for the pairs of a number and of some behind it, unless its own are kept.
fn turn_to(repo: &Repository, number: u32, kept: &mut KeptPairs) -> Result<(), AllocError>
    requires number { number < length repo.now.packages }
    requires are { ArePairsIn repo.now kept.old.start kept.old.end kept.old.pairs.items }
    ensures are { ArePairsIn repo.now kept.new.start kept.new.end kept.new.pairs.items }
    ensures from { OnOk result (kept.new.start ≤ number) }
    ensures to { OnOk result (number < kept.new.end) }
{
    if kept.start <= number && number < kept.end {
        return Ok(());
    }
    let next = next_rejections(*kept.pairs.allocator(), repo, number, kept.width)?;
    *kept = KeptPairs {
        pairs: next.pairs,
        start: number,
        end: next.end,
        width: next.width,
    };
    Ok(())
}

/// Where the pairs of a first number begin, among pairs in the order of these.
fn place_of(pairs: &[(u32, u32)], number: u32) -> usize
    requires { IsNonDecreasingBy (λ pair. pair.0) pairs.now }
    ensures to_len { result ≤ length pairs.now }
    ensures split { AreSplitAt pairs.now number result }
{
    let mut low = 0;
    let mut high = pairs.len();
    while low < high {
        let middle = low + (high - low) / 2;
        if pairs[middle].0 < number {
            low = middle + 1;
        } else {
            high = middle;
        }
    }
    low
}

impl<'a> Partners<'a> {
    /// Those of the packages of a repository.
    pub fn new(alloc: Global, repo: &'a Repository) -> Partners<'a>
        ensures { result ≡ repo.now }
    {
        let kept = KeptPairs {
            pairs: Vec::new(alloc),
            start: 0,
            end: 0,
            width: repo.len(),
        };
        Partners { repo, kept }
    }

    /// Adds the numbers of the packages behind a package that are in conflict with it. Some may come more than once.
    pub fn add_behind(&mut self, number: u32, numbers: &mut Vec<u32>) -> Result<(), AllocError>
        requires { number < length self.old.packages }
        ensures same { self.new ≡ self.old }
        ensures adds { OnOk result (Adds numbers.old.items numbers.new.items (IsPartner self.old number)) }
    {
        self.repo.keeps_invariant();
        turn_to(self.repo, number, &mut self.kept)?;
        let start = place_of(&self.kept.pairs, number);
        add_partners(&self.kept.pairs, number, start, numbers)?;
        Ok(())
    }
}
