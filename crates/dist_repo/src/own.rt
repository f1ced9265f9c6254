//! What packages offer of their own names, in the order of packages. The offers of a name stand together, in the order of versions.
ghost use Rattle.std.specs.Prelude.{◌≡◌, ◌↔◌, ◌<◌, ◌^◌, Contains, IfOk, OnOk, [], length};
ghost use Rattle.dist_repo.specs.Offers.{AreInVersionOrder, IsOwnOffer};
ghost use Rattle.dist_repo.specs.Order.{IsInOrder};
ghost use Rattle.dist_repo.specs.OwnPrivate.{AreCounted, AreNumbersNamed, AreOwn};
ghost use Rattle.dist_repo.specs.declared.offers.Offer.{Offer};

use crate::guesses::Guesses;
use crate::key::Key;
use crate::offers::Offer;
use crate::spans::span_of;
use std::alloc::{AllocError, Global};

/// What each package offers of its own name, and its number.
#[derive(Drop)]
pub(crate) struct Own {
    pub(crate) numbers: Vec<u32>,
    pub(crate) offers: Vec<Offer>,
    /// Where the packages of each name may begin.
    pub(crate) guesses: Guesses,
}

impl Own {
    /// Adds what the packages offer of their own names to empty lists.
    fn fill(&mut self, packages: &[Key]) -> Result<(), AllocError>
        requires few { length packages.now < 2 ^ 32 }
        requires numbers { self.old.numbers.items ≡ [] }
        requires offers { self.old.offers.items ≡ [] }
        ensures numbers { OnOk result (AreCounted (length packages.now) self.new.numbers.items) }
        ensures offers { OnOk result (AreOwn packages.now (length packages.now) self.new.offers.items) }
    {
        for (number, key) in packages.iter().enumerate() {
            let place = key.package().provides.len();
            if place > u32::MAX as usize {
                return Err(AllocError);
            }
            let number = number as u32;
            let place = place as u32;
            self.numbers.push(number)?;
            self.offers.push(Offer { number, place })?;
        }
        Ok(())
    }
}

/// Where the packages of each name may begin.
fn guesses_of(alloc: Global, packages: &[Key]) -> Result<Guesses, AllocError> {
    let mut guesses = Guesses::for_names(alloc, packages.len())?;
    for (place, key) in packages.iter().enumerate() {
        guesses.note(key.name(), place);
    }
    Ok(guesses)
}

/// What the packages offer of their own names. A place past 4,294,967,295 is want of memory too.
pub(crate) fn own_of(alloc: Global, packages: &[Key]) -> Result<Own, AllocError>
    requires { length packages.now < 2 ^ 32 }
    ensures numbers { IfOk result (λ own. AreCounted (length packages.now) own.numbers.items) }
    ensures offers { IfOk result (λ own. AreOwn packages.now (length packages.now) own.offers.items) }
{
    let guesses = guesses_of(alloc, packages)?;
    let mut own = Own {
        numbers: Vec::new(alloc),
        offers: Vec::new(alloc),
        guesses,
    };
    match own.fill(packages) {
        Ok(()) => Ok(own),
        Err(error) => {
            drop(own);
            Err(error)
        }
    }
}

/// The numbers of the packages of a name, with a guess at where those begin.
pub(crate) fn numbers_named<'a>(
    packages: &[Key],
    numbers: &'a [u32],
    name: &[u8],
    guess: usize,
) -> &'a [u32]
    requires in_order { IsInOrder packages.now }
    requires numbers { AreCounted (length packages.now) numbers.now }
    ensures { AreNumbersNamed packages.now name.now result.now }
{
    let (start, end) = span_of(packages, name, guess);
    &numbers[start..end]
}

/// What the packages of a name offer of it by their own names, with a guess at where those begin.
pub(crate) fn offers_named<'a>(
    packages: &[Key],
    offers: &'a [Offer],
    name: &[u8],
    guess: usize,
) -> &'a [Offer]
    requires in_order { IsInOrder packages.now }
    requires offers { AreOwn packages.now (length packages.now) offers.now }
    ensures exact { (offer : Offer) → Contains result.now offer ↔ IsOwnOffer packages.now name.now offer }
    ensures in_order { AreInVersionOrder packages.now result.now }
{
    let (start, end) = span_of(packages, name, guess);
    &offers[start..end]
}
