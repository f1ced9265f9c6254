//! The packages that may offer what an atom matches by new versions: those that it matches as they are, since their entries may be
//! kept, and those whose new versions may match more. So packages that offer its name in vain are not tried.
ghost use Rattle.std.specs.Prelude.{◌≡◌, Any, OnOk};
ghost use Rattle.dist_asked.specs.Asked.{Adds};
ghost use Rattle.dist_repo.specs.Match.{IsUsable};
ghost use Rattle.dist_space_clauses.specs.Moving.{AreCandidates, AreMovers};

use crate::matched::put_in_order;
use crate::movers::Movers;
use dist_relation::Atom;
use dist_repo::Offer;
use dist_space::Space;
use std::alloc::AllocError;

/// Adds the packages of some offers.
fn add_numbers(offers: &[Offer], numbers: &mut Vec<u32>) -> Result<(), AllocError>
    ensures { OnOk result (Adds numbers.old.items numbers.new.items (λ k. Any (λ offer. offer.number ≡ k) offers.now)) }
{
    for offer in offers {
        numbers.push(offer.number)?;
    }
    Ok(())
}

/// Gathers the packages that may offer what an atom matches by new versions.
pub(crate) fn gather_candidates<'a>(
    space: &'a Space,
    atom: &'a Atom,
    movers: &Movers<'a>,
    numbers: &mut Vec<u32>,
) -> Result<(), AllocError>
    requires usable { IsUsable space.now.repository.architecture atom.now.qualifier }
    requires movers { AreMovers space.now.repository movers.now }
    ensures { OnOk result (AreCandidates space.now atom.now numbers.new.items) }
{
    numbers.clear();
    add_numbers(space.repo().matched(atom), numbers)?;
    numbers.extend_from_slice(movers.of(&atom.name))?;
    put_in_order(numbers);
    Ok(())
}
