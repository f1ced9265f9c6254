//! Names as keys, in the order of their bytes.
ghost use Rattle.std.specs.Prelude.{◌≡◌};

use crate::prefix::prefix_of;
use dist_relation::Name;
use std::cmp::Ordering;
use std::marker::Model;

/// A name as a key of an ordered map or in a sorted list, by its bytes.
#[derive(Drop)]
pub struct NameKey<'a> {
    /// The prefix of the name, so that names of different prefixes are compared without their bytes.
    prefix: u128,
    name: &'a Name,
}

impl<'a> Model for NameKey<'a> {
    ghost use Rattle.std.specs.Prelude.{ℕ, List};
    ghost use Rattle.dist_repo.specs.Prefix.{IsPrefixOf};

    ghost Value = { List ℕ };

    ghost view = { λ key. key.name.now };

    ghost invariant = { λ key. IsPrefixOf key.prefix key.name.now };
}

impl<'a> NameKey<'a> {
    pub fn new(name: &'a Name) -> NameKey<'a>
        ensures { result ≡ name.now }
    {
        NameKey {
            prefix: prefix_of(name.bytes()),
            name,
        }
    }

    /// The name, which lives longer than the key.
    pub fn name(&self) -> &'a Name
        ensures { result.now ≡ self.now }
    {
        self.name
    }
}

impl Ord for NameKey<'_> {
    ghost use Rattle.std.specs.Cmp.Lexicographic.{slice_cmp};
    ghost use Rattle.std.specs.Ordering.{nat_cmp};
    ghost use Rattle.std.proofs.lemmas.Cmp.{nat_list_cmp_total};
    ghost use Rattle.std.proofs.Common.{refl};

    ghost cmp = { slice_cmp nat_cmp };

    ghost total = { nat_list_cmp_total };

    ghost matches_partial_cmp = { λ _ _. refl };

    ghost matches_eq = { λ _ _. refl };

    fn cmp(&self, other: &Self) -> Ordering {
        let by_prefix = self.prefix.cmp(&other.prefix);
        if by_prefix.is_ne() {
            return by_prefix;
        }
        self.name.bytes().cmp(other.name.bytes())
    }
}

impl PartialOrd for NameKey<'_> {
    ghost use Rattle.std.specs.Cmp.{partial_order_from_total};
    ghost use Rattle.std.specs.Cmp.Lexicographic.{slice_cmp};
    ghost use Rattle.std.specs.Ordering.{as_partial_cmp, nat_cmp};
    ghost use Rattle.std.proofs.lemmas.Cmp.{nat_list_cmp_total};

    ghost partial_cmp = { as_partial_cmp (slice_cmp nat_cmp) };

    ghost laws = { partial_order_from_total nat_list_cmp_total };

    fn partial_cmp(&self, other: &Self) -> Option<Ordering> {
        Some(self.cmp(other))
    }
}

impl PartialEq for NameKey<'_> {
    ghost use Rattle.std.specs.Cmp.{eq_by_cmp_equiv, partial_equiv_from_equiv};
    ghost use Rattle.std.specs.Cmp.Lexicographic.{slice_cmp};
    ghost use Rattle.std.specs.Ordering.{eq_by_cmp, nat_cmp};
    ghost use Rattle.std.proofs.lemmas.Cmp.{nat_list_cmp_total};

    ghost eq = { eq_by_cmp (slice_cmp nat_cmp) };

    ghost laws = { partial_equiv_from_equiv (eq_by_cmp_equiv nat_list_cmp_total) };

    fn eq(&self, other: &Self) -> bool {
        self.cmp(other).is_eq()
    }
}

impl Eq for NameKey<'_> {
    ghost use Rattle.std.specs.Cmp.{eq_by_cmp_equiv};
    ghost use Rattle.std.proofs.lemmas.Cmp.{nat_list_cmp_total};

    ghost laws = { eq_by_cmp_equiv nat_list_cmp_total };
}
