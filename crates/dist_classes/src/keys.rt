//! Versions as keys.
ghost use Rattle.std.specs.Prelude.{◌≡◌};

use dist_version::Version;
use std::cmp::Ordering;
use std::marker::Model;

/// A version that is sorted by version, and by its text where versions are equal.
#[derive(Drop)]
pub(crate) struct TextKey<'a> {
    version: &'a Version,
}

impl<'a> Model for TextKey<'a> {
    ghost use Rattle.std.specs.Prelude.{ℕ, List};

    ghost Value = { List ℕ };

    ghost view = { λ key. key.version.now };
}

impl<'a> TextKey<'a> {
    pub(crate) fn new(version: &'a Version) -> TextKey<'a>
        ensures { result ≡ version.now }
    {
        TextKey { version }
    }

    pub(crate) fn version(&self) -> &'a Version
        ensures { result.now ≡ self.now }
    {
        self.version
    }
}

impl Ord for TextKey<'_> {
    ghost use Rattle.dist_classes.specs.SortedPrivate.{text_cmp, text_total};
    ghost use Rattle.std.proofs.Common.{refl};

    ghost cmp = { text_cmp };

    ghost total = { text_total };

    ghost matches_partial_cmp = { λ _ _. refl };

    ghost matches_eq = { λ _ _. refl };

    fn cmp(&self, other: &Self) -> Ordering {
        let order = self.version.compare(other.version);
        if order.is_ne() {
            return order;
        }
        self.version.text().cmp(other.version.text())
    }
}

impl PartialOrd for TextKey<'_> {
    ghost use Rattle.std.specs.Cmp.{partial_order_from_total};
    ghost use Rattle.std.specs.Ordering.{as_partial_cmp};
    ghost use Rattle.dist_classes.specs.SortedPrivate.{text_cmp, text_total};

    ghost partial_cmp = { as_partial_cmp text_cmp };

    ghost laws = { partial_order_from_total text_total };

    fn partial_cmp(&self, other: &Self) -> Option<Ordering> {
        Some(self.cmp(other))
    }
}

impl PartialEq for TextKey<'_> {
    ghost use Rattle.std.specs.Cmp.{eq_by_cmp_equiv, partial_equiv_from_equiv};
    ghost use Rattle.std.specs.Ordering.{eq_by_cmp};
    ghost use Rattle.dist_classes.specs.SortedPrivate.{text_cmp, text_total};

    ghost eq = { eq_by_cmp text_cmp };

    ghost laws = { partial_equiv_from_equiv (eq_by_cmp_equiv text_total) };

    fn eq(&self, other: &Self) -> bool {
        self.cmp(other).is_eq()
    }
}

impl Eq for TextKey<'_> {
    ghost use Rattle.std.specs.Cmp.{eq_by_cmp_equiv};
    ghost use Rattle.dist_classes.specs.SortedPrivate.{text_cmp, text_total};

    ghost laws = { eq_by_cmp_equiv text_total };
}
