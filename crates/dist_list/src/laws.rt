//! What holds of texts that name packages, apart from any call. The functions do nothing.
ghost use Rattle.std.specs.Prelude.{◌≡◌, ℕ, Bool, List};
ghost use Rattle.dist_repo.specs.Order.{IsInOrder};
ghost use Rattle.dist_repo.specs.declared.package.Package.{Package};
ghost use Rattle.dist_list.specs.NamedPackage.{IsNamed};
ghost use Rattle.dist_list.specs.OneAnswer.{HasOneAnswer};
ghost use Rattle.dist_list.specs.PackageSet.{IsBadAt, NamesSet};

/// Each text names one set of packages at most or has one first bad line at most, and never both.
pub fn lists_are_exact()
    ensures { (packages : List Package) (text : List ℕ) → HasOneAnswer packages text }
{}

/// No text names no set and has no bad line.
pub fn each_list_is_answered()
    ensures { (packages : List Package) (text : List ℕ) → IsInOrder packages → ((members : List Bool) → ¬ NamesSet packages text members)
        → ¬ ((line : ℕ) → ¬ IsBadAt packages text line) }
{}

/// A text names one package at most, of packages in their order.
pub fn names_are_exact()
    ensures { (packages : List Package) (text : List ℕ) (number other : ℕ) → IsInOrder packages → IsNamed packages text number
        → IsNamed packages text other → other ≡ number }
{}
