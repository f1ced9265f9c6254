//! Laws of versions, apart from the work: what holds of all texts, and of their order. The functions do nothing.
ghost use Rattle.std.specs.Prelude.{◌≡◌, ◌<◌, ◌≤◌, ◌↔◌, ◌++◌, ◌∷◌, ◌⊎◌, [], ℕ, List, None, length, map, pos};
ghost use Rattle.std.specs.Cmp.{IsTotalOrder};
ghost use Rattle.std.specs.declared.cmp.Ordering.TheVariants.{Less, Equal};
ghost use Rattle.dist_base.specs.Answers.{IsExact};
ghost use Rattle.dist_version.specs.declared.error.VersionError.TheVariants.{NoMemory};
ghost use Rattle.dist_version.specs.Spelling.{Parts, Spells, IsVersion, ReadsVersion, parts_of};
ghost use Rattle.dist_version.specs.Faults.{fault_of, IsTextFault};
ghost use Rattle.dist_version.specs.Between.{above_text, below_text, without_rebuild_text, IsRebuildOf};
ghost use Rattle.dist_version.specs.Order.{weight_of, text_start, after_turn, number_of, weights_of, IsLighter, part_cmp, version_cmp, IsBelow};

/// Each text spells one version or has one first fault.
pub fn texts_are_exact()
    ensures exact { (text : List ℕ) → IsExact (ReadsVersion text) (IsTextFault text) }

    // A text has no fault exactly where it spells a version, and it spells at most one. Want of memory is no fault of a text.
    ensures versions { (text : List ℕ) → (fault_of text ≡ None) ↔ IsVersion text }
    ensures one { (text : List ℕ) (version : Parts) → Spells text version → version ≡ parts_of text }
    ensures memory { (text : List ℕ) → ¬ IsTextFault text NoMemory }
{}

/// Of two upstream versions or revisions the first difference of their weights decides, with zeros past the end.
pub fn weights_decide()
    ensures first { (a b : List ℕ) → (part_cmp a b ≡ Less) ↔ IsLighter (weights_of a) (weights_of b) }

    // The weights of a part that is not empty are those of its text, then 0, its number, and the weights of what is left.
    ensures empty { weights_of [] ≡ [] }
    ensures turn { (part : List ℕ) → 0 < length part → weights_of part ≡ map weight_of (text_start part) ++ (pos 0 ∷ (pos (number_of part) ∷ weights_of (after_turn part))) }
{}

/// The order of versions is total and transitive, and versions that are equal compare alike with every other.
pub fn order_is_total()
    ensures { IsTotalOrder version_cmp }
{}

/// Versions are equal exactly where neither is below the other.
pub fn equal_is_neither_below()
    ensures { (a b : List ℕ) → (version_cmp a b ≡ Equal) ↔ ((¬ IsBelow a b) × (¬ IsBelow b a)) }
{}

/// Just above each version there is one, below each greater version whose text has at most so many bytes as there are
/// tildes. And there is one below each version.
pub fn versions_are_dense()
    ensures above { (text : List ℕ) (tildes : ℕ) → IsVersion text → IsVersion (above_text text tildes) × IsBelow text (above_text text tildes) }
    ensures between { (text other : List ℕ) (tildes : ℕ) → IsVersion text → IsBelow text other → length other ≤ tildes → IsBelow (above_text text tildes) other }
    ensures below { (text : List ℕ) → IsVersion (below_text text) × IsBelow (below_text text) text }
{}

/// The suffix of a rebuild is taken off, and nothing else is.
pub fn rebuilds_are_taken_off()
    ensures taken { (text base : List ℕ) → IsRebuildOf text base → without_rebuild_text text ≡ base }
    ensures only { (text : List ℕ) → (without_rebuild_text text ≡ text) ⊎ IsRebuildOf text (without_rebuild_text text) }
{}
