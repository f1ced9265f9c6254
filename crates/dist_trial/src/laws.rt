//! A law of marks, apart from the work. The function does nothing.
ghost use Rattle.std.specs.Prelude.{◌≡◌, ◌↔◌, List, false};
ghost use Rattle.std.specs.List.{list_any};
ghost use Rattle.dist_cert.specs.declared.records.Claim.{Claim};
ghost use Rattle.dist_report.specs.Marks.{has_mark};
ghost use Rattle.dist_trial.specs.Summary.{all_marks, has_marks, mark_count};

/// There are no marks exactly where no claim has one: of one certificate, and of the three of a trial.
pub fn marks_are_counted()
    ensures one { (made : List Claim) → (mark_count made ≡ 0) ↔ (list_any has_mark made ≡ false) }
    ensures three { (strong outdated challenged : List Claim)
        → (all_marks strong outdated challenged ≡ 0) ↔ (has_marks strong outdated challenged ≡ false) }
{}
