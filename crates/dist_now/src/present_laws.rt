//! What the clauses of the present mean, apart from the work. These functions do nothing.
ghost use Rattle.std.specs.Prelude.{◌≡◌, ◌⊎◌, Bool, false, List};
ghost use Rattle.dist_clause.specs.Formula.{Literal};
ghost use Rattle.dist_repo.specs.Order.{IsInOrder};
ghost use Rattle.dist_repo.specs.PackageList.{PackageList};
ghost use Rattle.dist_repo.specs.Strong.{IsInstallation};
ghost use Rattle.dist_repo.specs.declared.package.Package.{Package};
ghost use Rattle.dist_now.specs.Relations.{AreMembersByValues, AreOf, AreRelations, AreValuesOf, Fails, HaveClauses, IsHealthyByDemands, IsTrueByDemand};
ghost use Rattle.dist_now.specs.PresentClauses.{ArePresentClauses, AreClausesBefore, Demand, IsClauseFor, IsDemand};
ghost use Rattle.dist_now.specs.PresentLaws.{AreModelsInstallations, AreSamePackages, GoesOn, HasNoRepeats};

/// There is a list of clauses of the present.
pub fn present_clauses_are_there()
    ensures { (r : PackageList) (essential : Bool) → IsInOrder r.packages → (clauses : List (List Literal)) × ArePresentClauses r essential clauses }
{}

/// A repository has one list of clauses of the present.
pub fn present_clauses_are_one()
    ensures { (r : PackageList) (essential : Bool) (clauses other : List (List Literal)) → ArePresentClauses r essential clauses
        → ArePresentClauses r essential other → other ≡ clauses }
{}

/// The clauses before a demand's are a front of the list, and the demand's clause stands behind them.
pub fn present_clauses_go_on()
    ensures { (r : PackageList) (essential : Bool) (d : Demand) (whole front : List (List Literal)) (clause : List Literal)
        → ArePresentClauses r essential whole → AreClausesBefore r essential d front → IsDemand r essential d → IsClauseFor r d clause
        → GoesOn whole front clause }
{}

/// The models of the clauses of the present are exactly the healthy installations.
pub fn models_are_installations()
    ensures { (r : PackageList) (essential : Bool) (clauses : List (List Literal)) → IsInOrder r.packages → ArePresentClauses r essential clauses
        → AreModelsInstallations r essential clauses }
{}

/// Whether a list of packages, none of them twice, is a healthy installation depends on which packages are in it alone.
pub fn health_is_of_sets()
    ensures { (r : PackageList) (essential : Bool) (members others : List Package) → IsInstallation essential r members
        → AreSamePackages members others → HasNoRepeats others → IsInstallation essential r others }
{}

/// A healthy installation is a set of packages that fails no demand, and the clause of each demand says that it is not failed.
pub fn demands_tell_health()
    ensures healthy { (r : PackageList) (members : List Package) → IsInOrder r.packages → IsHealthyByDemands r members }
    ensures clauses { (r : PackageList) (essential : Bool) (d : Demand) (clause : List Literal) (values : List Bool) → IsInOrder r.packages
        → IsDemand r essential d → IsClauseFor r d clause → IsTrueByDemand r d clause values }
    ensures members { (r : PackageList) (values : List Bool) → IsInOrder r.packages → AreMembersByValues r values }
    ensures values { (r : PackageList) (members : List Package) → AreOf r members → (values : List Bool) × AreValuesOf r members values }
    ensures same { (r : PackageList) (members others : List Package) (d : Demand) → AreSamePackages members others → Fails r members d → Fails r others d }
    ensures decided { (r : PackageList) (members : List Package) (d : Demand) → Fails r members d ⊎ (¬ Fails r members d) }
{}

/// The relations of a repository are one list, and each has its clause among those of the present at mode plain.
pub fn relations_have_clauses()
    ensures there { (r : PackageList) → IsInOrder r.packages → (relations : List Demand) × AreRelations r relations }
    ensures one { (r : PackageList) (relations others : List Demand) → AreRelations r relations → AreRelations r others → others ≡ relations }
    ensures clauses { (r : PackageList) (relations : List Demand) (clauses : List (List Literal)) → AreRelations r relations
        → ArePresentClauses r false clauses → HaveClauses r relations clauses }
{}
