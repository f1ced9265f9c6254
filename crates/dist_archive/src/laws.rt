//! Laws of steps, apart from the work. The functions do nothing.
ghost use Rattle.std.specs.Prelude.{◌≡◌, ◌↔◌, ◌<◌, Bool, ℕ, List, [], ◌∷◌, ◌++◌, length};
ghost use Rattle.dist_repo.specs.declared.package.Package.{Package};
ghost use Rattle.dist_repo.specs.Order.{IsFlat};
ghost use Rattle.dist_repo.specs.PackageList.{IsPackageAnd};
ghost use Rattle.dist_space.specs.Space.{IsSpace, SpaceView};
ghost use Rattle.dist_future.specs.Future.{IsFuture, IsInClusterOf};
ghost use Rattle.dist_future.specs.Outdated.{Challenges, HoldsCluster, IsInstallableIn};
ghost use Rattle.dist_archive.specs.Reach.{AreMade, AreTaken, Fits, IsPlan};
ghost use Rattle.dist_archive.specs.Refusals.{Refuses};
ghost use Rattle.dist_archive.specs.Same.{AreSame};
ghost use Rattle.dist_archive.specs.Steps.{IsOfCluster, IsReached, Lead, Makes};
ghost use Rattle.dist_archive.specs.declared.step.Step.{Step};
ghost use Rattle.dist_archive.specs.declared.step.StepError.{StepError};

/// What steps reach from a repository is one of its futures, and stays one in every further list of steps.
pub fn steps_reach_futures()
    ensures today { (s : SpaceView) → IsSpace s → IsFuture s.repository s.repository.packages }
    ensures step { (s : SpaceView) (step : Step) (old new : List Package) → IsSpace s → IsFuture s.repository old → Makes s step old new → IsFuture s.repository new }
    ensures steps { (s : SpaceView) (steps : List Step) (old new : List Package) → IsSpace s → IsFuture s.repository old → Lead s steps old new → IsFuture s.repository new }
    ensures reached { (s : SpaceView) (archive : List Package) → IsSpace s → IsReached s archive → IsFuture s.repository archive }
{}

/// The archives that steps reach from a repository are exactly its futures: each future has one plan, which leads to it, and of which
/// no step is refused. A list of packages under different names is a future exactly where each of them fits.
pub fn futures_are_reached()
    ensures exactly { (s : SpaceView) (archive : List Package) → IsSpace s → IsReached s archive ↔ IsFuture s.repository archive }
    ensures plan { (s : SpaceView) (later : List Package) → IsSpace s → IsFuture s.repository later → (steps : List Step) × IsPlan s later steps }
    ensures one { (s : SpaceView) (later : List Package) (steps other : List Step) → IsSpace s → IsPlan s later steps → IsPlan s later other → steps ≡ other }
    ensures leads { (s : SpaceView) (later : List Package) (steps : List Step) → IsSpace s → IsFuture s.repository later → IsPlan s later steps
        → Lead s steps s.repository.packages later }
    ensures taken { (s : SpaceView) (later : List Package) (steps : List Step) → IsSpace s → IsFuture s.repository later → IsPlan s later steps
        → AreTaken s steps s.repository.packages later }
    ensures fits { (s : SpaceView) (later : List Package) → IsSpace s → IsFlat later → IsFuture s.repository later
        ↔ ((number : ℕ) → number < length later → IsPackageAnd later number (Fits s.repository later number)) }
{}

/// Lists of steps that are made grow by a step that no reason refuses.
pub fn lists_of_steps_grow()
    ensures none { (s : SpaceView) (archive : List Package) → IsFlat archive → AreMade s [] archive archive }
    ensures more { (s : SpaceView) (steps : List Step) (step : Step) (old middle new : List Package) → IsSpace s
        → AreMade s steps old middle → ((error : StepError) → ¬ Refuses s middle step error) → Makes s step middle new → AreMade s (steps ++ step ∷ []) old new }
{}

/// A step is refused for one reason at most. Archives with the same packages refuse the same steps for the same reasons, and have
/// the same packages after a step.
pub fn steps_have_one_answer()
    ensures one { (s : SpaceView) (archive : List Package) (step : Step) (error other : StepError) → IsSpace s → Refuses s archive step error
        → Refuses s archive step other → other ≡ error }
    ensures same { (s : SpaceView) (old other : List Package) (step : Step) (error : StepError) → AreSame old other → Refuses s old step error
        → Refuses s other step error }
    ensures made { (s : SpaceView) (old other new newer : List Package) (step : Step) → IsSpace s → AreSame old other → Makes s step old new
        → Makes s step other newer → AreSame new newer }
{}

/// Two packages of the cluster of a number are in one cluster of the repository.
pub fn clusters_are_whole()
    ensures { (s : SpaceView) (cluster : ℕ) (c q : Package) → IsSpace s → IsOfCluster s cluster c → IsOfCluster s cluster q
        → IsInClusterOf s.repository c q }
{}

/// A version that challenges a package breaks it after every further list of steps at whose end the archive holds the cluster at
/// that version: in no order of steps does a healthy installation of the archive hold the package itself.
pub fn challenges_hold_after_steps()
    ensures { (essential : Bool) (s : SpaceView) (c p : Package) (version : List ℕ) (steps : List Step) (old new : List Package) → IsSpace s
        → Challenges essential s.repository c version p → IsFuture s.repository old → Lead s steps old new
        → HoldsCluster s.repository new c version → ¬ IsInstallableIn essential s.repository new p }
{}
