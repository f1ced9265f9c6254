//! What holds of lists of packages, apart from any call. The functions do nothing.
ghost use Rattle.std.specs.Prelude.{◌≡◌, ◌≤◌, List, All, Contains, length};
ghost use Rattle.dist_repo.specs.Order.{IsInOrder, IsLatestOf};
ghost use Rattle.dist_repo.specs.PackageList.{PackageList};
ghost use Rattle.dist_repo.specs.Size.{relation_count, IsWithinSize};
ghost use Rattle.dist_repo.specs.declared.package.Package.{Package};

/// In order each package is there once, so packages that all stand in a list are no more than it has, and so are their atoms
/// and entries.
pub fn each_stands_once()
    ensures packages { (packages whole : List Package) → IsInOrder packages → All (Contains whole) packages → length packages ≤ length whole }
    ensures relations { (packages whole : List Package) → IsInOrder packages → All (Contains whole) packages → relation_count packages ≤ relation_count whole }
    ensures same { (packages others : List Package) → IsInOrder packages → IsInOrder others → All (Contains others) packages → All (Contains packages) others → packages ≡ others }
{}

/// Each repository has one repository of its newest versions, which is no larger.
pub fn latest_is_one()
    ensures some { (r : PackageList) → IsInOrder r.packages → (latest : PackageList) × IsLatestOf r latest }
    ensures one { (r latest other : PackageList) → IsLatestOf r latest → IsLatestOf r other → other ≡ latest }
    ensures within_size { (r latest : PackageList) → IsLatestOf r latest → IsWithinSize r → IsWithinSize latest }
{}
