//! A law of health, apart from the work. The function does nothing.
ghost use Rattle.std.specs.Prelude.{◌≡◌, Bool, List};
ghost use Rattle.dist_repo.specs.PackageList.{PackageList};
ghost use Rattle.dist_now.specs.Health.{IsHealth};
ghost use Rattle.dist_now.specs.declared.kinds.Health.{Health};

/// A set has one health.
pub fn one_health()
    ensures { (r : PackageList) (essential : Bool) (flags : List Bool) (health other : Health) → IsHealth r essential flags health
        → IsHealth r essential flags other → other ≡ health }
{}
