//! How large a repository is. Atoms and entries are taken off a limit, so that no sum passes the end of its type.
ghost use Rattle.std.specs.Prelude.{◌≤◌, ◌↔◌, IsTrue, length, sum_by};
ghost use Rattle.dist_base.specs.declared.TheConstants.{MAX_RELATIONS};
ghost use Rattle.dist_repo.specs.Size.{relations_of, relation_count, Leaves};

use crate::key::Key;
use crate::package::Package;
use dist_base::MAX_RELATIONS;
use dist_relation::Items;

/// What a limit leaves beside the atoms of items.
fn beside_items(limit: usize, items: &Items) -> Option<usize>
    ensures { Leaves limit (sum_by (λ item. length item) items.now) result }
{
    let mut left = limit;
    for place in 0..items.len() {
        let count = items.get(place).len();
        if left < count {
            return None;
        }
        left -= count;
    }
    Some(left)
}

/// What a limit leaves beside the atoms and entries of a package.
fn beside_package(limit: usize, package: &Package) -> Option<usize>
    ensures { Leaves limit (relations_of «package».now) result }
{
    let left = beside_items(limit, &package.depends)?;
    let left = left.checked_sub(package.conflicts.len())?;
    left.checked_sub(package.provides.len())
}

/// Whether packages have together at most the stated number of atoms and entries.
pub(crate) fn has_few_relations(packages: &[Key]) -> bool
    ensures { IsTrue result ↔ (relation_count packages.now ≤ MAX_RELATIONS) }
{
    let mut left = MAX_RELATIONS as usize;
    for key in packages {
        match beside_package(left, key.package()) {
            Some(rest) => left = rest,
            None => return false,
        }
    }
    true
}
