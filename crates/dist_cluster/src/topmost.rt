//! The top of a cluster: its greatest version.
ghost use Rattle.std.specs.Prelude.{◌≡◌, ◌<◌, ◌↔◌, All, IsTrue, length};
ghost use Rattle.dist_cluster.specs.Found.{top_cmp};
ghost use Rattle.dist_cluster.specs.Top.{IsTop};

use crate::key_list::Entry;
use dist_version::Version;
use std::cmp::Ordering;

/// Whether a version stands above another one as a top: it is greater, or equal with a text that is less in bytes.
fn is_higher(version: &Version, other: &Version) -> bool
    ensures { IsTrue result ↔ (top_cmp other.now version.now ≡ Ordering.Less) }
{
    match version.compare(other) {
        Ordering::Greater => true,
        Ordering::Equal => version.text().cmp(other.text()).is_lt(),
        Ordering::Less => false,
    }
}

/// The greatest version of a cluster, in the text that is least in bytes among equal ones.
pub(crate) fn top_of<'a>(entries: &'a [Entry], cluster: &[u32]) -> &'a Version
    requires some { 0 < length cluster.now }
    requires within { All (λ n. n < length entries.now) cluster.now }
    ensures { IsTop entries.now cluster.now result.now }
{
    let mut top = entries[cluster[0] as usize].version();
    for place in 1..cluster.len() {
        let version = entries[cluster[place] as usize].version();
        if is_higher(version, top) {
            top = version;
        }
    }
    top
}
