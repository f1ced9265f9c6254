//! The clusters that an installation uses.
ghost use Rattle.std.specs.Prelude.{◌≡◌, ◌+◌, ◌^◌, ◌<◌, ◌≤◌, IfOk, IfSome, length};
ghost use Rattle.dist_cert.specs.Form.{IsSmall};
ghost use Rattle.dist_cert.specs.Rising.{is_among};
ghost use Rattle.dist_covering.specs.Used.{AreFlags, AreUsed, IsFlagged, cluster_at, pair_at};

use dist_cert::{Items, Numbers};
use dist_clause::Assignment;
use dist_line_write::true_variables;
use dist_space::{Meaning, Space};
use dist_sweep::next_true;
use std::alloc::{AllocError, Global};
use std::marker::Model;

/// The clusters that an installation uses, by their numbers from 1, rising, and each by a flag: whether one is used is asked for
/// each pair.
#[derive(Drop)]
pub(crate) struct Used {
    numbers: Numbers,
    flags: Assignment,
    clusters: u32,
}

impl Model for Used {
    ghost use Rattle.std.specs.Prelude.{◌≡◌, ℕ, List, length};
    ghost use Rattle.dist_line_write.specs.Words.{true_variables};

    ghost Value = { List ℕ };

    ghost view = { λ u. u.numbers };

    ghost invariant = { λ u. (u.numbers ≡ true_variables u.flags) × (length u.flags ≡ u.clusters) };
}

impl Used {
    pub(crate) fn as_slice(&self) -> &[u32]
        ensures { result.now ≡ self.now }
    {
        self.numbers.as_slice()
    }

    /// Whether a number is one of them.
    pub(crate) fn has(&self, number: u32) -> bool
        ensures { result ≡ is_among self.now number }
    {
        if number == 0 || number > self.clusters {
            return false;
        }
        self.flags.value(number)
    }
}

/// The cluster of a variable's package, as it is or new.
fn cluster_at(space: &Space, variable: u32) -> Option<u32>
    requires from_one { 1 ≤ variable }
    requires upto { variable ≤ length space.now.meanings }
    ensures value { result ≡ cluster_at space.now variable }
    ensures within { IfSome result (λ cluster. cluster < length space.now.clusters.members) }
    ensures few { length space.now.clusters.members < 2 ^ 32 }
{
    space.keeps_invariant();
    match space.meaning(variable) {
        Meaning::Present(member) => Some(space.cluster_of(member)),
        Meaning::New(member, _) => Some(space.cluster_of(member)),
        Meaning::Now => None,
        Meaning::At(_, _) => None,
        Meaning::Kept(_, _, _) => None,
        Meaning::Fresh(_, _) => None,
    }
}

/// The cluster and the class of a variable, from 1, or zeros.
pub fn pair_at(space: &Space, variable: u32) -> (u32, u32)
    requires from_one { 1 ≤ variable }
    requires upto { variable ≤ length space.now.meanings }
    ensures value { result ≡ pair_at space.now variable }
    ensures small { IsSmall result.0 × IsSmall result.1 }
{
    space.keeps_invariant();
    match space.meaning(variable) {
        Meaning::At(cluster, class) => {
            space.classes_are_few(cluster);
            (cluster + 1, class + 1)
        }
        _ => (0, 0),
    }
}

/// Flags the cluster of a variable's package.
fn flag(space: &Space, flags: &mut Assignment, variable: u32)
    requires from_one { 1 ≤ variable }
    requires upto { variable ≤ length space.now.meanings }
    requires clusters { length flags.old ≡ length space.now.clusters.members }
    ensures { IsFlagged space.now variable flags.old flags.new }
{
    if let Some(cluster) = cluster_at(space, variable) {
        flags.set(cluster + 1, true);
    }
}

/// For each cluster whether an installation uses it.
fn used_flags(alloc: Global, space: &Space, values: &Assignment) -> Result<Assignment, AllocError>
    requires { length values.now ≡ length space.now.meanings }
    ensures { IfOk result (AreFlags space.now values.now (length space.now.meanings)) }
{
    let mut flags = Assignment::new(alloc, space.clusters().len())?;
    let variables = space.variables();
    let mut last = 0;
    'variables: while last < variables {
        match next_true(values, variables, last + 1) {
            Some(variable) => {
                flag(space, &mut flags, variable);
                last = variable;
            }
            None => last = variables,
        }
    }
    Ok(flags)
}

/// The clusters that an installation uses, from 1, rising.
pub(crate) fn used_clusters(
    alloc: Global,
    space: &Space,
    values: &Assignment,
) -> Result<Used, AllocError>
    requires { length values.now ≡ length space.now.meanings }
    ensures { IfOk result (AreUsed space.now values.now) }
{
    space.keeps_invariant();
    let clusters = space.clusters().len();
    let flags = used_flags(alloc, space, values)?;
    let used = true_variables(alloc, &flags, clusters)?;
    Ok(Used {
        numbers: Items::from_vec(used),
        flags,
        clusters,
    })
}
