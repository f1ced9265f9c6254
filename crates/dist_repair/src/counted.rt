//! The clauses of a space with those of its counter behind them, in the order in which they are defined.
ghost use Rattle.std.specs.Prelude.{◌≡◌, ◌+◌, ◌<◌, ◌≤◌, ◌∷◌, [], IfErr, IfOk, OnOk, length};
ghost use Rattle.dist_base.specs.Answers.{IsExactly};
ghost use Rattle.dist_base.specs.declared.TheConstants.{MAX_CLAUSES, MAX_LITERALS, MAX_VARIABLES};
ghost use Rattle.dist_judge.specs.Causes.{IsLarge};
ghost use Rattle.dist_outside.specs.declared.trouble.What.{What};
ghost use Rattle.dist_outside.specs.declared.trouble.WorkError.TheVariants.{NoMemory, TooLarge};
ghost use Rattle.dist_space.specs.Space.{cluster_classes, variable_of};
ghost use Rattle.dist_space.specs.declared.meaning.Meaning.TheVariants.{At};
ghost use Rattle.dist_base.specs.declared.TheConstants.{MAX_MOST};
ghost use Rattle.dist_repair.specs.CountedPrivate.{HasMore, IsStoppedIn, StopsWith};
ghost use Rattle.dist_repair.specs.Counters.{IsCountedSet, PassesCounted, class_clauses, count_clauses, counted_clauses, counted_variables, counter_clauses, counter_of, each_below, more, moved, no, yes};

use crate::counter::Counter;
use dist_base::MAX_MOST;
use dist_clause::{ClauseSet, Lit, PushError};
use dist_outside::{Limits, What, WorkError};
use dist_space::{Meaning, Space};
use dist_subject::too_large;
use std::alloc::Global;

/// Adds the clauses of another set.
fn push_all(clauses: &ClauseSet, set: &mut ClauseSet) -> Result<(), PushError>
    requires { clauses.now.variables ≤ set.old.variables }
    ensures ok { OnOk result (HasMore set.old set.new clauses.now.clauses) }
    ensures err { IfErr result (StopsWith set.old clauses.now.clauses) }
{
    for place in 0..clauses.len() {
        set.push(clauses.clause(place + 1))?;
    }
    Ok(())
}

/// Adds the clause that a cluster at a class has moved.
fn push_class(
    space: &Space,
    counter: &Counter,
    cluster: u32,
    class: u32,
    set: &mut ClauseSet,
) -> Result<(), PushError>
    requires counter { counter.now ≡ counter_of space.now counter.now.most }
    requires cluster { cluster < counter.now.clusters }
    requires class { class < length (cluster_classes space.now cluster) }
    requires variables { set.old.variables ≡ counted_variables counter.now }
    ensures ok { OnOk result (HasMore set.old set.new ((no (variable_of space.now (At cluster class)) ∷ yes (moved counter.now cluster) ∷ []) ∷ [])) }
    ensures err { IfErr result (StopsWith set.old ((no (variable_of space.now (At cluster class)) ∷ yes (moved counter.now cluster) ∷ []) ∷ [])) }
{
    set.keeps_invariant();
    let at = space.variable(&Meaning::At(cluster, class));
    set.push(&[Lit::new(at, false), Lit::new(counter.moved(cluster), true)])
}

/// Adds the clauses of the classes of a cluster.
fn push_classes(
    space: &Space,
    counter: &Counter,
    cluster: u32,
    set: &mut ClauseSet,
) -> Result<(), PushError>
    requires counter { counter.now ≡ counter_of space.now counter.now.most }
    requires cluster { cluster < counter.now.clusters }
    requires variables { set.old.variables ≡ counted_variables counter.now }
    ensures ok { OnOk result (HasMore set.old set.new (class_clauses space.now counter.now cluster)) }
    ensures err { IfErr result (StopsWith set.old (class_clauses space.now counter.now cluster)) }
{
    for class in 0..space.class_count(cluster) {
        push_class(space, counter, cluster, class, set)?;
    }
    Ok(())
}

/// Adds the clause that more have moved up to a cluster where more have up to the one before it.
fn push_carried(
    counter: &Counter,
    before: u32,
    number: u32,
    set: &mut ClauseSet,
) -> Result<(), PushError>
    requires cluster { before + 1 < counter.now.clusters }
    requires number { number ≤ counter.now.most }
    requires variables { set.old.variables ≡ counted_variables counter.now }
    ensures ok { OnOk result (HasMore set.old set.new ((no (more counter.now before number) ∷ yes (more counter.now (before + 1) number) ∷ []) ∷ [])) }
    ensures err { IfErr result (StopsWith set.old ((no (more counter.now before number) ∷ yes (more counter.now (before + 1) number) ∷ []) ∷ [])) }
{
    set.keeps_invariant();
    set.push(&[
        Lit::new(counter.more(before, number), false),
        Lit::new(counter.more(before + 1, number), true),
    ])
}

/// Adds the clause that a cluster that has moved is one more than none.
fn push_first(counter: &Counter, cluster: u32, set: &mut ClauseSet) -> Result<(), PushError>
    requires cluster { cluster < counter.now.clusters }
    requires variables { set.old.variables ≡ counted_variables counter.now }
    ensures ok { OnOk result (HasMore set.old set.new ((no (moved counter.now cluster) ∷ yes (more counter.now cluster 0) ∷ []) ∷ [])) }
    ensures err { IfErr result (StopsWith set.old ((no (moved counter.now cluster) ∷ yes (more counter.now cluster 0) ∷ []) ∷ [])) }
{
    set.keeps_invariant();
    set.push(&[
        Lit::new(counter.moved(cluster), false),
        Lit::new(counter.more(cluster, 0), true),
    ])
}

/// Adds the clause that a cluster that has moved is one more than those before it.
fn push_next(
    counter: &Counter,
    before: u32,
    number: u32,
    set: &mut ClauseSet,
) -> Result<(), PushError>
    requires cluster { before + 1 < counter.now.clusters }
    requires number { number + 1 ≤ counter.now.most }
    requires variables { set.old.variables ≡ counted_variables counter.now }
    ensures ok { OnOk result (HasMore set.old set.new ((no (moved counter.now (before + 1)) ∷ no (more counter.now before number)
        ∷ yes (more counter.now (before + 1) (number + 1)) ∷ []) ∷ [])) }
    ensures err { IfErr result (StopsWith set.old ((no (moved counter.now (before + 1)) ∷ no (more counter.now before number)
        ∷ yes (more counter.now (before + 1) (number + 1)) ∷ []) ∷ [])) }
{
    set.keeps_invariant();
    set.push(&[
        Lit::new(counter.moved(before + 1), false),
        Lit::new(counter.more(before, number), false),
        Lit::new(counter.more(before + 1, number + 1), true),
    ])
}

/// Adds the clauses that count up to a cluster that another one is before.
fn push_behind(
    counter: &Counter,
    before: u32,
    number: u32,
    set: &mut ClauseSet,
) -> Result<(), PushError>
    requires cluster { before + 1 < counter.now.clusters }
    requires number { number ≤ counter.now.most }
    requires variables { set.old.variables ≡ counted_variables counter.now }
    ensures ok { OnOk result (HasMore set.old set.new (count_clauses counter.now (before + 1) number)) }
    ensures err { IfErr result (StopsWith set.old (count_clauses counter.now (before + 1) number)) }
{
    set.keeps_invariant();
    push_carried(counter, before, number, set)?;
    if number == 0 {
        push_first(counter, before + 1, set)
    } else {
        push_next(counter, before, number - 1, set)
    }
}

/// Adds the clauses that count up to a cluster and a number.
fn push_count(
    counter: &Counter,
    cluster: u32,
    number: u32,
    set: &mut ClauseSet,
) -> Result<(), PushError>
    requires cluster { cluster < counter.now.clusters }
    requires number { number ≤ counter.now.most }
    requires variables { set.old.variables ≡ counted_variables counter.now }
    ensures ok { OnOk result (HasMore set.old set.new (count_clauses counter.now cluster number)) }
    ensures err { IfErr result (StopsWith set.old (count_clauses counter.now cluster number)) }
{
    if cluster > 0 {
        return push_behind(counter, cluster - 1, number, set);
    }
    if number == 0 {
        return push_first(counter, 0, set);
    }
    Ok(())
}

/// Adds the clauses that count up to a cluster.
fn push_counts(counter: &Counter, cluster: u32, set: &mut ClauseSet) -> Result<(), PushError>
    requires most { counter.now.most ≤ MAX_MOST }
    requires cluster { cluster < counter.now.clusters }
    requires variables { set.old.variables ≡ counted_variables counter.now }
    ensures ok { OnOk result (HasMore set.old set.new (each_below (counter.now.most + 1) (count_clauses counter.now cluster))) }
    ensures err { IfErr result (StopsWith set.old (each_below (counter.now.most + 1) (count_clauses counter.now cluster))) }
{
    for number in 0..counter.most() + 1 {
        push_count(counter, cluster, number, set)?;
    }
    Ok(())
}

/// Adds the clauses of the classes of all clusters.
fn push_all_classes(space: &Space, counter: &Counter, set: &mut ClauseSet) -> Result<(), PushError>
    requires counter { counter.now ≡ counter_of space.now counter.now.most }
    requires variables { set.old.variables ≡ counted_variables counter.now }
    ensures ok { OnOk result (HasMore set.old set.new (each_below counter.now.clusters (class_clauses space.now counter.now))) }
    ensures err { IfErr result (StopsWith set.old (each_below counter.now.clusters (class_clauses space.now counter.now))) }
{
    for cluster in 0..counter.clusters() {
        push_classes(space, counter, cluster, set)?;
    }
    Ok(())
}

/// Adds the clauses that count up to each cluster.
fn push_all_counts(counter: &Counter, set: &mut ClauseSet) -> Result<(), PushError>
    requires most { counter.now.most ≤ MAX_MOST }
    requires variables { set.old.variables ≡ counted_variables counter.now }
    ensures ok { OnOk result (HasMore set.old set.new (each_below counter.now.clusters
        (λ c. each_below (counter.now.most + 1) (count_clauses counter.now c)))) }
    ensures err { IfErr result (StopsWith set.old (each_below counter.now.clusters
        (λ c. each_below (counter.now.most + 1) (count_clauses counter.now c)))) }
{
    for cluster in 0..counter.clusters() {
        push_counts(counter, cluster, set)?;
    }
    Ok(())
}

/// Adds the clauses of a counter.
fn push_counter(space: &Space, counter: &Counter, set: &mut ClauseSet) -> Result<(), PushError>
    requires most { counter.now.most ≤ MAX_MOST }
    requires counter { counter.now ≡ counter_of space.now counter.now.most }
    requires variables { set.old.variables ≡ counted_variables counter.now }
    ensures ok { OnOk result (HasMore set.old set.new (counter_clauses space.now counter.now)) }
    ensures err { IfErr result (StopsWith set.old (counter_clauses space.now counter.now)) }
{
    push_all_classes(space, counter, set)?;
    push_all_counts(counter, set)
}

/// Adds the clauses of a space and those of its counter.
fn push_counted(
    space: &Space,
    clauses: &ClauseSet,
    counter: &Counter,
    set: &mut ClauseSet,
) -> Result<(), PushError>
    requires most { counter.now.most ≤ MAX_MOST }
    requires counter { counter.now ≡ counter_of space.now counter.now.most }
    requires clauses { clauses.now.variables ≡ length space.now.meanings }
    requires variables { set.old.variables ≡ counted_variables counter.now }
    requires none { set.old.clauses ≡ [] }
    ensures ok { OnOk result (set.new ≡ record set.old { clauses = counted_clauses space.now clauses.now.clauses counter.now.most }) }
    ensures err { IfErr result (IsStoppedIn set.old.clause_limit set.old.literal_limit (counted_clauses space.now clauses.now.clauses counter.now.most)) }
{
    push_all(clauses, set)?;
    push_counter(space, counter, set)
}

/// The clauses of a space with those of a counter of its clusters behind them, which counts up to a most.
pub fn with_counter(
    alloc: Global,
    space: &Space,
    clauses: &ClauseSet,
    most: u32,
    limits: &Limits,
) -> Result<ClauseSet, WorkError>
    requires most { most ≤ MAX_MOST }
    requires clauses { clauses.now.variables ≡ length space.now.meanings }
    requires variables { limits.now.variables ≤ MAX_VARIABLES }
    requires clause_limit { limits.now.clauses ≤ MAX_CLAUSES }
    requires literals { limits.now.literals ≤ MAX_LITERALS }
    ensures ok { IfOk result (IsCountedSet limits.now space.now most clauses.now) }
    ensures exact { (what : What) → IsExactly NoMemory result (TooLarge what) (PassesCounted limits.now space.now most clauses.now.clauses what) }
    ensures cause { IfErr result (IsLarge (PassesCounted limits.now space.now most clauses.now.clauses)) }
{
    let counter = Counter::of(space, most);
    let variables = counter.variables();
    if variables > u64::from(limits.variables) {
        return Err(WorkError::TooLarge(What::Variables));
    }
    let mut set = ClauseSet::new(alloc, variables as u32, limits.clauses, limits.literals);
    match push_counted(space, clauses, &counter, &mut set) {
        Ok(()) => {
            set.keeps_invariant();
            Ok(set)
        }
        Err(error) => {
            drop(set);
            Err(too_large(error))
        }
    }
}
