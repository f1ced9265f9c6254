//! The first line against what certificates of its kind and mode are judged by.
ghost use Rattle.std.specs.Prelude.{◌≡◌, ◌≢◌, ◌↔◌, IfErr, IfOk, IsTrue, None};
ghost use Rattle.dist_repo.specs.Size.{IsWithinSize};
ghost use Rattle.dist_subject.specs.Limited.{AreStated, PassesFirst, PassesLater, PassesPresent};
ghost use Rattle.dist_check.specs.JudgedSpace.{IsSpaceGiven};
ghost use Rattle.dist_check.specs.Start.{StartAnswers};
ghost use Rattle.dist_check.specs.StartPrivate.{HasNumbers, IsLargeFault, IsSubject};

use crate::layout::layout_of;
use dist_cert::{CertKind, Header, ReadCertError};
use dist_check_group::Layout;
use dist_check_state::State;
use dist_clause::ClauseSet;
use dist_derive::Log;
use dist_future::future_clauses_are_two_parts;
use dist_judge::bad_heading;
use dist_line_check::{Checker, FutureClauses, Kept};
use dist_outside::Limits;
use dist_repo::Repository;
use dist_space::{Space, packages_come_first};
use dist_subject::{later_inputs, present_inputs};
use std::alloc::Global;

/// What certificates of a kind and mode are judged by, with its space where that is wanted and there is one.
#[derive(Drop)]
struct Subject {
    packages: u32,
    inputs: ClauseSet,
    layout: Layout,
    future: FutureClauses,
    space: Option<Space>,
}

/// What is kept behind a first line, and the space of what that one is judged by, where it is wanted and there is one.
#[derive(Drop)]
pub(crate) struct Started {
    pub(crate) kept: Kept<State>,
    pub(crate) space: Option<Space>,
}

/// The packages as they are.
fn present_subject(
    alloc: Global,
    repo: &Repository,
    essential: bool,
    limits: &Limits,
) -> Result<Subject, ReadCertError>
    requires size { IsWithinSize repo.now }
    requires limits { AreStated limits.now }
    ensures ok { IfOk result (λ s. IsSubject repo.now limits.now CertKind.Strong essential
        s.packages s.inputs s.layout s.future) }
    ensures none { IfOk result (λ s. s.space ≡ None) }
    ensures err { IfErr result (IsLargeFault (PassesPresent repo.now essential limits.now)) }
{
    let inputs = present_inputs(alloc, repo, essential, limits)?;
    let count = inputs.len();
    Ok(Subject {
        packages: repo.len(),
        inputs,
        layout: Layout::present(alloc),
        future: FutureClauses {
            upto: 0,
            behind: count,
            last: count,
        },
        space: None,
    })
}

/// The futures of the newest packages, by their space.
fn later_subject(
    alloc: Global,
    repo: &Repository,
    kind: CertKind,
    essential: bool,
    wants_space: bool,
    limits: &Limits,
) -> Result<Subject, ReadCertError>
    requires kind { kind ≢ CertKind.Strong }
    requires size { IsWithinSize repo.now }
    requires limits { AreStated limits.now }
    ensures ok { IfOk result (λ s. IsSubject repo.now limits.now kind essential
        s.packages s.inputs s.layout s.future) }
    ensures space { IfOk result (λ s. IsSpaceGiven repo.now limits.now wants_space kind essential s.space) }
    ensures err { IfErr result (IsLargeFault (PassesLater repo.now essential limits.now)) }
{
    future_clauses_are_two_parts();
    packages_come_first();
    let made = later_inputs(alloc, repo, essential, limits)?;
    let layout = layout_of(alloc, &made.space, kind)?;
    made.clauses.keeps_invariant();
    Ok(Subject {
        packages: made.space.package_count(),
        inputs: made.clauses,
        layout,
        future: FutureClauses {
            upto: made.ends.early,
            behind: made.ends.today,
            last: made.ends.after,
        },
        space: wants_space.then_some(made.space),
    })
}

/// What a first line's kind and mode are judged by.
fn subject_of(
    alloc: Global,
    repo: &Repository,
    header: &Header,
    wants_space: bool,
    limits: &Limits,
) -> Result<Subject, ReadCertError>
    requires size { IsWithinSize repo.now }
    requires limits { AreStated limits.now }
    ensures ok { IfOk result (λ s. IsSubject repo.now limits.now header.now.kind header.now.essential
        s.packages s.inputs s.layout s.future) }
    ensures space { IfOk result (λ s. IsSpaceGiven repo.now limits.now wants_space header.now.kind header.now.essential s.space) }
    ensures err { IfErr result (IsLargeFault (PassesFirst repo.now header.now.kind header.now.essential limits.now)) }
{
    match header.kind {
        CertKind::Strong => present_subject(alloc, repo, header.essential, limits),
        CertKind::Outdated => {
            later_subject(
                alloc,
                repo,
                CertKind::Outdated,
                header.essential,
                wants_space,
                limits,
            )
        }
        CertKind::Challenged => {
            later_subject(
                alloc,
                repo,
                CertKind::Challenged,
                header.essential,
                wants_space,
                limits,
            )
        }
    }
}

/// Whether the numbers of a first line are right.
fn has_numbers(packages: u32, inputs: &ClauseSet, header: &Header) -> bool
    ensures { IsTrue result ↔ HasNumbers packages inputs.now header.now }
{
    header.packages == packages
        && header.variables == inputs.variables()
        && header.clauses == inputs.len()
}

/// What is kept behind a first line.
pub(crate) fn start(
    alloc: Global,
    repo: &Repository,
    header: &Header,
    wants_space: bool,
    limits: &Limits,
) -> Result<Started, ReadCertError>
    requires size { IsWithinSize repo.now }
    requires limits { AreStated limits.now }
    ensures answers { StartAnswers repo.now limits.now header.now result }
    ensures space { IfOk result (λ s. IsSpaceGiven repo.now limits.now wants_space header.now.kind header.now.essential s.space) }
{
    let subject = subject_of(alloc, repo, header, wants_space, limits)?;
    let Subject {
        packages,
        inputs,
        layout,
        future,
        space,
    } = subject;
    if !has_numbers(packages, &inputs, header) {
        return Err(bad_heading());
    }
    let variables = inputs.variables();
    let log = Log::covered(alloc, inputs, limits.lines, limits.line_literals)?;
    let notes = State::new(alloc, packages, variables, layout);
    match Checker::new(alloc, header.limit, future, log) {
        Ok(checker) => Ok(Started {
            kept: Kept { checker, notes },
            space,
        }),
        Err(error) => {
            drop(notes);
            drop(space);
            Err(ReadCertError::from(error))
        }
    }
}
