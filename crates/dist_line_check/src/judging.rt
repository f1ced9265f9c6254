//! The first fault of a line, by what is kept of the lines before it.
ghost use Rattle.std.specs.Prelude.{◌≡◌, ◌≤◌, IfOk, Some, length};
ghost use Rattle.std.specs.Option.{ForSome};
ghost use Rattle.dist_cert.specs.Form.{AreFromOne, AreLiterals};
ghost use Rattle.dist_line_check.specs.Since.{AreLiteralsOver};
ghost use Rattle.dist_line_check.specs.Checker.{TellsDerived, TellsInstallation, TellsQuestion, TellsRefuted, TellsUndecided};

use crate::above::{is_any_above, is_any_variable_above};
use crate::future::FutureClauses;
use crate::question::Question;
use crate::tools::Tools;
use dist_cert::CertCause;
use dist_derive::Log;
use std::alloc::AllocError;

/// Of the line of a question.
pub(crate) fn judge_question(log: &Log, literals: &[(u32, bool)]) -> Option<CertCause>
    ensures { TellsQuestion log.now.variables literals.now result }
{
    if is_any_variable_above(literals, log.variables()) {
        return Some(CertCause::OutOfRange);
    }
    None
}

/// Of a derived line.
pub(crate) fn judge_derived(
    log: &Log,
    tools: &mut Tools,
    literals: &[(u32, bool)],
    hints: &[u32],
) -> Result<Option<CertCause>, AllocError>
    requires form { AreLiterals literals.now }
    requires tools { tools.old ≡ log.now.variables }
    ensures told { IfOk result (TellsDerived log.now literals.now hints.now) }
    ensures ready { tools.new ≡ tools.old }
{
    if is_any_variable_above(literals, log.variables()) {
        return Ok(Some(CertCause::OutOfRange));
    }
    let last = log.len();
    if is_any_above(hints, last) {
        return Ok(Some(CertCause::UnknownLine));
    }
    if !tools.follows(log, literals, hints)? {
        return Ok(Some(CertCause::BadLine));
    }
    Ok(None)
}

/// Of the line that refutes the open question.
fn judge_refutation(
    log: &Log,
    tools: &mut Tools,
    question: &Question,
    hints: &[u32],
) -> Result<Option<CertCause>, AllocError>
    requires question { AreLiteralsOver log.now.variables question.now.assumptions }
    requires tools { tools.old ≡ log.now.variables }
    ensures told { IfOk result (TellsRefuted log.now (Some question.now) hints.now) }
    ensures ready { tools.new ≡ tools.old }
{
    if is_any_above(hints, log.len()) {
        return Ok(Some(CertCause::UnknownLine));
    }
    if !tools.refutes(log, question.assumptions(), hints)? {
        return Ok(Some(CertCause::BadLine));
    }
    Ok(None)
}

/// Of a line that refutes the question that is open, if there is one.
pub(crate) fn judge_refuted(
    log: &Log,
    tools: &mut Tools,
    question: &Option<Question>,
    hints: &[u32],
) -> Result<Option<CertCause>, AllocError>
    requires question { ForSome question.now (λ q. AreLiteralsOver log.now.variables q.assumptions) }
    requires tools { tools.old ≡ log.now.variables }
    ensures told { IfOk result (TellsRefuted log.now question.now hints.now) }
    ensures ready { tools.new ≡ tools.old }
{
    let Some(question) = question else {
        return Ok(Some(CertCause::OutOfOrder));
    };
    judge_refutation(log, tools, question, hints)
}

/// Of the line of an installation.
pub(crate) fn judge_installation(
    log: &Log,
    tools: &mut Tools,
    future: FutureClauses,
    variables: &[u32],
) -> Option<CertCause>
    requires from_one { AreFromOne variables.now }
    requires tools { tools.old ≡ log.now.variables }
    ensures told { TellsInstallation log.now future variables.now result }
    ensures ready { tools.new ≡ tools.old }
{
    if is_any_above(variables, log.variables()) {
        return Some(CertCause::OutOfRange);
    }
    if tools.is_model(log, variables) {
        return None;
    }
    if !tools.is_future(log, future, variables) {
        return Some(CertCause::NotAFuture);
    }
    Some(CertCause::NotAnInstallation)
}

/// Of the line that closes the open question as undecided.
fn judge_surrender(
    log: &mut Log,
    tools: &mut Tools,
    limit: u32,
    question: &Question,
) -> Result<Option<CertCause>, AllocError>
    requires question { AreLiteralsOver log.old.variables question.now.assumptions }
    requires last { question.now.last ≤ length log.old.clauses }
    requires tools { tools.old ≡ log.old.variables }
    ensures told { IfOk result (TellsUndecided log.old limit (Some question.now)) }
    ensures same { log.new ≡ log.old }
    ensures ready { tools.new ≡ tools.old }
{
    if log.len() - question.last() < limit {
        return Ok(Some(CertCause::LimitNotReached));
    }
    if !tools.are_new(log, question.assumptions(), question.last())? {
        return Ok(Some(CertCause::NotNew));
    }
    Ok(None)
}

/// Of a line that closes the question that is open, if there is one, as undecided.
pub(crate) fn judge_undecided(
    log: &mut Log,
    tools: &mut Tools,
    limit: u32,
    question: &Option<Question>,
) -> Result<Option<CertCause>, AllocError>
    requires question { ForSome question.now (λ q. AreLiteralsOver log.old.variables q.assumptions) }
    requires last { ForSome question.now (λ q. q.last ≤ length log.old.clauses) }
    requires tools { tools.old ≡ log.old.variables }
    ensures told { IfOk result (TellsUndecided log.old limit question.now) }
    ensures same { log.new ≡ log.old }
    ensures ready { tools.new ≡ tools.old }
{
    match question {
        Some(question) => judge_surrender(log, tools, limit, question),
        None => Ok(Some(CertCause::OutOfOrder)),
    }
}
