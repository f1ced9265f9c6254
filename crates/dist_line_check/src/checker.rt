//! What is kept of the lines before a line, whatever the kind of file.
ghost use Rattle.std.specs.Prelude.{◌≡◌, ◌≤◌, ◌++◌, ◌∷◌, [], None, Some, IfErr, IfOk, OnOk, length};
ghost use Rattle.std.specs.Option.{ForSome};
ghost use Rattle.dist_derive.specs.ClauseLog.{IsWithinLineLimits};
ghost use Rattle.dist_cert.specs.Form.{AreLiterals, KeepsRules};
ghost use Rattle.dist_cert.specs.Groups.{clause_of};
ghost use Rattle.dist_line_check.specs.Checker.{Tells, assumed};
ghost use Rattle.dist_line_check.specs.Since.{AreLiteralsOver, IsAppendCause};

use crate::future::FutureClauses;
use crate::judging::{
    judge_derived, judge_installation, judge_question, judge_refuted, judge_undecided,
};
use crate::question::Question;
use crate::tools::Tools;
use dist_cert::{CertCause, CertRecord, Literals};
use dist_derive::Log;
use dist_outside::WorkError;
use std::alloc::{AllocError, Global};
use std::marker::Model;

/// The clauses and the open question, with room for the test of the next line.
#[derive(Drop)]
pub struct Checker {
    limit: u32,
    future: FutureClauses,
    log: Log,
    question: Option<Question>,
    tools: Tools,
}

impl Model for Checker {
    ghost use Rattle.std.specs.Prelude.{◌≡◌, ◌≤◌, length};
    ghost use Rattle.std.specs.Option.{ForSome};
    ghost use Rattle.dist_line_check.specs.Checker.{CheckerView};
    ghost use Rattle.dist_line_check.specs.Since.{AreLiteralsOver};

    ghost Value = { CheckerView };

    ghost view = { λ c. record { limit = c.limit; future = c.future; log = c.log; question = c.question } };

    ghost invariant = { λ c. (c.tools ≡ c.log.variables) × ForSome c.question (λ q. AreLiteralsOver c.log.variables q.assumptions) × ForSome c.question (λ q. q.last ≤ length c.log.clauses) };
}

impl Checker {
    /// Before the first line behind the first one.
    pub fn new(
        alloc: Global,
        limit: u32,
        future: FutureClauses,
        log: Log,
    ) -> Result<Checker, AllocError>
        ensures within { IfOk result (λ checker. IsWithinLineLimits checker.log) }
        ensures value { IfOk result (λ checker. checker ≡ record { limit = limit; future = future; log = log; question = None }) }
    {
        log.keeps_invariant();
        match Tools::new(alloc, log.variables()) {
            Ok(tools) => Ok(Checker {
                limit,
                future,
                log,
                question: None,
                tools,
            }),
            Err(error) => {
                drop(log);
                Err(error)
            }
        }
    }

    /// What this call tells is that the derived lines keep their limits.
    pub(crate) fn keep_limits(&self)
        ensures { IsWithinLineLimits self.now.log }
    {
        self.log.keeps_invariant();
    }

    /// The first fault of a line, if there is one. Of claims and of the end the kind of file tells.
    pub(crate) fn judge(&mut self, step: &CertRecord) -> Result<Option<CertCause>, AllocError>
        requires form { KeepsRules step.now }
        ensures told { IfOk result (Tells self.old step.now) }
        ensures same { self.new ≡ self.old }
    {
        match step {
            CertRecord::Question(literals) => Ok(judge_question(&self.log, literals.as_slice())),
            CertRecord::Derived(literals, hints) => judge_derived(
                &self.log,
                &mut self.tools,
                literals.as_slice(),
                hints.as_slice(),
            ),
            CertRecord::Refuted(hints) => judge_refuted(
                &self.log,
                &mut self.tools,
                &self.question,
                hints.as_slice(),
            ),
            CertRecord::Installation(variables) => Ok(judge_installation(
                &self.log,
                &mut self.tools,
                self.future,
                variables.as_slice(),
            )),
            CertRecord::Undecided => judge_undecided(
                &mut self.log,
                &mut self.tools,
                self.limit,
                &self.question,
            ),
            CertRecord::NotInstallable(_)
            | CertRecord::Unknown(_)
            | CertRecord::Strong(_, _, _, _)
            | CertRecord::Outdated(_)
            | CertRecord::Alive(_, _)
            | CertRecord::Challenged(_, _, _, _)
            | CertRecord::End => Ok(None),
        }
    }

    /// Opens a question.
    pub(crate) fn open(&mut self, assumptions: Literals)
        requires { AreLiteralsOver self.old.log.variables assumptions }
        ensures { self.new ≡ record self.old { question = Some (record { assumptions = assumptions; last = length self.old.log.clauses }) } }
    {
        self.question = Some(Question::new(assumptions, self.log.len()));
    }

    /// Adds a derived line.
    pub(crate) fn derive(&mut self, literals: &[(u32, bool)]) -> Result<(), WorkError>
        requires { AreLiteralsOver self.old.log.variables literals.now }
        ensures ok { OnOk result (self.new ≡ record self.old { log = record self.old.log { clauses = self.old.log.clauses ++ clause_of literals.now ∷ [] } }) }
        ensures err { IfErr result (IsAppendCause self.old.log (clause_of literals.now)) }
    {
        self.log.keeps_invariant();
        self.tools.append(&mut self.log, literals)
    }

    /// Closes the question that is open, if there is one.
    pub(crate) fn close(&mut self) -> Option<Literals>
        ensures value { self.new ≡ record self.old { question = None } }
        ensures closed { result ≡ assumed self.old.question }
        ensures formed { ForSome result AreLiterals }
    {
        match self.question.take() {
            Some(question) => Some(question.into_assumptions()),
            None => None,
        }
    }
}
