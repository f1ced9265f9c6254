//! A solver, and the question that it is asked.

ghost use Rattle.std.specs.Prelude.{◌≡◌, ◌<◌, ◌≤◌, ◌↔◌, ℕ, [], length, Contains, IfOk, IfSome};
ghost use Rattle.dist_clause.specs.Formula.{IsClauseOver};
ghost use Rattle.dist_derive.specs.ClauseLog.{ClauseLog, inputs_of};
ghost use Rattle.dist_derive.specs.Follows.{EachLineFollows};
ghost use Rattle.dist_derive.specs.Cone.{InCone};
ghost use Rattle.dist_derive.specs.Safe.{AreSafe};
ghost use Rattle.dist_solver.specs.Evidence.{Adds};
ghost use Rattle.dist_solver.specs.Ask.{IsAnswer};
ghost use Rattle.dist_solver.specs.Kept.{IsReady};
ghost use Rattle.dist_solver.specs.LearningPrivate.{Learns, UnlessNoMemory};

use crate::answers::{Answer, AskError, Hints};
use crate::guesses::Guesses;
use crate::lines::Derived;
use dist_base::{MAX_LINE_LITERALS, MAX_LINES, MAX_VARIABLES};
use dist_clause::{Assignment, ClauseSet, Lit};
use dist_derive::{
    Log, VariableSet, lines_keep_models, more_clauses_keep_what_follows, new_lines_are_few,
    what_is_safe,
};
use dist_quick::Shunning;
use dist_search::{End, Search};
use std::alloc::{AllocError, Global};
use std::marker::Model;

/// Input clauses with the lines derived from them, and the room in which questions are answered.
#[derive(Drop)]
pub struct Solver {
    entries: Log,
    added: Derived,
    cone: VariableSet,
    guesses: Guesses,
    /// What the last question left, to be gone on with at the next one.
    search: Option<Search>,
    alloc: Global,
}

impl Model for Solver {
    ghost use Rattle.dist_solver.specs.Derived.{SolverState};
    ghost use Rattle.dist_solver.specs.Kept.{IsSound};

    ghost Value = { SolverState };

    ghost view = { λ a. record { log = a.entries; derived = a.added } };

    ghost invariant = { λ a. IsSound a.entries a.cone.variables a.guesses a.search };
}

impl Solver {
    /// A solver of input clauses, with the two limits of its log. They stay for good. Where there is no memory, the
    /// clauses are given up.
    pub fn new(
        alloc: Global,
        clauses: ClauseSet,
        lines: u32,
        line_literals: u32,
    ) -> Result<Solver, AllocError>
        requires lines { lines ≤ MAX_LINES }
        requires line_literals { line_literals ≤ MAX_LINE_LITERALS }
        ensures { IfOk result (λ solver. solver ≡ record {
          log = record {
            clauses = clauses.clauses;
            inputs = length clauses.clauses;
            variables = clauses.variables;
            line_limit = lines;
            line_literal_limit = line_literals;
          };
          derived = [];
        }) }
    {
        what_is_safe();
        let variables = clauses.variables();
        let entries = Log::covered(alloc, clauses, lines, line_literals)?;
        let cone = match VariableSet::new(alloc, variables) {
            Ok(cone) => cone,
            Err(error) => {
                drop(entries);
                return Err(error);
            }
        };
        match Guesses::new(alloc, variables) {
            Ok(guesses) => Ok(Solver {
                entries,
                added: Derived::new(alloc),
                cone,
                guesses,
                search: None,
                alloc,
            }),
            Err(error) => {
                drop(cone);
                drop(entries);
                Err(error)
            }
        }
    }

    /// From now on models leave these variables out, as far as the first search meets other alternatives, where a question names none
    /// of its own.
    pub fn shun(&mut self, shunning: Shunning)
        ensures { self.new ≡ self.old }
    {
        self.guesses.shun(shunning);
    }

    /// Asks for a model in which the assumptions are true, with leave to add at most `limit` lines to the log. Every
    /// answer, an error too, comes with the evidence of the lines that were added.
    pub fn ask(&mut self, assumptions: &[Lit], limit: u32) -> Result<Answer, AskError>
        requires limit { 1 ≤ limit }
        requires assumptions { IsClauseOver self.old.log.variables assumptions.now }
        ensures adds { Adds self.old.log self.new.log self.new.derived assumptions.now limit }
        ensures answer { IsAnswer self.old.log self.new.log assumptions.now limit result }
    {
        self.ask_guessing(assumptions, limit, &[])
    }

    /// The same, where a guess is tried first: the variables that are true in a model, perhaps. The test of it costs
    /// what the clauses without a negative literal cost, and those in which its variables are negated.
    pub fn ask_guessing(
        &mut self,
        assumptions: &[Lit],
        limit: u32,
        trues: &[u32],
    ) -> Result<Answer, AskError>
        requires limit { 1 ≤ limit }
        requires assumptions { IsClauseOver self.old.log.variables assumptions.now }
        ensures adds { Adds self.old.log self.new.log self.new.derived assumptions.now limit }
        ensures answer { IsAnswer self.old.log self.new.log assumptions.now limit result }
    {
        self.ask_with(assumptions, limit, trues, None)
    }

    /// The same, where a model that has to be looked for leaves variables out that are true in an assignment, as far as the first
    /// search meets other alternatives.
    pub fn ask_with(
        &mut self,
        assumptions: &[Lit],
        limit: u32,
        trues: &[u32],
        shunned: Option<&Assignment>,
    ) -> Result<Answer, AskError>
        requires limit { 1 ≤ limit }
        requires assumptions { IsClauseOver self.old.log.variables assumptions.now }
        requires shunned { IfSome shunned (λ values. length values.now ≡ self.old.log.variables) }
        ensures adds { Adds self.old.log self.new.log self.new.derived assumptions.now limit }
        ensures answer { IsAnswer self.old.log self.new.log assumptions.now limit result }
    {
        self.added.clear();
        let given = self
            .guesses
            .given(self.alloc, &self.entries, assumptions, trues)?;
        if let Some(answer) = given {
            return Ok(answer);
        }
        let first = self
            .guesses
            .first(self.alloc, &self.entries, assumptions, shunned)?;
        if let Some(answer) = first {
            return Ok(answer);
        }
        self.look(assumptions, limit)
    }

    /// Searches for an answer within the cone of the assumptions.
    fn look(&mut self, assumptions: &[Lit], limit: u32) -> Result<Answer, AskError>
        requires limit { 1 ≤ limit }
        requires assumptions { IsClauseOver self.old.log.variables assumptions.now }
        ensures adds { Adds self.old.log self.new.log self.new.derived assumptions.now limit }
        ensures answer { IsAnswer self.old.log self.new.log assumptions.now limit result }
    {
        self.entries.keeps_invariant();
        self.added.clear();
        self.entries.mark_cone(&mut self.cone, assumptions);
        let kept = self.search.take();
        let mut search = search_of(self.alloc, kept, self.entries.variables())?;
        let answer = find_answer(
            self.alloc,
            &mut self.entries,
            &mut self.added,
            &mut search,
            &self.cone,
            assumptions,
            limit,
        );
        self.search = kept_after(&answer, search);
        answer
    }

    /// The input clauses and all lines derived from them.
    pub fn log(&self) -> &Log
        ensures value { result.now ≡ self.now.log }
        ensures lines_follow { EachLineFollows self.now.log.inputs self.now.log.clauses }
    {
        &self.entries
    }

    /// The lines that the last question added.
    pub fn derived(&self) -> &Derived
        ensures { result.now ≡ self.now.derived }
    {
        &self.added
    }

    /// How many guesses of the quick phase failed their tests, for all questions so far. Each of them is a fault of that phase,
    /// which shows in no answer, but costs a search. A guess that came with a question is not counted.
    pub fn failed_guesses(&self) -> u64 {
        self.guesses.failed()
    }
}

/// The search that is kept, or a new one.
fn search_of(alloc: Global, kept: Option<Search>, variables: u32) -> Result<Search, AllocError>
    requires { variables ≤ MAX_VARIABLES }
    ensures { (log : ClauseLog) → variables ≡ log.variables → IfSome kept (IsReady log) → IfOk result (IsReady log) }
{
    match kept {
        Some(search) => Ok(search),
        None => Search::new(alloc, variables),
    }
}

/// The search, unless memory was wanting: it is of no use then.
fn kept_after(answer: &Result<Answer, AskError>, search: Search) -> Option<Search>
    ensures { (log : ClauseLog) → UnlessNoMemory answer.now (IsReady log search) → IfSome result (IsReady log) }
{
    match answer {
        Err(AskError::NoMemory) => {
            drop(search);
            None
        }
        _ => Some(search),
    }
}

/// Searches until an answer comes, at most `limit` times; each time without one adds a line. The cone of the assumptions is
/// given. Unless memory was wanting, the search is ready for the next question.
fn find_answer(
    alloc: Global,
    log: &mut Log,
    derived: &mut Derived,
    search: &mut Search,
    cone: &VariableSet,
    assumptions: &[Lit],
    limit: u32,
) -> Result<Answer, AskError>
    requires assumptions { IsClauseOver log.old.variables assumptions.now }
    requires cone_variables { cone.now.variables ≡ log.old.variables }
    requires cone { (v : ℕ) → Contains cone.now.members v ↔ InCone (inputs_of log.old) assumptions.now v }
    requires ready { IsReady log.old search.old }
    requires none { derived.old ≡ [] }
    requires lines_follow { EachLineFollows log.old.inputs log.old.clauses }
    requires safe { AreSafe (inputs_of log.old) log.old.clauses }
    ensures adds { Adds log.old log.new derived.new assumptions.now limit }
    ensures answer { IsAnswer log.old log.new assumptions.now limit result }
    ensures lines_follow { EachLineFollows log.new.inputs log.new.clauses }
    ensures safe { AreSafe (inputs_of log.new) log.new.clauses }
    ensures ready { UnlessNoMemory result (IsReady log.new search.new) }
{
    new_lines_are_few();
    more_clauses_keep_what_follows();
    what_is_safe();
    lines_keep_models();
    log.keeps_invariant();
    search.start(log, cone, assumptions)?;
    for _ in 0..limit {
        match search.next(alloc, log, cone, assumptions)? {
            End::Model(values) => return Ok(Answer::Found(values)),
            End::Refutation => {
                let hints = Vec::from_slice(alloc, search.hints())?;
                return Ok(Answer::Refuted(Hints::of(hints)));
            }
            End::Lesson => {
                learn(log, derived, search.clause(), search.hints())?;
                search.learned(log, cone, assumptions)?;
            }
        }
    }
    Ok(Answer::Undecided)
}

/// Adds a line to the log, and to the derived lines its number and hints; or to neither.
fn learn(
    log: &mut Log,
    derived: &mut Derived,
    clause: &[Lit],
    hints: &[u32],
) -> Result<(), AskError>
    requires { IsClauseOver log.old.variables clause.now }
    ensures { Learns log.old log.new derived.old derived.new clause.now hints.now result }
{
    let number = log.len() + 1;
    derived.push(number, hints)?;
    if let Err(cause) = log.append(clause) {
        derived.pop();
        return Err(AskError::from(cause));
    }
    Ok(())
}
