//! Input clauses and the lines derived from them, numbered on.

ghost use Rattle.std.specs.Prelude.{◌≡◌, ◌+◌, ◌<◌, ◌≤◌, ◌↔◌, ℕ, Bool, [], ◌∷◌, ◌++◌, length, IfOk, IfSome, IsTrue, OnOk, OnErr, Err};
ghost use Rattle.dist_clause.specs.Formula.{IsClauseOver, IsModel};
ghost use Rattle.dist_clause.specs.ClauseList.{clause_at, literal_count};
ghost use Rattle.dist_derive.specs.ClauseLog.{inputs_of, joined, lines_of, IsWithinLineLimits};
ghost use Rattle.dist_derive.specs.VariableSet.{GivesTrue};
ghost use Rattle.dist_derive.specs.Follows.{IsNumberOf};
ghost use Rattle.dist_derive.specs.OccurrencesPrivate.{IsIndexOf};
ghost use Rattle.dist_derive.specs.LogPrivate.{IsIndexed};

use crate::far::Far;
use crate::inputs::Inputs;
use crate::occurrences::{Link, Occurrences, code_of};
use crate::variable_set::VariableSet;
use crate::watching::Watching;
use dist_base::{MAX_CLAUSES, MAX_LINE_LITERALS, MAX_LINES, MAX_VARIABLES};
use dist_clause::{ClauseSet, Lit, PushError};
use std::alloc::{AllocError, Global};
use std::marker::Model;

/// Why a line was not appended.
#[derive(Clone, Copy, Debug, PartialEq, Eq)]
pub enum AppendError {
    /// The log has as many derived lines as it may have.
    TooManyLines,
    /// With the line the derived lines would have more literals than they may have.
    TooManyLiterals,
    NoMemory,
}

/// Input clauses, followed by the lines that were derived from them.
#[derive(Drop)]
pub struct Log {
    pub(crate) inputs: Inputs,
    lines: ClauseSet,
    /// The clauses in which each literal stands, of those that are in the index.
    occurrences: Occurrences,
    /// What the last test of newness has left.
    pub(crate) watching: Watching,
    /// What lies far from the assumptions of the questions before.
    pub(crate) far: Far,
    pub(crate) alloc: Global,
}

impl Model for Log {
    ghost use Rattle.dist_derive.specs.ClauseLog.{ClauseLog, joined};
    ghost use Rattle.dist_derive.specs.LogPrivate.{IsKept};

    ghost Value = { ClauseLog };

    ghost view = { λ a. joined a.inputs a.lines };

    ghost invariant = { λ a. IsKept a.inputs a.lines a.occurrences a.watching a.far };
}

impl Log {
    /// A log with no derived line. The limits stay for good.
    pub fn new(alloc: Global, inputs: ClauseSet, lines: u32, line_literals: u32) -> Log
        requires lines { lines ≤ MAX_LINES }
        requires line_literals { line_literals ≤ MAX_LINE_LITERALS }
        ensures { result ≡ record {
          clauses = inputs.clauses;
          inputs = length inputs.clauses;
          variables = inputs.variables;
          line_limit = lines;
          line_literal_limit = line_literals;
        } }
    {
        let lines = ClauseSet::new(alloc, inputs.variables(), lines, line_literals);
        Log {
            inputs: Inputs::of(alloc, inputs),
            lines,
            occurrences: Occurrences::new(alloc),
            watching: Watching::empty(alloc),
            far: Far::empty(alloc),
            alloc,
        }
    }

    /// Puts the clauses that the index hasn't got yet into it. Until then, and after want of memory, calls walk these.
    fn cover(&mut self) -> Result<(), AllocError>
        ensures same { self.new ≡ self.old }
    {
        let variables = self.inputs.variables();
        self.occurrences.make_lists(variables)?;
        cover_all(&mut self.occurrences, self.inputs.set(), &self.lines)?;
        self.inputs.index(self.alloc)
    }

    /// A log without lines, with its clauses in the index. Without an index calls walk all clauses.
    pub fn covered(
        alloc: Global,
        inputs: ClauseSet,
        lines: u32,
        line_literals: u32,
    ) -> Result<Log, AllocError>
        requires lines { lines ≤ MAX_LINES }
        requires line_literals { line_literals ≤ MAX_LINE_LITERALS }
        ensures { IfOk result (λ log. log ≡ record {
          clauses = inputs.clauses;
          inputs = length inputs.clauses;
          variables = inputs.variables;
          line_limit = lines;
          line_literal_limit = line_literals;
        }) }
    {
        let mut log = Log::new(alloc, inputs, lines, line_literals);
        match log.cover() {
            Ok(()) => Ok(log),
            Err(error) => {
                drop(log);
                Err(error)
            }
        }
    }

    /// The number of clauses, derived lines included.
    pub fn len(&self) -> u32
        ensures value { result ≡ length self.now.clauses }
        ensures within { IsWithinLineLimits self.now }
        ensures stated { length (lines_of self.now) ≤ MAX_LINES }
        ensures stated_total { result ≤ MAX_CLAUSES + MAX_LINES }
    {
        self.inputs.len() + self.lines.len()
    }

    /// The number of input clauses.
    pub fn inputs(&self) -> u32
        ensures value { result ≡ self.now.inputs }
        ensures within { result ≤ length self.now.clauses }
        ensures stated { result ≤ MAX_CLAUSES }
    {
        self.inputs.len()
    }

    /// The number of variables.
    pub fn variables(&self) -> u32
        ensures value { result ≡ self.now.variables }
        ensures stated { result ≤ MAX_VARIABLES }
    {
        self.inputs.variables()
    }

    /// The log has at most as many variables and clauses as may be, and is within its limits. Does nothing.
    pub fn keeps_invariant(&self)
        ensures variables { self.now.variables ≤ MAX_VARIABLES }
        ensures inputs { self.now.inputs ≤ length self.now.clauses }
        ensures clauses { length self.now.clauses ≤ MAX_CLAUSES + MAX_LINES }
        ensures within { IsWithinLineLimits self.now }
    {
        self.variables();
        self.inputs();
        self.len();
    }

    /// The clause of a number; the first one has the number 1.
    pub fn clause(&self, number: u32) -> &[Lit]
        requires from_one { 1 ≤ number }
        requires to_len { number ≤ length self.now.clauses }
        ensures value { result.now ≡ clause_at self.now.clauses number }
        ensures over_variables { IsClauseOver self.now.variables result.now }
    {
        clause_of(self.inputs.set(), &self.lines, number)
    }

    /// The place of the latest clause in which a literal stands, of those in the index; 0: there is none.
    pub fn latest_with(&self, literal: Lit) -> u32 {
        self.occurrences.latest(code_of(literal))
    }

    /// What stands at a place: the number of a clause, and the place of the clause before it with the same literal.
    pub fn link(&self, place: u32) -> Option<Link>
        ensures { IfSome result (λ link. IsNumberOf self.now.clauses link.number × (link.next < place)) }
    {
        self.occurrences.link(place)
    }

    /// Whether the assignment in which exactly the members of a set are true is a model of the input clauses. It costs the
    /// clauses without a negative literal, and those of which the rarest negative literal is false; of those that begin
    /// alike up to a true literal, one.
    pub fn holds(&self, trues: &VariableSet) -> bool
        requires { trues.now.variables ≡ self.now.variables }
        ensures { (value : ℕ → Bool) → GivesTrue value trues.now.members
            → IsTrue result ↔ IsModel value (inputs_of self.now) }
    {
        self.inputs.hold(trues)
    }

    /// The index of the clauses.
    pub(crate) fn occurrences(&self) -> &Occurrences
        ensures { IsIndexOf result.now self.now.clauses }
    {
        &self.occurrences
    }

    /// Adds a derived line as the last one, and gives its number. Where all clauses before it are in the index, it is put
    /// in too, unless memory is wanting.
    pub fn append(&mut self, clause: &[Lit]) -> Result<u32, AppendError>
        requires { IsClauseOver self.old.variables clause.now }
        ensures number { IfOk result (λ number. number ≡ length self.old.clauses + 1) }
        ensures ok { OnOk result (self.new ≡ record self.old { clauses = self.old.clauses ++ clause.now ∷ [] }) }
        ensures err { OnErr result (self.new ≡ self.old) }
        ensures too_many_lines { (result ≡ Err AppendError.TooManyLines)
            ↔ (length (lines_of self.old) ≡ self.old.line_limit) }
        ensures too_many_literals { (result ≡ Err AppendError.TooManyLiterals)
            ↔ (length (lines_of self.old) < self.old.line_limit)
            × (self.old.line_literal_limit < literal_count (lines_of self.old) + length clause.now) }
    {
        match self.lines.push(clause) {
            Ok(()) => {
                let number = self.inputs.len() + self.lines.len();
                self.occurrences.add_next(number, clause);
                Ok(number)
            }
            Err(PushError::TooManyClauses) => Err(AppendError::TooManyLines),
            Err(PushError::TooManyLiterals) => Err(AppendError::TooManyLiterals),
            Err(PushError::NoMemory) => Err(AppendError::NoMemory),
        }
    }
}

/// The clause of a number, of input clauses followed by lines.
fn clause_of<'a>(inputs: &'a ClauseSet, lines: &'a ClauseSet, number: u32) -> &'a [Lit]
    requires from_one { 1 ≤ number }
    requires to_len { number ≤ length (joined inputs.now lines.now).clauses }
    requires same_variables { lines.now.variables ≡ inputs.now.variables }
    ensures value { result.now ≡ clause_at (joined inputs.now lines.now).clauses number }
    ensures over_variables { IsClauseOver inputs.now.variables result.now }
{
    let first = inputs.len();
    if number <= first {
        inputs.clause(number)
    } else {
        lines.clause(number - first)
    }
}

/// Puts the clauses that an index hasn't got yet into it.
fn cover_all(
    occurrences: &mut Occurrences,
    inputs: &ClauseSet,
    lines: &ClauseSet,
) -> Result<(), AllocError>
    requires indexed { IsIndexed inputs.now lines.now occurrences.old }
    ensures indexed { IsIndexed inputs.now lines.now occurrences.new }
{
    let len = inputs.len() + lines.len();
    for place in occurrences.covered()..len {
        occurrences.add(place + 1, clause_of(inputs, lines, place + 1))?;
    }
    Ok(())
}
