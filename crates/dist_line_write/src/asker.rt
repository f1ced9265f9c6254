//! Questions, each with its lines.
ghost use Rattle.std.specs.Prelude.{◌≡◌, ◌≤◌, ◌↔◌, List, [], ◌∷◌, ◌++◌, IfErr, IfOk, IfSome, IsFalse, IsTrue, MatchOption, OnOk, length, map};
ghost use Rattle.dist_base.specs.declared.TheConstants.{MAX_LINES, MAX_LINE_LITERALS, MAX_VARIABLES};
ghost use Rattle.dist_clause.specs.ClauseList.{clause_at};
ghost use Rattle.dist_clause.specs.Formula.{IsClauseOver, negation};
ghost use Rattle.dist_derive.specs.Follows.{EachLineFollows, IsNumberOf};
ghost use Rattle.dist_outside.specs.DeskView.{FileGrew};
ghost use Rattle.dist_outside.specs.Files.{IsWriting};
ghost use Rattle.dist_solver.specs.Ask.{IsAnswer, IsRefutation};
ghost use Rattle.dist_solver.specs.declared.answers.Answer.TheVariants as answers;
ghost use Rattle.dist_cert.specs.FileLines.{IsOneLine};
ghost use Rattle.dist_cert.specs.Form.{AreFromOne, KeepsLimit, KeepsRules, Word, header_text, record_text};
ghost use Rattle.dist_cert.specs.Groups.{clause_of};
ghost use Rattle.dist_cert.specs.Writing.{ended};
ghost use Rattle.dist_cert.specs.declared.records.CertRecord.{CertRecord};
ghost use Rattle.dist_cert.specs.declared.records.CertRecord.TheVariants.{Question};
ghost use Rattle.dist_cert.specs.declared.records.CertRecord.TheVariants as lines;
ghost use Rattle.dist_line_write.specs.Asking.{AreRefuted, AskMore, AskStops, Holds, IsDerived, IsOver, MayDerive, work_of};
ghost use Rattle.dist_line_write.specs.Script.{FirstMore, FirstStops, Grows, NoQuestion, PutMore, PutStops, Script, Stops, new_writer};
ghost use Rattle.dist_line_write.specs.Words.{IsAnswerOver, closing_line};

use crate::putting::{put_derived, put_line};
use crate::words::{clause_of, true_variables};
use dist_cert::{CertRecord, Header, Items, Writer};
use dist_clause::{Assignment, ClauseSet, Lit};
use dist_derive::{Log, Scratch, lines_keep_models};
use dist_outside::{Desk, Limits, What, WorkError, file_grows};
use dist_quick::Shunning;
use dist_solver::{Answer, AskError, Solver};
use std::alloc::{AllocError, Global};
use std::marker::Model;

/// Asks questions and writes their lines.
#[derive(Drop)]
pub struct Asker {
    alloc: Global,
    solver: Solver,
    /// Room in which hints are tested.
    scratch: Scratch,
    writer: Writer,
    limit: u32,
}

impl Model for Asker {
    ghost use Rattle.std.specs.Prelude.{◌≡◌};
    ghost use Rattle.dist_line_write.specs.Asking.{AskerView};

    ghost Value = { AskerView };

    ghost view = { λ a. record { log = a.solver.log; writer = a.writer; limit = a.limit } };

    ghost invariant = { λ a. a.scratch ≡ a.solver.log.variables };
}

/// Puts the own line of a question.
fn put_question<D: Desk>(
    alloc: Global,
    writer: &mut Writer,
    desk: &mut D,
    question: &[(u32, bool)],
) -> Result<(), WorkError>
    requires writing { IsWriting (D.view desk.old).mode }
    requires form { KeepsRules (Question question.now) }
    ensures grew { OnOk result (FileGrew (ended (record_text (Question question.now))) (D.view desk.old) (D.view desk.new)) }
    ensures ok { OnOk result (PutMore writer.old writer.new (Question question.now)) }
    ensures err { IfErr result (PutStops writer.old (Question question.now) (D.view desk.old) (D.view desk.new)) }
    ensures grows { Grows (D.view desk.old) (D.view desk.new) }
{
    file_grows();
    let literals = question.to_vec(alloc)?;
    put_line(
        writer,
        desk,
        &CertRecord::Question(Items::from_vec(literals)),
    )
}

/// Why a question got no answer.
fn work_error(error: AskError) -> WorkError
    ensures { result ≡ work_of error }
{
    match error {
        AskError::TooManyLines => WorkError::TooLarge(What::Lines),
        AskError::TooManyLiterals => WorkError::TooLarge(What::LineLiterals),
        AskError::NoMemory => WorkError::NoMemory,
    }
}

/// Looks for an answer and puts the lines that were derived for it, also where there is none.
fn derive<D: Desk>(
    alloc: Global,
    solver: &mut Solver,
    writer: &mut Writer,
    desk: &mut D,
    assumptions: &[Lit],
    limit: u32,
    trues: &[u32],
    shunned: Option<&Assignment>,
) -> Result<Answer, WorkError>
    requires writing { IsWriting (D.view desk.old).mode }
    requires limit { 1 ≤ limit }
    requires assumptions { IsClauseOver solver.old.log.variables assumptions.now }
    requires shunned { IfSome shunned (λ values. length values.now ≡ solver.old.log.variables) }
    ensures ok { IfOk result (λ answer. (g : Script) (before : List CertRecord) (question : List Word) → clause_of question ≡ assumptions.now
        → MayDerive g before question solver.old.log limit writer.old
        → IsDerived g before question (D.view desk.old) (D.view desk.new) solver.old.log solver.new.log limit writer.new answer) }
    ensures err { IfErr result (λ error. (g : Script) (before : List CertRecord) (question : List Word) → clause_of question ≡ assumptions.now
        → MayDerive g before question solver.old.log limit writer.old
        → Stops g NoQuestion (before ++ Question question ∷ []) (D.view desk.old) (D.view desk.new) error) }
    ensures over { IfOk result (IsAnswerOver solver.old.log.variables) }
    ensures answered { IfOk result (λ answer. IsAnswer solver.old.log solver.new.log assumptions.now limit (Ok answer)) }
    ensures variables { solver.new.log.variables ≡ solver.old.log.variables }
    ensures grows { Grows (D.view desk.old) (D.view desk.new) }
{
    file_grows();
    let answer = solver.ask_with(assumptions, limit, trues, shunned);
    solver.log().keeps_invariant();
    put_derived(alloc, solver.log(), solver.derived(), writer, desk)?;
    match answer {
        Ok(answer) => Ok(answer),
        Err(error) => Err(work_error(error)),
    }
}

/// The line of an answer.
fn closing(alloc: Global, answer: &Answer, variables: u32) -> Result<CertRecord, AllocError>
    requires { IsAnswerOver variables answer.now }
    ensures value { IfOk result (λ step. step ≡ closing_line answer.now) }
    ensures form { IfOk result KeepsRules }
{
    match answer {
        Answer::Found(values) => {
            let members = true_variables(alloc, values, variables)?;
            Ok(CertRecord::Installation(Items::from_vec(members)))
        }
        Answer::Refuted(hints) => {
            let hints = hints.as_slice().to_vec(alloc)?;
            Ok(CertRecord::Refuted(Items::from_vec(hints)))
        }
        Answer::Undecided => Ok(CertRecord::Undecided),
    }
}

/// Puts the line of an answer.
fn put_answer<D: Desk>(
    alloc: Global,
    writer: &mut Writer,
    desk: &mut D,
    answer: &Answer,
    variables: u32,
) -> Result<(), WorkError>
    requires writing { IsWriting (D.view desk.old).mode }
    requires over { IsAnswerOver variables answer.now }
    ensures grew { OnOk result (FileGrew (ended (record_text (closing_line answer.now))) (D.view desk.old) (D.view desk.new)) }
    ensures ok { OnOk result (PutMore writer.old writer.new (closing_line answer.now)) }
    ensures err { IfErr result (PutStops writer.old (closing_line answer.now) (D.view desk.old) (D.view desk.new)) }
    ensures grows { Grows (D.view desk.old) (D.view desk.new) }
{
    file_grows();
    let step = closing(alloc, answer, variables)?;
    put_line(writer, desk, &step)
}

/// The negated literals.
fn negated(alloc: Global, literals: &[Lit]) -> Result<Vec<Lit>, AllocError>
    ensures { IfOk result (λ clause. clause.items ≡ map negation literals.now) }
{
    literals.iter().map(|l| l.negated()).collect(alloc)
}

/// Whether assumptions are refuted by these hints, which are not too many.
fn are_refuted(
    alloc: Global,
    log: &Log,
    scratch: &mut Scratch,
    assumptions: &[Lit],
    hints: &[u32],
) -> Result<bool, AllocError>
    requires assumptions { IsClauseOver log.now.variables assumptions.now }
    requires lines_follow { EachLineFollows log.now.inputs log.now.clauses }
    requires ready { scratch.old ≡ log.now.variables }
    ensures exactly { IfOk result (λ yes. IsTrue yes ↔ AreRefuted log.now assumptions.now hints.now) }
    ensures refuted { IfOk result (λ yes. IsTrue yes → IsRefutation log.now assumptions.now hints.now) }
    ensures numbers { IfOk result (λ yes. IsTrue yes → AreFromOne hints.now) }
    ensures ready { scratch.new ≡ scratch.old }
{
    lines_keep_models();
    if hints.len() > log.variables() as usize + 1 {
        return Ok(false);
    }
    let clause = negated(alloc, assumptions)?;
    Ok(log.follows(scratch, &clause, hints))
}

/// Puts the line that closes a question as refuted by hints.
fn put_refuted<D: Desk>(
    alloc: Global,
    writer: &mut Writer,
    desk: &mut D,
    hints: &[u32],
) -> Result<(), WorkError>
    requires writing { IsWriting (D.view desk.old).mode }
    requires numbers { AreFromOne hints.now }
    ensures grew { OnOk result (FileGrew (ended (record_text (lines.Refuted hints.now))) (D.view desk.old) (D.view desk.new)) }
    ensures ok { OnOk result (PutMore writer.old writer.new (lines.Refuted hints.now)) }
    ensures err { IfErr result (PutStops writer.old (lines.Refuted hints.now) (D.view desk.old) (D.view desk.new)) }
    ensures grows { Grows (D.view desk.old) (D.view desk.new) }
{
    file_grows();
    let numbers = hints.to_vec(alloc)?;
    put_line(writer, desk, &CertRecord::Refuted(Items::from_vec(numbers)))
}

impl Asker {
    /// An asker that has asked and written nothing.
    pub fn new(
        alloc: Global,
        clauses: ClauseSet,
        limit: u32,
        limits: &Limits,
    ) -> Result<Asker, AllocError>
        requires lines { limits.now.lines ≤ MAX_LINES }
        requires line_literals { limits.now.line_literals ≤ MAX_LINE_LITERALS }
        ensures { IfOk result (λ asker. asker ≡ record {
          log = record {
            clauses = clauses.clauses;
            inputs = length clauses.clauses;
            variables = clauses.variables;
            line_limit = limits.now.lines;
            line_literal_limit = limits.now.line_literals;
          };
          writer = new_writer limits.now;
          limit = limit;
        }) }
    {
        let scratch = Scratch::new(alloc, clauses.variables())?;
        Ok(Asker {
            alloc,
            scratch,
            solver: Solver::new(alloc, clauses, limits.lines, limits.line_literals)?,
            writer: Writer::new(alloc, limits),
            limit,
        })
    }

    /// From now on installations leave these variables out, as far as the search meets other alternatives, where a question names none
    /// of its own.
    pub fn shun(&mut self, shunning: Shunning)
        ensures { self.new ≡ self.old }
    {
        self.solver.shun(shunning);
    }

    /// How many variables there are.
    pub fn variables(&self) -> u32
        ensures value { result ≡ self.now.log.variables }
        ensures stated { result ≤ MAX_VARIABLES }
    {
        self.solver.log().variables()
    }

    /// There are at most as many variables as may be. Does nothing.
    pub fn keeps_invariant(&self)
        ensures { self.now.log.variables ≤ MAX_VARIABLES }
    {
        self.variables();
    }

    /// Puts the first line, without its line feed.
    pub fn put_first<D: Desk>(&mut self, desk: &mut D, line: &[u8]) -> Result<(), WorkError>
        requires writing { IsWriting (D.view desk.old).mode }
        requires nothing { self.old.writer.written ≡ 0 }
        requires one_line { IsOneLine line.now }
        ensures rest { self.new ≡ record self.old { writer = self.new.writer } }
        ensures grew { OnOk result (FileGrew (ended line.now) (D.view desk.old) (D.view desk.new)) }
        ensures ok { OnOk result (FirstMore self.old.writer self.new.writer line.now) }
        ensures err { IfErr result (FirstStops self.old.writer line.now (D.view desk.old) (D.view desk.new)) }
        ensures grows { Grows (D.view desk.old) (D.view desk.new) }
    {
        file_grows();
        self.writer.put_first(desk, line)
    }

    /// Puts the first line of a certificate.
    pub fn put_header<D: Desk>(&mut self, desk: &mut D, header: &Header) -> Result<(), WorkError>
        requires writing { IsWriting (D.view desk.old).mode }
        requires form { KeepsLimit header.now }
        ensures rest { self.new ≡ record self.old { writer = self.new.writer } }
        ensures grew { OnOk result (FileGrew (ended (header_text header.now)) (D.view desk.old) (D.view desk.new)) }
        ensures ok { OnOk result (FirstMore self.old.writer self.new.writer (header_text header.now)) }
        ensures err { IfErr result (FirstStops self.old.writer (header_text header.now) (D.view desk.old) (D.view desk.new)) }
        ensures grows { Grows (D.view desk.old) (D.view desk.new) }
    {
        file_grows();
        self.writer.put_header(desk, header)
    }

    /// Puts a line that is none of a question.
    pub fn put<D: Desk>(&mut self, desk: &mut D, step: &CertRecord) -> Result<(), WorkError>
        requires writing { IsWriting (D.view desk.old).mode }
        requires form { KeepsRules step.now }
        ensures rest { self.new ≡ record self.old { writer = self.new.writer } }
        ensures grew { OnOk result (FileGrew (ended (record_text step.now)) (D.view desk.old) (D.view desk.new)) }
        ensures ok { OnOk result (PutMore self.old.writer self.new.writer step.now) }
        ensures err { IfErr result (PutStops self.old.writer step.now (D.view desk.old) (D.view desk.new)) }
        ensures grows { Grows (D.view desk.old) (D.view desk.new) }
    {
        put_line(&mut self.writer, desk, step)
    }

    /// Asks a question and writes its lines.
    pub fn ask<D: Desk>(
        &mut self,
        desk: &mut D,
        question: &[(u32, bool)],
    ) -> Result<Answer, WorkError>
        requires writing { IsWriting (D.view desk.old).mode }
        requires limit { 1 ≤ self.old.limit }
        requires question { IsOver self.old.log.variables question.now }
        ensures ok { IfOk result (AskMore (D.view desk.old) (D.view desk.new) self.old self.new question.now) }
        ensures err { IfErr result (AskStops self.old question.now (D.view desk.old) (D.view desk.new)) }
        ensures over { IfOk result (IsAnswerOver self.old.log.variables) }
        ensures holds { IfOk result (Holds self.old.log.variables question.now) }
        ensures variables { self.new.log.variables ≡ self.old.log.variables }
        ensures limit { self.new.limit ≡ self.old.limit }
        ensures grows { Grows (D.view desk.old) (D.view desk.new) }
    {
        self.ask_with(desk, question, &[], None)
    }

    /// Asks a question and writes its lines. A guess at the installation is tried first: the variables that are true in it, perhaps.
    /// One that has to be looked for leaves variables out that are true in an assignment, as far as the search meets other
    /// alternatives. Where none is given, those of all questions stand.
    pub fn ask_with<D: Desk>(
        &mut self,
        desk: &mut D,
        question: &[(u32, bool)],
        trues: &[u32],
        shunned: Option<&Assignment>,
    ) -> Result<Answer, WorkError>
        requires writing { IsWriting (D.view desk.old).mode }
        requires limit { 1 ≤ self.old.limit }
        requires question { IsOver self.old.log.variables question.now }
        requires shunned { IfSome shunned (λ values. length values.now ≡ self.old.log.variables) }
        ensures ok { IfOk result (AskMore (D.view desk.old) (D.view desk.new) self.old self.new question.now) }
        ensures err { IfErr result (AskStops self.old question.now (D.view desk.old) (D.view desk.new)) }
        ensures over { IfOk result (IsAnswerOver self.old.log.variables) }
        ensures holds { IfOk result (Holds self.old.log.variables question.now) }
        ensures variables { self.new.log.variables ≡ self.old.log.variables }
        ensures limit { self.new.limit ≡ self.old.limit }
        ensures grows { Grows (D.view desk.old) (D.view desk.new) }
    {
        file_grows();
        let variables = self.solver.log().variables();
        let assumptions = clause_of(self.alloc, question)?;
        put_question(self.alloc, &mut self.writer, desk, question)?;
        let answer = derive(
            self.alloc,
            &mut self.solver,
            &mut self.writer,
            desk,
            &assumptions,
            self.limit,
            trues,
            shunned,
        )?;
        put_answer(self.alloc, &mut self.writer, desk, &answer, variables)?;
        Ok(answer)
    }

    /// The clause of a number, by which hints name it; none where there is none of this number.
    pub fn clause(&self, number: u32) -> Option<&[Lit]>
        ensures value { MatchOption result (¬ IsNumberOf self.now.log.clauses number)
            (λ clause. IsNumberOf self.now.log.clauses number × (clause.now ≡ clause_at self.now.log.clauses number)) }
        ensures over { IfSome result (λ clause. IsClauseOver self.now.log.variables clause.now) }
    {
        let log = self.solver.log();
        if number == 0 || number > log.len() {
            return None;
        }
        Some(log.clause(number))
    }

    /// Writes a question that these hints refute, with its answer, where they do. The solver isn't asked.
    pub fn refute<D: Desk>(
        &mut self,
        desk: &mut D,
        question: &[(u32, bool)],
        hints: &[u32],
    ) -> Result<bool, WorkError>
        requires writing { IsWriting (D.view desk.old).mode }
        requires question { IsOver self.old.log.variables question.now }
        ensures exactly { IfOk result (λ yes. IsTrue yes ↔ AreRefuted self.old.log (clause_of question.now) hints.now) }
        ensures ok { IfOk result (λ yes. IsTrue yes → AskMore (D.view desk.old) (D.view desk.new) self.old self.new question.now (answers.Refuted hints.now)) }
        ensures none { IfOk result (λ yes. IsFalse yes → (desk.new ≡ desk.old) × (self.new ≡ self.old)) }
        ensures err { IfErr result (AskStops self.old question.now (D.view desk.old) (D.view desk.new)) }
        ensures rest { self.new ≡ record self.old { writer = self.new.writer } }
        ensures grows { Grows (D.view desk.old) (D.view desk.new) }
    {
        file_grows();
        self.solver.log().keeps_invariant();
        let assumptions = clause_of(self.alloc, question)?;
        let log = self.solver.log();
        let refuted = are_refuted(self.alloc, log, &mut self.scratch, &assumptions, hints)?;
        if !refuted {
            return Ok(false);
        }
        put_question(self.alloc, &mut self.writer, desk, question)?;
        put_refuted(self.alloc, &mut self.writer, desk, hints)?;
        Ok(true)
    }
}
