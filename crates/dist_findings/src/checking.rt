//! One pass over the lines of a file.
ghost use Rattle.std.specs.Prelude.{◌≤◌, [], List, None, Option, ℕ, IfErr, IfOk};
ghost use Rattle.dist_outside.specs.DeskView.{OnlyReads};
ghost use Rattle.dist_outside.specs.Files.{IsReading};
ghost use Rattle.dist_outside.specs.Reading.{bytes_left};
ghost use Rattle.dist_cert.specs.Reading.{text_left};
ghost use Rattle.dist_judge.specs.Causes.{TextCause};
ghost use Rattle.dist_judge.specs.Judging.{OfText};
ghost use Rattle.dist_base.specs.declared.TheConstants.{MAX_LINES, MAX_LINE_LITERALS};
ghost use Rattle.dist_line_check.specs.Checked.{IsChecked};
ghost use Rattle.dist_findings.specs.AnswerLines.{answer_lines};
ghost use Rattle.dist_findings.specs.Answers.{TextAnswers};
ghost use Rattle.dist_findings.specs.BegunPrivate.{BeginFails, IsBegun};

use crate::answering::Answering;
use crate::files::{Files, any_future};
use crate::heading::{heading_numbers, limit_of};
use dist_cert::{ReadCertError, Reader, forms_are_clear};
use dist_derive::Log;
use dist_judge::bad_heading;
use dist_line_check::{Checker, Kept, check_lines};
use dist_outside::{Desk, Limits};
use std::alloc::Global;

/// What was read of an accepted file.
#[derive(Drop)]
pub(crate) struct Checked<N> {
    pub(crate) numbers: Vec<u32>,
    pub(crate) notes: N,
}

/// What is kept behind a first line.
#[derive(Drop)]
struct Begun<N> {
    numbers: Vec<u32>,
    kept: Kept<N>,
}

/// What is kept behind a first line.
fn begin<A: Answering>(
    alloc: Global,
    answering: &A,
    line: &[u8],
    limits: &Limits,
) -> Result<Begun<A::Notes>, ReadCertError>
    requires ready { A.ready answering.now limits.now }
    requires lines { limits.now.lines ≤ MAX_LINES }
    requires line_literals { limits.now.line_literals ≤ MAX_LINE_LITERALS }
    ensures ok { IfOk result (λ b. IsBegun (A.file answering.now) limits.now line.now b.numbers.items b.kept.checker) }
    ensures noted { IfOk result (λ b. A.noted answering.now b.numbers.items [] b.kept.notes) }
    ensures err { IfErr result (BeginFails (A.file answering.now) limits.now line.now) }
{
    let Some(numbers) = heading_numbers(alloc, answering, line)? else {
        return Err(bad_heading());
    };
    let Some(inputs) = answering.inputs(alloc, &numbers, limits)? else {
        return Err(bad_heading());
    };
    let notes = answering.begin(alloc, &numbers)?;
    let log = Log::covered(alloc, inputs, limits.lines, limits.line_literals)?;
    let checker = Checker::new(alloc, limit_of(&numbers), any_future(), log)?;
    Ok(Begun {
        numbers,
        kept: Kept { checker, notes },
    })
}

/// What the text behind its first line answers, with what is kept behind that one.
fn answers_behind<D: Desk, A: Answering>(
    alloc: Global,
    desk: &mut D,
    answering: &A,
    limits: &Limits,
    reader: &mut Reader,
    begun: Begun<A::Notes>,
) -> Result<Checked<A::Notes>, ReadCertError>
    requires reading { IsReading (D.view desk.old).mode }
    requires start { IsChecked (answer_lines (A.file answering.now) (A.noted answering.now)) limits.now None begun.numbers.items reader.old None begun.kept.checker begun.kept.notes }
    ensures text { (told : Option (List ℕ)) → IsChecked (answer_lines (A.file answering.now) (A.noted answering.now)) limits.now told begun.numbers.items reader.old (text_left reader.old (D.view desk.old)) begun.kept.checker
        begun.kept.notes
        → OfText told (λ text. TextAnswers (A.file answering.now) limits.now (λ c. c.numbers.items) (λ c found. A.noted answering.now c.numbers.items found c.notes) text result) }
    ensures some { (text : List ℕ) × TextAnswers (A.file answering.now) limits.now (λ c. c.numbers.items) (λ c found. A.noted answering.now c.numbers.items found c.notes) text result }
    ensures cause { IfErr result (TextCause (D.view desk.old) (D.view desk.new)) }
    ensures only_reads { OnlyReads (D.view desk.old) (D.view desk.new) }
{
    let Begun { numbers, kept } = begun;
    let files = Files { answering };
    match check_lines(alloc, desk, &files, reader, kept) {
        Ok(notes) => Ok(Checked { numbers, notes }),
        Err(error) => {
            drop(numbers);
            Err(error)
        }
    }
}

/// Checks the text that a desk is reading.
pub(crate) fn check_text<D: Desk, A: Answering>(
    alloc: Global,
    desk: &mut D,
    answering: &A,
    limits: &Limits,
) -> Result<Checked<A::Notes>, ReadCertError>
    requires reading { IsReading (D.view desk.old).mode }
    requires ready { A.ready answering.now limits.now }
    requires lines { limits.now.lines ≤ MAX_LINES }
    requires line_literals { limits.now.line_literals ≤ MAX_LINE_LITERALS }
    ensures text { OfText (bytes_left (D.view desk.old).files (D.view desk.old).mode)
        (λ text. TextAnswers (A.file answering.now) limits.now (λ c. c.numbers.items) (λ c found. A.noted answering.now c.numbers.items found c.notes) text result) }
    ensures some { (text : List ℕ) × TextAnswers (A.file answering.now) limits.now (λ c. c.numbers.items) (λ c found. A.noted answering.now c.numbers.items found c.notes) text result }
    ensures cause { IfErr result (TextCause (D.view desk.old) (D.view desk.new)) }
    ensures only_reads { OnlyReads (D.view desk.old) (D.view desk.new) }
{
    forms_are_clear();
    answering.front_is_one_line();
    let mut reader = Reader::new(alloc, limits);
    let line = reader.first(desk)?;
    let begun = begin(alloc, answering, &line, limits)?;
    answers_behind(alloc, desk, answering, limits, &mut reader, begun)
}
