//! Questions at worked rows and limits, and small clause sets compared with trying all assignments.
ghost use Rattle.std.specs.Prelude.{◌≡◌, ◌≤◌, length, IfSome};
ghost use Rattle.dist_clause.specs.Formula.{IsClauseOver};

use dist_clause::{Assignment, ClauseSet, Lit};
use dist_derive::Scratch;
use dist_samples::{add, clause, push, push_all};
use dist_solver::{Answer, AskError, Solver};
use std::alloc::Global;

/// Clauses over 21 variables, and groups of numbers of each of which at most one is true.
#[derive(Clone, Copy)]
enum Puzzle {
    /// One conflict with the first variable.
    Conflict,
    /// All four clauses over two variables.
    Four,
    /// One variable leads to the next, and the last excludes the first.
    Chain,
    /// An odd number of three variables is true.
    Odd,
    /// Exactly one of three variables is true.
    One,
    /// No clause at all.
    Nothing,
    /// Four pigeons, each in one of three holes, no two in one.
    Pigeons,
    /// A package, variable 21, with five dependencies, each met by one of four, of which no two of one kind stand together.
    Crowded,
}

impl Puzzle {
    fn clauses(self) -> &'static [&'static [i32]] {
        match self {
            Puzzle::Conflict => &[&[-1, 2], &[-1, -2]],
            Puzzle::Four => &[&[1, 2], &[1, -2], &[-1, 2], &[-1, -2]],
            Puzzle::Chain => &[&[-1, 2], &[-2, 3], &[-3, -1]],
            Puzzle::Odd => &[&[1, 2, 3], &[1, -2, -3], &[-1, 2, -3], &[-1, -2, 3]],
            Puzzle::One => &[&[1, 2, 3]],
            Puzzle::Nothing => &[],
            Puzzle::Pigeons => &[&[1, 5, 9], &[2, 6, 10], &[3, 7, 11], &[4, 8, 12]],
            Puzzle::Crowded => &[
                &[-21, 1, 6, 11, 16],
                &[-21, 2, 7, 12, 17],
                &[-21, 3, 8, 13, 18],
                &[-21, 4, 9, 14, 19],
                &[-21, 5, 10, 15, 20],
            ],
        }
    }

    fn groups(self) -> &'static [&'static [i32]] {
        match self {
            Puzzle::One => &[&[1, 2, 3]],
            Puzzle::Pigeons => &[&[1, 2, 3, 4], &[5, 6, 7, 8], &[9, 10, 11, 12]],
            Puzzle::Crowded => &[
                &[1, 2, 3, 4, 5],
                &[6, 7, 8, 9, 10],
                &[11, 12, 13, 14, 15],
                &[16, 17, 18, 19, 20],
            ],
            _ => &[],
        }
    }
}

/// Adds that a number is not true together with another one.
fn exclude(alloc: Global, set: &mut ClauseSet, number: i32, others: &[i32]) -> bool
    requires { set.old.variables ≡ 21 }
    ensures { set.new.variables ≡ 21 }
{
    for other in others {
        let pair = [other.wrapping_neg(), number.wrapping_neg()];
        if push(alloc, set, &pair) != Some(Ok(())) {
            return false;
        }
    }
    true
}

/// Adds that of the numbers at most one is true.
fn keep_apart(alloc: Global, set: &mut ClauseSet, group: &[i32]) -> bool
    requires { set.old.variables ≡ 21 }
    ensures { set.new.variables ≡ 21 }
{
    for place in 1..group.len() {
        if !exclude(alloc, set, group[place], &group[..place]) {
            return false;
        }
    }
    true
}

/// Adds of each group of numbers that at most one is true.
fn keep_all_apart(alloc: Global, set: &mut ClauseSet, groups: &[&[i32]]) -> bool
    requires { set.old.variables ≡ 21 }
    ensures { set.new.variables ≡ 21 }
{
    for group in groups {
        if !keep_apart(alloc, set, group) {
            return false;
        }
    }
    true
}

/// The clauses of a puzzle.
fn clauses_of(alloc: Global, puzzle: Puzzle) -> Option<ClauseSet>
    ensures { IfSome result (λ s. s.variables ≡ 21) }
{
    let mut set = ClauseSet::new(alloc, 21, 100, 1000);
    if push_all(alloc, &mut set, puzzle.clauses())
        && keep_all_apart(alloc, &mut set, puzzle.groups())
    {
        Some(set)
    } else {
        drop(set);
        None
    }
}

/// A solver of a puzzle.
fn solver_of(alloc: Global, puzzle: Puzzle, lines: u32, literals: u32) -> Option<Solver>
    requires lines { lines ≤ 1000 }
    requires literals { literals ≤ 10000 }
    ensures { IfSome result (λ s. s.log.variables ≡ 21) }
{
    match clauses_of(alloc, puzzle) {
        Some(clauses) => Solver::new(alloc, clauses, lines, literals).ok(),
        None => None,
    }
}

/// What a question came to.
#[derive(Clone, Copy, PartialEq, Eq)]
enum Seen {
    Found,
    Refuted,
    Undecided,
    Refused(AskError),
    /// Hints that do not refute the assumptions, or no memory for the question.
    Wrong,
}

/// The clause of the negated assumptions.
fn negated(alloc: Global, assumptions: &[Lit]) -> Option<Vec<Lit>>
    ensures { IfSome result (λ c. IsClauseOver 21 c.items) }
{
    let mut negated = Vec::new(alloc);
    for literal in assumptions {
        if !add(&mut negated, 21, literal.variable(), !literal.positive()) {
            return None;
        }
    }
    Some(negated)
}

/// Whether a clause follows by hints in the log of a solver.
fn follows(alloc: Global, solver: &Solver, clause: &[Lit], hints: &[u32]) -> bool
    requires { IsClauseOver solver.now.log.variables clause.now }
{
    let log = solver.log();
    match Scratch::new(alloc, log.variables()) {
        Ok(mut scratch) => {
            let follows = log.follows(&mut scratch, clause, hints);
            drop(scratch);
            follows
        }
        Err(_) => false,
    }
}

/// What hints come to by which assumptions are refuted.
fn refuted(alloc: Global, solver: &Solver, assumptions: &[Lit], hints: &[u32]) -> Seen
    requires { solver.now.log.variables ≡ 21 }
{
    match negated(alloc, assumptions) {
        Some(clause) => {
            let so = follows(alloc, solver, &clause, hints);
            drop(clause);
            if so { Seen::Refuted } else { Seen::Wrong }
        }
        None => Seen::Wrong,
    }
}

/// What an answer comes to.
fn seen_of(
    alloc: Global,
    solver: &Solver,
    assumptions: &[Lit],
    answer: &Result<Answer, AskError>,
) -> Seen
    requires { solver.now.log.variables ≡ 21 }
{
    match answer {
        Ok(Answer::Found(_)) => Seen::Found,
        Ok(Answer::Refuted(hints)) => refuted(alloc, solver, assumptions, hints.as_slice()),
        Ok(Answer::Undecided) => Seen::Undecided,
        Err(error) => Seen::Refused(*error),
    }
}

/// The true variables of no model of a row's question.
const GUESS: &[u32] = &[1, 21];

/// What a question under some assumptions comes to, with a guess that fails or without.
fn ask(alloc: Global, solver: &mut Solver, assumed: &[Lit], limit: u32, guessing: bool) -> Seen
    requires variables { solver.old.log.variables ≡ 21 }
    requires assumed { IsClauseOver 21 assumed.now }
    requires limit { 1 ≤ limit }
    ensures { solver.new.log.variables ≡ 21 }
{
    let answer = if guessing {
        solver.ask_guessing(assumed, limit, GUESS)
    } else {
        solver.ask(assumed, limit)
    };
    let seen = seen_of(alloc, solver, assumed, &answer);
    drop(answer);
    seen
}

/// The same of the assumptions of some numbers.
fn put(alloc: Global, solver: &mut Solver, assumptions: &[i32], limit: u32, guessing: bool) -> Seen
    requires variables { solver.old.log.variables ≡ 21 }
    requires limit { 1 ≤ limit }
    ensures { solver.new.log.variables ≡ 21 }
{
    match clause(alloc, 21, assumptions) {
        Some(assumed) => {
            let seen = ask(alloc, solver, &assumed, limit, guessing);
            drop(assumed);
            seen
        }
        None => Seen::Wrong,
    }
}

/// Assumptions, a limit, and what the question comes to.
type Turn = (&'static [i32], u32, Seen);

/// A puzzle, the most lines and literals of a solver, a question, and how many lines it adds, where that is told.
type Asked = (Puzzle, (u32, u32), Turn, Option<usize>);

const FULL: Seen = Seen::Refused(AskError::TooManyLines);

const LONG: Seen = Seen::Refused(AskError::TooManyLiterals);

const ASKED: &[Asked] = &[
    (Puzzle::Conflict, (9, 99), (&[2], 1, Seen::Found), Some(0)),
    (Puzzle::Conflict, (9, 99), (&[1], 1, Seen::Refuted), Some(0)),
    (
        Puzzle::Crowded,
        (9, 99),
        (&[21], 1, Seen::Undecided),
        Some(1),
    ),
    (
        Puzzle::Crowded,
        (9, 99),
        (&[21], 2, Seen::Undecided),
        Some(2),
    ),
    // The first assumption alone reaches nothing.
    (
        Puzzle::Crowded,
        (9, 99),
        (&[1, 21], 1, Seen::Undecided),
        Some(1),
    ),
    (Puzzle::Crowded, (0, 99), (&[21], 1, FULL), Some(0)),
    (Puzzle::Crowded, (1, 0), (&[21], 1, LONG), Some(0)),
    (Puzzle::Crowded, (2, 99), (&[21], 5, FULL), Some(2)),
    (Puzzle::Pigeons, (9, 99), (&[], 1, Seen::Undecided), Some(1)),
    (Puzzle::Pigeons, (9, 99), (&[], 2, Seen::Undecided), Some(2)),
    // Enough lines decide.
    (Puzzle::Four, (1000, 10000), (&[], 10, Seen::Refuted), None),
    (
        Puzzle::Pigeons,
        (1000, 10000),
        (&[], 10000, Seen::Refuted),
        None,
    ),
    (
        Puzzle::Crowded,
        (1000, 10000),
        (&[21], 10000, Seen::Refuted),
        None,
    ),
];

/// Whether a question comes to what it says.
fn comes_to(alloc: Global, solver: &mut Solver, turn: &Turn, guessing: bool) -> bool
    requires { solver.old.log.variables ≡ 21 }
    ensures { solver.new.log.variables ≡ 21 }
{
    turn.1 >= 1 && put(alloc, solver, turn.0, turn.1, guessing) == turn.2
}

/// Whether the last question added as many lines as it tells, and as many as are wanted, where that is known.
fn has_grown(solver: &Solver, before: u32, added: Option<usize>) -> bool {
    let count = solver.derived().len();
    let grown = solver.log().len() as usize == (before as usize).saturating_add(count);
    grown && added.unwrap_or(count) == count
}

/// Whether a question comes to what its row says, and adds as many lines.
fn is_right(alloc: Global, solver: &mut Solver, row: &Asked, guessing: bool) -> bool
    requires { solver.old.log.variables ≡ 21 }
{
    let before = solver.log().len();
    comes_to(alloc, solver, &row.2, guessing) && has_grown(solver, before, row.3)
}

/// Whether questions come to what they say, one after another.
fn are_right(alloc: Global, solver: &mut Solver, turns: &[Turn]) -> bool
    requires { solver.old.log.variables ≡ 21 }
{
    for turn in turns {
        if !comes_to(alloc, solver, turn, false) {
            return false;
        }
    }
    true
}

/// Questions to one solver of the crowded package: the same again, with the same first assumption and another behind it, with
/// another first one, and the same after the lines that refute it were added.
const TURNS: &[Turn] = &[
    (&[21], 1, Seen::Undecided),
    (&[21], 1, Seen::Undecided),
    (&[21, -1], 1, Seen::Undecided),
    (&[1], 1, Seen::Found),
    (&[1, -21], 1, Seen::Found),
    (&[1, 2], 1, Seen::Refuted),
    (&[21], 10000, Seen::Refuted),
    (&[21], 1, Seen::Refuted),
    (&[21, -1], 1, Seen::Refuted),
    (&[1, 21], 1, Seen::Refuted),
    (&[-21], 1, Seen::Found),
    (&[], 1, Seen::Found),
];

/// Questions to a solver that may add two lines.
const SHORT_TURNS: &[Turn] = &[
    (&[21], 5, FULL),
    (&[21], 5, FULL),
    (&[1], 1, Seen::Found),
    (&[1, -21], 1, Seen::Found),
    (&[21], 5, FULL),
];

/// Questions to a solver whose lines may have twelve literals together: the first line fits.
const LONG_TURNS: &[Turn] = &[
    (&[21], 1, Seen::Undecided),
    (&[21], 50, LONG),
    (&[21], 50, LONG),
    (&[1], 1, Seen::Found),
    (&[1, -21], 1, Seen::Found),
    (&[21], 50, LONG),
];

/// Whether one of the assignments of the first three variables is a model in which the literals are true.
fn finds_model(values: &mut Assignment, clauses: &ClauseSet, literals: &[Lit]) -> bool
    requires values { length values.old ≡ 21 }
    requires clauses { clauses.now.variables ≡ 21 }
    requires literals { IsClauseOver 21 literals.now }
{
    for bits in 0..8u32 {
        values.set(1, bits & 1 != 0);
        values.set(2, bits & 2 != 0);
        values.set(3, bits & 4 != 0);
        if values.holds(clauses) && are_true(values, literals) {
            return true;
        }
    }
    false
}

/// The same, where there is memory for an assignment.
fn is_possible(alloc: Global, clauses: &ClauseSet, literals: &[Lit]) -> Option<bool>
    requires clauses { clauses.now.variables ≡ 21 }
    requires literals { IsClauseOver 21 literals.now }
{
    match Assignment::new(alloc, 21) {
        Ok(mut values) => {
            let possible = finds_model(&mut values, clauses, literals);
            drop(values);
            Some(possible)
        }
        Err(_) => None,
    }
}

/// Whether all literals are true.
fn are_true(values: &Assignment, literals: &[Lit]) -> bool
    requires values { length values.now ≡ 21 }
    requires literals { IsClauseOver 21 literals.now }
{
    literals
        .iter()
        .all(|l| values.value(l.variable()) == l.positive())
}

/// Whether the answer under assumptions is a model, where that is possible, or refutes them, where it is not.
fn answers(
    alloc: Global,
    clauses: &ClauseSet,
    solver: &mut Solver,
    assumptions: &[Lit],
    possible: bool,
) -> bool
    requires clauses { clauses.now.variables ≡ 21 }
    requires solver { solver.old.log.variables ≡ 21 }
    requires assumptions { IsClauseOver 21 assumptions.now }
    ensures { solver.new.log.variables ≡ 21 }
{
    let answer = solver.ask(assumptions, 10000);
    let so = match &answer {
        Ok(Answer::Found(values)) => {
            possible && values.holds(clauses) && are_true(values, assumptions)
        }
        _ => !possible && seen_of(alloc, solver, assumptions, &answer) == Seen::Refuted,
    };
    drop(answer);
    so
}

/// Whether the answer under assumptions is what trying all assignments gives.
fn agrees_under(
    alloc: Global,
    clauses: &ClauseSet,
    solver: &mut Solver,
    assumptions: &[Lit],
) -> bool
    requires clauses { clauses.now.variables ≡ 21 }
    requires solver { solver.old.log.variables ≡ 21 }
    requires assumptions { IsClauseOver 21 assumptions.now }
    ensures { solver.new.log.variables ≡ 21 }
{
    match is_possible(alloc, clauses, assumptions) {
        Some(possible) => answers(alloc, clauses, solver, assumptions, possible),
        None => false,
    }
}

/// The same of the assumptions of some numbers.
fn agrees(alloc: Global, clauses: &ClauseSet, solver: &mut Solver, numbers: &[i32]) -> bool
    requires clauses { clauses.now.variables ≡ 21 }
    requires solver { solver.old.log.variables ≡ 21 }
    ensures { solver.new.log.variables ≡ 21 }
{
    match clause(alloc, 21, numbers) {
        Some(assumptions) => {
            let so = agrees_under(alloc, clauses, solver, &assumptions);
            drop(assumptions);
            so
        }
        None => false,
    }
}

/// The list of assumptions of a code: each of three variables is true, false or not there. The codes from 27 on give the same lists
/// with the first variable last.
fn listed(code: usize) -> [i32; 3] {
    let signs = [0, 1, -1i32];
    let first = signs[code % 3];
    let second = signs[code / 3 % 3].wrapping_mul(2);
    let third = signs[code / 9 % 3].wrapping_mul(3);
    if code < 27 {
        [first, second, third]
    } else {
        [third, second, first]
    }
}

/// Whether a solver answers all 27 lists of assumptions on three variables as trying all assignments does. They come in two orders:
/// in the first one each question has another first assumption than the one before, in the second one most have the same.
fn agrees_always(alloc: Global, clauses: &ClauseSet, solver: &mut Solver) -> bool
    requires clauses { clauses.now.variables ≡ 21 }
    requires solver { solver.old.log.variables ≡ 21 }
{
    for code in 0..54usize {
        if !agrees(alloc, clauses, solver, &listed(code)) {
            return false;
        }
    }
    true
}

/// Whether a solver of a puzzle answers as trying all assignments does.
fn is_agreed(alloc: Global, puzzle: Puzzle, solver: &mut Solver) -> bool
    requires { solver.old.log.variables ≡ 21 }
{
    match clauses_of(alloc, puzzle) {
        Some(clauses) => {
            let agreed = agrees_always(alloc, &clauses, solver);
            drop(clauses);
            agreed
        }
        None => false,
    }
}

const SMALL: &[Puzzle] = &[
    Puzzle::Conflict,
    Puzzle::Four,
    Puzzle::Chain,
    Puzzle::Odd,
    Puzzle::One,
    Puzzle::Nothing,
];

/// Whether the question added one line alone, with the number 5 and hints among the four clauses by which it follows.
fn has_added(alloc: Global, solver: &Solver) -> bool {
    let derived = solver.derived();
    if derived.len() != 1 || solver.log().len() != 5 || derived.line(0) != 5 {
        return false;
    }
    let hints = derived.hints(0);
    hints.iter().all(|number| *number <= 4) && follows(alloc, solver, solver.log().clause(5), hints)
}

/// Whether a question with the limit of one line adds that line, of a solver of the four clauses.
fn adds_the_line(alloc: Global, solver: &mut Solver) -> bool
    requires { solver.old.log.variables ≡ 21 }
{
    put(alloc, solver, &[], 1, false) == Seen::Undecided && has_added(alloc, solver)
}

/// Whether a question finds the second variable true, and the first one false.
fn finds_second(solver: &mut Solver, assumed: &[Lit]) -> bool
    requires solver { solver.old.log.variables ≡ 21 }
    requires assumed { IsClauseOver 21 assumed.now }
{
    let answer = solver.ask(assumed, 1);
    let so = match &answer {
        Ok(Answer::Found(values)) => !values.value(1) && values.value(2),
        _ => false,
    };
    drop(answer);
    so
}

/// The same of a question about the second variable, where these two exclude each other.
fn finds_the_second(alloc: Global, solver: &mut Solver) -> bool
    requires { solver.old.log.variables ≡ 21 }
{
    match clause(alloc, 21, &[2]) {
        Some(assumed) => {
            let so = finds_second(solver, &assumed);
            drop(assumed);
            so
        }
        None => false,
    }
}

/// A puzzle, assumptions, a guess at the true variables, and whether these make a model in which the assumptions are true.
type Guessed = (Puzzle, &'static [i32], &'static [u32], bool);

const GUESSED: &[Guessed] = &[
    (Puzzle::One, &[], &[1], true),
    (Puzzle::One, &[], &[2], true),
    (Puzzle::One, &[], &[3, 21], true),
    (Puzzle::One, &[2], &[2, 2], true),
    (Puzzle::Conflict, &[2], &[3, 2], true),
    (Puzzle::One, &[], &[], false),
    // A clause is broken.
    (Puzzle::One, &[], &[1, 2], false),
    (Puzzle::One, &[], &[21], false),
    (Puzzle::Conflict, &[1], &[1], false),
    (Puzzle::Crowded, &[21], &[21], false),
    // An assumption is false.
    (Puzzle::One, &[2], &[1], false),
    (Puzzle::One, &[-3], &[3], false),
    // No such variable.
    (Puzzle::One, &[], &[1, 22], false),
    (Puzzle::One, &[], &[0, 1], false),
];

/// The true variables of an assignment, as bits.
fn bits_of(values: &Assignment) -> u32
    requires { length values.now ≡ 21 }
{
    let mut bits = 0u32;
    for variable in 1..22u32 {
        if values.value(variable) {
            bits |= 1 << variable;
        }
    }
    bits
}

/// Listed variables, as bits.
fn bits_among(listed: &[u32]) -> u32 {
    listed
        .iter()
        .fold(0, |bits, variable| bits | 1u32.wrapping_shl(*variable))
}

/// What a question comes to, with a guess or without one, and the true variables of the model that was found.
fn guess(alloc: Global, solver: &mut Solver, assumed: &[Lit], trues: Option<&[u32]>) -> (Seen, u32)
    requires variables { solver.old.log.variables ≡ 21 }
    requires assumed { IsClauseOver 21 assumed.now }
{
    let answer = match trues {
        Some(trues) => solver.ask_guessing(assumed, 1, trues),
        None => solver.ask(assumed, 1),
    };
    let bits = match &answer {
        Ok(Answer::Found(values)) => bits_of(values),
        _ => 0,
    };
    let seen = seen_of(alloc, solver, assumed, &answer);
    drop(answer);
    (seen, bits)
}

/// The same of a new solver of a puzzle, and of the assumptions of some numbers.
fn guess_of(
    alloc: Global,
    puzzle: Puzzle,
    assumptions: &[i32],
    trues: Option<&[u32]>,
) -> Option<(Seen, u32)> {
    let assumed = clause(alloc, 21, assumptions)?;
    match solver_of(alloc, puzzle, 1000, 10000) {
        Some(mut solver) => {
            let end = guess(alloc, &mut solver, &assumed, trues);
            drop(solver);
            drop(assumed);
            Some(end)
        }
        None => {
            drop(assumed);
            None
        }
    }
}

/// Whether a guess that is a model is the answer, and any other leaves the answer as it is without one.
fn is_guessed(alloc: Global, row: &Guessed) -> bool {
    let (puzzle, assumptions, trues, model) = *row;
    let wanted = if model {
        Some((Seen::Found, bits_among(trues)))
    } else {
        guess_of(alloc, puzzle, assumptions, None)
    };
    wanted.is_some() && guess_of(alloc, puzzle, assumptions, Some(trues)) == wanted
}

/// The place of the first guess that comes to something else.
fn wrong_guess(alloc: Global, rows: &[Guessed]) -> Option<usize> {
    for place in 0..rows.len() {
        if !is_guessed(alloc, &rows[place]) {
            return Some(place);
        }
    }
    None
}

#[test]
fn a_guess_that_is_a_model_is_the_answer(rt: HostRuntime) {
    assert_eq!(rt; wrong_guess(rt.alloc(), GUESSED), None);
}

/// What is tried with a solver.
#[derive(Clone, Copy)]
enum Trial<'a> {
    /// A question alone, with a guess that fails or without.
    One(&'a Asked, bool),
    /// Questions one after another.
    Turns(&'a [Turn]),
    /// All questions on three variables of this puzzle.
    All(Puzzle),
    /// A question for a line.
    Line,
    /// A question for a model.
    Model,
}

/// Whether a trial comes to what it says.
fn succeeds(alloc: Global, solver: &mut Solver, trial: &Trial<'_>) -> bool
    requires { solver.old.log.variables ≡ 21 }
{
    match trial {
        Trial::One(row, guessing) => is_right(alloc, solver, row, *guessing),
        Trial::Turns(turns) => are_right(alloc, solver, turns),
        Trial::All(puzzle) => is_agreed(alloc, *puzzle, solver),
        Trial::Line => adds_the_line(alloc, solver),
        Trial::Model => finds_the_second(alloc, solver),
    }
}

/// The same with a new solver of a puzzle, which may have so many lines and literals.
fn holds(alloc: Global, puzzle: Puzzle, limits: (u32, u32), trial: &Trial<'_>) -> bool {
    let (lines, literals) = limits;
    if lines > 1000 || literals > 10000 {
        return false;
    }
    match solver_of(alloc, puzzle, lines, literals) {
        Some(mut solver) => {
            let so = succeeds(alloc, &mut solver, trial);
            drop(solver);
            so
        }
        None => false,
    }
}

const MANY: (u32, u32) = (1000, 10000);

/// The place of the first question that comes to something else, with a guess that fails or without.
fn wrong_question(alloc: Global, rows: &[Asked], guessing: bool) -> Option<usize> {
    for place in 0..rows.len() {
        let row = &rows[place];
        if !holds(alloc, row.0, row.1, &Trial::One(row, guessing)) {
            return Some(place);
        }
    }
    None
}

#[test]
fn questions_have_their_answers(rt: HostRuntime) {
    assert_eq!(rt; wrong_question(rt.alloc(), ASKED, false), None);
}

#[test]
fn a_guess_that_fails_leaves_answers_as_they_are(rt: HostRuntime) {
    assert_eq!(rt; wrong_question(rt.alloc(), ASKED, true), None);
}

/// The place of the first puzzle that is answered otherwise than by trying all assignments.
fn wrong_puzzle(alloc: Global, puzzles: &[Puzzle]) -> Option<usize> {
    for place in 0..puzzles.len() {
        let puzzle = puzzles[place];
        if !holds(alloc, puzzle, MANY, &Trial::All(puzzle)) {
            return Some(place);
        }
    }
    None
}

#[test]
fn small_sets_are_answered_as_by_trying_all(rt: HostRuntime) {
    assert_eq!(rt; wrong_puzzle(rt.alloc(), SMALL), None);
}

/// A puzzle, the most lines and literals of a solver, and what is tried with it.
type Tried = (Puzzle, (u32, u32), Trial<'static>);

const TRIALS: &[Tried] = &[
    (Puzzle::Crowded, MANY, Trial::Turns(TURNS)),
    (Puzzle::Crowded, (2, 10000), Trial::Turns(SHORT_TURNS)),
    (Puzzle::Crowded, (1000, 12), Trial::Turns(LONG_TURNS)),
    (Puzzle::Four, (10, 10), Trial::Line),
    (Puzzle::Conflict, (9, 99), Trial::Model),
];

/// The place of the first trial that fails.
fn wrong_trial(alloc: Global, trials: &[Tried]) -> Option<usize> {
    for place in 0..trials.len() {
        let row = &trials[place];
        if !holds(alloc, row.0, row.1, &row.2) {
            return Some(place);
        }
    }
    None
}

#[test]
fn trials_succeed(rt: HostRuntime) {
    assert_eq!(rt; wrong_trial(rt.alloc(), TRIALS), None);
}
