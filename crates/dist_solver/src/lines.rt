//! The lines that the last question added, each with the hints by which it follows.

ghost use Rattle.std.specs.Prelude.{◌≡◌, ◌-◌, ◌<◌, [], ◌∷◌, ◌++◌, length, take, OnOk, OnErr};
ghost use Rattle.dist_solver.specs.Derived.{line_at};

use dist_base::Flat;
use std::alloc::{AllocError, Global};
use std::marker::Model;

/// A line's number, and the place of its hints.
#[derive(Clone, Copy)]
struct Line {
    number: u32,
    place: usize,
}

/// Derived lines in their order: the number of each and its hints.
#[derive(Drop)]
pub struct Derived {
    lines: Vec<Line>,
    /// The hints of all lines, one list after another. A list that no line has the place of is never read.
    hints: Flat<u32>,
    alloc: Global,
}

impl Model for Derived {
    ghost use Rattle.std.specs.Prelude.{◌<◌, List, length, All};
    ghost use Rattle.dist_solver.specs.Derived.{DerivedLine};

    ghost Value = { List DerivedLine };

    ghost use Rattle.dist_solver.specs.Kept.{lines_kept};

    ghost view = { λ a. lines_kept a.hints a.lines.items };

    ghost invariant = { λ a. All (λ l. l.place < length a.hints) a.lines.items };
}

impl Derived {
    /// No lines.
    pub(crate) fn new(alloc: Global) -> Derived
        ensures { result ≡ [] }
    {
        Derived {
            lines: Vec::new(alloc),
            hints: Flat::new(alloc),
            alloc,
        }
    }

    /// How many lines there are.
    pub fn len(&self) -> usize
        ensures { result ≡ length self.now }
    {
        self.lines.len()
    }

    /// The number in the log of the line at a place, from 0.
    pub fn line(&self, place: usize) -> u32
        requires { place < length self.now }
        ensures { result ≡ (line_at self.now place).line }
    {
        self.lines[place].number
    }

    /// The hints by which the line at a place follows.
    pub fn hints(&self, place: usize) -> &[u32]
        requires { place < length self.now }
        ensures { result.now ≡ (line_at self.now place).hints }
    {
        self.hints.get(self.lines[place].place)
    }

    /// Adds a line as the last one.
    pub(crate) fn push(&mut self, number: u32, hints: &[u32]) -> Result<(), AllocError>
        ensures ok { OnOk result (self.new ≡ self.old ++ record { line = number; hints = hints.now } ∷ []) }
        ensures err { OnErr result (self.new ≡ self.old) }
    {
        let place = self.hints.len();
        self.hints.push(hints)?;
        self.lines.push(Line { number, place })?;
        Ok(())
    }

    /// Takes the last line off.
    pub(crate) fn pop(&mut self)
        ensures { self.new ≡ take (length self.old - 1) self.old }
    {
        let _ = self.lines.pop();
    }

    /// Takes all lines off.
    pub(crate) fn clear(&mut self)
        ensures { self.new ≡ [] }
    {
        self.lines.clear();
        self.hints = Flat::new(self.alloc);
    }
}
