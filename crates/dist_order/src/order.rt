//! The order in which variables are decided, in episodes of two kinds by turns. In the one the highest variable goes first and
//! is false, so that lessons build on one another: n pigeons in n - 1 holes take (n - 3) 2^(n - 2) + 1 of them. In the other
//! the variables of the latest conflicts go first, with the values that they had last, which serves clauses without such an
//! order.

use dist_base::MAX_VARIABLES;
use dist_clause::Lit;
use std::alloc::{AllocError, Global};

/// What a conflict adds to the activity of its variables at first. It grows by a sixteenth at each conflict.
const FIRST_INCREMENT: u64 = 1 << 16;

/// Activities above this are scaled down.
const MOST: u64 = 1 << 60;

/// By how many bits.
const SCALE: u32 = 32;

/// A number above the levels of a heap.
const LEVELS: u32 = 64;

/// Activities, and a heap of the variables: the most active one on top, among equals the highest one.
#[derive(Debug, Drop)]
pub struct Order {
    /// Whether all are taken for equally active.
    steady: bool,
    /// By variables.
    activities: Vec<u64>,
    /// The value that each variable had last.
    phases: Vec<bool>,
    heap: Vec<u32>,
    /// The place of each variable in the heap, and one more; 0 if it is not there.
    places: Vec<usize>,
    increment: u64,
}

impl Order {
    /// No variables, and room for none.
    pub fn new(alloc: Global) -> Order {
        Order {
            steady: true,
            activities: Vec::new(alloc),
            phases: Vec::new(alloc),
            heap: Vec::new(alloc),
            places: Vec::new(alloc),
            increment: FIRST_INCREMENT,
        }
    }

    /// Makes room for so many variables.
    pub fn make_room(&mut self, variables: u32) -> Result<(), AllocError> {
        let count = variables as usize + 1;
        self.activities.resize(count, 0)?;
        self.phases.resize(count, false)?;
        self.places.resize(count, 0)?;
        self.heap.reserve(count)
    }

    /// Begins with these variables, and with no other ones. It costs both these and those that were in.
    pub fn begin_all(&mut self, variables: &[u32]) {
        self.steady = true;
        self.increment = FIRST_INCREMENT;
        self.take_out();
        for variable in variables {
            self.begin(*variable);
        }
    }

    /// Takes all variables out.
    fn take_out(&mut self) {
        for _ in 0..self.heap.len() {
            if let Some(variable) = self.heap.pop() {
                self.set_place(variable, 0);
            }
        }
    }

    /// Goes on in the other way. The variables are those of the order.
    pub fn turn(&mut self, variables: &[u32]) {
        self.steady = !self.steady;
        self.take_out();
        for variable in variables {
            self.insert(*variable);
        }
    }

    /// Puts a variable in, as one that had no conflict yet and was false.
    fn begin(&mut self, variable: u32) {
        if let Some(activity) = self.activities.get_mut(variable as usize) {
            *activity = 0;
        }
        self.keep_phase(variable, false);
        self.insert(variable);
    }

    /// Puts a variable in, if it is not in, with the value that it loses.
    pub fn give_back(&mut self, literal: Lit) {
        if !self.steady {
            self.keep_phase(literal.variable(), literal.positive());
        }
        self.insert(literal.variable());
    }

    /// Takes the variable on top out, with the value that it is to have.
    pub fn pop(&mut self) -> Option<Lit> {
        let top = self.heap.first().copied()?;
        let last = self.heap.pop()?;
        self.set_place(top, 0);
        if last != top {
            self.set(0, last);
            self.sink(0);
        }
        let phase = self.phases.get(top as usize).copied().unwrap_or(false);
        literal_of(top, phase && !self.steady)
    }

    /// Makes a variable more active.
    pub fn bump(&mut self, variable: u32) {
        let Some(activity) = self.activities.get_mut(variable as usize) else {
            return;
        };
        *activity = activity.saturating_add(self.increment);
        if self.steady {
            return;
        }
        let place = self.places.get(variable as usize).copied().unwrap_or(0);
        if place > 0 {
            self.rise(place - 1);
        }
    }

    /// Makes what later conflicts add larger. The variables are those of the order.
    pub fn grow(&mut self, variables: &[u32]) {
        self.increment = self.increment.saturating_add(self.increment / 16);
        if self.increment > MOST {
            self.scale(variables);
        }
    }

    /// Makes all activities smaller.
    fn scale(&mut self, variables: &[u32]) {
        self.increment >>= SCALE;
        for variable in variables {
            if let Some(activity) = self.activities.get_mut(*variable as usize) {
                *activity >>= SCALE;
            }
        }
    }

    fn keep_phase(&mut self, variable: u32, phase: bool) {
        if let Some(old) = self.phases.get_mut(variable as usize) {
            *old = phase;
        }
    }

    /// Puts a variable in, if it is not in.
    fn insert(&mut self, variable: u32) {
        if self.places.get(variable as usize).copied() != Some(0) {
            return;
        }
        let place = self.heap.len();
        // There is room for all variables, so this takes no memory.
        if self.heap.push(variable).is_ok() {
            self.set_place(variable, place.saturating_add(1));
            self.rise(place);
        }
    }

    /// Moves the variable at a place up, past those that are less active.
    fn rise(&mut self, place: usize) {
        let mut place = place;
        for _ in 0..LEVELS {
            if place == 0 {
                return;
            }
            let above = (place - 1) / 2;
            if !self.is_before(place, above) {
                return;
            }
            self.exchange(place, above);
            place = above;
        }
    }

    /// Moves the variable at a place down, past those that are more active.
    fn sink(&mut self, place: usize) {
        let mut place = place;
        for _ in 0..LEVELS {
            let left = place.saturating_mul(2).saturating_add(1);
            let right = left.saturating_add(1);
            let below = if self.is_before(right, left) {
                right
            } else {
                left
            };
            if !self.is_before(below, place) {
                return;
            }
            self.exchange(place, below);
            place = below;
        }
    }

    /// Whether the variable at the first place goes before the one at the second. What lies behind the heap goes last.
    fn is_before(&self, first: usize, second: usize) -> bool {
        let Some(first) = self.heap.get(first).copied() else {
            return false;
        };
        let Some(second) = self.heap.get(second).copied() else {
            return true;
        };
        if self.steady {
            first > second
        } else {
            (self.activity(first), first) > (self.activity(second), second)
        }
    }

    fn activity(&self, variable: u32) -> u64 {
        self.activities.get(variable as usize).copied().unwrap_or(0)
    }

    /// Exchanges the variables at two places.
    fn exchange(&mut self, first: usize, second: usize) {
        if let (Some(one), Some(other)) = (
            self.heap.get(first).copied(),
            self.heap.get(second).copied(),
        ) {
            self.set(first, other);
            self.set(second, one);
        }
    }

    /// Puts a variable at a place.
    fn set(&mut self, place: usize, variable: u32) {
        if let Some(old) = self.heap.get_mut(place) {
            *old = variable;
        }
        self.set_place(variable, place.saturating_add(1));
    }

    fn set_place(&mut self, variable: u32, place: usize) {
        if let Some(old) = self.places.get_mut(variable as usize) {
            *old = place;
        }
    }
}

/// The literal of a variable, if there is one.
fn literal_of(variable: u32, positive: bool) -> Option<Lit> {
    if variable == 0 || variable > MAX_VARIABLES {
        return None;
    }
    Some(Lit::new(variable, positive))
}
