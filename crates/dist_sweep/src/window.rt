//! The latest installations, by their numbers.
ghost use Rattle.std.specs.Prelude.{◌≡◌, ◌+◌, ◌^◌, ◌<◌, ◌≤◌, ◌↔◌, [], ◌∷◌, ◌++◌, All, IfOk, IsTrue, List, Bool, OnOk, ℕ, false, length, slice_index_or, true};
ghost use Rattle.circular_buffer.specs.Buffer.{keep_last};
ghost use Rattle.dist_clause.specs.Formula.{value_of};
ghost use Rattle.dist_sweep.specs.Window.{HasEach, WindowView, added, kept_at, numbers_of};

use crate::bits::and_into;
use circular_buffer::HeapCircularBuffer;
use dist_cert::REACH;
use dist_clause::Assignment;
use std::alloc::{AllocError, Global};
use std::marker::Model;

/// The latest installations, as many as a claim may reach back. They are numbered from 1.
#[derive(Drop)]
pub struct Window {
    kept: HeapCircularBuffer<Assignment>,
    /// How many installations there were.
    count: u32,
    variables: u32,
}

impl Model for Window {
    ghost use Rattle.std.specs.Prelude.{◌≡◌, ◌≤◌, All, length};
    ghost use Rattle.dist_cert.specs.declared.TheConstants.{REACH};
    ghost use Rattle.dist_sweep.specs.Window.{WindowView};

    ghost Value = { WindowView };

    ghost view = { λ w. record { kept = w.kept.items; count = w.count; variables = w.variables } };

    ghost invariant = { λ w. (w.kept.capacity ≡ REACH) × (length w.kept.items ≤ w.count) × All (λ v. length v ≡ w.variables) w.kept.items };
}

impl Window {
    /// No installations.
    pub fn new(alloc: Global, variables: u32) -> Result<Window, AllocError>
        ensures { IfOk result (λ w. w ≡ record { kept = []; count = 0; variables = variables }) }
    {
        Ok(Window {
            kept: HeapCircularBuffer::with_capacity(alloc, REACH)?,
            count: 0,
            variables,
        })
    }

    /// How many variables there are.
    pub fn variables(&self) -> u32
        ensures { result ≡ self.now.variables }
    {
        self.variables
    }

    /// How many installations there were. The latest one has this number.
    pub fn count(&self) -> u32
        ensures { result ≡ self.now.count }
    {
        self.count
    }

    /// How many of the installations are kept.
    pub fn len(&self) -> u32
        ensures value { result ≡ length self.now.kept }
        ensures within { length self.now.kept ≤ self.now.count }
    {
        self.kept.len() as u32
    }

    /// No more installations are kept than there were, which 32 bits can number. Does nothing.
    pub fn keeps_invariant(&self)
        ensures within { length self.now.kept ≤ self.now.count }
        ensures few { self.now.count < 2 ^ 32 }
    {
        self.count();
        self.len();
    }

    /// Whether the installation of a number, which is kept, has a variable.
    pub fn has(&self, number: u32, variable: u32) -> bool
        requires low { self.now.count < number + length self.now.kept }
        requires high { number ≤ self.now.count }
        requires from_one { 1 ≤ variable }
        requires upto { variable ≤ self.now.variables }
        ensures { result ≡ value_of (kept_at self.now number) variable }
    {
        let first = self.count - self.kept.len() as u32 + 1;
        self.has_at((number - first) as usize, variable)
    }

    /// Adds an installation as the latest one. More than 4,294,967,295 installations in all are want of memory too.
    pub fn add(&mut self, values: Assignment) -> Result<(), AllocError>
        requires { length values ≡ self.old.variables }
        ensures { OnOk result (self.new ≡ record self.old { kept = keep_last REACH (self.old.kept ++ values ∷ []); count = self.old.count + 1 }) }
    {
        if self.count == u32::MAX {
            return Err(AllocError);
        }
        self.kept.push_back(values);
        self.count += 1;
        Ok(())
    }

    /// Whether each installation with the first variable has the second one.
    pub fn each_has(&self, variable: u32, other: u32) -> bool
        requires from_one { 1 ≤ variable }
        requires upto { variable ≤ self.now.variables }
        requires other_from_one { 1 ≤ other }
        requires other_upto { other ≤ self.now.variables }
        ensures { IsTrue result ↔ All (λ v. value_of v variable ≡ true → value_of v other ≡ true) self.now.kept }
    {
        for place in 0..self.kept.len() {
            if let Some(values) = self.kept.get(place) {
                if values.value(variable) && !values.value(other) {
                    return false;
                }
            }
        }
        true
    }

    /// Leaves true what is true in each installation with a variable, too.
    pub fn narrow(&self, variable: u32, common: &mut Assignment)
        requires from_one { 1 ≤ variable }
        requires upto { variable ≤ self.now.variables }
        requires size { length common.old ≡ self.now.variables }
        ensures size { length common.new ≡ self.now.variables }
        ensures each { (q : ℕ) → 1 ≤ q → q ≤ self.now.variables
            → (value_of common.new q ≡ true) ↔ ((value_of common.old q ≡ true) × HasEach self.now variable q) }
    {
        for place in 0..self.kept.len() {
            if let Some(values) = self.kept.get(place) {
                if values.value(variable) {
                    and_into(common, values, self.variables);
                }
            }
        }
    }

    /// Whether an installation with a variable is given up for the next one that is added.
    pub fn gives_up(&self, variable: u32) -> bool
        requires from_one { 1 ≤ variable }
        requires upto { variable ≤ self.now.variables }
        ensures { result ≡ false → (values : List Bool) (other : ℕ) → HasEach (added self.now values) variable other → HasEach self.now variable other }
    {
        self.kept.len() >= REACH && self.has_at(0, variable)
    }

    /// The numbers of the installations with a variable, rising.
    pub fn numbers_with(&self, alloc: Global, variable: u32) -> Result<Vec<u32>, AllocError>
        requires from_one { 1 ≤ variable }
        requires upto { variable ≤ self.now.variables }
        ensures numbers { IfOk result (λ numbers. numbers.items ≡ numbers_of self.now variable) }
        ensures small { self.now.count < 2 ^ 32 }
    {
        let mut numbers = Vec::new(alloc);
        let first = self.count - self.kept.len() as u32;
        for place in 0..self.kept.len() {
            if self.has_at(place, variable) {
                numbers.push(first + place as u32 + 1)?;
            }
        }
        Ok(numbers)
    }

    /// Whether the installation at a place, from 0, has a variable.
    fn has_at(&self, place: usize, variable: u32) -> bool
        requires place { place < length self.now.kept }
        requires from_one { 1 ≤ variable }
        requires upto { variable ≤ self.now.variables }
        ensures { result ≡ value_of (slice_index_or self.now.kept place []) variable }
    {
        match self.kept.get(place) {
            Some(values) => values.value(variable),
            None => false,
        }
    }
}
