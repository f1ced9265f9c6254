//! What lies far from a question's assumptions, kept for the next question that leads there.

ghost use Rattle.std.specs.Prelude.{◌≡◌, ◌≤◌, true, false, All, Contains, IfOk, List};
ghost use Rattle.dist_clause.specs.Formula.{Literal};
ghost use Rattle.dist_derive.specs.FarPrivate.{IsFar};

use crate::variable_set::VariableSet;
use std::alloc::{AllocError, Global};
use std::marker::Model;
use std::mem;

/// Variables, the starts, and some of what they reach through the input clauses.
#[derive(Drop)]
pub(crate) struct Far {
    /// Else nothing is known of the rest.
    pub(crate) is_made: bool,
    starts: Vec<u32>,
    pub(crate) set: VariableSet,
    /// So many members of the set were taken with the clauses in which they stand negated.
    pub(crate) taken: usize,
}

impl Model for Far {
    ghost use Rattle.dist_derive.specs.FarPrivate.{FarView};

    ghost Value = { FarView };

    ghost view = { λ a. record { is_made = a.is_made; starts = a.starts.items; set = a.set } };
}

impl Far {
    /// None. It takes no memory.
    pub(crate) fn empty(alloc: Global) -> Far
        ensures { result.is_made ≡ false }
    {
        Far {
            is_made: false,
            starts: Vec::new(alloc),
            set: VariableSet::empty(alloc),
            taken: 0,
        }
    }

    /// The one without starts.
    pub(crate) fn make(alloc: Global, variables: u32) -> Result<Far, AllocError>
        ensures far { IfOk result (λ far. (clauses : List (List Literal)) → IsFar clauses variables far) }
        ensures made { IfOk result (λ far. far.is_made ≡ true) }
    {
        let set = VariableSet::new(alloc, variables)?;
        Ok(Far {
            is_made: true,
            starts: Vec::new(alloc),
            set,
            taken: 0,
        })
    }

    /// Takes it out. None stays.
    pub(crate) fn take(&mut self, alloc: Global) -> Far
        ensures result { result ≡ self.old }
        ensures none { self.new.is_made ≡ false }
    {
        mem::replace(self, Far::empty(alloc))
    }

    /// Puts another one in its place.
    pub(crate) fn put(&mut self, other: Far)
        ensures { self.new ≡ other }
    {
        drop(mem::replace(self, other));
    }

    /// Leaves those of the starts that another set has, and what they reach. Where a start goes, it is found again.
    pub(crate) fn narrow(&mut self, alloc: Global, cone: &VariableSet)
        requires same_variables { self.old.set.variables ≡ cone.now.variables }
        requires in_range { All (λ v. (1 ≤ v) × (v ≤ cone.now.variables)) self.old.starts }
        ensures far { (clauses : List (List Literal)) → IsFar clauses cone.now.variables self.old → IsFar clauses cone.now.variables self.new }
        ensures within { All (Contains cone.now.members) self.new.starts }
        ensures made { self.new.is_made ≡ self.old.is_made }
    {
        if cone.has_each(&self.starts) {
            return;
        }
        let starts = mem::replace(&mut self.starts, Vec::new(alloc));
        self.begin(cone, &starts);
        drop(starts);
    }

    /// Begins at those of some variables that another set has. After want of memory it has no starts.
    pub(crate) fn begin(&mut self, cone: &VariableSet, variables: &[u32])
        requires same_variables { self.old.set.variables ≡ cone.now.variables }
        requires in_range { All (λ v. (1 ≤ v) × (v ≤ cone.now.variables)) variables.now }
        ensures far { (clauses : List (List Literal)) → IsFar clauses cone.now.variables self.new }
        ensures within { All (Contains cone.now.members) self.new.starts }
        ensures made { self.new.is_made ≡ self.old.is_made }
    {
        self.starts.clear();
        cone.find_common(variables, &mut self.starts);
        self.taken = 0;
        self.set.clear();
        self.set.include_each(&self.starts);
    }
}
