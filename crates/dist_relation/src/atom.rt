//! Atoms of relations, and entries of Provides.
ghost use Rattle.std.specs.Prelude.{◌≡◌, ◌↔◌, IsTrue};
ghost use Rattle.dist_relation.specs.Satisfies.{AllowsOrder, Satisfies};
ghost use Rattle.dist_relation.specs.EqualityPrivate.{op_eq, qualifier_eq, bound_eq, atom_eq, provide_eq};
ghost use Rattle.dist_relation.specs.Grammar.{allows_operator};
ghost use Rattle.dist_relation.specs.Faults.{allows_bar};

use crate::copying::TryClone;
use crate::name::Name;
use dist_version::Version;
use std::alloc::AllocError;
use std::cmp::Ordering;

/// How a version is compared with a bound: `<<`, `<=`, `=`, `>=`, `>>`.
#[derive(Clone, Copy, Debug)]
pub enum Op {
    Lt,
    Le,
    Eq,
    Ge,
    Gt,
}

/// The versions that an atom allows.
#[derive(Debug, Drop)]
pub struct Bound {
    pub op: Op,
    pub version: Version,
}

/// What stands behind a name and a colon, as `any` or an architecture.
#[derive(Debug, Drop)]
pub enum Qualifier {
    Plain,
    Named(Name),
}

/// One alternative of a dependency, or one conflict.
#[derive(Debug, Drop)]
pub struct Atom {
    pub name: Name,
    pub qualifier: Qualifier,
    pub bound: Option<Bound>,
}

/// One entry of a Provides field: a name that a package provides, perhaps at a version.
#[derive(Debug, Drop)]
pub struct Provide {
    pub name: Name,
    pub qualifier: Qualifier,
    pub version: Option<Version>,
}

/// What kind of value is read. Alternatives stand in dependencies alone, and Provides compares with `=` alone.
#[derive(Clone, Copy, Debug, PartialEq, Eq)]
pub(crate) enum Kind {
    Depends,
    Conflicts,
    Provides,
}

impl Kind {
    /// Whether values of this kind have the operator.
    pub(crate) fn allows(self, op: Op) -> bool
        ensures { result ≡ allows_operator self op }
    {
        match self {
            Kind::Depends | Kind::Conflicts => true,
            Kind::Provides => matches!(op, Op::Eq),
        }
    }

    /// Whether values of this kind have alternatives.
    pub(crate) fn allows_bar(self) -> bool
        ensures { result ≡ allows_bar self }
    {
        matches!(self, Kind::Depends)
    }
}

impl Op {
    /// Whether a version may compare so with that of a bound.
    pub fn allows(self, order: Ordering) -> bool
        ensures { IsTrue result ↔ AllowsOrder self order }
    {
        match self {
            Op::Lt => order.is_lt(),
            Op::Le => order.is_le(),
            Op::Eq => order.is_eq(),
            Op::Ge => order.is_ge(),
            Op::Gt => order.is_gt(),
        }
    }
}

/// Whether a version meets a bound, in the order of versions.
pub fn satisfies(version: &Version, bound: &Bound) -> bool
    ensures { IsTrue result ↔ Satisfies version.now bound.now }
{
    bound.op.allows(version.compare(&bound.version))
}

impl TryClone for Bound {
    fn try_clone(&self) -> Result<Bound, AllocError> {
        Ok(Bound {
            op: self.op,
            version: self.version.try_clone()?,
        })
    }
}

impl TryClone for Qualifier {
    fn try_clone(&self) -> Result<Qualifier, AllocError> {
        match self {
            Qualifier::Plain => Ok(Qualifier::Plain),
            Qualifier::Named(name) => Ok(Qualifier::Named(name.try_clone()?)),
        }
    }
}

impl TryClone for Atom {
    fn try_clone(&self) -> Result<Atom, AllocError> {
        Ok(Atom {
            name: self.name.try_clone()?,
            qualifier: self.qualifier.try_clone()?,
            bound: self.bound.try_clone()?,
        })
    }
}

impl TryClone for Provide {
    fn try_clone(&self) -> Result<Provide, AllocError> {
        Ok(Provide {
            name: self.name.try_clone()?,
            qualifier: self.qualifier.try_clone()?,
            version: self.version.try_clone()?,
        })
    }
}

impl PartialEq for Op {
    ghost use Rattle.std.specs.Cmp.{partial_equiv_from_equiv};
    ghost use Rattle.dist_relation.specs.EqualityPrivate.{op_eq, equivalence, op_decides};

    ghost eq = { op_eq };

    ghost laws = { partial_equiv_from_equiv (equivalence op_decides) };

    fn eq(&self, other: &Op) -> bool
        ensures value { result ≡ op_eq self.now other.now }
        ensures same { IsTrue result ↔ (self.now ≡ other.now) }
    {
        matches!(
            (*self, *other),
            (Op::Lt, Op::Lt)
                | (Op::Le, Op::Le)
                | (Op::Eq, Op::Eq)
                | (Op::Ge, Op::Ge)
                | (Op::Gt, Op::Gt)
        )
    }
}

impl Eq for Op {
    ghost use Rattle.dist_relation.specs.EqualityPrivate.{equivalence, op_decides};

    ghost laws = { equivalence op_decides };
}

impl PartialEq for Bound {
    ghost use Rattle.std.specs.Cmp.{partial_equiv_from_equiv};
    ghost use Rattle.dist_relation.specs.EqualityPrivate.{bound_eq, equivalence, bound_decides};

    ghost eq = { bound_eq };

    ghost laws = { partial_equiv_from_equiv (equivalence bound_decides) };

    fn eq(&self, other: &Bound) -> bool
        ensures value { result ≡ bound_eq self.now other.now }
        ensures same { IsTrue result ↔ (self.now ≡ other.now) }
    {
        self.op == other.op && self.version == other.version
    }
}

impl Eq for Bound {
    ghost use Rattle.dist_relation.specs.EqualityPrivate.{equivalence, bound_decides};

    ghost laws = { equivalence bound_decides };
}

impl PartialEq for Qualifier {
    ghost use Rattle.std.specs.Cmp.{partial_equiv_from_equiv};
    ghost use Rattle.dist_relation.specs.EqualityPrivate.{qualifier_eq, equivalence, qualifier_decides};

    ghost eq = { qualifier_eq };

    ghost laws = { partial_equiv_from_equiv (equivalence qualifier_decides) };

    fn eq(&self, other: &Qualifier) -> bool
        ensures value { result ≡ qualifier_eq self.now other.now }
        ensures same { IsTrue result ↔ (self.now ≡ other.now) }
    {
        match (self, other) {
            (Qualifier::Plain, Qualifier::Plain) => true,
            (Qualifier::Named(name), Qualifier::Named(other)) => name == other,
            _ => false,
        }
    }
}

impl Eq for Qualifier {
    ghost use Rattle.dist_relation.specs.EqualityPrivate.{equivalence, qualifier_decides};

    ghost laws = { equivalence qualifier_decides };
}

impl PartialEq for Atom {
    ghost use Rattle.std.specs.Cmp.{partial_equiv_from_equiv};
    ghost use Rattle.dist_relation.specs.EqualityPrivate.{atom_eq, equivalence, atom_decides};

    ghost eq = { atom_eq };

    ghost laws = { partial_equiv_from_equiv (equivalence atom_decides) };

    fn eq(&self, other: &Atom) -> bool
        ensures value { result ≡ atom_eq self.now other.now }
        ensures same { IsTrue result ↔ (self.now ≡ other.now) }
    {
        self.name == other.name && self.qualifier == other.qualifier && self.bound == other.bound
    }
}

impl Eq for Atom {
    ghost use Rattle.dist_relation.specs.EqualityPrivate.{equivalence, atom_decides};

    ghost laws = { equivalence atom_decides };
}

impl PartialEq for Provide {
    ghost use Rattle.std.specs.Cmp.{partial_equiv_from_equiv};
    ghost use Rattle.dist_relation.specs.EqualityPrivate.{provide_eq, equivalence, provide_decides};

    ghost eq = { provide_eq };

    ghost laws = { partial_equiv_from_equiv (equivalence provide_decides) };

    fn eq(&self, other: &Provide) -> bool
        ensures value { result ≡ provide_eq self.now other.now }
        ensures same { IsTrue result ↔ (self.now ≡ other.now) }
    {
        self.name == other.name
            && self.qualifier == other.qualifier
            && self.version == other.version
    }
}

impl Eq for Provide {
    ghost use Rattle.dist_relation.specs.EqualityPrivate.{equivalence, provide_decides};

    ghost laws = { equivalence provide_decides };
}
