//! An example of a class: a version of it. It is made where it is printed; to compare it takes no memory.
ghost use Rattle.std.specs.Prelude.{◌≡◌, ◌↔◌, IfOk, IsTrue};
ghost use Rattle.dist_version.specs.Order.{version_cmp};
ghost use Rattle.dist_relation.specs.Satisfies.{Satisfies};
ghost use Rattle.dist_classes.specs.ClassList.{HasExample, HasVersions, IsOfClass, example_text};

use crate::class_value::Class;
use dist_relation::Bound;
use dist_version::{Version, versions_are_dense};
use std::alloc::{AllocError, Global};
use std::cmp::Ordering;
use std::marker::Model;

/// The example of a class, seen as its text.
#[derive(Debug, Drop)]
pub struct ClassExample<'a> {
    class: &'a Class,
}

impl<'a> Model for ClassExample<'a> {
    ghost use Rattle.std.specs.Prelude.{ℕ, List};
    ghost use Rattle.dist_classes.specs.ClassList.{example_text};

    ghost Value = { List ℕ };

    ghost view = { λ e. example_text e.class.now };
}

impl<'a> ClassExample<'a> {
    /// The example of a class.
    pub fn of(class: &'a Class) -> ClassExample<'a>
        ensures { result ≡ example_text class.now }
    {
        ClassExample { class }
    }

    /// Compares the example with a version.
    pub fn compare(&self, version: &Version) -> Ordering
        ensures { result ≡ version_cmp self.now version.now }
    {
        match self.class {
            Class::Point(point) => point.compare(version),
            Class::Between(low, high) => low.compare_after(high.text().len(), version),
            Class::Above(low) => low.compare_after(0, version),
            Class::Below(high) => high.compare_below(version),
            Class::Any => Version::compare_zero(version),
        }
    }

    /// Whether the example meets a bound.
    pub fn satisfies(&self, bound: &Bound) -> bool
        ensures { IsTrue result ↔ Satisfies self.now bound.now }
    {
        bound.op.allows(self.compare(&bound.version))
    }

    /// Makes the example.
    pub fn make(&self, alloc: Global) -> Result<Version, AllocError>
        ensures { IfOk result (λ version. version ≡ self.now) }
    {
        match self.class {
            Class::Point(point) => Ok(point.try_clone()?),
            Class::Between(low, high) => Ok(low.after(high.text().len())?),
            Class::Above(low) => Ok(low.after(0)?),
            Class::Below(high) => Ok(high.below()?),
            Class::Any => Ok(zero(alloc)?),
        }
    }
}

/// The version 0.
fn zero(alloc: Global) -> Result<Version, AllocError>
    ensures { IfOk result (λ version. version ≡ example_text Class.Any) }
{
    match Version::read(alloc, b"0") {
        Ok(version) => Ok(version),
        Err(_) => Err(AllocError),
    }
}

/// That a class has a version, also where no memory is left to make it: the law `no_class_is_empty` for a class at hand.
pub fn class_has_example(class: &Class)
    requires { HasVersions class.now }
    ensures { HasExample class.now }
{
    versions_are_dense();
    match class {
        Class::Point(version) => version.keeps_invariant(),
        Class::Between(low, _) => low.keeps_invariant(),
        Class::Above(low) => low.keeps_invariant(),
        Class::Below(_) => {}
        Class::Any => {}
    }
}

/// A version of a class. There is none in one between two versions of which the first is not below the second.
pub fn example(alloc: Global, class: &Class) -> Result<Version, AllocError>
    requires { HasVersions class.now }
    ensures text { IfOk result (λ version. version ≡ example_text class.now) }
    ensures inside { IfOk result (λ version. IsOfClass class.now version) }
{
    class_has_example(class);
    ClassExample::of(class).make(alloc)
}
