//! Classes in a row, between cuts, and the class of a version.
ghost use Rattle.std.specs.Prelude.{◌≡◌, ◌++◌, ◌∷◌, ◌↔◌, ◌<◌, ◌⊎◌, [], ℕ, List, IfOk, OnOk, IsTrue, IsSome, None, Some, length, slice_get};
ghost use Rattle.dist_version.specs.Order.{IsBelow};
ghost use Rattle.dist_classes.specs.ClassList.{HasVersions, IsOfClass, IsOfClassAt, classes_above, classes_of_all, AreClassesAbove, AreClassesOfAll};
ghost use Rattle.dist_classes.specs.Cuts.{Rises, RisesFrom};
ghost use Rattle.dist_classes.specs.SortedPrivate.{cuts_after, cuts_of};

use crate::class_value::Class;
use crate::keys::TextKey;
use dist_version::Version;
use std::alloc::{AllocError, Global};
use std::marker::Model;

/// The classes of the versions above a top, or of all versions, in order. Their numbers start at 0.
#[derive(Debug, Drop)]
pub struct Classes {
    classes: Vec<Class>,
}

impl Model for Classes {
    ghost use Rattle.std.specs.Prelude.{List};
    ghost use Rattle.dist_classes.specs.Answers.{IsClassList};
    ghost use Rattle.dist_classes.specs.declared.class_value.Class.{Class};

    ghost Value = { List Class };

    ghost view = { λ c. c.classes.items };

    ghost invariant = { λ c. IsClassList c.classes.items };
}

impl Classes {
    /// Keeps classes between cuts. More than 4,294,967,295 are want of memory.
    fn keep(classes: Vec<Class>) -> Result<Classes, AllocError>
        requires { AreClassesAbove classes.items ⊎ AreClassesOfAll classes.items }
        ensures { IfOk result (λ kept. kept ≡ classes.items) }
    {
        if classes.len() > u32::MAX as usize {
            drop(classes);
            return Err(AllocError);
        }
        Ok(Classes { classes })
    }

    /// How many classes there are.
    pub fn len(&self) -> usize
        ensures { result ≡ length self.now }
    {
        self.classes.len()
    }

    /// The class of a number.
    pub fn get(&self, place: usize) -> &Class
        requires { place < length self.now }
        ensures value { slice_get self.now place ≡ Some result.now }
        ensures some { HasVersions result.now }
    {
        &self.classes[place]
    }
}

/// Whether a class has a version.
fn has(class: &Class, version: &Version) -> bool
    ensures { IsTrue result ↔ IsOfClass class.now version.now }
{
    match class {
        Class::Point(point) => version.compare(point).is_eq(),
        Class::Between(low, high) => low.compare(version).is_lt() && version.compare(high).is_lt(),
        Class::Above(low) => low.compare(version).is_lt(),
        Class::Below(high) => version.compare(high).is_lt(),
        Class::Any => true,
    }
}

/// The number of the one class that has a version, if one has.
pub fn class_of(classes: &Classes, version: &Version) -> Option<u32>
    ensures one { (number : ℕ) → (result ≡ Some number) ↔ IsOfClassAt classes.now number version.now }

    // Of the classes above a top none has it exactly where it is not above the top. Of all classes one has it.
    ensures above { (top : List ℕ) (cuts : List (List ℕ)) → RisesFrom top cuts → classes.now ≡ classes_above top cuts → (result ≡ None) ↔ (¬ IsBelow top version.now) }
    ensures all { (cuts : List (List ℕ)) → Rises cuts → classes.now ≡ classes_of_all cuts → IsSome result }
{
    for number in 0..classes.classes.len() {
        if has(&classes.classes[number], version) {
            return Some(number as u32);
        }
    }
    None
}

/// The class between two versions.
fn between(low: &Version, high: &Version) -> Result<Class, AllocError>
    ensures { IfOk result (λ class. class ≡ Class.Between low.now high.now) }
{
    let low = low.try_clone()?;
    match high.try_clone() {
        Ok(high) => Ok(Class::Between(low, high)),
        Err(error) => {
            drop(low);
            Err(error)
        }
    }
}

/// Adds the class below a cut and above what is below it, and that of the cut.
fn push_cut(classes: &mut Vec<Class>, low: &Version, cut: &Version) -> Result<(), AllocError>
    ensures { OnOk result (classes.new.items
        ≡ classes.old.items ++ (Class.Between low.now cut.now ∷ Class.Point cut.now ∷ [])) }
{
    classes.push(between(low, cut)?)?;
    classes.push(Class::Point(cut.try_clone()?))?;
    Ok(())
}

/// Adds the classes above a version. The cuts are those versions that are above the one before.
fn push_above(classes: &mut Vec<Class>, low: &Version, sorted: &[TextKey]) -> Result<(), AllocError>
    ensures { OnOk result (classes.new.items ≡ classes.old.items ++ classes_above low.now (cuts_after low.now sorted.now)) }
{
    let mut last = low;
    let mut rest = sorted;
    while let [first, others @ ..] = rest {
        let cut = first.version();
        if cut.compare(last).is_gt() {
            push_cut(classes, last, cut)?;
            last = cut;
        }
        rest = others;
    }
    classes.push(Class::Above(last.try_clone()?))?;
    Ok(())
}

/// The classes above a top, where versions in order are given.
pub(crate) fn classes_above(
    alloc: Global,
    top: &Version,
    sorted: &[TextKey],
) -> Result<Classes, AllocError>
    ensures { IfOk result (λ classes. classes ≡ classes_above top.now (cuts_after top.now sorted.now)) }
{
    let mut classes = Vec::new(alloc);
    match push_above(&mut classes, top, sorted) {
        Ok(()) => Classes::keep(classes),
        Err(error) => {
            drop(classes);
            Err(error)
        }
    }
}

/// Adds the classes of all versions. The cuts are the first version and those that are above the one before.
fn push_all(classes: &mut Vec<Class>, sorted: &[TextKey]) -> Result<(), AllocError>
    ensures { OnOk result (classes.new.items ≡ classes.old.items ++ classes_of_all (cuts_of sorted.now)) }
{
    match sorted {
        [first, others @ ..] => {
            let cut = first.version();
            classes.push(Class::Below(cut.try_clone()?))?;
            classes.push(Class::Point(cut.try_clone()?))?;
            push_above(classes, cut, others)
        }
        [] => Ok(classes.push(Class::Any)?),
    }
}

/// The classes of all versions, where versions in order are given.
pub(crate) fn classes_of_all(alloc: Global, sorted: &[TextKey]) -> Result<Classes, AllocError>
    ensures { IfOk result (λ classes. classes ≡ classes_of_all (cuts_of sorted.now)) }
{
    let mut classes = Vec::new(alloc);
    match push_all(&mut classes, sorted) {
        Ok(()) => Classes::keep(classes),
        Err(error) => {
            drop(classes);
            Err(error)
        }
    }
}
