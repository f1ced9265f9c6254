//! Classes, each of which has an example that is a version of it. It is not made here.
ghost use Rattle.std.specs.Prelude.{◌≡◌, ◌<◌, ◌^◌, IfOk, length};
ghost use Rattle.dist_space.specs.Kept.{AreExampled};
ghost use Rattle.dist_space.specs.Space.{example_at};

use dist_classes::{ClassExample, Classes, class_has_example};
use std::alloc::AllocError;
use std::marker::Model;

/// The classes of a cluster or of a new name.
#[derive(Drop)]
pub(crate) struct Exampled {
    classes: Classes,
}

impl Model for Exampled {
    ghost use Rattle.std.specs.Prelude.{List};
    ghost use Rattle.dist_classes.specs.declared.class_value.Class.{Class};
    ghost use Rattle.dist_space.specs.Kept.{AreFewExampled};

    ghost Value = { List Class };

    ghost view = { λ e. e.classes };

    ghost invariant = { λ e. AreFewExampled e.classes };
}

/// That the example of each class is a version of it.
fn have_examples(classes: &Classes)
    ensures { AreExampled classes.now }
{
    for place in 0..classes.len() {
        class_has_example(classes.get(place));
    }
}

impl Exampled {
    /// Keeps classes. More than 4,294,967,295 are want of memory.
    pub(crate) fn new(classes: Classes) -> Result<Exampled, AllocError>
        ensures value { IfOk result (λ e. e ≡ classes) }
        ensures each { IfOk result AreExampled }
    {
        if classes.len() > u32::MAX as usize {
            drop(classes);
            return Err(AllocError);
        }
        have_examples(&classes);
        Ok(Exampled { classes })
    }

    /// The classes alone.
    pub(crate) fn classes(&self) -> &Classes
        ensures { result.now ≡ self.now }
    {
        &self.classes
    }

    /// How many classes there are.
    pub(crate) fn len(&self) -> u32
        ensures value { result ≡ length self.now }
        ensures each { AreExampled self.now }
    {
        self.classes.len() as u32
    }

    /// The example of the class of a number.
    pub(crate) fn example(&self, class: u32) -> ClassExample<'_>
        requires { class < length self.now }
        ensures { result ≡ example_at self.now class }
    {
        ClassExample::of(self.classes.get(class as usize))
    }
}
