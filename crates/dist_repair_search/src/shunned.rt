//! What installations of a repair leave out where they can.
ghost use Rattle.std.specs.Prelude.{◌<◌, length};
ghost use Rattle.dist_space.specs.Space.{IsMeaning};

use dist_classes::{Class, Classes};
use dist_lanes::Row;
use dist_quick::Shunning;
use dist_space::{Meaning, Space};
use std::alloc::{AllocError, Global};

/// Whether no atom names a version of the class.
fn is_invented(classes: &Classes, class: u32) -> bool
    requires { class < length classes.now }
{
    !matches!(classes.get(class as usize), Class::Point(_))
}

/// Whether it is of a version that no atom names.
fn is_of_invented(space: &Space, meaning: &Meaning) -> bool
    requires { IsMeaning space.now meaning.now }
{
    space.keeps_invariant();
    match meaning {
        Meaning::Now | Meaning::Present(_) => false,
        Meaning::At(cluster, class) => is_invented(space.classes(*cluster), *class),
        Meaning::New(member, class) | Meaning::Kept(member, class, _) => {
            is_invented(space.classes(space.cluster_of(*member)), *class)
        }
        Meaning::Fresh(name, class) => is_invented(space.name_classes(*name), *class),
    }
}

/// What is new is left out: where one of several has to be taken, a version that no atom names is the last.
pub(crate) fn shunning(alloc: Global, space: &Space) -> Result<Shunning, AllocError> {
    let count = space.variables() as usize;
    let mut left_out = Row::new(alloc, count)?;
    let mut last = Row::new(alloc, count)?;
    for place in 0..count {
        let meaning = space.meaning(place as u32 + 1);
        let is_new = !matches!(meaning, Meaning::Now | Meaning::Present(_));
        left_out.set(place, is_new);
        last.set(place, is_of_invented(space, &meaning));
    }
    Ok(Shunning { left_out, last })
}
