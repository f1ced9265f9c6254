//! A text that names one package, `NAME=VERSION`.
ghost use Rattle.std.specs.Prelude.{◌≡◌, ◌↔◌, ℕ, Some, IfOk};
ghost use Rattle.dist_list.specs.NamedPackage.{IsNamed};

use crate::list::package_of;
use dist_repo::Repository;
use memchr::memchr;
use std::alloc::{AllocError, Global};

/// The package that a text names, if it names one.
pub fn package_named(
    alloc: Global,
    repository: &Repository,
    text: &[u8],
) -> Result<Option<u32>, AllocError>
    ensures { IfOk result (λ found. (number : ℕ) → (found ≡ Some number) ↔ IsNamed repository.now.packages text.now number) }
{
    match memchr(b'=', text) {
        Some(at) => package_of(alloc, repository, &text[..at], &text[at + 1..]),
        None => Ok(None),
    }
}
