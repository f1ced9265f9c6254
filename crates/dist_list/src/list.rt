//! LIST: the set of packages that its lines name.
ghost use Rattle.std.specs.Prelude.{◌≡◌, ◌↔◌, ℕ, Some, length, IfOk};
ghost use Rattle.dist_base.specs.Answers.{Answers};
ghost use Rattle.dist_list.specs.PackageSet.{IsBadList, NamesSet};
ghost use Rattle.dist_list.specs.ListedPrivate.{IsShape, IsLine, Marks};
ghost use Rattle.dist_version.specs.Spelling.{IsVersion};
ghost use Rattle.dist_repo.specs.Providers.{IsPackageAt};

use crate::line_parts::split_part;
use dist_clause::Assignment;
use dist_control::split_line;
use dist_repo::Repository;
use dist_version::{Version, VersionError, texts_are_exact};
use std::alloc::{AllocError, Global};

/// Why a LIST names no set.
#[derive(Clone, Copy, Debug, PartialEq, Eq)]
pub enum ListError {
    /// The first line, from 1, that is not blank and names no package.
    Bad(u64),
    NoMemory,
}

impl From<AllocError> for ListError {
    ghost use Rattle.std.specs.Prelude.{◌≡◌};
    ghost use Rattle.dist_list.specs.declared.list.ListError.TheVariants.{NoMemory};

    ghost from_gives = { λ _ e. e ≡ NoMemory };

    fn from(_: AllocError) -> ListError {
        ListError::NoMemory
    }
}

/// What a line of LIST is.
#[derive(Clone, Copy, Debug, PartialEq, Eq)]
enum Line {
    Blank,
    Package(u32),
    Bad,
}

/// The words of a line, by their number.
#[derive(Clone, Copy)]
enum Shape<'a> {
    None,
    Two(&'a [u8], &'a [u8]),
    Other,
}

/// How many words a line has.
fn shape_of(line: &[u8]) -> Shape<'_>
    ensures { IsShape line.now result }
{
    let (name, rest) = split_part(line);
    let (version, rest) = split_part(rest);
    let (more, _) = split_part(rest);
    if name.is_empty() {
        Shape::None
    } else if version.is_empty() || !more.is_empty() {
        Shape::Other
    } else {
        Shape::Two(name, version)
    }
}

/// The package of a name and of a version that a text spells.
pub(crate) fn package_of(
    alloc: Global,
    repository: &Repository,
    name: &[u8],
    version: &[u8],
) -> Result<Option<u32>, AllocError>
    ensures { IfOk result (λ found. (number : ℕ) → (found ≡ Some number) ↔ (IsVersion version.now × IsPackageAt repository.now.packages number name.now version.now)) }
{
    texts_are_exact();
    match Version::read(alloc, version) {
        Ok(version) => Ok(repository.find(name, &version)),
        Err(VersionError::NoMemory) => Err(AllocError),
        // A text that is no version is that of no package.
        Err(_) => Ok(None),
    }
}

/// What a line is: blank, or a package's name and version, or bad.
fn read_line(alloc: Global, repository: &Repository, line: &[u8]) -> Result<Line, AllocError>
    ensures { IfOk result (IsLine repository.now.packages line.now) }
{
    match shape_of(line) {
        Shape::None => Ok(Line::Blank),
        Shape::Other => Ok(Line::Bad),
        Shape::Two(name, version) => match package_of(alloc, repository, name, version) {
            Ok(Some(number)) => Ok(Line::Package(number)),
            Ok(None) => Ok(Line::Bad),
            Err(error) => Err(error),
        },
    }
}

/// Marks the package that a line names, if it names one, and says whether the line may stand in a list.
fn mark_line(
    alloc: Global,
    repository: &Repository,
    line: &[u8],
    members: &mut Assignment,
) -> Result<bool, AllocError>
    requires { length members.old ≡ length repository.now.packages }
    ensures { IfOk result (Marks repository.now.packages line.now members.old members.new) }
{
    match read_line(alloc, repository, line)? {
        Line::Blank => Ok(true),
        Line::Package(number) => {
            // A number of a package is below their number, which fits.
            repository.keeps_invariant();
            members.set(number + 1, true);
            Ok(true)
        }
        Line::Bad => Ok(false),
    }
}

/// The set of packages that the lines of a text name: one truth value per package.
pub fn read_list(
    alloc: Global,
    repository: &Repository,
    bytes: &[u8],
) -> Result<Assignment, ListError>
    ensures { Answers (NamesSet repository.now.packages bytes.now) (IsBadList repository.now.packages bytes.now) ListError.NoMemory result }
{
    let mut members = Assignment::new(alloc, repository.len())?;
    let mut rest = bytes;
    let mut number = 1;
    while !rest.is_empty() {
        let (line, after) = split_line(rest);
        if !mark_line(alloc, repository, line, &mut members)? {
            return Err(ListError::Bad(number));
        }
        rest = after;
        number += 1;
    }
    Ok(members)
}
