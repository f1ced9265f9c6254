//! The reader of a Packages file: one pass over its stanzas.
ghost use Rattle.std.specs.Prelude.{◌≡◌, ◌⊎◌, ◌<◌, ◌≤◌, length, IfOk};
ghost use Rattle.std.specs.Option.{option_or};
ghost use Rattle.dist_base.specs.Answers.{Answers};
ghost use Rattle.dist_control.specs.RawStanza.{raw_stanzas};
ghost use Rattle.dist_repo.specs.Size.{relation_count};
ghost use Rattle.dist_package.specs.FirstFault.{IsBad, IsLineFault, IsRefused};
ghost use Rattle.dist_package.specs.RepositoryOf.{IsRepositoryOf};
ghost use Rattle.dist_package.specs.StepsPrivate.{Gives, IsFaulty, Adds, IsClashFault};

use crate::error::{Kind, PackagesError};
use crate::fields::bad;
use crate::laws::relations_take_bytes;
use crate::package::{Described, read_package};
use dist_control::{ControlError, Stanzas};
use dist_relation::Name;
use dist_repo::{AddError, Added, Builder, Package, Repository};
use std::alloc::Global;

/// What a fault of control text is to the file.
fn line_fault(error: ControlError) -> PackagesError
    ensures { ((error ≡ ControlError.NoMemory) × (result ≡ PackagesError.NoMemory)) ⊎ IsBad (IsLineFault error) result }
{
    match error {
        ControlError::NoColon(line) => bad(line, Kind::NoColon),
        ControlError::BadFieldName(line) => bad(line, Kind::BadFieldName),
        ControlError::OrphanContinuation(line) => bad(line, Kind::OrphanContinuation),
        ControlError::DoubleField(line) => bad(line, Kind::DoubleField),
        ControlError::NoMemory => PackagesError::NoMemory,
    }
}

/// What the next stanza describes.
fn next_package(
    alloc: Global,
    reader: &mut Stanzas,
    earlier: &Option<Name>,
) -> Result<Option<Described>, PackagesError>
    ensures { Answers (Gives earlier.now reader.old reader.new)
        (IsBad (IsFaulty earlier.now reader.old)) PackagesError.NoMemory result }
{
    match reader.next(alloc) {
        Ok(Some(stanza)) => match read_package(alloc, &stanza, earlier) {
            Ok(described) => Ok(Some(described)),
            Err(error) => Err(error),
        },
        Ok(None) => Ok(None),
        Err(error) => Err(line_fault(error)),
    }
}

/// Adds a package that came with a line, unless an equal one is held.
fn add_package(builder: &mut Builder, package: Package, line: u64) -> Result<(), PackagesError>
    requires { length builder.old < 4294967295 }
    ensures { Answers (λ _. Adds builder.old builder.new «package» line)
        (IsBad (IsClashFault builder.old «package» line)) PackagesError.NoMemory result }
{
    match builder.add(package, line) {
        Ok(Added::New) => Ok(()),
        Ok(Added::Same) => Ok(()),
        Err(AddError::Clash(kept, _)) => Err(bad(line, Kind::Clash(kept))),
        Err(AddError::NoMemory(_)) => Err(PackagesError::NoMemory),
    }
}

/// The architecture of the earlier stanzas, or else this one.
fn first_of(earlier: Option<Name>, given: Option<Name>) -> Option<Name>
    ensures { result ≡ option_or earlier given }
{
    match earlier {
        Some(earlier) => Some(earlier),
        None => given,
    }
}

/// The repository of a Packages file of at most so many stanzas, or the first fault of the file.
pub fn read_packages(alloc: Global, bytes: &[u8], stanzas: u32) -> Result<Repository, PackagesError>
    ensures answers { Answers (IsRepositoryOf bytes.now stanzas) (IsRefused (raw_stanzas bytes.now) stanzas)
        PackagesError.NoMemory result }
    ensures fewer { IfOk result (λ repository. length repository.packages ≤ stanzas) }
    ensures bounded { IfOk result (λ repository. relation_count repository.packages ≤ length bytes.now) }
{
    relations_take_bytes();
    let mut reader = Stanzas::new(bytes);
    let mut builder = Builder::new(alloc);
    let mut architecture: Option<Name> = None;
    let mut count = 0u32;
    while reader.has_next() {
        if count == stanzas {
            return Err(PackagesError::TooMany);
        }
        let described = match next_package(alloc, &mut reader, &architecture) {
            Ok(Some(described)) => described,
            // A stanza is left, so the reader gives one or refuses.
            Ok(None) => unreachable!(),
            Err(error) => return Err(error),
        };
        let Described {
            line,
            package_,
            architecture: given,
        } = described;
        match add_package(&mut builder, package_, line) {
            Ok(()) => {}
            Err(error) => return Err(error),
        }
        architecture = first_of(architecture, given);
        count += 1;
    }
    match builder.finish(architecture) {
        Ok(repository) => Ok(repository),
        Err(_) => Err(PackagesError::NoMemory),
    }
}
