//! The fields of a stanza that a package is made of, each read by a function of its own.
ghost use Rattle.std.specs.Prelude.{◌≡◌, ◌↔◌, None, Some, MatchOption, IsTrue, true, unwrap_or, codes};
ghost use Rattle.dist_base.specs.Answers.{Answers};
ghost use Rattle.dist_control.specs.FieldText.{field_text};
ghost use Rattle.dist_relation.specs.Bytes.{IsName};
ghost use Rattle.dist_package.specs.FirstFault.{IsBad};
ghost use Rattle.dist_package.specs.Named.{field_named, value_of, line_of, fault_on, relation_field_name};
ghost use Rattle.dist_package.specs.PackageOf.{ReadsName, HasNameFault, ReadsVersionField, HasVersionFault, ReadsSource, HasSourceFault, GivesArchitecture, HasArchitectureFault, all};

use crate::error::{Fault, Kind, PackagesError, RelationField};
use crate::source::{SourceError, source_of};
use dist_control::{Field, Stanza};
use dist_relation::{Name, RelationError};
use dist_version::{Version, VersionError};
use std::alloc::Global;

/// The error of a fault at a line.
pub(crate) fn bad(line: u64, kind: Kind) -> PackagesError
    ensures { result ≡ PackagesError.Bad (fault_on line kind) }
{
    PackagesError::Bad(Fault { line, kind })
}

/// The field of a name.
fn field<'a>(stanza: &Stanza<'a>, name: &[u8]) -> Option<Field<'a>>
    ensures { MatchOption result (field_named stanza.now name.now ≡ None)
        (λ field. field_named stanza.now name.now ≡ Some (field_text field)) }
{
    stanza.get(name).copied()
}

/// The name of the package.
pub(crate) fn read_name(alloc: Global, stanza: &Stanza) -> Result<Name, PackagesError>
    ensures { Answers (ReadsName stanza.now) (IsBad (HasNameFault stanza.now)) PackagesError.NoMemory result }
{
    let Some(field) = field(stanza, b"Package") else {
        return Err(bad(stanza.line, Kind::NoPackage));
    };
    match Name::read(alloc, field.value) {
        Ok(name) => Ok(name),
        Err(RelationError::NoMemory) => Err(PackagesError::NoMemory),
        Err(_) => Err(bad(field.line, Kind::BadPackageName)),
    }
}

/// The version of the package.
pub(crate) fn read_version(alloc: Global, stanza: &Stanza) -> Result<Version, PackagesError>
    ensures { Answers (ReadsVersionField stanza.now) (IsBad (HasVersionFault stanza.now)) PackagesError.NoMemory result }
{
    let Some(field) = field(stanza, b"Version") else {
        return Err(bad(stanza.line, Kind::NoVersion));
    };
    match Version::read(alloc, field.value) {
        Ok(version) => Ok(version),
        Err(VersionError::NoMemory) => Err(PackagesError::NoMemory),
        Err(error) => Err(bad(field.line, Kind::BadVersionText(error))),
    }
}

/// A package's own name and version.
fn own_source(name: &Name, version: &Version) -> Result<(Name, Version), PackagesError>
    ensures { Answers (λ source. (source.0 ≡ name.now) × (source.1 ≡ version.now)) (λ _. ⊥) PackagesError.NoMemory result }
{
    let Ok(source) = name.try_clone() else {
        return Err(PackagesError::NoMemory);
    };
    let Ok(source_version) = version.try_clone() else {
        return Err(PackagesError::NoMemory);
    };
    Ok((source, source_version))
}

/// The version that is written, or else a package's own.
fn written_or_own(written: Option<Version>, version: &Version) -> Result<Version, PackagesError>
    ensures { Answers (λ source_version. source_version ≡ unwrap_or written version.now) (λ _. ⊥) PackagesError.NoMemory result }
{
    match written {
        Some(written) => Ok(written),
        None => match version.try_clone() {
            Ok(version) => Ok(version),
            Err(_) => Err(PackagesError::NoMemory),
        },
    }
}

/// The source of a package of this name and version, and its version.
pub(crate) fn read_source(
    alloc: Global,
    stanza: &Stanza,
    name: &Name,
    version: &Version,
) -> Result<(Name, Version), PackagesError>
    ensures { Answers (λ source. ReadsSource stanza.now name.now version.now source.0 source.1)
        (IsBad (HasSourceFault stanza.now)) PackagesError.NoMemory result }
{
    let Some(field) = field(stanza, b"Source") else {
        return own_source(name, version);
    };
    match source_of(alloc, field.value) {
        Ok((source, written)) => match written_or_own(written, version) {
            Ok(source_version) => Ok((source, source_version)),
            Err(error) => Err(error),
        },
        Err(SourceError::NoMemory) => Err(PackagesError::NoMemory),
        Err(SourceError::NoSource) => Err(bad(field.line, Kind::BadSource)),
    }
}

/// Whether this is the architecture `all`.
fn is_all(name: &[u8]) -> bool
    ensures { IsTrue result ↔ (name.now ≡ all) }
{
    name == b"all".as_slice()
}

/// Whether an architecture is that of earlier stanzas, where they have one.
fn agrees(earlier: &Option<Name>, architecture: &Name) -> bool
    ensures { MatchOption earlier.now (result ≡ true) (λ other. IsTrue result ↔ (other ≡ architecture.now)) }
{
    match earlier {
        Some(other) => other == architecture,
        None => true,
    }
}

/// The name that a value is, if it is one.
fn name_in(alloc: Global, value: &[u8]) -> Result<Option<Name>, PackagesError>
    ensures { Answers (λ name. MatchOption name (¬ IsName value.now) (λ bytes. (bytes ≡ value.now) × IsName value.now))
        (λ _. ⊥) PackagesError.NoMemory result }
{
    match Name::read(alloc, value) {
        Ok(name) => Ok(Some(name)),
        Err(RelationError::NoMemory) => Err(PackagesError::NoMemory),
        Err(_) => Ok(None),
    }
}

/// The architecture of a stanza, if it is another than `all`.
pub(crate) fn read_architecture(
    alloc: Global,
    stanza: &Stanza,
    earlier: &Option<Name>,
) -> Result<Option<Name>, PackagesError>
    ensures { Answers (GivesArchitecture earlier.now stanza.now)
        (IsBad (HasArchitectureFault earlier.now stanza.now)) PackagesError.NoMemory result }
{
    let Some(field) = field(stanza, b"Architecture") else {
        return Ok(None);
    };
    let architecture = match name_in(alloc, field.value) {
        Ok(Some(name)) => name,
        Ok(None) => return Err(bad(field.line, Kind::BadArchitecture)),
        Err(_) => return Err(PackagesError::NoMemory),
    };
    if is_all(architecture.bytes()) {
        return Ok(None);
    }
    if !agrees(earlier, &architecture) {
        return Err(bad(field.line, Kind::TwoArchitectures));
    }
    Ok(Some(architecture))
}

/// Whether the package is essential.
pub(crate) fn is_essential(stanza: &Stanza) -> bool
    ensures { IsTrue result ↔ (value_of stanza.now (codes "Essential") ≡ codes "yes") }
{
    match field(stanza, b"Essential") {
        Some(field) => field.value == b"yes".as_slice(),
        None => false,
    }
}

/// The field of a kind of relations.
fn relation_field<'a>(stanza: &Stanza<'a>, relation: RelationField) -> Option<Field<'a>>
    ensures { MatchOption result (field_named stanza.now (relation_field_name relation) ≡ None)
        (λ field. field_named stanza.now (relation_field_name relation) ≡ Some (field_text field)) }
{
    match relation {
        RelationField::PreDepends => field(stanza, b"Pre-Depends"),
        RelationField::Depends => field(stanza, b"Depends"),
        RelationField::Conflicts => field(stanza, b"Conflicts"),
        RelationField::Breaks => field(stanza, b"Breaks"),
        RelationField::Provides => field(stanza, b"Provides"),
    }
}

/// The value of a field of relations, which is empty where there is none, and its line.
pub(crate) fn relation_value<'a>(stanza: &Stanza<'a>, relation: RelationField) -> (&'a [u8], u64)
    ensures value { result.0.now ≡ value_of stanza.now (relation_field_name relation) }
    ensures line { result.1 ≡ line_of stanza.now (relation_field_name relation) }
{
    match relation_field(stanza, relation) {
        Some(field) => (field.value, field.line),
        None => (&[], stanza.line),
    }
}
