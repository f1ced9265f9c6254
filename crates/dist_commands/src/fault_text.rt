//! The line that tells a fault of a Packages file.
ghost use Rattle.std.specs.Prelude.{◌≡◌, ◌++◌};
ghost use Rattle.dist_commands.specs.FaultText.{version_text, field_text, relation_name, place_of, kind_name, carried_text};
ghost use Rattle.dist_commands.specs.Writes.{Writes};

use crate::pieces::write_pieces;
use dist_outside::{Sink, WorkError};
use dist_package::{Kind, RelationField};
use dist_relation::RelationError;
use dist_version::VersionError;
use itoa::Buffer;

/// The name of a version's fault.
fn version_text(error: VersionError) -> &'static [u8]
    ensures { result.now ≡ version_text error }
{
    match error {
        VersionError::Empty => b"Empty",
        VersionError::BadEpoch => b"BadEpoch",
        VersionError::EpochTooLarge => b"EpochTooLarge",
        VersionError::EmptyUpstream => b"EmptyUpstream",
        VersionError::EmptyRevision => b"EmptyRevision",
        VersionError::BadByte(_) => b"BadByte",
        VersionError::NoMemory => b"NoMemory",
    }
}

/// The name of a field, as it is written in control files.
fn field_text(field: RelationField) -> &'static [u8]
    ensures { result.now ≡ field_text field }
{
    match field {
        RelationField::PreDepends => b"Pre-Depends",
        RelationField::Depends => b"Depends",
        RelationField::Conflicts => b"Conflicts",
        RelationField::Breaks => b"Breaks",
        RelationField::Provides => b"Provides",
    }
}

/// The name of a relation's fault, in two pieces.
fn relation_name(error: RelationError) -> (&'static [u8], &'static [u8])
    ensures { result.0.now ++ result.1.now ≡ relation_name error }
{
    match error {
        RelationError::BadName(_) => (b"BadName", b""),
        RelationError::BadOp(_) => (b"BadOp", b""),
        RelationError::BadVersion(_, fault) => (b"BadVersion ", version_text(fault)),
        RelationError::Unclosed(_) => (b"Unclosed", b""),
        RelationError::BarNotAllowed(_) => (b"BarNotAllowed", b""),
        RelationError::Trailing(_) => (b"Trailing", b""),
        RelationError::OpInProvides(_) => (b"OpInProvides", b""),
        RelationError::NoMemory => (b"NoMemory", b""),
    }
}

/// The place of a relation's fault.
fn place_of(error: RelationError) -> usize
    ensures { result ≡ place_of error }
{
    match error {
        RelationError::BadName(place)
        | RelationError::BadOp(place)
        | RelationError::BadVersion(place, _)
        | RelationError::Unclosed(place)
        | RelationError::BarNotAllowed(place)
        | RelationError::Trailing(place)
        | RelationError::OpInProvides(place) => place,
        RelationError::NoMemory => 0,
    }
}

/// The name of a kind that carries no number, in two pieces.
fn kind_name(kind: Kind) -> (&'static [u8], &'static [u8])
    ensures { result.0.now ++ result.1.now ≡ kind_name kind }
{
    match kind {
        Kind::NoColon => (b"NoColon", b""),
        Kind::BadFieldName => (b"BadFieldName", b""),
        Kind::OrphanContinuation => (b"OrphanContinuation", b""),
        Kind::DoubleField => (b"DoubleField", b""),
        Kind::NoPackage => (b"NoPackage", b""),
        Kind::BadPackageName => (b"BadPackageName", b""),
        Kind::NoVersion => (b"NoVersion", b""),
        Kind::BadVersionText(error) => (b"BadVersionText ", version_text(error)),
        Kind::BadSource => (b"BadSource", b""),
        Kind::BadArchitecture => (b"BadArchitecture", b""),
        Kind::TwoArchitectures => (b"TwoArchitectures", b""),
        Kind::Relation(_, error) => relation_name(error),
        Kind::Clash(_) => (b"Clash", b""),
    }
}

/// Writes a kind by its name, with what it carries.
pub(crate) fn write_kind<E: Sink>(err: &mut E, kind: Kind) -> Result<(), WorkError>
    ensures { Writes (kind_name kind ++ carried_text kind) result (E.view err.old) (E.view err.new) }
{
    let (name, detail) = kind_name(kind);
    let mut buffer = Buffer::new();
    match kind {
        Kind::Relation(field, error) => {
            let place = buffer.format(place_of(error)).as_bytes();
            write_pieces(
                err,
                &[name, detail, b" in ", field_text(field), b" at ", place],
            )
        }
        Kind::Clash(line) => {
            let line = buffer.format(line).as_bytes();
            write_pieces(err, &[name, detail, b" with line ", line])
        }
        _ => write_pieces(err, &[name, detail]),
    }
}
