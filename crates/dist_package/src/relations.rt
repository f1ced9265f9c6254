//! The fields of relations: what a package needs, what it can't stand beside, and what it provides.
ghost use Rattle.dist_base.specs.Answers.{Answers};
ghost use Rattle.dist_relation.specs.Faults.{FirstDependsFault, FirstAtomsFault, FirstProvidesFault};
ghost use Rattle.dist_relation.specs.Grammar.{ReadsDepends, ReadsAtoms, ReadsProvides};
ghost use Rattle.dist_relation.specs.declared.error.RelationError.{RelationError};
ghost use Rattle.dist_package.specs.FirstFault.{IsBad, HasFirstRelationFault, relation_fields};
ghost use Rattle.dist_package.specs.Named.{value_of, relation_field_name};
ghost use Rattle.dist_package.specs.PackageOf.{ReadsRelations, IsRelationFault};

use crate::error::{Kind, PackagesError, RelationField};
use crate::fields::{bad, relation_value};
use dist_control::Stanza;
use dist_relation::{
    Atoms, Items, Provides, RelationError, read_atoms, read_depends, read_provides,
};
use std::alloc::Global;

/// What the fields of relations give.
#[derive(Debug, Drop)]
pub(crate) struct Relations {
    pub(crate) depends: Items,
    pub(crate) conflicts: Atoms,
    pub(crate) provides: Provides,
}

/// The items of Pre-Depends or Depends.
fn items_of(alloc: Global, stanza: &Stanza, relation: RelationField) -> Result<Items, PackagesError>
    ensures { Answers (ReadsDepends (value_of stanza.now (relation_field_name relation)))
        (IsBad (IsRelationFault FirstDependsFault stanza.now relation)) PackagesError.NoMemory result }
{
    let (value, line) = relation_value(stanza, relation);
    match read_depends(alloc, value) {
        Ok(items) => Ok(items),
        Err(RelationError::NoMemory) => Err(PackagesError::NoMemory),
        Err(error) => Err(bad(line, Kind::Relation(relation, error))),
    }
}

/// The atoms of Conflicts or Breaks.
fn atoms_of(alloc: Global, stanza: &Stanza, relation: RelationField) -> Result<Atoms, PackagesError>
    ensures { Answers (ReadsAtoms (value_of stanza.now (relation_field_name relation)))
        (IsBad (IsRelationFault FirstAtomsFault stanza.now relation)) PackagesError.NoMemory result }
{
    let (value, line) = relation_value(stanza, relation);
    match read_atoms(alloc, value) {
        Ok(atoms) => Ok(atoms),
        Err(RelationError::NoMemory) => Err(PackagesError::NoMemory),
        Err(error) => Err(bad(line, Kind::Relation(relation, error))),
    }
}

/// The entries of Provides.
fn provides_of(alloc: Global, stanza: &Stanza) -> Result<Provides, PackagesError>
    ensures { Answers (ReadsProvides (value_of stanza.now (relation_field_name RelationField.Provides)))
        (IsBad (IsRelationFault FirstProvidesFault stanza.now RelationField.Provides)) PackagesError.NoMemory result }
{
    let (value, line) = relation_value(stanza, RelationField::Provides);
    match read_provides(alloc, value) {
        Ok(provides) => Ok(provides),
        Err(RelationError::NoMemory) => Err(PackagesError::NoMemory),
        Err(error) => Err(bad(line, Kind::Relation(RelationField::Provides, error))),
    }
}

/// What the fields of relations of a stanza give.
pub(crate) fn read_relations(alloc: Global, stanza: &Stanza) -> Result<Relations, PackagesError>
    ensures { Answers (λ r. ReadsRelations stanza.now r.depends r.conflicts r.provides)
        (IsBad (HasFirstRelationFault relation_fields stanza.now)) PackagesError.NoMemory result }
{
    let mut depends = match items_of(alloc, stanza, RelationField::PreDepends) {
        Ok(items) => items,
        Err(error) => return Err(error),
    };
    let more_depends = match items_of(alloc, stanza, RelationField::Depends) {
        Ok(items) => items,
        Err(error) => return Err(error),
    };
    let mut conflicts = match atoms_of(alloc, stanza, RelationField::Conflicts) {
        Ok(atoms) => atoms,
        Err(error) => return Err(error),
    };
    let breaks = match atoms_of(alloc, stanza, RelationField::Breaks) {
        Ok(atoms) => atoms,
        Err(error) => return Err(error),
    };
    let provides = match provides_of(alloc, stanza) {
        Ok(provides) => provides,
        Err(error) => return Err(error),
    };
    if depends.append(more_depends).is_err() || conflicts.append(breaks).is_err() {
        return Err(PackagesError::NoMemory);
    }
    Ok(Relations {
        depends,
        conflicts,
        provides,
    })
}
