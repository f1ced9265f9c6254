//! The package of a stanza.
ghost use Rattle.std.specs.Prelude.{◌≡◌, ◌≢◌, Some, unwrap_or};
ghost use Rattle.dist_base.specs.Answers.{Answers};
ghost use Rattle.dist_package.specs.FirstFault.{IsBad, HasFieldFault};
ghost use Rattle.dist_package.specs.PackageOf.{IsPackageOf, all};

use crate::error::PackagesError;
use crate::fields::{is_essential, read_architecture, read_name, read_source, read_version};
use crate::relations::read_relations;
use dist_control::Stanza;
use dist_relation::Name;
use dist_repo::Package;
use std::alloc::Global;

/// What a stanza describes: a package, and an architecture other than `all` where it has one.
#[derive(Debug, Drop)]
pub(crate) struct Described {
    pub(crate) line: u64,
    pub(crate) package_: Package,
    pub(crate) architecture: Option<Name>,
}

/// The package of a stanza, and its architecture.
pub(crate) fn read_package(
    alloc: Global,
    stanza: &Stanza,
    earlier: &Option<Name>,
) -> Result<Described, PackagesError>
    ensures { Answers (λ d. IsPackageOf earlier.now stanza.now d.package_ (unwrap_or d.architecture all)
        × (d.architecture ≢ Some all) × (d.line ≡ stanza.now.line))
        (IsBad (HasFieldFault earlier.now stanza.now)) PackagesError.NoMemory result }
{
    let name = match read_name(alloc, stanza) {
        Ok(name) => name,
        Err(error) => return Err(error),
    };
    let version = match read_version(alloc, stanza) {
        Ok(version) => version,
        Err(error) => return Err(error),
    };
    let (source, source_version) = match read_source(alloc, stanza, &name, &version) {
        Ok((source, source_version)) => (source, source_version),
        Err(error) => return Err(error),
    };
    let architecture = match read_architecture(alloc, stanza, earlier) {
        Ok(architecture) => architecture,
        Err(error) => return Err(error),
    };
    let relations = match read_relations(alloc, stanza) {
        Ok(relations) => relations,
        Err(error) => return Err(error),
    };
    let package_ = Package {
        name,
        version,
        source,
        source_version,
        depends: relations.depends,
        conflicts: relations.conflicts,
        provides: relations.provides,
        essential: is_essential(stanza),
    };
    Ok(Described {
        line: stanza.line,
        package_,
        architecture,
    })
}
