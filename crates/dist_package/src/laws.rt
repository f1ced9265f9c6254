//! What holds of files, their repositories and their faults, apart from any call.
ghost use Rattle.std.specs.Prelude.{ℕ, ◌≤◌, List, All, length};
ghost use Rattle.dist_base.specs.Answers.{IsExact};
ghost use Rattle.dist_control.specs.RawStanza.{RawStanza, raw_stanzas};
ghost use Rattle.dist_repo.specs.PackageList.{PackageList};
ghost use Rattle.dist_repo.specs.Size.{relation_count};
ghost use Rattle.dist_package.specs.FirstFault.{HasPackagesFault, IsRefused, CarriesNoMemory};
ghost use Rattle.dist_package.specs.declared.error.Fault.{Fault};
ghost use Rattle.dist_package.specs.OneAnswer.{HasOneAnswer};
ghost use Rattle.dist_package.specs.RepositoryOf.{IsRepositoryOf};
ghost use Rattle.dist_package.specs.Spelled.{IsSpelled};

use dist_control::{one_reading_or_fault, values_take_bytes};
use dist_relation::{faults_come, items_take_bytes, values_are_exact};
use dist_repo::each_stands_once;
use dist_version::texts_are_exact;

/// The kind of a file's first fault never carries want of memory.
pub fn kinds_carry_no_memory()
    ensures { (raws : List RawStanza) (limit : ℕ) (fault : Fault) → HasPackagesFault raws limit fault → CarriesNoMemory fault.kind }
{
    texts_are_exact();
    faults_come();
}

/// Each Packages text has one repository or one error, and never both.
pub fn packages_are_exact()
    ensures { (text : List ℕ) (limit : ℕ) → HasOneAnswer text limit }
{
    one_reading_or_fault();
    texts_are_exact();
    values_are_exact();
    each_stands_once();
}

/// Each Packages text has exactly one answer, whatever the limit: its repository, or the reason why it has none. So a text
/// without a fault, of no more stanzas than the limit, has a repository.
pub fn each_text_is_answered()
    ensures { (text : List ℕ) (limit : ℕ) → IsExact (IsRepositoryOf text limit) (IsRefused (raw_stanzas text) limit) }
{
    one_reading_or_fault();
    texts_are_exact();
    values_are_exact();
    faults_come();
    packages_are_exact();
}

/// The packages of a file's repository have together at most as many atoms and entries of Provides as the file has bytes.
pub fn relations_take_bytes()
    ensures { (text : List ℕ) (limit : ℕ) (repository : PackageList) → IsRepositoryOf text limit repository
        → relation_count repository.packages ≤ length text }
{
    items_take_bytes();
    each_stands_once();
    values_take_bytes();
}

/// The packages of a file's repository have names and versions wherever one is meant.
pub fn packages_are_spelled()
    ensures { (text : List ℕ) (limit : ℕ) (repository : PackageList) → IsRepositoryOf text limit repository
        → All IsSpelled repository.packages }
{}
