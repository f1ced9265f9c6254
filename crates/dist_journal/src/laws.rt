//! Laws of journals, apart from the work. The functions do nothing.
ghost use Rattle.std.specs.Prelude.{ℕ, List};
ghost use Rattle.dist_repo.specs.declared.package.Package.{Package};
ghost use Rattle.dist_space.specs.Space.{IsSpace, SpaceView};
ghost use Rattle.dist_journal.specs.OneEnd.{HasOneEnd};

use dist_archive::steps_have_one_answer;
use dist_package::packages_are_exact;

/// A journal has one end: where following it comes to one answer, it can come to no other, but for want of memory.
pub fn journals_have_one_end()
    ensures { (s : SpaceView) (limit : ℕ) (journal : List ℕ) (old : List Package) → IsSpace s → HasOneEnd s limit journal old }
{
    steps_have_one_answer();
    packages_are_exact();
}
