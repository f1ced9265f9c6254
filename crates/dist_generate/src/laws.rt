//! What holds of generated archives, apart from any call.
ghost use Rattle.std.specs.Prelude.{ℕ, ◌<◌, ◌≤◌, ◌*◌, length};
ghost use Rattle.dist_base.specs.declared.TheConstants.{MAX_SIZE};
ghost use Rattle.dist_control.specs.RawStanza.{raw_stanzas};
ghost use Rattle.dist_package.specs.FirstFault.{IsTooMany};
ghost use Rattle.dist_generate.specs.Archive.{IsArchive};
ghost use Rattle.dist_generate.specs.Generator.{generated};

use dist_package::relations_take_bytes;

/// Each generated text is a Packages file of as many packages as its size says, where the limit of stanzas reaches, and takes
/// at most 200 bytes for each.
pub fn generated_texts_are_archives()
    ensures archive { (size seed limit : ℕ) → size ≤ MAX_SIZE → size ≤ limit → IsArchive size seed limit }
    ensures too_many { (size seed limit : ℕ) → size ≤ MAX_SIZE → limit < size → IsTooMany (raw_stanzas (generated size seed)) limit }
    ensures bytes { (size seed : ℕ) → size ≤ MAX_SIZE → length (generated size seed) ≤ 200 * size }
{
    relations_take_bytes();
}
