//! The record that a letter and words are of, if they are of any. Whether they are is tested afterwards.
ghost use Rattle.std.specs.Prelude.{◌≡◌, IfOk};
ghost use Rattle.dist_cert.specs.DecodedPrivate as of;

use crate::loose_words::Words;
use crate::records::CertRecord;
use std::alloc::{AllocError, Global};

/// The record of a `d` line.
fn derived(alloc: Global, words: &mut Words) -> Result<CertRecord, AllocError>
    ensures { IfOk result (λ step. step ≡ of.decoded 100 words.old) }
{
    let literals = words.literals(alloc)?;
    Ok(CertRecord::Derived(literals, words.numbers(alloc)?))
}

/// The record of an `s` line.
fn strong(alloc: Global, words: &mut Words) -> Result<CertRecord, AllocError>
    ensures { IfOk result (λ step. step ≡ of.decoded 115 words.old) }
{
    let package = words.first();
    let installations = words.numbers(alloc)?;
    let on = words.numbers(alloc)?;
    let undecided = words.numbers(alloc)?;
    Ok(CertRecord::Strong(package, installations, on, undecided))
}

/// The record of a `c` line.
fn challenged(alloc: Global, words: &mut Words) -> Result<CertRecord, AllocError>
    ensures { IfOk result (λ step. step ≡ of.decoded 99 words.old) }
{
    let package = words.first();
    let installations = words.numbers(alloc)?;
    let by = words.pairs(alloc)?;
    let undecided = words.pairs(alloc)?;
    Ok(CertRecord::Challenged(package, installations, by, undecided))
}

/// The record of an `a` line.
fn alive(words: &mut Words) -> CertRecord
    ensures { result ≡ of.decoded 97 words.old }
{
    let package = words.first();
    CertRecord::Alive(package, words.first())
}

/// The record of a letter and words.
pub(crate) fn decode(alloc: Global, letter: u8, words: &mut Words) -> Result<CertRecord, AllocError>
    ensures { IfOk result (λ step. step ≡ of.decoded letter words.old) }
{
    match letter {
        b'q' => Ok(CertRecord::Question(words.literals(alloc)?)),
        b'd' => derived(alloc, words),
        b'f' => Ok(CertRecord::Refuted(words.numbers(alloc)?)),
        b'm' => Ok(CertRecord::Installation(words.numbers(alloc)?)),
        b'u' => Ok(CertRecord::Undecided),
        b'x' => Ok(CertRecord::NotInstallable(words.first())),
        b'y' => Ok(CertRecord::Unknown(words.first())),
        b's' => strong(alloc, words),
        b'o' => Ok(CertRecord::Outdated(words.first())),
        b'a' => Ok(alive(words)),
        b'c' => challenged(alloc, words),
        _ => Ok(CertRecord::End),
    }
}
