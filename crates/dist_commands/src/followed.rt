//! What `follow` makes of a journal, and what it tells.
ghost use Rattle.std.specs.Prelude.{◌≡◌, ◌+◌, ◌<◌, ◌++◌, IfErr, IfOk, List, Option, length};
ghost use Rattle.dist_outside.specs.Files.{Files};
ghost use Rattle.dist_journal.specs.Broken.{AreBroken};
ghost use Rattle.dist_journal.specs.declared.broken_list.Broken.{Broken};
ghost use Rattle.dist_history.specs.FollowText.{broken_texts, follow_text};
ghost use Rattle.dist_commands.specs.DuePrivate.{IsPartGivenUp};
ghost use Rattle.dist_commands.specs.Follow.{AreToldBroken, JournalStage, TellsFollowed};
ghost use Rattle.dist_commands.specs.FollowPrivate.{IsBacked, IsRefusalOf, pair_of};
ghost use Rattle.dist_commands.specs.Stages.{Ends, answered};

use crate::accepting::Accepted;
use crate::answer::Answer;
use crate::refusal::Refusal;
use crate::status::Status;
use dist_archive::{Archive, clusters_are_whole, start};
use dist_cert::{CertKind, Claims};
use dist_history::{counts_text, missing_packages_mend_nothing, write_broken_list};
use dist_journal::{FollowError, broken, follow};
use dist_outside::What;
use dist_space::Space;
use std::alloc::{AllocError, Global};

/// Adds the packages that moved clusters break.
fn tell_broken(
    alloc: Global,
    archive: &Archive,
    claims: &Claims,
    text: Vec<u8>,
) -> Result<Answer, AllocError>
    requires { length claims.now ≡ length archive.now.space.repository.packages }
    ensures status { IfOk result (λ answer. answer.status ≡ Status.Done) }
    ensures text { IfOk result (λ answer. (list : List Broken) × AreBroken archive.now.space archive.now.packages claims.now list
        × (answer.text.items ≡ text.items ++ broken_texts archive.now.space archive.now.packages list)) }
{
    let list = broken(alloc, archive, claims)?;
    let mut text = text;
    write_broken_list(&mut text, archive, &list)?;
    Ok(Answer {
        status: Status::Done,
        text,
    })
}

/// Tells what a journal of so many steps left.
fn tell_followed(
    alloc: Global,
    archive: &Archive,
    count: u32,
    accepted: &Accepted,
) -> Result<Answer, AllocError>
    requires { IsBacked archive.now.space accepted.now }
    ensures status { IfOk result (λ answer. answer.status ≡ Status.Done) }
    ensures text { IfOk result (λ answer. (list : List Broken)
        × AreToldBroken accepted.now.header.kind archive.now.space archive.now.packages accepted.now.claims list
        × (answer.text.items ≡ follow_text archive.now.space archive.now.packages count list)) }
{
    let text = counts_text(alloc, count, archive)?;
    match accepted.header.kind {
        CertKind::Challenged => tell_broken(alloc, archive, &accepted.claims, text),
        CertKind::Strong | CertKind::Outdated => Ok(Answer {
            status: Status::Done,
            text,
        }),
    }
}

/// Why a run is given up whose journal is not followed to its end.
fn refusal_of_journal(error: FollowError) -> Refusal
    ensures { IsRefusalOf error result }
{
    match error {
        FollowError::Bad(line, fault) => Refusal::BadJournal(line, fault),
        FollowError::TooMany => Refusal::TooLarge(What::Stanzas),
        FollowError::NoMemory => Refusal::NoMemory,
    }
}

/// Follows a journal from the packages of a space on, and tells what this left.
pub(crate) fn make_steps(
    alloc: Global,
    space: Space,
    accepted: &Accepted,
    journal: &[u8],
    stanzas: u32,
) -> Result<Answer, Refusal>
    requires few { length space.repository.packages + length journal.now < 4294967295 }
    requires backed { IsBacked space accepted.now }
    ensures answers { IfOk result (λ answer. (files : Option Files)
        → TellsFollowed files stanzas space (pair_of accepted.now) journal.now (answered files answer.status answer.text.items)) }
    ensures given_up { IfErr result (λ refusal. (files : Option Files)
        → IsPartGivenUp (λ ending. JournalStage files stanzas space journal.now (Ends ending)) files refusal) }
{
    space.keeps_invariant();
    clusters_are_whole();
    missing_packages_mend_nothing();
    let Ok(mut archive) = start(alloc, space) else {
        return Err(Refusal::NoMemory);
    };
    match follow(alloc, &mut archive, journal, stanzas) {
        Ok(count) => {
            archive.keeps_invariant();
            let told = tell_followed(alloc, &archive, count, accepted);
            drop(archive);
            match told {
                Ok(answer) => Ok(answer),
                Err(_) => Err(Refusal::NoMemory),
            }
        }
        Err(error) => {
            drop(archive);
            Err(refusal_of_journal(error))
        }
    }
}
