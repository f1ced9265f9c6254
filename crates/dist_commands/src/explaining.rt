//! What is told of an explanation.
ghost use Rattle.std.specs.Prelude.{◌≡◌, IfOk};
ghost use Rattle.dist_report.specs.ExplainedText.{IsExplainedText};
ghost use Rattle.dist_commands.specs.CheckExplain.{explained_status, leaves_undecided};

use crate::answer::Answer;
use crate::claims::marked_status;
use dist_explain::Explained;
use dist_repo::Repository;
use dist_report::explained_text;
use std::alloc::{AllocError, Global};

/// Whether an answer leaves something undecided.
fn leaves_undecided(explained: &Explained) -> bool
    ensures { result ≡ leaves_undecided explained.now }
{
    match explained {
        Explained::Installable => false,
        Explained::Undecided => true,
        Explained::Broken(_, undecided) => !undecided.as_slice().is_empty(),
    }
}

/// The text of what is answered of a package, with its status.
pub(crate) fn tell_explained(
    alloc: Global,
    repository: &Repository,
    package: u32,
    explained: &Explained,
) -> Result<Answer, AllocError>
    ensures status { IfOk result (λ answer. answer.status ≡ explained_status explained.now) }
    ensures text { IfOk result (λ answer. IsExplainedText repository.now «package» explained.now answer.text.items) }
{
    let text = explained_text(alloc, repository, package, explained)?;
    Ok(Answer {
        status: marked_status(leaves_undecided(explained)),
        text,
    })
}
