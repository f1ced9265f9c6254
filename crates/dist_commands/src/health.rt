//! What `health` says of a set of packages, in one line.
ghost use Rattle.std.specs.Prelude.{◌≡◌, Option, length, IfOk};
ghost use Rattle.dist_outside.specs.Files.{Files};
ghost use Rattle.dist_repo.specs.Size.{IsWithinSize};
ghost use Rattle.dist_commands.specs.Stages.{answered};
ghost use Rattle.dist_commands.specs.Health.{Judges, health_status};

use crate::answer::Answer;
use crate::status::Status;
use dist_clause::Assignment;
use dist_now::{Health, health};
use dist_repo::Repository;
use dist_report::health_text;
use std::alloc::{AllocError, Global};

/// The status that goes with a health.
fn health_status(health: &Health) -> Status
    ensures { result ≡ health_status health.now }
{
    match health {
        Health::Healthy => Status::Done,
        _ => Status::NotHealthy,
    }
}

/// Whether the members are a healthy installation, and the line that says so or names what is wrong.
pub(crate) fn judge(
    alloc: Global,
    repository: &Repository,
    members: &Assignment,
) -> Result<Answer, AllocError>
    requires one_each { length members.now ≡ length repository.now.packages }
    requires within_size { IsWithinSize repository.now }
    ensures { IfOk result (λ answer. (files : Option Files) → Judges files repository.now members.now (answered files answer.status answer.text.items)) }
{
    let found = health(repository, false, members);
    Ok(Answer {
        status: health_status(&found),
        text: health_text(alloc, repository, &found)?,
    })
}
