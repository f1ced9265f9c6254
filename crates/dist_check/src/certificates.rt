//! Certificates as a kind of file that is checked line by line.
ghost use Rattle.dist_check.specs.CertificateLines.{certificate_lines};

use dist_cert::{CertCause, CertRecord, Literals, Numbers, forms_are_clear};
use dist_check_state::State;
use dist_line_check::Kind;
use dist_repo::Repository;
use std::alloc::{AllocError, Global};

/// The certificates of a repository.
#[derive(Drop)]
pub(crate) struct Certificates<'a> {
    pub(crate) repo: &'a Repository,
}

impl<'a> Kind for Certificates<'a> {
    type Notes = State;

    ghost files = { λ c. certificate_lines c.repo.now };

    fn laws(&self) {
        forms_are_clear();
    }

    fn judge_claim(
        &self,
        alloc: Global,
        notes: &State,
        step: &CertRecord,
    ) -> Result<Option<CertCause>, AllocError> {
        notes.judge(alloc, step)
    }

    fn note_refuted(
        &self,
        _alloc: Global,
        notes: &mut State,
        question: Literals,
    ) -> Result<(), AllocError> {
        notes.add_refuted(question)
    }

    fn note_undecided(
        &self,
        _alloc: Global,
        notes: &mut State,
        question: Literals,
    ) -> Result<(), AllocError> {
        notes.add_undecided(question)
    }

    fn note_installed(
        &self,
        alloc: Global,
        notes: &mut State,
        variables: Numbers,
    ) -> Result<(), AllocError> {
        notes.add_installation(alloc, variables)
    }

    fn note_claim(
        &self,
        _alloc: Global,
        notes: &mut State,
        step: CertRecord,
    ) -> Result<(), AllocError> {
        notes.take(step)
    }
}
