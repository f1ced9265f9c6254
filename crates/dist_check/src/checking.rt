//! One pass over the lines of a certificate.
ghost use Rattle.std.specs.Prelude.{List, None, Option, ℕ, IfErr, IfOk};
ghost use Rattle.dist_outside.specs.DeskView.{OnlyReads};
ghost use Rattle.dist_outside.specs.Files.{IsReading};
ghost use Rattle.dist_outside.specs.Reading.{bytes_left};
ghost use Rattle.dist_repo.specs.Size.{IsWithinSize};
ghost use Rattle.dist_cert.specs.Reading.{text_left};
ghost use Rattle.dist_check.specs.Answers.{AcceptedMeans};
ghost use Rattle.dist_check.specs.CertificateLines.{certificate_lines};
ghost use Rattle.dist_check.specs.Checking.{LargeCause, TextAnswers};
ghost use Rattle.dist_check.specs.JudgedSpace.{IsSpaceGiven};
ghost use Rattle.dist_line_check.specs.Checked.{IsChecked};
ghost use Rattle.dist_judge.specs.Causes.{TextCause};
ghost use Rattle.dist_judge.specs.Judging.{OfText};
ghost use Rattle.dist_subject.specs.Limited.{AreStated};

use crate::certificates::Certificates;
use crate::laws::accepted_claims_hold;
use crate::start::{Started, start};
use dist_cert::{Claims, Header, ReadCertError, Reader, forms_are_clear};
use dist_check_state::State;
use dist_line_check::{Kept, check_lines};
use dist_outside::{Desk, Limits};
use dist_repo::Repository;
use dist_space::Space;
use dist_subject::models_are_healthy;
use std::alloc::Global;

/// What was read of an accepted certificate, and the space that it is judged by, where it is wanted and there is one.
#[derive(Drop)]
pub(crate) struct Checked {
    pub(crate) header: Header,
    pub(crate) claims: Claims,
    pub(crate) space: Option<Space>,
}

/// What the text behind its first line claims, with what is kept behind that one.
fn claims_behind<D: Desk>(
    alloc: Global,
    repo: &Repository,
    desk: &mut D,
    limits: &Limits,
    header: &Header,
    reader: &mut Reader,
    kept: Kept<State>,
) -> Result<Claims, ReadCertError>
    requires reading { IsReading (D.view desk.old).mode }
    requires start { IsChecked (certificate_lines repo.now) limits.now None header.now reader.old None kept.checker kept.notes }
    ensures text { (told : Option (List ℕ)) → IsChecked (certificate_lines repo.now) limits.now told header.now reader.old (text_left reader.old (D.view desk.old)) kept.checker kept.notes
        → OfText told (λ text. TextAnswers (λ _. header.now) (λ claims. claims) repo.now limits.now text result) }
    ensures some { (text : List ℕ) × TextAnswers (λ _. header.now) (λ claims. claims) repo.now limits.now text result }
    ensures cause { IfErr result (TextCause (D.view desk.old) (D.view desk.new)) }
    ensures large { IfErr result (LargeCause repo.now limits.now) }
    ensures only_reads { OnlyReads (D.view desk.old) (D.view desk.new) }
{
    let certificates = Certificates { repo };
    let notes = check_lines(alloc, desk, &certificates, reader, kept)?;
    Ok(notes.into_claims())
}

/// Checks the text that a desk is reading.
pub(crate) fn check_text<D: Desk>(
    alloc: Global,
    repo: &Repository,
    desk: &mut D,
    wants_space: bool,
    limits: &Limits,
) -> Result<Checked, ReadCertError>
    requires reading { IsReading (D.view desk.old).mode }
    requires size { IsWithinSize repo.now }
    requires limits { AreStated limits.now }
    ensures text { OfText (bytes_left (D.view desk.old).files (D.view desk.old).mode)
        (λ text. TextAnswers (λ c. c.header) (λ c. c.claims) repo.now limits.now text result) }
    ensures some { (text : List ℕ) × TextAnswers (λ c. c.header) (λ c. c.claims) repo.now limits.now text result }
    ensures means { IfOk result (λ c. AcceptedMeans repo.now c.header c.claims) }
    ensures space { IfOk result (λ c. IsSpaceGiven repo.now limits.now wants_space c.header.kind c.header.essential c.space) }
    ensures cause { IfErr result (TextCause (D.view desk.old) (D.view desk.new)) }
    ensures large { IfErr result (LargeCause repo.now limits.now) }
    ensures only_reads { OnlyReads (D.view desk.old) (D.view desk.new) }
{
    forms_are_clear();
    models_are_healthy();
    accepted_claims_hold();
    repo.keeps_invariant();
    let mut reader = Reader::new(alloc, limits);
    let header = reader.header(desk)?;
    let started = start(alloc, repo, &header, wants_space, limits)?;
    let Started { kept, space } = started;
    let claims = claims_behind(alloc, repo, desk, limits, &header, &mut reader, kept)?;
    Ok(Checked {
        header,
        claims,
        space,
    })
}
