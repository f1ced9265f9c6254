//! The lines of a summary.
ghost use Rattle.std.specs.Prelude.{◌≡◌, ◌++◌, ◌*◌, ◌≤◌, IfOk, OnOk, length, sum_by};
ghost use Rattle.dist_base.specs.declared.TheConstants.{MAX_PACKAGES};
ghost use Rattle.dist_trial.specs.FiguresPrivate.{figure_in};
ghost use Rattle.dist_trial.specs.Summary.{all_marks, has_marks, number_line, summary_text};

use crate::trials::Trial;
use dist_cert::{Claim, Claims};
use dist_report::some_has_mark;
use itoa::Buffer;
use std::alloc::{AllocError, Global};

/// What is counted in claims.
#[derive(Clone, Copy)]
pub(crate) enum Figure {
    Pairs,
    NotInstallable,
    Replaced,
    Challenges,
    Marks,
}

/// How much a claim adds to a figure.
fn figure_of(claim: &Claim, figure: Figure) -> usize
    ensures { result ≡ figure_in figure claim.now }
{
    match (claim, figure) {
        (Claim::Strong(on, _), Figure::Pairs) => on.len(),
        (Claim::Uninstallable, Figure::NotInstallable) => 1,
        (Claim::Outdated, Figure::Replaced) => 1,
        (Claim::Challenged(by, _), Figure::Challenges) => by.len(),
        (Claim::Unknown, Figure::Marks) => 1,
        (Claim::Strong(_, undecided), Figure::Marks) => undecided.len(),
        (Claim::Challenged(_, undecided), Figure::Marks) => undecided.len(),
        _ => 0,
    }
}

/// A figure of all claims. No list of claims is so long that it passes 128 bits.
fn total(claims: &Claims, figure: Figure) -> u128
    ensures sum { result ≡ sum_by (figure_in figure) claims.now }
    ensures fits { result ≤ 18446744073709551615 * length claims.now }
{
    let mut sum = 0u128;
    for place in 0..claims.len() {
        sum += figure_of(claims.get(place), figure) as u128;
    }
    sum
}

/// Adds a line of a number.
fn add_line(text: &mut Vec<u8>, key: &[u8], number: u128) -> Result<(), AllocError>
    ensures { OnOk result (text.new.items ≡ text.old.items ++ number_line key.now number) }
{
    let mut digits = Buffer::new();
    text.extend_from_slice(key)?;
    text.extend_from_slice(digits.format(number).as_bytes())?;
    text.push(b'\n')?;
    Ok(())
}

/// The marks of three certificates.
fn all_marks(strong: &Claims, outdated: &Claims, challenged: &Claims) -> u128
    requires strong { length strong.now ≤ MAX_PACKAGES }
    requires outdated { length outdated.now ≤ MAX_PACKAGES }
    requires challenged { length challenged.now ≤ MAX_PACKAGES }
    ensures { result ≡ all_marks strong.now outdated.now challenged.now }
{
    total(strong, Figure::Marks) + total(outdated, Figure::Marks) + total(challenged, Figure::Marks)
}

/// Whether one of three certificates has a mark.
fn has_marks(strong: &Claims, outdated: &Claims, challenged: &Claims) -> bool
    ensures { result ≡ has_marks strong.now outdated.now challenged.now }
{
    some_has_mark(strong) || some_has_mark(outdated) || some_has_mark(challenged)
}

/// What is told of the accepted claims of three certificates.
pub(crate) fn told(
    alloc: Global,
    size: u32,
    strong: &Claims,
    outdated: &Claims,
    challenged: &Claims,
) -> Result<Trial, AllocError>
    requires strong { length strong.now ≤ MAX_PACKAGES }
    requires outdated { length outdated.now ≤ MAX_PACKAGES }
    requires challenged { length challenged.now ≤ MAX_PACKAGES }
    ensures summary { IfOk result (λ done. done.summary.items ≡ summary_text size strong.now outdated.now challenged.now) }
    ensures undecided { IfOk result (λ done. done.undecided ≡ has_marks strong.now outdated.now challenged.now) }
{
    let mut summary = Vec::new(alloc);
    add_line(&mut summary, b"size ", u128::from(size))?;
    add_line(&mut summary, b"strong ", total(strong, Figure::Pairs))?;
    add_line(
        &mut summary,
        b"uninstallable ",
        total(strong, Figure::NotInstallable),
    )?;
    add_line(
        &mut summary,
        b"outdated ",
        total(outdated, Figure::Replaced),
    )?;
    add_line(
        &mut summary,
        b"challenged ",
        total(challenged, Figure::Challenges),
    )?;
    add_line(
        &mut summary,
        b"undecided ",
        all_marks(strong, outdated, challenged),
    )?;
    summary.extend_from_slice(b"accepted 3\n")?;
    Ok(Trial {
        summary,
        undecided: has_marks(strong, outdated, challenged),
    })
}
