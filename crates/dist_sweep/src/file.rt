//! The file of a sweep, from the first line of its certificate to the last.
ghost use Rattle.std.specs.Prelude.{◌≡◌, ◌≤◌, ℕ, IfErr, IfOk, length};
ghost use Rattle.dist_cert.specs.Form.{KeepsLimit};
ghost use Rattle.dist_outside.specs.Files.{IsNotWriting, IsWriting};
ghost use Rattle.dist_line_write.specs.Script.{Grows};
ghost use Rattle.dist_sweep.specs.Sweeping.{ClaimsMore, ClaimsStop, FileAnswers, SweepMore, SweepStops};

use crate::claimant::Claimant;
use crate::window::Window;
use dist_cert::{CertRecord, Claims, Header, forms_are_clear};
use dist_line_write::{Asker, close_file, create_file};
use dist_outside::{Desk, WorkError, file_grows, file_holds};
use std::alloc::Global;

/// Puts the claims of so many packages, each with the lines that it needs.
fn put_claims<C: Claimant, D: Desk>(
    alloc: Global,
    claimant: &mut C,
    asker: &mut Asker,
    window: &mut Window,
    desk: &mut D,
    packages: u32,
) -> Result<Claims, WorkError>
    requires writing { IsWriting (D.view desk.old).mode }
    requires limit { 1 ≤ asker.old.limit }
    requires variables { asker.old.log.variables ≡ window.old.variables }
    requires fits { (p : ℕ) → 1 ≤ p → p ≤ packages → C.fits claimant.old asker.old.log.variables p }
    ensures ok { IfOk result (ClaimsMore C.keeps packages (D.view desk.old) (D.view desk.new) asker.old asker.new window.old window.new claimant.old claimant.new) }
    ensures err { IfErr result (ClaimsStop C.keeps packages (D.view desk.old) (D.view desk.new) asker.old window.old claimant.old) }
    ensures one_each { IfOk result (λ made. length made ≡ packages) }
    ensures grows { Grows (D.view desk.old) (D.view desk.new) }
{
    file_grows();
    let mut made = Claims::new(alloc);
    for place in 0..packages {
        let claim = claimant.settle(asker, window, desk, place + 1)?;
        made.push(claim)?;
    }
    Ok(made)
}

/// Puts all lines, from the first to the end.
fn put_all<C: Claimant, D: Desk>(
    alloc: Global,
    claimant: &mut C,
    asker: &mut Asker,
    window: &mut Window,
    desk: &mut D,
    header: &Header,
) -> Result<Claims, WorkError>
    requires writing { IsWriting (D.view desk.old).mode }
    requires form { KeepsLimit header.now }
    requires limit { 1 ≤ asker.old.limit }
    requires variables { asker.old.log.variables ≡ window.old.variables }
    requires fits { (p : ℕ) → 1 ≤ p → p ≤ header.now.packages → C.fits claimant.old asker.old.log.variables p }
    ensures ok { IfOk result (SweepMore C.keeps header.now (D.view desk.old) (D.view desk.new) asker.old window.old claimant.old) }
    ensures err { IfErr result (SweepStops C.keeps header.now (D.view desk.old) (D.view desk.new) asker.old window.old claimant.old) }
    ensures grows { Grows (D.view desk.old) (D.view desk.new) }
{
    file_grows();
    asker.put_header(desk, header)?;
    let made = put_claims(alloc, claimant, asker, window, desk, header.packages)?;
    asker.put(desk, &CertRecord::End)?;
    Ok(made)
}

/// Writes the file of a sweep. It is closed whatever comes.
pub fn write_file<C: Claimant, D: Desk>(
    alloc: Global,
    claimant: &mut C,
    asker: &mut Asker,
    desk: &mut D,
    name: &str,
    header: &Header,
) -> Result<Claims, WorkError>
    requires idle { IsNotWriting (D.view desk.old).mode }
    requires form { KeepsLimit header.now }
    requires limit { 1 ≤ asker.old.limit }
    requires fits { (p : ℕ) → 1 ≤ p → p ≤ header.now.packages → C.fits claimant.old asker.old.log.variables p }
    ensures { FileAnswers C.keeps header.now asker.old claimant.old name.now (D.view desk.old) (D.view desk.new) result }
{
    forms_are_clear();
    file_holds();
    let mut window = Window::new(alloc, asker.variables())?;
    create_file(desk, name)?;
    let made = put_all(alloc, claimant, asker, &mut window, desk, header);
    let closed = close_file(desk);
    let made = made?;
    closed?;
    Ok(made)
}
