//! How a command of the top call runs on packages and a certificate in memory.
ghost use Rattle.dist_outside.specs.Files.{IsNotWriting};

use dist_app::{Status, run};
use dist_outside::{MemoryDesk, MemorySink};
use dist_samples::words_of;
use itoa::Buffer;
use std::alloc::{AllocError, Global};

/// Adds bytes and a number behind them.
pub(crate) fn add_number(text: &mut Vec<u8>, before: &[u8], number: u32) -> Result<(), AllocError> {
    text.extend_from_slice(before)?;
    let mut digits = Buffer::new();
    text.extend_from_slice(digits.format(number).as_bytes())?;
    Ok(())
}

/// Puts packages and a certificate on a desk.
fn put_files(desk: &mut MemoryDesk, packages: &[u8], certificate: &[u8]) -> Result<(), AllocError>
    requires { IsNotWriting desk.old.mode }
    ensures { IsNotWriting desk.new.mode }
{
    desk.put("packages", packages)?;
    desk.put("cert", certificate)
}

/// Whether a command ends well and tells the report.
fn tells(
    alloc: Global,
    words: &[String],
    report: &str,
    desk: &mut MemoryDesk,
    out: &mut MemorySink,
    err: &mut MemorySink,
) -> bool
    requires { IsNotWriting desk.old.mode }
{
    run(alloc, words, desk, out, err) == Status::Done
        && out.bytes() == report.as_bytes()
        && err.bytes().is_empty()
}

/// The same with sinks of its own.
fn tells_report(
    alloc: Global,
    words: &[String],
    report: &str,
    desk: &mut MemoryDesk,
) -> Result<bool, AllocError>
    requires { IsNotWriting desk.old.mode }
{
    let mut out = MemorySink::new(alloc, usize::MAX, &[])?;
    let told = match MemorySink::new(alloc, usize::MAX, &[]) {
        Ok(mut err) => {
            let told = tells(alloc, words, report, desk, &mut out, &mut err);
            drop(err);
            Ok(told)
        }
        Err(error) => Err(error),
    };
    drop(out);
    told
}

/// The same of the words of a command.
fn ends_well(
    alloc: Global,
    command: &str,
    report: &str,
    desk: &mut MemoryDesk,
) -> Result<bool, AllocError>
    requires { IsNotWriting desk.old.mode }
{
    let words = words_of(alloc, &[command, "packages", "cert"])?;
    let told = tells_report(alloc, &words, report, desk);
    drop(words);
    told
}

/// The certificate on a desk.
fn certificate_on(alloc: Global, desk: &MemoryDesk) -> Result<Option<Vec<u8>>, AllocError> {
    match desk.get("cert") {
        Some(bytes) => Ok(Some(Vec::from_slice(alloc, bytes)?)),
        None => Ok(None),
    }
}

/// The certificate on a desk behind a command that ends well and tells the report; nothing behind another end.
fn certificate_behind(
    alloc: Global,
    desk: &mut MemoryDesk,
    packages: &[u8],
    certificate: &[u8],
    command: &str,
    report: &str,
) -> Result<Option<Vec<u8>>, AllocError>
    requires { IsNotWriting desk.old.mode }
{
    put_files(desk, packages, certificate)?;
    if ends_well(alloc, command, report, desk)? {
        certificate_on(alloc, desk)
    } else {
        Ok(None)
    }
}

/// The same on a desk of its own.
fn certificate_of(
    alloc: Global,
    packages: &[u8],
    certificate: &[u8],
    command: &str,
    report: &str,
) -> Result<Option<Vec<u8>>, AllocError> {
    let mut desk = MemoryDesk::new(alloc, usize::MAX, &[])?;
    let behind = certificate_behind(alloc, &mut desk, packages, certificate, command, report);
    drop(desk);
    behind
}

/// Whether `check` accepts a certificate and tells the report.
fn is_checked(
    alloc: Global,
    packages: &[u8],
    swept: &[u8],
    report: &str,
) -> Result<bool, AllocError> {
    match certificate_of(alloc, packages, swept, "check", report)? {
        Some(checked) => {
            drop(checked);
            Ok(true)
        }
        None => Ok(false),
    }
}

/// The certificate of a sweep, where that and `check` both tell the report.
pub(crate) fn checked_certificate(
    alloc: Global,
    packages: &[u8],
    sweep: &str,
    report: &str,
) -> Result<Option<Vec<u8>>, AllocError> {
    match certificate_of(alloc, packages, b"", sweep, report)? {
        Some(swept) => match is_checked(alloc, packages, &swept, report) {
            Ok(true) => Ok(Some(swept)),
            Ok(false) => {
                drop(swept);
                Ok(None)
            }
            Err(error) => {
                drop(swept);
                Err(error)
            }
        },
        None => Ok(None),
    }
}
