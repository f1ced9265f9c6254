//! Runs of which each call of the desk, or each write to `out` or to `err`, fails in turn, until a run meets no fault.
use crate::walks::{ANSWERED, REFUSED, Walk};
use dist_app::Status;
use dist_top_rows::{After, Ended, Failing, NOTHING, Row, SINK_STEP, carried_out, wrong_in};
use std::alloc::{AllocError, Global};
use std::process::Abort;
use std::test::Fail;

/// What fails in turn: the calls of the desk, or the writes to a sink.
#[derive(Clone, Copy, PartialEq, Eq)]
enum Device {
    Desk,
    Out,
    Err,
}

/// The call of the device after so many fails.
fn failing(device: Device, done: u32) -> Failing {
    let call = u64::from(done) + 1;
    match device {
        Device::Desk => Failing {
            desk: call,
            ..NOTHING
        },
        Device::Out => Failing {
            out: call,
            ..NOTHING
        },
        Device::Err => Failing {
            err: call,
            ..NOTHING
        },
    }
}

/// Whether a call of the device failed.
fn has_failed(device: Device, ended: &Ended) -> bool {
    match device {
        Device::Desk => ended.desk.faults() > 0,
        Device::Out => ended.out.faults() > 0,
        Device::Err => ended.err.faults() > 0,
    }
}

/// What a row comes to where a file cannot be read.
fn unread(row: &Row) -> Row {
    Row {
        status: Status::ReadFault,
        out: "",
        err: "distfuture: read fault\n",
        after: After::AsBefore,
        ..*row
    }
}

/// What a row comes to where the certificate is not made, or else is not written whole.
fn unwritten(row: &Row, made: bool) -> Row {
    Row {
        status: Status::WriteFault,
        out: "",
        err: "distfuture: write fault\n",
        after: if made {
            After::Begins("")
        } else {
            After::AsBefore
        },
        ..*row
    }
}

/// The front of so many bytes of a text that has more, or else nothing.
fn front(text: &'static str, count: usize) -> &'static str {
    if count < text.len() {
        text.get(..count).unwrap_or("")
    } else {
        ""
    }
}

/// What a walk's row comes to where the call of the device after so many fails. What the writes before it printed is there, and
/// of the line on `err` a front is.
fn stopped(walk: &Walk, device: Device, done: u32, ended: &Ended) -> Row {
    let row = &walk.row;
    match device {
        Device::Desk if done < walk.reads => unread(row),
        Device::Desk => unwritten(row, done > walk.reads),
        Device::Out => Row {
            status: Status::WriteFault,
            out: front(row.out, done as usize * SINK_STEP),
            err: "distfuture: write fault\n",
            ..*row
        },
        Device::Err => Row {
            err: front(row.err, ended.err.bytes().len()),
            ..*row
        },
    }
}

/// Whether a run left the certificate of one without a fault.
fn is_whole(ended: &Ended, whole: &Ended) -> bool {
    match (ended.desk.get("cert"), whole.desk.get("cert")) {
        (Some(held), Some(text)) => held == text,
        (None, None) => true,
        _ => false,
    }
}

/// Whether it left a front of that.
fn is_front(ended: &Ended, whole: &Ended) -> bool {
    match (ended.desk.get("cert"), whole.desk.get("cert")) {
        (Some(held), Some(text)) => text.starts_with(held),
        (None, None) => true,
        _ => false,
    }
}

/// Whether the certificate is left as it is to be where the call of the device after so many fails: once it is made a front of it
/// stands, and where a sink fails it is whole.
fn is_left(walk: &Walk, device: Device, done: u32, ended: &Ended, whole: &Ended) -> bool {
    match device {
        Device::Desk if done <= walk.reads => true,
        Device::Desk => is_front(ended, whole),
        Device::Out | Device::Err => is_whole(ended, whole),
    }
}

/// What is seen of a run: whether a call failed, whether the certificate is whole, and the first thing that is wrong, if any.
#[derive(Clone, Copy)]
struct Seen {
    failed: bool,
    whole: bool,
    wrong: Option<&'static str>,
}

/// What is seen of a run in which the call of the device after so many fails, beside a run without a fault.
fn look_at(walk: &Walk, device: Device, done: u32, ended: &Ended, whole: &Ended) -> Seen {
    let failed = has_failed(device, ended);
    let wanted = if failed {
        stopped(walk, device, done, ended)
    } else {
        walk.row
    };
    let wrong = match wrong_in(&wanted, ended) {
        None if !is_left(walk, device, done, ended, whole) => Some("what is left of the file"),
        wrong => wrong,
    };
    Seen {
        failed,
        whole: is_whole(ended, whole),
        wrong,
    }
}

/// Runs a walk's row so that the call of the device after so many fails.
fn run_after(
    alloc: Global,
    walk: &Walk,
    device: Device,
    done: u32,
    whole: &Ended,
) -> Result<Seen, AllocError> {
    let row = Row {
        failing: failing(device, done),
        ..walk.row
    };
    let ended = carried_out(alloc, &row)?;
    let seen = look_at(walk, device, done, &ended, whole);
    drop(ended);
    Ok(seen)
}

/// Lets each call of the device fail in turn. The last one of the desk closes the certificate, which is then whole.
fn each_call(
    rt: &(impl Abort + AllocGlobal),
    walk: &Walk,
    device: Device,
    whole: &Ended,
) -> Result<(), AllocError> {
    let mut is_whole = true;
    for done in 0..1000 {
        let seen = run_after(rt.alloc(), walk, device, done, whole)?;
        assert_eq!(rt; seen.wrong, None, "{}, after {done}", walk.name);
        if !seen.failed {
            assert!(rt; is_whole, "{} is cut at its end", walk.name);
            return Ok(());
        }
        is_whole = seen.whole;
    }
    assert!(rt; false, "each run of {} has a fault", walk.name);
    Ok(())
}

/// Runs a walk's row without a fault, and then with each.
fn each_fault(
    rt: &(impl Abort + AllocGlobal),
    walk: &Walk,
    device: Device,
) -> Result<(), AllocError> {
    let whole = carried_out(rt.alloc(), &walk.row)?;
    let answer = each_call(rt, walk, device, &whole);
    drop(whole);
    answer
}

fn hold_walks(
    rt: &(impl Abort + AllocGlobal),
    walks: &[Walk],
    device: Device,
) -> Result<(), AllocError> {
    for walk in walks {
        each_fault(rt, walk, device)?;
    }
    Ok(())
}

#[test]
fn each_fault_of_the_desk_is_told(rt: HostRuntime) -> Result<(), Fail> {
    Ok(hold_walks(&rt, ANSWERED, Device::Desk)?)
}

#[test]
fn each_fault_of_out_is_told(rt: HostRuntime) -> Result<(), Fail> {
    Ok(hold_walks(&rt, ANSWERED, Device::Out)?)
}

#[test]
fn each_fault_of_err_changes_no_status(rt: HostRuntime) -> Result<(), Fail> {
    Ok(hold_walks(&rt, REFUSED, Device::Err)?)
}
