//! Fronts of a stanza: `strong` takes one, or refuses it as a bad Packages file.
use dist_app::Status;
use dist_samples::{PYTHON, is_held};
use dist_top_rows::strong_rows::NONE;
use dist_top_rows::{Ended, Row, carried_out};
use std::alloc::{AllocError, Global};

/// The least and the greatest lengths of fronts that are a stanza without a fault, by another reader.
const TAKEN: [(usize, usize); 13] = [
    (0, 0),
    (63, 68),
    (70, 74),
    (89, 94),
    (103, 133),
    (142, 160),
    (168, 179),
    (181, 184),
    (198, 219),
    (234, 235),
    (247, 264),
    (279, 280),
    (284, 323),
];

/// Whether the front of this length is taken.
fn is_taken(length: usize) -> bool {
    for (least, greatest) in &TAKEN {
        if *least <= length && length <= *greatest {
            return true;
        }
    }
    false
}

/// The status that a run tells, where what it prints and leaves is of that status.
fn told(ended: &Ended) -> Option<Status> {
    let printed = !ended.out.bytes().is_empty();
    let refused = ended
        .err
        .bytes()
        .starts_with(b"distfuture: bad packages at line ");
    let before = is_held(ended.desk.get("cert"), NONE.cert);
    match ended.status {
        Status::Done if printed && !before && ended.err.bytes().is_empty() => Some(Status::Done),
        Status::BadPackages if refused && before && !printed => Some(Status::BadPackages),
        _ => None,
    }
}

/// The status of the front of a length.
fn status_of(alloc: Global, length: usize) -> Result<Option<Status>, AllocError> {
    let row = Row {
        packages: PYTHON.get(..length).unwrap_or(""),
        ..NONE
    };
    let ended = carried_out(alloc, &row)?;
    let status = told(&ended);
    drop(ended);
    Ok(status)
}

/// The length of the first front with another status.
fn wrong_front(alloc: Global) -> Result<Option<usize>, AllocError> {
    for length in 0..=PYTHON.len() {
        let wanted = if is_taken(length) {
            Status::Done
        } else {
            Status::BadPackages
        };
        if status_of(alloc, length)? != Some(wanted) {
            return Ok(Some(length));
        }
    }
    Ok(None)
}

#[test]
fn fronts_of_a_stanza_are_taken_or_refused(rt: HostRuntime) {
    assert!(rt; wrong_front(rt.alloc()) == Ok(None));
}
