//! Each status with its number and its line, but for want of memory, which has a file of its own.
use crate::hold;
use dist_top_rows::{
    Row, Wrong, check_rows, classes_rows, explain_rows, follow_rows, health_rows, steps_rows,
    strong_rows, words_rows, wrong_of,
};
use std::alloc::{AllocError, Global};

const NUMBERED: &[(u8, Row)] = &[
    (0, check_rows::TEN),
    (1, strong_rows::UNDECIDED),
    (2, words_rows::NO_COMMAND),
    (3, classes_rows::BAD_STANZA),
    (4, check_rows::BAD_LINE),
    (5, check_rows::MISSING),
    (6, strong_rows::NOT_MADE),
    (8, strong_rows::CUT_SHORT),
    (9, health_rows::UNMET),
    (10, health_rows::BAD_THIRD_LINE),
    (11, follow_rows::NOT_ABOVE),
    (12, steps_rows::MISFIT),
    (13, explain_rows::NO_SUCH_PACKAGE),
];

/// What is wrong in a row or in the number of its status, if anything is.
fn wrong_number(alloc: Global, number: u8, row: &Row) -> Result<Option<&'static str>, AllocError> {
    if row.status.number() == number {
        wrong_of(alloc, row)
    } else {
        Ok(Some("the number"))
    }
}

/// What is wrong in the first row that does not come to what it says, or whose status has another number.
fn first_wrong_number(alloc: Global, rows: &[(u8, Row)]) -> Result<Option<Wrong>, AllocError> {
    for row in 0..rows.len() {
        if let Some(what) = wrong_number(alloc, rows[row].0, &rows[row].1)? {
            let table = "each status has its line";
            return Ok(Some(Wrong { table, row, what }));
        }
    }
    Ok(None)
}

#[test]
fn each_status_has_its_line(rt: HostRuntime) {
    hold(&rt, first_wrong_number(rt.alloc(), NUMBERED));
}
