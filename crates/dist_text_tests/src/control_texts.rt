//! Texts, and what is read of them.
use crate::hold;
use dist_control::{
    ControlError, Field, Stanza, Stanzas, one_list_or_fault, one_reading_or_fault, split_line,
    trimmed, values_take_bytes,
};
use std::alloc::{AllocError, Global};

/// How many stanzas a text has, or its first fault.
type Counted = Result<usize, ControlError>;

/// The stanzas of a text, counted, or its first fault.
fn count(alloc: Global, text: &[u8]) -> Counted {
    let mut stanzas = Stanzas::new(text);
    for read in 0..text.len() {
        if next_line(alloc, &mut stanzas)?.is_none() {
            return Ok(read);
        }
    }
    Ok(text.len())
}

const FAULTY: &[(&str, Counted)] = &[
    (
        "Package: a\nVersion: 1\nDescription\n",
        Err(ControlError::NoColon(3)),
    ),
    ("a", Err(ControlError::NoColon(1))),
    ("\n\nA: x\n\nB: y\nC\n", Err(ControlError::NoColon(6))),
    ("A: x\n y\n z\nB\n", Err(ControlError::NoColon(4))),
    (": x\n", Err(ControlError::BadFieldName(1))),
    ("A: x\n#B: y\n", Err(ControlError::BadFieldName(2))),
    ("A: x\n-B: y\n", Err(ControlError::BadFieldName(2))),
    ("A B: x\n", Err(ControlError::BadFieldName(1))),
    ("A\x7f: x\n", Err(ControlError::BadFieldName(1))),
    ("A: x\n\n b\n", Err(ControlError::OrphanContinuation(3))),
    ("\tA: x\n", Err(ControlError::OrphanContinuation(1))),
    (
        "A: x\n \t\n B: y\n",
        Err(ControlError::OrphanContinuation(3)),
    ),
    (
        "A: x\nB: y\n b\na: z\n#: v\n",
        Err(ControlError::DoubleField(4)),
    ),
    ("A: x\na\nA: y\n", Err(ControlError::NoColon(2))),
];

const SOUND: &[(&str, Counted)] = &[
    ("", Ok(0)),
    ("\n \n\t\n", Ok(0)),
    ("A:", Ok(1)),
    ("A: x\r\nB-1#: :\n", Ok(1)),
    ("A: x\n \t\nA: y\n\n\n", Ok(2)),
];

/// The first text with other stanzas or another fault.
fn wrong_count(alloc: Global, rows: &[(&'static str, Counted)]) -> Option<&'static str> {
    for (text, comes) in rows {
        if count(alloc, text.as_bytes()) != *comes {
            return Some(text);
        }
    }
    None
}

#[test]
fn faults_with_their_lines(rt: HostRuntime) {
    hold(&rt, wrong_count(rt.alloc(), FAULTY));
    hold(&rt, wrong_count(rt.alloc(), SOUND));
}

const TWO_STANZAS: &str =
    "\nPackage: python3\nDepends: python3.11:any (>= 3.11.2-1~),\n libpython3-stdlib\nEmpty:\t \n  \nTag: devel::interpreter,\n implemented-in::c";

/// The place of a stanza, a name, and the value of the field of that name and its line, where there is one.
type Named = (u32, &'static str, Option<(&'static str, u64)>);

const NAMED: &[Named] = &[
    (0, "Package", Some(("python3", 2))),
    (
        0,
        "dEPENDS",
        Some(("python3.11:any (>= 3.11.2-1~),\n libpython3-stdlib", 3)),
    ),
    (0, "Empty", Some(("", 5))),
    (0, "Tag", None),
    (
        1,
        "tag",
        Some(("devel::interpreter,\n implemented-in::c", 7)),
    ),
];

/// The place of a stanza, its line, and the names of its fields.
type Shape = (u32, u64, &'static [&'static str]);

const SHAPES: &[Shape] = &[(0, 2, &["Package", "Depends", "Empty"]), (1, 7, &["Tag"])];

/// The stanza at a place of a text, from 0.
fn stanza_at(alloc: Global, text: &str, place: u32) -> Option<Stanza<'_>> {
    let mut stanzas = Stanzas::new(text.as_bytes());
    for _ in 0..place {
        let _line = next_line(alloc, &mut stanzas).ok()?;
    }
    stanzas.next(alloc).ok()?
}

/// Whether a field that may be missing has this value and line, or is missing where none are given.
fn is_field(field: Option<&Field<'_>>, expected: Option<(&str, u64)>) -> bool {
    match (field, expected) {
        (Some(field), Some((value, line))) => {
            field.value == value.as_bytes() && field.line == line
        }
        (None, None) => true,
        _ => false,
    }
}

/// Whether the field of a row is as it says.
fn is_named(alloc: Global, row: &Named) -> bool {
    match stanza_at(alloc, TWO_STANZAS, row.0) {
        Some(stanza) => {
            let so = is_field(stanza.get(row.1.as_bytes()), row.2);
            drop(stanza);
            so
        }
        None => false,
    }
}

/// Whether a stanza has exactly these fields.
fn has_names(stanza: &Stanza<'_>, names: &[&str]) -> bool {
    if stanza.fields.len() != names.len() {
        return false;
    }
    for place in 0..names.len() {
        if stanza.fields.get(place).name != names[place].as_bytes() {
            return false;
        }
    }
    true
}

/// Whether the stanza of a row is as it says.
fn is_shaped(alloc: Global, row: &Shape) -> bool {
    match stanza_at(alloc, TWO_STANZAS, row.0) {
        Some(stanza) => {
            let so = stanza.line == row.1 && has_names(&stanza, row.2);
            drop(stanza);
            so
        }
        None => false,
    }
}

/// The first name whose field is another one.
fn wrong_field(alloc: Global, rows: &[Named]) -> Option<&'static str> {
    for row in rows {
        if !is_named(alloc, row) {
            return Some(row.1);
        }
    }
    None
}

/// Whether the stanza of each row is as it says.
fn are_shaped(alloc: Global, rows: &[Shape]) -> bool {
    for row in rows {
        if !is_shaped(alloc, row) {
            return false;
        }
    }
    true
}

#[test]
fn fields_of_a_stanza(rt: HostRuntime) {
    assert!(rt; are_shaped(rt.alloc(), SHAPES));
    hold(&rt, wrong_field(rt.alloc(), NAMED));
}

/// Whether a stanza is said to be left, and then the line of the next one, or a fault.
type Step = (bool, Result<Option<u64>, ControlError>);

const TO_THE_END: &[Step] = &[(true, Ok(Some(2))), (true, Ok(Some(7))), (false, Ok(None))];

const FAULT_AT_SECOND: &[Step] = &[
    (true, Ok(Some(1))),
    (true, Err(ControlError::NoColon(3))),
    (false, Ok(None)),
];

/// The line of the next stanza.
fn next_line(alloc: Global, stanzas: &mut Stanzas<'_>) -> Result<Option<u64>, ControlError> {
    match stanzas.next(alloc) {
        Ok(Some(stanza)) => {
            let line = stanza.line;
            drop(stanza);
            Ok(Some(line))
        }
        Ok(None) => Ok(None),
        Err(error) => Err(error),
    }
}

/// Whether the stanzas of a text come in these steps.
fn come(alloc: Global, text: &str, steps: &[Step]) -> bool {
    let mut stanzas = Stanzas::new(text.as_bytes());
    for (has_next, comes) in steps {
        if stanzas.has_next() != *has_next || next_line(alloc, &mut stanzas) != *comes {
            return false;
        }
    }
    true
}

#[test]
fn stanzas_to_the_end(rt: HostRuntime) {
    assert!(rt; come(rt.alloc(), TWO_STANZAS, TO_THE_END));
}

#[test]
fn a_refusal_is_for_good(rt: HostRuntime) {
    assert!(rt; come(rt.alloc(), "A: x\n\nB\n\nC: z\n", FAULT_AT_SECOND));
}

#[test]
fn a_line_is_split_off(rt: HostRuntime) {
    let (line, rest) = split_line(b"a\nb");
    assert!(rt; line == b"a".as_slice() && rest == b"b".as_slice());
}

/// Makes a text of many bytes `a` but for its front.
fn lengthen(text: &mut Vec<u8>, front: &str) -> Result<(), AllocError> {
    text.extend_from_slice(front.as_bytes())?;
    text.resize(1_048_576, b'a')
}

/// Adds fields of 2000 different names, one a line, and what comes behind them.
fn push_fields(text: &mut String, behind: &str) -> Result<(), AllocError> {
    for number in 0..2000 {
        writeln!(text, "N{number}: v")?;
    }
    text.push_str(behind)
}

/// A front or what comes behind, and the stanzas.
type Long = (&'static str, Counted);

const LONG: &[Long] = &[("", Err(ControlError::NoColon(1))), ("Tag: ", Ok(1))];

const MANY: &[Long] = &[
    ("", Ok(1)),
    ("n1999: w\n", Err(ControlError::DoubleField(2001))),
];

/// Whether a long text with the front of a row has its stanzas.
fn is_counted_long(alloc: Global, row: &Long) -> bool {
    let mut text = Vec::new(alloc);
    let so = lengthen(&mut text, row.0).is_ok() && count(alloc, text.as_slice()) == row.1;
    drop(text);
    so
}

/// Whether many fields, and what comes behind them in a row, have its stanzas.
fn is_counted_many(alloc: Global, row: &Long) -> bool {
    let mut text = String::new(alloc);
    let so = push_fields(&mut text, row.0).is_ok() && count(alloc, text.as_bytes()) == row.1;
    drop(text);
    so
}

#[test]
fn long_lines_and_many_fields(rt: HostRuntime) {
    for row in LONG {
        assert!(rt; is_counted_long(rt.alloc(), row));
    }
    for row in MANY {
        assert!(rt; is_counted_many(rt.alloc(), row));
    }
}

/// Values, and what is left of them without white space at both ends.
const TRIMMED: &[(&str, &str)] = &[
    (" a b\n", "a b"),
    ("\t a\n b \n", "a\n b"),
    (" \t\n", ""),
    ("a", "a"),
];

/// The first value of which something else is left.
fn wrong_trim(rows: &[(&'static str, &'static str)]) -> Option<&'static str> {
    for (text, value) in rows {
        if trimmed(text.as_bytes()) != value.as_bytes() {
            return Some(text);
        }
    }
    None
}

#[test]
fn values_are_trimmed(rt: HostRuntime) {
    hold(&rt, wrong_trim(TRIMMED));
}

#[test]
fn the_laws_hold() {
    one_reading_or_fault();
    one_list_or_fault();
    values_take_bytes();
}
