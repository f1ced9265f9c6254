//! The order of two parts of versions, by turns: a start without digits, and then a run of digits, which is never computed.
//! Both parts are walked in step, so that a comparison ends with the shorter one.
ghost use Rattle.std.specs.Prelude.{◌≡◌, ◌+◌, ◌≤◌, IsTrue, false, length, map, take, drop, not, ◌==◌, min, nat_lt};
ghost use Rattle.std.specs.Char.{is_ascii_digit};
ghost use Rattle.std.specs.List.{list_all, prefix_len, suffix_len};
ghost use Rattle.std.specs.Ordering.{int_cmp, nat_cmp, ordering_then};
ghost use Rattle.std.specs.Str.Parse.{digits_value};
ghost use Rattle.dist_base.specs.Ascii.{digit_zero};
ghost use Rattle.dist_version.specs.Order.{weight_of, weight_at, text_start, digit_start, after_text, after_turn, number_of, weights_cmp, part_cmp};

use std::cmp::Ordering;

/// What a part begins with, and what follows.
#[derive(Clone, Copy)]
pub(crate) struct Turn<'a> {
    pub(crate) text: &'a [u8],
    pub(crate) digits: &'a [u8],
    pub(crate) rest: &'a [u8],
}

/// How many bytes stand before the first digit.
pub(crate) fn text_len(part: &[u8]) -> usize
    ensures value { result ≡ prefix_len (λ byte. not (is_ascii_digit byte)) part.now }
    ensures within { result ≤ length part.now }
{
    part.iter()
        .take_while(|byte| !byte.is_ascii_digit())
        .count()
}

/// How many digits stand at the start.
fn digits_len(part: &[u8]) -> usize
    ensures value { result ≡ prefix_len is_ascii_digit part.now }
    ensures within { result ≤ length part.now }
{
    part.iter().take_while(|byte| byte.is_ascii_digit()).count()
}

/// What a part begins with: its bytes before the first digit, and the digits after them.
pub(crate) fn next_turn(part: &[u8]) -> Turn<'_>
    ensures text { result.text.now ≡ text_start part.now }
    ensures digits { result.digits.now ≡ digit_start (after_text part.now) }
    ensures rest { result.rest.now ≡ after_turn part.now }
    ensures only_digits { IsTrue (list_all is_ascii_digit result.digits.now) }
{
    let (text, after) = part.split_at(text_len(part));
    let (digits, rest) = after.split_at(digits_len(after));
    Turn { text, digits, rest }
}

/// The weight of a byte that is no digit.
fn weight(byte: u8) -> i16
    ensures { result ≡ weight_of byte }
{
    match byte {
        b'~' => -1,
        b'A'..=b'Z' | b'a'..=b'z' => i16::from(byte),
        _ => i16::from(byte) + 256,
    }
}

/// The weight of the first byte, which is 0 of a digit and past the end.
pub(crate) fn first_weight(part: &[u8]) -> i16
    ensures { result ≡ weight_at (map weight_of (text_start part.now)) 0 }
{
    match part.first() {
        Some(byte) if !byte.is_ascii_digit() => weight(*byte),
        _ => 0,
    }
}

/// Whether a byte that is no digit stands first.
fn begins_with_text(part: &[u8]) -> bool
    ensures { result ≡ nat_lt 0 (prefix_len (λ byte. not (is_ascii_digit byte)) part.now) }
{
    match part.first() {
        Some(byte) => !byte.is_ascii_digit(),
        None => false,
    }
}

/// Compares the first bytes by their weights.
fn compare_heads(a: &[u8], b: &[u8]) -> Ordering
    ensures { result ≡ int_cmp (weight_at (map weight_of (text_start a.now)) 0) (weight_at (map weight_of (text_start b.now)) 0) }
{
    first_weight(a).cmp(&first_weight(b))
}

/// Compares two starts without digits by the weights of their bytes, up to the first that differ.
fn compare_texts(a: &[u8], b: &[u8]) -> Ordering
    ensures { result ≡ weights_cmp (map weight_of (text_start a.now)) (map weight_of (text_start b.now)) }
{
    let mut a = a;
    let mut b = b;
    loop {
        let order = compare_heads(a, b);
        if order.is_ne() || !begins_with_text(a) {
            return order;
        }
        a = &a[1..];
        b = &b[1..];
    }
}

/// How many zeros stand at the start.
fn zeros_len(part: &[u8]) -> usize
    ensures value { result ≡ prefix_len (λ digit. digit == digit_zero) part.now }
    ensures within { result ≤ length part.now }
{
    part.iter().take_while(|digit| **digit == b'0').count()
}

/// A part without the zeros that it begins with.
pub(crate) fn without_zeros(part: &[u8]) -> &[u8]
    ensures { result.now ≡ drop (prefix_len (λ digit. digit == digit_zero) part.now) part.now }
{
    &part[zeros_len(part)..]
}

/// Whether a digit stands first.
fn begins_with_digit(part: &[u8]) -> bool
    ensures { result ≡ nat_lt 0 (prefix_len is_ascii_digit part.now) }
{
    match part.first() {
        Some(byte) => byte.is_ascii_digit(),
        None => false,
    }
}

/// At how many places from the start both have a digit.
fn common_digits_len(a: &[u8], b: &[u8]) -> usize
    ensures within_a { result ≤ length a.now }
    ensures within_b { result ≤ length b.now }
    ensures value { result ≡ min (prefix_len is_ascii_digit a.now) (prefix_len is_ascii_digit b.now) }
{
    let shorter = a.len().min(b.len());
    let mut end = 0;
    while end < shorter && a[end].is_ascii_digit() && b[end].is_ascii_digit() {
        end += 1;
    }
    end
}

/// Compares the numbers that two parts begin with. The one with more digits behind its zeros is the greater.
pub(crate) fn compare_numbers(a: &[u8], b: &[u8]) -> Ordering
    ensures { result ≡ nat_cmp (digits_value 10 (digit_start a.now)) (digits_value 10 (digit_start b.now)) }
{
    let a = without_zeros(a);
    let b = without_zeros(b);
    let end = common_digits_len(a, b);
    match (begins_with_digit(&a[end..]), begins_with_digit(&b[end..])) {
        (true, false) => Ordering::Greater,
        (false, true) => Ordering::Less,
        _ => a[..end].cmp(&b[..end]),
    }
}

/// Compares the first turns of two parts, no further than to where their order is decided.
pub(crate) fn compare_turns(a: &[u8], b: &[u8]) -> Ordering
    ensures { result ≡ ordering_then
        (weights_cmp (map weight_of (text_start a.now)) (map weight_of (text_start b.now)))
        (nat_cmp (number_of a.now) (number_of b.now)) }
{
    let order = compare_texts(a, b);
    if order.is_ne() {
        return order;
    }
    compare_numbers(&a[text_len(a)..], &b[text_len(b)..])
}

/// How many bytes are compared at a step.
const STEP: usize = 16;

/// The length of a common start, in whole steps. The start may go on.
fn equal_steps(a: &[u8], b: &[u8]) -> usize
    ensures within_a { result ≤ length a.now }
    ensures within_b { result ≤ length b.now }
    ensures same { take result a.now ≡ take result b.now }
{
    let shorter = a.len().min(b.len());
    let mut end = 0;
    while STEP <= shorter - end && a[end..end + STEP] == b[end..end + STEP] {
        end += STEP;
    }
    end
}

/// The length of the longest common start.
fn equal_len(a: &[u8], b: &[u8]) -> usize
    ensures within { result ≤ length a.now }
    ensures same { take result a.now ≡ take result b.now }
{
    let shorter = a.len().min(b.len());
    let mut end = equal_steps(a, b);
    while end < shorter && a[end] == b[end] {
        end += 1;
    }
    end
}

/// How many digits stand at the end.
fn last_digits_len(part: &[u8]) -> usize
    ensures value { result ≡ suffix_len is_ascii_digit part.now }
    ensures within { result ≤ length part.now }
{
    part.iter()
        .rev()
        .take_while(|byte| byte.is_ascii_digit())
        .count()
}

/// What follows a common start of two parts, which ends in no digit: a run of digits is compared as a whole.
fn after_common<'a>(a: &'a [u8], b: &'a [u8]) -> (&'a [u8], &'a [u8])
    ensures order { part_cmp result.0.now result.1.now ≡ part_cmp a.now b.now }
    ensures shorter { length result.0.now + length result.1.now ≤ length a.now + length b.now }
{
    let common = &a[..equal_len(a, b)];
    let end = common.len() - last_digits_len(common);
    (&a[end..], &b[end..])
}

/// Compares two upstream versions, or two revisions.
pub(crate) fn compare_parts(a: &[u8], b: &[u8]) -> Ordering
    ensures { result ≡ part_cmp a.now b.now }
{
    let mut a = a;
    let mut b = b;
    while !a.is_empty() || !b.is_empty() {
        let (left, right) = after_common(a, b);
        let order = compare_turns(left, right);
        if order.is_ne() {
            return order;
        }
        a = next_turn(left).rest;
        b = next_turn(right).rest;
    }
    Ordering::Equal
}
