//! The words of a line, read without a test of their form: a line that is no text of words gives some words all the same.
//! They are read one after another and put straight into the lists of a record, so that a long line is kept once.
ghost use Rattle.std.specs.Prelude.{◌≡◌, ◌<◌, IfOk, OnOk};
ghost use Rattle.dist_cert.specs.DecodedPrivate as of;
ghost use Rattle.dist_cert.specs.LooseWords.{with_byte, loose_words, IsWord, Gives, GivesListed};

use crate::lists::{Items, Literals, Numbers, Pairs};
use std::alloc::{AllocError, Global};
use std::marker::Model;

/// A word with one byte more.
fn extended(word: (u32, bool), byte: u8) -> (u32, bool)
    ensures { result ≡ with_byte word byte }
{
    if byte == b'-' {
        return (word.0, false);
    }
    let digit = u32::from(byte.wrapping_sub(b'0'));
    (word.0.wrapping_mul(10).wrapping_add(digit), word.1)
}

/// The word up to the next space or the end, and how many bytes it has.
fn word_of(bytes: &[u8]) -> ((u32, bool), usize)
    ensures { IsWord bytes.now result }
{
    let mut word = (0, true);
    for (i, byte) in bytes.iter().enumerate() {
        if *byte == b' ' {
            return (word, i);
        }
        word = extended(word, *byte);
    }
    (word, bytes.len())
}

/// The words that are left of a text, each behind one byte.
#[derive(Drop)]
pub(crate) struct Words<'a> {
    text: &'a [u8],
}

impl<'a> Model for Words<'a> {
    ghost use Rattle.std.specs.Prelude.{List};
    ghost use Rattle.dist_cert.specs.Form.{Word};
    ghost use Rattle.dist_cert.specs.LooseWords.{loose_words};

    ghost Value = { List Word };

    ghost view = { λ w. loose_words w.text.now };
}

impl<'a> Words<'a> {
    /// The words of a text.
    pub(crate) fn new(text: &'a [u8]) -> Words<'a>
        ensures { result ≡ loose_words text.now }
    {
        Words { text }
    }

    /// The next word.
    pub(crate) fn next(&mut self) -> Option<(u32, bool)>
        ensures { Gives self.old self.new result }
    {
        match self.text {
            [] => None,
            [_, bytes @ ..] => {
                let (word, count) = word_of(bytes);
                self.text = &bytes[count..];
                Some(word)
            }
        }
    }

    /// The number of the next word, or 0 where there is none.
    pub(crate) fn first(&mut self) -> u32
        ensures number { result ≡ of.first self.old }
        ensures behind { self.new ≡ of.rest self.old }
    {
        match self.next() {
            None => 0,
            Some(word) => word.0,
        }
    }

    /// The next word of a list, which ends at a 0.
    fn listed(&mut self) -> Option<(u32, bool)>
        ensures { GivesListed self.old self.new result }
    {
        match self.next() {
            Some(word) if word.0 > 0 => Some(word),
            _ => None,
        }
    }

    /// The literals up to the next 0.
    pub(crate) fn literals(&mut self, alloc: Global) -> Result<Literals, AllocError>
        ensures read { IfOk result (λ list. list ≡ of.before self.old) }
        ensures behind { OnOk result (self.new ≡ of.after self.old) }
    {
        let mut list = Items::new(alloc);
        while let Some(word) = self.listed() {
            list.push(word)?;
        }
        Ok(list)
    }

    /// The numbers up to the next 0.
    pub(crate) fn numbers(&mut self, alloc: Global) -> Result<Numbers, AllocError>
        ensures read { IfOk result (λ list. list ≡ of.numbers (of.before self.old)) }
        ensures behind { OnOk result (self.new ≡ of.after self.old) }
    {
        let mut list = Items::new(alloc);
        while let Some(word) = self.listed() {
            list.push(word.0)?;
        }
        Ok(list)
    }

    /// The numbers up to the next 0, two and two.
    pub(crate) fn pairs(&mut self, alloc: Global) -> Result<Pairs, AllocError>
        ensures read { IfOk result (λ list. list ≡ of.pairs (of.before self.old)) }
        ensures behind { OnOk result (self.new ≡ of.after self.old) }
    {
        let mut list = Items::new(alloc);
        while let Some(first) = self.listed() {
            let Some(second) = self.listed() else {
                return Ok(list);
            };
            list.push((first.0, second.0))?;
        }
        Ok(list)
    }
}
