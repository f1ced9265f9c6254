//! What a file speaks of, and which questions and installations are on it.
ghost use Rattle.std.specs.Prelude.{◌≡◌, IfOk, MatchOption};
ghost use Rattle.std.specs.List.{filter_map, list_all, list_any};
ghost use Rattle.dist_explain.specs.Answered.{Selects};
ghost use Rattle.dist_explain.specs.AskedPrivate.{SelectsNone, is_on, is_package, relation_of};

use crate::listed::put_in_order;
use std::alloc::{AllocError, Global};

/// What a file speaks of.
#[derive(Clone, Copy, Debug)]
pub struct Asked {
    /// How many packages there are, whose variables come first.
    pub packages: u32,
    /// How many relations there are, whose selectors come next.
    pub relations: u32,
    /// The package by its variable, so from 1, as it stands in the file. Elsewhere packages are numbered from 0.
    pub number: u32,
}

impl Asked {
    /// Whether a word is the package.
    fn is_package(&self, word: (u32, bool)) -> bool
        ensures { result ≡ is_package self.now word }
    {
        word.1 && word.0 == self.number
    }

    /// The relation whose selector a word is.
    fn relation_of(&self, word: (u32, bool)) -> Option<u32>
        ensures { result ≡ relation_of self.now word }
    {
        if word.1 && self.packages < word.0 && word.0 - self.packages <= self.relations {
            Some(word.0 - self.packages)
        } else {
            None
        }
    }

    /// Whether a word is the package or a selector.
    fn is_on(&self, word: (u32, bool)) -> bool
        ensures { result ≡ is_on self.now word }
    {
        self.is_package(word) || self.relation_of(word).is_some()
    }

    /// Whether all words of a question are the package or selectors.
    fn is_alone(&self, question: &[(u32, bool)]) -> bool
        ensures { result ≡ list_all (is_on self.now) question.now }
    {
        question.iter().all(|word| self.is_on(*word))
    }

    /// Whether a word of a question is the package.
    fn has_package_word(&self, question: &[(u32, bool)]) -> bool
        ensures { result ≡ list_any (is_package self.now) question.now }
    {
        question.iter().any(|word| self.is_package(*word))
    }

    /// The relations whose selectors stand in a question.
    fn relations_of(&self, alloc: Global, question: &[(u32, bool)]) -> Result<Vec<u32>, AllocError>
        ensures { IfOk result (λ numbers. numbers.items ≡ filter_map (relation_of self.now) question.now) }
    {
        question
            .iter()
            .filter_map(|word| self.relation_of(*word))
            .collect(alloc)
    }

    /// The relations that a question selects, rising, if it is on the package and selectors alone.
    pub(crate) fn selected(
        &self,
        alloc: Global,
        question: &[(u32, bool)],
    ) -> Result<Option<Vec<u32>>, AllocError>
        ensures { IfOk result (λ found. MatchOption found (SelectsNone self.now question.now) (λ numbers. Selects self.now question.now numbers.items)) }
    {
        if !self.is_alone(question) || !self.has_package_word(question) {
            return Ok(None);
        }
        let mut numbers = self.relations_of(alloc, question)?;
        put_in_order(&mut numbers);
        Ok(Some(numbers))
    }
}
