//! The questions that a file may ask.
ghost use Rattle.std.specs.Prelude.{◌≡◌, ◌≢◌, ◌↔◌, ◌+◌, ◌≤◌, ◌∷◌, ℕ, [], IsTrue, MatchOption};
ghost use Rattle.dist_cert.specs.ClaimRules.{no, yes};
ghost use Rattle.dist_space.specs.Space.{SpaceView};
ghost use Rattle.dist_repair.specs.Answered.{Asked, AsksAlone, AsksAt};
ghost use Rattle.dist_repair.specs.NotesPrivate.{AreWordsOf, IsAlone, IsAt, IsAtNone};
ghost use Rattle.dist_base.specs.declared.TheConstants.{MAX_MOST};

use std::marker::Model;

/// The variables of the questions on a package.
#[derive(Debug, Drop)]
pub struct Words {
    /// The package's own.
    pub(crate) own: u32,
    /// That more than none of all clusters have moved. Behind it stand those of greater numbers, up to the most.
    pub(crate) first: u32,
    pub(crate) most: u32,
}

impl Model for Words {
    ghost use Rattle.std.specs.Prelude.{◌+◌, ◌<◌, ◌≤◌, ◌^◌};
    ghost use Rattle.dist_base.specs.declared.TheConstants.{MAX_MOST};
    ghost use Rattle.dist_repair.specs.NotesPrivate.{WordsView};

    ghost Value = { WordsView };

    ghost view = { λ w. record { own = w.own; first = w.first; most = w.most } };

    ghost invariant = { λ w. (w.first + w.most < 2 ^ 32) × (w.most ≤ MAX_MOST) };
}

impl Words {
    /// The most that is counted to.
    pub fn most(&self) -> u32
        ensures value { result ≡ self.now.most }
        ensures stated { result ≤ MAX_MOST }
    {
        self.most
    }

    /// The question of the package alone.
    pub fn alone(&self) -> [(u32, bool); 1]
        ensures value { result ≡ yes self.now.own ∷ [] }
        ensures asks { (s : SpaceView) (asked : Asked) → AreWordsOf s asked self.now → AsksAlone s asked result }
    {
        [(self.own, true)]
    }

    /// The question at a number: the package, where not more than so many of all clusters have moved.
    pub fn at(&self, number: u32) -> [(u32, bool); 2]
        requires { number ≤ self.now.most }
        ensures value { result ≡ yes self.now.own ∷ no (self.now.first + number) ∷ [] }
        ensures asks { (s : SpaceView) (asked : Asked) → AreWordsOf s asked self.now → AsksAt s asked number result }
    {
        [(self.own, true), (self.first + number, false)]
    }

    /// Whether a question is that of the package alone.
    pub(crate) fn is_alone(&self, question: &[(u32, bool)]) -> bool
        ensures { IsTrue result ↔ IsAlone self.now question.now }
    {
        question.len() == 1 && self.is_own(question[0])
    }

    /// Whether a word is the package.
    fn is_own(&self, word: (u32, bool)) -> bool
        ensures { IsTrue result ↔ (word ≡ yes self.now.own) }
    {
        word.1 && word.0 == self.own
    }

    /// The number j of a word that says that not more than j of all clusters have moved.
    fn number_in(&self, word: (u32, bool)) -> Option<u32>
        ensures { MatchOption result ((j : ℕ) → j ≤ self.now.most → word ≢ no (self.now.first + j)) (λ j. (j ≤ self.now.most) × (word ≡ no (self.now.first + j))) }
    {
        if word.1 || word.0 < self.first || word.0 - self.first > self.most {
            None
        } else {
            Some(word.0 - self.first)
        }
    }

    /// The number j of a question at j.
    pub(crate) fn number_of(&self, question: &[(u32, bool)]) -> Option<u32>
        ensures { MatchOption result (IsAtNone self.now question.now) (IsAt self.now question.now) }
    {
        if question.len() != 2 {
            return None;
        }
        if self.is_own(question[0]) {
            return self.number_in(question[1]);
        }
        if self.is_own(question[1]) {
            return self.number_in(question[0]);
        }
        None
    }
}
