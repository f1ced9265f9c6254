//! When an installation of today is guessed, and how many packages a guess adds.
//!
//! A guess pays only where an installation that is asked for would be large too. So each large one that was asked for without a
//! guess lets one guess follow, then two, four and so on, and a small one ends that. After a guess that failed, many large ones
//! pass without one, more each time.

/// So many packages are added to an installation of today at most.
const MOST_PACKAGES: u32 = 512;

/// So many guesses follow a large installation that was asked for, at most.
const MOST_GUESSES: u32 = 64;

/// So many large installations pass after a guess that failed, at most.
const LONGEST_PAUSE: u32 = 1023;

/// What is kept of guesses. It decides costs alone.
#[derive(Clone, Copy)]
pub(crate) struct Ahead {
    /// How many packages the next guess adds: two at least, since an installation that is asked for has the first one anyway.
    packages: u32,
    /// How many guesses followed the latest large installation that was asked for, and how many of them are left.
    guesses: u32,
    left: u32,
    /// How many large installations pass after the next guess that fails, less one and halved, and how many of them are left.
    pause: u32,
    waiting: u32,
    /// Whether the latest installation of today was guessed.
    guessed: bool,
}

impl Ahead {
    pub(crate) fn new() -> Ahead {
        Ahead {
            packages: MOST_PACKAGES,
            guesses: 0,
            left: 0,
            pause: 0,
            waiting: 0,
            guessed: false,
        }
    }

    /// How many packages the next guess adds, where the latest installation of today is large or not; 0: there is no guess.
    pub(crate) fn next(&mut self, large: bool) -> u32 {
        if !self.guessed {
            self.note_asked(large);
        }
        self.guessed = false;
        if self.left == 0 { 0 } else { self.packages }
    }

    /// Notes an installation that was asked for without a guess.
    fn note_asked(&mut self, large: bool) {
        if !large {
            self.guesses = 0;
            self.left = 0;
        } else if self.waiting > 0 {
            self.waiting -= 1;
        } else {
            self.guesses = self.guesses.saturating_mul(2).max(1).min(MOST_GUESSES);
            self.left = self.guesses;
        }
    }

    /// Notes whether a guess was right.
    pub(crate) fn note_guess(&mut self, right: bool) {
        self.guessed = right;
        if right {
            self.left = self.left.saturating_sub(1);
            self.packages = self.packages.saturating_mul(2).min(MOST_PACKAGES);
            self.pause = 0;
        } else {
            self.guesses = 0;
            self.left = 0;
            self.packages = (self.packages / 2).max(2);
            self.pause = self
                .pause
                .saturating_mul(2)
                .saturating_add(1)
                .min(LONGEST_PAUSE);
            self.waiting = self.pause;
        }
    }
}
