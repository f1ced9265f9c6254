//! When a search begins again from the assumptions, after numbers of conflicts in Luby's order, and when it turns to the other
//! order of decisions, after episodes that grow.

/// Conflicts between restarts, times the terms of Luby's sequence 1 1 2 1 1 2 4 ..
const UNIT: u64 = 100;

/// Conflicts of the first episode, and of the second one. Each pair is twice as long as the one before.
const EPISODE: u64 = 5000;

/// The place in Luby's sequence, and the conflicts since the last restart; the same of the episode.
#[derive(Clone, Copy, Debug)]
pub struct Restarts {
    place: u64,
    term: u64,
    conflicts: u64,
    episode: u64,
    of_episode: u64,
    is_second: bool,
}

/// What is due before a decision.
#[derive(Clone, Copy)]
pub struct Due {
    /// The other order of decisions.
    pub turns: bool,
    /// The assumptions.
    pub again: bool,
}

impl Restarts {
    /// No conflict yet.
    pub fn new() -> Restarts {
        Restarts {
            place: 1,
            term: 1,
            conflicts: 0,
            episode: EPISODE,
            of_episode: 0,
            is_second: false,
        }
    }

    /// Counts a conflict.
    pub fn count(&mut self) {
        self.conflicts = self.conflicts.saturating_add(1);
        self.of_episode = self.of_episode.saturating_add(1);
    }

    /// What is due, which is taken to come now.
    pub fn take(&mut self) -> Due {
        let turns = self.take_turn();
        Due {
            turns,
            again: turns || self.take_due(),
        }
    }

    /// Whether an episode is at its end, after which the next one is taken to begin.
    fn take_turn(&mut self) -> bool {
        if self.of_episode < self.episode {
            return false;
        }
        self.of_episode = 0;
        if self.is_second {
            self.episode = self.episode.saturating_mul(2);
        }
        self.is_second = !self.is_second;
        true
    }

    /// Whether it is time for a restart, which is taken to come now.
    fn take_due(&mut self) -> bool {
        if self.conflicts < self.term.saturating_mul(UNIT) {
            return false;
        }
        self.conflicts = 0;
        if self.place & self.place.wrapping_neg() == self.term {
            self.place = self.place.wrapping_add(1);
            self.term = 1;
        } else {
            self.term = self.term.saturating_mul(2);
        }
        true
    }
}
