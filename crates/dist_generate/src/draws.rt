//! Draws from a linear congruential generator.
ghost use Rattle.std.specs.Prelude.{◌≡◌, ◌<◌};
ghost use Rattle.dist_generate.specs.Draws.{draw};

/// A generator of numbers, by its state.
#[derive(Drop)]
pub(crate) struct Draws {
    pub(crate) state: u32,
}

impl Draws {
    /// A number below another.
    pub(crate) fn draw(&mut self, below: u32) -> u32
        requires { 0 < below }
        ensures value { result ≡ (draw below self.old.state).0 }
        ensures moved { self.new.state ≡ (draw below self.old.state).1 }
        ensures within { result < below }
    {
        let next = u64::from(self.state) * 1_664_525 + 1_013_904_223;
        self.state = (next % 4_294_967_296) as u32;
        self.state / 65536 % below
    }
}
