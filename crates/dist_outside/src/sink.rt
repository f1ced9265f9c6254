//! Where text goes out.
ghost use Rattle.std.specs.Prelude.{◌<◌, ◌≤◌, [], length, take, OnErr, IfOk, IfErr};
ghost use Rattle.dist_outside.specs.SinkView.{SinkView, Grew, SinkCause};

use crate::Trouble;

/// Takes bytes in pieces.
pub trait Sink {
    /// The bytes written so far, where the sink tells them, and its two counts, which never fall.
    ghost view: { Self → SinkView };

    /// Takes a front of the piece, and says how many bytes it took.
    fn write(&mut self, bytes: &[u8]) -> Result<usize, Trouble>
        ensures count { IfOk result (λ count. count ≤ length bytes.now) }
        ensures progress { IfOk result (λ count. 0 < length bytes.now → 0 < count) }
        ensures appended { IfOk result (λ count. Grew (take count bytes.now) (view self.old) (view self.new)) }
        ensures refused { OnErr result (Grew [] (view self.old) (view self.new)) }
        ensures cause { IfErr result (λ trouble. SinkCause trouble (view self.old) (view self.new)) };
}
