//! Texts that are written in pieces, so that they take no memory.
ghost use Rattle.std.specs.List.{flat_map};
ghost use Rattle.dist_commands.specs.Writes.{Writes};

use dist_outside::{Sink, WorkError, sink_grows, write_whole};

/// Writes the pieces one after another, up to the first that is refused.
pub(crate) fn write_pieces<E: Sink>(err: &mut E, pieces: &[&[u8]]) -> Result<(), WorkError>
    ensures { Writes (flat_map (λ piece. piece.now) pieces.now) result (E.view err.old) (E.view err.new) }
{
    sink_grows();
    for piece in pieces {
        match write_whole(err, piece) {
            Ok(()) => {}
            Err(error) => return Err(error),
        }
    }
    Ok(())
}
