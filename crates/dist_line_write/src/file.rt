//! The file that lines are written to.
ghost use Rattle.std.specs.Prelude.{[], IfErr, OnErr, OnOk};
ghost use Rattle.dist_outside.specs.DeskView.{Closed, Holds, NotCreated};
ghost use Rattle.dist_outside.specs.Files.{IsNotWriting, IsWriting, Writing, where_told};
ghost use Rattle.dist_outside.specs.Reading.{DeskWriteCause};

use dist_outside::{Desk, Trouble, WorkError};

/// Makes an empty file to be written.
pub fn create_file<D: Desk>(desk: &mut D, name: &str) -> Result<(), WorkError>
    requires idle { IsNotWriting (D.view desk.old).mode }
    ensures ok { OnOk result (Holds name.now [] (Writing (where_told (D.view desk.old).files name.now)) (D.view desk.old) (D.view desk.new)) }
    ensures err { OnErr result (NotCreated name.now (D.view desk.old) (D.view desk.new)) }
    ensures cause { IfErr result (λ error. DeskWriteCause error (D.view desk.old) (D.view desk.new)) }
{
    match desk.create(name) {
        Ok(()) => Ok(()),
        Err(Trouble::Failed) => Err(WorkError::WriteFault),
        Err(Trouble::NoMemory) => Err(WorkError::NoMemory),
    }
}

/// Ends the writing of a file.
pub fn close_file<D: Desk>(desk: &mut D) -> Result<(), WorkError>
    requires writing { IsWriting (D.view desk.old).mode }
    ensures closed { Closed (D.view desk.old) (D.view desk.new) }
    ensures cause { IfErr result (λ error. DeskWriteCause error (D.view desk.old) (D.view desk.new)) }
{
    match desk.close() {
        Ok(()) => Ok(()),
        Err(Trouble::Failed) => Err(WorkError::WriteFault),
        Err(Trouble::NoMemory) => Err(WorkError::NoMemory),
    }
}
