//! How a run ends, as a number.
ghost use Rattle.std.specs.Prelude.{◌≡◌};
ghost use Rattle.dist_commands.specs.Status.{number_of};

/// The status of a run.
#[derive(Clone, Copy, Debug, PartialEq, Eq)]
pub enum Status {
    Done,
    DoneWithUndecided,
    BadWords,
    BadPackages,
    CertificateRefused,
    ReadFault,
    WriteFault,
    NoMemory,
    TooLarge,
    NotHealthy,
    BadList,
    BadJournal,
    NotAFuture,
    NoSuchPackage,
}

impl Status {
    /// The number that the program ends with.
    pub fn number(&self) -> u8
        ensures { result ≡ number_of self.now }
    {
        *self as u8
    }
}
