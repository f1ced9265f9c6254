//! The name of what is wrong with a journal.
ghost use Rattle.std.specs.Prelude.{◌≡◌};
ghost use Rattle.dist_commands.specs.JournalText.{journal_fault_text, step_error_text};

use dist_archive::StepError;
use dist_journal::JournalFault;

/// The name of a reason to refuse a step.
fn step_error_text(error: StepError) -> &'static [u8]
    ensures { result.now ≡ step_error_text error }
{
    match error {
        StepError::OtherArchitecture => b"OtherArchitecture",
        StepError::NotAbove => b"NotAbove",
        StepError::NotMember(_) => b"NotMember",
        StepError::NotAtVersion(_) => b"NotAtVersion",
        StepError::WrongProvides(_) => b"WrongProvides",
        StepError::NotHeld => b"NotHeld",
        StepError::NotOne => b"NotOne",
        StepError::NameTaken => b"NameTaken",
        StepError::NameVirtual => b"NameVirtual",
        StepError::HasProvides => b"HasProvides",
        StepError::NoMemory => b"NoMemory",
    }
}

/// The name of a fault.
pub(crate) fn journal_fault_text(fault: JournalFault) -> &'static [u8]
    ensures { result.now ≡ journal_fault_text fault }
{
    match fault {
        JournalFault::Stray => b"Stray",
        JournalFault::BadStep => b"BadStep",
        JournalFault::UnknownName => b"UnknownName",
        JournalFault::BadBlock => b"BadBlock",
        JournalFault::Refused(error) => step_error_text(error),
    }
}
