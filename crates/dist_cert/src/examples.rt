//! Worked examples: whole texts that are accepted, and two that are refused.
ghost use Rattle.dist_cert.specs.ChallengedExamples.{ChallengedIsAccepted};
ghost use Rattle.dist_cert.specs.EmptyExamples.{EmptyIsAccepted};
ghost use Rattle.dist_cert.specs.RefusedExamples.{ClaimIsMissed, HintIsMissed};
ghost use Rattle.dist_cert.specs.TenLinesExamples.{TenLinesAreAccepted};

/// A law: these three certificates are accepted as a whole, each over the archive that its file states. One is of kind strong
/// and has ten lines, one is that of the empty archive, and one is of kind challenged.
pub fn examples_are_accepted()
    ensures ten_lines { TenLinesAreAccepted }
    ensures empty { EmptyIsAccepted }
    ensures challenged { ChallengedIsAccepted }
{}

/// A law: the certificate of ten lines is refused at the line that a missing hint leaves bad, and at the end that a missing
/// claim makes too early.
pub fn edits_are_refused()
    ensures hint { HintIsMissed }
    ensures claim { ClaimIsMissed }
{}
